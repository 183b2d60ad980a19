//! The report of a run.

ghost use Rattle.std.specs.Prelude.{◌≡◌, ◌++◌, IfOk, OnOk, OnErr};
ghost use Rattle.std.specs.List.{list_any};
ghost use Rattle.rh_plan.specs.Results.{all_results, is_failed};
ghost use Rattle.rh_journal.specs.Own.{run_of};
ghost use Rattle.rh_journal.specs.Tells.{Tells};
ghost use Rattle.rh_report.specs.Reports.{report_text, text_of};

use crate::failing::is_any_failed;
use crate::nodes::print_nodes;
use crate::promises::print_promises;
use crate::told::{Told, gathered};
use crate::totals::print_total;
use rh_injector::Faults;
use rh_journal::{Outcome, Shown};
use rh_plan::Plan;
use rh_words::{Bytes, OutOfMemory};
use std::alloc::Global;

/// Appends the report of a run of a plan under these faults, from its outcome alone.
pub fn print_report(
    alloc: Global,
    plan: &Plan,
    faults: &Faults,
    outcome: &Outcome,
    into: &mut Bytes,
) -> Result<(), OutOfMemory>
    requires { Tells (run_of plan.now faults.now) outcome.now.journal outcome.now.shown }
    ensures ok { OnOk result (into.new ≡ into.old ++ report_text plan.now faults.now) }
    ensures err { OnErr result (into.new ≡ into.old) }
{
    print_outcome(alloc, plan, faults, outcome, into)?;
    Ok(())
}

/// Appends the report as `print_report` does, and answers whether a task failed, as `has_failed` does.
///
/// One pass over the journal gathers for both how the nodes and their attempts ended and what was put, in tables by number. The lines
/// are then printed from the tables.
pub fn print_outcome(
    alloc: Global,
    plan: &Plan,
    faults: &Faults,
    outcome: &Outcome,
    into: &mut Bytes,
) -> Result<bool, OutOfMemory>
    requires { Tells (run_of plan.now faults.now) outcome.now.journal outcome.now.shown }
    ensures text { IfOk result (λ failed. into.new ≡ into.old ++ report_text plan.now faults.now) }
    ensures failed { IfOk result (λ failed. failed ≡ list_any (λ r. is_failed r.verdict) (all_results plan.now faults.now)) }
    ensures err { OnErr result (into.new ≡ into.old) }
{
    let Reported { text, failed } = composed(alloc, plan, faults, outcome)?;
    add(text, into)?;
    Ok(failed)
}

/// The report of an outcome, and whether a task failed.
#[derive(Drop)]
struct Reported {
    text: Bytes,
    failed: bool,
}

/// The report of an outcome, and whether a task failed.
fn composed(
    alloc: Global,
    plan: &Plan,
    faults: &Faults,
    outcome: &Outcome,
) -> Result<Reported, OutOfMemory>
    requires { Tells (run_of plan.now faults.now) outcome.now.journal outcome.now.shown }
    ensures text { IfOk result (λ c. c.text ≡ report_text plan.now faults.now) }
    ensures failed { IfOk result (λ c. c.failed ≡ list_any (λ r. is_failed r.verdict) (all_results plan.now faults.now)) }
{
    let _known = plan.nodes();
    let told = gathered(alloc, plan, outcome.journal.entries())?;
    let failed = is_any_failed(told.verdicts());
    let mut text = Bytes::new(alloc);
    print_all(alloc, plan, faults, &told, &outcome.shown, &mut text)?;
    Ok(Reported { text, failed })
}

/// Appends the first line, the lines of nodes and of promises, and the last line.
#[tactic(auto, using(std::proofs::Common::append_assoc))]
fn print_all(
    alloc: Global,
    plan: &Plan,
    faults: &Faults,
    told: &Told,
    shown: &Shown,
    into: &mut Bytes,
) -> Result<(), OutOfMemory>
    ensures { OnOk result (into.new ≡ into.old ++ text_of plan.now faults.now told.now shown.now) }
{
    into.append(b"rhr 1\n")?;
    print_nodes(alloc, plan, told, into)?;
    print_promises(alloc, plan, told, shown, into)?;
    print_total(alloc, plan, faults, told, into)?;
    Ok(())
}

/// Puts a text behind another. Where nothing stands there yet, none of it is copied.
fn add(text: Bytes, into: &mut Bytes) -> Result<(), OutOfMemory>
    ensures ok { OnOk result (into.new ≡ into.old ++ text) }
    ensures err { OnErr result (into.new ≡ into.old) }
{
    if into.as_slice().is_empty() {
        *into = text;
        return Ok(());
    }
    into.append(text.as_slice())
}
