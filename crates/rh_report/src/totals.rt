//! The last line of a report.

ghost use Rattle.std.specs.Prelude.{◌≡◌, ◌<◌, ◌++◌, OnOk, count_by, length};
ghost use Rattle.rh_injector.specs.declared.faults.Strike.{Strike};
ghost use Rattle.rh_plan.specs.Results.{is_accepted, is_failed, is_skipped};
ghost use Rattle.rh_report.specs.Totals.{endings_text, is_put_at, is_task_at, made_by, made_text, put_count, task_count, total_line};

use crate::ends::{put_at, trials_at};
use crate::promises::is_declared;
use crate::told::Told;
use crate::trials::Trials;
use rh_injector::{Faults, Strike};
use rh_plan::{Plan, Verdict};
use rh_rules::Kind;
use rh_words::{Bytes, OutOfMemory, print_labelled};
use std::alloc::Global;

/// Appends the last line.
#[tactic(auto, using(std::proofs::Common::append_assoc))]
pub(crate) fn print_total(
    alloc: Global,
    plan: &Plan,
    faults: &Faults,
    told: &Told,
    into: &mut Bytes,
) -> Result<(), OutOfMemory>
    ensures { OnOk result (into.new ≡ into.old ++ total_line plan.now faults.now told.now) }
{
    print_endings(alloc, plan, told, into)?;
    print_made(alloc, plan, faults, told, into)?;
    Ok(())
}

/// Appends how many tasks there are and how they ended.
#[tactic(auto, using(std::proofs::Common::append_assoc), unfolding(crate::specs::Totals::endings_text))]
fn print_endings(
    alloc: Global,
    plan: &Plan,
    told: &Told,
    into: &mut Bytes,
) -> Result<(), OutOfMemory>
    ensures { OnOk result (into.new ≡ into.old ++ endings_text plan.now told.now) }
{
    let verdicts = told.verdicts();
    print_labelled(alloc, b"total tasks ", task_count(plan), into)?;
    print_labelled(alloc, b" accepted ", accepted_count(verdicts), into)?;
    print_labelled(alloc, b" failed ", failed_count(verdicts), into)?;
    print_labelled(alloc, b" skipped ", skipped_count(verdicts), into)?;
    Ok(())
}

/// Appends how many declared promises were put, and how many faults were in an attempt that was made.
#[tactic(auto, using(std::proofs::Common::append_assoc), unfolding(crate::specs::Totals::made_text))]
fn print_made(
    alloc: Global,
    plan: &Plan,
    faults: &Faults,
    told: &Told,
    into: &mut Bytes,
) -> Result<(), OutOfMemory>
    ensures { OnOk result (into.new ≡ into.old ++ made_text plan.now faults.now told.now) }
{
    let made = made_count(faults.as_slice(), told.attempts());
    print_labelled(alloc, b" puts ", put_count(plan, told), into)?;
    print_labelled(alloc, b" faults ", made, into)?;
    print_labelled(alloc, b" of ", u64::from(faults.len()), into)?;
    into.append(b"\n")?;
    Ok(())
}

/// How many tasks a plan has.
fn task_count(plan: &Plan) -> u64
    ensures { result ≡ task_count plan.now }
{
    let mut tasks: u64 = 0;
    for node in 0..plan.nodes() {
        tasks += u64::from(is_task(plan, node));
    }
    tasks
}

/// Whether a node is a task.
fn is_task(plan: &Plan, node: u32) -> bool
    requires { node < length plan.now.nodes }
    ensures { result ≡ is_task_at plan.now node }
{
    plan.kind(node) == Kind::Task
}

/// How many tasks were accepted, as they were made or corrected.
fn accepted_count(verdicts: &[Verdict]) -> u64
    ensures { result ≡ count_by is_accepted verdicts.now }
{
    verdicts.iter().filter(|v| is_accepted(**v)).count() as u64
}

fn is_accepted(verdict: Verdict) -> bool
    ensures { result ≡ is_accepted verdict }
{
    match verdict {
        Verdict::Accepted { .. } => true,
        Verdict::Corrected { .. } => true,
        _ => false,
    }
}

/// How many tasks failed.
fn failed_count(verdicts: &[Verdict]) -> u64
    ensures { result ≡ count_by is_failed verdicts.now }
{
    verdicts.iter().filter(|v| is_failed(**v)).count() as u64
}

pub(crate) fn is_failed(verdict: Verdict) -> bool
    ensures { result ≡ is_failed verdict }
{
    matches!(verdict, Verdict::Failed)
}

/// How many tasks were skipped.
fn skipped_count(verdicts: &[Verdict]) -> u64
    ensures { result ≡ count_by is_skipped verdicts.now }
{
    verdicts.iter().filter(|v| is_skipped(**v)).count() as u64
}

fn is_skipped(verdict: Verdict) -> bool
    ensures { result ≡ is_skipped verdict }
{
    matches!(verdict, Verdict::Skipped(_))
}

/// How many declared promises were put.
fn put_count(plan: &Plan, told: &Told) -> u64
    ensures { result ≡ put_count plan.now told.now }
{
    let mut puts: u64 = 0;
    for promise in 0..plan.promises() {
        puts += u64::from(is_put(plan, told, promise));
    }
    puts
}

/// Whether a promise was declared, and put.
fn is_put(plan: &Plan, told: &Told, promise: u32) -> bool
    requires { promise < length plan.now.promises }
    ensures { result ≡ is_put_at plan.now told.now promise }
{
    is_declared(plan, promise) && put_at(told.puts(), promise).is_some()
}

/// Of how many of the faults the attempt was made.
fn made_count(strikes: &[Strike], attempts: &[Trials]) -> u64
    ensures { result ≡ count_by (made_by attempts.now) strikes.now }
{
    strikes.iter().filter(|s| was_made(attempts, s)).count() as u64
}

/// Whether the attempt of a fault was made.
fn was_made(attempts: &[Trials], strike: &Strike) -> bool
    ensures { result ≡ made_by attempts.now strike.now }
{
    (strike.attempt as usize) < trials_at(attempts, strike.node).len()
}
