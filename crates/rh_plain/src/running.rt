//! Running a plan on one thread.

ghost use Rattle.std.specs.Prelude.{◌≡◌, ◌<◌, ◌≤◌, ◌+◌, None, [], IfOk, OnOk, length, map, take};
ghost use Rattle.rh_words.specs.declared.limits.TheConstants.{MAX_AWAITS};
ghost use Rattle.rh_plan.specs.Plans.{OfNode};
ghost use Rattle.rh_plan.specs.Results.{blamed};
ghost use Rattle.rh_plan.specs.Judging.{node_result};
ghost use Rattle.rh_plan.specs.Users.{AreChecksOf};
ghost use Rattle.rh_journal.specs.Own.{run_of};
ghost use Rattle.rh_journal.specs.OneThread.{one_thread};
ghost use Rattle.rh_journal.specs.Tells.{Tells, shown_words};
ghost use Rattle.rh_schemes.specs.Judges.{result_data};
ghost use Rattle.rh_plain.specs.Values.{has_words};
ghost use Rattle.rh_plain.specs.Endings.{has_opened, group_verdict};
ghost use Rattle.rh_plain.specs.Runs.{AnswersNode, HasAwaited, IsBefore, IsSoFar, IsUnskipped};

use crate::awaited::Awaited;
use crate::ending::{has_opened, scope_ending};
use crate::progress::Progress;
use crate::values::Values;
use rh_check::Checks;
use rh_injector::Faults;
use rh_journal::{Outcome, one_thread_tells};
use rh_plan::{Cause, Plan, Verdict};
use rh_rules::Kind;
use rh_schemes::{Gate, NodeResult, Trials, judge};
use rh_words::OutOfMemory;
use std::alloc::Global;

/// Runs the nodes of a plan under these faults, one after another in the order of their numbers, on one thread. The outcome has the journal
/// of that, with worker 0 throughout, and the words of the promises that a report shows. The gate is told of worker 0.
///
/// An attempt reads the words that it awaits where they are, and the words of an accepted put are moved; those of a promise are given up with its last
/// reference, so a chain of `temp` promises needs little memory.
pub fn run_plain<C: Checks, G: Gate>(
    alloc: Global,
    plan: &Plan,
    faults: &Faults,
    checks: &C,
    gate: &G,
) -> Result<Outcome, OutOfMemory>
    requires checks { AreChecksOf plan.now (C.specs checks.now) }
    ensures journal { IfOk result (λ outcome. outcome.journal ≡ one_thread (run_of plan.now faults.now)) }
    ensures shown { IfOk result (λ outcome. outcome.shown ≡ shown_words (run_of plan.now faults.now)) }
    ensures tells { IfOk result (λ outcome. Tells (run_of plan.now faults.now) outcome.journal outcome.shown) }
{
    one_thread_tells();
    let _known = plan.nodes();
    let mut progress = Progress::new(alloc, plan)?;
    run_all(alloc, plan, faults, checks, gate, &mut progress)?;
    progress.into_outcome(alloc, plan, faults)
}

/// Runs all nodes, one after another.
fn run_all<C: Checks, G: Gate>(
    alloc: Global,
    plan: &Plan,
    faults: &Faults,
    checks: &C,
    gate: &G,
    progress: &mut Progress,
) -> Result<(), OutOfMemory>
    requires below { IsSoFar plan.now faults.now 0 progress.old }
    requires checks { AreChecksOf plan.now (C.specs checks.now) }
    ensures { OnOk result (IsSoFar plan.now faults.now (length plan.now.nodes) progress.new) }
{
    for node in 0..plan.nodes() {
        run_next(alloc, plan, node, faults, checks, gate, progress)?;
    }
    Ok(())
}

/// Runs the next node.
fn run_next<C: Checks, G: Gate>(
    alloc: Global,
    plan: &Plan,
    node: u32,
    faults: &Faults,
    checks: &C,
    gate: &G,
    progress: &mut Progress,
) -> Result<(), OutOfMemory>
    requires within { node < length plan.now.nodes }
    requires below { IsSoFar plan.now faults.now node progress.old }
    requires checks { AreChecksOf plan.now (C.specs checks.now) }
    ensures { OnOk result (IsSoFar plan.now faults.now (node + 1) progress.new) }
{
    let ended = end_next(alloc, plan, node, faults, checks, gate, progress)?;
    progress.record(alloc, plan, faults, node, ended)
}

/// How the next node ends.
fn end_next<C: Checks, G: Gate>(
    alloc: Global,
    plan: &Plan,
    node: u32,
    faults: &Faults,
    checks: &C,
    gate: &G,
    progress: &Progress,
) -> Result<NodeResult, OutOfMemory>
    requires within { node < length plan.now.nodes }
    requires below { IsSoFar plan.now faults.now node progress.now }
    requires checks { AreChecksOf plan.now (C.specs checks.now) }
    ensures { IfOk result (λ r. AnswersNode plan.now faults.now node r) }
{
    let _known = plan.nodes();
    let (verdicts, values) = (progress.verdicts(), progress.values());
    end_node(alloc, plan, node, faults, checks, gate, verdicts, values)
}

/// How a node ends, given how the lower nodes ended and the words that it awaits.
fn end_node<C: Checks, G: Gate>(
    alloc: Global,
    plan: &Plan,
    node: u32,
    faults: &Faults,
    checks: &C,
    gate: &G,
    verdicts: &[Verdict],
    values: &Values,
) -> Result<NodeResult, OutOfMemory>
    requires within { node < length plan.now.nodes }
    requires before { IsBefore plan.now faults.now node verdicts.now values.now }
    requires checks { AreChecksOf plan.now (C.specs checks.now) }
    ensures { IfOk result (λ r. AnswersNode plan.now faults.now node r) }
{
    let _known = plan.nodes();
    match plan.kind(node) {
        Kind::Scope => {
            let ending = scope_ending(verdicts, plan.members(node));
            Ok(without_attempts(alloc, ending))
        }
        Kind::Group => {
            let ending = group_ending(cause_of(plan, node, verdicts, values));
            Ok(without_attempts(alloc, ending))
        }
        Kind::Task => match cause_of(plan, node, verdicts, values) {
            Some(cause) => Ok(without_attempts(alloc, Verdict::Skipped(cause))),
            None => judge_task(alloc, plan, node, faults, checks, gate, values),
        },
    }
}

/// How a task without a cause is judged, on the words that it awaits, which are not copied.
fn judge_task<C: Checks, G: Gate>(
    alloc: Global,
    plan: &Plan,
    node: u32,
    faults: &Faults,
    checks: &C,
    gate: &G,
    values: &Values,
) -> Result<NodeResult, OutOfMemory>
    requires task { IsUnskipped plan.now faults.now node }
    requires awaited { HasAwaited plan.now faults.now node values.now }
    requires checks { AreChecksOf plan.now (C.specs checks.now) }
    ensures { IfOk result (λ r. AnswersNode plan.now faults.now node r) }
{
    let _known = plan.nodes();
    let inputs = Awaited {
        values,
        awaits: plan.awaits(node),
    };
    judge(alloc, 0, plan, node, &inputs, faults, checks, gate)
}

/// Why a task is skipped or a group stays closed, where it is.
fn cause_of(plan: &Plan, node: u32, verdicts: &[Verdict], values: &Values) -> Option<Cause>
    requires { node < length plan.now.nodes }
    ensures { OfNode plan.now node (λ n. result ≡ blamed n.group (has_opened verdicts.now n.group) n.awaits (map (has_words values.now) n.awaits)) }
{
    let _known = plan.nodes();
    let awaits = plan.awaits(node);
    let present = are_present(values, awaits);
    blame(plan, node, verdicts, &present[..awaits.len()])
}

/// The same, given which of the awaited promises have words.
fn blame(plan: &Plan, node: u32, verdicts: &[Verdict], present: &[bool]) -> Option<Cause>
    requires { node < length plan.now.nodes }
    ensures { OfNode plan.now node (λ n. result ≡ blamed n.group (has_opened verdicts.now n.group) n.awaits present.now) }
{
    let opened = has_opened(verdicts, plan.group_of(node));
    plan.blame(node, opened, present)
}

/// For each awaited promise, of which there are at most 16, whether it has words.
fn are_present(values: &Values, awaits: &[u32]) -> [bool; 16]
    requires { length awaits.now ≤ MAX_AWAITS }
    ensures { take (length awaits.now) result ≡ map (has_words values.now) awaits.now }
{
    let mut present = [false; 16];
    for (at, promise) in awaits.iter().enumerate() {
        present[at] = values.has(*promise);
    }
    present
}

/// How a group ends.
fn group_ending(cause: Option<Cause>) -> Verdict
    ensures { result ≡ group_verdict cause }
{
    match cause {
        None => Verdict::Opened,
        Some(cause) => Verdict::Closed(cause),
    }
}

/// A node without attempts ended so.
fn without_attempts(alloc: Global, verdict: Verdict) -> NodeResult
    ensures { result_data result ≡ node_result verdict [] None }
{
    NodeResult {
        verdict,
        trials: Trials::new(alloc),
        accepted: None,
    }
}
