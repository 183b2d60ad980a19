//! Judging a task by the scheme that makes it resilient.

ghost use Rattle.std.specs.Prelude.{◌≡◌, ◌++◌, ◌∷◌, [], Some, None, false, IfOk};
ghost use Rattle.rh_plan.specs.Asked.{IsTaskOn};
ghost use Rattle.rh_plan.specs.Users.{AreChecksOf};
ghost use Rattle.rh_attempt.specs.Attempting.{IsAttemptAt};
ghost use Rattle.rh_plan.specs.Judging.{node_result, are_same, replicated};
ghost use Rattle.rh_rules.specs.declared.node.Scheme.TheVariants.{Plain, Replicate, Replay, Abft};
ghost use Rattle.rh_plan.specs.declared.outcome.Trial.TheVariants as trial;
ghost use Rattle.rh_plan.specs.declared.outcome.Verdict.TheVariants.{Accepted, Corrected, Failed};
ghost use Rattle.rh_schemes.specs.Checking.{IsFirstFailingAt, IsTriedAt};
ghost use Rattle.rh_schemes.specs.Judges.{JudgesAs, HasScheme, IsReplayed, result_data};
ghost use Rattle.rh_plan.specs.Buffers.{PutsFit};
ghost use Rattle.rh_schemes.specs.Correcting.{placed, CorrectsAs, IsCheckedAgain, IsRestoredAt};

use crate::checking::first_failing;
use crate::correcting::restore;
use crate::gate::Gate;
use crate::result::{NodeResult, Trials};
use rh_attempt::{Buffer, attempt};
use rh_check::Checks;
use rh_injector::Faults;
use rh_plan::{Plan, Trial, Verdict};
use rh_rules::Scheme;
use rh_words::{Inputs, OutOfMemory};
use std::alloc::Global;

/// Judges a replicated task: two attempts, and a third where they differ.
pub fn replicate<I: Inputs, C: Checks, G: Gate>(
    alloc: Global,
    worker: u32,
    plan: &Plan,
    node: u32,
    inputs: &I,
    faults: &Faults,
    checks: &C,
    gate: &G,
) -> Result<NodeResult, OutOfMemory>
    requires task { IsTaskOn plan.now node (I.lists inputs.now) }
    requires checks { AreChecksOf plan.now (C.specs checks.now) }
    requires scheme { HasScheme plan.now node Replicate }
    ensures { IfOk result (λ r. JudgesAs plan.now faults.now node (I.lists inputs.now) r) }
{
    let first = gated(alloc, worker, plan, node, 0, inputs, faults, gate)?;
    with_second(alloc, worker, plan, node, inputs, faults, gate, first)
}

/// Makes the second attempt of a replicated task. Where it differs from the first, a third is made.
fn with_second<I: Inputs, G: Gate>(
    alloc: Global,
    worker: u32,
    plan: &Plan,
    node: u32,
    inputs: &I,
    faults: &Faults,
    gate: &G,
    first: Buffer,
) -> Result<NodeResult, OutOfMemory>
    requires task { IsTaskOn plan.now node (I.lists inputs.now) }
    requires scheme { HasScheme plan.now node Replicate }
    requires made { IsAttemptAt plan.now faults.now node (I.lists inputs.now) 0 first }
    ensures { IfOk result (λ r. JudgesAs plan.now faults.now node (I.lists inputs.now) r) }
{
    let second = gated(alloc, worker, plan, node, 1, inputs, faults, gate)?;
    if first.same(&second) {
        return first_and_second(alloc, first);
    }
    with_third(
        alloc, worker, plan, node, inputs, faults, gate, first, second,
    )
}

/// Makes the third attempt of a replicated task whose first two differ, which decides.
fn with_third<I: Inputs, G: Gate>(
    alloc: Global,
    worker: u32,
    plan: &Plan,
    node: u32,
    inputs: &I,
    faults: &Faults,
    gate: &G,
    first: Buffer,
    second: Buffer,
) -> Result<NodeResult, OutOfMemory>
    requires task { IsTaskOn plan.now node (I.lists inputs.now) }
    requires scheme { HasScheme plan.now node Replicate }
    requires made { IsAttemptAt plan.now faults.now node (I.lists inputs.now) 0 first }
    requires made_again { IsAttemptAt plan.now faults.now node (I.lists inputs.now) 1 second }
    requires differ { are_same first second ≡ false }
    ensures { IfOk result (λ r. JudgesAs plan.now faults.now node (I.lists inputs.now) r) }
{
    let third = gated(alloc, worker, plan, node, 2, inputs, faults, gate)?;
    third_decides(alloc, first, second, &third)
}

/// The lower of two buffers that differ which the third equals is accepted.
fn third_decides(
    alloc: Global,
    first: Buffer,
    second: Buffer,
    third: &Buffer,
) -> Result<NodeResult, OutOfMemory>
    requires { are_same first second ≡ false }
    ensures { IfOk result (λ r. result_data r ≡ replicated 1 (first ∷ second ∷ third.now ∷ [])) }
{
    if first.same(third) {
        first_and_third(alloc, first)
    } else if second.same(third) {
        second_and_third(alloc, second)
    } else {
        none_of_three(alloc)
    }
}

/// The first attempt is accepted, and the second agrees.
fn first_and_second(alloc: Global, first: Buffer) -> Result<NodeResult, OutOfMemory>
    ensures { IfOk result (λ r. result_data r ≡ node_result (Accepted 0) (trial.Accepted ∷ trial.Agreed ∷ []) (Some first)) }
{
    let trials = [Trial::Accepted, Trial::Agreed];
    accepted(alloc, 0, &trials, first)
}

/// The first attempt is accepted, the second differs, and the third agrees.
fn first_and_third(alloc: Global, first: Buffer) -> Result<NodeResult, OutOfMemory>
    ensures { IfOk result (λ r. result_data r ≡ node_result (Accepted 0) (trial.Accepted ∷ trial.Differed ∷ trial.Agreed ∷ []) (Some first)) }
{
    let trials = [Trial::Accepted, Trial::Differed, Trial::Agreed];
    accepted(alloc, 0, &trials, first)
}

/// The first attempt differs, the second is accepted, and the third agrees.
fn second_and_third(alloc: Global, second: Buffer) -> Result<NodeResult, OutOfMemory>
    ensures { IfOk result (λ r. result_data r ≡ node_result (Accepted 1) (trial.Differed ∷ trial.Accepted ∷ trial.Agreed ∷ []) (Some second)) }
{
    let trials = [Trial::Differed, Trial::Accepted, Trial::Agreed];
    accepted(alloc, 1, &trials, second)
}

/// No two of three attempts agree.
fn none_of_three(alloc: Global) -> Result<NodeResult, OutOfMemory>
    ensures { IfOk result (λ r. result_data r ≡ node_result Failed (trial.Differed ∷ trial.Differed ∷ trial.Differed ∷ []) None) }
{
    let trials = [Trial::Differed, Trial::Differed, Trial::Differed];
    failed(alloc, &trials)
}

/// An attempt, of which the gate is told.
fn gated<I: Inputs, G: Gate>(
    alloc: Global,
    worker: u32,
    plan: &Plan,
    node: u32,
    k: u32,
    inputs: &I,
    faults: &Faults,
    gate: &G,
) -> Result<Buffer, OutOfMemory>
    requires { IsTaskOn plan.now node (I.lists inputs.now) }
    ensures made { IfOk result (λ buffer. IsAttemptAt plan.now faults.now node (I.lists inputs.now) k buffer) }
    ensures fits { IfOk result (λ buffer. PutsFit plan.now buffer.puts) }
{
    let _known = plan.nodes();
    gate.before_attempt(worker, node, k);
    let buffer = attempt(alloc, plan, node, k, inputs, faults);
    gate.after_attempt(worker, node, k);
    buffer
}

/// The buffer of this attempt is accepted.
fn accepted(
    alloc: Global,
    attempt: u32,
    trials: &[Trial],
    buffer: Buffer,
) -> Result<NodeResult, OutOfMemory>
    ensures { IfOk result (λ r. result_data r ≡ node_result (Accepted attempt) trials.now (Some buffer)) }
{
    Ok(NodeResult {
        verdict: Verdict::Accepted { attempt },
        trials: Trials::from_slice(alloc, trials)?,
        accepted: Some(buffer),
    })
}

/// No attempt is accepted.
fn failed(alloc: Global, trials: &[Trial]) -> Result<NodeResult, OutOfMemory>
    ensures { IfOk result (λ r. result_data r ≡ node_result Failed trials.now None) }
{
    Ok(NodeResult {
        verdict: Verdict::Failed,
        trials: Trials::from_slice(alloc, trials)?,
        accepted: None,
    })
}

/// Judges a replayed task: its attempts one after another, until one passes all checks or `limit` were made.
fn replay_up_to<I: Inputs, C: Checks, G: Gate>(
    alloc: Global,
    worker: u32,
    plan: &Plan,
    node: u32,
    limit: u32,
    inputs: &I,
    faults: &Faults,
    checks: &C,
    gate: &G,
) -> Result<NodeResult, OutOfMemory>
    requires task { IsTaskOn plan.now node (I.lists inputs.now) }
    requires checks { AreChecksOf plan.now (C.specs checks.now) }
    requires scheme { HasScheme plan.now node (Replay limit) }
    ensures { IfOk result (λ r. JudgesAs plan.now faults.now node (I.lists inputs.now) r) }
{
    let mut trials = Trials::new(alloc);
    for k in 0..limit {
        match tried(alloc, worker, plan, node, k, inputs, faults, checks, gate)? {
            Ok(buffer) => return accepted_after(trials, k, buffer),
            Err(which) => trials.push(Trial::Refused { which })?,
        }
    }
    Ok(NodeResult {
        verdict: Verdict::Failed,
        trials,
        accepted: None,
    })
}

/// An attempt that passes all checks, or the number of the first that it fails.
fn tried<I: Inputs, C: Checks, G: Gate>(
    alloc: Global,
    worker: u32,
    plan: &Plan,
    node: u32,
    k: u32,
    inputs: &I,
    faults: &Faults,
    checks: &C,
    gate: &G,
) -> Result<Result<Buffer, u32>, OutOfMemory>
    requires task { IsTaskOn plan.now node (I.lists inputs.now) }
    requires checks { AreChecksOf plan.now (C.specs checks.now) }
    ensures { IfOk result (λ t. IsTriedAt plan.now faults.now node (I.lists inputs.now) k t) }
{
    let buffer = gated(alloc, worker, plan, node, k, inputs, faults, gate)?;
    match failing(plan, node, inputs, checks, &buffer) {
        None => Ok(Ok(buffer)),
        Some(which) => Ok(Err(which)),
    }
}

/// The attempt is accepted after those that were refused.
fn accepted_after(refused: Trials, attempt: u32, buffer: Buffer) -> Result<NodeResult, OutOfMemory>
    ensures { IfOk result (λ r. result_data r ≡ node_result (Accepted attempt) (refused ++ trial.Accepted ∷ []) (Some buffer)) }
{
    let mut trials = refused;
    trials.push(Trial::Accepted)?;
    Ok(NodeResult {
        verdict: Verdict::Accepted { attempt },
        trials,
        accepted: Some(buffer),
    })
}

/// The number of the first check of the task that the buffer fails.
fn failing<I: Inputs, C: Checks>(
    plan: &Plan,
    node: u32,
    inputs: &I,
    checks: &C,
    buffer: &Buffer,
) -> Option<u32>
    requires task { IsTaskOn plan.now node (I.lists inputs.now) }
    requires checks { AreChecksOf plan.now (C.specs checks.now) }
    requires fits { PutsFit plan.now buffer.now.puts }
    ensures { IsFirstFailingAt plan.now node (I.lists inputs.now) buffer.now result }
{
    let _known = plan.nodes();
    first_failing(
        plan.checks_of(node),
        plan.matrices(),
        checks,
        inputs,
        buffer,
    )
}

/// Judges a task that is corrected: its one attempt is accepted where it passes all checks, and else with one word restored of the put
/// that its check of a product reads, where it passes all checks then.
pub fn abft<I: Inputs, C: Checks, G: Gate>(
    alloc: Global,
    worker: u32,
    plan: &Plan,
    node: u32,
    inputs: &I,
    faults: &Faults,
    checks: &C,
    gate: &G,
) -> Result<NodeResult, OutOfMemory>
    requires task { IsTaskOn plan.now node (I.lists inputs.now) }
    requires checks { AreChecksOf plan.now (C.specs checks.now) }
    requires scheme { HasScheme plan.now node Abft }
    ensures { IfOk result (λ r. JudgesAs plan.now faults.now node (I.lists inputs.now) r) }
{
    let buffer = gated(alloc, worker, plan, node, 0, inputs, faults, gate)?;
    match failing(plan, node, inputs, checks, &buffer) {
        None => accepted(alloc, 0, &[Trial::Accepted], buffer),
        Some(which) => corrected(alloc, plan, node, inputs, checks, which, buffer),
    }
}

/// A buffer that fails the check `which` is accepted with one word restored, or the task fails.
fn corrected<I: Inputs, C: Checks>(
    alloc: Global,
    plan: &Plan,
    node: u32,
    inputs: &I,
    checks: &C,
    which: u32,
    buffer: Buffer,
) -> Result<NodeResult, OutOfMemory>
    requires task { IsTaskOn plan.now node (I.lists inputs.now) }
    requires checks { AreChecksOf plan.now (C.specs checks.now) }
    requires fits { PutsFit plan.now buffer.puts }
    ensures { IfOk result (λ r. CorrectsAs plan.now node (I.lists inputs.now) which buffer r) }
{
    let mut fixed = buffer;
    let word = restored(alloc, plan, node, inputs, &mut fixed)?;
    match word {
        None => failed(alloc, &[Trial::Refused { which }]),
        Some(at) => checked_again(alloc, plan, node, inputs, checks, which, at, fixed),
    }
}

/// A buffer in which the word at a place was restored is accepted where it passes all checks. Else the task fails, whose own buffer
/// fails the check `which`.
fn checked_again<I: Inputs, C: Checks>(
    alloc: Global,
    plan: &Plan,
    node: u32,
    inputs: &I,
    checks: &C,
    which: u32,
    word: u32,
    fixed: Buffer,
) -> Result<NodeResult, OutOfMemory>
    requires task { IsTaskOn plan.now node (I.lists inputs.now) }
    requires checks { AreChecksOf plan.now (C.specs checks.now) }
    requires fits { PutsFit plan.now fixed.puts }
    ensures { IfOk result (λ r. IsCheckedAgain plan.now node (I.lists inputs.now) which word fixed r) }
{
    match failing(plan, node, inputs, checks, &fixed) {
        None => accepted_with(alloc, word, fixed),
        Some(_) => failed(alloc, &[Trial::Refused { which }]),
    }
}

/// Restores the one word that was altered of the put that the task's check of a product reads, and answers its place.
fn restored<I: Inputs>(
    alloc: Global,
    plan: &Plan,
    node: u32,
    inputs: &I,
    buffer: &mut Buffer,
) -> Result<Option<u32>, OutOfMemory>
    requires task { IsTaskOn plan.now node (I.lists inputs.now) }
    requires fits { PutsFit plan.now buffer.old.puts }
    ensures { IfOk result (λ word. IsRestoredAt plan.now node (I.lists inputs.now) buffer.old (placed word buffer.new)) }
{
    let _known = plan.nodes();
    restore(alloc, plan.checks_of(node), plan.matrices(), inputs, buffer)
}

/// The buffer is accepted with this word restored.
fn accepted_with(alloc: Global, word: u32, buffer: Buffer) -> Result<NodeResult, OutOfMemory>
    ensures { IfOk result (λ r. result_data r ≡ node_result (Corrected word) (trial.Corrected word ∷ []) (Some buffer)) }
{
    Ok(NodeResult {
        verdict: Verdict::Corrected { word },
        trials: Trials::from_slice(alloc, &[Trial::Corrected { word }])?,
        accepted: Some(buffer),
    })
}

/// Judges a task by its scheme.
pub fn judge<I: Inputs, C: Checks, G: Gate>(
    alloc: Global,
    worker: u32,
    plan: &Plan,
    node: u32,
    inputs: &I,
    faults: &Faults,
    checks: &C,
    gate: &G,
) -> Result<NodeResult, OutOfMemory>
    requires task { IsTaskOn plan.now node (I.lists inputs.now) }
    requires checks { AreChecksOf plan.now (C.specs checks.now) }
    ensures { IfOk result (λ r. JudgesAs plan.now faults.now node (I.lists inputs.now) r) }
{
    match plan.scheme(node) {
        Scheme::Replay { limit } => {
            replay_up_to(
                alloc, worker, plan, node, limit, inputs, faults, checks, gate,
            )
        }
        Scheme::Replicate => replicate(alloc, worker, plan, node, inputs, faults, checks, gate),
        Scheme::Abft => abft(alloc, worker, plan, node, inputs, faults, checks, gate),
        Scheme::Plain => plainly(alloc, worker, plan, node, inputs, faults, gate),
    }
}

/// Judges a plain task: its one attempt is accepted.
fn plainly<I: Inputs, G: Gate>(
    alloc: Global,
    worker: u32,
    plan: &Plan,
    node: u32,
    inputs: &I,
    faults: &Faults,
    gate: &G,
) -> Result<NodeResult, OutOfMemory>
    requires task { IsTaskOn plan.now node (I.lists inputs.now) }
    requires scheme { HasScheme plan.now node Plain }
    ensures { IfOk result (λ r. JudgesAs plan.now faults.now node (I.lists inputs.now) r) }
{
    let buffer = gated(alloc, worker, plan, node, 0, inputs, faults, gate)?;
    accepted(alloc, 0, &[Trial::Accepted], buffer)
}

/// Judges a replayed task: its attempts one after another, until one passes all checks.
pub fn replay<I: Inputs, C: Checks, G: Gate>(
    alloc: Global,
    worker: u32,
    plan: &Plan,
    node: u32,
    inputs: &I,
    faults: &Faults,
    checks: &C,
    gate: &G,
) -> Result<NodeResult, OutOfMemory>
    requires task { IsTaskOn plan.now node (I.lists inputs.now) }
    requires checks { AreChecksOf plan.now (C.specs checks.now) }
    requires scheme { IsReplayed plan.now node }
    ensures { IfOk result (λ r. JudgesAs plan.now faults.now node (I.lists inputs.now) r) }
{
    judge(alloc, worker, plan, node, inputs, faults, checks, gate)
}
