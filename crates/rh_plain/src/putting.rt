//! What a node puts, and the references that it gives up.

ghost use Rattle.std.specs.Prelude.{◌≡◌, ◌<◌, ◌∷◌, [], map, IfOk, OnOk, length};
ghost use Rattle.std.specs.List.{AllByRecursion};
ghost use Rattle.rh_journal.specs.declared.event.Event.TheVariants.{Release};
ghost use Rattle.rh_plain.specs.Drawing.{IsDrawing, Draws};
ghost use Rattle.rh_plain.specs.Holding.{KeepsWords};
ghost use Rattle.rh_plain.specs.Runs.{made_by, counts_put};

use crate::history::History;
use crate::values::Values;
use rh_attempt::Buffer;
use rh_plan::{MadePut, Plan, Verdict};
use rh_words::{OutOfMemory, Words};
use std::alloc::Global;

/// What a node puts that ended so. No words are copied.
pub(crate) fn made_by(
    alloc: Global,
    puts: &[u32],
    verdict: Verdict,
    accepted: Option<Buffer>,
) -> Result<Vec<MadePut>, OutOfMemory>
    ensures { IfOk result (λ made. made.items ≡ made_by puts.now verdict accepted) }
{
    match (verdict, accepted) {
        (Verdict::Accepted { .. }, Some(buffer)) => Ok(buffer.into_puts()),
        (Verdict::Corrected { .. }, Some(buffer)) => Ok(buffer.into_puts()),
        (
            Verdict::Ended {
                accepted,
                failed,
                skipped,
            },
            _,
        ) => counts_put(alloc, puts, accepted, failed, skipped),
        _ => Ok(Vec::new(alloc)),
    }
}

/// The three counts of a scope, put to each of the promises.
fn counts_put(
    alloc: Global,
    puts: &[u32],
    accepted: u32,
    failed: u32,
    skipped: u32,
) -> Result<Vec<MadePut>, OutOfMemory>
    ensures { IfOk result (λ made. made.items ≡ map (λ q. counts_put q accepted failed skipped) puts.now) }
{
    let counts = [u64::from(accepted), u64::from(failed), u64::from(skipped)];
    let mut made = Vec::new(alloc);
    for promise in puts {
        let words = Words::from_slice(alloc, &counts)?;
        made.push(MadePut {
            promise: *promise,
            words,
        })?;
    }
    Ok(made)
}

/// A node gives up its references of these promises. The words of a promise go with its last one.
pub(crate) fn release_all(
    plan: &Plan,
    promises: &[u32],
    node: u32,
    history: &mut History,
    values: &mut Values,
) -> Result<(), OutOfMemory>
    requires drawing { IsDrawing plan.now history.old }
    requires known { AllByRecursion (λ q. q < length plan.now.promises) promises.now }
    requires sized { length values.old ≡ length plan.now.promises }
    ensures drawn { OnOk result (Draws plan.now history.old history.new (map (λ q. Release q (Some node)) promises.now)) }
    ensures kept { OnOk result (KeepsWords plan.now history.old values.old values.new (map (λ q. Release q (Some node)) promises.now)) }
{
    for promise in promises {
        release(plan, *promise, node, history, values)?;
    }
    Ok(())
}

/// A node gives up a reference of a promise. The words go with the last one.
fn release(
    plan: &Plan,
    promise: u32,
    node: u32,
    history: &mut History,
    values: &mut Values,
) -> Result<(), OutOfMemory>
    requires drawing { IsDrawing plan.now history.old }
    requires known { promise < length plan.now.promises }
    requires sized { length values.old ≡ length plan.now.promises }
    ensures drawn { OnOk result (Draws plan.now history.old history.new (Release promise (Some node) ∷ [])) }
    ensures kept { OnOk result (KeepsWords plan.now history.old values.old values.new (Release promise (Some node) ∷ [])) }
    ensures sized { length values.new ≡ length values.old }
{
    if history.release(plan, promise, Some(node))? {
        values.free(promise);
    }
    Ok(())
}
