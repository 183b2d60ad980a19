//! What the report shows, and the references that it gives up.

ghost use Rattle.std.specs.Prelude.{◌≡◌, ◌<◌, ◌≤◌, ◌++◌, None, IfOk, OnOk, length, map};
ghost use Rattle.std.specs.List.{AllByRecursion};
ghost use Rattle.rh_journal.specs.declared.event.Event.TheVariants.{Release};
ghost use Rattle.rh_plain.specs.Drawing.{Draws, IsDrawing};
ghost use Rattle.rh_plain.specs.Telling.{pair_at, pairs_from};

use crate::history::History;
use crate::values::Values;
use rh_plan::Plan;
use rh_words::{OutOfMemory, Words};
use std::alloc::Global;

/// The promises that the report shows, with their words, which are moved.
pub(crate) fn shown_pairs(
    alloc: Global,
    plan: &Plan,
    values: Values,
) -> Result<Vec<(u32, Words)>, OutOfMemory>
    requires { length values ≤ length plan.now.promises }
    ensures { IfOk result (λ pairs. pairs.items ≡ pairs_from plan.now 0 values) }
{
    let _known = plan.promises();
    let mut pairs = Vec::new(alloc);
    let mut promise: u32 = 0;
    for words in values.into_items() {
        show(plan, promise, words, &mut pairs)?;
        promise += 1;
    }
    Ok(pairs)
}

/// Puts a promise with its words behind others, where it has some and the report shows it.
fn show(
    plan: &Plan,
    promise: u32,
    words: Option<Words>,
    pairs: &mut Vec<(u32, Words)>,
) -> Result<(), OutOfMemory>
    requires { promise < length plan.now.promises }
    ensures { OnOk result (pairs.new.items ≡ pairs.old.items ++ pair_at plan.now promise words) }
{
    if !plan.is_shown(promise) {
        return Ok(());
    }
    if let Some(words) = words {
        pairs.push((promise, words))?;
    }
    Ok(())
}

/// The report gives up its references of these promises.
pub(crate) fn release_shown(
    plan: &Plan,
    pairs: &[(u32, Words)],
    history: &mut History,
) -> Result<(), OutOfMemory>
    requires drawing { IsDrawing plan.now history.old }
    requires known { AllByRecursion (λ p. p.0 < length plan.now.promises) pairs.now }
    ensures { OnOk result (Draws plan.now history.old history.new (map (λ p. Release p.0 None) pairs.now)) }
{
    for pair in pairs {
        history.release(plan, pair.0, None)?;
    }
    Ok(())
}
