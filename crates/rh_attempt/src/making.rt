//! The locals of an attempt.

ghost use Rattle.std.specs.Prelude.{◌≡◌, IfOk, OnOk, length, map};
ghost use Rattle.rh_attempt.specs.Faulting.{AreApart};
ghost use Rattle.rh_rules.specs.Lawful.{promise_lens};
ghost use Rattle.rh_rules.specs.Bodies.{AreSoundSteps, IsSoundStep};
ghost use Rattle.rh_plan.specs.Buffers.{copies_from, locals_from, locals_after};
ghost use Rattle.rh_plan.specs.Plans.{shapes_in};

use crate::faulting::{awaited_local, made_local};
use crate::lets::let_words;
use crate::local::Local;
use rh_injector::Strike;
use rh_plan::Plan;
use rh_rules::Step;
use rh_words::{Inputs, OutOfMemory};
use std::alloc::Global;

/// The locals of the awaited words.
pub(crate) fn awaited_locals<'a, I: Inputs>(
    alloc: Global,
    strikes: &[Strike],
    inputs: &'a I,
) -> Result<Vec<Local<'a>>, OutOfMemory>
    requires apart { AreApart strikes.now }
    ensures { IfOk result (λ locals. locals.items ≡ copies_from strikes.now 0 (I.lists inputs.now)) }
{
    let mut locals = Vec::new(alloc);
    for at in 0..inputs.count() {
        locals.push(awaited_local(alloc, strikes, at, inputs.words(at))?)?;
    }
    Ok(locals)
}

/// Adds the results of the `let`s, each as its faults leave it, to the locals.
pub(crate) fn make_locals(
    alloc: Global,
    plan: &Plan,
    steps: &[Step],
    strikes: &[Strike],
    locals: &mut Vec<Local<'_>>,
) -> Result<(), OutOfMemory>
    requires sound { AreSoundSteps (shapes_in plan.now) (promise_lens plan.now.promises) (map length locals.old.items) steps.now }
    requires apart { AreApart strikes.now }
    ensures { OnOk result (locals.new.items ≡ locals_from plan.now strikes.now locals.old.items steps.now) }
{
    for step in steps {
        make_local(alloc, plan, step, strikes, locals)?;
    }
    Ok(())
}

/// Adds the result of the step, where it is a `let`, to the locals.
fn make_local(
    alloc: Global,
    plan: &Plan,
    step: &Step,
    strikes: &[Strike],
    locals: &mut Vec<Local<'_>>,
) -> Result<(), OutOfMemory>
    requires sound { IsSoundStep (shapes_in plan.now) (promise_lens plan.now.promises) (map length locals.old.items) step.now }
    requires apart { AreApart strikes.now }
    ensures { OnOk result (locals.new.items ≡ locals_after plan.now strikes.now locals.old.items step.now) }
{
    if let Some(words) = let_words(alloc, plan, step, locals.as_slice())? {
        let local = made_local(strikes, locals.len(), words);
        locals.push(local)?;
    }
    Ok(())
}
