//! One attempt of a task under its faults.

ghost use Rattle.std.specs.Prelude.{IfOk};
ghost use Rattle.rh_plan.specs.Asked.{IsTaskOn};
ghost use Rattle.rh_attempt.specs.Attempting.{IsAttemptAt};

use crate::buffer::Buffer;
use crate::making::{awaited_locals, make_locals};
use crate::putting::fill_buffer;
use rh_injector::Faults;
use rh_plan::Plan;
use rh_words::{Inputs, OutOfMemory};
use std::alloc::Global;

/// The buffer of attempt `k`, counted from 0, of a task on these awaited words, one list for each promise that it awaits.
pub fn attempt<I: Inputs>(
    alloc: Global,
    plan: &Plan,
    node: u32,
    k: u32,
    inputs: &I,
    faults: &Faults,
) -> Result<Buffer, OutOfMemory>
    requires { IsTaskOn plan.now node (I.lists inputs.now) }
    ensures { IfOk result (λ buffer. IsAttemptAt plan.now faults.now node (I.lists inputs.now) k buffer) }
{
    let _in_order = faults.as_slice();
    let strikes = faults.in_attempt(node, k);
    let _known = plan.nodes();
    let steps = plan.body(node).steps();
    let mut locals = awaited_locals(alloc, strikes, inputs)?;
    make_locals(alloc, plan, steps, strikes, &mut locals)?;
    fill_buffer(alloc, steps, locals)
}
