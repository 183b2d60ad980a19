//! Who judges a task.

ghost use Rattle.std.specs.Prelude.{IfOk};
ghost use Rattle.rh_plan.specs.Asked.{IsTaskOn};
ghost use Rattle.rh_plan.specs.Users.{AreChecksOf};
ghost use Rattle.rh_schemes.specs.Judges.{JudgesAs};

use crate::gate::Gate;
use crate::judging::judge;
use crate::result::NodeResult;
use rh_check::Checks;
use rh_injector::Faults;
use rh_plan::Plan;
use rh_words::{Inputs, OutOfMemory};
use std::alloc::Global;
use std::marker::Sync;

/// Judges tasks, each as `judge` does: how its attempts are made, one after another or side by side, is its own.
pub trait Judge: Sync {
    /// Judges a task by its scheme.
    fn judge<I: Inputs, C: Checks, G: Gate>(
        &self,
        alloc: Global,
        worker: u32,
        plan: &Plan,
        node: u32,
        inputs: &I,
        faults: &Faults,
        checks: &C,
        gate: &G,
    ) -> Result<NodeResult, OutOfMemory>
        requires task { IsTaskOn plan.now node (I.lists inputs.now) }
        requires checks { AreChecksOf plan.now (C.specs checks.now) }
        ensures { IfOk result (λ r. JudgesAs plan.now faults.now node (I.lists inputs.now) r) };
}

/// Makes the attempts of a task one after another, on the calling thread.
pub struct Serial;

impl Judge for Serial {
    fn judge<I: Inputs, C: Checks, G: Gate>(
        &self,
        alloc: Global,
        worker: u32,
        plan: &Plan,
        node: u32,
        inputs: &I,
        faults: &Faults,
        checks: &C,
        gate: &G,
    ) -> Result<NodeResult, OutOfMemory> {
        judge(alloc, worker, plan, node, inputs, faults, checks, gate)
    }
}
