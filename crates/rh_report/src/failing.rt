//! Whether a task of a run failed.

ghost use Rattle.std.specs.Prelude.{◌≡◌, IfOk};
ghost use Rattle.std.specs.List.{list_any};
ghost use Rattle.rh_plan.specs.Results.{all_results, is_failed};
ghost use Rattle.rh_journal.specs.Own.{run_of};
ghost use Rattle.rh_journal.specs.Tells.{Tells};

use crate::told::gathered;
use crate::totals::is_failed;
use rh_injector::Faults;
use rh_journal::Outcome;
use rh_plan::{Plan, Verdict};
use rh_words::OutOfMemory;
use std::alloc::Global;

/// Whether a task of the run failed, from its outcome alone.
pub fn has_failed(
    alloc: Global,
    plan: &Plan,
    faults: &Faults,
    outcome: &Outcome,
) -> Result<bool, OutOfMemory>
    requires { Tells (run_of plan.now faults.now) outcome.now.journal outcome.now.shown }
    ensures { IfOk result (λ failed. failed ≡ list_any (λ r. is_failed r.verdict) (all_results plan.now faults.now)) }
{
    let _known = plan.nodes();
    let told = gathered(alloc, plan, outcome.journal.entries())?;
    let failed = is_any_failed(told.verdicts());
    Ok(failed)
}

/// Whether one of the verdicts is that of a failed task.
pub(crate) fn is_any_failed(verdicts: &[Verdict]) -> bool
    ensures { result ≡ list_any is_failed verdicts.now }
{
    verdicts.iter().any(|v| is_failed(*v))
}
