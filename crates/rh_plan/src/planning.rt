//! The plan of a program text.

ghost use Rattle.std.specs.Prelude.{IfOk};
ghost use Rattle.rh_words.specs.Refusals.{OnRefused};
ghost use Rattle.rh_planner.specs.Planned.{FirstBreak};
ghost use Rattle.rh_check.specs.Users.{handed_checks};
ghost use Rattle.rh_plan.specs.Planned.{IsPlanOf};
ghost use Rattle.rh_plan.specs.Users.{AreChecksOf};

use crate::plans::Plan;
use rh_check::Checks;
use rh_planner::{Drafts, drafts};
use rh_task_text::Text;
use rh_words::{Fault, Refusal};
use std::alloc::Global;

/// The plan of a text with these handed-in checks, or its first statement that breaks a rule, with the first reason that
/// holds there.
pub fn plan<C: Checks>(alloc: Global, text: &Text, checks: &C) -> Result<Plan, Fault<Refusal>>
    ensures planned { IfOk result (IsPlanOf (handed_checks (C.names checks.now) (C.specs checks.now)) text.now) }
    ensures checks { IfOk result (λ plan. AreChecksOf plan (C.specs checks.now)) }
    ensures refused { OnRefused result (λ refusal. FirstBreak (handed_checks (C.names checks.now) (C.specs checks.now)) text.now refusal.line refusal.reason) }
{
    let Drafts {
        nodes,
        promises,
        matrices,
    } = drafts(alloc, text, checks)?;
    Ok(Plan::of(alloc, nodes, promises, matrices)?)
}
