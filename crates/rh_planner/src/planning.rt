//! Planning a whole text.

ghost use Rattle.std.specs.Prelude.{[], IfOk, OnOk};
ghost use Rattle.rh_rules.specs.Bodies.{shapes_of};
ghost use Rattle.rh_words.specs.Refusals.{OnRefused};
ghost use Rattle.rh_rules.specs.Lawful.{AreLawful};
ghost use Rattle.rh_rules.specs.Above.{facts_above};
ghost use Rattle.rh_rules.specs.Rules.{AllKeep};
ghost use Rattle.rh_check.specs.Users.{handed_checks, ArePaired};
ghost use Rattle.rh_task_text.specs.Program.{upward, IsLawfulText};
ghost use Rattle.rh_planner.specs.Planned.{look_above, IsDraftOf, FirstBreak};
ghost use Rattle.rh_planner.specs.States.{HasFacts};

use crate::planned::Drafts;
use crate::planner::Planner;
use rh_check::Checks;
use rh_tables::Handed;
use rh_task_text::{Text, lawful_texts_keep_their_limits};
use rh_words::{Fault, Refusal};
use std::alloc::Global;

/// The nodes, promises and matrices of a text, which are lawful, with the handed-in checks that its checks name, or its first statement
/// that breaks a rule, with the first reason that holds there.
pub fn drafts<C: Checks>(alloc: Global, text: &Text, checks: &C) -> Result<Drafts, Fault<Refusal>>
    ensures planned { IfOk result (λ d. IsDraftOf (handed_checks (C.names checks.now) (C.specs checks.now)) text.now d.nodes.items d.promises.items d.matrices) }
    ensures lawful { IfOk result (λ d. AreLawful (shapes_of d.matrices) d.nodes.items d.promises.items) }
    ensures refused { OnRefused result (λ refusal. FirstBreak (handed_checks (C.names checks.now) (C.specs checks.now)) text.now refusal.line refusal.reason) }
{
    let handed = Handed::of(alloc, checks)?;
    plan_text(alloc, text, handed)
}

/// The same with these handed-in checks.
fn plan_text(alloc: Global, text: &Text, handed: Handed) -> Result<Drafts, Fault<Refusal>>
    requires { ArePaired handed }
    ensures planned { IfOk result (λ d. IsDraftOf handed text.now d.nodes.items d.promises.items d.matrices) }
    ensures lawful { IfOk result (λ d. AreLawful (shapes_of d.matrices) d.nodes.items d.promises.items) }
    ensures refused { OnRefused result (λ refusal. FirstBreak handed text.now refusal.line refusal.reason) }
{
    let mut planner = Planner::new(alloc, handed);
    let answer = plan_items(alloc, text, &mut planner);
    let drafts = planner.into_drafts();
    match answer {
        Ok(()) => Ok(drafts),
        Err(fault) => Err(fault),
    }
}

/// Plans each statement of the text, or refuses the first one that breaks a rule.
fn plan_items(alloc: Global, text: &Text, planner: &mut Planner) -> Result<(), Fault<Refusal>>
    requires paired { ArePaired planner.old.handed }
    requires none { HasFacts planner.old (facts_above (look_above planner.old.handed) []) }
    ensures lawful { IsLawfulText text.now }
    ensures kept { OnOk result (AllKeep (look_above planner.old.handed) (upward text.now.items)) }
    ensures tables { OnOk result (HasFacts planner.new (facts_above (look_above planner.old.handed) (upward text.now.items))) }
    ensures refused { OnRefused result (λ refusal. FirstBreak planner.old.handed text.now refusal.line refusal.reason) }
{
    lawful_texts_keep_their_limits();
    let items = text.items();
    for item in items {
        if let Some(reason) = planner.statement(alloc, &item.statement)? {
            return Err(Fault::Refused(Refusal {
                line: item.line,
                reason,
            }));
        }
    }
    Ok(())
}
