//! Tests of planning and of journals, by the public calls of rh_planner, rh_plan and rh_journal: each crate has a module of its own, and
//! the plans of scopes, groups and matrices have one. Texts with their first break by the rules of the language, and plans worked out by hand.
#![tactic(auto)]

#[cfg(test)]
mod journal;
#[cfg(test)]
mod plan;
#[cfg(test)]
mod plan_blocks;
#[cfg(test)]
mod planner;
