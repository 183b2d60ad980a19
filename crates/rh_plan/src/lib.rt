//! A program planned for a run: nodes, promises and edges by their numbers, and what a run of a plan means.
//! The one contract above is `plan`, which answers the plan of a text or its first broken rule; a plan is lawful. It stands on the
//! planner of rh_planner, the checks of rh_check and the faults of rh_injector.
#![tactic(auto)]

mod attempt_limit;
mod blaming;
mod edge;
mod edges;
mod fault_place;
mod grouping;
mod laws;
mod levels;
mod local_lens;
mod made_put;
mod named_faults;
mod outcome;
mod planning;
mod plans;
mod references;
mod resolving;
mod tables;
mod task_numbers;

pub use edge::Edge;
pub use laws::{
    a_fault_text_has_faults_or_a_first_bad_line, a_text_has_a_plan_or_a_first_break,
    accepted_buffers_follow_bodies, budgets_are_kept, few_trials, planned_texts_have_lawful_plans,
    plans_say_their_texts, results_rest_on_lower, summed_tasks_replay_within,
    unskipped_tasks_are_ready, values_are_fault_free,
};
pub use made_put::MadePut;
pub use outcome::{Cause, Trial, Verdict};
pub use planning::plan;
pub use plans::Plan;
pub use resolving::resolve;
