//! The report of a run: how each node and each attempt ended, and what each promise has. The crate above uses `print_outcome`,
//! which appends the text of the definition and answers whether a task failed; `print_report` and `has_failed` do one of the two. It needs an
//! outcome alone, by whatever it was run, and stands on the journals of rh_journal.
#![tactic(auto)]

mod ends;
mod failing;
mod laws;
mod naming;
mod nodes;
mod promises;
mod report;
mod told;
mod totals;
mod trials;

pub use failing::has_failed;
pub use laws::reports_are_fault_free;
pub use report::{print_outcome, print_report};
