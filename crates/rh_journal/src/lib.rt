//! What a run leaves: a journal of its events and the words of the promises that a report shows. The one contract above is the meaning of
//! an outcome, by definition: the journal of one thread, and what an outcome tells of a run. It stands on the plans of rh_plan.
#![tactic(auto)]

mod event;
mod laws;
mod outcome;

pub use event::{Entry, Event};
pub use laws::{one_thread_tells, references_are_left, telling_journals_tell_results};
pub use outcome::{Journal, Outcome, Shown};
