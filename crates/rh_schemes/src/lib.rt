//! How a task is judged by the scheme that makes it resilient: its attempts are compared by a vote, or
//! checked and replayed, or checked and corrected in one word.
//! The crates above use `judge`, whose answer is that of the definition. It stands on the attempts of rh_attempt and the checks of rh_check.
#![tactic(auto)]

mod ballot;
mod checking;
mod correcting;
mod gate;
mod judging;
mod laws;
mod result;
mod serial;
mod voting;

pub use ballot::Vote;
pub use gate::{Gate, OpenGate};
pub use judging::{abft, judge, replay, replicate};
pub use laws::{three_replicas_decide_by_the_table, votes_decide};
pub use result::{NodeResult, Trials};
pub use serial::{Judge, Serial};
pub use voting::vote;
