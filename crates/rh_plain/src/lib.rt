//! Running a plan on one thread, node by node in the order of their numbers. The crates above use `run_plain`, which gives the journal of
//! that and the words that a report shows, as the definition of a run says. It stands on the judging of tasks in rh_schemes, and on the
//! journals of rh_journal.
//!
//! # Example
//!
//! The whole library in one example: the text of a program is read, planned, run and reported. A test of rh_call_tests makes these calls.
//!
//! ```text
//! let text = read_program(alloc, program)?;
//! let plan = plan(alloc, &text, &NoChecks)?;
//! let faults = Faults::new(alloc);
//! let outcome = run_plain(alloc, &plan, &faults, &NoChecks, &OpenGate)?;
//! let mut report = Bytes::new(alloc);
//! print_report(alloc, &plan, &faults, &outcome, &mut report)?;
//! ```
//!
//! `outcome.journal` has an entry for each event of the run, and `outcome.shown` the words of each promise that is shown.
#![tactic(auto)]

mod awaited;
mod ending;
mod history;
mod listing;
mod progress;
mod putting;
mod running;
mod showing;
mod values;

pub use running::run_plain;
