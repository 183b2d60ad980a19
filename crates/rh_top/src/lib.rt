//! A call of the program, from its words to its exit status. Its one contract is that of `top`: what each status tells of
//! the files that the words name and of the two outputs. It stands on the reader of program texts, the planner, the
//! run, the report, and the traits of file stores and outputs; the program above it reads its words and makes the real files.
#![tactic(auto)]

mod command;
mod laws;
mod status;
mod texts;
mod tool;

pub use laws::{
    a_call_has_one_answer, a_fault_file_has_faults_or_is_refused,
    a_program_has_a_plan_or_is_refused, reports_of_calls_are_fault_free, statuses_are_exact,
    told_files_give_an_answer,
};
pub use tool::{top, want_memory};
