//! One attempt of a task under its injected faults. The crates above use `attempt`, whose answer is the buffer of the definition,
//! and `Buffer`, what an attempt puts and drops. It stands on the plans of rh_plan and the kernels of rh_kernels.
#![tactic(auto)]

mod attempting;
mod buffer;
mod faulting;
mod lets;
mod local;
mod making;
mod putting;

pub use attempting::attempt;
pub use buffer::Buffer;
