//! Tests of whole calls of the program, by `top` of rh_top over files and outputs in memory: calls without and under faults, the schemes of
//! tasks, corrected products, handed-in checks and the gate. `examples` has the programs of the folder `examples` with their reports, and
//! `library` runs a program by the calls of the crates below;
//! `printing` prints the examples.
#![tactic(auto)]

#[cfg(test)]
mod calls;
#[cfg(test)]
mod correction;
#[cfg(test)]
mod examples;
#[cfg(test)]
mod faults;
#[cfg(test)]
mod gate;
#[cfg(test)]
mod handed_in;
#[cfg(test)]
mod library;
#[cfg(test)]
mod printing;
#[cfg(test)]
mod schemes;
