//! One step of a stencil over a line and over a grid of words, and the checks that a step keeps the sum of its words.
//! The one contract is that `step1` and `step2` answer the values, and `conserves1` and `conserves2` the equations, that `specs/` defines,
//! and that a step without faults passes its check. It stands on rh_words alone.
#![tactic(auto)]

mod conservation;
mod fluxes;
mod grid;
mod lanes;
mod line;

pub use conservation::{conserves1, conserves2, step1_conserves, step2_conserves};
pub use fluxes::flux;
pub use grid::step2;
pub use line::step1;
