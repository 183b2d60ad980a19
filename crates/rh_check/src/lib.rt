//! Checks: what the words that an attempt puts must be like.
//! The one contract is `passes`: it answers the equation or bound of the check. It stands on the words of
//! rh_words, the sums of rh_stencil and the matrices of rh_sparse.
//! A caller hands in checks of its own as `StoredCheck`s, in a list of `With` that ends in `NoChecks`.
#![tactic(auto)]

mod fast;
mod handed_in;
mod laws;
mod matrices;
mod passing;
mod spec;
mod stored;

pub use fast::{all_bytes, sums_to_zero};
pub use handed_in::{Checks, NoChecks};
pub use laws::sum_checks_refuse_one_altered_word;
pub use matrices::Matrices;
pub use passing::passes;
pub use spec::{Spec, Term, UserSpec};
pub use stored::{StoredCheck, With, WordTest};
