//! The plain kernels, which make lists of words from lists of words.
//! The one contract is that each call answers the value that rh_words defines for it. It stands on rh_words alone.
#![tactic(auto)]

mod pieces;
mod sources;
mod totals;
mod word_by_word;

pub use pieces::{cut, join_part};
pub use sources::{gen_, lit};
pub use totals::{count, sum};
pub use word_by_word::{add_words, mul_words, scale, shift, sub_words};
