//! What an attempt puts.

use rh_words::Words;

/// The words that an attempt puts to the promise of a number.
#[derive(Drop, PartialEq)]
pub struct MadePut {
    pub promise: u32,
    pub words: Words,
}
