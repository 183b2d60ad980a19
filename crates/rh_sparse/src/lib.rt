//! Sparse matrices of whole numbers, their products with lists of words, and the two checksums of a matrix by which one altered
//! word of a product is found and restored. The plain checksum is that of Huang and Abraham; the weighted one, and the correction by both,
//! are defined here.
//! The crates above rest on `product`, `Checksums` and `correct`, and on the law that words that agree with both checksums, altered
//! in exactly one place, are restored. It stands on rh_words alone.
#![tactic(auto)]

mod checksums;
mod correction;
mod laws;
mod matrix;
mod products;

pub use checksums::Checksums;
pub use correction::{Correction, correct};
pub use laws::{
    one_altered_word_is_restored, one_altered_word_of_a_product_is_restored, products_agree,
    restored_words_are_unique,
};
pub use matrix::{Cell, Matrix, is_row};
pub use products::product;
