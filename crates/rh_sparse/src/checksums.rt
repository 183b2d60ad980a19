//! The two checksums of a sparse matrix, and how far words are from agreeing with them.

ghost use Rattle.std.specs.Prelude.{◌≡◌, ◌+◌, ◌*◌, ◌<◌, ◌≤◌, ◌^◌, ℕ, IfOk, length, map, replicate, slice_index, sum};
ghost use Rattle.std.specs.List.{range_with_len};
ghost use Rattle.rh_sparse.specs.Matrix.{IsRow};
ghost use Rattle.rh_sparse.specs.Sums.{weighted_sum};
ghost use Rattle.rh_sparse.specs.Checksums.{entry, expected_sum, AreSums};

use crate::matrix::{Cell, Matrix};
use rh_words::OutOfMemory;
use rh_words::limits::MAX_MATRIX_SIDE;
use std::alloc::Global;
use std::marker::Model;

/// The two checksums of a matrix: for each column its sum, and its sum with each entry times its row number counted from 1.
#[derive(Drop)]
pub struct Checksums {
    plain: Vec<u64>,
    weighted: Vec<u64>,
}

impl Model for Checksums {
    ghost use Rattle.rh_sparse.specs.Checksums.{ChecksumData, checksum_data, AreChecksums};

    ghost Value = { ChecksumData };

    ghost view = { λ s. checksum_data s.plain.items s.weighted.items };

    ghost invariant = { λ s. AreChecksums (checksum_data s.plain.items s.weighted.items) };
}

impl Checksums {
    ghost use Rattle.rh_sparse.specs.Checksums.{checksums_of, plain_difference, weighted_difference, AreChecksums, IsSmall};

    /// The checksums of a matrix: one of each kind for a column, the plain ones below 2 ^ 32 and the weighted ones below 2 ^ 44.
    pub fn of(alloc: Global, a: &Matrix) -> Result<Checksums, OutOfMemory>
        ensures value { IfOk result (λ s. s ≡ checksums_of a.now) }
        ensures columns { IfOk result (λ s. length s.plain ≡ a.now.cols) }
        ensures small { IfOk result (λ s. AreChecksums s) }
    {
        let cols = a.cols() as usize;
        let mut plain = vec![in alloc; 0; cols]?;
        let mut weighted = vec![in alloc; 0; cols]?;
        add_rows(&mut plain, &mut weighted, a);
        Ok(Checksums { plain, weighted })
    }

    /// How far the words `y` are from the product with `x`, in exact whole numbers: their sum less the one that the checksums
    /// expect, and the same with each word times its row number counted from 1. Both are 0 where `y` agrees with the checksums.
    pub fn differences(&self, x: &[u64], y: &[u64]) -> (i128, i128)
        requires columns { length x.now ≡ length self.now.plain }
        requires rows { length y.now ≤ MAX_MATRIX_SIDE }
        ensures plain { result.0 ≡ plain_difference self.now x.now y.now }
        ensures weighted { result.1 ≡ weighted_difference self.now x.now y.now }
        ensures plain_size { IsSmall result.0 }
        ensures weighted_size { IsSmall result.1 }
    {
        let plain = total(y) as i128 - expected(self.plain.as_slice(), x) as i128;
        let weighted = weighted_total(y) as i128 - expected(self.weighted.as_slice(), x) as i128;
        (plain, weighted)
    }
}

ghost use Rattle.rh_sparse.specs.Checksums.{column};

/// Adds all rows to the sums of the columns, which are 0.
fn add_rows(plain: &mut [u64], weighted: &mut [u64], a: &Matrix)
    requires plain { plain.old ≡ replicate a.now.cols 0 }
    requires weighted { weighted.old ≡ replicate a.now.cols 0 }
    ensures plain { plain.new ≡ map (λ j. sum (column a.now j)) (range_with_len 0 a.now.cols) }
    ensures weighted { weighted.new ≡ map (λ j. weighted_sum (column a.now j)) (range_with_len 0 a.now.cols) }
    ensures plain_small { AreSums plain.new (2 ^ 32) }
    ensures weighted_small { AreSums weighted.new (2 ^ 44) }
{
    for at in 0..a.rows() {
        let row = a.row(at);
        add_row(plain, row, 1);
        add_row(weighted, row, u64::from(at) + 1);
    }
}

/// Adds a row, each value times the factor, to the sums of the columns.
fn add_row(sums: &mut [u64], row: &[Cell], factor: u64)
    requires lawful { IsRow (length sums.old) row.now }
    requires few { factor ≤ MAX_MATRIX_SIDE }
    requires room { (j : ℕ) → j < length sums.old → slice_index sums.old j < 2 ^ 63 }
    ensures { (j : ℕ) → j < length sums.old → slice_index sums.new j ≡ slice_index sums.old j + factor * entry j row.now }
{
    for cell in row {
        sums[cell.col as usize] += factor * u64::from(cell.value);
    }
}

/// The sum of the words.
fn total(words: &[u64]) -> u128
    requires { length words.now ≤ MAX_MATRIX_SIDE }
    ensures value { result ≡ sum words.now }
    ensures range { result ≤ 2 ^ 88 }
{
    let mut sum = 0;
    for word in words {
        sum += u128::from(*word);
    }
    sum
}

/// The sum of the words, each times its place counted from 1.
fn weighted_total(words: &[u64]) -> u128
    requires { length words.now ≤ MAX_MATRIX_SIDE }
    ensures value { result ≡ weighted_sum words.now }
    ensures range { result ≤ 2 ^ 88 }
{
    let mut sum = 0;
    for (at, word) in words.iter().enumerate() {
        sum += (at as u128 + 1) * u128::from(*word);
    }
    sum
}

/// The sum that these sums of the columns expect of a product with `x`.
fn expected(sums: &[u64], x: &[u64]) -> u128
    requires lengths { length x.now ≡ length sums.now }
    requires sums { AreSums sums.now (2 ^ 44) }
    ensures value { result ≡ expected_sum sums.now x.now }
    ensures range { result ≤ 2 ^ 88 }
{
    let mut sum = 0;
    for at in 0..x.len() {
        sum += u128::from(sums[at]) * u128::from(x[at] % (1 << 32));
    }
    sum
}
