//! Values worked by hand, rows at the edges of what is lawful, and a matrix at the limits.

use rh_sparse::{Cell, Checksums, Correction, Matrix, correct, is_row, product};
use rh_words::{OutOfMemory, Words};
use std::alloc::Global;
use std::test::Fail;

const fn cell(col: u32, value: u32) -> Cell {
    Cell { col, value }
}

/// The matrix of this row, so many times, and of another.
fn matrix(
    alloc: Global,
    row: &[Cell],
    times: u32,
    last: &[Cell],
    cols: u32,
) -> Result<Matrix, OutOfMemory> {
    let mut a = Matrix::new(alloc, cols.clamp(1, 4096));
    for _ in 0..times {
        add_row(&mut a, row)?;
    }
    add_row(&mut a, last)?;
    Ok(a)
}

/// Adds the row where it is lawful and there is room.
fn add_row(a: &mut Matrix, row: &[Cell]) -> Result<(), OutOfMemory> {
    if a.rows() < 4096 && is_row(a.cols(), row) {
        a.push_row(row)?;
    }
    Ok(())
}

/// Whether this is the product.
fn is_product(alloc: Global, a: &Matrix, x: &[u64], y: &[u64]) -> Result<bool, OutOfMemory> {
    if x.len() != a.cols() as usize {
        return Ok(false);
    }
    Ok(product(alloc, a, x)?.as_slice() == y)
}

/// Whether the words are so far from agreeing with the checksums.
fn differ_by(
    alloc: Global,
    a: &Matrix,
    x: &[u64],
    y: &[u64],
    d1: i128,
    d2: i128,
) -> Result<bool, OutOfMemory> {
    let sums = Checksums::of(alloc, a)?;
    if x.len() != a.cols() as usize || y.len() > 4096 {
        return Ok(false);
    }
    Ok(sums.differences(x, y) == (d1, d2))
}

/// Whether the correction of the words answers this and leaves these.
fn corrects(
    alloc: Global,
    words: &[u64],
    d1: i128,
    d2: i128,
    answer: Correction,
    left: &[u64],
) -> Result<bool, OutOfMemory> {
    let limit = 1 << 100;
    if words.len() > 4096 || d1.unsigned_abs() >= limit || d2.unsigned_abs() >= limit {
        return Ok(false);
    }
    let mut y = Words::from_slice(alloc, words)?;
    Ok(correct(&mut y, d1, d2) == answer && y.as_slice() == left)
}

#[test]
fn rows_are_lawful_or_not(rt: HostRuntime) {
    let rows: [(u32, &[Cell], bool); 7] = [
        (2, &[], true),
        (2, &[cell(0, 1), cell(1, 1048575)], true),
        (2, &[cell(1, 1), cell(0, 1)], false),
        (2, &[cell(1, 1), cell(1, 1)], false),
        (2, &[cell(2, 1)], false),
        (2, &[cell(0, 1048576)], false),
        (4096, &[cell(4095, 0)], true),
    ];
    for (cols, cells, lawful) in rows {
        assert!(rt; is_row(cols, cells) == lawful);
    }
}

/// Whether the differences of each row's words are these.
fn have_differences(
    alloc: Global,
    a: &Matrix,
    rows: &[([u64; 2], [u64; 2], i128, i128)],
) -> Result<bool, OutOfMemory> {
    for (x, y, d1, d2) in rows {
        if !differ_by(alloc, a, x, y, *d1, *d2)? {
            return Ok(false);
        }
    }
    Ok(true)
}

/// Words that a product reads, others, and how far these are from agreeing with the checksums of the rows 2 0 and 1 3.
const DIFFERENCES: &[([u64; 2], [u64; 2], i128, i128)] = &[
    ([1, 0], [0, 0], -3, -4),
    ([0, 1], [0, 0], -3, -6),
    ([5, 7], [0, 0], -36, -62),
    ([5, 7], [10, 26], 0, 0),
    ([5, 7], [10, 27], 1, 2),
    ([5, 7], [11, 25], 0, -1),
];

/// The matrix of the rows 2 0 and 1 3.
pub fn two_rows(alloc: Global) -> Result<Matrix, OutOfMemory> {
    matrix(alloc, &[cell(0, 2)], 1, &[cell(0, 1), cell(1, 3)], 2)
}

/// Whether the matrix of two rows has these products and differences.
fn small_matrix_serves(alloc: Global, a: &Matrix) -> Result<bool, OutOfMemory> {
    Ok(
        is_product(alloc, a, &[5, 7], &[10, 26])?
            && is_product(alloc, a, &[4294967301, u64::MAX], &[10, 12884901890])?
            && have_differences(alloc, a, DIFFERENCES)?,
    )
}

#[test]
fn a_product_agrees_with_its_checksums(rt: HostRuntime) -> Result<(), Fail> {
    let a = two_rows(rt.alloc())?;
    assert!(rt; small_matrix_serves(rt.alloc(), &a)?);
    Ok(())
}

/// Two words, their differences, the number of the word that is put right, where there is one, and the words after it.
type CorrectedRow = ([u64; 2], i128, i128, Option<u32>, [u64; 2]);

const CORRECTED: &[CorrectedRow] = &[
    ([10, 27], 1, 2, Some(1), [10, 26]),
    ([10, 21], -5, -10, Some(1), [10, 26]),
    ([5, 2], 5, 5, Some(0), [0, 2]),
    ([11, 25], 0, -1, None, [11, 25]),
    ([1, 2], 0, 0, None, [1, 2]),
    ([1, 2], 1, 3, None, [1, 2]),
    ([1, 2], 2, 3, None, [1, 2]),
    ([0, 2], 1, 1, None, [0, 2]),
    ([u64::MAX, 2], -1, -1, None, [u64::MAX, 2]),
];

/// Whether the rows' words are put right, or left, as the row says.
fn are_corrected(alloc: Global, rows: &[CorrectedRow]) -> Result<bool, OutOfMemory> {
    let mut same = true;
    for (words, d1, d2, row, left) in rows {
        let answer = match row {
            Some(word) => Correction::Corrected { word: *word },
            None => Correction::NotOne { d1: *d1, d2: *d2 },
        };
        same = same && corrects(alloc, words, *d1, *d2, answer, left)?;
    }
    Ok(same)
}

#[test]
fn one_word_is_corrected(rt: HostRuntime) -> Result<(), Fail> {
    assert!(rt; are_corrected(rt.alloc(), CORRECTED)?);
    Ok(())
}

/// 4,096 rows of 2,048 cells, each of the greatest value.
fn full_matrix(alloc: Global) -> Result<Matrix, OutOfMemory> {
    let mut cells = Vec::new(alloc);
    for col in 0..2048 {
        cells.push(cell(2 * col, 1048575))?;
    }
    matrix(alloc, cells.as_slice(), 4095, cells.as_slice(), 4096)
}

/// Whether this is the product, and it agrees with the checksums.
fn agrees(alloc: Global, a: &Matrix, x: &[u64], y: &[u64]) -> Result<bool, OutOfMemory> {
    Ok(is_product(alloc, a, x, y)? && differ_by(alloc, a, x, y, 0, 0)?)
}

/// Whether the product with the greatest words is right, and agrees with the checksums.
fn serves(alloc: Global, a: &Matrix) -> Result<bool, OutOfMemory> {
    let x = vec![in alloc; u64::MAX; 4096]?;
    let y = vec![in alloc; 9223363238614272000; 4096]?;
    agrees(alloc, a, x.as_slice(), y.as_slice())
}

#[test]
fn a_matrix_at_the_limits_is_served(rt: HostRuntime) -> Result<(), Fail> {
    let a = full_matrix(rt.alloc())?;
    assert!(rt; serves(rt.alloc(), &a)?);
    Ok(())
}
