//! The product of a sparse matrix and a list of words.

ghost use Rattle.std.specs.Prelude.{◌≡◌, ◌<◌, ◌^◌, IfOk, length};
ghost use Rattle.std.specs.List.{All};
ghost use Rattle.rh_sparse.specs.Matrix.{IsRow};
ghost use Rattle.rh_sparse.specs.Product.{row_product, product_value};

use crate::matrix::{Cell, Matrix};
use rh_words::{OutOfMemory, Words};
use std::alloc::Global;

/// The product: a word for each row, the sum of its values, each times the word of its column modulo 2 ^ 32. Each word is below
/// 2 ^ 63, so nothing wraps.
pub fn product(alloc: Global, a: &Matrix, x: &[u64]) -> Result<Words, OutOfMemory>
    requires { length x.now ≡ a.now.cols }
    ensures value { IfOk result (λ w. w ≡ product_value a.now x.now) }
    ensures range { IfOk result (λ w. All (λ y. y < 2 ^ 63) w) }
{
    let rows = a.rows();
    let mut words = Vec::with_capacity(alloc, rows as usize)?;
    for at in 0..rows {
        words.push(row_product(a.row(at), x))?;
    }
    Ok(Words::from_vec(words))
}

/// A word of the product.
fn row_product(row: &[Cell], x: &[u64]) -> u64
    requires { IsRow (length x.now) row.now }
    ensures value { result ≡ row_product x.now row.now }
    ensures range { result < 2 ^ 63 }
{
    let mut sum = 0;
    for cell in row {
        sum += u64::from(cell.value) * (x[cell.col as usize] % (1 << 32));
    }
    sum
}
