//! Lists that are made word by word.

ghost use Rattle.std.specs.Prelude.{◌≡◌, ◌≤◌, IfOk, length};
ghost use Rattle.rh_words.specs.declared.limits.TheConstants.{MAX_SHIFT};
ghost use Rattle.rh_words.specs.Kernels.{add_value, sub_value, mul_value, scale_value, shift_value};

use rh_words::{OutOfMemory, Words, add, asr, mul, sub};
use std::alloc::Global;

/// The sums modulo 2 ^ 64, word by word.
pub fn add_words(alloc: Global, a: &[u64], b: &[u64]) -> Result<Words, OutOfMemory>
    requires { length a.now ≡ length b.now }
    ensures { IfOk result (λ w. w ≡ add_value a.now b.now) }
{
    let sums = (0..a.len()).map(|at| add(a[at], b[at])).collect(alloc)?;
    Ok(Words::from_vec(sums))
}

/// The differences modulo 2 ^ 64, word by word.
pub fn sub_words(alloc: Global, a: &[u64], b: &[u64]) -> Result<Words, OutOfMemory>
    requires { length a.now ≡ length b.now }
    ensures { IfOk result (λ w. w ≡ sub_value a.now b.now) }
{
    let differences = (0..a.len()).map(|at| sub(a[at], b[at])).collect(alloc)?;
    Ok(Words::from_vec(differences))
}

/// The products modulo 2 ^ 64, word by word.
pub fn mul_words(alloc: Global, a: &[u64], b: &[u64]) -> Result<Words, OutOfMemory>
    requires { length a.now ≡ length b.now }
    ensures { IfOk result (λ w. w ≡ mul_value a.now b.now) }
{
    let products = (0..a.len()).map(|at| mul(a[at], b[at])).collect(alloc)?;
    Ok(Words::from_vec(products))
}

/// Each word times k, modulo 2 ^ 64.
pub fn scale(alloc: Global, a: &[u64], k: u64) -> Result<Words, OutOfMemory>
    ensures { IfOk result (λ w. w ≡ scale_value a.now k) }
{
    let products = a.iter().map(|x| mul(*x, k)).collect(alloc)?;
    Ok(Words::from_vec(products))
}

/// Each word shifted to the right by s bits, with copies of its sign bit.
pub fn shift(alloc: Global, a: &[u64], s: u32) -> Result<Words, OutOfMemory>
    requires { s ≤ MAX_SHIFT }
    ensures { IfOk result (λ w. w ≡ shift_value a.now s) }
{
    let shifted = a.iter().map(|x| asr(*x, s)).collect(alloc)?;
    Ok(Words::from_vec(shifted))
}
