//! Lists that are made from numbers alone.

ghost use Rattle.std.specs.Prelude.{◌≡◌, ◌<◌, IfOk};
ghost use Rattle.rh_words.specs.Kernels.{lit_value, gen_value, gen_word};

use rh_words::{OutOfMemory, Words, add, mul};
use std::alloc::Global;

/// The words themselves.
pub fn lit(alloc: Global, words: &[u64]) -> Result<Words, OutOfMemory>
    ensures { IfOk result (λ w. w ≡ lit_value words.now) }
{
    Words::from_slice(alloc, words)
}

/// The words 0 to n - 1 of the generator, each below the limit, which is at least 1.
pub fn gen_(alloc: Global, n: u32, start: u64, limit: u64) -> Result<Words, OutOfMemory>
    requires { 0 < limit }
    ensures { IfOk result (λ w. w ≡ gen_value n start limit) }
{
    let words = (0..n)
        .map(|i| generated(start, limit, u64::from(i)))
        .collect(alloc)?;
    Ok(Words::from_vec(words))
}

/// Word i of the generator, from 0. The factor is that of the linear congruential generator MMIX by D. E. Knuth.
fn generated(start: u64, limit: u64, i: u64) -> u64
    requires { 0 < limit }
    ensures { result ≡ gen_word start limit i }
{
    (mul(add(start, i), 6364136223846793005) >> 33) % limit
}
