//! One word of many.

ghost use Rattle.std.specs.Prelude.{◌≡◌};
ghost use Rattle.rh_words.specs.Kernels.{sum_value, count_value};

use rh_words::fold_sum;

/// The sum of the words modulo 2 ^ 64, for every length.
pub fn sum(a: &[u64]) -> u64
    ensures { result ≡ sum_value a.now }
{
    fold_sum(a)
}

/// How many of the words are not 0.
pub fn count(a: &[u64]) -> u64
    ensures { result ≡ count_value a.now }
{
    let mut found: u64 = 0;
    for word in a {
        if *word != 0 {
            found += 1;
        }
    }
    found
}
