//! Fast answers to what a handed-in check may ask.

ghost use Rattle.std.specs.Prelude.{◌≡◌};
ghost use Rattle.rh_check.specs.declared.spec.UserSpec.TheVariants as asks;
ghost use Rattle.rh_check.specs.Checks.{user_passes};

/// Whether each word is at most 255: by one OR over all words, and one comparison.
pub fn all_bytes(words: &[u64]) -> bool
    ensures { result ≡ user_passes (asks.Range 0 255) words.now }
{
    let mut united = 0;
    for word in words {
        united |= *word;
    }
    united <= 255
}

/// Whether the words sum to 0, modulo 2^64.
pub fn sums_to_zero(words: &[u64]) -> bool
    ensures { result ≡ user_passes (asks.Total 0) words.now }
{
    rh_words::fold_sum(words) == 0
}
