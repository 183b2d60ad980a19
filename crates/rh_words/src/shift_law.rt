//! What the arithmetic shift to the right is in whole numbers.

ghost use Rattle.std.specs.Prelude.{◌≡◌, ◌-◌, ◌<◌, ◌≤◌, ◌^◌, ℕ};
ghost use Rattle.rh_words.specs.declared.limits.TheConstants.{MAX_SHIFT};
ghost use Rattle.rh_words.specs.Modular.{asr_word, signed_of, IsFloorOfQuotient};

/// A word that is shifted to the right by s bits is, as whole numbers in two's complement, its quotient by 2 ^ s rounded down.
pub fn shifts_are_floors()
    ensures floor { (w s : ℕ) → w < 2 ^ 64 → s ≤ MAX_SHIFT → IsFloorOfQuotient (signed_of w) (2 ^ s) (signed_of (asr_word w s)) }
    ensures minus_eight { asr_word (2 ^ 64 - 8) 1 ≡ 2 ^ 64 - 4 }
{}
