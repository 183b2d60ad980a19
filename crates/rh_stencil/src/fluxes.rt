//! What passes between two neighbouring words.

ghost use Rattle.std.specs.Prelude.{◌≡◌, ◌≤◌};
ghost use Rattle.rh_words.specs.declared.limits.TheConstants.{MAX_SHIFT};
ghost use Rattle.rh_stencil.specs.Biased.{biased_flux};
ghost use Rattle.rh_stencil.specs.Flux.{flux_value, balance_value};

use rh_words::{add, asr, mul, sub};

/// What passes from the word `l` to its right neighbour `r`: `k` times their difference modulo 2^64, shifted to the right by `s` bits as a
/// signed number.
#[tactic(auto, unfolding(crate::specs::Flux::flux_value))]
pub fn flux(l: u64, r: u64, k: u64, s: u32) -> u64
    requires { s ≤ MAX_SHIFT }
    ensures { result ≡ flux_value l r k s }
{
    asr(mul(k, sub(l, r)), s)
}

/// `flux` with the bias that lanes give it: more by 2^63 shifted to the right by `s` bits.
#[tactic(auto, unfolding(crate::specs::Biased::biased_flux))]
pub fn flux_with_bias(l: u64, r: u64, k: u64, s: u32) -> u64
    requires { s ≤ MAX_SHIFT }
    ensures { result ≡ biased_flux l r k s }
{
    add(mul(k, sub(l, r)), 1 << 63) >> s
}

/// The word after one flux came into it and another went out of it.
pub fn balance(word: u64, into: u64, from: u64) -> u64
    ensures { result ≡ balance_value word into from }
{
    sub(add(word, into), from)
}
