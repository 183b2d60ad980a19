//! Four words at a time. Lanes have no arithmetic shift, so their fluxes have a bias, which turns the sign bit. It is the same in each
//! flux, so it cancels where one flows in and another flows out.

ghost use Rattle.std.specs.Prelude.{◌≡◌, ◌≤◌, ◌<◌, ◌+◌, ◌*◌, ℕ, length, slice_index};
ghost use Rattle.rh_words.specs.declared.limits.TheConstants.{MAX_SHIFT};
ghost use Rattle.std.specs.Simd.Lanes.{zip2};
ghost use Rattle.rh_stencil.specs.Biased.{biased_balance_at, biased_flux, biased_flux_at};
ghost use Rattle.rh_stencil.specs.Steps.{line_inflow, line_word};

use std::simd::prelude::*;

/// The four fluxes from the words `left` to the words `right`, each with the bias.
pub fn biased_fluxes(left: u64x4, right: u64x4, k: u64, s: u32) -> u64x4
    requires { s ≤ MAX_SHIFT }
    ensures { result ≡ zip2 (λ x y. biased_flux x y k s) left right }
{
    let difference = left - right;
    // A product of lanes is dear, and most steps have `k` at 1. The compiler takes this test out of the loops.
    let scaled = if k == 1 {
        difference
    } else {
        u64x4::splat(k) * difference
    };
    (scaled + u64x4::splat(1 << 63)) >> u64x4::splat(s as u64)
}

/// Writes the first `blocks` times four words of the line `m` one step on, and answers what flows into the word after them.
/// Each flux is made once: what flows into four words is what flows out of them, one lane later, and the last lane of the block before.
pub fn step_blocks(out: &mut [u64], m: &[u64], blocks: usize, before: u64, k: u64, s: u32) -> u64
    requires same { length out.old ≡ length m.now }
    requires room { 4 * blocks < length m.now }
    requires shift { s ≤ MAX_SHIFT }
    ensures words { (after i : ℕ) → i < 4 * blocks
        → slice_index out.new i ≡ line_word before m.now after k s i }
    ensures into { result ≡ line_inflow before m.now k s (4 * blocks) }
{
    let mut into = biased_fluxes(u64x4::splat(before), u64x4::splat(m[0]), k, s);
    for block in 0..blocks {
        let at = 4 * block;
        let here = u64x4::from_slice(&m[at..]);
        let right = u64x4::from_slice(&m[at + 1..]);
        let from = biased_fluxes(here, right, k, s);
        let stepped = here + into.shuffle(from, [3, 4, 5, 6]) - from;
        stepped.copy_to_slice(&mut out[at..]);
        into = from;
    }
    into.to_array()[3].wrapping_sub((1 << 63) >> s)
}

/// Four words at a time of `exchange_rows`: the first `blocks` times four words.
pub fn exchange_blocks(
    out: &mut [u64],
    fluxes: &mut [u64],
    here: &[u64],
    below: &[u64],
    blocks: usize,
    k: u64,
    s: u32,
)
    requires same { length out.old ≡ length here.now }
    requires fluxes { length fluxes.old ≡ length here.now }
    requires below { length below.now ≡ length here.now }
    requires room { 4 * blocks ≤ length here.now }
    requires shift { s ≤ MAX_SHIFT }
    ensures words { (i : ℕ) → i < 4 * blocks
        → slice_index out.new i ≡ biased_balance_at out.old fluxes.old here.now below.now k s i }
    ensures fluxes { (i : ℕ) → i < 4 * blocks
        → slice_index fluxes.new i ≡ biased_flux_at here.now below.now k s i }
    ensures rest { (i : ℕ) → 4 * blocks ≤ i
        → (slice_index out.new i ≡ slice_index out.old i)
        × (slice_index fluxes.new i ≡ slice_index fluxes.old i) }
{
    for block in 0..blocks {
        let at = 4 * block;
        let word = u64x4::from_slice(&out[at..]);
        let into = u64x4::from_slice(&fluxes[at..]);
        let middle = u64x4::from_slice(&here[at..]);
        let from = biased_fluxes(middle, u64x4::from_slice(&below[at..]), k, s);
        let balanced = word + into - from;
        balanced.copy_to_slice(&mut out[at..]);
        from.copy_to_slice(&mut fluxes[at..]);
    }
}
