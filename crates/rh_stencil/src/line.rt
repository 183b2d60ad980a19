//! One step of a line of words.

ghost use Rattle.std.specs.Prelude.{◌≡◌, ◌≤◌, ◌<◌, ◌/◌, ◌+◌, ◌*◌, IfOk, length, ℕ, slice_index};
ghost use Rattle.rh_words.specs.declared.limits.TheConstants.{MAX_SHIFT};
ghost use Rattle.rh_stencil.specs.Steps.{step1_value, line_inflow, line_value, line_word};

use crate::fluxes::{balance, flux};
use crate::lanes::step_blocks;
use rh_words::{OutOfMemory, Words};
use std::alloc::Global;

/// Writes the words of the line `m` from the position `start` on, one step on, where `into` flows into the first of them.
fn step_rest(out: &mut [u64], m: &[u64], start: usize, into: u64, after: u64, k: u64, s: u32)
    requires same { length out.old ≡ length m.now }
    requires some { start < length m.now }
    requires shift { s ≤ MAX_SHIFT }
    ensures words { (before i : ℕ) → into ≡ line_inflow before m.now k s start
        → start ≤ i → i < length m.now
        → slice_index out.new i ≡ line_word before m.now after k s i }
    ensures rest { (i : ℕ) → i < start → slice_index out.new i ≡ slice_index out.old i }
{
    let last = m.len() - 1;
    let mut into = into;
    for at in start..last {
        let from = flux(m[at], m[at + 1], k, s);
        out[at] = balance(m[at], into, from);
        into = from;
    }
    out[last] = balance(m[last], into, flux(m[last], after, k, s));
}

/// Writes the line `m` one step on, with the word `before` to its left and the word `after` to its right.
pub fn step_line(out: &mut [u64], m: &[u64], before: u64, after: u64, k: u64, s: u32)
    requires same { length out.old ≡ length m.now }
    requires some { 0 < length m.now }
    requires shift { s ≤ MAX_SHIFT }
    ensures { out.new ≡ line_value before m.now after k s }
{
    let blocks = (m.len() - 1) / 4;
    let into = step_blocks(out, m, blocks, before, k, s);
    step_rest(out, m, 4 * blocks, into, after, k, s);
}

/// One step in one dimension: each word of `m` with the flux from its left neighbour added and the flux to its right neighbour taken off,
/// modulo 2^64. The last word of `l` stands to the left of `m`, the first word of `r` to its right. The answer is as long as `m`.
/// The only error is want of memory.
pub fn step1(
    alloc: Global,
    l: &[u64],
    m: &[u64],
    r: &[u64],
    k: u64,
    s: u32,
) -> Result<Words, OutOfMemory>
    requires left { 0 < length l.now }
    requires some { 0 < length m.now }
    requires right { 0 < length r.now }
    requires shift { s ≤ MAX_SHIFT }
    ensures { IfOk result (λ w. w ≡ step1_value l.now m.now r.now k s) }
{
    let mut out = vec![in alloc; 0; m.len()]?;
    step_line(&mut out, m, l[l.len() - 1], r[0], k, s);
    Ok(Words::from_vec(out))
}
