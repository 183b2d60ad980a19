//! The checks that a step keeps the sum of its words, and the laws that a step without faults passes them.

ghost use Rattle.std.specs.Prelude.{◌≡◌, ◌≤◌, ◌<◌, ◌↔◌, ◌+◌, ◌*◌, IsTrue, length, ℕ};
ghost use Rattle.rh_words.specs.declared.limits.TheConstants.{MAX_SHIFT};
ghost use Rattle.rh_stencil.specs.Conserved.{Conserves1, Conserves2, edge_inflow, edge_outflow};
ghost use Rattle.rh_stencil.specs.Grids.{FitsGrid};
ghost use Rattle.rh_stencil.specs.Laws.{Step1Conserves, Step2Conserves};

use crate::fluxes::{balance, flux};
use rh_words::{add, fold_sum};

/// Whether the sum of `out` is that of `m`, with the flux from the last word of `l` into the first of `m` added and the flux from the last
/// word of `m` to the first of `r` taken off, modulo 2^64. It takes no memory.
pub fn conserves1(out: &[u64], l: &[u64], m: &[u64], r: &[u64], k: u64, s: u32) -> bool
    requires left { 0 < length l.now }
    requires some { 0 < length m.now }
    requires right { 0 < length r.now }
    requires same { length out.now ≡ length m.now }
    requires shift { s ≤ MAX_SHIFT }
    ensures { IsTrue result ↔ Conserves1 out.now l.now m.now r.now k s }
{
    let into = flux(l[l.len() - 1], m[0], k, s);
    let from = flux(m[m.len() - 1], r[0], k, s);
    fold_sum(out) == balance(fold_sum(m), into, from)
}

/// The sum of what flows from a halo into the words of `m` at `start` and at each `step` after it.
fn sum_inflow(halo: &[u64], m: &[u64], start: usize, step: usize, k: u64, s: u32) -> u64
    requires inside { (i : ℕ) → i < length halo.now → start + i * step < length m.now }
    requires shift { s ≤ MAX_SHIFT }
    ensures { result ≡ edge_inflow halo.now m.now start step k s }
{
    let mut sum: u64 = 0;
    for (i, word) in halo.iter().enumerate() {
        sum = add(sum, flux(*word, m[start + i * step], k, s));
    }
    sum
}

/// The sum of what flows out of the words of `m` at `start` and at each `step` after it into a halo.
fn sum_outflow(halo: &[u64], m: &[u64], start: usize, step: usize, k: u64, s: u32) -> u64
    requires inside { (i : ℕ) → i < length halo.now → start + i * step < length m.now }
    requires shift { s ≤ MAX_SHIFT }
    ensures { result ≡ edge_outflow halo.now m.now start step k s }
{
    let mut sum: u64 = 0;
    for (i, word) in halo.iter().enumerate() {
        sum = add(sum, flux(m[start + i * step], *word, k, s));
    }
    sum
}

/// Whether the sum of `out` is that of the grid `m` of `cols` words a row, with the fluxes from `west` into its first column and from
/// `north` into its first row added, and those from its last column to `east` and from its last row to `south` taken off, modulo 2^64.
/// It takes no memory.
pub fn conserves2(
    out: &[u64],
    north: &[u64],
    south: &[u64],
    west: &[u64],
    east: &[u64],
    m: &[u64],
    cols: u32,
    k: u64,
    s: u32,
) -> bool
    requires fits { FitsGrid north.now south.now west.now east.now m.now cols }
    requires same { length out.now ≡ length m.now }
    requires shift { s ≤ MAX_SHIFT }
    ensures { IsTrue result
        ↔ Conserves2 out.now north.now south.now west.now east.now m.now cols k s }
{
    let width = cols as usize;
    let last_row = m.len() - width;
    let along_rows = balance(
        fold_sum(m),
        sum_inflow(west, m, 0, width, k, s),
        sum_outflow(east, m, width - 1, width, k, s),
    );
    let along_columns = balance(
        along_rows,
        sum_inflow(north, m, 0, 1, k, s),
        sum_outflow(south, m, last_row, 1, k, s),
    );
    fold_sum(out) == along_columns
}

/// A step without faults in one dimension passes its check.
pub fn step1_conserves()
    ensures { Step1Conserves }
{}

/// A step without faults in two dimensions passes its check.
pub fn step2_conserves()
    ensures { Step2Conserves }
{}
