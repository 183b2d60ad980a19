//! One step of a grid of words.

ghost use Rattle.std.specs.Prelude.{◌≡◌, ◌≤◌, ◌<◌, ◌/◌, ◌+◌, ◌-◌, ◌*◌, IfOk, length, ℕ, slice_index};
ghost use Rattle.rh_words.specs.declared.limits.TheConstants.{MAX_SHIFT};
ghost use Rattle.rh_stencil.specs.Biased.{biased_balance_at, biased_flux_at};
ghost use Rattle.rh_stencil.specs.Flux.{balance_value};
ghost use Rattle.rh_stencil.specs.Steps.{line_word};
ghost use Rattle.rh_stencil.specs.Grids.{FitsGrid, step2_value, word_south};

use crate::fluxes::{balance, flux_with_bias};
use crate::lanes::exchange_blocks;
use crate::line::step_line;
use rh_words::{OutOfMemory, Words};
use std::alloc::Global;

/// `exchange_rows` for the words from `start` on.
fn exchange_rest(
    out: &mut [u64],
    fluxes: &mut [u64],
    here: &[u64],
    below: &[u64],
    start: usize,
    k: u64,
    s: u32,
)
    requires same { length out.old ≡ length here.now }
    requires fluxes { length fluxes.old ≡ length here.now }
    requires below { length below.now ≡ length here.now }
    requires shift { s ≤ MAX_SHIFT }
    ensures words { (i : ℕ) → start ≤ i → i < length here.now
        → slice_index out.new i ≡ biased_balance_at out.old fluxes.old here.now below.now k s i }
    ensures fluxes { (i : ℕ) → start ≤ i → i < length here.now
        → slice_index fluxes.new i ≡ biased_flux_at here.now below.now k s i }
    ensures rest { (i : ℕ) → i < start
        → (slice_index out.new i ≡ slice_index out.old i)
        × (slice_index fluxes.new i ≡ slice_index fluxes.old i) }
{
    for at in start..here.len() {
        let from = flux_with_bias(here[at], below[at], k, s);
        out[at] = balance(out[at], fluxes[at], from);
        fluxes[at] = from;
    }
}

/// Adds to the words of `out` what `fluxes` has from the row above, and takes off what flows from the row `here` to the row `below`, which
/// `fluxes` has then. These fluxes have a bias, which cancels.
fn exchange_rows(out: &mut [u64], fluxes: &mut [u64], here: &[u64], below: &[u64], k: u64, s: u32)
    requires same { length out.old ≡ length here.now }
    requires fluxes { length fluxes.old ≡ length here.now }
    requires below { length below.now ≡ length here.now }
    requires shift { s ≤ MAX_SHIFT }
    ensures words { (i : ℕ) → i < length here.now
        → slice_index out.new i ≡ biased_balance_at out.old fluxes.old here.now below.now k s i }
    ensures fluxes { (i : ℕ) → i < length here.now
        → slice_index fluxes.new i ≡ biased_flux_at here.now below.now k s i }
{
    let blocks = here.len() / 4;
    exchange_blocks(out, fluxes, here, below, blocks, k, s);
    exchange_rest(out, fluxes, here, below, 4 * blocks, k, s);
}

/// The row below a row of the grid.
fn row_below<'a>(south: &'a [u64], m: &'a [u64], row: usize, cols: usize) -> &'a [u64]
    requires south { length south.now ≡ cols }
    requires inside { row * cols + cols ≤ length m.now }
    requires whole { row * cols + cols < length m.now → row * cols + cols + cols ≤ length m.now }
    ensures long { length result.now ≡ cols }
    ensures words { (c : ℕ) → c < cols
        → slice_index result.now c ≡ word_south south.now m.now cols (row * cols + c) }
{
    let start = row * cols + cols;
    if start == m.len() {
        south
    } else {
        &m[start..start + cols]
    }
}

/// Writes one row of the grid one step on, between the words `west` and `east`, where `fluxes` has what flows into it from the row above,
/// and then what flows out of it to the row `below`.
fn step_row(
    out: &mut [u64],
    fluxes: &mut [u64],
    here: &[u64],
    below: &[u64],
    west: u64,
    east: u64,
    k: u64,
    s: u32,
)
    requires some { 0 < length here.now }
    requires same { length out.old ≡ length here.now }
    requires fluxes { length fluxes.old ≡ length here.now }
    requires below { length below.now ≡ length here.now }
    requires shift { s ≤ MAX_SHIFT }
    ensures words { (c : ℕ) → c < length here.now
        → slice_index out.new c ≡ balance_value (line_word west here.now east k s c)
        (slice_index fluxes.old c) (biased_flux_at here.now below.now k s c) }
    ensures fluxes { (c : ℕ) → c < length here.now
        → slice_index fluxes.new c ≡ biased_flux_at here.now below.now k s c }
{
    step_line(out, here, west, east, k, s);
    exchange_rows(out, fluxes, here, below, k, s);
}

/// Writes the grid `m` of `cols` words a row one step on, where `fluxes` has what flows into its first row from the row `north`.
/// What `fluxes` has at the end says nothing.
fn step_rows(
    out: &mut [u64],
    fluxes: &mut [u64],
    north: &[u64],
    south: &[u64],
    west: &[u64],
    east: &[u64],
    m: &[u64],
    cols: usize,
    k: u64,
    s: u32,
)
    requires same { length out.old ≡ length m.now }
    requires fluxes { length fluxes.old ≡ cols }
    requires fits { FitsGrid north.now south.now west.now east.now m.now cols }
    requires shift { s ≤ MAX_SHIFT }
    requires into { (c : ℕ) → c < cols
        → slice_index fluxes.old c ≡ biased_flux_at north.now m.now k s c }
    ensures { out.new ≡ step2_value north.now south.now west.now east.now m.now cols k s }
{
    for row in 0..west.len() {
        let start = row * cols;
        let end = start + cols;
        let below = row_below(south, m, row, cols);
        step_row(
            &mut out[start..end],
            fluxes,
            &m[start..end],
            below,
            west[row],
            east[row],
            k,
            s,
        );
    }
}

/// Writes the grid `m` of `cols` words a row one step on. What `fluxes` has before and after says nothing.
fn step_grid(
    out: &mut [u64],
    fluxes: &mut [u64],
    north: &[u64],
    south: &[u64],
    west: &[u64],
    east: &[u64],
    m: &[u64],
    cols: usize,
    k: u64,
    s: u32,
)
    requires same { length out.old ≡ length m.now }
    requires fluxes { length fluxes.old ≡ cols }
    requires fits { FitsGrid north.now south.now west.now east.now m.now cols }
    requires shift { s ≤ MAX_SHIFT }
    ensures { out.new ≡ step2_value north.now south.now west.now east.now m.now cols k s }
{
    // This is for the fluxes from the north halo alone: what it leaves in the first row is written over.
    exchange_rows(&mut out[..cols], fluxes, north, &m[..cols], k, s);
    step_rows(out, fluxes, north, south, west, east, m, cols, k, s);
}

/// One step in two dimensions of the grid `m`, row after row, of `cols` words a row: each word with the fluxes from its left and its upper
/// neighbour added, and those to its right and its lower neighbour taken off, modulo 2^64. The halos `north` and `south` stand above and
/// below the grid with `cols` words each, `west` and `east` on its left and right with one word a row. The answer is as long as `m`.
/// The only error is want of memory.
pub fn step2(
    alloc: Global,
    north: &[u64],
    south: &[u64],
    west: &[u64],
    east: &[u64],
    m: &[u64],
    cols: u32,
    k: u64,
    s: u32,
) -> Result<Words, OutOfMemory>
    requires fits { FitsGrid north.now south.now west.now east.now m.now cols }
    requires shift { s ≤ MAX_SHIFT }
    ensures { IfOk result (λ w.
        w ≡ step2_value north.now south.now west.now east.now m.now cols k s) }
{
    let width = cols as usize;
    let mut out = vec![in alloc; 0; m.len()]?;
    let mut fluxes = vec![in alloc; 0; width]?;
    step_grid(
        &mut out,
        &mut fluxes,
        north,
        south,
        west,
        east,
        m,
        width,
        k,
        s,
    );
    Ok(Words::from_vec(out))
}
