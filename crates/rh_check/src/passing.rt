//! Whether words pass a check.

ghost use Rattle.std.specs.Prelude.{◌≡◌, ◌<◌, ◌≤◌, ◌%◌, ◌^◌, length};
ghost use Rattle.std.specs.List.{AllByRecursion};
ghost use Rattle.rh_check.specs.Checks.{spec_passes, are_within, keeps_line, keeps_grid, weighted_sums};
ghost use Rattle.rh_check.specs.Fitting.{FitsInputs, FitsLine, FitsHalos};
ghost use Rattle.rh_check.specs.Users.{user_named};
ghost use Rattle.rh_check.specs.Matrices.{agrees_with};
ghost use Rattle.rh_words.specs.declared.limits.TheConstants.{MAX_MATRIX_SIDE};

use crate::handed_in::Checks;
use crate::matrices::Matrices;
use crate::spec::{Spec, Term};
use rh_sparse::Checksums;
use rh_words::Inputs;

/// Whether the words pass the check, given the matrices and the awaited words. It takes no memory.
pub fn passes<I: Inputs, C: Checks>(
    spec: &Spec,
    matrices: &Matrices,
    checks: &C,
    inputs: &I,
    words: &[u64],
) -> bool
    requires { FitsInputs matrices.now (I.lists inputs.now) words.now (C.specs checks.now) spec.now }
    ensures { result ≡ spec_passes (user_named (C.specs checks.now) spec.now) matrices.now (I.lists inputs.now) spec.now words.now }
{
    match spec {
        Spec::Range { lo, hi } => are_within(*lo, *hi, words),
        Spec::Total { sum } => rh_words::fold_sum(words) == *sum,
        Spec::Linear { base, terms, count } => {
            let sums = weighted_sums(inputs, &terms[..*count as usize]);
            rh_words::fold_sum(words) == rh_words::add(*base, sums)
        }
        Spec::User { at } => checks.ask(*at, words),
        Spec::Conserve { l, m, r, k, s } => keeps_line(inputs, *l, *m, *r, *k, *s, words),
        Spec::Conserve2 {
            north,
            south,
            west,
            east,
            m,
            cols,
            k,
            s,
        } => keeps_grid(
            inputs, *north, *south, *west, *east, *m, *cols, *k, *s, words,
        ),
        Spec::Product { matrix, x } => agrees(
            matrices.sums(*matrix),
            inputs.words(*x as usize),
            words,
        ),
    }
}

/// Whether each word is at least `lo` and at most `hi`.
pub fn are_within(lo: u64, hi: u64, words: &[u64]) -> bool
    ensures { result ≡ are_within lo hi words.now }
{
    words.iter().all(|w| lo <= *w && *w <= hi)
}

/// Whether the words agree with both checksums of a product with `x`.
fn agrees(sums: &Checksums, x: &[u64], words: &[u64]) -> bool
    requires columns { length x.now ≡ length sums.now.plain }
    requires rows { length words.now ≤ MAX_MATRIX_SIDE }
    ensures { result ≡ agrees_with sums.now x.now words.now }
{
    let (plain, weighted) = sums.differences(x, words);
    plain == 0 && weighted == 0
}

/// The sums of the awaited words, each times its factor, modulo 2^64.
fn weighted_sums<I: Inputs>(inputs: &I, terms: &[Term]) -> u64
    requires { AllByRecursion (λ t. t.input < length (I.lists inputs.now)) terms.now }
    ensures { result ≡ weighted_sums (I.lists inputs.now) terms.now % 2 ^ 64 }
{
    let mut sums = 0;
    for term in terms {
        let sum = rh_words::fold_sum(inputs.words(term.input as usize));
        sums = rh_words::add(sums, rh_words::mul(term.factor, sum));
    }
    sums
}

/// Whether the words have the sum of the line at `m` after its step between those at `l` and `r`.
fn keeps_line<I: Inputs>(inputs: &I, l: u32, m: u32, r: u32, k: u64, s: u32, words: &[u64]) -> bool
    requires { FitsLine (I.lists inputs.now) words.now l m r s }
    ensures { result ≡ keeps_line (I.lists inputs.now) l m r k s words.now }
{
    let left = inputs.words(l as usize);
    let line = inputs.words(m as usize);
    let right = inputs.words(r as usize);
    rh_stencil::conserves1(words, left, line, right, k, s)
}

/// Whether the words have the sum of the grid at `m` after its step between the halos on its north, south, west and east.
fn keeps_grid<I: Inputs>(
    inputs: &I,
    north: u32,
    south: u32,
    west: u32,
    east: u32,
    m: u32,
    cols: u32,
    k: u64,
    s: u32,
    words: &[u64],
) -> bool
    requires { FitsHalos (I.lists inputs.now) words.now north south west east m cols s }
    ensures { result ≡ keeps_grid (I.lists inputs.now) north south west east m cols k s words.now }
{
    let above = inputs.words(north as usize);
    let below = inputs.words(south as usize);
    let before = inputs.words(west as usize);
    let after = inputs.words(east as usize);
    let grid = inputs.words(m as usize);
    rh_stencil::conserves2(words, above, below, before, after, grid, cols, k, s)
}
