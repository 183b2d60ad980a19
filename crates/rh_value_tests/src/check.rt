//! Words that pass checks and words that do not, worked by hand.

ghost use Rattle.std.specs.Prelude.{◌≡◌, ◌++◌, ◌∷◌, [], IfOk, OnOk, length};
ghost use Rattle.rh_check.specs.Checks.{are_within};

use crate::sparse::two_rows;
use rh_check::{Checks, Matrices, NoChecks, Spec, Term, UserSpec, passes};
use rh_sparse::Matrix;
use rh_words::{ListInputs, Name, OutOfMemory, Words};
use std::alloc::Global;
use std::test::Fail;

/// Whether each word is at least `lo` and at most `hi`.
pub fn are_within(lo: u64, hi: u64, words: &[u64]) -> bool
    ensures { result ≡ are_within lo hi words.now }
{
    words.iter().all(|word| lo <= *word && *word <= hi)
}

/// Whether the handed-in check at this place passes the words.
pub fn passes_at<C: Checks>(alloc: Global, checks: &C, at: u32, words: &[u64]) -> bool {
    at < checks.count()
        && passes(
            &Spec::User { at },
            &Matrices::new(alloc),
            checks,
            &ListInputs::new(alloc),
            words,
        )
}

/// One handed-in check, `small`: each word is from 4 to 9.
struct Small;

impl Checks for Small {
    ghost use Rattle.std.specs.Prelude.{[], ◌∷◌, codes};
    ghost use Rattle.rh_check.specs.declared.spec.UserSpec.TheVariants.{Range};

    ghost names = { λ c. codes "small" ∷ [] };

    ghost specs = { λ c. Range 4 9 ∷ [] };

    fn count(&self) -> u32 {
        1
    }

    fn name(&self, _at: u32) -> Name {
        match Name::read(b"small") {
            Some(name) => name,
            None => unreachable!(),
        }
    }

    fn spec(&self, _at: u32) -> UserSpec {
        UserSpec::Range { lo: 4, hi: 9 }
    }

    fn ask(&self, _at: u32, words: &[u64]) -> bool {
        are_within(4, 9, words)
    }
}

/// Whether the words are from 4 to 9.
fn in_range(alloc: Global, words: &[u64]) -> bool {
    passes(
        &Spec::Range { lo: 4, hi: 9 },
        &Matrices::new(alloc),
        &NoChecks,
        &ListInputs::new(alloc),
        words,
    )
}

/// Whether the words sum to 30.
fn sums_to_30(alloc: Global, words: &[u64]) -> bool {
    passes(
        &Spec::Total { sum: 30 },
        &Matrices::new(alloc),
        &NoChecks,
        &ListInputs::new(alloc),
        words,
    )
}

/// Adds the words behind the others.
fn add(alloc: Global, inputs: &mut ListInputs, words: &[u64]) -> Result<(), OutOfMemory>
    ensures { OnOk result (inputs.new ≡ inputs.old ++ words.now ∷ []) }
{
    inputs.push(Words::from_slice(alloc, words)?)
}

/// Whether the words sum to 5, twice the sum of 1 2 3 and three times the sum of -1, which is 14.
fn are_linear(alloc: Global, words: &[u64]) -> Result<bool, OutOfMemory> {
    let mut inputs = ListInputs::new(alloc);
    add(alloc, &mut inputs, &[1, 2, 3])?;
    add(alloc, &mut inputs, &[u64::MAX])?;
    let mut terms = [Term {
        input: 7,
        factor: 1,
    }; 16];
    terms[0] = Term {
        input: 0,
        factor: 2,
    };
    terms[1] = Term {
        input: 1,
        factor: 3,
    };
    let spec = Spec::Linear {
        base: 5,
        terms,
        count: 2,
    };
    Ok(passes(&spec, &Matrices::new(alloc), &NoChecks, &inputs, words))
}

/// Words, and whether they pass.
type Row<'a> = (&'a [u64], bool);

/// Words with whether each is from 4 to 9.
const BOUNDED: &[Row<'static>] = &[
    (&[4, 9, 5], true),
    (&[], true),
    (&[3], false),
    (&[10], false),
    (&[9, 200], false),
    (&[200, 9], false),
];

/// Whether the rows' words pass the bound, and the handed-in check that asks the same, where the row says so.
fn are_bounded(alloc: Global, rows: &[Row<'_>]) -> bool {
    for (words, answer) in rows {
        if in_range(alloc, words) != *answer || passes_at(alloc, &Small, 0, words) != *answer {
            return false;
        }
    }
    true
}

#[test]
fn bounds_are_words_that_pass(rt: HostRuntime) {
    assert!(rt; are_bounded(rt.alloc(), BOUNDED));
}

/// Words with whether they sum to 30.
const SUMMED: &[Row<'static>] = &[
    (&[10, 20], true),
    (&[11, 20], false),
    (&[10, 28], false),
    (&[u64::MAX, 31], true),
    (&[], false),
];

/// Whether the rows' words sum to 30 where the row says so.
fn are_summed(alloc: Global, rows: &[Row<'_>]) -> bool {
    for (words, answer) in rows {
        if sums_to_30(alloc, words) != *answer {
            return false;
        }
    }
    true
}

#[test]
fn sums_wrap_at_the_greatest_word(rt: HostRuntime) {
    assert!(rt; are_summed(rt.alloc(), SUMMED));
}

/// Words with whether they sum to 14.
const LINEAR: &[Row<'static>] = &[
    (&[4, 10], true),
    (&[u64::MAX, 15], true),
    (&[4, 9], false),
    (&[17], false),
    (&[12], false),
];

/// Whether the rows' words are linear where the row says so.
fn read_their_terms(alloc: Global, rows: &[Row<'_>]) -> Result<bool, OutOfMemory> {
    let mut same = true;
    for (words, answer) in rows {
        same = same && are_linear(alloc, words)? == *answer;
    }
    Ok(same)
}

#[test]
fn linear_checks_read_their_terms(rt: HostRuntime) -> Result<(), Fail> {
    assert!(rt; read_their_terms(rt.alloc(), LINEAR)?);
    Ok(())
}

/// Whether the handed-in check is counted, named and said.
fn is_small() -> bool {
    Small.count() == 1
        && NoChecks.count() == 0
        && Small.name(0).bytes() == b"small".as_slice()
        && Small.spec(0) == UserSpec::Range { lo: 4, hi: 9 }
}

#[test]
fn handed_in_checks_have_names(rt: HostRuntime) {
    assert!(rt; is_small());
}

/// The check of a step of one line between two others: with `k` and `s` at 1, the places of `l`, `m` and `r` are 0, 1 and 2.
const LINE_STEP: Spec = Spec::Conserve {
    l: 0,
    m: 1,
    r: 2,
    k: 1,
    s: 1,
};

/// The check of a step of a grid of two columns: the sides on its north, south, west and east, then the grid.
const GRID_STEP: Spec = Spec::Conserve2 {
    north: 0,
    south: 1,
    west: 2,
    east: 3,
    m: 4,
    cols: 2,
    k: 1,
    s: 1,
};

/// The line 8 0, between 0 and 0.
fn line(alloc: Global) -> Result<ListInputs, OutOfMemory>
    ensures { IfOk result (λ inputs. inputs ≡ (0 ∷ []) ∷ (8 ∷ 0 ∷ []) ∷ (0 ∷ []) ∷ []) }
{
    let mut inputs = ListInputs::new(alloc);
    add(alloc, &mut inputs, &[0])?;
    add(alloc, &mut inputs, &[8, 0])?;
    add(alloc, &mut inputs, &[0])?;
    Ok(inputs)
}

/// Whether the words keep the sum of the line, whose step is 0 4.
fn keep_line(alloc: Global, words: &[u64]) -> Result<bool, OutOfMemory>
    requires { length words.now ≡ 2 }
{
    let inputs = line(alloc)?;
    Ok(passes(&LINE_STEP, &Matrices::new(alloc), &NoChecks, &inputs, words))
}

/// Adds the sides of a grid: 8 0 above and below, 8 before and 0 after it.
fn add_sides(alloc: Global, inputs: &mut ListInputs) -> Result<(), OutOfMemory>
    ensures { OnOk result (inputs.new ≡ inputs.old ++ (8 ∷ 0 ∷ []) ∷ (8 ∷ 0 ∷ []) ∷ (8 ∷ []) ∷ (0 ∷ []) ∷ []) }
{
    add(alloc, inputs, &[8, 0])?;
    add(alloc, inputs, &[8, 0])?;
    add(alloc, inputs, &[8])?;
    add(alloc, inputs, &[0])
}

/// The sides, and behind them the grid of the one row 8 0.
fn grid(alloc: Global) -> Result<ListInputs, OutOfMemory>
    ensures { IfOk result (λ inputs. inputs ≡ (8 ∷ 0 ∷ []) ∷ (8 ∷ 0 ∷ []) ∷ (8 ∷ []) ∷ (0 ∷ []) ∷ (8 ∷ 0 ∷ []) ∷ []) }
{
    let mut inputs = ListInputs::new(alloc);
    add_sides(alloc, &mut inputs)?;
    add(alloc, &mut inputs, &[8, 0])?;
    Ok(inputs)
}

/// Whether the words keep the sum of the grid, whose step is 4 4 between those sides.
fn keep_grid(alloc: Global, words: &[u64]) -> Result<bool, OutOfMemory>
    requires { length words.now ≡ 2 }
{
    let inputs = grid(alloc)?;
    Ok(passes(&GRID_STEP, &Matrices::new(alloc), &NoChecks, &inputs, words))
}

/// Words, and whether they keep the sum of the line and that of the grid.
const KEPT: &[([u64; 2], bool, bool)] = &[
    ([0, 4], true, false),
    ([4, 0], true, false),
    ([0, 5], false, false),
    ([4, 4], false, true),
    ([4, 5], false, false),
];

/// Whether the rows' words keep the sums where the row says so.
fn keep_sums(alloc: Global, rows: &[([u64; 2], bool, bool)]) -> Result<bool, OutOfMemory> {
    let mut same = true;
    for (words, on_line, on_grid) in rows {
        same = same && keep_line(alloc, words)? == *on_line && keep_grid(alloc, words)? == *on_grid;
    }
    Ok(same)
}

#[test]
fn steps_keep_their_sums(rt: HostRuntime) -> Result<(), Fail> {
    assert!(rt; keep_sums(rt.alloc(), KEPT)?);
    Ok(())
}

/// A matrix of one column without rows, and behind it the one of two rows.
fn two_matrices(alloc: Global) -> Result<Matrices, OutOfMemory> {
    let mut matrices = Matrices::new(alloc);
    matrices.push(alloc, Matrix::new(alloc, 1))?;
    matrices.push(alloc, two_rows(alloc)?)?;
    Ok(matrices)
}

/// Whether the words agree with the product of the second matrix, where there is one, and `x`.
fn agree_with_product(
    alloc: Global,
    matrices: &Matrices,
    x: &[u64],
    words: &[u64],
) -> Result<bool, OutOfMemory> {
    if matrices.rows_at(1) == 0 || words.len() != matrices.rows_at(1) as usize {
        return Ok(false);
    }
    if x.len() != matrices.get(1).cols() as usize {
        return Ok(false);
    }
    let mut inputs = ListInputs::new(alloc);
    add(alloc, &mut inputs, x)?;
    let spec = Spec::Product { matrix: 1, x: 0 };
    Ok(passes(&spec, matrices, &NoChecks, &inputs, words))
}

/// The words that a product reads, words, and whether these agree with it.
const PRODUCTS: &[(&[u64], &[u64], bool)] = &[
    (&[5, 7], &[10, 26], true),
    (&[5, 7], &[10, 27], false),
    (&[5, 7], &[11, 25], false),
    (&[5, 7], &[26, 10], false),
    (&[(1 << 32) + 5, 7], &[10, 26], true),
    (&[5, 7], &[10], false),
];

/// Whether the rows' words agree with the product where the row says so.
fn agree(
    alloc: Global,
    matrices: &Matrices,
    rows: &[(&[u64], &[u64], bool)],
) -> Result<bool, OutOfMemory> {
    let mut same = true;
    for (x, words, answer) in rows {
        same = same && agree_with_product(alloc, matrices, x, words)? == *answer;
    }
    Ok(same)
}

/// Whether the rows are told of the two matrices.
fn two_matrices_serve(alloc: Global) -> Result<bool, OutOfMemory> {
    let matrices = two_matrices(alloc)?;
    agree(alloc, &matrices, PRODUCTS)
}

#[test]
fn products_agree_with_both_checksums(rt: HostRuntime) -> Result<(), Fail> {
    assert!(rt; two_matrices_serve(rt.alloc())?);
    Ok(())
}
