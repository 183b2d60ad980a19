//! The correction of one word that a check of a product reads.

ghost use Rattle.std.specs.Prelude.{◌≡◌, ◌≤◌, [], true, IfOk, length};
ghost use Rattle.std.specs.List.{AllByRecursion, find};
ghost use Rattle.std.specs.Option.{option_copied};
ghost use Rattle.rh_words.specs.declared.limits.TheConstants.{MAX_MATRIX_SIDE};
ghost use Rattle.rh_sparse.specs.Checksums.{plain_difference, weighted_difference};
ghost use Rattle.rh_sparse.specs.Correction.{restored};
ghost use Rattle.rh_check.specs.Fitting.{FitsInputs};
ghost use Rattle.rh_rules.specs.Lawful.{is_product};
ghost use Rattle.rh_plan.specs.Correcting.{restored_by, restored_put};
ghost use Rattle.rh_schemes.specs.Checking.{CanBeMade};
ghost use Rattle.rh_schemes.specs.Correcting.{placed, CanBeRestored, restored_planned};

use rh_attempt::Buffer;
use rh_check::{Matrices, Spec};
use rh_rules::PlannedCheck;
use rh_sparse::{Checksums, Correction, correct};
use rh_words::{Inputs, OutOfMemory, Words};
use std::alloc::Global;

/// Restores the one word that was altered of the put that the first check of a product reads, and answers its place, or `None`
/// where there is no such check, put or word.
pub(crate) fn restore<I: Inputs>(
    alloc: Global,
    checks: &[PlannedCheck],
    matrices: &Matrices,
    inputs: &I,
    buffer: &mut Buffer,
) -> Result<Option<u32>, OutOfMemory>
    requires { AllByRecursion (CanBeRestored matrices.now (I.lists inputs.now) buffer.old) checks.now }
    ensures { IfOk result (λ word. placed word buffer.new ≡ restored_planned matrices.now checks.now (I.lists inputs.now) buffer.old) }
{
    match product_check(checks) {
        None => Ok(None),
        Some(check) => restore_put(alloc, check, matrices, inputs, buffer),
    }
}

/// The first check of a product.
fn product_check(checks: &[PlannedCheck]) -> Option<&PlannedCheck>
    ensures { option_copied result ≡ find (λ c. is_product c.spec) checks.now }
{
    checks.iter().find(|check| is_product(&check.spec))
}

/// Whether the check is one of a product.
fn is_product(spec: &Spec) -> bool
    ensures { result ≡ is_product spec.now }
{
    matches!(spec, Spec::Product { .. })
}

/// Restores the one word that was altered of the put that a check of a product reads.
fn restore_put<I: Inputs>(
    alloc: Global,
    check: &PlannedCheck,
    matrices: &Matrices,
    inputs: &I,
    buffer: &mut Buffer,
) -> Result<Option<u32>, OutOfMemory>
    requires product { is_product check.now.spec ≡ true }
    requires fits { CanBeMade matrices.now [] (I.lists inputs.now) buffer.old check.now }
    ensures { IfOk result (λ word. placed word buffer.new ≡ restored_put matrices.now (I.lists inputs.now) buffer.old check.now.promise check.now.spec) }
{
    let Some(put) = buffer.put_of(check.promise) else {
        return Ok(None);
    };
    let mut words = Words::from_slice(alloc, put.as_slice())?;
    match restore_words(&check.spec, matrices, inputs, &mut words) {
        None => Ok(None),
        Some(word) => {
            buffer.set_put(check.promise, words);
            Ok(Some(word))
        }
    }
}

/// Restores the one word that was altered of the words that a check of a product reads, and answers its place.
fn restore_words<I: Inputs>(
    spec: &Spec,
    matrices: &Matrices,
    inputs: &I,
    words: &mut Words,
) -> Option<u32>
    requires product { is_product spec.now ≡ true }
    requires fits { FitsInputs matrices.now (I.lists inputs.now) words.old [] spec.now }
    ensures word { placed result words.new ≡ restored_by matrices.now (I.lists inputs.now) spec.now words.old }
    ensures long { length words.new ≡ length words.old }
{
    match spec {
        Spec::Product { matrix, x } => restore_word(
            matrices.sums(*matrix),
            inputs.words(*x as usize),
            words,
        ),
        Spec::Range { .. } => unreachable!(),
        Spec::Total { .. } => unreachable!(),
        Spec::Linear { .. } => unreachable!(),
        Spec::Conserve { .. } => unreachable!(),
        Spec::Conserve2 { .. } => unreachable!(),
        Spec::User { .. } => unreachable!(),
    }
}

/// Restores the one word that was altered of these words of a product with `x`, and answers its place.
fn restore_word(sums: &Checksums, x: &[u64], words: &mut Words) -> Option<u32>
    requires columns { length x.now ≡ length sums.now.plain }
    requires rows { length words.old ≤ MAX_MATRIX_SIDE }
    ensures word { placed result words.new ≡ restored words.old (plain_difference sums.now x.now words.old) (weighted_difference sums.now x.now words.old) }
    ensures long { length words.new ≡ length words.old }
{
    let (plain, weighted) = sums.differences(x, words.as_slice());
    match correct(words, plain, weighted) {
        Correction::Corrected { word } => Some(word),
        Correction::NotOne { .. } => None,
    }
}
