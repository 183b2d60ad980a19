//! The results of the `let`s of an attempt, on the locals before them.

ghost use Rattle.std.specs.Prelude.{◌≡◌, ◌≤◌, ◌<◌, ◌+◌, ◌∷◌, [], Some, true, IfOk, IsOkAnd, length, map, slice_get, slice_index};
ghost use Rattle.rh_words.specs.declared.limits.TheConstants.{MAX_SHIFT};
ghost use Rattle.rh_words.specs.Kernels.{add_value, sub_value, mul_value, scale_value, shift_value, cut_value, join_value, sum_value, count_value};
ghost use Rattle.rh_stencil.specs.Steps.{step1_value};
ghost use Rattle.rh_stencil.specs.Grids.{step2_value};
ghost use Rattle.std.specs.List.{AllByRecursion};
ghost use Rattle.rh_rules.specs.Lawful.{promise_lens};
ghost use Rattle.rh_rules.specs.Bodies.{IsSoundStep, IsThere, HasWords, AreAlike, AreHalos};
ghost use Rattle.rh_check.specs.Checks.{words_at};
ghost use Rattle.rh_plan.specs.Buffers.{product_if_held, let_value};
ghost use Rattle.rh_plan.specs.Plans.{shapes_in};
ghost use Rattle.rh_attempt.specs.Attempting.{combines};
ghost use Rattle.rh_rules.specs.declared.body.Step.TheVariants.{Product};

use crate::local::Local;
use rh_plan::Plan;
use rh_rules::Step;
use rh_words::{OutOfMemory, Words};
use std::alloc::Global;

/// The result of a `let` on these locals.
pub(crate) fn let_words(
    alloc: Global,
    plan: &Plan,
    step: &Step,
    locals: &[Local<'_>],
) -> Result<Option<Words>, OutOfMemory>
    requires { IsSoundStep (shapes_in plan.now) (promise_lens plan.now.promises) (map length locals.now) step.now }
    ensures { IfOk result (λ words. words ≡ let_value plan.now locals.now step.now) }
{
    match step {
        Step::Lit { words } => made(rh_kernels::lit(alloc, words.as_slice())),
        Step::Gen { n, start, limit } => made(rh_kernels::gen_(alloc, *n, *start, *limit)),
        Step::Scale { a, k } => scaled(alloc, locals, *a, *k),
        Step::Shift { a, s } => shifted(alloc, locals, *a, *s),
        Step::Cut { a, from, len } => piece(alloc, locals, *a, *from, *len),
        Step::Sum { a } => total(alloc, locals, *a),
        Step::Count { a } => counted(alloc, locals, *a),
        Step::Add { .. }
        | Step::Sub { .. }
        | Step::Mul { .. }
        | Step::Join { .. }
        | Step::Stencil1 { .. }
        | Step::Stencil2 { .. } => combined(alloc, plan, step, locals),
        Step::Product { matrix, v } => made(product_of(alloc, plan, *matrix, *v, locals)),
        Step::Put { .. } => Ok(None),
        Step::DropAwait { .. } => Ok(None),
    }
}

/// The result of a `let` of several of these locals.
fn combined(
    alloc: Global,
    plan: &Plan,
    step: &Step,
    locals: &[Local<'_>],
) -> Result<Option<Words>, OutOfMemory>
    requires sound { IsSoundStep (shapes_in plan.now) (promise_lens plan.now.promises) (map length locals.now) step.now }
    requires several { combines step.now ≡ true }
    ensures { IfOk result (λ words. words ≡ let_value plan.now locals.now step.now) }
{
    match step {
        Step::Add { a, b } => added(alloc, locals, *a, *b),
        Step::Sub { a, b } => subtracted(alloc, locals, *a, *b),
        Step::Mul { a, b } => multiplied(alloc, locals, *a, *b),
        Step::Join { parts } => made(joined(alloc, parts.as_slice(), locals)),
        Step::Stencil1 { l, m, r, k, s } => stepped_line(alloc, locals, *l, *m, *r, *k, *s),
        Step::Stencil2 {
            north,
            south,
            west,
            east,
            m,
            cols,
            k,
            s,
        } => stepped_grid(
            alloc, locals, *north, *south, *west, *east, *m, *cols, *k, *s,
        ),
        Step::Lit { .. }
        | Step::Gen { .. }
        | Step::Scale { .. }
        | Step::Shift { .. }
        | Step::Cut { .. }
        | Step::Sum { .. }
        | Step::Count { .. }
        | Step::Product { .. }
        | Step::Put { .. }
        | Step::DropAwait { .. } => unreachable!(),
    }
}

/// The sums of two locals, word by word.
fn added(alloc: Global, locals: &[Local<'_>], a: u32, b: u32) -> Result<Option<Words>, OutOfMemory>
    requires { AreAlike (map length locals.now) a b }
    ensures { IfOk result (λ o. o ≡ Some (add_value (words_at locals.now a) (words_at locals.now b))) }
{
    made(rh_kernels::add_words(alloc, words_at(locals, a), words_at(locals, b)))
}

/// The differences of two locals, word by word.
fn subtracted(
    alloc: Global,
    locals: &[Local<'_>],
    a: u32,
    b: u32,
) -> Result<Option<Words>, OutOfMemory>
    requires { AreAlike (map length locals.now) a b }
    ensures { IfOk result (λ o. o ≡ Some (sub_value (words_at locals.now a) (words_at locals.now b))) }
{
    made(rh_kernels::sub_words(alloc, words_at(locals, a), words_at(locals, b)))
}

/// The products of two locals, word by word.
fn multiplied(
    alloc: Global,
    locals: &[Local<'_>],
    a: u32,
    b: u32,
) -> Result<Option<Words>, OutOfMemory>
    requires { AreAlike (map length locals.now) a b }
    ensures { IfOk result (λ o. o ≡ Some (mul_value (words_at locals.now a) (words_at locals.now b))) }
{
    made(rh_kernels::mul_words(alloc, words_at(locals, a), words_at(locals, b)))
}

/// The words of a local, each times `k`.
fn scaled(alloc: Global, locals: &[Local<'_>], a: u32, k: u64) -> Result<Option<Words>, OutOfMemory>
    requires { IsThere (map length locals.now) a }
    ensures { IfOk result (λ o. o ≡ Some (scale_value (words_at locals.now a) k)) }
{
    made(rh_kernels::scale(alloc, words_at(locals, a), k))
}

/// The words of a local, each shifted by `s` bits.
fn shifted(
    alloc: Global,
    locals: &[Local<'_>],
    a: u32,
    s: u32,
) -> Result<Option<Words>, OutOfMemory>
    requires there { IsThere (map length locals.now) a }
    requires shift { s ≤ MAX_SHIFT }
    ensures { IfOk result (λ o. o ≡ Some (shift_value (words_at locals.now a) s)) }
{
    made(rh_kernels::shift(alloc, words_at(locals, a), s))
}

/// `len` words of a local from the place `from` on.
fn piece(
    alloc: Global,
    locals: &[Local<'_>],
    a: u32,
    from: u32,
    len: u32,
) -> Result<Option<Words>, OutOfMemory>
    requires there { IsThere (map length locals.now) a }
    requires inside { from + len ≤ slice_index (map length locals.now) a }
    ensures { IfOk result (λ o. o ≡ Some (cut_value (words_at locals.now a) from len)) }
{
    made(rh_kernels::cut(alloc, words_at(locals, a), from, len))
}

/// The sum of the words of a local.
fn total(alloc: Global, locals: &[Local<'_>], a: u32) -> Result<Option<Words>, OutOfMemory>
    requires { IsThere (map length locals.now) a }
    ensures { IfOk result (λ o. o ≡ Some (sum_value (words_at locals.now a) ∷ [])) }
{
    one_word(alloc, rh_kernels::sum(words_at(locals, a)))
}

/// How many of the words of a local are not 0.
fn counted(alloc: Global, locals: &[Local<'_>], a: u32) -> Result<Option<Words>, OutOfMemory>
    requires { IsThere (map length locals.now) a }
    ensures { IfOk result (λ o. o ≡ Some (count_value (words_at locals.now a) ∷ [])) }
{
    one_word(alloc, rh_kernels::count(words_at(locals, a)))
}

/// The product of a matrix and a local.
fn product_of(
    alloc: Global,
    plan: &Plan,
    matrix: u32,
    v: u32,
    locals: &[Local<'_>],
) -> Result<Words, OutOfMemory>
    requires { IsSoundStep (shapes_in plan.now) (promise_lens plan.now.promises) (map length locals.now) (Product matrix v) }
    ensures { IfOk result (λ w. w ≡ product_if_held (slice_get plan.now.matrices matrix) (words_at locals.now v)) }
{
    rh_sparse::product(alloc, plan.matrices().get(matrix), words_at(locals, v))
}

/// The words of these locals, one after another.
fn joined(alloc: Global, parts: &[u64], locals: &[Local<'_>]) -> Result<Words, OutOfMemory>
    requires { AllByRecursion (λ a. a < length locals.now) parts.now }
    ensures { IfOk result (λ w. w ≡ join_value (map (words_at locals.now) parts.now)) }
{
    let mut words = Words::new(alloc);
    for part in parts {
        rh_kernels::join_part(alloc, &mut words, words_at_word(locals, *part))?;
    }
    Ok(words)
}

/// The local `m`, a line of words, one step on between the locals `l` and `r`.
fn stepped_line(
    alloc: Global,
    locals: &[Local<'_>],
    l: u32,
    m: u32,
    r: u32,
    k: u64,
    s: u32,
) -> Result<Option<Words>, OutOfMemory>
    requires left { HasWords (map length locals.now) l }
    requires line { HasWords (map length locals.now) m }
    requires right { HasWords (map length locals.now) r }
    requires shift { s ≤ MAX_SHIFT }
    ensures { IfOk result (λ o. o ≡ Some (step1_value (words_at locals.now l) (words_at locals.now m) (words_at locals.now r) k s)) }
{
    made(rh_stencil::step1(
        alloc,
        words_at(locals, l),
        words_at(locals, m),
        words_at(locals, r),
        k,
        s,
    ))
}

/// The local `m`, a grid of `cols` words a row, one step on between its four halos.
fn stepped_grid(
    alloc: Global,
    locals: &[Local<'_>],
    north: u32,
    south: u32,
    west: u32,
    east: u32,
    m: u32,
    cols: u32,
    k: u64,
    s: u32,
) -> Result<Option<Words>, OutOfMemory>
    requires halos { AreHalos (map length locals.now) north south west east m cols }
    requires shift { s ≤ MAX_SHIFT }
    ensures { IfOk result (λ o. o ≡ Some (step2_value (words_at locals.now north) (words_at locals.now south) (words_at locals.now west) (words_at locals.now east) (words_at locals.now m) cols k s)) }
{
    made(rh_stencil::step2(
        alloc,
        words_at(locals, north),
        words_at(locals, south),
        words_at(locals, west),
        words_at(locals, east),
        words_at(locals, m),
        cols,
        k,
        s,
    ))
}

/// The words of the local of this number.
fn words_at_word<'a>(locals: &'a [Local<'_>], at: u64) -> &'a [u64]
    requires { at < length locals.now }
    ensures { result.now ≡ words_at locals.now at }
{
    locals[at as usize].words()
}

/// The words of a local.
pub(crate) fn words_at<'a>(locals: &'a [Local<'_>], at: u32) -> &'a [u64]
    requires { at < length locals.now }
    ensures { result.now ≡ words_at locals.now at }
{
    locals[at as usize].words()
}

/// A `let` makes the words.
fn made(words: Result<Words, OutOfMemory>) -> Result<Option<Words>, OutOfMemory>
    ensures { IfOk result (λ o. IsOkAnd words (λ w. o ≡ Some w)) }
{
    Ok(Some(words?))
}

/// A `let` makes this one word.
fn one_word(alloc: Global, word: u64) -> Result<Option<Words>, OutOfMemory>
    ensures { IfOk result (λ o. o ≡ Some (word ∷ [])) }
{
    Ok(Some(Words::from_slice(alloc, &[word])?))
}
