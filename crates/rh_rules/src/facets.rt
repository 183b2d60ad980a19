//! What the forms of statements make, use and need. Each call is one table over the forms.

ghost use Rattle.std.specs.Prelude.{◌≡◌, ◌≤◌, ◌+◌, ◌++◌, ◌∷◌, Some, length, option_to_list, sum, slice_index, IfOk, OnOk, true};
ghost use Rattle.rh_words.specs.declared.limits.TheConstants.{MAX_PARTS, MAX_PROMISE_WORDS};
ghost use Rattle.rh_rules.specs.declared.body.Step.TheVariants as steps;
ghost use Rattle.rh_rules.specs.Facets.{facets, are_sides};
ghost use Rattle.rh_rules.specs.Limits.{IsWithinLimits};

use crate::body::Step;
use crate::shape::Shape;
use rh_task_text::Statement;
use rh_words::{Name, OutOfMemory, Words};
use std::alloc::Global;

/// The name of the local that the statement makes.
#[tactic(auto, unfolding(crate::specs::Facets::facets))]
pub fn made(statement: &Statement) -> Option<Name>
    ensures { result ≡ (facets statement.now).made }
{
    match statement {
        Statement::LetLit { x, .. }
        | Statement::LetGen { x, .. }
        | Statement::LetAdd { x, .. }
        | Statement::LetSub { x, .. }
        | Statement::LetMul { x, .. }
        | Statement::LetScale { x, .. }
        | Statement::LetShift { x, .. }
        | Statement::LetCut { x, .. }
        | Statement::LetJoin { x, .. }
        | Statement::LetSum { x, .. }
        | Statement::LetCount { x, .. }
        | Statement::LetStencil1 { x, .. }
        | Statement::LetStencil2 { x, .. }
        | Statement::LetProduct { x, .. } => Some(*x),
        _ => None,
    }
}

/// Adds the names of the locals that the statement uses.
#[tactic(auto, unfolding(crate::specs::Facets::facets))]
pub fn list_used(statement: &Statement, names: &mut Vec<Name>) -> Result<(), OutOfMemory>
    ensures { OnOk result (names.new.items ≡ names.old.items ++ (facets statement.now).used) }
{
    match statement {
        Statement::LetAdd { a, b, .. }
        | Statement::LetSub { a, b, .. }
        | Statement::LetMul { a, b, .. } => add_names(&[*a, *b], names),
        Statement::LetScale { a, .. }
        | Statement::LetShift { a, .. }
        | Statement::LetCut { a, .. }
        | Statement::LetSum { a, .. }
        | Statement::LetCount { a, .. }
        | Statement::LetProduct { v: a, .. } => add_names(&[*a], names),
        Statement::LetJoin { parts, .. } => add_names(parts.as_slice(), names),
        Statement::LetStencil1 { l, m, r, .. } => add_names(&[*l, *m, *r], names),
        Statement::LetStencil2 {
            north,
            south,
            west,
            east,
            m,
            ..
        } => add_names(&[*north, *south, *west, *east, *m], names),
        Statement::Put { local, when, .. } => add_put(local, when, names),
        _ => Ok(()),
    }
}

fn add_names(used: &[Name], names: &mut Vec<Name>) -> Result<(), OutOfMemory>
    ensures { OnOk result (names.new.items ≡ names.old.items ++ used.now) }
{
    Ok(names.extend_from_slice(used)?)
}

/// Adds the local that is put, and the one that the put asks where it has a condition.
fn add_put(local: &Name, when: &Option<Name>, names: &mut Vec<Name>) -> Result<(), OutOfMemory>
    ensures { OnOk result (names.new.items ≡ names.old.items ++ local.now ∷ option_to_list when.now) }
{
    match when {
        Some(when) => add_names(&[*local, *when], names),
        None => add_names(&[*local], names),
    }
}

/// The name of the matrix that the statement names.
#[tactic(auto, unfolding(crate::specs::Facets::facets))]
pub fn matrix_named(statement: &Statement) -> Option<Name>
    ensures { result ≡ (facets statement.now).matrix }
{
    match statement {
        Statement::LetProduct { a, .. } | Statement::CheckProduct { a, .. } => Some(*a),
        _ => None,
    }
}

/// Whether the locals that the statement uses fit it, by their lengths and the shape of the matrix that it names, where it
/// names one.
#[tactic(auto, unfolding(crate::specs::Facets::facets))]
pub fn fits(statement: &Statement, shape: Shape, lens: &[u32]) -> bool
    requires { length lens.now ≡ length (facets statement.now).used }
    ensures { result ≡ (facets statement.now).fits shape lens.now }
{
    match statement {
        Statement::LetAdd { .. } | Statement::LetSub { .. } | Statement::LetMul { .. } => {
            lens[0] == lens[1]
        }
        Statement::LetCut { from, len, .. } => {
            let all = u64::from(lens[0]);
            *len <= all && *from <= all - *len
        }
        Statement::LetStencil2 { cols, .. } => are_sides(*cols, lens),
        Statement::LetProduct { .. } => lens[0] == shape.cols,
        Statement::Put { .. } => lens[1..].iter().all(|n| *n == 1),
        _ => true,
    }
}

/// Whether the first four are the sides of the fifth, a grid in rows of `cols` words.
pub(crate) fn are_sides(cols: u64, lens: &[u32]) -> bool
    requires { length lens.now ≡ 5 }
    ensures { result ≡ are_sides cols lens.now }
{
    u64::from(lens[0]) == cols
        && u64::from(lens[1]) == cols
        && lens[2] == lens[3]
        && u128::from(lens[2]) * u128::from(cols) == u128::from(lens[4])
}

/// How many words the local has that the statement makes, by the lengths of those that it uses and the shape of the matrix that
/// it names.
#[tactic(auto, unfolding(crate::specs::Facets::facets))]
pub fn made_len(statement: &Statement, shape: Shape, lens: &[u32]) -> u64
    requires used { length lens.now ≡ length (facets statement.now).used }
    requires within { IsWithinLimits statement.now }
    ensures { result ≡ (facets statement.now).len shape lens.now }
{
    match statement {
        Statement::LetLit { words, .. } => words.as_slice().len() as u64,
        Statement::LetGen { n, .. } => *n,
        Statement::LetAdd { .. }
        | Statement::LetSub { .. }
        | Statement::LetMul { .. }
        | Statement::LetScale { .. }
        | Statement::LetShift { .. } => u64::from(lens[0]),
        Statement::LetCut { len, .. } => *len,
        Statement::LetJoin { .. } => sum_of(lens),
        Statement::LetSum { .. } | Statement::LetCount { .. } => 1,
        Statement::LetStencil1 { .. } => u64::from(lens[1]),
        Statement::LetStencil2 { .. } => u64::from(lens[4]),
        Statement::LetProduct { .. } => u64::from(shape.rows),
        _ => 0,
    }
}

fn sum_of(lens: &[u32]) -> u64
    requires { length lens.now ≤ MAX_PARTS }
    ensures { result ≡ sum lens.now }
{
    let mut total = 0;
    for len in lens {
        total += u64::from(*len);
    }
    total
}

/// The planned step of a `let`, by the numbers of the matrix and the locals that it uses. The shape and the lengths are theirs.
#[tactic(auto, unfolding(crate::specs::Facets::facets))]
pub fn step_of(
    alloc: Global,
    statement: &Statement,
    matrix: u32,
    numbers: &[u32],
    shape: Shape,
    lens: &[u32],
) -> Result<Option<Step>, OutOfMemory>
    requires used { length numbers.now ≡ length (facets statement.now).used }
    requires lens { length lens.now ≡ length (facets statement.now).used }
    requires within { IsWithinLimits statement.now }
    requires fitting { (facets statement.now).fits shape lens.now ≡ true }
    requires short { (facets statement.now).len shape lens.now ≤ MAX_PROMISE_WORDS }
    ensures { IfOk result (λ step. step ≡ (facets statement.now).step matrix numbers.now) }
{
    let step = match statement {
        Statement::LetLit { words, .. } => return literal_step(alloc, words),
        Statement::LetGen {
            n,
            start,
            limit,
            ..
        } => Step::Gen {
            n: *n as u32,
            start: *start,
            limit: *limit,
        },
        Statement::LetAdd { .. } => Step::Add {
            a: numbers[0],
            b: numbers[1],
        },
        Statement::LetSub { .. } => Step::Sub {
            a: numbers[0],
            b: numbers[1],
        },
        Statement::LetMul { .. } => Step::Mul {
            a: numbers[0],
            b: numbers[1],
        },
        Statement::LetScale { k, .. } => Step::Scale {
            a: numbers[0],
            k: *k,
        },
        Statement::LetShift { s, .. } => Step::Shift {
            a: numbers[0],
            s: *s as u32,
        },
        Statement::LetCut { from, len, .. } => cut_step(numbers[0], *from, *len, lens[0]),
        Statement::LetJoin { .. } => return join_step(alloc, numbers),
        Statement::LetSum { .. } => Step::Sum { a: numbers[0] },
        Statement::LetCount { .. } => Step::Count { a: numbers[0] },
        Statement::LetStencil1 { k, s, .. } => stencil1_step(numbers, *k, *s as u32),
        Statement::LetStencil2 { cols, k, s, .. } => {
            stencil2_step(numbers, *cols as u32, *k, *s as u32)
        }
        Statement::LetProduct { .. } => Step::Product {
            matrix,
            v: numbers[0],
        },
        _ => return Ok(None),
    };
    Ok(Some(step))
}

/// The step of these words. They are copied.
fn literal_step(alloc: Global, words: &Words) -> Result<Option<Step>, OutOfMemory>
    ensures { IfOk result (λ step. step ≡ Some (steps.Lit words.now)) }
{
    Ok(Some(Step::Lit {
        words: words.copy(alloc)?,
    }))
}

/// The step that joins these locals.
fn join_step(alloc: Global, numbers: &[u32]) -> Result<Option<Step>, OutOfMemory>
    ensures { IfOk result (λ step. step ≡ Some (steps.Join numbers.now)) }
{
    Ok(Some(Step::Join {
        parts: words_of(alloc, numbers)?,
    }))
}

fn cut_step(a: u32, from: u64, len: u64, all: u32) -> Step
    requires { from + len ≤ all }
    ensures { result ≡ Step.Cut a from len }
{
    Step::Cut {
        a,
        from: from as u32,
        len: len as u32,
    }
}

fn stencil1_step(numbers: &[u32], k: u64, s: u32) -> Step
    requires { length numbers.now ≡ 3 }
    ensures { result ≡ Step.Stencil1 (slice_index numbers.now 0) (slice_index numbers.now 1) (slice_index numbers.now 2) k s }
{
    Step::Stencil1 {
        l: numbers[0],
        m: numbers[1],
        r: numbers[2],
        k,
        s,
    }
}

fn stencil2_step(numbers: &[u32], cols: u32, k: u64, s: u32) -> Step
    requires { length numbers.now ≡ 5 }
    ensures { result ≡ Step.Stencil2 (slice_index numbers.now 0) (slice_index numbers.now 1) (slice_index numbers.now 2) (slice_index numbers.now 3) (slice_index numbers.now 4) cols k s }
{
    Step::Stencil2 {
        north: numbers[0],
        south: numbers[1],
        west: numbers[2],
        east: numbers[3],
        m: numbers[4],
        cols,
        k,
        s,
    }
}

fn words_of(alloc: Global, numbers: &[u32]) -> Result<Words, OutOfMemory>
    ensures { IfOk result (λ words. words ≡ numbers.now) }
{
    let mut words = Words::new(alloc);
    for number in numbers {
        words.push(u64::from(*number))?;
    }
    Ok(words)
}
