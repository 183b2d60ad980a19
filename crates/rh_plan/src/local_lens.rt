//! How many words the locals of a task have.

ghost use Rattle.std.specs.Prelude.{◌≡◌, ◌≤◌, IfOk, OnOk, sum, slice_index};
ghost use Rattle.rh_words.specs.declared.limits.TheConstants.{MAX_PROMISE_WORDS};
ghost use Rattle.rh_rules.specs.Bodies.{AreSoundSteps, let_len, lens_after, lens_at, rows_at, shapes_of};
ghost use Rattle.rh_rules.specs.Lawful.{promise_lens, input_lens, local_lens};
ghost use Rattle.rh_plan.specs.FaultTables.{IsShortJoin};

use rh_check::Matrices;
use rh_rules::{Node, PlannedPromise, Step};
use rh_words::OutOfMemory;
use std::alloc::Global;

/// How many words each local of a task has, by its number.
pub fn local_lens(
    alloc: Global,
    matrices: &Matrices,
    promises: &[PlannedPromise],
    node: &Node,
) -> Result<Vec<usize>, OutOfMemory>
    requires { AreSoundSteps (shapes_of matrices.now) (promise_lens promises.now) (input_lens promises.now node.now) node.now.body }
    ensures { IfOk result (λ lens. lens.items ≡ local_lens (shapes_of matrices.now) promises.now node.now) }
{
    let mut lens = await_lens(alloc, promises, node.awaits.as_slice())?;
    for step in node.body.steps() {
        add_len(matrices, &mut lens, step)?;
    }
    Ok(lens)
}

/// Adds the length of the local that a step makes, where it is a `let`.
fn add_len(matrices: &Matrices, lens: &mut Vec<usize>, step: &Step) -> Result<(), OutOfMemory>
    requires { IsShortJoin lens.old.items step.now }
    ensures { OnOk result (lens.new.items ≡ lens_after (shapes_of matrices.now) lens.old.items step.now) }
{
    if let Some(len) = let_len(matrices, lens, step) {
        lens.push(len)?;
    }
    Ok(())
}

/// How many words these promises have.
fn await_lens(
    alloc: Global,
    promises: &[PlannedPromise],
    awaits: &[u32],
) -> Result<Vec<usize>, OutOfMemory>
    ensures { IfOk result (λ lens. lens.items ≡ lens_at (promise_lens promises.now) awaits.now) }
{
    let mut lens = Vec::with_capacity(alloc, awaits.len())?;
    for promise in awaits {
        lens.push(promise_len(promises, *promise))?;
    }
    Ok(lens)
}

/// How many words a promise has.
fn promise_len(promises: &[PlannedPromise], promise: u32) -> usize
    ensures { result ≡ slice_index (promise_lens promises.now) promise }
{
    match promises.get(promise as usize) {
        Some(promise) => promise.len as usize,
        None => 0,
    }
}

/// How many words the result of a `let` has.
fn let_len(matrices: &Matrices, lens: &[usize], step: &Step) -> Option<usize>
    requires { IsShortJoin lens.now step.now }
    ensures { result ≡ let_len (shapes_of matrices.now) lens.now step.now }
{
    match step {
        Step::Lit { words } => Some(words.as_slice().len()),
        Step::Gen { n, .. } => Some(*n as usize),
        Step::Add { a, .. } | Step::Sub { a, .. } | Step::Mul { a, .. } => Some(len_at(
            lens,
            u64::from(*a),
        )),
        Step::Scale { a, .. } | Step::Shift { a, .. } => Some(len_at(lens, u64::from(*a))),
        Step::Cut { len, .. } => Some(*len as usize),
        Step::Join { parts } => Some(joined_len(lens, parts.as_slice())),
        Step::Sum { .. } | Step::Count { .. } => Some(1),
        Step::Product { matrix, .. } => Some(product_len(matrices, *matrix)),
        Step::Stencil1 { m, .. } | Step::Stencil2 { m, .. } => Some(len_at(lens, u64::from(*m))),
        Step::Put { .. } | Step::DropAwait { .. } => None,
    }
}

/// How many words a product with a matrix has.
fn product_len(matrices: &Matrices, matrix: u32) -> usize
    ensures { result ≡ rows_at (shapes_of matrices.now) matrix }
{
    let rows = matrices.rows_at(matrix);
    rows as usize
}

/// How many words a local has.
fn len_at(lens: &[usize], local: u64) -> usize
    ensures { result ≡ slice_index lens.now local }
{
    match lens.get(local as usize) {
        Some(len) => *len,
        None => 0,
    }
}

/// How many words these locals have together.
fn joined_len(lens: &[usize], parts: &[u64]) -> usize
    requires { sum (lens_at lens.now parts.now) ≤ MAX_PROMISE_WORDS }
    ensures { result ≡ sum (lens_at lens.now parts.now) }
{
    let mut len = 0;
    for part in parts {
        len += len_at(lens, *part);
    }
    len
}
