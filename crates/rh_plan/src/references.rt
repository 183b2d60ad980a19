//! How many references each promise has.

ghost use Rattle.std.specs.Prelude.{◌≡◌, ◌≤◌, ◌<◌, ◌+◌, ◌-◌, ◌^◌, ℕ, length, slice_get, slice_index, Some, IfOk};
ghost use Rattle.std.specs.Prelude.{if◌then◌else◌};
ghost use Rattle.std.specs.List.{count_by};
ghost use Rattle.rh_rules.specs.declared.node.PlannedPromise.{PlannedPromise as Promise};
ghost use Rattle.rh_plan.specs.Derived.{is_number, is_shown};

use crate::edge::Edge;
use rh_rules::PlannedPromise;
use rh_words::OutOfMemory;
use std::alloc::Global;

/// The references of each promise: one pass over the promises, and one over the edges.
pub fn references_of(
    alloc: Global,
    promises: &[PlannedPromise],
    edges: &[Edge],
) -> Result<Vec<u64>, OutOfMemory>
    requires { length edges.now < 2 ^ 32 }
    ensures len { IfOk result (λ counts. length counts.items ≡ length promises.now) }
    ensures value { IfOk result (λ counts. (q : ℕ) (p : Promise) → slice_get promises.now q ≡ Some p → slice_index counts.items q ≡ 1 + count_by (λ e. is_number q e.promise) edges.now + (if is_shown p then 1 else 0)) }
{
    let mut counts = own_references(alloc, promises)?;
    for edge in edges {
        count(&mut counts, edge);
    }
    Ok(counts)
}

/// Whether the report tells the words of the promise.
pub fn is_shown(promise: &PlannedPromise) -> bool
    ensures { result ≡ is_shown promise.now }
{
    !(promise.temp || promise.scope)
}

/// The references that the putters and the report have.
fn own_references(alloc: Global, promises: &[PlannedPromise]) -> Result<Vec<u64>, OutOfMemory>
    ensures value { IfOk result (λ counts. (q : ℕ) (p : Promise) → slice_get promises.now q ≡ Some p → slice_index counts.items q ≡ 1 + (if is_shown p then 1 else 0)) }
    ensures low { IfOk result (λ counts. (q : ℕ) → slice_index counts.items q ≤ 2) }
    ensures len { IfOk result (λ counts. length counts.items ≡ length promises.now) }
{
    let mut counts = Vec::with_capacity(alloc, promises.len())?;
    for promise in promises {
        counts.push(own_count(promise))?;
    }
    Ok(counts)
}

/// The references that the putter of a promise and the report have.
fn own_count(promise: &PlannedPromise) -> u64
    ensures value { result ≡ 1 + (if is_shown promise.now then 1 else 0) }
    ensures low { result ≤ 2 }
{
    if is_shown(promise) { 2 } else { 1 }
}

/// Counts the edge at the promise that it carries.
fn count(counts: &mut [u64], edge: &Edge)
    requires { (q : ℕ) → slice_index counts.old q < 2 ^ 64 - 1 }
    ensures value { (q : ℕ) → q < length counts.old → slice_index counts.new q ≡ slice_index counts.old q + (if is_number q edge.now.promise then 1 else 0) }
    ensures bound { (q : ℕ) → slice_index counts.new q ≤ slice_index counts.old q + 1 }
{
    let Some(promise) = edge.promise else {
        return;
    };
    let at = promise as usize;
    if at < counts.len() {
        counts[at] += 1;
    }
}
