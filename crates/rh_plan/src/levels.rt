//! The levels of the nodes.

ghost use Rattle.std.specs.Prelude.{◌≡◌, ◌≤◌, ◌<◌, ◌+◌, ◌^◌, ℕ, length, map, slice_index, IfOk};
ghost use Rattle.rh_plan.specs.Derived.{level_after, levels_by};
ghost use Rattle.rh_plan.specs.Grouping.{IsGrouping};

use crate::edge::Edge;
use crate::grouping::{Groups, group_of};
use rh_words::OutOfMemory;
use std::alloc::Global;

/// The level of each of n nodes, by the edges and the numbers of the edges into each node.
pub fn levels_of(
    alloc: Global,
    edges: &[Edge],
    into: &Groups,
    n: usize,
) -> Result<Vec<u32>, OutOfMemory>
    requires small { n < 2 ^ 31 }
    requires into { IsGrouping (map (λ e. e.to) edges.now) n into.now }
    ensures { IfOk result (λ levels. levels.items ≡ levels_by (map (λ e. e.from) edges.now) (map (λ e. e.to) edges.now) n) }
{
    let mut levels = Vec::with_capacity(alloc, n)?;
    for node in 0..n {
        let level = level_after(edges, &levels, group_of(into, node));
        levels.push(level)?;
    }
    Ok(levels)
}

/// One more than the greatest level of the sources of the edges of these numbers, or 0 where there is none.
fn level_after(edges: &[Edge], levels: &[u32], numbers: &[u32]) -> u32
    requires few { length levels.now < 2 ^ 31 }
    requires low { (v : ℕ) → slice_index levels.now v ≤ length levels.now }
    ensures value { result ≡ level_after (map (λ e. e.from) edges.now) levels.now numbers.now }
    ensures low { result ≤ length levels.now + 1 }
{
    let mut greatest = 0;
    for number in numbers {
        let level = level_at(levels, source_of(edges, *number)) + 1;
        greatest = greatest.max(level);
    }
    greatest
}

/// The level of a node, or 0 where there is no such node.
fn level_at(levels: &[u32], node: u32) -> u32
    ensures { result ≡ slice_index levels.now node }
{
    levels.get(node as usize).copied().unwrap_or(0)
}

/// The node from which an edge comes, or 0 where there is no such edge.
fn source_of(edges: &[Edge], number: u32) -> u32
    ensures { result ≡ slice_index (map (λ e. e.from) edges.now) number }
{
    match edges.get(number as usize) {
        Some(edge) => edge.from,
        None => 0,
    }
}
