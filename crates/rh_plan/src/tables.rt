//! What a plan keeps in tables, beside its lists.

ghost use Rattle.std.specs.Prelude.{◌≡◌, ◌≤◌, ◌<◌, ◌^◌, length, map, IfOk};
ghost use Rattle.rh_words.specs.declared.limits.TheConstants.{MAX_NODES};
ghost use Rattle.std.specs.List.{AllByRecursion};
ghost use Rattle.rh_plan.specs.Grouping.{IsGrouping};
ghost use Rattle.rh_plan.specs.Lawful.{IsForward};
ghost use Rattle.rh_plan.specs.Plans.{edges_from};
ghost use Rattle.rh_plan.specs.Tables.{AreTables};

use crate::edge::Edge;
use crate::edges::{edges_of, sources_of, targets_of};
use crate::grouping::{Groups, grouped};
use crate::levels::levels_of;
use crate::references::references_of;
use rh_rules::{Node, PlannedPromise};
use rh_words::OutOfMemory;
use std::alloc::Global;

/// The references of each promise, the level of each node, and the edges into and out of each node.
#[derive(Drop)]
pub struct Tables {
    pub references: Vec<u64>,
    pub levels: Vec<u32>,
    pub into: Groups,
    pub out_of: Groups,
}

/// The edges of a plan with these promises and nodes, and its tables.
pub fn edges_and_tables(
    alloc: Global,
    promises: &[PlannedPromise],
    nodes: &[Node],
) -> Result<(Vec<Edge>, Tables), OutOfMemory>
    requires small { length nodes.now ≤ MAX_NODES }
    requires few { length (edges_from promises.now 0 nodes.now) < 2 ^ 32 }
    requires forward { AllByRecursion (IsForward (length nodes.now)) (edges_from promises.now 0 nodes.now) }
    ensures edges { IfOk result (λ made. made.0.items ≡ edges_from promises.now 0 nodes.now) }
    ensures tables { IfOk result (λ made. AreTables promises.now (edges_from promises.now 0 nodes.now) (length nodes.now) made.1) }
{
    let edges = edges_of(alloc, promises, nodes)?;
    let tables = tables_of(alloc, promises, &edges, nodes.len())?;
    Ok((edges, tables))
}

/// The tables of a plan with these promises and edges, and with n nodes.
fn tables_of(
    alloc: Global,
    promises: &[PlannedPromise],
    edges: &[Edge],
    n: usize,
) -> Result<Tables, OutOfMemory>
    requires small { n ≤ MAX_NODES }
    requires few { length edges.now < 2 ^ 32 }
    requires forward { AllByRecursion (IsForward n) edges.now }
    ensures { IfOk result (AreTables promises.now edges.now n) }
{
    let references = references_of(alloc, promises, edges)?;
    let into = by_target(alloc, edges, n)?;
    let out_of = by_source(alloc, edges, n)?;
    let levels = levels_of(alloc, edges, &into, n)?;
    Ok(Tables {
        references,
        levels,
        into,
        out_of,
    })
}

/// The numbers of the edges, grouped by the nodes to which they go.
fn by_target(alloc: Global, edges: &[Edge], n: usize) -> Result<Groups, OutOfMemory>
    requires small { n ≤ MAX_NODES }
    requires few { length edges.now < 2 ^ 32 }
    requires forward { AllByRecursion (IsForward n) edges.now }
    ensures { IfOk result (IsGrouping (map (λ e. e.to) edges.now) n) }
{
    let targets = targets_of(alloc, edges)?;
    grouped(alloc, &targets, n)
}

/// The numbers of the edges, grouped by the nodes from which they come.
fn by_source(alloc: Global, edges: &[Edge], n: usize) -> Result<Groups, OutOfMemory>
    requires small { n ≤ MAX_NODES }
    requires few { length edges.now < 2 ^ 32 }
    requires forward { AllByRecursion (IsForward n) edges.now }
    ensures { IfOk result (IsGrouping (map (λ e. e.from) edges.now) n) }
{
    let sources = sources_of(alloc, edges)?;
    grouped(alloc, &sources, n)
}
