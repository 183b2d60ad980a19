//! The edges of a plan, made from its nodes and promises.

ghost use Rattle.std.specs.Prelude.{◌≡◌, ◌++◌, ◌≤◌, length, map, option_to_list, IfOk, OnOk};
ghost use Rattle.rh_words.specs.declared.limits.TheConstants.{MAX_NODES};
ghost use Rattle.rh_rules.specs.Lawful.{putter_of};
ghost use Rattle.rh_plan.specs.Plans.{await_edge, order_edge, start_edges, edges_into, edges_from};

use crate::edge::Edge;
use rh_rules::{Kind, Node, PlannedPromise};
use rh_words::OutOfMemory;
use std::alloc::Global;

/// The edges into the nodes: node by node, and in the order of each node's in-edges.
pub fn edges_of(
    alloc: Global,
    promises: &[PlannedPromise],
    nodes: &[Node],
) -> Result<Vec<Edge>, OutOfMemory>
    requires { length nodes.now ≤ MAX_NODES }
    ensures { IfOk result (λ edges. edges.items ≡ edges_from promises.now 0 nodes.now) }
{
    let mut edges = Vec::with_capacity(alloc, edge_count(nodes))?;
    for (to, node) in nodes.iter().enumerate() {
        push_edges(&mut edges, promises, to as u32, node)?;
    }
    Ok(edges)
}

/// How many edges to make room for.
fn edge_count(nodes: &[Node]) -> usize {
    let mut count: usize = 0;
    for node in nodes {
        count = count.saturating_add(node.awaits.as_slice().len());
        count = count.saturating_add(node.members.as_slice().len());
        count = count.saturating_add(1);
    }
    count
}

/// Adds the edges into the node `to`.
fn push_edges(
    edges: &mut Vec<Edge>,
    promises: &[PlannedPromise],
    to: u32,
    node: &Node,
) -> Result<(), OutOfMemory>
    ensures { OnOk result (edges.new.items ≡ edges.old.items ++ edges_into promises.now to node.now) }
{
    match node.kind {
        Kind::Scope => push_orders(edges, to, node.members.as_slice()),
        Kind::Task | Kind::Group => push_start_edges(edges, promises, to, node),
    }
}

/// Adds the edges into the node `to`, which is a task or a group.
#[tactic(auto, using(std::proofs::Common::append_assoc))]
fn push_start_edges(
    edges: &mut Vec<Edge>,
    promises: &[PlannedPromise],
    to: u32,
    node: &Node,
) -> Result<(), OutOfMemory>
    ensures { OnOk result (edges.new.items ≡ edges.old.items ++ start_edges promises.now to node.now) }
{
    push_awaits(edges, promises, to, node.awaits.as_slice())?;
    push_group(edges, to, node.group)
}

/// Adds the edge from the innermost group in whose lines the node `to` stands, where there is one.
fn push_group(edges: &mut Vec<Edge>, to: u32, group: Option<u32>) -> Result<(), OutOfMemory>
    ensures { OnOk result (edges.new.items ≡ edges.old.items ++ map (order_edge to) (option_to_list group)) }
{
    match group {
        Some(group) => push_orders(edges, to, &[group]),
        None => Ok(()),
    }
}

/// Adds the edges on which the node `to` takes the promises that it awaits.
fn push_awaits(
    edges: &mut Vec<Edge>,
    promises: &[PlannedPromise],
    to: u32,
    awaits: &[u32],
) -> Result<(), OutOfMemory>
    ensures { OnOk result (edges.new.items ≡ edges.old.items ++ map (await_edge promises.now to) awaits.now) }
{
    for promise in awaits {
        edges.push(Edge {
            from: putter_of(promises, *promise).unwrap_or(0),
            to,
            promise: Some(*promise),
        })?;
    }
    Ok(())
}

/// Adds the edges on which the node `to` learns how these nodes ended.
fn push_orders(edges: &mut Vec<Edge>, to: u32, sources: &[u32]) -> Result<(), OutOfMemory>
    ensures { OnOk result (edges.new.items ≡ edges.old.items ++ map (order_edge to) sources.now) }
{
    for from in sources {
        edges.push(Edge {
            from: *from,
            to,
            promise: None,
        })?;
    }
    Ok(())
}

/// The node that puts the promise of a number, where there is one.
fn putter_of(promises: &[PlannedPromise], promise: u32) -> Option<u32>
    ensures { result ≡ putter_of promises.now promise }
{
    match promises.get(promise as usize) {
        Some(promise) => promise.putter,
        None => None,
    }
}

/// The nodes from which the edges come, by the edges' numbers.
pub fn sources_of(alloc: Global, edges: &[Edge]) -> Result<Vec<u32>, OutOfMemory>
    ensures { IfOk result (λ sources. sources.items ≡ map (λ e. e.from) edges.now) }
{
    Ok(edges.iter().map(|edge| edge.from).collect(alloc)?)
}

/// The nodes to which the edges go, by the edges' numbers.
pub fn targets_of(alloc: Global, edges: &[Edge]) -> Result<Vec<u32>, OutOfMemory>
    ensures { IfOk result (λ targets. targets.items ≡ map (λ e. e.to) edges.now) }
{
    Ok(edges.iter().map(|edge| edge.to).collect(alloc)?)
}
