//! The plan of a small text, worked out by hand.

use rh_check::{NoChecks, Spec};
use rh_plan::{Cause, Plan, plan};
use rh_rules::{Kind, Scheme};
use rh_task_text::read_program;
use std::alloc::Global;

/// A node as a row: its name, what it awaits and puts, how many steps it has, its level, what it needs, and the edges into and out of it.
type NodeRow<'a> = (
    &'a [u8],
    &'a [u32],
    &'a [u32],
    usize,
    u32,
    u64,
    &'a [u32],
    &'a [u32],
);

/// A promise as a row: its name, its length, its putter, whether it is `temp`, and its references.
type PromiseRow<'a> = (&'a [u8], u32, Option<u32>, bool, u64);

/// Three tasks: a puts x and y, b awaits x and puts z, c awaits z and x and drops x.
const TEXT: &[u8] = b"rhc 1
promise x 2
promise y 1 temp
promise z 2
promise spare 4
task a plain
let v lit 7 8
let s sum v
put x v
put y s when s
end
task b plain await x
let w mul x x
put z w
end
task c plain await z x
drop x
end
";

pub fn planned(alloc: Global, text: &[u8]) -> Option<Plan> {
    if text.len() >= 1_000_000 {
        return None;
    }
    let text = read_program(alloc, text).ok()?;
    plan(alloc, &text, &NoChecks).ok()
}

fn is_node(plan: &Plan, node: u32, row: &NodeRow) -> bool {
    let (name, awaits, puts, steps, level, need, into, out_of) = row;
    node < plan.nodes()
        && plan.kind(node) == Kind::Task
        && plan.name(node).bytes() == *name
        && plan.awaits(node) == *awaits
        && plan.puts(node) == *puts
        && plan.body(node).steps().len() == *steps
        && is_linked(plan, node, *level, *need, into, out_of)
}

fn is_linked(plan: &Plan, node: u32, level: u32, need: u64, into: &[u32], out_of: &[u32]) -> bool {
    node < plan.nodes()
        && plan.level(node) == level
        && plan.need(node) == need
        && plan.attempts(node) == 1
        && plan.edges_in(node) == into
        && plan.edges_out(node) == out_of
}

fn is_promise(plan: &Plan, promise: u32, row: &PromiseRow) -> bool {
    let (name, len, putter, temp, references) = row;
    promise < plan.promises()
        && plan.promise_name(promise).bytes() == *name
        && plan.promise_len(promise) == *len
        && plan.putter(promise) == *putter
        && plan.is_temp(promise) == *temp
        && plan.is_shown(promise) != *temp
        && plan.references(promise) == *references
}

fn is_edge(plan: &Plan, at: u32, from: u32, to: u32, promise: u32) -> bool {
    if at >= plan.edges() {
        return false;
    }
    let edge = plan.edge(at);
    edge.from == from && edge.to == to && edge.promise == Some(promise)
}

const NODES: &[NodeRow<'static>] = &[
    (b"a", &[], &[0, 1], 4, 0, 9, &[], &[0, 2]),
    (b"b", &[0], &[2], 2, 1, 8, &[0], &[1]),
    (b"c", &[2, 0], &[], 1, 2, 7, &[1, 2], &[]),
];

fn has_nodes(plan: &Plan) -> bool {
    let mut same = plan.nodes() == 3;
    for (at, row) in NODES.iter().enumerate() {
        same = same && is_node(plan, at as u32, row);
    }
    same
}

const PROMISES: &[PromiseRow<'static>] = &[
    (b"x", 2, Some(0), false, 4),
    (b"y", 1, Some(0), true, 1),
    (b"z", 2, Some(1), false, 3),
    (b"spare", 4, None, false, 2),
];

fn has_promises(plan: &Plan) -> bool {
    let mut same = plan.promises() == 4;
    for (at, row) in PROMISES.iter().enumerate() {
        same = same && is_promise(plan, at as u32, row);
    }
    same
}

fn has_edges(plan: &Plan) -> bool {
    plan.edges() == 3
        && is_edge(plan, 0, 0, 1, 0)
        && is_edge(plan, 1, 1, 2, 2)
        && is_edge(plan, 2, 0, 2, 0)
}

/// The last task awaits promises 2 and 0, in this order.
fn blames_the_first_absent(plan: &Plan) -> bool {
    plan.nodes() == 3
        && plan.blame(2, true, &[true, true]).is_none()
        && plan.blame(2, true, &[false, false]) == Some(Cause::Promise(2))
        && plan.blame(2, true, &[true, false]) == Some(Cause::Promise(0))
}

/// Whether the three tasks are planned so.
fn are_planned(alloc: Global) -> bool {
    match planned(alloc, TEXT) {
        Some(plan) => {
            has_nodes(&plan)
                && has_edges(&plan)
                && has_promises(&plan)
                && blames_the_first_absent(&plan)
        }
        None => false,
    }
}

#[test]
fn three_tasks_have_this_plan(rt: HostRuntime) {
    assert!(rt; are_planned(rt.alloc()));
}

/// Whether the node is replayed up to 3 times and has one check, that promise 1 sums to 30.
fn is_replayed(plan: &Plan, node: u32) -> bool {
    if node >= plan.nodes() {
        return false;
    }
    let [check] = plan.checks_of(node) else {
        return false;
    };
    let (Scheme::Replay { limit: 3 }, Spec::Total { sum: 30 }) = (plan.scheme(node), check.spec)
    else {
        return false;
    };
    check.promise == 1 && plan.attempts(node) == 3 && plan.need(node) == 10
}

/// The task a is replicated, and b is replayed.
const REPLAYED: &[u8] = b"rhc 1
promise x 2
promise y 2
task a replicate
let v lit 10 20
put x v
end
task b replay 3 await x
put y x
check total y 30
end
";

fn has_attempts(plan: &Plan) -> bool {
    plan.nodes() == 2 && is_replayed(plan, 1) && plan.attempts(0) == 3
}

/// Whether the replayed task is planned so.
fn is_replay_planned(alloc: Global) -> bool {
    match planned(alloc, REPLAYED) {
        Some(plan) => has_attempts(&plan),
        None => false,
    }
}

#[test]
fn a_replayed_task_has_its_attempts_and_its_check(rt: HostRuntime) {
    assert!(rt; is_replay_planned(rt.alloc()));
}
