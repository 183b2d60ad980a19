//! The plans of texts with scopes, groups and matrices, worked out by hand.

use crate::plan::planned;
use rh_check::Spec;
use rh_plan::{Cause, Plan};
use rh_rules::{Kind, PlannedCheck, Scheme, Step};
use rh_sparse::{Cell, Matrix};
use std::alloc::Global;

/// A node as a row: its name and kind, what it awaits, its members, what it puts, and its group.
type NodeRow<'a> = (&'a [u8], Kind, &'a [u32], &'a [u32], &'a [u32], Option<u32>);

/// How a node is linked: its level, what it needs, and the edges into and out of it.
type LinkRow<'a> = (u32, u64, &'a [u32], &'a [u32]);

/// A promise as a row: its name, its length, its putter, whether it is shown, and its references.
type PromiseRow<'a> = (&'a [u8], u32, Option<u32>, bool, u64);

/// An edge as a row: the nodes that it goes from and to, and its promise.
type EdgeRow = (u32, u32, Option<u32>);

/// A scope with three tasks, and a group with one.
const SCOPE_AND_GROUP: &[u8] = b"rhc 1
promise x 1
promise y 1
promise z 3
promise g 1
finish f
task a plain
end
task b plain
let v lit 3
put x v
end
task c plain await x
put y x
end
end
task d plain await f
put z f
end
group h await x
task e plain
let v lit 1
put g v
end
end
";

/// A scope in a group in a scope, with a group in the inner scope.
const NESTED: &[u8] = b"rhc 1
promise load 2
promise alarm 1
promise answer 1
finish all
task measure plain
let v lit 3 4
put load v
let w lit 1
put alarm w
end
group react await alarm
finish inner
task answers plain await load
let s sum load
put answer s
end
group deep await load
task sinks plain
end
end
end
task after plain await inner
end
end
end
";

fn is_node(plan: &Plan, node: u32, row: &NodeRow) -> bool {
    let (name, kind, awaits, members, puts, group) = row;
    node < plan.nodes()
        && plan.name(node).bytes() == *name
        && plan.kind(node) == *kind
        && plan.awaits(node) == *awaits
        && plan.members(node) == *members
        && plan.puts(node) == *puts
        && plan.group_of(node) == *group
}

fn is_linked(plan: &Plan, node: u32, row: &LinkRow) -> bool {
    let (level, need, into, out_of) = row;
    node < plan.nodes()
        && plan.level(node) == *level
        && plan.need(node) == *need
        && plan.edges_in(node) == *into
        && plan.edges_out(node) == *out_of
}

fn is_promise(plan: &Plan, promise: u32, row: &PromiseRow) -> bool {
    let (name, len, putter, shown, references) = row;
    promise < plan.promises()
        && plan.promise_name(promise).bytes() == *name
        && plan.promise_len(promise) == *len
        && plan.putter(promise) == *putter
        && plan.is_shown(promise) == *shown
        && plan.references(promise) == *references
}

fn are_nodes(plan: &Plan, rows: &[NodeRow]) -> bool {
    let mut same = plan.nodes() as usize == rows.len();
    for at in 0..plan.nodes() {
        let Some(row) = rows.get(at as usize) else {
            return false;
        };
        same = same && is_node(plan, at, row);
    }
    same
}

fn are_linked(plan: &Plan, rows: &[LinkRow]) -> bool {
    let mut same = plan.nodes() as usize == rows.len();
    for at in 0..plan.nodes() {
        let Some(row) = rows.get(at as usize) else {
            return false;
        };
        same = same && is_linked(plan, at, row);
    }
    same
}

fn are_promises(plan: &Plan, rows: &[PromiseRow]) -> bool {
    let mut same = plan.promises() as usize == rows.len();
    for at in 0..plan.promises() {
        let Some(row) = rows.get(at as usize) else {
            return false;
        };
        same = same && is_promise(plan, at, row);
    }
    same
}

fn are_edges(plan: &Plan, rows: &[EdgeRow]) -> bool {
    let mut same = plan.edges() as usize == rows.len();
    for at in 0..plan.edges() {
        let Some(row) = rows.get(at as usize) else {
            return false;
        };
        same = same && is_edge(plan, at, row);
    }
    same
}

fn is_edge(plan: &Plan, at: u32, row: &EdgeRow) -> bool {
    if at >= plan.edges() {
        return false;
    }
    let edge = plan.edge(at);
    (edge.from, edge.to, edge.promise) == *row
}

const SCOPE_AND_GROUP_NODES: &[NodeRow<'static>] = &[
    (b"a", Kind::Task, &[], &[], &[], None),
    (b"b", Kind::Task, &[], &[], &[0], None),
    (b"c", Kind::Task, &[0], &[], &[1], None),
    (b"f", Kind::Scope, &[], &[0, 1, 2], &[4], None),
    (b"d", Kind::Task, &[4], &[], &[2], None),
    (b"h", Kind::Group, &[0], &[], &[], None),
    (b"e", Kind::Task, &[], &[], &[3], Some(5)),
];

const SCOPE_AND_GROUP_EDGES: &[EdgeRow] = &[
    (1, 2, Some(0)),
    (0, 3, None),
    (1, 3, None),
    (2, 3, None),
    (3, 4, Some(4)),
    (1, 5, Some(0)),
    (5, 6, None),
];

const SCOPE_AND_GROUP_LINKS: &[LinkRow<'static>] = &[
    (0, 3, &[], &[1]),
    (0, 6, &[], &[0, 2, 5]),
    (1, 8, &[0], &[3]),
    (2, 5, &[1, 2, 3], &[4]),
    (3, 8, &[4], &[]),
    (1, 4, &[5], &[6]),
    (2, 6, &[6], &[]),
];

/// The scope's own promise stands behind the four that are declared above its line.
const SCOPE_AND_GROUP_PROMISES: &[PromiseRow<'static>] = &[
    (b"x", 1, Some(1), true, 4),
    (b"y", 1, Some(2), true, 2),
    (b"z", 3, Some(4), true, 2),
    (b"g", 1, Some(6), true, 2),
    (b"f", 3, Some(3), false, 2),
];

/// Whether a plan has these nodes, edges, links and promises.
fn has(
    plan: &Plan,
    nodes: &[NodeRow],
    edges: &[EdgeRow],
    links: &[LinkRow],
    promises: &[PromiseRow],
) -> bool {
    are_nodes(plan, nodes)
        && are_edges(plan, edges)
        && are_linked(plan, links)
        && are_promises(plan, promises)
}

/// Whether the scope and the group are planned so.
fn are_scope_and_group_planned(alloc: Global) -> bool {
    match planned(alloc, SCOPE_AND_GROUP) {
        Some(plan) => has(
            &plan,
            SCOPE_AND_GROUP_NODES,
            SCOPE_AND_GROUP_EDGES,
            SCOPE_AND_GROUP_LINKS,
            SCOPE_AND_GROUP_PROMISES,
        ),
        None => false,
    }
}

#[test]
fn a_scope_and_a_group_have_this_plan(rt: HostRuntime) {
    assert!(rt; are_scope_and_group_planned(rt.alloc()));
}

const NESTED_NODES: &[NodeRow<'static>] = &[
    (b"measure", Kind::Task, &[], &[], &[0, 1], None),
    (b"react", Kind::Group, &[1], &[], &[], None),
    (b"answers", Kind::Task, &[0], &[], &[2], Some(1)),
    (b"deep", Kind::Group, &[0], &[], &[], Some(1)),
    (b"sinks", Kind::Task, &[], &[], &[], Some(3)),
    (b"inner", Kind::Scope, &[], &[2, 3, 4], &[4], Some(1)),
    (b"after", Kind::Task, &[4], &[], &[], Some(1)),
    (b"all", Kind::Scope, &[], &[0, 1, 2, 3, 4, 5, 6], &[3], None),
];

/// The edge from a group comes after those of the awaits, and those into a scope come from its members.
const NESTED_EDGES: &[EdgeRow] = &[
    (0, 1, Some(1)),
    (0, 2, Some(0)),
    (1, 2, None),
    (0, 3, Some(0)),
    (1, 3, None),
    (3, 4, None),
    (2, 5, None),
    (3, 5, None),
    (4, 5, None),
    (5, 6, Some(4)),
    (1, 6, None),
    (0, 7, None),
    (1, 7, None),
    (2, 7, None),
    (3, 7, None),
    (4, 7, None),
    (5, 7, None),
    (6, 7, None),
];

const NESTED_PROMISES: &[PromiseRow<'static>] = &[
    (b"load", 2, Some(0), true, 4),
    (b"alarm", 1, Some(0), true, 3),
    (b"answer", 1, Some(2), true, 2),
    (b"all", 3, Some(7), false, 1),
    (b"inner", 3, Some(5), false, 2),
];

const NESTED_LINKS: &[LinkRow<'static>] = &[
    (0, 9, &[], &[0, 1, 3, 11]),
    (1, 4, &[0], &[2, 4, 10, 12]),
    (2, 8, &[1, 2], &[6, 13]),
    (2, 4, &[3, 4], &[5, 7, 14]),
    (3, 3, &[5], &[8, 15]),
    (4, 5, &[6, 7, 8], &[9, 16]),
    (5, 5, &[9, 10], &[17]),
    (6, 5, &[11, 12, 13, 14, 15, 16, 17], &[]),
];

/// Of a group that did not open the innermost is blamed, before every promise that is not there.
fn blames_the_innermost_group(plan: &Plan) -> bool {
    plan.nodes() == 8
        && plan.blame(2, false, &[false]) == Some(Cause::Group(1))
        && plan.blame(3, false, &[true]) == Some(Cause::Group(1))
        && plan.blame(3, true, &[false]) == Some(Cause::Promise(0))
        && plan.blame(4, false, &[]) == Some(Cause::Group(3))
        && plan.blame(4, true, &[]).is_none()
}

/// Whether the nested blocks are planned so.
fn are_nested_planned(alloc: Global) -> bool {
    match planned(alloc, NESTED) {
        Some(plan) => {
            has(
                &plan,
                NESTED_NODES,
                NESTED_EDGES,
                NESTED_LINKS,
                NESTED_PROMISES,
            ) && blames_the_innermost_group(&plan)
        }
        None => false,
    }
}

#[test]
fn nested_blocks_have_this_plan(rt: HostRuntime) {
    assert!(rt; are_nested_planned(rt.alloc()));
}

/// Two matrices, the second in a scope, and two tasks whose products are corrected.
const PRODUCTS: &[u8] = b"rhc 1
promise x 2
promise y 3
promise z 2
matrix a 3 2
row 0:2
row 0:1 1:3
row 1:4
end
task init plain
let v lit 5 7
put x v
end
task mul abft await x
let w product a x
put y w
check product y a x
check range y 0 50
end
finish f
matrix b 2 3
row 0:1 2:1
row 1:6
end
task sums abft await x y
let s product b y
put z s
check product z b y
end
end
";

fn is_row(row: &[Cell], cells: &[(u32, u32)]) -> bool {
    let mut same = row.len() == cells.len();
    for (cell, (col, value)) in row.iter().zip(cells) {
        same = same && cell.col == *col && cell.value == *value;
    }
    same
}

fn are_rows(matrix: &Matrix, rows: &[&[(u32, u32)]]) -> bool {
    let mut same = matrix.rows() as usize == rows.len();
    for at in 0..matrix.rows() {
        let Some(cells) = rows.get(at as usize) else {
            return false;
        };
        same = same && is_row(matrix.row(at), cells);
    }
    same
}

fn has_matrices(plan: &Plan) -> bool {
    let matrices = plan.matrices();
    if matrices.rows_at(0) != 3 || matrices.rows_at(1) != 2 || matrices.rows_at(2) != 0 {
        return false;
    }
    let (a, b) = (matrices.get(0), matrices.get(1));
    a.cols() == 2
        && are_rows(a, &[&[(0, 2)], &[(0, 1), (1, 3)], &[(1, 4)]])
        && b.cols() == 3
        && are_rows(b, &[&[(0, 1), (2, 1)], &[(1, 6)]])
}

/// Whether the first of the steps is the product of this matrix and this local.
fn begin_with_product(steps: &[Step], product: (u32, u32)) -> bool {
    match steps.first() {
        Some(Step::Product { matrix, v }) => (*matrix, *v) == product,
        _ => false,
    }
}

/// Whether the first of the checks is that of this product on the promise.
fn check_product(checks: &[PlannedCheck], product: (u32, u32), promise: u32) -> bool {
    let Some(check) = checks.first() else {
        return false;
    };
    let Spec::Product { matrix, x } = check.spec else {
        return false;
    };
    check.promise == promise && (matrix, x) == product
}

/// Whether a node is a task with correction and so many checks, whose first step is this product and whose first check is that of
/// this product on the promise.
fn is_corrected(plan: &Plan, node: u32, product: (u32, u32), promise: u32, checks: usize) -> bool {
    node < plan.nodes()
        && matches!(plan.scheme(node), Scheme::Abft)
        && plan.attempts(node) == 1
        && plan.checks_of(node).len() == checks
        && begin_with_product(plan.body(node).steps(), product)
        && check_product(plan.checks_of(node), product, promise)
}

/// The tasks mul and sums: x is the first local of mul, y the second of sums.
fn are_corrected(plan: &Plan) -> bool {
    is_corrected(plan, 1, (0, 0), 1, 2) && is_corrected(plan, 2, (1, 1), 2, 1)
}

/// Whether the products are planned so.
fn are_products_planned(alloc: Global) -> bool {
    match planned(alloc, PRODUCTS) {
        Some(plan) => has_matrices(&plan) && are_corrected(&plan),
        None => false,
    }
}

#[test]
fn two_matrices_and_two_corrected_tasks_are_planned(rt: HostRuntime) {
    assert!(rt; are_products_planned(rt.alloc()));
}
