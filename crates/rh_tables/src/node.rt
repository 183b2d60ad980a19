//! The nodes: a task and a scope that ended, a group that is opened.

ghost use Rattle.std.specs.Prelude.{◌≡◌, ◌-◌, IfOk, map, option_to_list};
ghost use Rattle.std.specs.List.{range_with_len};
ghost use Rattle.rh_rules.specs.Bodies.{promises_put, put_at};
ghost use Rattle.rh_rules.specs.Above.{task_node, lets_of, group_node, scope_node};

use rh_rules::{Body, CheckList, Kind, Local, Node, Numbers, Scheme, Step};
use rh_words::{Name, NameList, OutOfMemory};
use std::alloc::Global;

/// The promises that the steps put, in their order.
fn promises_put(alloc: Global, steps: &[Step]) -> Result<Numbers, OutOfMemory>
    ensures { IfOk result (λ numbers. numbers ≡ promises_put steps.now) }
{
    let mut numbers = Numbers::new(alloc);
    for step in steps {
        if let Some(promise) = put_at(step) {
            numbers.push(promise)?;
        }
    }
    Ok(numbers)
}

/// The promise of a `put`.
fn put_at(step: &Step) -> Option<u32>
    ensures { option_to_list result ≡ put_at step.now }
{
    match step {
        Step::Put { promise, .. } => Some(*promise),
        _ => None,
    }
}

/// The names of the locals behind the inputs.
pub fn lets_of(alloc: Global, inputs: &[u32], locals: &[Local]) -> Result<NameList, OutOfMemory>
    ensures { IfOk result (λ names. names ≡ lets_of inputs.now locals.now) }
{
    if inputs.len() > locals.len() {
        return Ok(NameList::new(alloc));
    }
    names_of(alloc, &locals[inputs.len()..])
}

/// The names of these locals.
fn names_of(alloc: Global, locals: &[Local]) -> Result<NameList, OutOfMemory>
    ensures { IfOk result (λ names. names ≡ map (λ t. t.name) locals.now) }
{
    let mut names = NameList::new(alloc);
    for local in locals {
        names.push(*local.name())?;
    }
    Ok(names)
}

/// The node of a task in this group that awaits these promises, makes locals of these names and has these steps and checks.
pub fn task_node(
    alloc: Global,
    name: Name,
    scheme: Scheme,
    inputs: Numbers,
    lets: NameList,
    group: Option<u32>,
    body: Body,
    checks: CheckList,
) -> Result<Node, OutOfMemory>
    ensures { IfOk result (λ node. node ≡ task_node name scheme inputs lets group body checks) }
{
    Ok(Node {
        name,
        kind: Kind::Task,
        scheme,
        group,
        awaits: inputs,
        members: Numbers::new(alloc),
        puts: promises_put(alloc, body.steps())?,
        body,
        checks,
        lets,
    })
}

/// The node of a group in this group that awaits these promises.
pub fn group_node(alloc: Global, name: Name, inputs: Numbers, group: Option<u32>) -> Node
    ensures { result ≡ group_node name inputs group }
{
    Node {
        name,
        kind: Kind::Group,
        scheme: Scheme::Plain,
        group,
        awaits: inputs,
        members: Numbers::new(alloc),
        puts: Numbers::new(alloc),
        body: Body::new(alloc),
        checks: CheckList::new(alloc),
        lets: NameList::new(alloc),
    }
}

/// The node of a scope in this group that ends below `count` nodes, of which those from `first` on are its members. It puts its own promise.
pub fn scope_node(
    alloc: Global,
    name: Name,
    own: u32,
    group: Option<u32>,
    first: u32,
    count: u32,
) -> Result<Node, OutOfMemory>
    ensures { IfOk result (λ node. node ≡ scope_node name own group first count) }
{
    let mut puts = Numbers::new(alloc);
    puts.push(own)?;
    Ok(Node {
        name,
        kind: Kind::Scope,
        scheme: Scheme::Plain,
        group,
        awaits: Numbers::new(alloc),
        members: numbers_between(alloc, first, count)?,
        puts,
        body: Body::new(alloc),
        checks: CheckList::new(alloc),
        lets: NameList::new(alloc),
    })
}

/// The numbers from the first one up to that before the last.
fn numbers_between(alloc: Global, first: u32, last: u32) -> Result<Numbers, OutOfMemory>
    ensures { IfOk result (λ numbers. numbers ≡ range_with_len first (last - first)) }
{
    let mut numbers = Numbers::new(alloc);
    for number in first..last {
        numbers.push(number)?;
    }
    Ok(numbers)
}
