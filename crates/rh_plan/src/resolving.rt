//! The faults of a fault text in a plan.

ghost use Rattle.std.specs.Prelude.{◌≡◌, ◌<◌, ◌≤◌, ◌+◌, ◌^◌, [], None, Some, IfOk, IfSome, OnOk, length, position, slice_index};
ghost use Rattle.std.specs.Str.{bytes_eq};
ghost use Rattle.rh_words.specs.declared.limits.TheConstants.{MAX_AWAITS, MAX_LETS, MAX_PROMISE_WORDS};
ghost use Rattle.rh_words.specs.Refusals.{OnRefused};
ghost use Rattle.rh_rules.specs.declared.node.Kind.TheVariants.{Task};
ghost use Rattle.rh_rules.specs.Bodies.{shapes_of};
ghost use Rattle.rh_rules.specs.Lawful.{IsLawfulTask, local_lens};
ghost use Rattle.rh_plan.specs.FaultLines.{AreFaultsOfText, FirstBadFault, fault_reason, local_number, strike_of};
ghost use Rattle.rh_plan.specs.FaultTables.{AreFaultsBelow, AreTasksNumbered, AddsFault, IsNotAdded, reason_in_task, word_reason, strike_in_task, name_at};
ghost use Rattle.rh_plan.specs.FaultsOfPlans.{AreFaultsOf};
ghost use Rattle.rh_plan.specs.Lawful.{IsLawfulPlan};

use crate::attempt_limit::attempts_of;
use crate::local_lens::local_lens;
use crate::named_faults::NamedFaults;
use crate::plans::Plan;
use crate::task_numbers::TaskNumbers;
use rh_check::Matrices;
use rh_injector::{FaultLine, FaultText, Faults, Strike};
use rh_rules::{Node, PlannedPromise};
use rh_words::{Fault, Name, OutOfMemory, Reason, Refusal, at_line};
use std::alloc::Global;

/// The faults that the lines of a text name in a plan, or the first line that is refused, with the first reason that holds there.
pub fn resolve(alloc: Global, text: &FaultText, plan: &Plan) -> Result<Faults, Fault<Refusal>>
    ensures ok { IfOk result (AreFaultsOfText plan.now text.now) }
    ensures plans { IfOk result (AreFaultsOf plan.now) }
    ensures refused { OnRefused result (λ refusal. FirstBadFault plan.now text.now refusal.line refusal.reason) }
{
    let mut named = NamedFaults::new(alloc);
    name_faults(alloc, text, plan, &mut named)?;
    let faults = named.into_faults(alloc)?;
    let _in_order = faults.as_slice();
    Ok(faults)
}

/// Adds the faults of all lines to none, up to the first line that is refused. Every plan is lawful.
fn name_faults(
    alloc: Global,
    text: &FaultText,
    plan: &Plan,
    named: &mut NamedFaults,
) -> Result<(), Fault<Refusal>>
    requires { named.old ≡ [] }
    ensures ok { OnOk result (AreFaultsBelow plan.now text.now (length text.now) named.new) }
    ensures few { OnOk result (length named.new < 2 ^ 32) }
    ensures refused { OnRefused result (λ refusal. FirstBadFault plan.now text.now refusal.line refusal.reason) }
    ensures lawful { IsLawfulPlan plan.now }
{
    let tasks = TaskNumbers::of(alloc, plan.node_list())?;
    add_faults(alloc, text, plan, &tasks, named)
}

/// Adds the fault of line after line to none, where these numbers are the tasks'.
fn add_faults(
    alloc: Global,
    text: &FaultText,
    plan: &Plan,
    tasks: &TaskNumbers,
    named: &mut NamedFaults,
) -> Result<(), Fault<Refusal>>
    requires tasks { AreTasksNumbered tasks.now.known plan.now.nodes }
    requires none { named.old ≡ [] }
    ensures ok { OnOk result (AreFaultsBelow plan.now text.now (length text.now) named.new) }
    ensures few { OnOk result (length named.new < 2 ^ 32) }
    ensures refused { OnRefused result (λ refusal. FirstBadFault plan.now text.now refusal.line refusal.reason) }
{
    for fault in text.lines() {
        let line = fault.line;
        if let Err(error) = add_fault(alloc, plan, tasks, fault, named) {
            return Err(at_line(line, error));
        }
    }
    Ok(())
}

/// Adds the fault of a line to those of the lines above it.
fn add_fault(
    alloc: Global,
    plan: &Plan,
    tasks: &TaskNumbers,
    fault: &FaultLine,
    named: &mut NamedFaults,
) -> Result<(), Fault<Reason>>
    requires { AreTasksNumbered tasks.now.known plan.now.nodes }
    ensures ok { OnOk result (AddsFault plan.now named.old fault.now named.new) }
    ensures refused { OnRefused result (λ reason. IsNotAdded plan.now named.old fault.now reason) }
{
    let strike = strike_of(alloc, plan, tasks, fault)?;
    if !named.add(strike)? {
        return Err(Fault::Refused(Reason::FaultTwice));
    }
    Ok(())
}

/// The fault of a line by its numbers, where it names a place.
fn strike_of(
    alloc: Global,
    plan: &Plan,
    tasks: &TaskNumbers,
    fault: &FaultLine,
) -> Result<Strike, Fault<Reason>>
    requires { AreTasksNumbered tasks.now.known plan.now.nodes }
    ensures unrefused { IfOk result (λ strike. fault_reason plan.now [] fault.now ≡ None) }
    ensures ok { IfOk result (λ strike. strike ≡ strike_of plan.now fault.now) }
    ensures refused { OnRefused result (λ reason. fault_reason plan.now [] fault.now ≡ Some reason) }
{
    let Some(number) = tasks.number(&fault.task) else {
        return Err(Fault::Refused(Reason::UnknownTask));
    };
    let node = &plan.node_list()[number as usize];
    strike_in_task(
        alloc,
        plan.matrices(),
        plan.promise_list(),
        number,
        node,
        fault,
    )
}

/// The fault of a line that names this task, where it names a place.
fn strike_in_task(
    alloc: Global,
    matrices: &Matrices,
    promises: &[PlannedPromise],
    number: u32,
    node: &Node,
    fault: &FaultLine,
) -> Result<Strike, Fault<Reason>>
    requires task { node.now.kind ≡ Task }
    requires lawful { IsLawfulTask (shapes_of matrices.now) promises.now node.now }
    ensures unrefused { IfOk result (λ strike. reason_in_task (shapes_of matrices.now) promises.now node.now fault.now ≡ None) }
    ensures ok { IfOk result (λ strike. strike ≡ strike_in_task promises.now number node.now fault.now) }
    ensures refused { OnRefused result (λ reason. reason_in_task (shapes_of matrices.now) promises.now node.now fault.now ≡ Some reason) }
{
    let local = struck_local(alloc, matrices, promises, node, fault)?;
    if fault.mask == 0 {
        return Err(Fault::Refused(Reason::ZeroMask));
    }
    Ok(Strike {
        node: number,
        attempt: fault.attempt as u32,
        local,
        word: fault.word as u32,
        mask: fault.mask,
    })
}

/// The number of the local that a line of this task names, where the task may make the attempt and the local has the word.
fn struck_local(
    alloc: Global,
    matrices: &Matrices,
    promises: &[PlannedPromise],
    node: &Node,
    fault: &FaultLine,
) -> Result<u32, Fault<Reason>>
    requires task { node.now.kind ≡ Task }
    requires lawful { IsLawfulTask (shapes_of matrices.now) promises.now node.now }
    ensures found { IfOk result (λ local. local_number promises.now fault.now.local node.now ≡ Some local) }
    ensures unrefused { IfOk result (λ local. word_reason (shapes_of matrices.now) promises.now node.now fault.now ≡ None) }
    ensures attempt { IfOk result (λ local. fault.now.attempt < 2 ^ 32) }
    ensures word { IfOk result (λ local. fault.now.word < MAX_PROMISE_WORDS) }
    ensures refused { OnRefused result (λ reason. word_reason (shapes_of matrices.now) promises.now node.now fault.now ≡ Some reason) }
{
    if fault.attempt >= u64::from(attempts_of(node)) {
        return Err(Fault::Refused(Reason::Attempt));
    }
    let Some(local) = local_number(promises, node, &fault.local) else {
        return Err(Fault::Refused(Reason::Local));
    };
    if fault.word >= local_len(alloc, matrices, promises, node, local)? {
        return Err(Fault::Refused(Reason::BadWord));
    }
    Ok(local as u32)
}

/// How many words a local has: none where the task has no such local.
fn local_len(
    alloc: Global,
    matrices: &Matrices,
    promises: &[PlannedPromise],
    node: &Node,
    local: usize,
) -> Result<u64, OutOfMemory>
    requires { IsLawfulTask (shapes_of matrices.now) promises.now node.now }
    ensures len { IfOk result (λ len. len ≡ slice_index (local_lens (shapes_of matrices.now) promises.now node.now) local) }
    ensures short { IfOk result (λ len. len ≤ MAX_PROMISE_WORDS) }
    ensures there { IfOk result (λ len. 0 < len → local < MAX_AWAITS + MAX_LETS) }
{
    let lens = local_lens(alloc, matrices, promises, node)?;
    match lens.get(local) {
        Some(len) => Ok(*len as u64),
        None => Ok(0),
    }
}

/// The number of the local of a name: the place of its await, or behind all awaits that of its `let`.
fn local_number(promises: &[PlannedPromise], node: &Node, name: &Name) -> Option<usize>
    ensures { result ≡ local_number promises.now name.now node.now }
{
    let awaits = node.awaits.as_slice();
    if let Some(at) = await_named(promises, awaits, name) {
        return Some(at);
    }
    match let_named(node.lets.as_slice(), name) {
        Some(at) => Some(awaits.len() + at),
        None => None,
    }
}

/// The place of the `let` that makes the local of a name.
fn let_named(lets: &[Name], name: &Name) -> Option<usize>
    ensures place { result ≡ position (λ n. bytes_eq n name.now) lets.now }
    ensures within { IfSome result (λ at. at < length lets.now) }
{
    lets.iter().position(|made| made.bytes() == name.bytes())
}

/// The place of the await of a name.
fn await_named(promises: &[PlannedPromise], awaits: &[u32], name: &Name) -> Option<usize>
    ensures { result ≡ position (λ q. bytes_eq (name_at promises.now q) name.now) awaits.now }
{
    awaits
        .iter()
        .position(|promise| is_promise_named(promises, *promise, name))
}

/// Whether the promise of this number has the name.
fn is_promise_named(promises: &[PlannedPromise], promise: u32, name: &Name) -> bool
    ensures { result ≡ bytes_eq (name_at promises.now promise) name.now }
{
    let name = name.bytes();
    match promises.get(promise as usize) {
        Some(promise) => promise.name.bytes() == name,
        None => false,
    }
}
