//! Pieces that several lines have.

ghost use Rattle.std.specs.Prelude.{◌≡◌, ◌++◌, OnOk};
ghost use Rattle.rh_report.specs.Naming.{cause_name, node_name, promise_name};

use rh_plan::{Cause, Plan};
use rh_words::{Bytes, OutOfMemory};

/// Appends a label and the name of the group or the promise for which a node did not run.
#[tactic(auto, using(std::proofs::Common::append_assoc))]
pub(crate) fn print_cause(
    plan: &Plan,
    label: &[u8],
    cause: Cause,
    into: &mut Bytes,
) -> Result<(), OutOfMemory>
    ensures { OnOk result (into.new ≡ into.old ++ (label.now ++ cause_name plan.now cause)) }
{
    into.append(label)?;
    match cause {
        Cause::Group(group) => print_node_name(plan, group, into)?,
        Cause::Promise(promise) => print_promise_name(plan, promise, into)?,
    }
    Ok(())
}

/// Appends the name of a node.
pub(crate) fn print_node_name(plan: &Plan, node: u32, into: &mut Bytes) -> Result<(), OutOfMemory>
    ensures { OnOk result (into.new ≡ into.old ++ node_name plan.now node) }
{
    if node < plan.nodes() {
        into.append(plan.name(node).bytes())?;
    }
    Ok(())
}

/// Appends the name of a promise.
pub(crate) fn print_promise_name(
    plan: &Plan,
    promise: u32,
    into: &mut Bytes,
) -> Result<(), OutOfMemory>
    ensures { OnOk result (into.new ≡ into.old ++ promise_name plan.now promise) }
{
    if promise < plan.promises() {
        into.append(plan.promise_name(promise).bytes())?;
    }
    Ok(())
}
