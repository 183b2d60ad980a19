//! Which promises a node put, which it did not put, and of which it gives up references.

ghost use Rattle.std.specs.Prelude.{◌≡◌, ◌<◌, ◌≤◌, ◌++◌, ◌&&◌, not, IfOk, OnOk, drop, length, map};
ghost use Rattle.std.specs.List.{filter};
ghost use Rattle.rh_rules.specs.Tables.{is_in};
ghost use Rattle.rh_plan.specs.Plans.{OfNode};
ghost use Rattle.rh_journal.specs.Own.{promises_of, drops_by, puts_by, put_attempt};
ghost use Rattle.rh_schemes.specs.Judges.{result_data};
ghost use Rattle.rh_plain.specs.Values.{has_words};
ghost use Rattle.rh_plain.specs.Listing.{HasLists, awaits_released};

use crate::values::Values;
use rh_attempt::Buffer;
use rh_plan::{MadePut, Plan, Verdict};
use rh_rules::Numbers;
use rh_schemes::NodeResult;
use rh_words::OutOfMemory;
use std::alloc::Global;
use std::marker::Model;

/// The promises that a node put, those that it did not put, and those of which it gives up a reference. Those that it put are the last of the
/// latter.
#[derive(Drop)]
pub(crate) struct Lists {
    voids: Numbers,
    released: Numbers,
    first_put: usize,
}

impl Model for Lists {
    ghost use Rattle.std.specs.Prelude.{◌≤◌, length};
    ghost use Rattle.rh_plain.specs.NodeLists.{NodeLists, node_lists};

    ghost Value = { NodeLists };

    ghost view = { λ l. node_lists l.first_put l.voids l.released };

    ghost invariant = { λ l. l.first_put ≤ length l.released };
}

impl Lists {
    pub(crate) fn puts(&self) -> &[u32]
        ensures { result.now ≡ self.now.puts }
    {
        from(&self.released, self.first_put)
    }

    pub(crate) fn voids(&self) -> &[u32]
        ensures { result.now ≡ self.now.voids }
    {
        self.voids.as_slice()
    }

    pub(crate) fn released(&self) -> &[u32]
        ensures { result.now ≡ self.now.released }
    {
        self.released.as_slice()
    }
}

/// The numbers from a place on.
fn from(numbers: &Numbers, first: usize) -> &[u32]
    requires { first ≤ length numbers.now }
    ensures { result.now ≡ drop first numbers.now }
{
    &numbers.as_slice()[first..]
}

/// The lists of a node that ended so. `values` are those before its own puts.
pub(crate) fn lists_of(
    alloc: Global,
    plan: &Plan,
    node: u32,
    ended: &NodeResult,
    values: &Values,
) -> Result<Lists, OutOfMemory>
    requires { node < length plan.now.nodes }
    ensures { IfOk result (λ l. OfNode plan.now node (λ x. HasLists (has_words values.now) x (result_data ended.now) l)) }
{
    let mut released = await_list(alloc, plan, node, ended, values)?;
    let first_put = released.as_slice().len();
    append_puts(plan, node, ended, &mut released)?;
    let voids = void_list(alloc, plan, node, from(&released, first_put))?;
    Ok(Lists {
        voids,
        released,
        first_put,
    })
}

/// The awaited promises of which a node gives up a reference: those that its accepted buffer drops, and its others that have words.
fn await_list(
    alloc: Global,
    plan: &Plan,
    node: u32,
    ended: &NodeResult,
    values: &Values,
) -> Result<Numbers, OutOfMemory>
    requires { node < length plan.now.nodes }
    ensures { IfOk result (λ n. OfNode plan.now node (λ x. n ≡ awaits_released (has_words values.now) x (result_data ended.now))) }
{
    let mut promises = Numbers::new(alloc);
    let drops = drop_list(&ended.accepted);
    append(&mut promises, drops)?;
    append_valued(&mut promises, plan.awaits(node), drops, values)?;
    Ok(promises)
}

/// Puts the promises that a node put behind others, in buffer order.
fn append_puts(
    plan: &Plan,
    node: u32,
    ended: &NodeResult,
    into: &mut Numbers,
) -> Result<(), OutOfMemory>
    requires { node < length plan.now.nodes }
    ensures { OnOk result (OfNode plan.now node (λ x. into.new ≡ into.old ++ puts_by x (result_data ended.now))) }
{
    match ended.verdict {
        Verdict::Accepted { .. } => append_buffer(into, &ended.accepted),
        Verdict::Corrected { .. } => append_buffer(into, &ended.accepted),
        Verdict::Ended { .. } => append(into, plan.puts(node)),
        _ => Ok(()),
    }
}

/// The promises that a node might have put and did not, in body order.
fn void_list(alloc: Global, plan: &Plan, node: u32, puts: &[u32]) -> Result<Numbers, OutOfMemory>
    requires { node < length plan.now.nodes }
    ensures { IfOk result (λ n. OfNode plan.now node (λ x. n ≡ filter (λ q. not (is_in q puts.now)) x.puts)) }
{
    let mut voids = Numbers::new(alloc);
    append_others(&mut voids, plan.puts(node), puts)?;
    Ok(voids)
}

/// The attempt of a node's puts.
pub(crate) fn attempt_of(verdict: Verdict) -> u32
    ensures { result ≡ put_attempt verdict }
{
    match verdict {
        Verdict::Accepted { attempt } => attempt,
        _ => 0,
    }
}

/// Puts the promises that an accepted buffer puts behind others.
fn append_buffer(into: &mut Numbers, accepted: &Option<Buffer>) -> Result<(), OutOfMemory>
    ensures { OnOk result (into.new ≡ into.old ++ promises_of accepted.now) }
{
    match accepted {
        Some(buffer) => append_made(into, buffer.puts()),
        None => Ok(()),
    }
}

/// Puts the promises of puts behind others.
fn append_made(into: &mut Numbers, puts: &[MadePut]) -> Result<(), OutOfMemory>
    ensures { OnOk result (into.new ≡ into.old ++ map (λ p. p.promise) puts.now) }
{
    for put in puts {
        into.push(put.promise)?;
    }
    Ok(())
}

/// The awaited promises that an accepted buffer drops.
fn drop_list(accepted: &Option<Buffer>) -> &[u32]
    ensures { result.now ≡ drops_by accepted.now }
{
    match accepted {
        Some(buffer) => buffer.drops(),
        None => &[],
    }
}

/// Puts the numbers behind others.
fn append(into: &mut Numbers, numbers: &[u32]) -> Result<(), OutOfMemory>
    ensures { OnOk result (into.new ≡ into.old ++ numbers.now) }
{
    for number in numbers {
        into.push(*number)?;
    }
    Ok(())
}

/// Puts those of the promises behind others that are not excepted.
fn append_others(into: &mut Numbers, promises: &[u32], excepted: &[u32]) -> Result<(), OutOfMemory>
    ensures { OnOk result (into.new ≡ into.old ++ filter (λ q. not (is_in q excepted.now)) promises.now) }
{
    for promise in promises {
        if !contains(excepted, *promise) {
            into.push(*promise)?;
        }
    }
    Ok(())
}

/// Puts those of the awaited promises behind others that are not dropped and have words.
fn append_valued(
    into: &mut Numbers,
    awaits: &[u32],
    drops: &[u32],
    values: &Values,
) -> Result<(), OutOfMemory>
    ensures { OnOk result (into.new ≡ into.old ++ filter (λ q. not (is_in q drops.now) && has_words values.now q) awaits.now) }
{
    for promise in awaits {
        if !contains(drops, *promise) && values.has(*promise) {
            into.push(*promise)?;
        }
    }
    Ok(())
}

/// Whether a number is among others.
fn contains(numbers: &[u32], number: u32) -> bool
    ensures { result ≡ is_in number numbers.now }
{
    numbers.iter().any(|n| *n == number)
}
