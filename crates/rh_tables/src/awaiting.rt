//! Await lists.

ghost use Rattle.std.specs.Prelude.{◌≡◌, ◌<◌, [], IfOk, None, Some, map, true, false, not, slice_get, is_some, unwrap_or};
ghost use Rattle.std.specs.List.{list_any};
ghost use Rattle.std.specs.Option.{option_map};
ghost use Rattle.rh_rules.specs.Tables.{is_among, if_any, is_promise, promise_number};
ghost use Rattle.rh_rules.specs.Rules.{are_distinct};
ghost use Rattle.rh_rules.specs.Above.{await_local};
ghost use Rattle.rh_tables.specs.Making.{await_reason};

use crate::declarations::Declared;
use rh_rules::{Local, Numbers, PlannedPromise};
use rh_words::{Name, OutOfMemory, Reason};

/// Whether no name stands twice. A node awaits few promises, so each is compared with those behind it.
pub fn are_distinct(names: &[Name]) -> bool
    ensures { result ≡ are_distinct names.now }
{
    let mut rest = names;
    while let [name, others @ ..] = rest {
        if is_among(name, others) {
            return false;
        }
        rest = others;
    }
    true
}

/// Whether one of the names is this one.
fn is_among(name: &Name, names: &[Name]) -> bool
    ensures { result ≡ is_among name.now names.now }
{
    names.iter().any(|n| n.bytes() == name.bytes())
}

/// Why a node that awaits these is refused. Where it is not, the inputs are the numbers of what it awaits.
#[tactic(auto, using(crate::proofs::Using::is_put_numbers))]
pub fn await_reason(
    declared: &Declared,
    inputs: &mut Numbers,
    names: &[Name],
) -> Result<Option<Reason>, OutOfMemory>
    requires none { inputs.old ≡ [] }
    ensures reason { IfOk result (λ answer. answer ≡ await_reason declared.now.promises names.now) }
    ensures inputs { IfOk result (λ answer. answer ≡ None → inputs.new ≡ map (promise_number declared.now.promises) names.now) }
{
    if !find_promises(declared, names, inputs)? {
        return Ok(Some(Reason::Unknown));
    }
    if is_any_unput(declared.promises(), inputs.as_slice()) {
        return Ok(Some(Reason::Order));
    }
    Ok(None)
}

/// Writes the number of the promise of each name, up to the first name that is no promise. Whether all are.
fn find_promises(
    declared: &Declared,
    names: &[Name],
    numbers: &mut Numbers,
) -> Result<bool, OutOfMemory>
    requires { numbers.old ≡ [] }
    ensures known { IfOk result (λ known. known ≡ not (list_any (λ q. not (is_promise declared.now.promises q)) names.now)) }
    ensures numbers { IfOk result (λ known. known ≡ true → numbers.new ≡ map (promise_number declared.now.promises) names.now) }
{
    for name in names {
        let Some(number) = declared.promise(name) else {
            return Ok(false);
        };
        numbers.push(number)?;
    }
    Ok(true)
}

/// Whether one of the promises of these names and numbers is put by nothing.
fn is_any_unput(promises: &[PlannedPromise], numbers: &[u32]) -> bool
    ensures { result ≡ list_any (λ i. not (if_any (λ p. is_some p.putter) (slice_get promises.now i))) numbers.now }
{
    numbers.iter().any(|number| !is_put_at(promises, *number))
}

/// Whether a node puts the promise of this number.
fn is_put_at(promises: &[PlannedPromise], number: u32) -> bool
    ensures { result ≡ if_any (λ p. is_some p.putter) (slice_get promises.now number) }
{
    match promises.get(number as usize) {
        Some(promise) => promise.putter.is_some(),
        None => false,
    }
}

/// How many words the promise of this number has, or 0.
fn len_at(promises: &[PlannedPromise], number: u32) -> u32
    ensures { result ≡ unwrap_or (option_map (λ p. p.len) (slice_get promises.now number)) 0 }
{
    match promises.get(number as usize) {
        Some(promise) => promise.len,
        None => 0,
    }
}

/// Writes the locals that are copies of the promises of these names and numbers.
pub fn await_locals(
    promises: &[PlannedPromise],
    names: &[Name],
    numbers: &[u32],
    locals: &mut Vec<Local>,
) -> Result<(), OutOfMemory>
    requires known { list_any (λ q. not (is_promise promises.now q)) names.now ≡ false }
    requires numbers { numbers.now ≡ map (promise_number promises.now) names.now }
    ensures { IfOk result (λ u. locals.new.items ≡ map (await_local promises.now) names.now) }
{
    locals.clear();
    for at in 0..names.len() {
        locals.push(Local::new(names[at], len_at(promises, numbers[at])))?;
    }
    Ok(())
}
