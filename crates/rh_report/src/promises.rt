//! The lines of promises.

ghost use Rattle.std.specs.Prelude.{◌≡◌, ◌<◌, ◌++◌, OnOk, length};
ghost use Rattle.std.specs.Option.{option_copied};
ghost use Rattle.rh_report.specs.PromiseLines.{declared_line, is_declared_at, is_temp_at, promise_line, put_text, shown_text, state_at, words_text};
ghost use Rattle.rh_report.specs.Reports.{promises_text};

use crate::ends::{put_at, words_or_none};
use crate::naming::{print_node_name, print_promise_name};
use crate::told::Told;
use rh_journal::Shown;
use rh_plan::Plan;
use rh_rules::Kind;
use rh_words::{Bytes, OutOfMemory, Words, print_labelled};
use std::alloc::Global;

/// Appends the lines of all declared promises.
pub(crate) fn print_promises(
    alloc: Global,
    plan: &Plan,
    told: &Told,
    shown: &Shown,
    into: &mut Bytes,
) -> Result<(), OutOfMemory>
    ensures { OnOk result (into.new ≡ into.old ++ promises_text plan.now told.now shown.now) }
{
    for promise in 0..plan.promises() {
        print_promise(alloc, plan, told, shown, promise, into)?;
    }
    Ok(())
}

/// Appends the line of a promise, where it was declared.
#[tactic(auto, unfolding(crate::specs::PromiseLines::promise_line))]
fn print_promise(
    alloc: Global,
    plan: &Plan,
    told: &Told,
    shown: &Shown,
    promise: u32,
    into: &mut Bytes,
) -> Result<(), OutOfMemory>
    requires { promise < length plan.now.promises }
    ensures { OnOk result (into.new ≡ into.old ++ promise_line plan.now told.now shown.now promise) }
{
    if is_declared(plan, promise) {
        print_declared(alloc, plan, told, shown, promise, into)?;
    }
    Ok(())
}

/// Whether a promise was declared: no scope puts it.
pub(crate) fn is_declared(plan: &Plan, promise: u32) -> bool
    requires { promise < length plan.now.promises }
    ensures { result ≡ is_declared_at plan.now promise }
{
    let _known = plan.nodes();
    match plan.putter(promise) {
        None => true,
        Some(node) => !matches!(plan.kind(node), Kind::Scope),
    }
}

/// Appends the line of a declared promise.
#[tactic(auto, using(std::proofs::Common::append_assoc))]
fn print_declared(
    alloc: Global,
    plan: &Plan,
    told: &Told,
    shown: &Shown,
    promise: u32,
    into: &mut Bytes,
) -> Result<(), OutOfMemory>
    requires { promise < length plan.now.promises }
    ensures { OnOk result (into.new ≡ into.old ++ declared_line plan.now told.now shown.now promise) }
{
    into.append(b"promise ")?;
    print_promise_name(plan, promise, into)?;
    print_state(alloc, plan, told, shown, promise, into)?;
    into.append(b"\n")?;
    Ok(())
}

/// Appends what a promise has: words, none, or no task that puts it.
#[tactic(auto, using(std::proofs::Common::append_assoc))]
fn print_state(
    alloc: Global,
    plan: &Plan,
    told: &Told,
    shown: &Shown,
    promise: u32,
    into: &mut Bytes,
) -> Result<(), OutOfMemory>
    requires { promise < length plan.now.promises }
    ensures { OnOk result (into.new ≡ into.old ++ state_at plan.now told.now shown.now promise) }
{
    let Some(node) = plan.putter(promise) else {
        into.append(b" none")?;
        return Ok(());
    };
    into.append(b" by ")?;
    print_node_name(plan, node, into)?;
    let temp = is_temp(plan, promise);
    let put = put_at(told.puts(), promise);
    print_put(alloc, temp, shown.get(promise), put, into)?;
    Ok(())
}

/// Whether a promise was declared with `temp`.
fn is_temp(plan: &Plan, promise: u32) -> bool
    requires { promise < length plan.now.promises }
    ensures { result ≡ is_temp_at plan.now promise }
{
    plan.is_temp(promise)
}

/// Appends the attempt and the words of a put, or that there is none.
#[tactic(auto, using(std::proofs::Common::append_assoc))]
fn print_put(
    alloc: Global,
    temp: bool,
    words: Option<&Words>,
    put: Option<u32>,
    into: &mut Bytes,
) -> Result<(), OutOfMemory>
    ensures { OnOk result (into.new ≡ into.old ++ put_text temp (option_copied words.entry) put) }
{
    let Some(attempt) = put else {
        into.append(b" void")?;
        return Ok(());
    };
    if attempt == 0 && !temp {
        into.append(b" attempt 0:")?;
        return print_words(alloc, words_or_none(words), into);
    }
    print_labelled(alloc, b" attempt ", u64::from(attempt), into)?;
    print_shown(alloc, temp, words_or_none(words), into)?;
    Ok(())
}

/// Appends the words of a put, or that they are not told.
#[tactic(auto, using(std::proofs::Common::append_assoc))]
fn print_shown(
    alloc: Global,
    temp: bool,
    words: &[u64],
    into: &mut Bytes,
) -> Result<(), OutOfMemory>
    ensures { OnOk result (into.new ≡ into.old ++ shown_text temp words.now) }
{
    if temp {
        return into.append(b" temp");
    }
    into.append(b":")?;
    print_words(alloc, words, into)?;
    Ok(())
}

/// Appends words, each behind a space.
#[tactic(auto, using(std::proofs::Common::append_assoc), unfolding(crate::specs::PromiseLines::words_text))]
fn print_words(alloc: Global, words: &[u64], into: &mut Bytes) -> Result<(), OutOfMemory>
    ensures { OnOk result (into.new ≡ into.old ++ words_text words.now) }
{
    for word in words {
        print_labelled(alloc, b" ", *word, into)?;
    }
    Ok(())
}
