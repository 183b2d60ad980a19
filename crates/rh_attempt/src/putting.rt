//! What an attempt puts and drops, once all its locals are made.

ghost use Rattle.std.specs.Prelude.{◌≡◌, ◌<◌, ◌++◌, Some, IfOk, OnOk, length, map};
ghost use Rattle.std.specs.List.{AllByRecursion};
ghost use Rattle.rh_rules.specs.Bodies.{IsSoundWhen, drops_of};
ghost use Rattle.rh_check.specs.Checks.{words_at};
ghost use Rattle.rh_plan.specs.Buffers.{buffer_data, is_made, puts_of};
ghost use Rattle.rh_attempt.specs.Attempting.{ReadsLocals, is_read, reads_local, with_step, AreAsBefore};

use crate::buffer::Buffer;
use crate::lets::words_at;
use crate::local::Local;
use rh_plan::MadePut;
use rh_rules::Step;
use rh_words::{OutOfMemory, Words};
use std::alloc::Global;

/// The buffer of the steps on these finished locals. A local's words are moved to the last put that reads them.
pub(crate) fn fill_buffer(
    alloc: Global,
    steps: &[Step],
    finished: Vec<Local<'_>>,
) -> Result<Buffer, OutOfMemory>
    requires { AllByRecursion (ReadsLocals (map length finished.items)) steps.now }
    ensures { IfOk result (λ buffer. buffer ≡ buffer_data (puts_of finished.entry.items steps.now) (drops_of steps.now)) }
{
    let mut locals = finished;
    let mut buffer = Buffer::new(alloc);
    do_steps(alloc, steps, &mut locals, &mut buffer)?;
    Ok(buffer)
}

/// Puts and drops what the steps do, in body order. The locals' words are given away as no later step reads them.
fn do_steps(
    alloc: Global,
    steps: &[Step],
    locals: &mut Vec<Local<'_>>,
    buffer: &mut Buffer,
) -> Result<(), OutOfMemory>
    requires { AllByRecursion (ReadsLocals (map length locals.old.items)) steps.now }
    ensures { OnOk result (buffer.new ≡ buffer_data (buffer.old.puts ++ puts_of locals.old.items steps.now) (buffer.old.drops ++ drops_of steps.now)) }
{
    for (at, step) in steps.iter().enumerate() {
        do_step(alloc, step, &steps[at + 1..], locals, buffer)?;
    }
    Ok(())
}

/// Puts or drops, where the step does. Of the locals, those that the later steps read stay as they are.
fn do_step(
    alloc: Global,
    step: &Step,
    later: &[Step],
    locals: &mut Vec<Local<'_>>,
    buffer: &mut Buffer,
) -> Result<(), OutOfMemory>
    requires { ReadsLocals (map length locals.old.items) step.now }
    ensures buffer { OnOk result (buffer.new ≡ with_step buffer.old locals.old.items step.now) }
    ensures locals { OnOk result (AreAsBefore later.now locals.old.items locals.new.items) }
{
    match step {
        Step::Put {
            promise,
            local,
            when,
        } => {
            if is_made(locals.as_slice(), *when) {
                let words = put_words(alloc, *local, later, locals)?;
                buffer.put(MadePut {
                    promise: *promise,
                    words,
                })?;
            }
        }
        Step::DropAwait { promise } => buffer.drop_await(*promise)?,
        _ => {}
    }
    Ok(())
}

/// The words of a local, moved where no later step reads them.
fn put_words(
    alloc: Global,
    local: u32,
    later: &[Step],
    locals: &mut Vec<Local<'_>>,
) -> Result<Words, OutOfMemory>
    requires { local < length locals.old.items }
    ensures words { IfOk result (λ w. w ≡ words_at locals.old.items local) }
    ensures locals { OnOk result (AreAsBefore later.now locals.old.items locals.new.items) }
{
    if is_read(later, local) {
        Words::from_slice(alloc, words_at(locals.as_slice(), local))
    } else {
        locals[local as usize].give_words(alloc)
    }
}

/// Whether a put among the steps reads the local.
fn is_read(steps: &[Step], local: u32) -> bool
    ensures { result ≡ is_read steps.now local }
{
    steps.iter().any(|step| reads_local(step, local))
}

/// Whether the step is a put that reads the local.
fn reads_local(step: &Step, local: u32) -> bool
    ensures { result ≡ reads_local local step.now }
{
    match step {
        Step::Put {
            local: put,
            when,
            ..
        } => *put == local || *when == Some(local),
        _ => false,
    }
}

/// Whether a put with this `when` is made.
fn is_made(locals: &[Local<'_>], when: Option<u32>) -> bool
    requires { IsSoundWhen (map length locals.now) when }
    ensures { result ≡ is_made locals.now when }
{
    match when {
        None => true,
        Some(local) => words_at(locals, local)[0] != 0,
    }
}
