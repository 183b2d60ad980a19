//! A call of the program, from its words to its status.

ghost use Rattle.std.specs.Prelude.{◌≡◌, ◌++◌, IfOk, OnOk, codes, map};
ghost use Rattle.std.specs.Fmt.{decimal};
ghost use Rattle.std.specs.String.{string_bytes};
ghost use Rattle.rh_words.specs.Reasons.{number_of_reason, name_of_reason};
ghost use Rattle.rh_top.specs.Answer.{refusal_line};
ghost use Rattle.rh_top.specs.Promise.{KeepsPromise, Tells, Says, call_of, status_number};
ghost use Rattle.rh_check.specs.Users.{handed_checks, ArePaired};
ghost use Rattle.rh_top.specs.CallSteps.{Delivers, IsToldOf, IsToldRefusal, refusal_of};

use crate::command::read_command;
use crate::status::Status;
use crate::texts::{Stop, Texts, compose};
use rh_check::Checks;
use rh_outside::{Shelf, Sink, WriteAnswer, write_all};
use rh_schemes::Gate;
use rh_words::{Bytes, OutOfMemory, Reason, Refusal, print_labelled};
use std::alloc::Global;

/// Does what the words say, and answers the exit status. The words are those after the program's name. Programs may name the
/// checks that are handed in, and the gate is told of each attempt. The whole text is composed before its first byte is
/// written on `out`.
pub fn top<S: Shelf, O: Sink, E: Sink, C: Checks, G: Gate>(
    alloc: Global,
    words: &[String],
    shelf: &mut S,
    out: &mut O,
    err: &mut E,
    checks: &C,
    gate: &G,
) -> u8
    ensures kept { KeepsPromise (call_of (map string_bytes words.now) (handed_checks (C.names checks.now) (C.specs checks.now))
        (S.state shelf.old) (S.state shelf.new) (O.state out.old) (O.state out.new)
        (E.state err.old) (E.state err.new)) result }
    ensures paired { ArePaired (handed_checks (C.names checks.now) (C.specs checks.now)) }
{
    let _paired = checks.count();
    obey(alloc, words, shelf, out, err, checks, gate).number()
}

/// Tells that memory was wanting before the words could be read, and answers the exit status.
pub fn want_memory<E: Sink>(err: &mut E) -> u8
    ensures number { result ≡ status_number Status.OutOfMemory }
    ensures said { Says (E.state err.old) (E.state err.new) (codes "rh: out of memory\n") }
{
    no_memory(err).number()
}

/// Does what the words say.
fn obey<S: Shelf, O: Sink, E: Sink, C: Checks, G: Gate>(
    alloc: Global,
    words: &[String],
    files: &mut S,
    out: &mut O,
    err: &mut E,
    checks: &C,
    gate: &G,
) -> Status
    ensures { Tells (call_of (map string_bytes words.now) (handed_checks (C.names checks.now) (C.specs checks.now))
        (S.state files.old) (S.state files.new) (O.state out.old) (O.state out.new)
        (E.state err.old) (E.state err.new)) result }
{
    let Some(command) = read_command(words) else {
        say(err, b"rh: bad words\n");
        return Status::BadWords;
    };
    match compose(alloc, &command, files, checks, gate) {
        Ok(texts) => deliver(&texts, out, err),
        Err(stop) => tell(alloc, stop, err),
    }
}

/// Writes the text on the output.
fn deliver<O: Sink, E: Sink>(texts: &Texts, out: &mut O, err: &mut E) -> Status
    ensures { Delivers texts.now
        (O.state out.old) (O.state out.new) (E.state err.old) (E.state err.new) result }
{
    if write_all(out, texts.out.as_slice()) == WriteAnswer::Failed {
        say(err, b"rh: out failed\n");
        return Status::OutputFailed;
    }
    if texts.failed {
        return Status::TaskFailed;
    }
    Status::Done
}

/// Tells on `err` why there are no texts.
fn tell<E: Sink>(alloc: Global, stop: Stop, err: &mut E) -> Status
    ensures { IsToldOf (E.state err.old) (E.state err.new) stop result }
{
    match stop {
        Stop::ProgramRefused(refusal) => {
            tell_refusal(alloc, "program", refusal, Status::ProgramRefused, err)
        }
        Stop::FaultsRefused(refusal) => {
            tell_refusal(alloc, "faults", refusal, Status::FaultsRefused, err)
        }
        Stop::ReadFailed => {
            say(err, b"rh: shelf failed\n");
            Status::StoreFailed
        }
        Stop::OutOfMemory => no_memory(err),
    }
}

/// Tells on `err` of a refused text, and answers its status.
fn tell_refusal<E: Sink>(
    alloc: Global,
    which: &str,
    refusal: Refusal,
    status: Status,
    err: &mut E,
) -> Status
    ensures { IsToldRefusal (E.state err.old) (E.state err.new) which.now (refusal_of refusal) status result }
{
    match print_refusal(alloc, which, refusal) {
        Ok(line) => {
            say(err, line.as_slice());
            status
        }
        Err(OutOfMemory) => no_memory(err),
    }
}

/// Tells on `err` that memory is wanting.
fn no_memory<E: Sink>(err: &mut E) -> Status
    ensures status { result ≡ Status.OutOfMemory }
    ensures said { Says (E.state err.old) (E.state err.new) (codes "rh: out of memory\n") }
{
    say(err, b"rh: out of memory\n");
    Status::OutOfMemory
}

/// Writes a line on `err`. That it cannot be written, or only in part, changes nothing else.
fn say<E: Sink>(err: &mut E, line: &[u8])
    ensures { Says (E.state err.old) (E.state err.new) line.now }
{
    let _ = write_all(err, line);
}

/// The line that tells of a refused text: `which` says what it is.
fn print_refusal(alloc: Global, which: &str, refusal: Refusal) -> Result<Bytes, OutOfMemory>
    ensures { IfOk result (λ line. line ≡ refusal_line which.now (refusal_of refusal)) }
{
    let mut line = Bytes::new(alloc);
    put_refusal(alloc, which, refusal, &mut line)?;
    Ok(line)
}

/// Puts the line that tells of a refused text behind a text.
#[tactic(auto, using(std::proofs::Common::append_assoc), unfolding(crate::specs::Answer::refusal_line))]
fn put_refusal(
    alloc: Global,
    which: &str,
    refusal: Refusal,
    line: &mut Bytes,
) -> Result<(), OutOfMemory>
    ensures { OnOk result (line.new ≡ line.old ++ refusal_line which.now (refusal_of refusal)) }
{
    line.append(b"rh: ")?;
    line.append(which.as_bytes())?;
    print_labelled(alloc, b" line ", u64::from(refusal.line), line)?;
    put_reason(alloc, refusal.reason, line)?;
    Ok(())
}

/// Puts the number and the name of a reason, and the end of the line, behind a text.
#[tactic(auto, using(std::proofs::Common::append_assoc))]
fn put_reason(alloc: Global, reason: Reason, line: &mut Bytes) -> Result<(), OutOfMemory>
    ensures { OnOk result (line.new ≡ line.old ++ (codes " reason " ++ decimal (number_of_reason reason) ++ codes " " ++ name_of_reason reason ++ codes "\n")) }
{
    print_labelled(alloc, b" reason ", u64::from(reason.number()), line)?;
    line.append(b" ")?;
    line.append(reason.name().as_bytes())?;
    line.append(b"\n")?;
    Ok(())
}
