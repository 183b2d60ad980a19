//! Calls of the program on files and outputs in memory. What each must write was worked out by hand.

use crate::examples::{
    CHAIN, CHAIN_REPORT, DIAMOND, DIAMOND_REPORT, KERNELS, KERNELS_REPORT, REFUSED,
    REFUSED_MESSAGE, SCOPES, SCOPES_REPORT, SKIPPING, SKIPPING_REPORT, TOTALS, TOTALS_REPORT,
};
use rh_check::{Checks, NoChecks};
use rh_outside::{MemShelf, MemSink, NeverFails, Shelf};
use rh_schemes::{Gate, OpenGate};
use rh_top::{top, want_memory};
use rh_words::OutOfMemory;
use std::alloc::{AllocError, Global};
use std::fmt::Write;
use std::test::Fail;

const EMPTY_REPORT: &[u8] =
    b"rhr 1\ntotal tasks 0 accepted 0 failed 0 skipped 0 puts 0 faults 0 of 0\n";

const TOO_LONG: &[u8] = b"rh: program line 0 reason 9 Limit\n";

/// What a call must answer: its status, and what `out` and `err` must have taken then.
pub type Want<'a> = (u8, &'a [u8], &'a [u8]);

/// The two outputs of a call.
#[derive(Drop)]
pub struct Outputs {
    alloc: Global,
    out: MemSink,
    err: MemSink,
}

impl Outputs {
    pub fn new(alloc: Global, room: usize, err_room: usize) -> Result<Outputs, OutOfMemory> {
        Ok(Outputs {
            alloc,
            out: MemSink::new(alloc, room)?,
            err: MemSink::new(alloc, err_room)?,
        })
    }
}

/// Whether a call answers as it must.
pub fn calls<S: Shelf>(
    words: &[String],
    store: &mut S,
    outputs: &mut Outputs,
    want: Want<'_>,
) -> bool {
    calls_with(words, store, outputs, &NoChecks, &OpenGate, want)
}

/// Whether a call with these handed-in checks and this gate answers as it must.
pub fn calls_with<S: Shelf, C: Checks, G: Gate>(
    words: &[String],
    store: &mut S,
    outputs: &mut Outputs,
    checks: &C,
    gate: &G,
    want: Want<'_>,
) -> bool {
    let (status, out, err) = want;
    let Outputs {
        alloc,
        out: output,
        err: errors,
    } = outputs;
    top(*alloc, words, store, output, errors, checks, gate) == status
        && output.taken() == out
        && errors.taken() == err
}

pub fn strings(alloc: Global, words: &[&str]) -> Result<Vec<String>, Fail> {
    let mut list = Vec::new(alloc);
    for word in words {
        list.push(word.to_string(alloc)?)?;
    }
    Ok(list)
}

/// A store with a file `p` of these bytes.
pub fn stored(alloc: Global, program: &[u8]) -> Result<MemShelf, OutOfMemory> {
    let mut store = MemShelf::new(alloc, 0)?;
    store.hold("p", program)?;
    Ok(store)
}

/// Whether a call of these words, over a store with a file `p` of these bytes, answers as it must and keeps the file.
fn answers_to(
    words: &[String],
    program: &[u8],
    outputs: &mut Outputs,
    want: Want<'_>,
) -> Result<bool, OutOfMemory> {
    let mut store = stored(outputs.alloc, program)?;
    let answered = calls(words, &mut store, outputs, want);
    Ok(answered && store.file("p").unwrap_or(&[]) == program)
}

/// Whether a call of these words, over such a store and outputs with so much room, answers as it must.
fn answers_within(
    alloc: Global,
    words: &[String],
    program: &[u8],
    room: (usize, usize),
    want: Want<'_>,
) -> Result<bool, OutOfMemory> {
    let (out_room, err_room) = room;
    let mut outputs = Outputs::new(alloc, out_room, err_room)?;
    answers_to(words, program, &mut outputs, want)
}

/// Whether the words `run p`, where the file has these bytes, answer as they must.
pub fn answers(alloc: Global, program: &[u8], want: Want<'_>) -> Result<bool, Fail> {
    let words = strings(alloc, &["run", "p"])?;
    Ok(answers_within(alloc, &words, program, (4_194_304, 256), want)?)
}

/// Whether each program answers as it must.
pub fn all_answer(alloc: Global, rows: &[(&[u8], Want<'_>)]) -> Result<bool, Fail> {
    let mut same = true;
    for (program, want) in rows {
        same = same && answers(alloc, program, *want)?;
    }
    Ok(same)
}

/// The examples that need no faults, and the empty program.
const EXAMPLES: &[(&[u8], Want<'static>)] = &[
    (CHAIN, (0, CHAIN_REPORT, b"")),
    (DIAMOND, (0, DIAMOND_REPORT, b"")),
    (TOTALS, (0, TOTALS_REPORT, b"")),
    (KERNELS, (0, KERNELS_REPORT, b"")),
    (SKIPPING, (0, SKIPPING_REPORT, b"")),
    (SCOPES, (0, SCOPES_REPORT, b"")),
    (b"rhc 1", (0, EMPTY_REPORT, b"")),
];

#[test]
fn the_examples_have_their_reports(rt: HostRuntime) -> Result<(), Fail> {
    assert!(rt; all_answer(rt.alloc(), EXAMPLES)?);
    Ok(())
}

/// Programs that are refused, and what `err` takes: of each reason one, and of two on one line the first.
const REFUSED_PROGRAMS: &[(&[u8], &[u8])] = &[
    (REFUSED, REFUSED_MESSAGE),
    (b"rhc 9", b"rh: program line 1 reason 2 Header\n"),
    (b"", b"rh: program line 1 reason 2 Header\n"),
    (b"rhc", b"rh: program line 1 reason 2 Header\n"),
    (b"rhc 1\r\n", b"rh: program line 1 reason 1 Byte\n"),
    (
        b"rhc 1\npromise\tx 1\n",
        b"rh: program line 2 reason 1 Byte\n",
    ),
    (
        b"rhc 1\nlet x lit 1\n",
        b"rh: program line 2 reason 3 Statement\n",
    ),
    (
        b"rhc 1\npromise 9 1\n",
        b"rh: program line 2 reason 4 Name\n",
    ),
    (
        b"rhc 1\npromise x y\n",
        b"rh: program line 2 reason 5 Number\n",
    ),
    (
        b"rhc 1\npromise x\n",
        b"rh: program line 2 reason 6 Count\n",
    ),
    (
        b"rhc 1\ntask a plain\n",
        b"rh: program line 3 reason 7 EndMissing\n",
    ),
    (
        b"rhc 1\npromise x 3\npromise y 3\ntask a",
        b"rh: program line 4 reason 6 Count\n",
    ),
    (
        b"rhc 1\npromise x 3\npromise y 3\ntask a plain",
        b"rh: program line 5 reason 7 EndMissing\n",
    ),
    (
        b"rhc 1\ntask a plain\nlet 9 sums a\n",
        b"rh: program line 3 reason 3 Statement\n",
    ),
    (b"rhc 1\nend\n", b"rh: program line 2 reason 8 EndExtra\n"),
    (
        b"rhc 1\npromise x 4097\n",
        b"rh: program line 2 reason 9 Limit\n",
    ),
    (
        b"rhc 1\nmatrix m 1 1\nrow 0:1\nend\ntask a abft\nend\n",
        b"rh: program line 6 reason 15 Scheme\n",
    ),
    (
        b"rhc 1\npromise x 1\n\ntask x plain\nend\n",
        b"rh: program line 4 reason 10 Twice\n",
    ),
    (
        b"rhc 1\ntask a plain\nlet v sum u\nend\n",
        b"rh: program line 3 reason 11 Unknown\n",
    ),
    (
        b"rhc 1\npromise x 1\ntask b plain await x\nend\ntask a plain\nlet v lit 1\nput x v\nend\n",
        b"rh: program line 3 reason 12 Order\n",
    ),
    (
        b"rhc 1\npromise x 1\ntask a plain\nlet v lit 1\nput x v\nend\ntask b plain\nlet v lit 2\nput x v\nend\n",
        b"rh: program line 9 reason 13 Owner\n",
    ),
    (
        b"rhc 1\npromise x 2\ntask a plain\nlet v lit 1\nput x v\nend\n",
        b"rh: program line 5 reason 14 Length\n",
    ),
    (
        b"rhc 1\npromise x 1\ntask a plain\ndrop x\nend\n",
        b"rh: program line 4 reason 16 Dropped\n",
    ),
    (
        b"rhc 1\ntask a plain\nlet v gen 4096 0 9\nlet w join v v\nend\n",
        b"rh: program line 4 reason 17 Limit\n",
    ),
    (
        b"rhc 1\npromise x 1\ntask a replay 1\nlet v lit 1\nput x v\ncheck user x nobody\nend\n",
        b"rh: program line 6 reason 18 NoCheck\n",
    ),
    (
        b"rhc 1\npromise x 1\ntask a plain\nlet v lit 1\nlet v sum u\nend\n",
        b"rh: program line 5 reason 10 Twice\n",
    ),
];

/// Whether each program is refused with its message.
fn are_refused(alloc: Global, rows: &[(&[u8], &[u8])]) -> Result<bool, Fail> {
    let mut same = true;
    for (program, message) in rows {
        same = same && answers(alloc, program, (3, b"", message))?;
    }
    Ok(same)
}

#[test]
fn bad_programs_are_refused(rt: HostRuntime) -> Result<(), Fail> {
    assert!(rt; are_refused(rt.alloc(), REFUSED_PROGRAMS)?);
    Ok(())
}

/// A program of so many bytes, most of them a comment.
fn long_program(alloc: Global, len: usize) -> Result<Vec<u8>, AllocError> {
    let mut program = Vec::from_slice(alloc, b"rhc 1\n")?;
    for _ in program.len()..len {
        program.push(b'#')?;
    }
    Ok(program)
}

/// Whether a program of so many bytes answers as it must.
fn answers_length(alloc: Global, len: usize, want: Want<'_>) -> Result<bool, Fail> {
    let program = long_program(alloc, len)?;
    answers(alloc, program.as_slice(), want)
}

#[test]
fn long_programs_are_refused(rt: HostRuntime) -> Result<(), Fail> {
    assert!(rt; answers_length(rt.alloc(), 4_194_304, (0, EMPTY_REPORT, b""))?);
    assert!(rt; answers_length(rt.alloc(), 4_194_305, (3, b"", TOO_LONG))?);
    Ok(())
}

/// Whether these words are refused, over a store with a lawful program `p`.
fn are_bad(alloc: Global, words: &[&str]) -> Result<bool, Fail> {
    let words = strings(alloc, words)?;
    let want: Want<'_> = (2, b"", b"rh: bad words\n");
    Ok(answers_within(alloc, &words, CHAIN, (256, 256), want)?)
}

/// Words that give no command.
const BAD_WORDS: &[&[&str]] = &[
    &[],
    &["run"],
    &["p"],
    &["run", ""],
    &["run", "-"],
    &["run", "-p"],
    &["run", "--", "p"],
    &["run", "p", "q"],
    &["run", "p", "--faults"],
    &["run", "p", "--faults", ""],
    &["run", "p", "--faults", "-p"],
    &["run", "p", "--faults=p"],
    &["run", "p", "--fault", "p"],
    &["run", "--faults", "p", "p"],
    &["--faults", "p", "run", "p"],
    &["run", "p", "--faults", "p", "q"],
    &["run", "p", "--faults", "p", "--faults", "p"],
    &["Run", "p"],
    &["runs", "p"],
    &["p", "run"],
];

/// Whether the words of each row are refused.
fn all_are_bad(alloc: Global, rows: &[&[&str]]) -> Result<bool, Fail> {
    let mut bad = true;
    for words in rows {
        bad = bad && are_bad(alloc, words)?;
    }
    Ok(bad)
}

#[test]
fn bad_words_are_refused(rt: HostRuntime) -> Result<(), Fail> {
    assert!(rt; all_are_bad(rt.alloc(), BAD_WORDS)?);
    Ok(())
}

/// Whether a call of `run p` on the store answers as it must.
fn runs_on<S: Shelf>(alloc: Global, store: &mut S, want: Want<'_>) -> Result<bool, Fail> {
    let words = strings(alloc, &["run", "p"])?;
    let mut outputs = Outputs::new(alloc, 4096, 256)?;
    Ok(calls(&words, store, &mut outputs, want))
}

/// What a call answers where its file cannot be read.
const UNREAD: Want<'static> = (5, b"", b"rh: shelf failed\n");

/// Whether a call on an empty store answers that it was not read.
fn misses(alloc: Global) -> Result<bool, Fail> {
    let mut store = MemShelf::new(alloc, 0)?;
    runs_on(alloc, &mut store, UNREAD)
}

#[test]
fn a_file_that_is_not_there_cannot_be_read(rt: HostRuntime) -> Result<(), Fail> {
    assert!(rt; misses(rt.alloc())?);
    Ok(())
}

/// Whether, of three calls on the store, the second fails at its read.
fn second_fails(alloc: Global, store: &mut MemShelf) -> Result<bool, Fail> {
    let first = runs_on(alloc, store, (0, CHAIN_REPORT, b""))?;
    let second = runs_on(alloc, store, UNREAD)?;
    let third = runs_on(alloc, store, (0, CHAIN_REPORT, b""))?;
    Ok(first && second && third)
}

/// Each call reads its file once, so that the second read is that of the second call.
fn fails_once(alloc: Global) -> Result<bool, Fail> {
    let mut store = stored(alloc, CHAIN)?;
    store.fail_call(1)?;
    second_fails(alloc, &mut store)
}

#[test]
fn a_failed_read_has_a_status(rt: HostRuntime) -> Result<(), Fail> {
    assert!(rt; fails_once(rt.alloc())?);
    Ok(())
}

/// Whether a call on a store that never fails has the report of the chain.
fn never_fails(alloc: Global) -> Result<bool, Fail> {
    let mut store = NeverFails::new(alloc);
    store.hold("p", CHAIN)?;
    runs_on(alloc, &mut store, (0, CHAIN_REPORT, b""))
}

#[test]
fn nothing_fails_where_nothing_can(rt: HostRuntime) -> Result<(), Fail> {
    assert!(rt; never_fails(rt.alloc())?);
    Ok(())
}

/// Whether a run of the empty program, with so much room on the two outputs, answers as it must.
fn breaks_off(alloc: Global, room: usize, err_room: usize, want: Want<'_>) -> Result<bool, Fail> {
    let words = strings(alloc, &["run", "p"])?;
    Ok(answers_within(alloc, &words, b"rhc 1\n", (room, err_room), want)?)
}

/// The room on the two outputs, and what is answered: at once, in the middle of the report, and where the message cannot be written, or
/// only in part.
const FAILED_WRITES: &[(usize, usize, Want<'static>)] = &[
    (0, 256, (6, b"", b"rh: out failed\n")),
    (10, 256, (6, b"rhr 1\ntota", b"rh: out failed\n")),
    (10, 0, (6, b"rhr 1\ntota", b"")),
    (10, 8, (6, b"rhr 1\ntota", b"rh: out ")),
];

/// Whether a run with the room of each row answers as it must.
fn all_break_off(alloc: Global, rows: &[(usize, usize, Want<'_>)]) -> Result<bool, Fail> {
    let mut same = true;
    for (room, err_room, want) in rows {
        same = same && breaks_off(alloc, *room, *err_room, *want)?;
    }
    Ok(same)
}

#[test]
fn failed_writes_have_a_status(rt: HostRuntime) -> Result<(), Fail> {
    assert!(rt; all_break_off(rt.alloc(), FAILED_WRITES)?);
    Ok(())
}

#[test]
fn want_of_memory_is_told(rt: HostRuntime) -> Result<(), Fail> {
    let mut err = MemSink::new(rt.alloc(), 256)?;
    assert!(rt; want_memory(&mut err) == 7 && err.taken() == b"rh: out of memory\n".as_slice());
    Ok(())
}

/// As many tasks as a program may have, and one promise for each.
const TASKS: u32 = 16_384;

/// What declares a promise, before and behind its number.
const PROMISE: [&str; 2] = ["promise p", " 64\n"];

/// A task that puts 64 words, so that all promises have as many words as a report may show.
const TASK: [&str; 3] = [
    "task t",
    " plain\nlet v lit 1 2 3 4 5 6 7 8 9 0 1 2 3 4 5 6 7 8 9 0 1 2 3 4 5 6 7 8 9 0 1 2 3 4 5 6 7 8 9 0 1 2 3 4 5 6 7 8 9 0 1 2 3 4 5 6 7 8 9 0 1 2 3 4\nput p",
    " v\nend\n",
];

const TASK_LINES: [&str; 2] = ["task t", " accepted 0\n  attempt 0 accepted\n"];

const PROMISE_LINE: [&str; 3] = [
    "promise p",
    " by t",
    " attempt 0: 1 2 3 4 5 6 7 8 9 0 1 2 3 4 5 6 7 8 9 0 1 2 3 4 5 6 7 8 9 0 1 2 3 4 5 6 7 8 9 0 1 2 3 4 5 6 7 8 9 0 1 2 3 4 5 6 7 8 9 0 1 2 3 4\n",
];

const LARGEST_TOTAL: &str =
    "total tasks 16384 accepted 16384 failed 0 skipped 0 puts 16384 faults 0 of 0\n";

/// Adds the parts once for each task, with the task's number between each two.
fn add_lines(text: &mut String, parts: &[&str]) -> Result<(), AllocError> {
    for task in 0..TASKS {
        for (at, part) in parts.iter().enumerate() {
            if at > 0 {
                write!(text, "{task}")?;
            }
            text.push_str(part)?;
        }
    }
    Ok(())
}

/// A first line, two kinds of lines for each task, and a last line.
fn largest(
    alloc: Global,
    first: &str,
    one: &[&str],
    other: &[&str],
    last: &str,
) -> Result<String, AllocError> {
    let mut text = String::from_str(alloc, first)?;
    add_lines(&mut text, one)?;
    add_lines(&mut text, other)?;
    text.push_str(last)?;
    Ok(text)
}

/// Whether the program has the report of the largest.
fn has_largest_report(alloc: Global, program: &[u8]) -> Result<bool, Fail> {
    let report = largest(alloc, "rhr 1\n", &TASK_LINES, &PROMISE_LINE, LARGEST_TOTAL)?;
    answers(alloc, program, (0, report.as_bytes(), b""))
}

/// Whether the largest program has its report.
fn runs_largest(alloc: Global) -> Result<bool, Fail> {
    let program = largest(alloc, "rhc 1\n", &PROMISE, &TASK, "")?;
    has_largest_report(alloc, program.as_bytes())
}

#[test]
fn the_largest_program_has_its_report(rt: HostRuntime) -> Result<(), Fail> {
    assert!(rt; runs_largest(rt.alloc())?);
    Ok(())
}
