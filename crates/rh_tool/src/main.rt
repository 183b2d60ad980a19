//! The program `rh_tool`, which runs task programs: `rh_tool run FILE`, or `rh_tool run FILE --faults FILE`.
//! It hands its words, the real files, the two streams and two checks to `top`, and ends with the status that this answers.
#![tactic(auto)]

use rh_check::{Checks, NoChecks, StoredCheck, UserSpec, With, all_bytes, sums_to_zero};
use rh_outside::{FsShelf, Sink, StdSink};
use rh_schemes::OpenGate;
pub use rh_top::{top, want_memory};
use rh_words::Name;
use std::boxed::Box;
use std::env::Env;
use std::io::{ErrorKind, Print};
use std::process::ExitCode;
use std::rt::Files;
use std::{env, io};

fn main(rt: HostRuntime) -> ExitCode {
    let mut err = StdSink::new(rt.stderr());
    let words = match read_words(&rt) {
        Arguments::Read(words) => words,
        // Words that cannot be read are bad words, as no words at all are.
        Arguments::Unreadable => Vec::new(rt.alloc()),
        Arguments::OutOfMemory => return ExitCode::from(want_memory(&mut err)),
    };
    // What `check user P byte` and `check user P zero_sum` ask.
    let Ok(byte) = Box::new(rt.alloc(), |words: &[u64]| all_bytes(words)) else {
        return ExitCode::from(want_memory(&mut err));
    };
    let Ok(zero_sum) = Box::new(rt.alloc(), |words: &[u64]| sums_to_zero(words)) else {
        return ExitCode::from(want_memory(&mut err));
    };
    let checks = With {
        first: StoredCheck::new(byte_name(), UserSpec::Range { lo: 0, hi: 255 }, byte),
        rest: With {
            first: StoredCheck::new(zero_sum_name(), UserSpec::Total { sum: 0 }, zero_sum),
            rest: NoChecks,
        },
    };
    ExitCode::from(answer(&rt, &words, &checks, &mut err))
}

/// Hands the words to `top` with the real files, the output and the checks, and answers its status.
fn answer<R: Files + Print + AllocGlobal, C: Checks, E: Sink>(
    rt: &R,
    words: &[String],
    checks: &C,
    err: &mut E,
) -> u8 {
    let mut files = FsShelf::new(rt);
    let mut out = StdSink::new(io::writer(rt));
    top(
        rt.alloc(),
        words,
        &mut files,
        &mut out,
        err,
        checks,
        &OpenGate,
    )
}

fn byte_name() -> Name {
    match Name::read(b"byte") {
        Some(name) => name,
        None => unreachable!(),
    }
}

fn zero_sum_name() -> Name {
    match Name::read(b"zero_sum") {
        Some(name) => name,
        None => unreachable!(),
    }
}

/// The words after the program's name.
#[derive(Drop)]
enum Arguments {
    Read(Vec<String>),
    /// A word is no UTF-8.
    Unreadable,
    OutOfMemory,
}

fn read_words<R: Env + AllocGlobal>(rt: &R) -> Arguments {
    let args = match env::args(rt) {
        Ok(args) => args,
        Err(error) if error.kind() == ErrorKind::OutOfMemory => return Arguments::OutOfMemory,
        Err(_) => return Arguments::Unreadable,
    };
    let mut words = Vec::new(rt.alloc());
    for word in args.skip(1) {
        if words.push(word).is_err() {
            return Arguments::OutOfMemory;
        }
    }
    Arguments::Read(words)
}
