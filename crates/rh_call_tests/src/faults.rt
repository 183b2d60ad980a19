//! Calls of the program under injected faults. What each must write was worked out by hand.

use crate::calls::{Outputs, Want, calls, stored, strings};
use crate::examples::{CHAIN, CHAIN_REPORT, SKIPPING};
use rh_outside::MemShelf;
use rh_words::OutOfMemory;
use std::alloc::{AllocError, Global};
use std::test::Fail;

/// A store with a program `p` and a fault file `f`.
pub fn stored_with(alloc: Global, program: &[u8], faults: &[u8]) -> Result<MemShelf, OutOfMemory> {
    let mut store = stored(alloc, program)?;
    store.hold("f", faults)?;
    Ok(store)
}

/// Whether a run of the program in `p` under the faults in `f`, with so much room on the output, answers as it must.
pub fn runs_under(
    alloc: Global,
    store: &mut MemShelf,
    room: usize,
    want: Want<'_>,
) -> Result<bool, Fail> {
    let words = strings(alloc, &["run", "p", "--faults", "f"])?;
    let mut outputs = Outputs::new(alloc, room, 256)?;
    Ok(calls(&words, store, &mut outputs, want))
}

/// Whether a program under these faults answers as it must, and both files are kept.
pub fn answers_under(
    alloc: Global,
    program: &[u8],
    faults: &[u8],
    want: Want<'_>,
) -> Result<bool, Fail> {
    let mut store = stored_with(alloc, program, faults)?;
    let answered = runs_under(alloc, &mut store, 4096, want)?;
    Ok(answered && keeps(&store, program, faults))
}

/// Whether the store has the program and the fault file as before.
fn keeps(store: &MemShelf, program: &[u8], faults: &[u8]) -> bool {
    store.file("p").unwrap_or(&[]) == program && store.file("f").unwrap_or(&[]) == faults
}

/// A program, its faults, and what is answered: the status, and what `out` takes.
pub type FaultedRow<'a> = (&'a [u8], &'a [u8], u8, &'a [u8]);

/// Whether the program of each row answers as it must under its faults.
pub fn all_answer_under(alloc: Global, rows: &[FaultedRow<'_>]) -> Result<bool, Fail> {
    let mut same = true;
    for (program, faults, status, report) in rows {
        same = same && answers_under(alloc, program, faults, (*status, report, b""))?;
    }
    Ok(same)
}

/// Whether each fault file is refused with its message under the program.
pub fn are_refused_under(
    alloc: Global,
    program: &[u8],
    rows: &[(&[u8], &[u8])],
) -> Result<bool, Fail> {
    let mut same = true;
    for (faults, message) in rows {
        same = same && answers_under(alloc, program, faults, (4, b"", message))?;
    }
    Ok(same)
}

/// What a plain task puts under faults: a local is changed after it is made, and the copy of an awaited promise as the task begins.
const FAULTED_PLAIN_TASKS: &[FaultedRow<'static>] = &[
    (CHAIN, b"rhf 1\n", 0, CHAIN_REPORT),
    (
        CHAIN,
        b"rhf 1\nfault a 0 v 0 4\n",
        0,
        b"rhr 1
task a accepted 0
  attempt 0 accepted
task b accepted 0
  attempt 0 accepted
promise x by a attempt 0: 5 2 3
promise y by b attempt 0: 10 4 6
total tasks 2 accepted 2 failed 0 skipped 0 puts 2 faults 1 of 1
",
    ),
    (
        CHAIN,
        b"rhf 1\nfault b 0 w 2 0x8000000000000000\nfault b 0 x 1 1\n",
        0,
        b"rhr 1
task a accepted 0
  attempt 0 accepted
task b accepted 0
  attempt 0 accepted
promise x by a attempt 0: 1 2 3
promise y by b attempt 0: 2 6 9223372036854775814
total tasks 2 accepted 2 failed 0 skipped 0 puts 2 faults 2 of 2
",
    ),
    (
        SKIPPING,
        b"rhf 1\nfault measure 0 over 0 1\nfault react 0 alarm 0 6\n",
        0,
        b"rhr 1
task measure accepted 0
  attempt 0 accepted
task react accepted 0
  attempt 0 accepted
task log accepted 0
  attempt 0 accepted
promise load by measure attempt 0: 3 4
promise alarm by measure attempt 0: 1
promise answer by react attempt 0: 7
promise note by log attempt 0 temp
total tasks 3 accepted 3 failed 0 skipped 0 puts 4 faults 2 of 2
",
    ),
    (
        SKIPPING,
        b"rhf 1\nfault react 0 load 0 1\n",
        0,
        b"rhr 1
task measure accepted 0
  attempt 0 accepted
task react skipped by alarm
task log accepted 0
  attempt 0 accepted
promise load by measure attempt 0: 3 4
promise alarm by measure void
promise answer by react void
promise note by log attempt 0 temp
total tasks 3 accepted 2 failed 0 skipped 1 puts 2 faults 0 of 1
",
    ),
];

#[test]
fn faults_change_what_plain_tasks_put(rt: HostRuntime) -> Result<(), Fail> {
    assert!(rt; all_answer_under(rt.alloc(), FAULTED_PLAIN_TASKS)?);
    Ok(())
}

/// Fault files that are refused under the chain, and what `err` takes: of each reason one, of two on one line the first, and of two
/// lines the first.
const REFUSED_FAULTS: &[(&[u8], &[u8])] = &[
    (
        b"rhf 1\nfault a 0 v\t0 1\n",
        b"rh: faults line 2 reason 1 Byte\n",
    ),
    (b"", b"rh: faults line 1 reason 2 Header\n"),
    (b"rhc 1\n", b"rh: faults line 1 reason 2 Header\n"),
    (b"rhf 1\nend\n", b"rh: faults line 2 reason 3 Statement\n"),
    (
        b"rhf 1\nfault 9 0 v 0 1\n",
        b"rh: faults line 2 reason 4 Name\n",
    ),
    (
        b"rhf 1\nfault a x v 0 1\n",
        b"rh: faults line 2 reason 5 Number\n",
    ),
    (
        b"rhf 1\nfault a 0 v 0\n",
        b"rh: faults line 2 reason 6 Count\n",
    ),
    (
        b"rhf 1\n\nfault c 1 w 3 0\n",
        b"rh: faults line 3 reason 20 UnknownTask\n",
    ),
    (
        b"rhf 1\nfault x 0 v 0 1\n",
        b"rh: faults line 2 reason 20 UnknownTask\n",
    ),
    (
        b"rhf 1\nfault a 1 w 3 0\n",
        b"rh: faults line 2 reason 21 Attempt\n",
    ),
    (
        b"rhf 1\nfault a 0 w 3 0\n",
        b"rh: faults line 2 reason 22 Local\n",
    ),
    (
        b"rhf 1\nfault b 0 y 3 0\n",
        b"rh: faults line 2 reason 22 Local\n",
    ),
    (
        b"rhf 1\nfault a 0 v 3 0\n",
        b"rh: faults line 2 reason 23 Word\n",
    ),
    (
        b"rhf 1\nfault b 0 x 4294967296 1\n",
        b"rh: faults line 2 reason 23 Word\n",
    ),
    (
        b"rhf 1\nfault a 0 v 0 0\n",
        b"rh: faults line 2 reason 24 ZeroMask\n",
    ),
    (
        b"rhf 1\nfault a 0 v 2 4\nfault a 0 v 1 4\nfault a 0 v 2 4\nfault c 0 v 0 1\n",
        b"rh: faults line 4 reason 25 Twice\n",
    ),
];

#[test]
fn bad_faults_are_refused(rt: HostRuntime) -> Result<(), Fail> {
    assert!(rt; are_refused_under(rt.alloc(), CHAIN, REFUSED_FAULTS)?);
    Ok(())
}

/// A fault text of so many bytes without faults.
fn long_faults(alloc: Global, len: usize) -> Result<Vec<u8>, AllocError> {
    let mut faults = Vec::from_slice(alloc, b"rhf 1\n")?;
    for _ in faults.len()..len {
        faults.push(b'\n')?;
    }
    Ok(faults)
}

/// Whether the chain under a fault text of so many bytes answers as it must.
fn answers_length(alloc: Global, len: usize, want: Want<'_>) -> Result<bool, Fail> {
    let faults = long_faults(alloc, len)?;
    answers_under(alloc, CHAIN, faults.as_slice(), want)
}

#[test]
fn long_fault_files_are_refused(rt: HostRuntime) -> Result<(), Fail> {
    let alloc = rt.alloc();
    let message = b"rh: faults line 0 reason 9 Limit\n";
    assert!(rt; answers_length(alloc, 1_048_576, (0, CHAIN_REPORT, b""))?);
    assert!(rt; answers_length(alloc, 1_048_577, (4, b"", message))?);
    Ok(())
}

/// A store with a program, with a fault file where it has bytes, and of which the call of this number fails.
fn failing(
    alloc: Global,
    program: &[u8],
    faults: &[u8],
    call: u32,
) -> Result<MemShelf, OutOfMemory> {
    let mut store = stored(alloc, program)?;
    if !faults.is_empty() {
        store.hold("f", faults)?;
    }
    store.fail_call(call)?;
    Ok(store)
}

/// Whether a run over such a store answers as it must.
fn answers_failing(
    alloc: Global,
    program: &[u8],
    faults: &[u8],
    call: u32,
    want: Want<'_>,
) -> Result<bool, Fail> {
    let mut store = failing(alloc, program, faults, call)?;
    runs_under(alloc, &mut store, 4096, want)
}

/// What a call answers where a file cannot be read, and where its program is refused.
const UNREAD: Want<'static> = (5, b"", b"rh: shelf failed\n");

const REFUSED: Want<'static> = (3, b"", b"rh: program line 1 reason 2 Header\n");

/// A row of the next table.
type FailingRow<'a> = (&'a [u8], &'a [u8], u32, Want<'a>);

/// Programs, fault files (none where there are no bytes), the number of the call on the store that fails, and what must be answered.
/// Each call reads the program and then the faults, once each: a program that is refused leaves the fault file unread.
const FAILING_READS: &[FailingRow<'static>] = &[
    (CHAIN, b"", 9, UNREAD),
    (CHAIN, b"rhf 1\n", 0, UNREAD),
    (CHAIN, b"rhf 1\n", 1, UNREAD),
    (CHAIN, b"rhf 1\n", 2, (0, CHAIN_REPORT, b"")),
    (b"rhc 9\n", b"", 9, REFUSED),
    (b"rhc 9\n", b"rhf 1\n", 1, REFUSED),
];

/// Whether the run of each row answers as it must.
fn all_answer_failing(alloc: Global, rows: &[FailingRow<'_>]) -> Result<bool, Fail> {
    let mut same = true;
    for (program, faults, call, want) in rows {
        same = same && answers_failing(alloc, program, faults, *call, *want)?;
    }
    Ok(same)
}

#[test]
fn the_faults_are_read_after_the_program(rt: HostRuntime) -> Result<(), Fail> {
    assert!(rt; all_answer_failing(rt.alloc(), FAILING_READS)?);
    Ok(())
}
