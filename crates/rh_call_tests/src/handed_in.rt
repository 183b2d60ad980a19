//! Checks that a caller hands in, through calls of the program. What each must write was worked out by hand.

use crate::calls::{Outputs, Want, calls_with, strings};
use crate::examples::{GRID, GRID_FAULTS, GRID_REPORT};
use crate::faults::stored_with;
use rh_check::{Checks, NoChecks, StoredCheck, UserSpec, With, all_bytes, sums_to_zero};
use rh_outside::MemShelf;
use rh_schemes::{Gate, OpenGate};
use rh_words::Name;
use std::alloc::Global;
use std::boxed::Box;
use std::test::Fail;

/// A replayed task, whose put must be a byte.
const A_BYTE: &[u8] = b"rhc 1
promise x 1
task a replay 2
let v lit 200
put x v
check user x byte
end
";

/// The first attempt puts 456.
const NO_BYTE: &[u8] = b"rhf 1\nfault a 0 v 0 0x100\n";

const A_BYTE_REPORT: &[u8] = b"rhr 1
task a accepted 1
  attempt 0 refused 0
  attempt 1 accepted
promise x by a attempt 1: 200
total tasks 1 accepted 1 failed 0 skipped 0 puts 1 faults 1 of 1
";

/// A check that no caller hands in.
const AN_ODD_WORD: &[u8] = b"rhc 1
promise x 1
task a replay 2
let v lit 200
put x v
check user x odd
end
";

/// Whether a run of the program in `p` under the faults in `f` answers so with these checks and this gate.
pub fn runs_with<C: Checks, G: Gate>(
    alloc: Global,
    store: &mut MemShelf,
    checks: &C,
    gate: &G,
    want: Want<'_>,
) -> Result<bool, Fail> {
    let words = strings(alloc, &["run", "p", "--faults", "f"])?;
    let mut outputs = Outputs::new(alloc, 4096, 256)?;
    Ok(calls_with(&words, store, &mut outputs, checks, gate, want))
}

/// Whether a program under these faults answers so with these checks.
fn answers_with<C: Checks>(
    alloc: Global,
    program: &[u8],
    faults: &[u8],
    checks: &C,
    want: Want<'_>,
) -> Result<bool, Fail> {
    let mut store = stored_with(alloc, program, faults)?;
    runs_with(alloc, &mut store, checks, &OpenGate, want)
}

fn byte_name() -> Name {
    match Name::read(b"byte") {
        Some(name) => name,
        None => unreachable!(),
    }
}

fn zero_sum_name() -> Name {
    match Name::read(b"zero_sum") {
        Some(name) => name,
        None => unreachable!(),
    }
}

/// Whether a program under a fault answers so where the check `byte` is handed in.
fn answers_with_byte(alloc: Global, program: &[u8], want: Want<'_>) -> Result<bool, Fail> {
    let byte = Box::new(alloc, |words: &[u64]| all_bytes(words))?;
    let checks = With {
        first: StoredCheck::new(byte_name(), UserSpec::Range { lo: 0, hi: 255 }, byte),
        rest: NoChecks,
    };
    answers_with(alloc, program, NO_BYTE, &checks, want)
}

#[test]
fn handed_in_checks_judge_attempts(rt: HostRuntime) -> Result<(), Fail> {
    assert!(rt; answers_with_byte(rt.alloc(), A_BYTE, (0, A_BYTE_REPORT, b""))?);
    let refused = b"rh: program line 6 reason 18 NoCheck\n";
    assert!(rt; answers_with_byte(rt.alloc(), AN_ODD_WORD, (3, b"", refused))?);
    Ok(())
}

/// The two checks, the first at place 0.
fn two(first: StoredCheck, second: StoredCheck) -> With<With<NoChecks>> {
    With {
        first,
        rest: With {
            first: second,
            rest: NoChecks,
        },
    }
}

/// Whether the grid has its report under the checks of the program `rh_tool`.
fn grid_answers(alloc: Global) -> Result<bool, Fail> {
    let byte = Box::new(alloc, |words: &[u64]| all_bytes(words))?;
    let zero_sum = Box::new(alloc, |words: &[u64]| sums_to_zero(words))?;
    let checks = two(
        StoredCheck::new(byte_name(), UserSpec::Range { lo: 0, hi: 255 }, byte),
        StoredCheck::new(zero_sum_name(), UserSpec::Total { sum: 0 }, zero_sum),
    );
    answers_with(alloc, GRID, GRID_FAULTS, &checks, (0, GRID_REPORT, b""))
}

#[test]
fn a_grid_is_stepped_under_handed_in_checks(rt: HostRuntime) -> Result<(), Fail> {
    assert!(rt; grid_answers(rt.alloc())?);
    Ok(())
}
