//! Checks of a caller's own, stored and asked.

ghost use Rattle.std.specs.Prelude.{◌≡◌};
ghost use Rattle.rh_check.specs.declared.spec.UserSpec.TheVariants as asks;
ghost use Rattle.rh_check.specs.Checks.{user_passes};

use crate::check::{are_within, passes_at};
use rh_check::{Checks, NoChecks, StoredCheck, UserSpec, With, all_bytes, sums_to_zero};
use rh_words::Name;
use std::alloc::{AllocError, Global};
use std::boxed::Box;
use std::test::Fail;

/// The name that these bytes spell; `_` where they spell none.
fn named(bytes: &[u8]) -> Name {
    match Name::read(bytes) {
        Some(name) => name,
        None => NoChecks.name(0),
    }
}

/// The two checks, the first at place 0.
fn two(first: StoredCheck, second: StoredCheck) -> With<With<NoChecks>> {
    With {
        first,
        rest: With {
            first: second,
            rest: NoChecks,
        },
    }
}

/// A check of this name that each word is a byte.
#[tactic(auto, unfolding(rh_check::specs::Checks::user_passes))]
fn byte_check(alloc: Global) -> Result<StoredCheck, AllocError> {
    let test = Box::new(
        alloc,
        |words: &[u64]| -> bool
            ensures { result ≡ user_passes (asks.Range 0 255) words.now }
        { all_bytes(words) },
    )?;
    Ok(StoredCheck::new(named(b"byte"), UserSpec::Range { lo: 0, hi: 255 }, test))
}

/// A check that the words sum to 0.
#[tactic(auto, unfolding(rh_check::specs::Checks::user_passes))]
fn zero_sum_check(alloc: Global) -> Result<StoredCheck, AllocError> {
    let test = Box::new(
        alloc,
        |words: &[u64]| -> bool
            ensures { result ≡ user_passes (asks.Total 0) words.now }
        { sums_to_zero(words) },
    )?;
    Ok(StoredCheck::new(named(b"zero_sum"), UserSpec::Total { sum: 0 }, test))
}

/// A check that each word is from `lo` to `hi`: its closure owns two numbers, and its written promise is what the spec says.
#[tactic(auto, unfolding(rh_check::specs::Checks::user_passes))]
fn range_check(alloc: Global, name: &[u8], lo: u64, hi: u64) -> Result<StoredCheck, AllocError> {
    let test = Box::new(
        alloc,
        move |words: &[u64]| -> bool
            ensures { result ≡ user_passes (asks.Range lo hi) words.now }
        { are_within(lo, hi, words) },
    )?;
    Ok(StoredCheck::new(named(name), UserSpec::Range { lo, hi }, test))
}

/// A check of this name that each word is from 7 to 120, as the pages show it.
#[tactic(auto, unfolding(rh_check::specs::Checks::user_passes))]
fn small_check(alloc: Global, name: Name) -> Result<StoredCheck, AllocError> {
    let limit = 120;
    let test = Box::new(
        alloc,
        move |words: &[u64]| -> bool
            ensures { result ≡ user_passes (asks.Range 7 limit) words.now }
        { words.iter().all(|word| 7 <= *word && *word <= limit) },
    )?;
    Ok(StoredCheck::new(name, UserSpec::Range { lo: 7, hi: limit }, test))
}

/// Whether each word is a byte, and whether they sum to 0.
fn bytes_and_sums(alloc: Global) -> Result<With<With<NoChecks>>, AllocError> {
    Ok(two(byte_check(alloc)?, zero_sum_check(alloc)?))
}

/// Whether each word is from 1 to 2, and from 2 to 3, under one name.
fn two_ranges(alloc: Global) -> Result<With<With<NoChecks>>, AllocError> {
    Ok(two(
        range_check(alloc, b"same", 1, 2)?,
        range_check(alloc, b"same", 2, 3)?,
    ))
}

/// Words, and whether the checks at the places 0 and 1 pass them.
type Row<'a> = (&'a [u64], bool, bool);

/// Whether the checks at the places 0 and 1, as far as there are any, pass the rows' words where the row says so.
fn pass<C: Checks>(alloc: Global, checks: &C, rows: &[Row<'_>]) -> bool {
    let mut same = true;
    for (words, first, second) in rows {
        same = same
            && passes_at(alloc, checks, 0, words) == *first
            && passes_at(alloc, checks, 1, words) == *second;
    }
    same
}

/// Whether there are two checks, of these names, that pass the rows' words where the row says so.
fn are_asked<C: Checks>(alloc: Global, checks: &C, names: [&[u8]; 2], rows: &[Row<'_>]) -> bool {
    have_names(checks, names) && pass(alloc, checks, rows)
}

/// Whether there are two checks, of these names.
fn have_names<C: Checks>(checks: &C, names: [&[u8]; 2]) -> bool {
    let [first, second] = names;
    checks.count() == 2 && checks.name(0).bytes() == first && checks.name(1).bytes() == second
}

/// Words with whether each is a byte, and whether they sum to 0.
const BYTES_AND_SUMS: &[Row<'static>] = &[
    (&[], true, true),
    (&[255, 0], true, false),
    (&[256], false, false),
    (&[1, u64::MAX], false, true),
    (&[85, 170, 256], false, false),
    (&[0, 0], true, true),
];

#[test]
fn two_stored_checks_are_asked(rt: HostRuntime) -> Result<(), Fail> {
    let checks = bytes_and_sums(rt.alloc())?;
    assert!(rt; are_asked(rt.alloc(), &checks, [b"byte", b"zero_sum"], BYTES_AND_SUMS));
    Ok(())
}

/// Words with whether each is from 7 to 120. There is no check at place 1.
const SMALL: &[Row<'static>] = &[
    (&[7, 120], true, false),
    (&[], true, false),
    (&[6], false, false),
    (&[121], false, false),
    (&[50, 500, 50], false, false),
    (&[50], true, false),
];

#[test]
fn a_check_of_ones_own_is_asked(rt: HostRuntime) -> Result<(), Fail> {
    let checks = With {
        first: small_check(rt.alloc(), named(b"small"))?,
        rest: NoChecks,
    };
    assert!(rt; pass(rt.alloc(), &checks, SMALL));
    Ok(())
}

/// Whether the checks at the places 0 and 1 ask for words from 1 to 2 and from 2 to 3.
fn ask_for_ranges<C: Checks>(checks: &C) -> bool {
    checks.count() == 2
        && checks.spec(0) == UserSpec::Range { lo: 1, hi: 2 }
        && checks.spec(1) == UserSpec::Range { lo: 2, hi: 3 }
}

/// Words with whether they are from 1 to 2, and from 2 to 3.
const RANGES: &[Row<'static>] = &[(&[1], true, false), (&[3], false, true)];

/// Whether both are asked by place, each for its range.
fn stand_side_by_side<C: Checks>(alloc: Global, checks: &C) -> bool {
    are_asked(alloc, checks, [b"same", b"same"], RANGES) && ask_for_ranges(checks)
}

/// Two checks may have one name: each stands at its place, and is asked there.
#[test]
fn checks_of_one_name_stand_side_by_side(rt: HostRuntime) -> Result<(), Fail> {
    let checks = two_ranges(rt.alloc())?;
    assert!(rt; stand_side_by_side(rt.alloc(), &checks));
    Ok(())
}
