//! Tasks with correction, through calls of the program. What each must write was worked out by hand.

use crate::examples::{
    CORRECTED, CORRECTED_FAULTS, CORRECTED_REPORT, MISCORRECTED, MISCORRECTED_FAULTS,
    MISCORRECTED_REPORT,
};
use crate::faults::{FaultedRow, all_answer_under, answers_under};
use rh_words::{Bytes, OutOfMemory};
use std::alloc::Global;
use std::test::Fail;

/// Faults in two words of the product.
const TWO_WORDS: &[u8] = b"rhf 1\nfault mul 0 p 0 1\nfault mul 0 p 1 3\n";

const TWO_WORDS_REPORT: &[u8] = b"rhr 1
task init accepted 0
  attempt 0 accepted
task mul failed
  attempt 0 refused 0
promise x by init attempt 0: 5 7
promise y by mul void
total tasks 2 accepted 1 failed 1 skipped 0 puts 1 faults 2 of 2
";

/// What the example writes where its product is checked to be at most 20 as well.
const UP_TO_20_REPORT: &[u8] = b"rhr 1
task init accepted 0
  attempt 0 accepted
task mul failed
  attempt 0 refused 1
promise x by init attempt 0: 5 7
promise y by mul void
total tasks 2 accepted 1 failed 1 skipped 0 puts 1 faults 0 of 0
";

/// One altered word, with the report of a product that is put right but too large.
const ONE_WORD: &[u8] = b"rhf 1\nfault mul 0 p 1 1\n";

const TOO_LARGE_REPORT: &[u8] = b"rhr 1
task init accepted 0
  attempt 0 accepted
task mul failed
  attempt 0 refused 0
promise x by init attempt 0: 5 7
promise y by mul void
total tasks 2 accepted 1 failed 1 skipped 0 puts 1 faults 1 of 1
";

/// The example, whose product has one more check: it is at most `limit`.
fn checked_up_to(alloc: Global, limit: &[u8]) -> Result<Bytes, OutOfMemory> {
    let mut text = Bytes::new(alloc);
    text.append(CORRECTED.strip_suffix(b"end\n").unwrap_or(b""))?;
    text.append(b"check range y 0 ")?;
    text.append(limit)?;
    text.append(b"\nend\n")?;
    Ok(text)
}

/// Limits in the place of programs, faults, and what is answered.
const CHECKED_AGAIN: &[FaultedRow<'static>] = &[
    (b"20", b"rhf 1\n", 1, UP_TO_20_REPORT),
    (b"26", ONE_WORD, 0, CORRECTED_REPORT),
    (b"20", ONE_WORD, 1, TOO_LARGE_REPORT),
];

/// Whether the example with the limit of each row answers as it must.
fn are_checked_again(alloc: Global, rows: &[FaultedRow<'_>]) -> Result<bool, Fail> {
    let mut same = true;
    for (limit, faults, status, report) in rows {
        let program = checked_up_to(alloc, limit)?;
        same = same && answers_under(alloc, program.as_slice(), faults, (*status, report, b""))?;
    }
    Ok(same)
}

#[test]
fn a_corrected_product_is_checked_again(rt: HostRuntime) -> Result<(), Fail> {
    assert!(rt; are_checked_again(rt.alloc(), CHECKED_AGAIN)?);
    Ok(())
}

/// Two matrices and a product of each: a check reads the checksums of its own.
const TWO_MATRICES: &[u8] = b"rhc 1
matrix a 1 2
row 0:1
end
matrix b 2 2
row 1:1
row 0:4 1:1
end
promise x 2
promise y 2
task init plain
let v lit 3 4294967301
put x v
end
task mul abft await x
let p product b x
put y p
check product y b x
end
";

/// The second word counts modulo 2 ^ 32: 5 and 17.
const TWO_MATRICES_REPORT: &[u8] = b"rhr 1
task init accepted 0
  attempt 0 accepted
task mul corrected 0
  attempt 0 corrected 0
promise x by init attempt 0: 3 4294967301
promise y by mul attempt 0: 5 17
total tasks 2 accepted 2 failed 0 skipped 0 puts 2 faults 1 of 1
";

/// One altered word is put right, with the checksums of its own matrix; two are not; words that are altered alike may look like another one.
const PRODUCTS: &[FaultedRow<'static>] = &[
    (CORRECTED, CORRECTED_FAULTS, 0, CORRECTED_REPORT),
    (
        TWO_MATRICES,
        b"rhf 1\nfault mul 0 p 0 0x8000000000000000\n",
        0,
        TWO_MATRICES_REPORT,
    ),
    (CORRECTED, TWO_WORDS, 1, TWO_WORDS_REPORT),
    (MISCORRECTED, MISCORRECTED_FAULTS, 0, MISCORRECTED_REPORT),
];

#[test]
fn one_altered_word_of_a_product_is_put_right(rt: HostRuntime) -> Result<(), Fail> {
    assert!(rt; all_answer_under(rt.alloc(), PRODUCTS)?);
    Ok(())
}
