//! Fault texts and lists of faults, with ample memory.

use rh_injector::{FaultLine, FaultText, Faults, Strike, print_faults, read_faults};
use rh_words::{Bytes, Fault, OutOfMemory};
use std::alloc::Global;
use std::test::Fail;

/// The node, attempt, local, word and mask of some faults, and whether each goes to a place of its own.
const ROWS: [(u32, u32, u32, u32, u64, bool); 7] = [
    (2, 0, 1, 7, 1, true),
    (0, 1, 0, 3, 2, true),
    (2, 0, 1, 2, 4, true),
    (2, 0, 0, 9, 8, true),
    (2, 1, 1, 2, 16, true),
    (0, 1, 0, 3, 32, false),
    (2, 0, 1, 4294967295, 64, true),
];

/// Puts these faults in one after another, and answers whether each was taken as it should be.
fn takes(
    faults: &mut Faults,
    rows: &[(u32, u32, u32, u32, u64, bool)],
) -> Result<bool, OutOfMemory> {
    for (node, attempt, local, word, mask, is_new) in rows {
        let strike = Strike {
            node: *node,
            attempt: *attempt,
            local: *local,
            word: *word,
            mask: *mask,
        };
        if strike.mask == 0 || faults.len() > 100 || faults.insert(strike)? != *is_new {
            return Ok(false);
        }
    }
    Ok(true)
}

/// Whether the faults have these masks, in this order.
fn have(faults: &[Strike], masks: &[u64]) -> bool {
    faults.len() == masks.len()
        && faults
            .iter()
            .zip(masks.iter())
            .all(|(fault, mask)| fault.mask == *mask)
}

/// Whether the faults of the rows are found by their places.
fn finds(faults: &Faults) -> bool {
    faults.len() == 6
        && have(faults.as_slice(), &[2, 8, 4, 1, 64, 16])
        && have(faults.on(2, 0, 1), &[4, 1, 64])
        && have(faults.on(2, 0, 2), &[])
        && have(faults.in_attempt(2, 0), &[8, 4, 1, 64])
        && have(faults.in_attempt(2, 1), &[16])
        && have(faults.in_attempt(0, 0), &[])
}

/// Whether the faults of the rows are taken, and found.
fn takes_and_finds(alloc: Global) -> Result<bool, OutOfMemory> {
    let mut faults = Faults::new(alloc);
    Ok(takes(&mut faults, &ROWS)? && finds(&faults))
}

#[test]
fn faults_are_found_by_their_places(rt: HostRuntime) -> Result<(), Fail> {
    assert!(rt; takes_and_finds(rt.alloc())?);
    Ok(())
}

/// Texts with the line and the number of the reason at which each is refused, or with 0 and 0.
const TEXTS: [(&[u8], u32, u8); 26] = [
    (b"rhf 1\n", 0, 0),
    (b"  rhf   1 \n# a b\n\n  fault a 0 v 0 4  ", 0, 0),
    (
        b"rhf 1\nfault _ 0x0 v 00000000000000000001 0xFFFFFFFFFFFFFFFF\n",
        0,
        0,
    ),
    (b"", 1, 2),
    (b"rhc 1\n", 1, 2),
    (b"rhf 1 1\n", 1, 2),
    (b"#\nrhf 1\n", 1, 2),
    (b"rhf\t1\n", 1, 1),
    (b"rhf 1\n# \x80\n", 2, 1),
    (b"rhf 1\nput a\t", 2, 1),
    (b"rhf 1\nfaults a 0 v 0 4", 2, 3),
    (b"rhf 1\n\nend", 3, 3),
    (b"rhf 1\nput 9 x", 2, 3),
    (b"rhf 1\nfault 9a 0 v 0 4", 2, 4),
    (b"rhf 1\nfault a x 9 0 4", 2, 4),
    (b"rhf 1\nfault a 0 v-1", 2, 4),
    (b"rhf 1\nfault a 18446744073709551616 v 0 4", 2, 5),
    (b"rhf 1\nfault a 0 v 0 0xg 5", 2, 5),
    (b"rhf 1\nfault a -1 v", 2, 5),
    (b"rhf 1\nfault a 0 v 0x00000000000000001 4", 2, 5),
    (b"rhf 1\nfault", 2, 6),
    (b"rhf 1\nfault a 0 v 0", 2, 6),
    (b"rhf 1\nfault a 0 v 0 4 5", 2, 6),
    (b"rhf 1\nfault a 0 v 0 4\nfault a 0 v 0 4\nx", 4, 3),
    (b"rhf 1\nfault a 0 v 0 4\n#\nfault a 0 v", 4, 6),
    (b"rhf 1\r\n", 1, 1),
];

/// Where a text is refused, and the number of the reason.
fn refused_at(alloc: Global, text: &[u8]) -> (u32, u8) {
    if text.len() > 1000 {
        return (0, 98);
    }
    match read_faults(alloc, text) {
        Ok(_) => (0, 0),
        Err(Fault::Refused(refusal)) => (refusal.line, refusal.reason.number()),
        Err(Fault::OutOfMemory) => (0, 99),
    }
}

/// Whether each text is read, or refused as its row says.
fn are_told(alloc: Global, rows: &[(&[u8], u32, u8)]) -> bool {
    for (text, line, reason) in rows {
        if refused_at(alloc, text) != (*line, *reason) {
            return false;
        }
    }
    true
}

#[test]
fn bad_lines_are_told(rt: HostRuntime) {
    assert!(rt; are_told(rt.alloc(), &TEXTS));
}

/// Whether the line names this fault.
fn names(
    fault: &FaultLine,
    line: u32,
    task: &[u8],
    attempt: u64,
    local: &[u8],
    word: u64,
    mask: u64,
) -> bool {
    fault.line == line
        && fault.task.bytes() == task
        && fault.attempt == attempt
        && fault.local.bytes() == local
        && fault.word == word
        && fault.mask == mask
}

/// Whether the text is read as these two faults and is printed so.
fn reads_and_prints(alloc: Global, text: &[u8], printed: &[u8]) -> bool {
    if text.len() > 1000 {
        return false;
    }
    let Ok(read) = read_faults(alloc, text) else {
        return false;
    };
    let [first, second] = read.lines() else {
        return false;
    };
    names(first, 4, b"a", 7, b"v", 15, 0xabc)
        && names(second, 6, b"t_1", 0, b"x", 0, 1)
        && prints(alloc, &read, printed)
}

/// Whether the text is printed as this.
fn prints(alloc: Global, read: &FaultText, printed: &[u8]) -> bool {
    let mut into = Bytes::new(alloc);
    print_faults(alloc, read, &mut into).is_ok() && into.as_slice() == printed
}

#[test]
fn a_text_is_read_and_printed(rt: HostRuntime) {
    let text = b"rhf 1\n\n# two\n fault  a 007 v 0xF 0x0ABC\n#\nfault t_1 0 x 0 1\n";
    let printed = b"rhf 1\nfault a 7 v 15 0xabc\nfault t_1 0 x 0 0x1\n";
    assert!(rt; reads_and_prints(rt.alloc(), text, printed));
}
