//! The programs of the folder `examples`, read and printed.

use crate::examples::{
    CHAIN, CORRECTED, COUNTING, DIAMOND, EQUAL_FAULTS, GRID, HEAT, KERNELS, MISCORRECTED,
    OVER_BUDGET, PASSING_FAULTS, REPLAYED, REPLICATED, SCOPES, SKIPPED_FAULT, SKIPPING,
};
use rh_task_text::{print_program, read_program};
use rh_words::{Bytes, OutOfMemory};
use std::alloc::Global;
use std::test::Fail;

/// The lines of the text that say something, without the spaces before them.
fn plain_lines(alloc: Global, text: &[u8]) -> Result<Bytes, OutOfMemory> {
    let mut plain = Bytes::new(alloc);
    for line in text.split(|byte| *byte == b'\n') {
        let line = line.trim_ascii_start();
        if !line.is_empty() && line[0] != b'#' {
            plain.append(line)?;
            plain.append(b"\n")?;
        }
    }
    Ok(plain)
}

/// The text, read and printed.
fn printed(alloc: Global, text: &[u8]) -> Option<Bytes> {
    if text.len() > 1_000_000 {
        return None;
    }
    let read = read_program(alloc, text).ok()?;
    let mut into = Bytes::new(alloc);
    print_program(alloc, &read, &mut into).ok()?;
    Some(into)
}

/// Whether each text is printed as its own lines.
fn print_themselves(alloc: Global, texts: &[&[u8]]) -> Result<bool, OutOfMemory> {
    let mut same = true;
    for text in texts {
        let plain = plain_lines(alloc, text)?;
        let Some(printed) = printed(alloc, text) else {
            return Ok(false);
        };
        same = same && printed.as_slice() == plain.as_slice();
    }
    Ok(same)
}

/// The examples whose numbers are decimal.
const DECIMAL: &[&[u8]] = &[
    CHAIN,
    DIAMOND,
    KERNELS,
    SKIPPING,
    SCOPES,
    COUNTING,
    REPLICATED,
    REPLAYED,
    OVER_BUDGET,
    HEAT,
    CORRECTED,
    MISCORRECTED,
    GRID,
    EQUAL_FAULTS,
    PASSING_FAULTS,
    SKIPPED_FAULT,
];

#[test]
fn the_examples_are_printed_line_by_line(rt: HostRuntime) -> Result<(), Fail> {
    assert!(rt; print_themselves(rt.alloc(), DECIMAL)?);
    Ok(())
}
