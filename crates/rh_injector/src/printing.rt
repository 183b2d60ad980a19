//! Printing a fault text.

ghost use Rattle.std.specs.Prelude.{◌≡◌, ◌≤◌, ◌++◌, OnOk, OnErr, length, take};
ghost use Rattle.rh_words.specs.Values.{line_text};
ghost use Rattle.rh_injector.specs.FaultTexts.{said, lines_text, fault_text, as_printed, Reads};

use crate::fault_text::{FaultLine, FaultText};
use crate::laws::printed_fault_texts_read_back;
use rh_words::{Bytes, Keyword, OutOfMemory, Value, print_line};
use std::alloc::Global;

/// Appends the canonical text, which reads as the same faults, the i-th from 0 in line i + 2.
pub fn print_faults(alloc: Global, text: &FaultText, into: &mut Bytes) -> Result<(), OutOfMemory>
    ensures ok { OnOk result (into.new ≡ into.old ++ fault_text text.now) }
    ensures err { OnErr result (into.new ≡ into.old) }
    ensures reads { Reads (fault_text text.now) (as_printed text.now) }
{
    printed_fault_texts_read_back();
    let before = into.as_slice().len();
    let printed = print_text(alloc, text.lines(), into);
    if printed.is_err() {
        into.truncate(before);
    }
    printed
}

/// Appends the header and the lines of the faults.
fn print_text(alloc: Global, faults: &[FaultLine], into: &mut Bytes) -> Result<(), OutOfMemory>
    ensures ok { OnOk result (into.new ≡ into.old ++ fault_text faults.now) }
    ensures err { OnErr result (take (length into.old) into.new ≡ into.old × length into.old ≤ length into.new) }
{
    into.append(b"rhf 1\n")?;
    print_lines(alloc, faults, into)
}

/// Appends the lines of the faults.
fn print_lines(alloc: Global, faults: &[FaultLine], into: &mut Bytes) -> Result<(), OutOfMemory>
    ensures ok { OnOk result (into.new ≡ into.old ++ lines_text faults.now) }
    ensures err { OnErr result (take (length into.old) into.new ≡ into.old × length into.old ≤ length into.new) }
{
    let mut left = faults;
    while let Some((fault, rest)) = left.split_first() {
        print_fault(alloc, fault, into)?;
        into.append(b"\n")?;
        left = rest;
    }
    Ok(())
}

/// Appends the line of a fault.
fn print_fault(alloc: Global, fault: &FaultLine, into: &mut Bytes) -> Result<(), OutOfMemory>
    ensures ok { OnOk result (into.new ≡ into.old ++ line_text (said fault.now)) }
    ensures err { OnErr result (into.new ≡ into.old) }
{
    let values = [
        Value::AWord(Keyword::FaultWord),
        Value::AName(fault.task),
        Value::ANumber(fault.attempt),
        Value::AName(fault.local),
        Value::ANumber(fault.word),
        Value::AMask(fault.mask),
    ];
    print_line(alloc, &values, into)
}
