//! Printing a program text.

ghost use Rattle.std.specs.Prelude.{◌≡◌, ◌≤◌, ◌++◌, OnOk, OnErr, length, take};
ghost use Rattle.rh_words.specs.Values.{line_text};
ghost use Rattle.rh_task_text.specs.Statements.{said};
ghost use Rattle.rh_task_text.specs.Program.{Reads};
ghost use Rattle.rh_task_text.specs.Printing.{items_text, items_program, program_text, as_printed};

use crate::laws::printed_texts_read_back;
use crate::statement::{Item, Statement};
use crate::text::Text;
use crate::values::values_of;
use rh_words::{Bytes, OutOfMemory, print_line};
use std::alloc::Global;

/// Appends the canonical text, which reads as the same version and statements, the i-th from 0 at line i + 2.
pub fn print_program(alloc: Global, text: &Text, into: &mut Bytes) -> Result<(), OutOfMemory>
    ensures ok { OnOk result (into.new ≡ into.old ++ program_text text.now) }
    ensures err { OnErr result (into.new ≡ into.old) }
    ensures reads { Reads (program_text text.now) (as_printed text.now) }
{
    printed_texts_read_back();
    let before = into.as_slice().len();
    let printed = print_text(alloc, text.items(), into);
    if printed.is_err() {
        into.truncate(before);
    }
    printed
}

/// Appends the header and the lines of the items.
fn print_text(alloc: Global, items: &[Item], into: &mut Bytes) -> Result<(), OutOfMemory>
    ensures ok { OnOk result (into.new ≡ into.old ++ items_program items.now) }
    ensures err { OnErr result (take (length into.old) into.new ≡ into.old × length into.old ≤ length into.new) }
{
    into.append(b"rhc 1\n")?;
    print_items(alloc, items, into)
}

/// Appends the lines of the items.
fn print_items(alloc: Global, items: &[Item], into: &mut Bytes) -> Result<(), OutOfMemory>
    ensures ok { OnOk result (into.new ≡ into.old ++ items_text items.now) }
    ensures err { OnErr result (take (length into.old) into.new ≡ into.old × length into.old ≤ length into.new) }
{
    let mut left = items;
    while let Some((item, rest)) = left.split_first() {
        print_statement(alloc, &item.statement, into)?;
        into.append(b"\n")?;
        left = rest;
    }
    Ok(())
}

/// Appends the line of a statement.
fn print_statement(
    alloc: Global,
    statement: &Statement,
    into: &mut Bytes,
) -> Result<(), OutOfMemory>
    ensures ok { OnOk result (into.new ≡ into.old ++ line_text (said statement.now)) }
    ensures err { OnErr result (into.new ≡ into.old) }
{
    let values = values_of(alloc, statement)?;
    print_line(alloc, values.as_slice(), into)
}
