//! Printing what words say.

ghost use Rattle.std.specs.Prelude.{◌≡◌, ◌++◌, ◌≤◌, OnOk, OnErr, length, take};
ghost use Rattle.rh_words.specs.Values.{word_text, rest_text, line_text};

use crate::keyword::keyword_text;
use crate::lists::Bytes;
use crate::number::{print_hex, print_number};
use crate::reason::OutOfMemory;
use crate::value::Value;
use std::alloc::Global;

/// Appends the words that say these values, with a space between each two and no line feed.
pub fn print_line(alloc: Global, values: &[Value], into: &mut Bytes) -> Result<(), OutOfMemory>
    ensures ok { OnOk result (into.new ≡ into.old ++ line_text values.now) }
    ensures err { OnErr result (into.new ≡ into.old) }
{
    let before = into.as_slice().len();
    let printed = print_words(alloc, values, into);
    if printed.is_err() {
        into.truncate(before);
    }
    printed
}

/// Appends the words of these values, with a space between each two.
fn print_words(alloc: Global, values: &[Value], into: &mut Bytes) -> Result<(), OutOfMemory>
    ensures ok { OnOk result (into.new ≡ into.old ++ line_text values.now) }
    ensures err { OnErr result (take (length into.old) into.new ≡ into.old × length into.old ≤ length into.new) }
{
    let Some((first, rest)) = values.split_first() else {
        return Ok(());
    };
    print_word(alloc, first, into)?;
    print_rest(alloc, rest, into)
}

/// Appends the words of these values, each after a space.
fn print_rest(alloc: Global, values: &[Value], into: &mut Bytes) -> Result<(), OutOfMemory>
    ensures ok { OnOk result (into.new ≡ into.old ++ rest_text values.now) }
    ensures err { OnErr result (take (length into.old) into.new ≡ into.old × length into.old ≤ length into.new) }
{
    let mut left = values;
    while let Some((value, rest)) = left.split_first() {
        into.append(b" ")?;
        print_word(alloc, value, into)?;
        left = rest;
    }
    Ok(())
}

/// Appends the word of a value.
fn print_word(alloc: Global, value: &Value, into: &mut Bytes) -> Result<(), OutOfMemory>
    ensures ok { OnOk result (into.new ≡ into.old ++ word_text value.now) }
    ensures err { OnErr result (take (length into.old) into.new ≡ into.old × length into.old ≤ length into.new) }
{
    match value {
        Value::AWord(keyword) => into.append(keyword_text(*keyword)),
        Value::AName(name) => into.append(name.bytes()),
        Value::ANumber(number) => print_number(alloc, into, *number),
        Value::AMask(number) => print_hex(alloc, into, *number),
        Value::APair(first, second) => {
            print_number(alloc, into, *first)?;
            into.append(b":")?;
            print_number(alloc, into, *second)
        }
    }
}
