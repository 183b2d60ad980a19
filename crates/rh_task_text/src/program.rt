//! Reading a program text.

ghost use Rattle.std.specs.Prelude.{◌≡◌, ◌∷◌, ◌<◌, ◌≤◌, ◌-◌, ◌/◌, ◌^◌, ℕ, List, IfOk, OnOk, length};
ghost use Rattle.rh_words.specs.Refusals.{OnRefused};
ghost use Rattle.rh_words.specs.Text.{lines_of};
ghost use Rattle.rh_task_text.specs.Program.{IsFirstLine, Reads, FirstBad, version_text};
ghost use Rattle.rh_task_text.specs.ReaderStates.{IsBegun};

use crate::reader::Reader;
use crate::text::Text;
use rh_words::{Fault, Lines, Reason, Refusal, at_line, header_reason, is_header};
use std::alloc::Global;

/// Reads a program text.
pub fn read_program(alloc: Global, bytes: &[u8]) -> Result<Text, Fault<Refusal>>
    requires { length bytes.now < 2 ^ 32 - 1 }
    ensures ok { IfOk result (λ text. Reads bytes.now text) }
    ensures refused { OnRefused result (λ refusal. FirstBad bytes.now refusal.line refusal.reason) }
{
    let mut lines = Lines::of(bytes);
    let Some(first) = lines.next() else {
        return Err(Fault::Refused(Refusal {
            line: 1,
            reason: Reason::Header,
        }));
    };
    if !is_header(first.bytes, b"rhc", b"1") {
        return Err(Fault::Refused(Refusal {
            line: 1,
            reason: header_reason(first),
        }));
    }
    read_body(alloc, bytes, lines)
}

/// Reads the lines below the first of a program text.
fn read_body(alloc: Global, bytes: &[u8], below: Lines<'_>) -> Result<Text, Fault<Refusal>>
    requires short { length bytes.now < 2 ^ 32 - 1 }
    requires below { (first : List ℕ) × IsFirstLine first × (lines_of bytes.now ≡ first ∷ below) }
    ensures ok { IfOk result (λ text. Reads bytes.now text) }
    ensures refused { OnRefused result (λ refusal. FirstBad bytes.now refusal.line refusal.reason) }
{
    let mut reader = Reader::with_capacity(alloc, room_for_items(bytes))?;
    read_lines(alloc, bytes, below, &mut reader)?;
    Ok(reader.into_text())
}

/// Reads all lines below the first of a program text.
fn read_lines(
    alloc: Global,
    bytes: &[u8],
    below: Lines<'_>,
    reader: &mut Reader,
) -> Result<(), Fault<Refusal>>
    requires short { length bytes.now < 2 ^ 32 - 1 }
    requires begun { IsBegun bytes.now 2 below reader.old }
    ensures ok { OnOk result (Reads bytes.now (version_text 1 reader.new)) }
    ensures refused { OnRefused result (λ refusal. FirstBad bytes.now refusal.line refusal.reason) }
{
    let mut lines = below;
    let mut number: u32 = 2;
    while let Some(line) = lines.next() {
        if let Err(fault) = reader.line(alloc, number, line) {
            return Err(at_line(number, fault));
        }
        number += 1;
    }
    if !reader.is_closed() {
        return Err(Fault::Refused(Refusal {
            line: number,
            reason: Reason::EndMissing,
        }));
    }
    Ok(())
}

/// How many items to make room for: one for each line feed, and at most one for each four bytes, since no statement is shorter
/// than `end` with its line feed. So the items never move; how much room there is, is a matter of time and memory alone.
fn room_for_items(bytes: &[u8]) -> usize
    ensures { result ≤ length bytes.now / 4 }
{
    line_feeds(bytes).min(bytes.len() / 4)
}

/// How many line feeds there are.
fn line_feeds(bytes: &[u8]) -> usize {
    let mut feeds: usize = 0;
    let mut left = bytes;
    while left.len() >= PIECE {
        feeds = feeds.wrapping_add(usize::from(line_feeds_in(&left[..PIECE])));
        left = &left[PIECE..];
    }
    feeds.wrapping_add(usize::from(line_feeds_in(left)))
}

/// The length of pieces that are counted as a whole. A byte holds their count.
const PIECE: usize = 240;

/// How many line feeds a short piece has.
fn line_feeds_in(piece: &[u8]) -> u8 {
    let mut feeds: u8 = 0;
    for byte in piece {
        feeds = feeds.wrapping_add(u8::from(*byte == b'\n'));
    }
    feeds
}
