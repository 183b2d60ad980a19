//! Reading a fault text.

ghost use Rattle.std.specs.Prelude.{◌≡◌, ◌<◌, ◌≤◌, ◌+◌, ◌-◌, ◌/◌, ◌^◌, ◌∷◌, [], ℕ, List, Some, IfOk, OnOk, length};
ghost use Rattle.rh_words.specs.Text.{lines_of, words_of, is_printable};
ghost use Rattle.rh_words.specs.Places.{agrees, places_reason, FitPlaces};
ghost use Rattle.rh_words.specs.PlaceWalks.{places};
ghost use Rattle.rh_words.specs.Values.{IsAt};
ghost use Rattle.rh_words.specs.Refusals.{OnRefused};
ghost use Rattle.rh_injector.specs.FaultTexts.{first_place, fault_places, said, SaysFault, IsFirstLine, Reads, FirstBad, IsReason, IsLawfulText};
ghost use Rattle.rh_injector.specs.ReaderStates.{AddsLine, IsBegun};

use crate::fault_text::{FaultLine, FaultText};
use rh_words::{
    Fault, Keyword, Line, LineValues, LineWords, Lines, Name, OutOfMemory, Place, PlaceWalk,
    Reason, Refusal, Value, agrees, at_line, header_reason, is_header, says_nothing,
};
use std::alloc::Global;
use std::marker::Model;

/// Reads a fault text.
pub fn read_faults(alloc: Global, bytes: &[u8]) -> Result<FaultText, Fault<Refusal>>
    requires { length bytes.now < 2 ^ 32 - 1 }
    ensures ok { IfOk result (λ text. Reads bytes.now text) }
    ensures refused { OnRefused result (λ refusal. FirstBad bytes.now refusal.line refusal.reason) }
{
    let mut lines = Lines::of(bytes);
    let Some(first) = lines.next() else {
        return Err(Fault::Refused(Refusal {
            line: 1,
            reason: Reason::Header,
        }));
    };
    if !is_header(first.bytes, b"rhf", b"1") {
        return Err(Fault::Refused(Refusal {
            line: 1,
            reason: header_reason(first),
        }));
    }
    read_body(alloc, bytes, lines)
}

/// Reads the lines below the first of a fault text.
fn read_body(alloc: Global, bytes: &[u8], below: Lines<'_>) -> Result<FaultText, Fault<Refusal>>
    requires short { length bytes.now < 2 ^ 32 - 1 }
    requires below { (first : List ℕ) × IsFirstLine first × (lines_of bytes.now ≡ first ∷ below) }
    ensures ok { IfOk result (λ text. Reads bytes.now text) }
    ensures refused { OnRefused result (λ refusal. FirstBad bytes.now refusal.line refusal.reason) }
{
    let mut reader = Reader::with_capacity(alloc, room_for_faults(bytes))?;
    read_lines(bytes, below, &mut reader)?;
    Ok(reader.into_text())
}

/// Reads all lines below the first of a fault text.
fn read_lines(bytes: &[u8], below: Lines<'_>, reader: &mut Reader) -> Result<(), Fault<Refusal>>
    requires short { length bytes.now < 2 ^ 32 - 1 }
    requires begun { IsBegun bytes.now 2 below reader.old }
    ensures ok { OnOk result (Reads bytes.now reader.new) }
    ensures refused { OnRefused result (λ refusal. FirstBad bytes.now refusal.line refusal.reason) }
{
    let mut lines = below;
    let mut number: u32 = 2;
    while let Some(line) = lines.next() {
        if let Err(fault) = reader.line(number, line) {
            return Err(at_line(number, fault));
        }
        number += 1;
    }
    Ok(())
}

/// How many faults to make room for, so that they never move: one for each line feed, and at most one for each 15 bytes,
/// since the line of a fault has no fewer and a line feed between it and the next.
fn room_for_faults(bytes: &[u8]) -> usize
    ensures { result ≤ length bytes.now / 15 + 1 }
{
    let feeds = bytes.iter().filter(|b| **b == b'\n').count();
    feeds.min(bytes.len() / 15) + 1
}

/// The faults of the lines so far.
#[derive(Drop)]
struct Reader {
    faults: Vec<FaultLine>,
    values: LineValues,
}

impl Model for Reader {
    ghost use Rattle.std.specs.Prelude.{List};
    ghost use Rattle.rh_injector.specs.declared.fault_text.FaultLine.{FaultLine};

    ghost Value = { List FaultLine };

    ghost view = { λ r. r.faults.items };
}

impl Reader {
    /// A reader below the first line, with room for so many faults.
    fn with_capacity(alloc: Global, faults: usize) -> Result<Reader, OutOfMemory>
        ensures { IfOk result (λ reader. reader ≡ []) }
    {
        Ok(Reader {
            faults: Vec::with_capacity(alloc, faults)?,
            values: LineValues::new(alloc),
        })
    }

    /// Reads one more line.
    fn line(&mut self, number: u32, line: Line<'_>) -> Result<(), Fault<Reason>>
        requires { line.is_printable ≡ is_printable line.bytes.now }
        ensures ok { OnOk result (AddsLine self.old number line.entry.bytes.now self.new) }
        ensures refused { OnRefused result (λ reason. IsReason line.entry.bytes.now reason) }
    {
        if !line.is_printable {
            return Err(Fault::Refused(Reason::Byte));
        }
        if says_nothing(line.bytes) {
            return Ok(());
        }
        if !begins_fault(line.bytes) {
            return Err(Fault::Refused(Reason::Statement));
        }
        let fault = read_fault(&mut self.values, number, line.bytes)?;
        self.faults.push(fault)?;
        Ok(())
    }

    /// The text of the faults.
    fn into_text(self) -> FaultText
        requires { IsLawfulText self }
        ensures { result ≡ self }
    {
        FaultText::of(self.faults)
    }
}

/// Whether the first word of the line is `fault`.
fn begins_fault(line: &[u8]) -> bool
    ensures { result ≡ agrees first_place (words_of line.now) }
{
    agrees(&[Place::WordPlace(Keyword::FaultWord)], LineWords::of(line))
}

/// Reads the words of the line of a fault.
fn read_fault(values: &mut LineValues, number: u32, line: &[u8]) -> Result<FaultLine, Fault<Reason>>
    ensures ok { IfOk result (λ fault. SaysFault number line.now fault) }
    ensures refused { OnRefused result (λ reason. places_reason fault_places [] [] (words_of line.now) ≡ Some reason) }
{
    let _kept = values.read(fault_places(), FAULT_PLACES.len(), line)?;
    Ok(fault_of(number, values.as_slice()))
}

/// The places of the words of a line.
const FAULT_PLACES: &[Place] = &[
    Place::WordPlace(Keyword::FaultWord),
    Place::NamePlace,
    Place::NumberPlace,
    Place::NamePlace,
    Place::NumberPlace,
    Place::MaskPlace,
];

/// The places of the words of a line, after which it ends.
fn fault_places() -> PlaceWalk
    ensures { result ≡ places fault_places [] [] }
{
    PlaceWalk::of(FAULT_PLACES, &[], &[])
}

/// The fault that these values say.
fn fault_of(line: u32, values: &[Value]) -> FaultLine
    requires { FitPlaces fault_places [] [] values.now }
    ensures said { said result ≡ values.now }
    ensures line { result.line ≡ line }
{
    let [_, task, attempt, local, word, mask] = values else {
        unreachable!();
    };
    FaultLine {
        line,
        task: name_of(task),
        attempt: number_of(attempt),
        local: name_of(local),
        word: number_of(word),
        mask: mask_of(mask),
    }
}

/// The name that the value is.
fn name_of(value: &Value) -> Name
    requires { IsAt Place.NamePlace value.now }
    ensures { value.now ≡ Value.AName result }
{
    let Value::AName(name) = value else {
        unreachable!();
    };
    *name
}

/// The number that the value is.
fn number_of(value: &Value) -> u64
    requires { IsAt Place.NumberPlace value.now }
    ensures { value.now ≡ Value.ANumber result }
{
    let Value::ANumber(number) = value else {
        unreachable!();
    };
    *number
}

/// The mask that the value is.
fn mask_of(value: &Value) -> u64
    requires { IsAt Place.MaskPlace value.now }
    ensures { value.now ≡ Value.AMask result }
{
    let Value::AMask(mask) = value else {
        unreachable!();
    };
    *mask
}
