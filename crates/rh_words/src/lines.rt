//! The lines of a text and the words of a line.

ghost use Rattle.std.specs.Prelude.{◌≡◌, ◌≢◌, ◌↔◌, ℕ, List, ◌+◌, ◌<◌, ◌≤◌, ◌∷◌, [], IsTrue, IfSome, MatchOption, length, take, drop, slice_index, slice_range, true, false, if◌then◌else◌};
ghost use Rattle.rh_words.specs.Text.{lines_of, words_of, is_printable, is_printable_byte, SaysNothing, IsHeader};
ghost use Rattle.rh_words.specs.Positions.{IsBlankFrom, IsFirstWord};

use crate::reason::Reason;
use std::marker::Model;

/// The place of the first line feed at or after `from`, else the length.
pub fn line_end(bytes: &[u8], from: usize) -> usize
    requires { from ≤ length bytes.now }
    ensures within { from ≤ result × result ≤ length bytes.now }
    ensures before { (k : ℕ) → from ≤ k → k < result → slice_index bytes.now k ≢ 10 }
    ensures found { result < length bytes.now → slice_index bytes.now result ≡ 10 }
    ensures line { from < length bytes.now →
        lines_of (drop from bytes.now) ≡ slice_range bytes.now from result ∷ lines_of (drop (result + 1) bytes.now) }
{
    for at in from..bytes.len() {
        if bytes[at] == b'\n' {
            return at;
        }
    }
    bytes.len()
}

/// The bounds of the first word that the part of the line from `from` on has.
pub fn word_at(line: &[u8], from: usize) -> Option<(usize, usize)>
    requires { from ≤ length line.now }
    ensures places { MatchOption result (IsBlankFrom line.now from) (λ word. IsFirstWord line.now from word.0 word.1) }
    ensures words { MatchOption result (words_of (drop from line.now) ≡ [])
        (λ word. words_of (drop from line.now) ≡ slice_range line.now word.0 word.1 ∷ words_of (drop word.1 line.now)) }
{
    let start = skip_spaces(line, from);
    if start == line.len() {
        return None;
    }
    Some((start, word_end(line, start)))
}

/// The place of the first byte at or after `from` that is no space, else the length.
fn skip_spaces(line: &[u8], from: usize) -> usize
    requires { from ≤ length line.now }
    ensures within { from ≤ result × result ≤ length line.now }
    ensures blank { (k : ℕ) → from ≤ k → k < result → slice_index line.now k ≡ 32 }
    ensures found { result < length line.now → slice_index line.now result ≢ 32 }
    ensures words { words_of (drop from line.now) ≡ words_of (drop result line.now) }
{
    for at in from..line.len() {
        if line[at] != b' ' {
            return at;
        }
    }
    line.len()
}

/// The end of the word that begins at `from`.
fn word_end(line: &[u8], from: usize) -> usize
    requires in_line { from < length line.now }
    requires begins { slice_index line.now from ≢ 32 }
    ensures within { from < result × result ≤ length line.now }
    ensures solid { (k : ℕ) → from ≤ k → k < result → slice_index line.now k ≢ 32 }
    ensures ended { result < length line.now → slice_index line.now result ≡ 32 }
    ensures words { words_of (drop from line.now) ≡ slice_range line.now from result ∷ words_of (drop result line.now) }
{
    for at in from..line.len() {
        if line[at] == b' ' {
            return at;
        }
    }
    line.len()
}

/// A line of a text, without its line feed.
#[derive(Clone, Copy)]
pub struct Line<'a> {
    /// Its bytes.
    pub bytes: &'a [u8],
    /// Whether none of them is outside 0x20 to 0x7E.
    pub is_printable: bool,
}

/// The end of the first line, and whether its bytes are printable.
#[inline(always)]
fn first_line(bytes: &[u8]) -> (usize, bool)
    requires { 0 < length bytes.now }
    ensures within { result.0 ≤ length bytes.now }
    ensures line { lines_of bytes.now ≡ take result.0 bytes.now ∷ lines_of (drop (result.0 + 1) bytes.now) }
    ensures printable { result.1 ≡ is_printable (take result.0 bytes.now) }
{
    let end = printable_end(bytes);
    if end < bytes.len() && bytes[end] != b'\n' {
        (line_end(bytes, end), false)
    } else {
        (end, true)
    }
}

/// The place of the first byte that is not printable, else the length.
fn printable_end(bytes: &[u8]) -> usize
    ensures within { result ≤ length bytes.now }
    ensures printable { is_printable (take result bytes.now) ≡ true }
    ensures found { result < length bytes.now → is_printable_byte (slice_index bytes.now result) ≡ false }
{
    let wide = printable_pieces(bytes);
    let half = past_piece(bytes, wide, 8);
    for at in past_piece(bytes, half, 4)..bytes.len() {
        if !is_printable_byte(bytes[at]) {
            return at;
        }
    }
    bytes.len()
}

/// The length of pieces that are looked at as a whole.
const PIECE: usize = 16;

/// Where the first piece begins that has a byte that is not printable, or that is no whole piece.
fn printable_pieces(bytes: &[u8]) -> usize
    ensures within { result ≤ length bytes.now }
    ensures printable { is_printable (take result bytes.now) ≡ true }
{
    let mut at = 0;
    while bytes.len() - at >= PIECE {
        if !is_printable(&bytes[at..at + PIECE]) {
            return at;
        }
        at += PIECE;
    }
    at
}

/// The end of the piece of this length at this place, where it is whole and printable, else its place.
#[inline(always)]
fn past_piece(bytes: &[u8], at: usize, piece: usize) -> usize
    requires within { at ≤ length bytes.now }
    requires printable { is_printable (take at bytes.now) ≡ true }
    ensures within { result ≤ length bytes.now }
    ensures printable { is_printable (take result bytes.now) ≡ true }
{
    if bytes.len() - at >= piece && is_printable(&bytes[at..at + piece]) {
        at + piece
    } else {
        at
    }
}

/// Whether all bytes are printable. No byte ends the loop, so that many are looked at in one step.
fn is_printable(bytes: &[u8]) -> bool
    ensures { result ≡ is_printable bytes.now }
{
    let mut all = true;
    for byte in bytes {
        all = all & is_printable_byte(*byte);
    }
    all
}

fn is_printable_byte(byte: u8) -> bool
    ensures { result ≡ is_printable_byte byte }
{
    0x20 <= byte && byte <= 0x7E
}

/// The lines of a text that are left.
#[derive(Drop)]
pub struct Lines<'a> {
    rest: &'a [u8],
}

impl<'a> Model for Lines<'a> {
    ghost use Rattle.std.specs.Prelude.{ℕ, List};
    ghost use Rattle.rh_words.specs.Text.{lines_of};

    ghost Value = { List (List ℕ) };

    ghost view = { λ l. lines_of l.rest.now };
}

impl<'a> Lines<'a> {
    /// The lines of the text.
    pub fn of(text: &'a [u8]) -> Lines<'a>
        ensures { result ≡ lines_of text.now }
    {
        Lines { rest: text }
    }

    /// The next line.
    #[inline(always)]
    pub fn next(&mut self) -> Option<Line<'a>>
        ensures line { MatchOption result ((self.old ≡ []) × (self.new ≡ [])) (λ line. self.old ≡ line.bytes.now ∷ self.new) }
        ensures printable { IfSome result (λ line. line.is_printable ≡ is_printable line.bytes.now) }
    {
        if self.rest.is_empty() {
            return None;
        }
        let (end, is_printable) = first_line(self.rest);
        let bytes = &self.rest[..end];
        self.rest = if end < self.rest.len() {
            &self.rest[end + 1..]
        } else {
            &[]
        };
        Some(Line {
            bytes,
            is_printable,
        })
    }
}

/// The words of a line that are left.
#[derive(Drop)]
pub struct LineWords<'a> {
    rest: &'a [u8],
}

impl<'a> Model for LineWords<'a> {
    ghost use Rattle.std.specs.Prelude.{ℕ, List};
    ghost use Rattle.rh_words.specs.Text.{words_of};

    ghost Value = { List (List ℕ) };

    ghost view = { λ l. words_of l.rest.now };
}

impl<'a> LineWords<'a> {
    /// The words of the line.
    pub fn of(line: &'a [u8]) -> LineWords<'a>
        ensures { result ≡ words_of line.now }
    {
        LineWords { rest: line }
    }

    /// The next word.
    pub fn next(&mut self) -> Option<&'a [u8]>
        ensures { MatchOption result ((self.old ≡ []) × (self.new ≡ [])) (λ word. self.old ≡ word.now ∷ self.new) }
    {
        let (start, end) = word_at(self.rest, 0)?;
        let word = &self.rest[start..end];
        self.rest = &self.rest[end..];
        Some(word)
    }
}

/// Whether the line has no words, or its first makes it a comment.
pub fn says_nothing(line: &[u8]) -> bool
    ensures { IsTrue result ↔ SaysNothing (words_of line.now) }
{
    let start = skip_spaces(line, 0);
    start == line.len() || line[start] == b'#'
}

/// Whether the two words of the line are this format and this version.
pub fn is_header(line: &[u8], format: &[u8], version: &[u8]) -> bool
    ensures { IsTrue result ↔ IsHeader format.now version.now line.now }
{
    let mut words = LineWords::of(line);
    let (Some(first), Some(second), None) = (words.next(), words.next(), words.next()) else {
        return false;
    };
    first == format && second == version
}

/// Why this line is not the first of a text of its format.
pub fn header_reason(line: Line<'_>) -> Reason
    requires { line.is_printable ≡ is_printable line.bytes.now }
    ensures { result ≡ (if is_printable line.entry.bytes.now then Reason.Header else Reason.Byte) }
{
    if line.is_printable {
        Reason::Header
    } else {
        Reason::Byte
    }
}
