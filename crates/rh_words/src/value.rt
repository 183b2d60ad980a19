//! What one word of a line says, and what is wanted in its place.

ghost use Rattle.std.specs.Prelude.{◌≡◌, ◌==◌, position};
ghost use Rattle.rh_words.specs.Values.{pair_of};

use crate::keyword::Keyword;
use crate::name::Name;
use crate::number::read_number;

/// What stands in a place of a line.
#[derive(Clone, Copy)]
pub enum Place {
    /// This keyword.
    WordPlace(Keyword),
    /// A name.
    NamePlace,
    /// A number, which is printed in decimal.
    NumberPlace,
    /// A number whose bits matter, which is printed in hexadecimal.
    MaskPlace,
    /// Two numbers joined by one `:`.
    PairPlace,
}

/// What one word says.
#[derive(Clone, Copy)]
pub enum Value {
    AWord(Keyword),
    AName(Name),
    ANumber(u64),
    AMask(u64),
    APair(u64, u64),
}

/// The two numbers that are joined by one `:`, or nothing where the word is no such pair.
pub fn read_pair(word: &[u8]) -> Option<(u64, u64)>
    ensures { result ≡ pair_of word.now }
{
    let at = colon(word)?;
    let first = read_number(&word[..at]).ok()?;
    let second = read_number(&word[at + 1..]).ok()?;
    Some((first, second))
}

/// Where the first `:` is.
fn colon(word: &[u8]) -> Option<usize>
    ensures { result ≡ position (λ b. b == 58) word.now }
{
    word.iter().position(|b| *b == b':')
}
