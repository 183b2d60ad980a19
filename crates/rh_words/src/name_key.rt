//! Keys of names for maps.

ghost use Rattle.std.specs.Prelude.{◌≡◌, ◌≤◌, ◌+◌, length};
ghost use Rattle.rh_words.specs.NameKeys.{key_of, key_word};

use crate::name::Name;

/// A name as four numbers, of eight bytes each with the first the highest, and bytes of 0 behind the name. Equal keys are
/// keys of equal names, and keys are compared faster than names.
#[derive(Clone, Copy, PartialEq, Eq, Hash)]
pub struct NameKey {
    pub first: u64,
    pub second: u64,
    pub third: u64,
    pub fourth: u64,
}

/// The number that eight of the bytes are.
#[tactic(auto, using(crate::proofs::Keys::eight))]
fn key_word(bytes: &[u8], at: usize) -> u64
    requires { at + 8 ≤ length bytes.now }
    ensures { result ≡ key_word bytes.now at }
{
    u64::from_be_bytes([
        bytes[at],
        bytes[at + 1],
        bytes[at + 2],
        bytes[at + 3],
        bytes[at + 4],
        bytes[at + 5],
        bytes[at + 6],
        bytes[at + 7],
    ])
}

/// The key of a name's bytes with those of 0 behind them.
pub(crate) fn key_of_padded(bytes: &[u8]) -> NameKey
    requires { length bytes.now ≡ 32 }
    ensures { result ≡ key_of bytes.now }
{
    NameKey {
        first: key_word(bytes, 0),
        second: key_word(bytes, 8),
        third: key_word(bytes, 16),
        fourth: key_word(bytes, 24),
    }
}
