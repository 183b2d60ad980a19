//! The vote over the buffers of a replicated task's attempts.

ghost use Rattle.std.specs.Prelude.{◌≡◌};
ghost use Rattle.std.specs.Option.{option_copied};
ghost use Rattle.rh_schemes.specs.Voting.{voted, third_vote};

use crate::ballot::Vote;
use rh_attempt::Buffer;

/// The vote over two buffers, or over three.
pub fn vote(a: &Buffer, b: &Buffer, c: Option<&Buffer>) -> Vote
    ensures { result ≡ voted a.now b.now (option_copied c.entry) }
{
    if a.same(b) {
        return Vote::Kept { attempt: 0 };
    }
    match c {
        None => Vote::More,
        Some(c) => third_vote(a, b, c),
    }
}

/// The vote of a third buffer, where the first two differ.
fn third_vote(a: &Buffer, b: &Buffer, c: &Buffer) -> Vote
    ensures { result ≡ third_vote a.now b.now c.now }
{
    if a.same(c) {
        Vote::Kept { attempt: 0 }
    } else if b.same(c) {
        Vote::Kept { attempt: 1 }
    } else {
        Vote::Split
    }
}
