//! Checks that a caller hands in.

ghost use Rattle.std.specs.Prelude.{◌≡◌, ℕ, List, length};
ghost use Rattle.rh_check.specs.declared.spec.UserSpec.{UserSpec as UserSpecData};
ghost use Rattle.rh_check.specs.Users.{AnswersSpec, IsAt};

use crate::spec::UserSpec;
use rh_words::Name;

/// Handed-in checks by their places, from 0. What a call says of a place holds where there is a check at that place.
pub trait Checks {
    /// Their names.
    ghost names: { Self → List (List ℕ) };

    /// What they ask.
    ghost specs: { Self → List UserSpecData };

    /// How many there are.
    fn count(&self) -> u32
        ensures names { result ≡ length (names self.now) }
        ensures specs { result ≡ length (specs self.now) };

    /// The name of the check at a place.
    fn name(&self, at: u32) -> Name
        ensures { IsAt (names self.now) at result };

    /// What the check at a place asks.
    fn spec(&self, at: u32) -> UserSpec
        ensures { IsAt (specs self.now) at result };

    /// Whether the check at a place accepts the words.
    fn ask(&self, at: u32, words: &[u64]) -> bool
        ensures { AnswersSpec (specs self.now) at words.now result };
}

/// No checks.
#[derive(Drop)]
pub struct NoChecks;

impl Checks for NoChecks {
    ghost use Rattle.std.specs.Prelude.{[]};

    ghost names = { λ c. [] };

    ghost specs = { λ c. [] };

    fn count(&self) -> u32 {
        0
    }

    fn name(&self, _at: u32) -> Name {
        no_name()
    }

    fn spec(&self, _at: u32) -> UserSpec {
        UserSpec::Total { sum: 0 }
    }

    fn ask(&self, _at: u32, _words: &[u64]) -> bool {
        false
    }
}

/// A name for a place without a check.
fn no_name() -> Name {
    match Name::read(b"_") {
        Some(name) => name,
        None => unreachable!(),
    }
}
