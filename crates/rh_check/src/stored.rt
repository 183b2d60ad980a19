//! Checks of a caller's own, each kept beside what it asks.

ghost use Rattle.std.specs.Prelude.{◌≡◌, Bool, ◌∷◌};
ghost use Rattle.rh_check.specs.Checks.{user_passes};
ghost use Rattle.rh_check.specs.Users.{countable};

use crate::handed_in::Checks;
use crate::spec::UserSpec;
use rh_words::Name;

/// A closure that answers for words. It may be called from several threads at once.
pub type WordTest = Box<dyn Fn(&[u64]) -> bool + Sync>;

/// A check: its name, what it asks, and a closure that answers it for all words.
#[derive(Drop)]
pub struct StoredCheck {
    name: Name,
    spec: UserSpec,
    test: WordTest,
    ghost callable: { WordTest.IsAlwaysCallable test },
    ghost exact: { (words : _) (yes : Bool) → WordTest.post test words yes → yes ≡ user_passes spec words.now },
}

impl StoredCheck {
    /// The check of this name that asks `spec` and is answered by `test`.
    pub fn new(name: Name, spec: UserSpec, test: WordTest) -> StoredCheck
        requires callable { WordTest.IsAlwaysCallable test }
        requires exact { (words : _) (yes : Bool) → WordTest.post test words yes → yes ≡ user_passes spec words.now }
        ensures name { result.name ≡ name }
        ensures spec { result.spec ≡ spec }
    {
        StoredCheck { name, spec, test }
    }

    /// Whether the words pass.
    pub fn ask(&self, words: &[u64]) -> bool
        ensures { result ≡ user_passes self.now.spec words.now }
    {
        (self.test)(words)
    }
}

/// A check, then those of `rest`.
#[derive(Drop)]
pub struct With<R> {
    pub first: StoredCheck,
    pub rest: R,
}

impl<R: Checks> Checks for With<R> {
    ghost names = { λ c. countable (c.first.name ∷ R.names c.rest) };

    ghost specs = { λ c. countable (c.first.spec ∷ R.specs c.rest) };

    fn count(&self) -> u32 {
        self.rest.count().saturating_add(1)
    }

    fn name(&self, at: u32) -> Name {
        if at == 0 {
            self.first.name
        } else {
            self.rest.name(at - 1)
        }
    }

    fn spec(&self, at: u32) -> UserSpec {
        if at == 0 {
            self.first.spec
        } else {
            self.rest.spec(at - 1)
        }
    }

    fn ask(&self, at: u32, words: &[u64]) -> bool {
        if at == 0 {
            self.first.ask(words)
        } else {
            self.rest.ask(at - 1, words)
        }
    }
}
