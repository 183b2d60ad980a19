//! A local of an attempt.

ghost use Rattle.std.specs.Prelude.{◌≡◌, IfOk};

use rh_words::{OutOfMemory, Words};
use std::alloc::Global;
use std::marker::Model;

/// The words of a local: those of an awaited promise, read where they are kept, or words of its own.
#[derive(Drop)]
pub(crate) struct Local<'a> {
    awaited: &'a [u64],
    own: Option<Words>,
}

impl<'a> Model for Local<'a> {
    ghost use Rattle.std.specs.Prelude.{ℕ, List, unwrap_or};

    ghost Value = { List ℕ };

    ghost view = { λ l. unwrap_or l.own l.awaited.now };
}

impl<'a> Local<'a> {
    /// The words of an awaited promise, which are not copied.
    pub(crate) fn awaited(words: &'a [u64]) -> Local<'a>
        ensures { result ≡ words.now }
    {
        Local {
            awaited: words,
            own: None,
        }
    }

    /// Words of its own.
    pub(crate) fn own(words: Words) -> Local<'a>
        ensures { result ≡ words }
    {
        Local {
            awaited: &[],
            own: Some(words),
        }
    }

    pub(crate) fn words(&self) -> &[u64]
        ensures { result.now ≡ self.now }
    {
        match &self.own {
            Some(words) => words.as_slice(),
            None => self.awaited,
        }
    }

    /// The words, which the local has no more where they were its own.
    pub(crate) fn give_words(&mut self, alloc: Global) -> Result<Words, OutOfMemory>
        ensures { IfOk result (λ w. w ≡ self.old) }
    {
        match self.own.take() {
            Some(words) => Ok(words),
            None => Words::from_slice(alloc, self.awaited),
        }
    }
}
