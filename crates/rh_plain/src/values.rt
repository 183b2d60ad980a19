//! The words of promises.

ghost use Rattle.std.specs.Prelude.{◌≡◌, ◌<◌, ◌∷◌, [], None, IfOk, length, unwrap_or, replicate, slice_set};
ghost use Rattle.std.specs.List.{AllByRecursion};
ghost use Rattle.rh_plan.specs.Buffers.{words_put};
ghost use Rattle.rh_plain.specs.Values.{has_words, words_at, AreGiven};

use rh_plan::MadePut;
use rh_words::{OutOfMemory, Words};
use std::alloc::Global;
use std::marker::Model;

/// The words of each promise that has some, by its number.
#[derive(Drop)]
pub(crate) struct Values {
    items: Vec<Option<Words>>,
}

impl Model for Values {
    ghost use Rattle.std.specs.Prelude.{List, Option, ℕ};

    ghost Value = { List (Option (List ℕ)) };

    ghost view = { λ v. v.items.items };
}

impl Values {
    /// So many promises without words.
    pub(crate) fn new(alloc: Global, count: usize) -> Result<Values, OutOfMemory>
        ensures { IfOk result (λ v. v ≡ replicate count None) }
    {
        let mut items = Vec::with_capacity(alloc, count)?;
        for _ in 0..count {
            items.push(None)?;
        }
        Ok(Values { items })
    }

    /// Whether a promise has words.
    pub(crate) fn has(&self, promise: u32) -> bool
        ensures { result ≡ has_words self.now promise }
    {
        match self.items.get(promise as usize) {
            Some(Some(_)) => true,
            _ => false,
        }
    }

    /// The words of a promise, none where it has none.
    pub(crate) fn words(&self, promise: u32) -> &[u64]
        ensures { result.now ≡ unwrap_or (words_at self.now promise) [] }
    {
        match self.items.get(promise as usize) {
            Some(Some(words)) => words.as_slice(),
            _ => &[],
        }
    }

    /// Gives a promise its words, where it has none yet.
    pub(crate) fn give(&mut self, promise: u32, words: Words)
        requires { promise < length self.old }
        ensures { AreGiven (λ q. words_put q ((record { promise = promise; words = words }) ∷ [])) self.old self.new }
    {
        let at = promise as usize;
        if self.items[at].is_none() {
            self.items[at] = Some(words);
        }
    }

    /// Gives the promises what a buffer puts. No words are copied.
    pub(crate) fn give_all(&mut self, puts: Vec<MadePut>)
        requires { AllByRecursion (λ p. p.promise < length self.old) puts.items }
        ensures { AreGiven (λ q. words_put q puts.items) self.old self.new }
    {
        for MadePut { promise, words } in puts {
            self.give(promise, words);
        }
    }

    /// Gives the words of a promise up.
    pub(crate) fn free(&mut self, promise: u32)
        requires { promise < length self.old }
        ensures { self.new ≡ slice_set self.old promise None }
    {
        self.items[promise as usize] = None;
    }

    /// The words by the numbers of promises, without a copy.
    pub(crate) fn into_items(self) -> Vec<Option<Words>>
        ensures { result.items ≡ self }
    {
        self.items
    }
}
