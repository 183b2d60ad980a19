//! What a run leaves.

ghost use Rattle.std.specs.Prelude.{◌≡◌, ◌<◌, ◌≤◌, ◌++◌, ◌∷◌, [], true, false, nat_lt, IsSomeAnd, OnOk, OnErr, length, slice_get};
ghost use Rattle.std.specs.List.{AllByRecursion};
ghost use Rattle.std.specs.List.Sorted.{IsPartitionPoint};
ghost use Rattle.std.specs.Option.{option_copied};
ghost use Rattle.rh_journal.specs.ShownWords.{IsAscending, words_with};

use crate::event::Entry;
use rh_words::{OutOfMemory, Words};
use std::alloc::Global;
use std::marker::Model;

/// A list of entries.
#[derive(Drop)]
pub struct Journal {
    entries: Vec<Entry>,
}

impl Model for Journal {
    ghost use Rattle.std.specs.Prelude.{List};
    ghost use Rattle.rh_journal.specs.declared.event.Entry.{Entry};

    ghost Value = { List Entry };

    ghost view = { λ j. j.entries.items };
}

impl Journal {
    pub fn new(alloc: Global) -> Journal
        ensures { result ≡ [] }
    {
        Journal {
            entries: Vec::new(alloc),
        }
    }

    pub fn push(&mut self, entry: Entry) -> Result<(), OutOfMemory>
        ensures ok { OnOk result (self.new ≡ self.old ++ entry ∷ []) }
        ensures err { OnErr result (self.new ≡ self.old) }
    {
        self.entries.push(entry)?;
        Ok(())
    }

    pub fn entries(&self) -> &[Entry]
        ensures { result.now ≡ self.now }
    {
        self.entries.as_slice()
    }

    /// The journal of these entries. It takes no memory.
    pub fn from_entries(entries: Vec<Entry>) -> Journal
        ensures { result ≡ entries.items }
    {
        Journal { entries }
    }
}

/// Promises by their numbers, with their words, in promise order.
#[derive(Drop)]
pub struct Shown {
    pairs: Vec<(u32, Words)>,
}

impl Model for Shown {
    ghost use Rattle.std.specs.Prelude.{List, ℕ};
    ghost use Rattle.rh_journal.specs.ShownWords.{IsAscending};

    ghost Value = { List (ℕ × List ℕ) };

    ghost view = { λ s. s.pairs.items };

    ghost invariant = { λ s. IsAscending s.pairs.items };
}

impl Shown {
    pub fn new(alloc: Global) -> Shown
        ensures { result ≡ [] }
    {
        Shown {
            pairs: Vec::new(alloc),
        }
    }

    /// Puts a promise above all that are there, with its words.
    pub fn push(&mut self, promise: u32, words: Words) -> Result<(), OutOfMemory>
        requires { AllByRecursion (λ p. p.0 < promise) self.old }
        ensures ok { OnOk result (self.new ≡ self.old ++ (promise, words) ∷ []) }
        ensures err { OnErr result (self.new ≡ self.old) }
    {
        self.pairs.push((promise, words))?;
        Ok(())
    }

    /// The words of a promise, where it is there.
    pub fn get(&self, promise: u32) -> Option<&Words>
        ensures { option_copied result ≡ words_with promise self.now }
    {
        find_words(self.pairs.as_slice(), promise)
    }

    /// These pairs. It takes no memory.
    pub fn from_pairs(pairs: Vec<(u32, Words)>) -> Shown
        requires { IsAscending pairs.items }
        ensures { result ≡ pairs.items }
    {
        Shown { pairs }
    }
}

/// The words of a promise, where it is among those in order.
fn find_words(pairs: &[(u32, Words)], promise: u32) -> Option<&Words>
    requires { IsAscending pairs.now }
    ensures { option_copied result ≡ words_with promise pairs.now }
{
    let at = first_not_below(pairs, promise);
    if at < pairs.len() && pairs[at].0 == promise {
        return Some(&pairs[at].1);
    }
    None
}

/// How many of the promises in order are below this one.
fn first_not_below(pairs: &[(u32, Words)], promise: u32) -> usize
    requires { IsAscending pairs.now }
    ensures within { result ≤ length pairs.now }
    ensures point { IsPartitionPoint (λ p. nat_lt p.0 promise ≡ true) (λ p. nat_lt p.0 promise ≡ false) pairs.now result }
{
    if stands_by_number(pairs, promise) {
        return promise as usize;
    }
    pairs.partition_point(|pair| pair.0 < promise)
}

/// Whether the promise stands at the place of its number, as it does where all below it are there too.
fn stands_by_number(pairs: &[(u32, Words)], promise: u32) -> bool
    ensures { result ≡ true → IsSomeAnd (slice_get pairs.now promise) (λ p. p.0 ≡ promise) }
{
    match pairs.get(promise as usize) {
        Some(pair) => pair.0 == promise,
        None => false,
    }
}

/// The journal of a run, and the words of the promises that the report shows.
#[derive(Drop)]
pub struct Outcome {
    pub journal: Journal,
    pub shown: Shown,
}
