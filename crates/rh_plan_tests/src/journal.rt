//! Journals and shown words by hand.

ghost use Rattle.std.specs.Prelude.{◌≡◌, ◌<◌, ◌++◌, ◌∷◌, [], OnOk};
ghost use Rattle.std.specs.List.{AllByRecursion};

use rh_journal::{Entry, Event, Journal, Shown};
use rh_words::{OutOfMemory, Words};
use std::alloc::Global;
use std::test::Fail;

const CLAIM: Entry = Entry {
    number: 0,
    worker: 0,
    event: Event::Claim { node: 7 },
};

const PUT: Entry = Entry {
    number: 1,
    worker: 2,
    event: Event::Put {
        promise: 3,
        attempt: 1,
    },
};

/// Promises 2, 5 and 9 with a word each.
fn shown(alloc: Global) -> Result<Shown, OutOfMemory> {
    let mut shown = Shown::new(alloc);
    show(alloc, &mut shown, 2, 20)?;
    show(alloc, &mut shown, 5, 50)?;
    show(alloc, &mut shown, 9, 90)?;
    Ok(shown)
}

/// Shows a promise above the others with one word.
fn show(alloc: Global, shown: &mut Shown, promise: u32, word: u64) -> Result<(), OutOfMemory>
    requires { AllByRecursion (λ p. p.0 < promise) shown.old }
    ensures { OnOk result (shown.new ≡ shown.old ++ (promise, word ∷ []) ∷ []) }
{
    shown.push(promise, Words::from_slice(alloc, &[word])?)
}

/// Whether a promise has this word, or none.
fn has(shown: &Shown, promise: u32, word: Option<u64>) -> bool {
    match (shown.get(promise), word) {
        (Some(words), Some(word)) => words.as_slice() == [word].as_slice(),
        (None, None) => true,
        _ => false,
    }
}

/// Whether two entries stand in the order in which they came.
fn keeps_entries(alloc: Global) -> Result<bool, OutOfMemory> {
    let mut journal = Journal::new(alloc);
    journal.push(CLAIM)?;
    journal.push(PUT)?;
    Ok(journal.entries() == [CLAIM, PUT].as_slice())
}

#[test]
fn a_journal_has_its_entries_in_order(rt: HostRuntime) -> Result<(), Fail> {
    assert!(rt; keeps_entries(rt.alloc())?);
    Ok(())
}

/// Whether a journal has the entries that it is made of.
fn is_made_of_entries(alloc: Global) -> Result<bool, OutOfMemory> {
    let entries = Vec::from_slice(alloc, &[CLAIM, PUT])?;
    let journal = Journal::from_entries(entries);
    Ok(journal.entries() == [CLAIM, PUT].as_slice())
}

#[test]
fn a_journal_is_made_of_entries(rt: HostRuntime) -> Result<(), Fail> {
    assert!(rt; is_made_of_entries(rt.alloc())?);
    Ok(())
}

/// Whether the words of three promises are found, and none of others.
fn finds(shown: &Shown) -> bool {
    has(shown, 2, Some(20))
        && has(shown, 5, Some(50))
        && has(shown, 9, Some(90))
        && has(shown, 0, None)
        && has(shown, 4, None)
        && has(shown, 10, None)
}

/// Whether they are found where they were pushed.
fn finds_pushed(alloc: Global) -> Result<bool, OutOfMemory> {
    let shown = shown(alloc)?;
    Ok(finds(&shown))
}

#[test]
fn words_are_found_by_the_number_of_their_promise(rt: HostRuntime) -> Result<(), Fail> {
    assert!(rt; finds_pushed(rt.alloc())?);
    Ok(())
}

#[test]
fn pairs_are_shown_as_they_are(rt: HostRuntime) -> Result<(), Fail> {
    let words = Words::from_slice(rt.alloc(), &[1, 2])?;
    let pairs = vec![in rt.alloc(); (4, words)]?;
    let shown = Shown::from_pairs(pairs);
    assert!(rt;
        shown
            .get(4)
            .is_some_and(|words| words.as_slice() == [1, 2].as_slice())
    );
    Ok(())
}
