//! What faults do to the words of a local.

ghost use Rattle.std.specs.Prelude.{◌≡◌, ◌==◌, IfOk};
ghost use Rattle.rh_plan.specs.Faulted.{faulted};
ghost use Rattle.rh_attempt.specs.Faulting.{AreApart, with_fault, names_local};

use crate::local::Local;
use rh_injector::Strike;
use rh_words::{OutOfMemory, Words};
use std::alloc::Global;

/// The local of an awaited promise: its words where they are kept, or a copy of them where a fault names the local.
pub(crate) fn awaited_local<'a>(
    alloc: Global,
    strikes: &[Strike],
    local: usize,
    words: &'a [u64],
) -> Result<Local<'a>, OutOfMemory>
    requires { AreApart strikes.now }
    ensures { IfOk result (λ l. l ≡ faulted strikes.now local words.now) }
{
    if !names_local(strikes, local) {
        return Ok(Local::awaited(words));
    }
    let copy = Words::from_slice(alloc, words)?;
    Ok(made_local(strikes, local, copy))
}

/// The local of these finished words, as its faults leave them.
pub(crate) fn made_local<'a>(strikes: &[Strike], local: usize, words: Words) -> Local<'a>
    requires { AreApart strikes.now }
    ensures { result ≡ faulted strikes.now local words }
{
    let mut altered = words;
    for strike in strikes {
        apply(strike, local, &mut altered);
    }
    Local::own(altered)
}

/// Whether a fault names the local.
fn names_local(strikes: &[Strike], local: usize) -> bool
    ensures { result ≡ names_local strikes.now local }
{
    strikes.iter().any(|s| s.local as usize == local)
}

/// Xors the word that the fault names, where it names one of this local, with its mask.
fn apply(strike: &Strike, local: usize, words: &mut Words)
    ensures { words.new ≡ with_fault strike.now local words.old }
{
    let at = strike.word as usize;
    if strike.local as usize == local && at < words.as_slice().len() {
        let altered = words.as_slice()[at] ^ strike.mask;
        words.set(at, altered);
    }
}
