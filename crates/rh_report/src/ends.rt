//! How nodes ended and what promises have, by their numbers.

ghost use Rattle.std.specs.Prelude.{◌≡◌, [], None, slice_index_or, unwrap_or};
ghost use Rattle.std.specs.Option.{option_copied};
ghost use Rattle.rh_plan.specs.declared.outcome.Verdict.TheVariants.{Failed};

use crate::trials::Trials;
use rh_plan::{Trial, Verdict};
use rh_words::Words;

/// How a node ended.
pub(crate) fn verdict_at(verdicts: &[Verdict], node: u32) -> Verdict
    ensures { result ≡ slice_index_or verdicts.now node Failed }
{
    match verdicts.get(node as usize) {
        Some(verdict) => *verdict,
        None => Verdict::Failed,
    }
}

/// How the attempts of a node ended.
pub(crate) fn trials_at(attempts: &[Trials], node: u32) -> &[Trial]
    ensures { result.now ≡ slice_index_or attempts.now node [] }
{
    match attempts.get(node as usize) {
        Some(attempts) => attempts.as_slice(),
        None => &[],
    }
}

/// The attempt of a promise's put, where it was put.
pub(crate) fn put_at(puts: &[Option<u32>], promise: u32) -> Option<u32>
    ensures { result ≡ slice_index_or puts.now promise None }
{
    match puts.get(promise as usize) {
        Some(put) => *put,
        None => None,
    }
}

/// The words, or none.
pub(crate) fn words_or_none(words: Option<&Words>) -> &[u64]
    ensures { result.now ≡ unwrap_or (option_copied words.entry) [] }
{
    match words {
        Some(words) => words.as_slice(),
        None => &[],
    }
}
