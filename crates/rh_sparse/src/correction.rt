//! One altered word restored.

ghost use Rattle.std.specs.Prelude.{◌≡◌, ◌≢◌, ◌≤◌, ◌<◌, ◌+◌, ℕ, ℤ, pos, ◌-ℤ◌, ◌*ℤ◌, IfSome, MatchOption, length, slice_set};
ghost use Rattle.std.specs.Option.{option_map};
ghost use Rattle.rh_sparse.specs.Checksums.{IsSmall};
ghost use Rattle.rh_sparse.specs.Correction.{as_word, correction_of, named_row, restored, words_left};

use rh_words::Words;
use rh_words::limits::MAX_MATRIX_SIDE;

/// What a correction answers.
#[derive(Clone, Copy, PartialEq, Eq)]
pub enum Correction {
    /// The word of this row, counted from 0, was restored.
    Corrected { word: u32 },
    /// The differences are not those of one altered word: they name no row, or that row's word less the first difference is no
    /// word. They are handed back.
    NotOne { d1: i128, d2: i128 },
}

/// Restores the one word that two differences name: of the row, counted from 1, that times the first difference is the second.
/// The first difference is taken off this word, and all other words stay. Where there is no such row, where the first difference
/// is 0, or where that would leave no word, all words stay.
pub fn correct(y: &mut Words, d1: i128, d2: i128) -> Correction
    requires few { length y.old ≤ MAX_MATRIX_SIDE }
    requires plain_size { IsSmall d1 }
    requires weighted_size { IsSmall d2 }
    ensures answer { result ≡ correction_of d1 d2 (restored y.old d1 d2) }
    ensures words { y.new ≡ words_left y.old (restored y.old d1 d2) }
{
    match restored_word(y.as_slice(), d1, d2) {
        Some((row, word)) => {
            y.set(row, word);
            Correction::Corrected { word: row as u32 }
        }
        None => Correction::NotOne { d1, d2 },
    }
}

/// The row that the differences name, counted from 0, with its word less the first difference, where that is a word.
fn restored_word(y: &[u64], d1: i128, d2: i128) -> Option<(usize, u64)>
    requires plain_size { IsSmall d1 }
    requires weighted_size { IsSmall d2 }
    ensures value { restored y.now d1 d2 ≡ option_map (λ p. (p.0, slice_set y.now p.0 p.1)) result }
    ensures within { IfSome result (λ p. p.0 < length y.now) }
{
    let row = altered_row(d1, d2, y.len())?;
    let word = word_less(y[row], d1)?;
    Some((row, word))
}

/// The word less the difference, where that is a word.
fn word_less(word: u64, difference: i128) -> Option<u64>
    requires { IsSmall difference }
    ensures { result ≡ as_word (pos word -ℤ difference) }
{
    u64::try_from(i128::from(word) - difference).ok()
}

/// The row below `rows`, counted from 0, that the differences name.
fn altered_row(d1: i128, d2: i128, rows: usize) -> Option<usize>
    requires plain_size { IsSmall d1 }
    requires weighted_size { IsSmall d2 }
    ensures value { result ≡ named_row d1 d2 rows }
    ensures within { IfSome result (λ row. row < rows) }
{
    if d1 == 0 {
        return None;
    }
    let number = whole_quotient(d2, d1)?;
    row_of_number(number, rows)
}

/// The row below `rows` with this number, counted from 1.
fn row_of_number(number: i128, rows: usize) -> Option<usize>
    requires { IsSmall number }
    ensures { MatchOption result ((i : ℕ) → i < rows → pos (i + 1) ≢ number) (λ i. (i < rows) × (pos (i + 1) ≡ number)) }
{
    if number < 1 || number > rows as i128 {
        return None;
    }
    Some((number - 1) as usize)
}

/// The whole number that times `divisor` is `product`, where there is one.
fn whole_quotient(product: i128, divisor: i128) -> Option<i128>
    requires some { divisor ≢ pos 0 }
    requires size { IsSmall product }
    ensures value { MatchOption result ((q : ℤ) → q *ℤ divisor ≢ product) (λ q. q *ℤ divisor ≡ product) }
    ensures size { IfSome result (λ q. IsSmall q) }
{
    if product % divisor == 0 {
        Some(product / divisor)
    } else {
        None
    }
}
