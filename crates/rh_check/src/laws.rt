//! What holds of every check of a sum.

ghost use Rattle.rh_check.specs.Altered.{SumChecksRefuseOneAlteredWord};

/// Where words pass a check that compares a sum of all words, words that differ from them in one place do not.
pub fn sum_checks_refuse_one_altered_word()
    ensures { SumChecksRefuseOneAlteredWord }
{}
