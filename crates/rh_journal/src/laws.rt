//! What holds of journals, whoever writes them.

ghost use Rattle.rh_journal.specs.Tells.{OneThreadTells};
ghost use Rattle.rh_journal.specs.Told.{TellingJournalsTellResults};
ghost use Rattle.rh_journal.specs.References.{ReferencesAreLeft};

/// The journal of one thread has all events of each node, in order.
pub fn one_thread_tells()
    ensures { OneThreadTells }
{}

/// What a journal that tells a run says of nodes and promises is what the results say.
pub fn telling_journals_tell_results()
    ensures { TellingJournalsTellResults }
{}

/// On one thread a promise has a reference left before each node that awaits it, and before the report where that shows it.
pub fn references_are_left()
    ensures { ReferencesAreLeft }
{}
