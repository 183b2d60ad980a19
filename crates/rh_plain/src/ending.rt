//! How groups and scopes end, by the verdicts of lower nodes.

ghost use Rattle.std.specs.Prelude.{◌≡◌, ◌≤◌, length, slice_get};
ghost use Rattle.rh_words.specs.declared.limits.TheConstants.{MAX_NODES};
ghost use Rattle.rh_plan.specs.declared.outcome.Verdict.TheVariants.{Ended};
ghost use Rattle.rh_plan.specs.Results.{is_accepted, is_failed, is_skipped};
ghost use Rattle.rh_plain.specs.Endings.{has_opened, verdict_passes, count_of};

use rh_plan::Verdict;

/// Whether the innermost enclosing group opened, where there is one.
pub(crate) fn has_opened(verdicts: &[Verdict], group: Option<u32>) -> bool
    ensures { result ≡ has_opened verdicts.now group }
{
    match group {
        None => true,
        Some(group) => matches!(verdicts.get(group as usize), Some(Verdict::Opened)),
    }
}

/// How a scope with these members ends: the tasks among them are counted by their verdicts.
pub(crate) fn scope_ending(verdicts: &[Verdict], members: &[u32]) -> Verdict
    requires { length members.now ≤ MAX_NODES }
    ensures { result ≡ Ended (count_of is_accepted verdicts.now members.now) (count_of is_failed verdicts.now members.now) (count_of is_skipped verdicts.now members.now) }
{
    let mut accepted: u32 = 0;
    let mut failed: u32 = 0;
    let mut skipped: u32 = 0;
    for member in members {
        accepted += u32::from(was_accepted(verdicts, *member));
        failed += u32::from(has_failed(verdicts, *member));
        skipped += u32::from(was_skipped(verdicts, *member));
    }
    Verdict::Ended {
        accepted,
        failed,
        skipped,
    }
}

/// Whether a node is a task that was accepted, as it was made or corrected.
fn was_accepted(verdicts: &[Verdict], node: u32) -> bool
    ensures { result ≡ verdict_passes is_accepted (slice_get verdicts.now node) }
{
    match verdicts.get(node as usize) {
        Some(Verdict::Accepted { .. }) => true,
        Some(Verdict::Corrected { .. }) => true,
        _ => false,
    }
}

/// Whether a node is a task that failed.
fn has_failed(verdicts: &[Verdict], node: u32) -> bool
    ensures { result ≡ verdict_passes is_failed (slice_get verdicts.now node) }
{
    matches!(verdicts.get(node as usize), Some(Verdict::Failed))
}

/// Whether a node is a task that was skipped.
fn was_skipped(verdicts: &[Verdict], node: u32) -> bool
    ensures { result ≡ verdict_passes is_skipped (slice_get verdicts.now node) }
{
    matches!(verdicts.get(node as usize), Some(Verdict::Skipped(_)))
}
