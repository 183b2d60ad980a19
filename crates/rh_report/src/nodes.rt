//! The lines of nodes and of their attempts.

ghost use Rattle.std.specs.Prelude.{◌≡◌, ◌<◌, ◌++◌, ◌∷◌, [], true, OnOk, length};
ghost use Rattle.rh_plan.specs.declared.outcome.Trial.TheVariants as trials;
ghost use Rattle.rh_plan.specs.declared.outcome.Verdict.TheVariants.{Accepted};
ghost use Rattle.rh_report.specs.NodeLines.{attempt_line, attempt_lines, counts_text, end_lines, ending_text, kind_word, node_lines, trial_text, word_at};
ghost use Rattle.rh_report.specs.Reports.{nodes_text};

use crate::ends::{trials_at, verdict_at};
use crate::naming::{print_cause, print_node_name};
use crate::told::Told;
use rh_plan::{Plan, Trial, Verdict};
use rh_rules::Kind;
use rh_words::{Bytes, OutOfMemory, print_labelled};
use std::alloc::Global;

/// Appends the lines of all nodes.
pub(crate) fn print_nodes(
    alloc: Global,
    plan: &Plan,
    told: &Told,
    into: &mut Bytes,
) -> Result<(), OutOfMemory>
    ensures { OnOk result (into.new ≡ into.old ++ nodes_text plan.now told.now) }
{
    for node in 0..plan.nodes() {
        print_node(alloc, plan, told, node, into)?;
    }
    Ok(())
}

/// Appends the line of a node and those of its attempts.
#[tactic(auto, using(std::proofs::Common::append_assoc), unfolding(crate::specs::NodeLines::node_lines))]
fn print_node(
    alloc: Global,
    plan: &Plan,
    told: &Told,
    node: u32,
    into: &mut Bytes,
) -> Result<(), OutOfMemory>
    requires { node < length plan.now.nodes }
    ensures { OnOk result (into.new ≡ into.old ++ node_lines plan.now told.now node) }
{
    into.append(word_at(plan, node))?;
    print_node_name(plan, node, into)?;
    let verdict = verdict_at(told.verdicts(), node);
    print_end(alloc, plan, verdict, trials_at(told.attempts(), node), into)?;
    Ok(())
}

/// Appends how a node ended, and the lines of its attempts. Those of a task whose one attempt was accepted, as nearly all are where nothing is
/// faulted, are at hand as a whole.
#[tactic(auto, using(std::proofs::Common::append_assoc))]
fn print_end(
    alloc: Global,
    plan: &Plan,
    verdict: Verdict,
    trials: &[Trial],
    into: &mut Bytes,
) -> Result<(), OutOfMemory>
    ensures { OnOk result (into.new ≡ into.old ++ end_lines plan.now verdict trials.now) }
{
    if is_first_accepted(verdict) && is_one_accepted(trials) {
        return into.append(b" accepted 0\n  attempt 0 accepted\n");
    }
    print_each(alloc, plan, verdict, trials, into)
}

/// Whether a task ended so whose first attempt was accepted.
fn is_first_accepted(verdict: Verdict) -> bool
    ensures { result ≡ true → verdict ≡ Accepted 0 }
{
    match verdict {
        Verdict::Accepted { attempt } => attempt == 0,
        _ => false,
    }
}

/// Whether these are the trials of a task whose one attempt was accepted.
fn is_one_accepted(made: &[Trial]) -> bool
    ensures { result ≡ true → made.now ≡ trials.Accepted ∷ [] }
{
    match made {
        [trial] => is_accepted(*trial),
        _ => false,
    }
}

/// Whether an attempt was accepted as it was made.
fn is_accepted(trial: Trial) -> bool
    ensures { result ≡ true → trial ≡ trials.Accepted }
{
    matches!(trial, Trial::Accepted)
}

/// Appends how a node ended, and the lines of its attempts, piece by piece.
#[tactic(auto, using(std::proofs::Common::append_assoc))]
fn print_each(
    alloc: Global,
    plan: &Plan,
    verdict: Verdict,
    trials: &[Trial],
    into: &mut Bytes,
) -> Result<(), OutOfMemory>
    ensures { OnOk result (into.new ≡ into.old ++ end_lines plan.now verdict trials.now) }
{
    print_ending(alloc, plan, verdict, into)?;
    into.append(b"\n")?;
    print_attempts(alloc, trials, into)?;
    Ok(())
}

/// The word that a node's line begins with, and a space.
fn word_at(plan: &Plan, node: u32) -> &'static [u8]
    requires { node < length plan.now.nodes }
    ensures { result.now ≡ word_at plan.now node }
{
    kind_word(plan.kind(node))
}

/// The word for a kind of nodes, and a space.
fn kind_word(kind: Kind) -> &'static [u8]
    ensures { result.now ≡ kind_word kind }
{
    match kind {
        Kind::Task => b"task ",
        Kind::Group => b"group ",
        Kind::Scope => b"finish ",
    }
}

/// Appends how a node ended.
#[tactic(auto, using(std::proofs::Common::append_assoc), unfolding(crate::specs::NodeLines::ending_text))]
fn print_ending(
    alloc: Global,
    plan: &Plan,
    verdict: Verdict,
    into: &mut Bytes,
) -> Result<(), OutOfMemory>
    ensures { OnOk result (into.new ≡ into.old ++ ending_text plan.now verdict) }
{
    match verdict {
        Verdict::Accepted { attempt } => {
            print_labelled(alloc, b" accepted ", u64::from(attempt), into)
        }
        Verdict::Corrected { word } => {
            print_labelled(alloc, b" corrected ", u64::from(word), into)
        }
        Verdict::Failed => into.append(b" failed"),
        Verdict::Skipped(cause) => print_cause(plan, b" skipped by ", cause, into),
        Verdict::Opened => into.append(b" opened"),
        Verdict::Closed(cause) => print_cause(plan, b" closed by ", cause, into),
        Verdict::Ended {
            accepted,
            failed,
            skipped,
        } => print_counts(alloc, accepted, failed, skipped, into),
    }
}

/// Appends the three counts of a scope.
#[tactic(auto, using(std::proofs::Common::append_assoc))]
fn print_counts(
    alloc: Global,
    accepted: u32,
    failed: u32,
    skipped: u32,
    into: &mut Bytes,
) -> Result<(), OutOfMemory>
    ensures { OnOk result (into.new ≡ into.old ++ counts_text accepted failed skipped) }
{
    print_labelled(alloc, b" ", u64::from(accepted), into)?;
    print_labelled(alloc, b" ", u64::from(failed), into)?;
    print_labelled(alloc, b" ", u64::from(skipped), into)?;
    Ok(())
}

/// Appends the lines of attempts.
fn print_attempts(alloc: Global, trials: &[Trial], into: &mut Bytes) -> Result<(), OutOfMemory>
    ensures { OnOk result (into.new ≡ into.old ++ attempt_lines 0 trials.now) }
{
    for (attempt, trial) in trials.iter().enumerate() {
        print_attempt(alloc, attempt as u64, *trial, into)?;
    }
    Ok(())
}

/// Appends the line of an attempt.
#[tactic(auto, using(std::proofs::Common::append_assoc), unfolding(crate::specs::NodeLines::attempt_line))]
fn print_attempt(
    alloc: Global,
    attempt: u64,
    trial: Trial,
    into: &mut Bytes,
) -> Result<(), OutOfMemory>
    ensures { OnOk result (into.new ≡ into.old ++ attempt_line attempt trial) }
{
    print_labelled(alloc, b"  attempt ", attempt, into)?;
    print_trial(alloc, trial, into)?;
    into.append(b"\n")?;
    Ok(())
}

/// Appends how an attempt ended.
#[tactic(auto, using(std::proofs::Common::append_assoc), unfolding(crate::specs::NodeLines::trial_text))]
fn print_trial(alloc: Global, trial: Trial, into: &mut Bytes) -> Result<(), OutOfMemory>
    ensures { OnOk result (into.new ≡ into.old ++ trial_text trial) }
{
    match trial {
        Trial::Accepted => into.append(b" accepted"),
        Trial::Agreed => into.append(b" agreed"),
        Trial::Differed => into.append(b" differed"),
        Trial::Refused { which } => print_labelled(alloc, b" refused ", u64::from(which), into),
        Trial::Corrected { word } => print_labelled(alloc, b" corrected ", u64::from(word), into),
    }
}
