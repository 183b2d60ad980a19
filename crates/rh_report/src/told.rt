//! What a journal tells of nodes and promises, gathered in one pass.

ghost use Rattle.std.specs.Prelude.{◌≡◌, ◌++◌, ◌∷◌, [], None, Some, IfOk, OnOk, length, slice_set, slice_index_or, replicate};
ghost use Rattle.rh_plan.specs.declared.outcome.Verdict.TheVariants.{Failed};
ghost use Rattle.rh_journal.specs.Events.{events};
ghost use Rattle.rh_report.specs.Gathering.{HasGathered, HasTold};

use crate::trials::Trials;
use rh_journal::{Entry, Event};
use rh_plan::{Plan, Trial, Verdict};
use rh_words::OutOfMemory;
use std::alloc::Global;
use std::marker::Model;

/// By the number of a node how it and its attempts ended, and by the number of a promise the attempt of which its put is.
#[derive(Drop)]
pub(crate) struct Told {
    verdicts: Vec<Verdict>,
    attempts: Vec<Trials>,
    puts: Vec<Option<u32>>,
}

impl Model for Told {
    ghost use Rattle.rh_report.specs.Tables.{TableData, table_data};

    ghost Value = { TableData };

    ghost view = { λ t. table_data t.verdicts.items t.attempts.items t.puts.items };
}

impl Told {
    /// Nothing is told yet of so many nodes and promises.
    fn new(alloc: Global, nodes: usize, promises: usize) -> Result<Told, OutOfMemory>
        ensures { IfOk result (HasGathered nodes promises []) }
    {
        Ok(Told {
            verdicts: all_failed(alloc, nodes)?,
            attempts: no_attempts(alloc, nodes)?,
            puts: no_puts(alloc, promises)?,
        })
    }

    /// How each node ended.
    pub(crate) fn verdicts(&self) -> &[Verdict]
        ensures { result.now ≡ self.now.verdicts }
    {
        self.verdicts.as_slice()
    }

    /// How the attempts of each node ended.
    pub(crate) fn attempts(&self) -> &[Trials]
        ensures { result.now ≡ self.now.trials }
    {
        self.attempts.as_slice()
    }

    /// The attempt of each promise's put, where it was put.
    pub(crate) fn puts(&self) -> &[Option<u32>]
        ensures { result.now ≡ self.now.puts }
    {
        self.puts.as_slice()
    }

    /// The event is told.
    fn tell(&mut self, event: Event) -> Result<(), OutOfMemory>
        ensures { OnOk result (HasTold event self.old self.new) }
    {
        match event {
            Event::Decide { node, verdict } => {
                set_verdict(&mut self.verdicts, node, verdict);
                Ok(())
            }
            Event::Attempt { node, trial, .. } => push_trial(&mut self.attempts, node, trial),
            Event::Put { promise, attempt } => {
                set_put(&mut self.puts, promise, attempt);
                Ok(())
            }
            _ => Ok(()),
        }
    }
}

/// What the entries tell of the nodes and promises of a plan.
pub(crate) fn gathered(alloc: Global, plan: &Plan, entries: &[Entry]) -> Result<Told, OutOfMemory>
    ensures { IfOk result (HasGathered (length plan.now.nodes) (length plan.now.promises) (events entries.now)) }
{
    let mut told = Told::new(alloc, plan.nodes() as usize, plan.promises() as usize)?;
    for entry in entries {
        told.tell(entry.event)?;
    }
    Ok(told)
}

fn set_verdict(verdicts: &mut Vec<Verdict>, node: u32, verdict: Verdict)
    ensures { verdicts.new.items ≡ slice_set verdicts.old.items node verdict }
{
    let at = node as usize;
    if at < verdicts.len() {
        verdicts[at] = verdict;
    }
}

fn push_trial(attempts: &mut Vec<Trials>, node: u32, trial: Trial) -> Result<(), OutOfMemory>
    ensures { OnOk result (attempts.new.items ≡ slice_set attempts.old.items node (slice_index_or attempts.old.items node [] ++ trial ∷ [])) }
{
    let at = node as usize;
    if at < attempts.len() {
        attempts[at].push(trial)?;
    }
    Ok(())
}

fn set_put(puts: &mut Vec<Option<u32>>, promise: u32, attempt: u32)
    ensures { puts.new.items ≡ slice_set puts.old.items promise (Some attempt) }
{
    let at = promise as usize;
    if at < puts.len() {
        puts[at] = Some(attempt);
    }
}

fn all_failed(alloc: Global, count: usize) -> Result<Vec<Verdict>, OutOfMemory>
    ensures { IfOk result (λ v. v.items ≡ replicate count Failed) }
{
    let mut verdicts = Vec::with_capacity(alloc, count)?;
    for _ in 0..count {
        verdicts.push(Verdict::Failed)?;
    }
    Ok(verdicts)
}

fn no_attempts(alloc: Global, count: usize) -> Result<Vec<Trials>, OutOfMemory>
    ensures { IfOk result (λ a. a.items ≡ replicate count []) }
{
    let mut attempts = Vec::with_capacity(alloc, count)?;
    for _ in 0..count {
        attempts.push(Trials::new(alloc))?;
    }
    Ok(attempts)
}

fn no_puts(alloc: Global, count: usize) -> Result<Vec<Option<u32>>, OutOfMemory>
    ensures { IfOk result (λ p. p.items ≡ replicate count None) }
{
    let mut puts = Vec::with_capacity(alloc, count)?;
    for _ in 0..count {
        puts.push(None)?;
    }
    Ok(puts)
}
