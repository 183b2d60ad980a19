//! What is known between two nodes of a run.

ghost use Rattle.std.specs.Prelude.{◌≡◌, ◌<◌, ◌+◌, ◌++◌, ◌∷◌, [], ◌^◌, IfOk, OnOk, List, None, length, map};
ghost use Rattle.std.specs.List.{AllByRecursion};
ghost use Rattle.rh_injector.specs.declared.faults.Strike.{Strike};
ghost use Rattle.rh_journal.specs.declared.event.Event.TheVariants.{Release};
ghost use Rattle.rh_journal.specs.Own.{run_of, put_attempt};
ghost use Rattle.rh_journal.specs.OneThread.{one_thread};
ghost use Rattle.rh_journal.specs.Tells.{shown_words};
ghost use Rattle.rh_journal.specs.ShownWords.{IsAscending};
ghost use Rattle.rh_plain.specs.Drawing.{Drawn, Draws, IsDrawing, first_events, listed_events};
ghost use Rattle.rh_plain.specs.Holding.{KeepsWords};
ghost use Rattle.rh_plain.specs.Values.{has_words};
ghost use Rattle.rh_plain.specs.Recording.{FitsPlan, HasTold, IsEndingOf, IsEndingWith};
ghost use Rattle.rh_plain.specs.Runs.{AnswersNode, IsSoFar};

use crate::history::History;
use crate::listing::{Lists, attempt_of, lists_of};
use crate::putting::{made_by, release_all};
use crate::showing::{release_shown, shown_pairs};
use crate::values::Values;
use rh_injector::Faults;
use rh_journal::{Event, Outcome, Shown};
use rh_plan::{MadePut, Plan, Trial, Verdict};
use rh_schemes::{NodeResult, Trials};
use rh_words::{OutOfMemory, Words};
use std::alloc::Global;
use std::marker::Model;

/// How the lower nodes ended, by their numbers, the words of promises that are not freed, and the journal.
#[derive(Drop)]
pub(crate) struct Progress {
    verdicts: Vec<Verdict>,
    values: Values,
    history: History,
}

impl Model for Progress {
    ghost use Rattle.rh_plain.specs.Runs.{progress};
    ghost use Rattle.rh_plain.specs.Runs as runs;

    ghost Value = { runs.Progress };

    ghost view = { λ p. progress p.verdicts.items p.values p.history };
}

impl Progress {
    /// No node has ended, and no promise has words.
    pub(crate) fn new(alloc: Global, plan: &Plan) -> Result<Progress, OutOfMemory>
        ensures { IfOk result (λ p. (faults : List Strike) → IsSoFar plan.now faults 0 p) }
    {
        Ok(Progress {
            verdicts: Vec::with_capacity(alloc, plan.nodes() as usize)?,
            values: Values::new(alloc, plan.promises() as usize)?,
            history: History::new(alloc, plan)?,
        })
    }

    /// How each node ended, by its number.
    pub(crate) fn verdicts(&self) -> &[Verdict]
        ensures { result.now ≡ self.now.verdicts }
    {
        self.verdicts.as_slice()
    }

    /// The words of promises that are not freed.
    pub(crate) fn values(&self) -> &Values
        ensures { result.now ≡ self.now.values }
    {
        &self.values
    }

    /// The node of this number ended so.
    pub(crate) fn record(
        &mut self,
        alloc: Global,
        plan: &Plan,
        faults: &Faults,
        node: u32,
        ended: NodeResult,
    ) -> Result<(), OutOfMemory>
        requires within { node < length plan.now.nodes }
        requires below { IsSoFar plan.now faults.now node self.old }
        requires answers { AnswersNode plan.now faults.now node ended }
        ensures { OnOk result (IsSoFar plan.now faults.now (node + 1) self.new) }
    {
        let _known = plan.nodes();
        let ending = ending_of(alloc, plan, node, ended, &self.values)?;
        self.tell(plan, node, ending)
    }

    /// The node of this number ended so.
    fn tell(&mut self, plan: &Plan, node: u32, ending: Ending) -> Result<(), OutOfMemory>
        requires drawing { IsDrawing plan.now self.old.drawn }
        requires fits { FitsPlan plan.now ending }
        requires sized { length self.old.values ≡ length plan.now.promises }
        ensures { OnOk result (HasTold plan.now node ending self.old self.new) }
    {
        let Ending {
            verdict,
            trials,
            lists,
            puts,
        } = ending;
        self.values.give_all(puts);
        let (verdicts, history, values) = (&mut self.verdicts, &mut self.history, &mut self.values);
        tell_ended(
            plan,
            node,
            verdict,
            trials.as_slice(),
            &lists,
            verdicts,
            history,
            values,
        )
    }

    /// The outcome, when all nodes have ended.
    pub(crate) fn into_outcome(
        self,
        alloc: Global,
        plan: &Plan,
        faults: &Faults,
    ) -> Result<Outcome, OutOfMemory>
        requires { IsSoFar plan.now faults.now (length plan.now.nodes) self }
        ensures journal { IfOk result (λ o. o.journal ≡ one_thread (run_of plan.now faults.now)) }
        ensures shown { IfOk result (λ o. o.shown ≡ shown_words (run_of plan.now faults.now)) }
    {
        let _known = plan.nodes();
        let Progress {
            verdicts: _,
            values,
            history,
        } = self;
        let pairs = shown_pairs(alloc, plan, values)?;
        report(plan, history, pairs)
    }
}

/// How a node ended: its verdict, how its attempts ended, its lists, and what it puts.
#[derive(Drop)]
struct Ending {
    verdict: Verdict,
    trials: Trials,
    lists: Lists,
    puts: Vec<MadePut>,
}

/// How a node ended that has this result. Its words are moved.
fn ending_of(
    alloc: Global,
    plan: &Plan,
    node: u32,
    ended: NodeResult,
    values: &Values,
) -> Result<Ending, OutOfMemory>
    requires { node < length plan.now.nodes }
    ensures { IfOk result (IsEndingOf plan.now node (has_words values.now) ended) }
{
    let lists = lists_of(alloc, plan, node, &ended, values)?;
    with_lists(alloc, plan, node, ended, lists)
}

/// How a node ended that has this result and these lists. Its words are moved.
fn with_lists(
    alloc: Global,
    plan: &Plan,
    node: u32,
    ended: NodeResult,
    lists: Lists,
) -> Result<Ending, OutOfMemory>
    requires { node < length plan.now.nodes }
    ensures { IfOk result (IsEndingWith plan.now node ended lists) }
{
    let NodeResult {
        verdict,
        trials,
        accepted,
    } = ended;
    let puts = made_by(alloc, plan.puts(node), verdict, accepted)?;
    Ok(Ending {
        verdict,
        trials,
        lists,
        puts,
    })
}

/// Draws the events of a node, when its puts are there, and notes its verdict. The words of a promise go with its last reference.
fn tell_ended(
    plan: &Plan,
    node: u32,
    verdict: Verdict,
    trials: &[Trial],
    lists: &Lists,
    verdicts: &mut Vec<Verdict>,
    history: &mut History,
    values: &mut Values,
) -> Result<(), OutOfMemory>
    requires drawing { IsDrawing plan.now history.old }
    requires trials { length trials.now < 2 ^ 32 }
    requires known { AllByRecursion (λ q. q < length plan.now.promises) lists.now.released }
    requires sized { length values.old ≡ length plan.now.promises }
    ensures drawn { OnOk result (Draws plan.now history.old history.new (listed_events node verdict trials.now lists.now.puts lists.now.voids lists.now.released)) }
    ensures kept { OnOk result (KeepsWords plan.now history.old values.old values.new (listed_events node verdict trials.now lists.now.puts lists.now.voids lists.now.released)) }
    ensures verdicts { OnOk result (verdicts.new.items ≡ verdicts.old.items ++ verdict ∷ []) }
{
    begin(plan, node, verdict, trials, lists, history)?;
    release_all(plan, lists.released(), node, history, values)?;
    history.draw(plan, Event::Decide { node, verdict })?;
    verdicts.push(verdict)?;
    Ok(())
}

/// The outcome, when the report has given up its references of these promises.
fn report(plan: &Plan, history: History, pairs: Vec<(u32, Words)>) -> Result<Outcome, OutOfMemory>
    requires drawing { IsDrawing plan.now history }
    requires known { AllByRecursion (λ p. p.0 < length plan.now.promises) pairs.items }
    requires ascending { IsAscending pairs.items }
    ensures journal { IfOk result (λ o. (drawn : Drawn) × Draws plan.now history drawn (map (λ p. Release p.0 None) pairs.items) × (o.journal ≡ drawn.entries)) }
    ensures shown { IfOk result (λ o. o.shown ≡ pairs.items) }
{
    let mut drawn = history;
    release_shown(plan, pairs.as_slice(), &mut drawn)?;
    Ok(Outcome {
        journal: drawn.into_journal(),
        shown: Shown::from_pairs(pairs),
    })
}

/// The events of a node before its releases.
fn begin(
    plan: &Plan,
    node: u32,
    verdict: Verdict,
    trials: &[Trial],
    lists: &Lists,
    history: &mut History,
) -> Result<(), OutOfMemory>
    requires { length trials.now < 2 ^ 32 }
    ensures { OnOk result (Draws plan.now history.old history.new (first_events node trials.now (put_attempt verdict) lists.now.puts lists.now.voids)) }
{
    history.draw(plan, Event::Claim { node })?;
    history.attempts(plan, node, trials)?;
    history.puts(plan, lists.puts(), attempt_of(verdict))?;
    history.voids(plan, lists.voids())?;
    Ok(())
}
