//! The journal of one thread while it grows, with the releases of each promise counted.

ghost use Rattle.std.specs.Prelude.{◌≡◌, ◌<◌, ◌^◌, [], ◌∷◌, None, map, length, IfOk, OnOk};
ghost use Rattle.rh_journal.specs.declared.event.Event.TheVariants.{Put, Void, Release};
ghost use Rattle.rh_journal.specs.Events.{released};
ghost use Rattle.rh_journal.specs.Own.{references_of, attempts_from};
ghost use Rattle.rh_plain.specs.Drawing.{HasDrawn, IsDrawing, IsFreed, Draws};

use rh_journal::{Entry, Event, Journal};
use rh_plan::{Plan, Trial};
use rh_words::OutOfMemory;
use std::alloc::Global;
use std::marker::Model;

/// The entries so far, and how many releases of each promise there are.
#[derive(Drop)]
pub(crate) struct History {
    entries: Vec<Entry>,
    gone: Vec<u64>,
}

impl Model for History {
    ghost use Rattle.rh_plain.specs.Drawing.{Drawn, drawn_so_far};

    ghost Value = { Drawn };

    ghost view = { λ h. drawn_so_far h.entries.items h.gone.items };
}

impl History {
    /// Nothing is drawn.
    pub(crate) fn new(alloc: Global, plan: &Plan) -> Result<History, OutOfMemory>
        ensures { IfOk result (λ h. HasDrawn plan.now [] h) }
    {
        let gone = vec![in alloc; 0u64; plan.promises() as usize]?;
        let entries = Vec::with_capacity(alloc, usual_count(plan))?;
        Ok(History { entries, gone })
    }

    /// The journal.
    pub(crate) fn into_journal(self) -> Journal
        ensures { result ≡ self.entries }
    {
        Journal::from_entries(self.entries)
    }

    /// An event that gives up no reference.
    pub(crate) fn draw(&mut self, plan: &Plan, event: Event) -> Result<(), OutOfMemory>
        requires { released event ≡ None }
        ensures { OnOk result (Draws plan.now self.old self.new (event ∷ [])) }
    {
        let number = count(&self.entries);
        self.entries.push(Entry {
            number,
            worker: 0,
            event,
        })?;
        Ok(())
    }

    /// A reference of a promise is given up. Where it was the last, the promise is freed, and the answer is true.
    pub(crate) fn release(
        &mut self,
        plan: &Plan,
        promise: u32,
        by: Option<u32>,
    ) -> Result<bool, OutOfMemory>
        requires drawing { IsDrawing plan.now self.old }
        requires known { promise < length plan.now.promises }
        ensures drawn { IfOk result (λ freed. Draws plan.now self.old self.new (Release promise by ∷ [])) }
        ensures last { IfOk result (IsFreed plan.now self.old promise by) }
    {
        let number = count(&self.entries);
        self.entries.push(Entry {
            number,
            worker: 0,
            event: Event::Release { promise, by },
        })?;
        let next = count(&self.entries);
        let gone = self.gone[promise as usize] + 1;
        self.gone[promise as usize] = gone;
        if gone != references(plan, promise) {
            return Ok(false);
        }
        self.entries.push(Entry {
            number: next,
            worker: 0,
            event: Event::Free { promise },
        })?;
        Ok(true)
    }

    /// The attempts of a task, as they ended.
    pub(crate) fn attempts(
        &mut self,
        plan: &Plan,
        node: u32,
        trials: &[Trial],
    ) -> Result<(), OutOfMemory>
        requires { length trials.now < 2 ^ 32 }
        ensures { OnOk result (Draws plan.now self.old self.new (attempts_from node 0 trials.now)) }
    {
        let mut attempt = 0;
        for trial in trials {
            self.draw(
                plan,
                Event::Attempt {
                    node,
                    attempt,
                    trial: *trial,
                },
            )?;
            attempt += 1;
        }
        Ok(())
    }

    /// The promises are put, with this attempt.
    pub(crate) fn puts(
        &mut self,
        plan: &Plan,
        promises: &[u32],
        attempt: u32,
    ) -> Result<(), OutOfMemory>
        ensures { OnOk result (Draws plan.now self.old self.new (map (λ q. Put q attempt) promises.now)) }
    {
        for promise in promises {
            self.draw(
                plan,
                Event::Put {
                    promise: *promise,
                    attempt,
                },
            )?;
        }
        Ok(())
    }

    /// The promises are not put.
    pub(crate) fn voids(&mut self, plan: &Plan, promises: &[u32]) -> Result<(), OutOfMemory>
        ensures { OnOk result (Draws plan.now self.old self.new (map Void promises.now)) }
    {
        for promise in promises {
            self.draw(plan, Event::Void { promise: *promise })?;
        }
        Ok(())
    }
}

/// How many entries to make room for: those of tasks with one attempt each, and of promises with three references each.
fn usual_count(plan: &Plan) -> usize {
    let nodes = plan.nodes() as usize;
    let promises = plan.promises() as usize;
    nodes
        .saturating_mul(3)
        .saturating_add(promises.saturating_mul(5))
}

/// How many entries there are.
fn count(entries: &Vec<Entry>) -> u64
    ensures value { result ≡ length entries.now.items }
    ensures fits { result < 2 ^ 64 }
{
    entries.as_slice().len() as u64
}

/// How many references a promise has.
fn references(plan: &Plan, promise: u32) -> u64
    requires { promise < length plan.now.promises }
    ensures { result ≡ references_of plan.now promise }
{
    plan.references(promise)
}
