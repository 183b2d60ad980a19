//! How a task was judged.

ghost use Rattle.std.specs.Prelude.{◌≡◌, ◌++◌, ◌∷◌, [], IfOk, OnOk, OnErr};

use rh_attempt::Buffer;
use rh_plan::{Trial, Verdict};
use rh_words::OutOfMemory;
use std::alloc::Global;
use std::marker::Model;

/// How the attempts of a task ended, attempt 0 first.
#[derive(Drop)]
pub struct Trials {
    items: Vec<Trial>,
}

impl Model for Trials {
    ghost use Rattle.std.specs.Prelude.{List};
    ghost use Rattle.rh_plan.specs.declared.outcome.Trial.{Trial};

    ghost Value = { List Trial };

    ghost view = { λ t. t.items.items };
}

impl Trials {
    pub fn new(alloc: Global) -> Trials
        ensures { result ≡ [] }
    {
        Trials {
            items: Vec::new(alloc),
        }
    }

    pub fn push(&mut self, trial: Trial) -> Result<(), OutOfMemory>
        ensures ok { OnOk result (self.new ≡ self.old ++ trial ∷ []) }
        ensures err { OnErr result (self.new ≡ self.old) }
    {
        self.items.push(trial)?;
        Ok(())
    }

    /// These trials.
    pub(crate) fn from_slice(alloc: Global, trials: &[Trial]) -> Result<Trials, OutOfMemory>
        ensures { IfOk result (λ t. t ≡ trials.now) }
    {
        let items = Vec::from_slice(alloc, trials)?;
        Ok(Trials { items })
    }

    pub fn as_slice(&self) -> &[Trial]
        ensures { result.now ≡ self.now }
    {
        self.items.as_slice()
    }
}

/// A task's verdict, how each of its attempts ended, and the buffer that was accepted.
#[derive(Drop)]
pub struct NodeResult {
    pub verdict: Verdict,
    pub trials: Trials,
    pub accepted: Option<Buffer>,
}
