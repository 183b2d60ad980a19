//! How the attempts of a task ended, in a list.

ghost use Rattle.std.specs.Prelude.{◌≡◌, ◌++◌, ◌∷◌, [], OnOk, OnErr};
ghost use Rattle.rh_report.specs.TrialLists.{trials_in};

use rh_plan::Trial;
use rh_words::OutOfMemory;
use std::alloc::Global;
use std::marker::Model;

/// How the attempts of a task ended, attempt 0 first. One attempt alone, as of most tasks, takes no memory.
#[derive(Drop)]
pub(crate) struct Trials {
    alone: Option<Trial>,
    items: Vec<Trial>,
}

impl Model for Trials {
    ghost use Rattle.std.specs.Prelude.{List};
    ghost use Rattle.rh_plan.specs.declared.outcome.Trial.{Trial};
    ghost use Rattle.rh_report.specs.TrialLists.{trials_in};

    ghost Value = { List Trial };

    ghost view = { λ t. trials_in t.alone t.items.items };
}

impl Trials {
    /// No attempt. It takes no memory.
    pub(crate) fn new(alloc: Global) -> Trials
        ensures { result ≡ [] }
    {
        Trials {
            alone: None,
            items: Vec::new(alloc),
        }
    }

    /// Adds how the next attempt ended.
    pub(crate) fn push(&mut self, trial: Trial) -> Result<(), OutOfMemory>
        ensures ok { OnOk result (self.new ≡ self.old ++ trial ∷ []) }
        ensures err { OnErr result (self.new ≡ self.old) }
    {
        if self.as_slice().is_empty() {
            self.alone = Some(trial);
            return Ok(());
        }
        join(self.alone, &mut self.items)?;
        self.items.push(trial)?;
        Ok(())
    }

    /// How each attempt ended, by its number.
    pub(crate) fn as_slice(&self) -> &[Trial]
        ensures { result.now ≡ self.now }
    {
        match &self.alone {
            Some(trial) if self.items.is_empty() => std::slice::from_ref(trial),
            _ => self.items.as_slice(),
        }
    }
}

/// Puts a trial that stood alone among the others.
fn join(alone: Option<Trial>, items: &mut Vec<Trial>) -> Result<(), OutOfMemory>
    ensures ok { OnOk result (items.new.items ≡ trials_in alone items.old.items) }
    ensures err { OnErr result (items.new.items ≡ items.old.items) }
{
    if let Some(trial) = alone {
        if items.is_empty() {
            items.push(trial)?;
        }
    }
    Ok(())
}
