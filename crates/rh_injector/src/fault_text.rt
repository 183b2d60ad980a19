//! A fault text that was read.

ghost use Rattle.std.specs.Prelude.{◌≡◌};
ghost use Rattle.rh_injector.specs.FaultTexts.{IsLawfulText};

use rh_words::Name;
use std::marker::Model;

/// The fault that a line of a text names.
#[derive(Drop)]
pub struct FaultLine {
    /// The number of the line, from 1.
    pub line: u32,
    /// The task.
    pub task: Name,
    /// The attempt of the task, from 0.
    pub attempt: u64,
    /// The local, by its name in the task.
    pub local: Name,
    /// The word of the local, from 0.
    pub word: u64,
    /// The bits of the word that are turned.
    pub mask: u64,
}

/// A fault text.
#[derive(Drop)]
pub struct FaultText {
    faults: Vec<FaultLine>,
}

impl Model for FaultText {
    ghost use Rattle.std.specs.Prelude.{List};
    ghost use Rattle.rh_injector.specs.declared.fault_text.FaultLine.{FaultLine};
    ghost use Rattle.rh_injector.specs.FaultTexts.{IsLawfulText};

    ghost Value = { List FaultLine };

    ghost view = { λ t. t.faults.items };

    ghost invariant = { λ t. IsLawfulText t.faults.items };
}

impl FaultText {
    /// The text of these faults.
    pub(crate) fn of(faults: Vec<FaultLine>) -> FaultText
        requires { IsLawfulText faults.items }
        ensures { result ≡ faults.items }
    {
        FaultText { faults }
    }

    /// The faults in order, with their lines.
    pub fn lines(&self) -> &[FaultLine]
        ensures value { result.now ≡ self.now }
        ensures lawful { IsLawfulText self.now }
    {
        self.faults.as_slice()
    }
}
