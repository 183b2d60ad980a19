//! Injected failures: calls are numbered, and those of chosen numbers fail.

ghost use Rattle.std.specs.Prelude.{◌≡◌, OnOk, OnErr};
ghost use Rattle.rh_outside.specs.Counts.{no_calls, is_failing, next_call, with_failing};

use crate::count::Count;
use rh_words::OutOfMemory;
use std::alloc::Global;
use std::marker::Model;

/// The numbers of the calls that fail, and how many calls there were.
#[derive(Drop)]
pub(crate) struct FailingCalls {
    failing: Vec<u32>,
    made: Count,
}

impl Model for FailingCalls {
    ghost use Rattle.rh_outside.specs.Counts.{CallNumbers};

    ghost Value = { CallNumbers };

    ghost view = { λ c. record { failing = c.failing.items; made = c.made } };
}

impl FailingCalls {
    pub(crate) fn new(alloc: Global) -> FailingCalls
        ensures { result ≡ no_calls }
    {
        FailingCalls {
            failing: Vec::new(alloc),
            made: Count::new(),
        }
    }

    /// Lets the call of this number fail. The first has number 0.
    pub(crate) fn fail_call(&mut self, call: u32) -> Result<(), OutOfMemory>
        ensures ok { OnOk result (self.new ≡ with_failing self.old call) }
        ensures err { OnErr result (self.new ≡ self.old) }
    {
        self.failing.push(call)?;
        Ok(())
    }

    /// Counts a call, and answers whether it is one that fails.
    pub(crate) fn next_fails(&mut self) -> bool
        ensures fails { result ≡ is_failing self.old }
        ensures after { self.new ≡ next_call self.old }
    {
        let number = self.made.value();
        let fails = self.failing.iter().any(|call| u64::from(*call) == number);
        self.made.rise();
        fails
    }
}
