//! The checks of a task.

ghost use Rattle.std.specs.Prelude.{◌≡◌, [], ◌∷◌, ◌++◌, OnOk, OnErr};
ghost use Rattle.rh_rules.specs.Kept.{planned_checks, kept_users, kept_check};

use rh_check::{Spec, UserSpec};
use rh_words::OutOfMemory;
use std::alloc::Global;
use std::marker::Model;

/// A check of a task: the number of the promise whose put it reads, and what it asks.
#[derive(Clone, Copy)]
pub struct PlannedCheck {
    pub promise: u32,
    pub spec: Spec,
}

/// The checks of a task in order, each with the spec of the handed-in check that it names, where it names one.
#[derive(Drop)]
pub struct CheckList {
    checks: Vec<PlannedCheck>,
    users: Vec<Option<UserSpec>>,
}

impl Model for CheckList {
    ghost use Rattle.std.specs.Prelude.{List, ◌≡◌, length};
    ghost use Rattle.rh_rules.specs.Kept.{KeptCheck, kept_checks};

    ghost Value = { List KeptCheck };

    ghost view = { λ c. kept_checks c.checks.items c.users.items };

    ghost invariant = { λ c. length c.checks.items ≡ length c.users.items };
}

impl CheckList {
    /// No checks. It takes no memory.
    pub fn new(alloc: Global) -> CheckList
        ensures { result ≡ [] }
    {
        CheckList {
            checks: Vec::new(alloc),
            users: Vec::new(alloc),
        }
    }

    /// Adds a check at the end, with the kept spec of the handed-in check that it names.
    pub fn push(&mut self, check: PlannedCheck, user: Option<UserSpec>) -> Result<(), OutOfMemory>
        ensures ok { OnOk result (self.new ≡ self.old ++ kept_check check user ∷ []) }
        ensures err { OnErr result (self.new ≡ self.old) }
    {
        self.checks.push(check)?;
        match self.users.push(user) {
            Ok(()) => Ok(()),
            Err(_) => {
                self.checks.pop();
                Err(OutOfMemory)
            }
        }
    }

    /// The checks in order, without the kept specs.
    pub fn as_slice(&self) -> &[PlannedCheck]
        ensures { result.now ≡ planned_checks self.now }
    {
        self.checks.as_slice()
    }

    /// The kept specs of the handed-in checks, one place for each check.
    pub fn users(&self) -> &[Option<UserSpec>]
        ensures { result.now ≡ kept_users self.now }
    {
        self.users.as_slice()
    }
}
