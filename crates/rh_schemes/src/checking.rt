//! The first check of a task that a buffer fails.

ghost use Rattle.std.specs.Prelude.{◌≡◌, ◌≤◌, length};
ghost use Rattle.rh_words.specs.declared.limits.TheConstants.{MAX_CHECKS};
ghost use Rattle.std.specs.List.{AllByRecursion};
ghost use Rattle.rh_schemes.specs.Checking.{CanBeMade, planned_passes, first_planned};

use rh_attempt::Buffer;
use rh_check::{Checks, Matrices, passes};
use rh_rules::PlannedCheck;
use rh_words::Inputs;

/// The number of the first check that the buffer fails.
pub(crate) fn first_failing<I: Inputs, C: Checks>(
    checks: &[PlannedCheck],
    matrices: &Matrices,
    handed: &C,
    inputs: &I,
    buffer: &Buffer,
) -> Option<u32>
    requires few { length checks.now ≤ MAX_CHECKS }
    requires fits { AllByRecursion (CanBeMade matrices.now (C.specs handed.now) (I.lists inputs.now) buffer.now) checks.now }
    ensures { result ≡ first_planned matrices.now (C.specs handed.now) (I.lists inputs.now) buffer.now checks.now }
{
    for (which, check) in checks.iter().enumerate() {
        if !check_passes(check, matrices, handed, inputs, buffer) {
            return Some(which as u32);
        }
    }
    None
}

/// Whether the check passes: it does where the buffer does not put its promise.
fn check_passes<I: Inputs, C: Checks>(
    check: &PlannedCheck,
    matrices: &Matrices,
    handed: &C,
    inputs: &I,
    buffer: &Buffer,
) -> bool
    requires { CanBeMade matrices.now (C.specs handed.now) (I.lists inputs.now) buffer.now check.now }
    ensures { result ≡ planned_passes matrices.now (C.specs handed.now) (I.lists inputs.now) buffer.now check.now }
{
    match buffer.put_of(check.promise) {
        None => true,
        Some(words) => passes(&check.spec, matrices, handed, inputs, words.as_slice()),
    }
}
