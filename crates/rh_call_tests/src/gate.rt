//! What a gate is told of the attempts of a call.

use crate::examples::{REPLAYED, REPLAYED_FAULTS, REPLAYED_REPORT};
use crate::faults::stored_with;
use crate::handed_in::runs_with;
use rh_check::NoChecks;
use rh_schemes::Gate;
use std::alloc::Global;
use std::cell::Cell;
use std::test::Fail;

/// Keeps what it is told as decimal digits: 1 and 2 before and after attempt 0, 3 and 4 before and after attempt 1, and so on.
#[derive(Drop)]
struct Told {
    digits: Cell<u64>,
}

impl Told {
    fn add(&self, digit: u32) {
        let before = self.digits.get();
        self.digits
            .set(before.wrapping_mul(10).wrapping_add(u64::from(digit)));
    }
}

impl Gate for Told {
    fn before_attempt(&self, _worker: u32, _node: u32, attempt: u32) {
        self.add(attempt.wrapping_mul(2).wrapping_add(1));
    }

    fn after_attempt(&self, _worker: u32, _node: u32, attempt: u32) {
        self.add(attempt.wrapping_mul(2).wrapping_add(2));
    }
}

/// Whether a replayed task has its report with this gate.
fn runs_through(alloc: Global, gate: &Told) -> Result<bool, Fail> {
    let mut store = stored_with(alloc, REPLAYED, REPLAYED_FAULTS)?;
    runs_with(
        alloc,
        &mut store,
        &NoChecks,
        gate,
        (0, REPLAYED_REPORT, b""),
    )
}

#[test]
fn a_gate_is_told_of_each_attempt(rt: HostRuntime) -> Result<(), Fail> {
    let gate = Told {
        digits: Cell::new(0),
    };
    assert!(rt; runs_through(rt.alloc(), &gate)? && gate.digits.get() == 123_456);
    Ok(())
}
