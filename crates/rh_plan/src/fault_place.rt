//! Places of faults.

ghost use Rattle.std.specs.Prelude.{◌≡◌};
ghost use Rattle.rh_plan.specs.NamedFaults.{place_of};

use rh_injector::Strike;

/// The place of a fault, by numbers from 0. Places are ordered by task, then by attempt, then by local, then by word.
#[derive(Clone, Copy, PartialEq, Eq, PartialOrd, Ord)]
pub struct FaultPlace {
    pub node: u32,
    pub attempt: u32,
    pub local: u32,
    pub word: u32,
}

/// The place of a fault.
pub fn place_of(strike: &Strike) -> FaultPlace
    ensures { result ≡ place_of strike.now }
{
    FaultPlace {
        node: strike.node,
        attempt: strike.attempt,
        local: strike.local,
        word: strike.word,
    }
}
