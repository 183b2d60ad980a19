//! Events of a run, and the entries of a journal.

use rh_plan::{Trial, Verdict};

/// What happens in a run. Nodes, promises and attempts are named by their numbers, from 0.
#[derive(Clone, Copy, PartialEq, Eq)]
pub enum Event {
    /// A worker takes the node.
    Claim {
        node: u32,
    },
    /// An attempt of the task was made, and ended so.
    Attempt {
        node: u32,
        attempt: u32,
        trial: Trial,
    },
    /// The promise is put, with what this attempt made. A scope's put and those of a corrected task have attempt 0.
    Put {
        promise: u32,
        attempt: u32,
    },
    /// The promise will not be put.
    Void {
        promise: u32,
    },
    /// The node gives up its reference of the promise, or, where there is none, the report does.
    Release {
        promise: u32,
        by: Option<u32>,
    },
    /// The words of the promise are given up.
    Free {
        promise: u32,
    },
    /// The node ended so.
    Decide {
        node: u32,
        verdict: Verdict,
    },
}

/// An event, with its number in the journal, from 0, and the number of the worker that it happened on.
#[derive(Clone, Copy, PartialEq, Eq)]
pub struct Entry {
    pub number: u64,
    pub worker: u32,
    pub event: Event,
}
