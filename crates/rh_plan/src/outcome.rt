//! How attempts and nodes end.

/// Why a task was skipped or a group stayed closed. All are numbers from 0.
#[derive(Clone, Copy, PartialEq, Eq)]
pub enum Cause {
    /// Its innermost enclosing group did not open.
    Group(u32),
    /// The first promise that it awaits, in await order, that was not put.
    Promise(u32),
}

/// How an attempt ended.
#[derive(Clone, Copy, PartialEq, Eq)]
pub enum Trial {
    /// Its buffer was accepted.
    Accepted,
    /// Its buffer equals the accepted one.
    Agreed,
    /// Its buffer does not equal the accepted one, or none was accepted.
    Differed,
    /// Its buffer fails a check: `which` is the number, from 0, of the first.
    Refused { which: u32 },
    /// Its buffer was accepted with one word corrected: `word` is its place, from 0.
    Corrected { word: u32 },
}

/// How a node ended.
#[derive(Clone, Copy, PartialEq, Eq)]
pub enum Verdict {
    /// Of a task: the attempt of this number, from 0, was accepted.
    Accepted {
        attempt: u32,
    },
    /// Of a task: its attempt was accepted with one word corrected, which is at this place, from 0.
    Corrected {
        word: u32,
    },
    /// Of a task: no attempt was accepted.
    Failed,
    /// Of a task: no attempt was made.
    Skipped(Cause),
    /// Of a group: its tasks may run.
    Opened,
    /// Of a group: its tasks are skipped.
    Closed(Cause),
    /// Of a scope: how many tasks in it, at any depth, were accepted (corrected ones among them), failed, and were skipped.
    Ended {
        accepted: u32,
        failed: u32,
        skipped: u32,
    },
}
