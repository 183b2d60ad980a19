//! The nodes and promises of a plan.

use crate::body::Body;
use crate::checks::CheckList;
use crate::numbers::Numbers;
use rh_words::{Name, NameList};

/// How many words the own promise of a scope has: the numbers of its accepted, failed and skipped tasks.
pub const SCOPE_WORDS: u32 = 3;

/// What a node is.
#[derive(Clone, Copy, PartialEq, Eq)]
pub enum Kind {
    /// It runs a body.
    Task,
    /// The tasks in it run only where everything that it awaits was put.
    Group,
    /// It ends after every node in it, and puts how these ended.
    Scope,
}

/// How a task is made resilient.
#[derive(Clone, Copy)]
pub enum Scheme {
    /// One attempt, which is accepted.
    Plain,
    /// Two attempts, and a third where they differ: two that agree are accepted.
    Replicate,
    /// Attempts up to the first that passes all checks, at most `limit` of them, which is 1 to 8.
    Replay { limit: u32 },
    /// One attempt, in which one word of a product is corrected where its check fails.
    Abft,
}

/// A task, a group or a finish scope. Nodes and promises are named by their numbers, counted from 0.
#[derive(Drop)]
pub struct Node {
    pub name: Name,
    pub kind: Kind,
    /// The scheme of a task. A group and a scope have `Plain`.
    pub scheme: Scheme,
    /// The innermost enclosing group.
    pub group: Option<u32>,
    /// The promises that it awaits, in await order. A scope awaits none.
    pub awaits: Numbers,
    /// Of a scope the nodes inside it at any depth, ascending. Other nodes have none.
    pub members: Numbers,
    /// The promises that it may put, in the order of its body. A scope puts its own, a group none.
    pub puts: Numbers,
    /// The steps of a task. A group and a scope have none.
    pub body: Body,
    /// The checks of a task, in order. A group and a scope have none.
    pub checks: CheckList,
    /// The names of the results of its `let` lines, in order. A group and a scope have none.
    pub lets: NameList,
}

/// A promise.
#[derive(Drop)]
pub struct PlannedPromise {
    pub name: Name,
    /// How many words it has.
    pub len: u32,
    /// The number of the node that may put it.
    pub putter: Option<u32>,
    /// A report tells none of its words.
    pub temp: bool,
    /// It is a finish scope's own.
    pub scope: bool,
}
