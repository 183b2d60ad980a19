//! The edges of a plan.

/// A dependency between nodes: `to` starts after `from` ended, and takes the promise from it, where there is one. An edge from a group to
/// a task or group right in it, or in scopes in it, and one from a member to its scope, carry none. All are numbers from 0.
#[derive(Clone, Copy, PartialEq, Eq)]
pub struct Edge {
    pub from: u32,
    pub to: u32,
    pub promise: Option<u32>,
}
