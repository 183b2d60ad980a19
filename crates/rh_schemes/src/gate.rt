//! What is told of each attempt, before and after it.

/// Is told of each attempt of a task, by the numbers of the worker, the node and the attempt, each from 0. A test counts attempts by it.
pub trait Gate {
    /// The attempt is about to be made.
    fn before_attempt(&self, worker: u32, node: u32, attempt: u32);

    /// The attempt was made, or memory was wanting.
    fn after_attempt(&self, worker: u32, node: u32, attempt: u32);
}

/// Does nothing.
pub struct OpenGate;

impl Gate for OpenGate {
    fn before_attempt(&self, _worker: u32, _node: u32, _attempt: u32) {}

    fn after_attempt(&self, _worker: u32, _node: u32, _attempt: u32) {}
}
