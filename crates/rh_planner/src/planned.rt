//! What a text is planned as.

use rh_check::Matrices;
use rh_rules::{Node, PlannedPromise};

/// The nodes, promises and matrices of a text. The number of each is its place, counted from 0: nodes stand in the order of
/// their lines, promises and matrices in that of their declarations.
#[derive(Drop)]
pub struct Drafts {
    pub nodes: Vec<Node>,
    pub promises: Vec<PlannedPromise>,
    pub matrices: Matrices,
}
