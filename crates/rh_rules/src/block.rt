//! The blocks that are open below some lines of a text.

use rh_words::Name;

/// An open block.
#[derive(Drop)]
pub enum OpenBlock {
    /// A task, with its name.
    TaskBlock(Name),
    MatrixBlock,
    /// A group, with its own number.
    GroupBlock(u32),
    /// A finish scope, with its name and the number of nodes above its opening line.
    ScopeBlock { name: Name, first: u32 },
}
