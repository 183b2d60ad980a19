//! What planning keeps of the lines above a line: what is declared, by name; the blocks and the task that are open, with the locals of
//! that; and the nodes that tasks, groups and scopes become. rh_planner asks these tables line by line. It stands on the definitions of
//! rh_rules.
#![tactic(auto)]

mod awaiting;
mod blocks;
mod declarations;
mod handed;
mod line_use;
mod matrices;
mod node;
mod open_task;
mod used;

pub use awaiting::{are_distinct, await_locals, await_reason};
pub use blocks::Blocks;
pub use declarations::Declared;
pub use handed::Handed;
pub use line_use::LineUse;
pub use matrices::{Named, add_row, close_matrix};
pub use node::{group_node, lets_of, scope_node, task_node};
pub use open_task::OpenTask;
