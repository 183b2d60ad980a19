//! What a plan is made of, what planning asks of the statements of a text, and its rules.
//! The definitions in specs/ say it all: one row a form (`Facets`), what the lines above say (`Above`), the rules (`Rules`)
//! and what holds of every plan (`Lawful`). The code has the data, and the rows as functions.
//! It stands on rh_task_text, rh_check and rh_sparse.
#![tactic(auto)]

mod asking;
mod block;
mod body;
mod checks;
mod facets;
mod local;
mod node;
mod numbers;
mod shape;

pub use asking::{asked, asks_product, list_inputs, spec_of, suits};
pub use block::OpenBlock;
pub use body::{Body, Step};
pub use checks::{CheckList, PlannedCheck};
pub use facets::{fits, list_used, made, made_len, matrix_named, step_of};
pub use local::{Local, place_of};
pub use node::{Kind, Node, PlannedPromise, SCOPE_WORDS, Scheme};
pub use numbers::Numbers;
pub use shape::{NamedShape, Shape};
