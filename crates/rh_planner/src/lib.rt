//! Planning: the statements of a text as nodes, promises and matrices, line by line.
//! The one contract is that of `drafts`: a text is planned as its nodes, promises and matrices, which are lawful, or refused at its
//! first statement that breaks a rule, with the first reason that holds there. It stands on the definitions of rh_rules
//! and the tables of rh_tables.
#![tactic(auto)]

mod laws;
mod planned;
mod planner;
mod planning;

pub use laws::{
    a_text_has_one_first_break, a_text_is_planned_in_one_way,
    each_text_is_planned_or_has_a_first_break, planned_texts_are_lawful,
    planned_texts_have_no_break,
};
pub use planned::Drafts;
pub use planning::drafts;
