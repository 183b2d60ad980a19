//! Program texts: what their lines say, and where a text first goes wrong.
//! The one contract is that of `read_program`: bytes are read as the text that they spell, or refused at their first bad
//! line, with the first reason that holds there. It stands on the words and places of rh_words.
#![tactic(auto)]

mod blocks;
mod body;
mod choice;
mod form;
mod laws;
mod limits;
mod line;
mod parts;
mod printing;
mod program;
mod reader;
mod statement;
mod statements;
mod table;
mod text;
mod values;

pub use laws::{
    a_text_has_one_first_bad_line, a_text_is_read_in_one_way, each_text_is_read_or_has_a_bad_line,
    lawful_texts_keep_their_limits, lists_of_lawful_statements_are_names_and_words,
    printed_texts_read_back, read_texts_are_lawful, read_texts_have_no_bad_line,
    statements_have_the_forms_of_the_table, words_spell_one_statement,
};
pub use printing::print_program;
pub use program::read_program;
pub use statement::{Item, SchemeText, Statement};
pub use text::Text;
