//! Injected faults: the text that names them, and their list in the order of their places.
//! The crates above read and print the text, put its faults in by numbers, and ask which faults an attempt or a local has.
//! It stands on rh_words alone.
#![tactic(auto)]

mod fault_text;
mod faults;
mod laws;
mod printing;
mod reading;

pub use fault_text::{FaultLine, FaultText};
pub use faults::{Faults, Strike};
pub use laws::{
    a_fault_text_has_one_first_bad_line, a_fault_text_is_read_in_one_way,
    each_fault_text_is_read_or_has_a_bad_line, each_place_has_one_fault,
    printed_fault_texts_read_back, read_fault_texts_have_no_bad_line,
};
pub use printing::print_faults;
pub use reading::read_faults;
