//! Laws of loading: the definition of what is loaded allows one answer at most.
#![tactic(auto)]

mod definitions;
mod laws;

pub use definitions::{go_mod_of_lines, one_project, one_reading};
pub use laws::{one_answer, one_front, one_result};
