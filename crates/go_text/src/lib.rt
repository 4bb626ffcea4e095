//! The texts of types, names, strings and numbers, as printed code and the texts of panics have them.
#![tactic(auto)]

mod joining;
mod labels;
mod naming;
mod scalars;
mod sorting;
mod type_texts;

pub use joining::separate;
pub use labels::Labels;
pub use naming::push_method;
pub use scalars::{push_int, push_number, push_quoted};
pub use type_texts::{push_type, type_text};
