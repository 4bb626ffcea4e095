//! What is read off typed programs: which variables need a cell, what functions are called, which functions are part of the
//! program, and which expressions have no effect.
#![tactic(auto)]

mod calm;
mod cells;
mod naming;
mod places;
mod roots;
mod statements;

pub use calm::is_calm;
pub use cells::{VarSet, cells_of, needs_cell};
pub use naming::{function_name, is_in_program, labels};
