//! What holds of each typed program: its nodes have parts of the types that they need, and the names, fields and methods
//! that they select exist. The crate has definitions and laws about them, and no code that runs.
#![tactic(auto)]

mod forms;
mod laws;

pub use forms::Form;
pub use laws::tests_are_one;
