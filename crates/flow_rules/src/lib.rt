//! What bodies keep beside their types: labels and branches, and which statements are left by a `break`. Go specification,
//! "Labeled statements", "Break statements", "Continue statements", "Terminating statements".
#![tactic(auto)]

mod around;
mod branches;
mod terminating;

pub use branches::Branches;
pub use terminating::{choice_ends, loop_ends, select_ends, switch_ends};
