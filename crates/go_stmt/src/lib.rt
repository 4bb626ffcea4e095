//! Whole programs: sources to a typed program, or the first broken rule. Go specification, "Program initialization and
//! execution".
//!
//! A walk over all initialisers and bodies reports each rule that is broken, and the least of them counts.
#![tactic(auto)]

mod ending;
mod error;
mod initials;
mod program;
mod verdicts;

pub use program::{check, target_not_main};
pub use verdicts::can_run;
