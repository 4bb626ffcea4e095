//! The interpreter: sane and typed code, a list of choices and a bound to the output of its run and its ending.
//!
//! A code is planned first, by `code_plan`. The machine then steps: one instruction of the current goroutine's top frame
//! at a time. No call of the program is a call of the host.
#![tactic(auto)]

mod error;
mod running;
mod stepping;

pub use error::RunError;
pub use running::{run, run_plan};
