//! Code of blocks and their statements. Go specification, "Statements".
#![tactic(auto)]

mod choosing;
mod error;
mod loops;
mod ranges;
mod selecting;
mod statements;

pub use statements::lower_block;
