//! Calls: how functions are entered and left, calls that are put off, and how frames are unwound.
#![tactic(auto)]

pub mod calling;
mod function_values;
pub mod unwinding;
