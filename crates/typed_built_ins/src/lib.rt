//! The rules of Go for calls of built-in functions over sound parts. Go specification, "Built-in functions".
#![tactic(auto)]

mod built_ins;
mod extremes;
mod growing;
mod making;
mod measuring;
mod moving;

pub use built_ins::built_in;
