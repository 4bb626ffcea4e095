//! Built-in functions, and what goroutines do by channels and at switch points.
#![tactic(auto)]

pub mod built_ins;
pub mod channels;
mod elements;
mod recovering;
