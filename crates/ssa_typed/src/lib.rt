//! Typed code: each operand has the type that its instruction needs.
#![tactic(auto)]

mod builtins;
mod calls;
mod checking;
mod conversions;
mod elements;
mod forms;
mod headers;
mod interfaces;
mod known;
mod operators;
mod pairs;
mod ranges;
mod selects;

pub use checking::{TypedError, type_code};
