//! The generated program: types with one method each, and functions that call it through an interface.
#![tactic(auto)]

mod generating;

pub use generating::generated;
