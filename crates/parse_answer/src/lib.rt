//! What a parser answers: why tokens have no tree, and which answer is right.
#![tactic(auto)]

mod error;

pub use error::ParseError;
