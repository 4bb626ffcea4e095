//! The parser: the tree of a file's tokens. Go specification, "Source file organization".
//!
//! The reach of every token is computed first; then part after part is read.
#![tactic(auto)]

mod parser;
mod reach;

pub use parse_answer::ParseError;
pub use parser::parse;
