//! Tokens, and the definitions that relate them to bytes: into which tokens bytes are cut (`Lexical`), and what their
//! pieces and literals are.
#![tactic(auto)]

mod laws;
mod token;
mod tokens;

pub use laws::{one_cut, spelled_tokens};
pub use token::{Kind, Token};
pub use tokens::Tokens;
