//! What checking a program's declarations comes to: what its packages declare, or why they are refused. It stands apart from
//! the rules of declarations, so that the rules of expressions need only this.
#![tactic(auto)]

mod declared;
mod error;

pub use declared::{Declared, LocalTypes};
pub use error::CheckError;
