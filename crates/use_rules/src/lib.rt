//! Which names of variables have to be used, and which of them are not. Go specification, "Variable declarations" and "Type
//! switches".
#![tactic(auto)]

mod flags;
mod needs;

pub use needs::{Need, Needs};
