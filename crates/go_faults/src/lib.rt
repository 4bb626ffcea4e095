//! Rules that a program breaks, the order in which they count, and what a checker sees in a part of a program: something
//! sound or nothing, and the rules that are broken in it.
//!
//! A checker goes over a whole program and reports each broken rule; `Least` keeps the one that is to be named.
#![tactic(auto)]

mod fault;
mod laws;
mod least;

pub use fault::Fault;
pub use laws::{in_two_goes, least_of_all};
pub use least::Least;
