//! The least set of numbers that is closed under rules of two premises, found by a work list, and rows of items by number.
#![tactic(auto)]

mod solving;
mod table;

pub use solving::{Rule, Search, index, is_marked, solve};
pub use table::Table;
