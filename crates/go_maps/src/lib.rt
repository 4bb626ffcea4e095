//! Equality of values, and maps of them.
#![tactic(auto)]

mod entries;
mod equality;
mod keys;
mod laws;
mod listed;
mod maps;
mod memory;
mod places;

pub use equality::{equal, is_comparable};
pub use laws::{codes_tell_equality, comparable_is_told, entries_have_equal_keys};
pub use listed::{Entries, Entry};
pub use maps::Maps;
