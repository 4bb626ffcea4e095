//! How large types are, each found once.
#![tactic(auto)]

mod nesting;
mod sizes;

pub use sizes::{MOST_LEAVES, MOST_NESTING, Size, Sizes};
