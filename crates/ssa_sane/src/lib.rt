//! Which functions of code are sane, and which registers are available in them.
#![tactic(auto)]

mod availability;
mod blocks;
mod checking;
mod counts;
mod dominators;
mod flow;
mod homes;
mod order;
mod places;
mod reach;
mod tree;
mod uses;

pub use availability::{Available, Registers};
pub use checking::{SanityError, sanity};
pub use uses::push_used;
