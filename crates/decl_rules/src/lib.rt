//! The rules of declarations: what their nodes denote, which types and values they have, how large the types are, and which
//! rules are violated at them. Go specification, "Types", "Constants", "Type declarations", "Method declarations".
#![tactic(auto)]

mod asking;
mod cycles;
mod denoting;
mod edges;
mod extent;
mod receivers;
mod rows;
mod runes;
mod shapes;
mod values;

pub use asking::ask_rules;
pub use cycles::holding;
pub use denoting::{Denoted, Denoting};
pub use receivers::{Receiver, receiver_base};
pub use rows::Facts;
pub use shapes::Shapes;
pub use values::{Value, Values};
