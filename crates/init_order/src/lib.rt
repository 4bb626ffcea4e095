//! What initialisers and functions name, which package variables stand on themselves, and the order in which they are
//! initialised. Go specification, "Package initialization".
#![tactic(auto)]

mod edges;
mod initialising;
mod labels;
mod laws;
mod node;
mod rows;
mod taking;

pub use initialising::Reliance;
pub use laws::one_order;
pub use node::Node;
