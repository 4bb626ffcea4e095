//! The graph of imports: which import is the first on a cycle.
#![tactic(auto)]

mod cycles;
mod edges;
mod ranks;
mod walk;

pub use cycles::first_on_cycle;
pub use edges::Edge;
