//! Graphs of numbered nodes: strongly connected components and an order of them, which nodes stand on themselves, from
//! which nodes one comes to a mark, and which fault is heard first where faults silence those of nodes that stand on
//! theirs.
//!
//! A graph is a slice: for each node the targets of its edges. Each call takes time linear in the nodes and edges, and
//! none calls itself.
#![tactic(auto)]

mod components;
mod fault;
mod reach;
mod silence;
mod targets;

pub use components::{Components, components_of};
pub use fault::Fault;
pub use reach::{on_themselves, reaching};
pub use silence::{are_at_nodes, first_unsilenced};
pub use targets::is_graph;
