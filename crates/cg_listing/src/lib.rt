//! The listing of a call graph. golang.org/x/tools, cmd/callgraph.
#![tactic(auto)]

mod listing;
mod names;
mod pending;
mod places;
mod rows;

pub use listing::write_edges;
