//! What stands in the bodies of a program that call graphs are read off: values that are made, the places that they flow
//! through, and calls. Graphs read this list and never the trees. golang.org/x/tools, package callgraph.
#![tactic(auto)]

mod bodies;
mod clauses;
mod settings;
mod statements;
mod targets;

pub use bodies::uses;
