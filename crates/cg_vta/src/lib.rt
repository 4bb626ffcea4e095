//! The call graph by flows of values. golang.org/x/tools, package callgraph/vta.
//!
//! A value is in a node where a path of flows leads from where it is made. Flows through calls go by the candidates of all
//! classes and signatures, so they stand before any value flows; arguments and results of all calls that choose from a group
//! meet at two nodes of the group.
#![tactic(auto)]

mod asks;
mod by_flow;
mod called;
mod error;
mod facts;
mod goals;
mod laws;
mod passing;
mod ways;

pub use by_flow::vta;
pub use laws::vta_within_cha;
