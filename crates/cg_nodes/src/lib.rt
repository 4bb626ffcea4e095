//! What stands in the expressions of a program that call graphs are read off: values that are made, the places that they
//! flow through, and calls. golang.org/x/tools, package callgraph.
#![tactic(auto)]

mod calls;
mod expressions;
mod flows;
mod kinds;
mod nodes;
mod places;

pub use expressions::{in_expr, in_list, in_values};
pub use flows::{box_value, flow, put, store_key};
pub use kinds::{carries, is_function, is_interface};
pub use nodes::{Called, Group, Mention, Node, Parts, Selector, Spot, Value};
pub use places::{exprs_of, node_of, part_node, parts_in, range_parts};
