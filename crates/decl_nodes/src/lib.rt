//! The declarations of a program as numbered nodes: in which order packages and files come, what they declare and import,
//! what names stand for, what nodes stand on, and which rules are violated at them. Go specification, "Declarations and
//! scope".
#![tactic(auto)]

mod bases;
mod error;
mod graphs;
mod importing;
mod items;
mod nodes;
mod package_order;
mod tables;
mod violations;

pub use bases::{Base, TypeFact, base_of, define_basic, exported, type_facts};
pub use graphs::{Order, add_edge, is_marked, mark, no_edges, order_of, reach_marked, unmarked};
pub use importing::{file_scopes, read_imports};
pub use items::{Form, Item, Listed, collect, list_files};
pub use nodes::{
    Arguments, ElementNode, FieldNode, Folded, Kind, Node, Nodes, Operator, SignatureNode,
};
pub use package_order::{PackageOrder, narrow, order_packages, packages_of};
pub use tables::{
    Declaration, Found, Imported, InBlock, InNode, KnownNames, MethodNode, Sort, Spot, Tables, Tie,
    package_of,
};
pub use violations::{Violation, Violations};
