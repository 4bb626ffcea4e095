//! The walk over statements and the bodies of literals in them. Go specification, "Statements".
//!
//! Bodies of literals are walked where they stand, while the names around them are in scope. Each rule that is broken is
//! reported in the scope.
#![tactic(auto)]

mod clauses;
mod literals;
mod statements;

pub use literals::{bodies_of_expr, bodies_of_list};
pub use statements::walk_statements;
