//! The rules of Go for the primary expressions over sound parts but calls and composite literals: selectors, index and slice
//! expressions, type assertions, and lists of values that go to targets. Go specification, "Primary expressions" and
//! "Assignment statements".
#![tactic(auto)]

mod asserting;
mod indexing;
mod listing;
mod selecting;
mod slicing;
mod steps;

pub use asserting::{asserted_case, has_ok_form, interface_operand, type_assertion, with_ok};
pub use indexing::index_expression;
pub use listing::{Into, Listed, values_into};
pub use selecting::selector;
pub use slicing::slice_expression;
