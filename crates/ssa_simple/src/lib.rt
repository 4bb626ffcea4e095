//! Code of statements that hold no statements, and what code of the others is made of: where `break` and `continue` lead,
//! left sides and their values, results, and the heads of ranges. Go specification, "Statements".
#![tactic(auto)]

mod error;
mod flow;
mod ranges;
mod returning;
mod storing;

pub use flow::{Exit, Flow};
pub use ranges::{bool_type, lower_range_head};
pub use returning::{give, give_loaded, lower_return};
pub use storing::{
    Side, assign, assign_operated, begin_with, declare, define, define_without_values,
    lower_targets, put, store_all,
};
