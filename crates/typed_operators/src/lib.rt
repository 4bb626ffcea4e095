//! The rules of Go for operators over sound parts, and what statements ask of expressions. Go specification, "Operators",
//! "Arithmetic operators", "Comparison operators", "Logical operators", "Address operators" and "Statements".
#![tactic(auto)]

mod binary;
mod comparing;
mod pairs;
mod shifting;
mod stating;
mod unary;

pub use binary::{arithmetic, binary_expression, logical};
pub use comparing::{case_value, comparison, truth_case};
pub use shifting::shift;
pub use stating::{
    Ranged, Sent, Stepped, array_length, condition, constant_value, range_operand, send, step,
    switch_tag, target,
};
pub use unary::{SignOp, address_of, indirection, negation, receive, sign};
