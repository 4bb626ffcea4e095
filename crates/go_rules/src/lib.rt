//! The rules of Go for expressions: what is asked of sound parts, and what they make. Go specification, "Expressions" and
//! "Constant expressions".
#![tactic(auto)]

mod breach;
mod folding;
mod matching;
mod operands;
mod untyped;

pub use breach::{Breach, FoldError, Part};
pub use folding::{
    LogicOp, as_constant, check_count, fold_arithmetic, fold_compare, fold_integer, fold_logic,
    fold_shift, fold_sign, fold_text, fold_unary,
};
pub use matching::{Matched, is_empty_interface, match_compared, match_types};
pub use operands::{
    is_nillable, is_ordered, takes_arithmetic, takes_comparison, takes_logic, takes_shift,
    takes_sign,
};
pub use untyped::{Untyped, kind_fits, untyped_kind};
