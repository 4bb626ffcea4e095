//! Where the trees of a file begin: the first byte of each expression, type, statement and declaration. Each call gives
//! the start of the first token that its tree is written with (`Begins`).
#![tactic(auto)]

mod starts;

pub use starts::{decl_start, expr_start, stmt_start, type_start};
