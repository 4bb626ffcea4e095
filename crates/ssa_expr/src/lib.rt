//! Code of expressions: typed trees to instructions of a function that is built. Go specification, "Expressions".
#![tactic(auto)]

mod builder;
mod built_ins;
mod calls;
mod composites;
mod error;
mod exprs;
mod finishing;
mod joining;
mod places;

pub use builder::{Builder, Parts, integer, zero};
pub use calls::{later_call, lower_values, panic_argument};
pub use exprs::lower_expr;
pub use finishing::{Built, Header};
pub use places::{PlaceOperand, load_place, lower_place, store_place};
