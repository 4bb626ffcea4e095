//! Types and expressions in initialisers and bodies: trees as they are written to typed trees, or the rows that are broken
//! in them. Go specification, "Types", "Expressions".
//!
//! A `Scope` (`go_scope`) holds what was declared and the blocks that are open. `see_expr`, `see_type`, `see_item` and `see_decl` walk a
//! tree whole, report each broken row in the scope and answer what is sound; the calls named `check_..` answer the first
//! broken row of what they were handed instead.
#![tactic(auto)]

mod checking;
mod composites;
mod constants;
mod decls;
mod error;
mod exprs;
mod joining;
mod literals;
mod operators;
mod selecting;
mod types;

pub use checking::{
    Checked, add_decl, check_assigned, check_default, check_expr, check_item, check_one,
    check_type, one_value, see_decl, see_expr, see_item, see_type, settle,
};
pub use operators::binary_op;
