//! Whether the tokens of a file's tree have the kinds of the fields in which they stand. A tree of the grammar flattens
//! its optional tokens and those of lists; this says which field each of them is.
#![tactic(auto)]

mod decls;
mod exprs;
mod files;
mod stmts;
mod tokens;
mod types;

pub use files::has_roles;
