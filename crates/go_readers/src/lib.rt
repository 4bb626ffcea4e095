//! Readers of the productions of Go's grammar. Each takes the tokens that are left, reads its production from their front, and
//! gives the tree and the tokens behind it: exactly what its definition in `go_grammar` reads.
//!
//! They are one cycle of recursion. Only the entries for expressions, types and lists of statements lower the nesting that
//! is left, each behind a token that was read; where none is left, nothing is read. What holds no recursion stands in
//! `go_fragments`.
#![tactic(auto)]

mod decls;
mod exprs;
mod loops;
mod stmts;
mod types;

pub use decls::{decl, func_decl};
