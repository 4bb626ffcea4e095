//! The trees of Go files. Each node keeps its tokens in the order in which they are written, so a tree is written with
//! its own tokens. A list keeps behind each item the comma or semicolon that stands there.
//!
//! The drop of each tree is written out here, so that it is proved here: one that is derived is proved again, with those of
//! all trees that lead back to it, in each crate that drops one.
#![tactic(auto)]

mod decls;
mod exprs;
mod stmts;
mod type_exprs;

pub use decls::{Decl, DeclLine, FileTree, FuncDecl, ImportDecl, ImportSpec, TypeSpec, ValueSpec};
pub use exprs::{Element, Expr, ListedExpr};
pub use stmts::{
    Binding, Block, CaseClause, CommClause, ForStmt, IfArm, Label, RangeStmt, Stmt, StmtLine,
    SwitchStmt, TypeSwitchStmt,
};
pub use type_exprs::{
    ElementLine, FieldLine, ListedName, NamedType, Param, Params, ResultForm, Signature, TypeExpr,
};
