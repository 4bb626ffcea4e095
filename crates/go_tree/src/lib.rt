//! Typed programs: what the checker makes of sources, and what code is built of. Names and types are those of the
//! program's tables, and each tree is typed.
//!
//! The drops of trees are written out here, so that they are proved here: one that is derived is proved again, with those of
//! all trees that lead back to it, in each crate that drops one. `ExprKind` is taken apart where it is used, so it keeps a
//! derived one, which leads to those that are written out.
#![tactic(auto)]

mod exprs;
mod functions;
mod packages;
mod program;
mod stmts;
mod variables;

pub use exprs::{
    Callee, Elements, EntryInit, ExprKind, FieldInit, IndexBase, ItemInit, Method, SliceBase,
    TypedExpr, Values,
};
pub use functions::{FunctionDecl, FunctionDecls, FunctionForm};
pub use packages::{Package, Packages};
pub use program::{Bodies, Body, InitStep, InitSteps, Program};
pub use stmts::{
    Comm, DefineTarget, RangeOver, RangeTargets, ReceiveInto, SelectClause, Target, TypeCase,
    TypeClause, TypedArm, TypedBlock, TypedCase, TypedClause, TypedStmt,
};
pub use variables::{DeclaredType, DeclaredTypes, VarIds, Variable, Variables};
