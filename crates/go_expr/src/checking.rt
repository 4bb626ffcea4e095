//! Types and expressions as callers ask for them. Go specification, "Types", "Expressions", "Assignability".

use crate::decls::see_decl_in;
use crate::error::lost;
use crate::exprs::see;
use crate::types::see_type as see_type_in;
use go_base::{NoMemory, Pos, TypeId};
use go_declared::CheckError;
use go_faults::Least;
use go_scope::{Position, Scope};
use go_sources::{SourceFile, Sources};
use go_syntax::{Decl, Expr, TypeExpr};
use go_tree::TypedExpr;
use std::alloc::Global;
use typed_parts::{Given, Seen, assigned, by_default, type_of, value_of};

/// What an expression was found to be.
#[derive(Drop)]
pub enum Checked {
    Typed(TypedExpr),
    /// No row is broken in it, but it stands on a name that is unsound.
    Unsound,
}

impl Checked {
    fn of(expr: Option<TypedExpr>) -> Checked {
        match expr {
            Some(expr) => Checked::Typed(expr),
            None => Checked::Unsound,
        }
    }

    fn of_given(given: Option<Given>) -> Checked {
        match given {
            Some(given) => Checked::Typed(given.expr),
            None => Checked::Unsound,
        }
    }
}

fn entered<'a>(sources: &'a Sources, scope: &Scope) -> Result<&'a SourceFile, NoMemory> {
    match sources.file(scope.file()) {
        Some(source) => Ok(source),
        None => Err(lost()),
    }
}

// ---- rows are reported in the scope

/// What an expression is seen to be, with no type wanted; each row that is broken in it, outside of the bodies of literals,
/// is reported in the scope.
pub fn see_expr(
    alloc: Global,
    sources: &Sources,
    scope: &mut Scope,
    expr: &Expr,
) -> Result<Seen, NoMemory> {
    let source = entered(sources, scope)?;
    see(alloc, source, scope, expr)
}

/// The type that is written, where it is sound; each row that is broken in it is reported in the scope.
pub fn see_type(
    alloc: Global,
    sources: &Sources,
    scope: &mut Scope,
    written: &TypeExpr,
) -> Result<Option<TypeId>, NoMemory> {
    let source = entered(sources, scope)?;
    see_type_in(alloc, source, scope, written, Position::Apart)
}

/// As `see_type`, of an expression that is to be a type: N3 where it is none.
pub fn see_item(
    alloc: Global,
    sources: &Sources,
    scope: &mut Scope,
    written: &Expr,
) -> Result<Option<TypeId>, NoMemory> {
    let seen = see_expr(alloc, sources, scope, written)?;
    Ok(type_of(scope.ground(), seen))
}

/// Holds the constants or types of a declaration in a body; each row that is broken in it is reported in the scope. Those of
/// its names that the block does not have are held all the same.
pub fn see_decl(
    alloc: Global,
    sources: &Sources,
    scope: &mut Scope,
    declaration: &Decl,
) -> Result<(), NoMemory> {
    let source = entered(sources, scope)?;
    see_decl_in(alloc, source, scope, declaration)
}

// ---- the first broken row is answered

/// What was seen while the scope's faults were set aside: the first row that was broken, or the answer.
fn refused<T: Drop>(scope: &mut Scope, before: Least, answer: T) -> Result<T, CheckError> {
    let found = scope.set_least(before);
    match found.fault {
        Some(fault) => Err(CheckError::Refused {
            pos: fault.pos,
            rule: fault.rule,
        }),
        None => Ok(answer),
    }
}

/// The type that is written. `Refused` with the first broken row in it; None exactly where no row is broken in it and it
/// stands on an unsound name.
pub fn check_type(
    alloc: Global,
    sources: &Sources,
    scope: &mut Scope,
    written: &TypeExpr,
) -> Result<Option<TypeId>, CheckError> {
    let before = scope.set_least(Least::new());
    let of = see_type(alloc, sources, scope, written)?;
    refused(scope, before, of)
}

/// As `check_type`, of an expression that is to be a type: N3 where it is none.
pub fn check_item(
    alloc: Global,
    sources: &Sources,
    scope: &mut Scope,
    written: &Expr,
) -> Result<Option<TypeId>, CheckError> {
    let before = scope.set_least(Least::new());
    let of = see_item(alloc, sources, scope, written)?;
    refused(scope, before, of)
}

/// The typed tree of an expression: of one value that is made one of a type where one is wanted. Without a wanted type the
/// expression may be `nil`, untyped, or a call of no or several results. `Refused` with the first broken row in it, outside
/// of the bodies of literals.
pub fn check_expr(
    alloc: Global,
    sources: &Sources,
    scope: &mut Scope,
    expr: &Expr,
    want: Option<TypeId>,
) -> Result<Checked, CheckError> {
    let before = scope.set_least(Least::new());
    let seen = see_expr(alloc, sources, scope, expr)?;
    let checked = match want {
        Some(to) => {
            let given = typed_parts::one_value(scope.ground(), seen);
            Checked::of(assigned(scope.ground(), given, Some(to))?)
        }
        None => Checked::of_given(value_of(scope.ground(), seen)),
    };
    refused(scope, before, checked)
}

/// As `check_expr` without a wanted type, and then E7 at the expression where it is a call of no or several results.
pub fn check_one(
    alloc: Global,
    sources: &Sources,
    scope: &mut Scope,
    expr: &Expr,
) -> Result<Checked, CheckError> {
    let before = scope.set_least(Least::new());
    let seen = see_expr(alloc, sources, scope, expr)?;
    let given = typed_parts::one_value(scope.ground(), seen);
    refused(scope, before, Checked::of_given(given))
}

/// As `check_one`, and then the default type of an untyped value: E16, K1.
pub fn check_default(
    alloc: Global,
    sources: &Sources,
    scope: &mut Scope,
    expr: &Expr,
) -> Result<Checked, CheckError> {
    let before = scope.set_least(Least::new());
    let seen = see_expr(alloc, sources, scope, expr)?;
    let given = typed_parts::one_value(scope.ground(), seen);
    let typed = by_default(scope.ground(), given)?;
    refused(scope, before, Checked::of(typed))
}

/// As `check_one`, and then E1 or K1 where the value is not assignable to the type. Without one only `check_one` is asked,
/// and the answer is `Unsound`.
pub fn check_assigned(
    alloc: Global,
    sources: &Sources,
    scope: &mut Scope,
    expr: &Expr,
    to: Option<TypeId>,
) -> Result<Checked, CheckError> {
    let before = scope.set_least(Least::new());
    let seen = see_expr(alloc, sources, scope, expr)?;
    let given = typed_parts::one_value(scope.ground(), seen);
    let typed = assigned(scope.ground(), given, to)?;
    refused(scope, before, Checked::of(typed))
}

/// That an expression written at a place is one value: E7.
pub fn one_value(scope: &mut Scope, at: Pos, expr: TypedExpr) -> Result<Checked, CheckError> {
    let before = scope.set_least(Least::new());
    let seen = Seen::value(at, Some(expr));
    let given = typed_parts::one_value(scope.ground(), seen);
    refused(scope, before, Checked::of_given(given))
}

/// An expression that `check_expr` gave without a wanted type, as a value of a type: E1, K1; or of its default type:
/// E16, K1. The place is where it is written, its parentheses with it.
pub fn settle(
    _alloc: Global,
    scope: &mut Scope,
    at: Pos,
    expr: TypedExpr,
    to: Option<TypeId>,
) -> Result<Checked, CheckError> {
    let before = scope.set_least(Least::new());
    let typed = typed_parts::settle(scope.ground(), Some(Given { at, expr }), to)?;
    refused(scope, before, Checked::of(typed))
}

/// Holds the constants or types of a declaration in a body. `Refused` with the first broken row in it; those of its names
/// that the block does not have are held all the same.
pub fn add_decl(
    alloc: Global,
    sources: &Sources,
    scope: &mut Scope,
    declaration: &Decl,
) -> Result<(), CheckError> {
    let before = scope.set_least(Least::new());
    see_decl(alloc, sources, scope, declaration)?;
    refused(scope, before, ())
}
