//! Selectors and calls of what was seen. Go specification, "Selectors", "Qualified identifiers", "Calls".

use crate::joining::kept;
use go_ast::Token;
use go_base::{FuncId, NameId, NoMemory, Pos, TypeId};
use go_names::{ImportOf, Mentioned};
use go_scope::Scope;
use go_sources::SourceFile;
use go_syntax::Expr;
use go_tree::{ExprKind, Method, TypedExpr};
use go_type::{SelectError, SelectionKind, Types, find_selector};
use std::alloc::Global;
use typed_calls::call;
use typed_parts::{Seen, beside};
use typed_primaries::selector;

/// The import that an operand names, and where it stands.
pub(crate) fn operand_import(
    source: &SourceFile,
    scope: &Scope,
    operand: &Expr,
) -> Result<Option<(Pos, ImportOf)>, NoMemory> {
    let Expr::Name(package) = operand else {
        return Ok(None);
    };
    match scope.import_named(source, *package)? {
        Some(import) => Ok(Some((scope.pos(package.start), import))),
        None => Ok(None),
    }
}

/// `x.name`, where `x` is no import.
pub(crate) fn select(
    alloc: Global,
    source: &SourceFile,
    scope: &mut Scope,
    x: Seen,
    token: Token,
) -> Result<Seen, NoMemory> {
    let at = x.at;
    let name_at = scope.pos(token.start);
    let named = scope.named_in_package(source, token);
    let ((name, package), x) = beside(named, x)?;
    let expr = selector(scope.ground(), x, name_at, name, package)?;
    let noted = mention_method(alloc, scope, name_at, &expr);
    let expr = kept(expr, noted)?;
    Ok(Seen::value(at, expr))
}

/// Notes that the concrete method is read that a selector selects.
fn mention_method(
    alloc: Global,
    scope: &mut Scope,
    at: Pos,
    expr: &Option<TypedExpr>,
) -> Result<(), NoMemory> {
    let Some(expr) = expr else {
        return Ok(());
    };
    match method_of(alloc, scope.types(), expr)? {
        Some(function) => scope.mention_of(at, Mentioned::Function(function)),
        None => Ok(()),
    }
}

fn method_of(alloc: Global, types: &Types, expr: &TypedExpr) -> Result<Option<FuncId>, NoMemory> {
    match &expr.kind {
        ExprKind::MethodValue {
            method: Method::Concrete(function),
            ..
        } => Ok(Some(*function)),
        ExprKind::MethodExpr {
            receiver,
            name,
            package,
        } => method_of_type(alloc, types, *receiver, *name, *package),
        _ => Ok(None),
    }
}

fn method_of_type(
    alloc: Global,
    types: &Types,
    of: TypeId,
    name: NameId,
    package: u32,
) -> Result<Option<FuncId>, NoMemory> {
    let found = find_selector(alloc, types, of, name, package);
    let method = match &found {
        Ok(selection) => Ok(selected_method(selection.kind)),
        Err(SelectError::OutOfMemory) => Err(NoMemory),
        Err(_) => Ok(None),
    };
    drop(found);
    method
}

fn selected_method(kind: SelectionKind) -> Option<FuncId> {
    match kind {
        SelectionKind::Method(function) => Some(function),
        _ => None,
    }
}

/// A call or conversion of what was seen.
pub(crate) fn call_of(
    scope: &mut Scope,
    callee: Seen,
    open: Token,
    arguments: Vec<Seen>,
    ellipsis: Option<Token>,
) -> Result<Seen, NoMemory> {
    let at = callee.at;
    let parenthesis = scope.pos(open.start);
    let dots = match ellipsis {
        Some(token) => Some(scope.pos(token.start)),
        None => None,
    };
    let expr = call(scope.ground(), callee, parenthesis, arguments, dots)?;
    Ok(Seen::value(at, expr))
}
