//! Expressions as they are written. Go specification, "Expressions".

use crate::composites::{see_elements, see_form};
use crate::error::lost;
use crate::literals::literal_of_token;
use crate::operators::{binary, unary};
use crate::selecting::{call_of, operand_import, select};
use crate::types::{see_signature, see_type};
use go_base::NoMemory;
use go_scope::{Position, Scope};
use go_sources::SourceFile;
use go_syntax::{Expr, ListedExpr};
use std::alloc::Global;
use typed_parts::{Seen, beside, parenthesized, sound};
use typed_primaries::{index_expression, slice_expression, type_assertion};

/// What an expression is seen to be. Each row that is broken in it is reported. Each form with operands has a function of its
/// own, so that a level of nesting takes little of the host's stack.
#[cycle(seeing)]
pub(crate) fn see(
    alloc: Global,
    source: &SourceFile,
    scope: &mut Scope,
    expr: &Expr,
) -> Result<Seen, NoMemory> {
    match expr {
        Expr::Int(token) | Expr::Rune(token) | Expr::Text(token) => {
            literal_of_token(alloc, source, scope, *token)
        }
        Expr::Name(token) => scope.see_name(source, *token),
        Expr::Paren { .. } => see_paren(alloc, source, scope, expr),
        Expr::Function { .. } => see_function(alloc, source, scope, expr),
        Expr::TypeForm(form) => {
            let of = see_type(alloc, source, scope, form, Position::Apart)?;
            Ok(Seen::of_type(scope.type_place(form), of))
        }
        Expr::Composite { .. } => see_composite(alloc, source, scope, expr),
        Expr::Selector { .. } => see_selector(alloc, source, scope, expr),
        Expr::Assertion { .. } => see_assertion(alloc, source, scope, expr),
        Expr::Index { .. } => see_index(alloc, source, scope, expr),
        Expr::Slice { .. } => see_slice(alloc, source, scope, expr),
        Expr::FullSlice { .. } => see_full_slice(alloc, source, scope, expr),
        Expr::Call { .. } => see_call(alloc, source, scope, expr),
        Expr::Unary { .. } => see_unary(alloc, source, scope, expr),
        Expr::Binary { .. } => see_binary(alloc, source, scope, expr),
    }
}

/// An expression in parentheses.
#[cycle(seeing)]
#[inline(never)]
fn see_paren(
    alloc: Global,
    source: &SourceFile,
    scope: &mut Scope,
    expr: &Expr,
) -> Result<Seen, NoMemory> {
    let Expr::Paren { open, inner, .. } = expr else {
        return Err(lost());
    };
    let inside = see(alloc, source, scope, inner)?;
    Ok(parenthesized(scope.types(), scope.pos(open.start), inside))
}

/// A function literal.
#[cycle(seeing)]
#[inline(never)]
fn see_function(
    alloc: Global,
    source: &SourceFile,
    scope: &mut Scope,
    expr: &Expr,
) -> Result<Seen, NoMemory> {
    let Expr::Function {
        word,
        signature,
        body,
    } = expr
    else {
        return Err(lost());
    };
    let of = see_signature(alloc, source, scope, signature)?;
    scope.literal_met(*word, body.close, of)
}

/// A composite literal.
#[cycle(seeing)]
#[inline(never)]
fn see_composite(
    alloc: Global,
    source: &SourceFile,
    scope: &mut Scope,
    expr: &Expr,
) -> Result<Seen, NoMemory> {
    let Expr::Composite {
        form,
        open,
        elements,
        ..
    } = expr
    else {
        return Err(lost());
    };
    let (at, literal) = see_form(alloc, source, scope, form, *open)?;
    see_elements(alloc, source, scope, elements.as_slice(), at, literal)
}

/// `x.name`, where `x` may be an import.
#[cycle(seeing)]
#[inline(never)]
fn see_selector(
    alloc: Global,
    source: &SourceFile,
    scope: &mut Scope,
    expr: &Expr,
) -> Result<Seen, NoMemory> {
    let Expr::Selector { operand, name, .. } = expr else {
        return Err(lost());
    };
    if let Some((at, import)) = operand_import(source, scope, operand)? {
        return scope.see_qualified(source, at, import, *name);
    }
    let x = see(alloc, source, scope, operand)?;
    select(alloc, source, scope, x, *name)
}

/// A type assertion.
#[cycle(seeing)]
#[inline(never)]
fn see_assertion(
    alloc: Global,
    source: &SourceFile,
    scope: &mut Scope,
    expr: &Expr,
) -> Result<Seen, NoMemory> {
    let Expr::Assertion { operand, form, .. } = expr else {
        return Err(lost());
    };
    let x = see(alloc, source, scope, operand)?;
    let to = see_type(alloc, source, scope, form, Position::Apart);
    let (to, x) = beside(to, x)?;
    let (at, to_at) = (x.at, scope.type_place(form));
    let expr = type_assertion(scope.ground(), x, to, to_at)?;
    Ok(Seen::value(at, expr))
}

/// An index expression.
#[cycle(seeing)]
#[inline(never)]
fn see_index(
    alloc: Global,
    source: &SourceFile,
    scope: &mut Scope,
    expr: &Expr,
) -> Result<Seen, NoMemory> {
    let Expr::Index { operand, index, .. } = expr else {
        return Err(lost());
    };
    let x = see(alloc, source, scope, operand)?;
    let index = see(alloc, source, scope, index);
    let (index, x) = beside(index, x)?;
    let at = x.at;
    let expr = index_expression(scope.ground(), x, index)?;
    Ok(Seen::value(at, expr))
}

/// A slice expression with two bounds at most.
#[cycle(seeing)]
#[inline(never)]
fn see_slice(
    alloc: Global,
    source: &SourceFile,
    scope: &mut Scope,
    expr: &Expr,
) -> Result<Seen, NoMemory> {
    let Expr::Slice {
        operand,
        low,
        high,
        ..
    } = expr
    else {
        return Err(lost());
    };
    let x = see(alloc, source, scope, operand)?;
    let low = see_bound(alloc, source, scope, low);
    let (low, x) = beside(low, x)?;
    let high = see_bound(alloc, source, scope, high);
    let (high, (low, x)) = beside(high, (low, x))?;
    let at = x.at;
    let expr = slice_expression(scope.ground(), x, low, high, None)?;
    Ok(Seen::value(at, expr))
}

/// A slice expression with three bounds.
#[cycle(seeing)]
#[inline(never)]
fn see_full_slice(
    alloc: Global,
    source: &SourceFile,
    scope: &mut Scope,
    expr: &Expr,
) -> Result<Seen, NoMemory> {
    let Expr::FullSlice {
        operand,
        low,
        high,
        max,
        ..
    } = expr
    else {
        return Err(lost());
    };
    let x = see(alloc, source, scope, operand)?;
    let low = see_bound(alloc, source, scope, low);
    let (low, x) = beside(low, x)?;
    let high = see(alloc, source, scope, high);
    let (high, (low, x)) = beside(high, (low, x))?;
    let max = see(alloc, source, scope, max);
    let (max, (high, (low, x))) = beside(max, (high, (low, x)))?;
    let at = x.at;
    let expr = slice_expression(scope.ground(), x, low, Some(high), Some(max))?;
    Ok(Seen::value(at, expr))
}

/// A call or a conversion.
#[cycle(seeing)]
#[inline(never)]
fn see_call(
    alloc: Global,
    source: &SourceFile,
    scope: &mut Scope,
    expr: &Expr,
) -> Result<Seen, NoMemory> {
    let Expr::Call {
        callee,
        open,
        arguments,
        ellipsis,
        ..
    } = expr
    else {
        return Err(lost());
    };
    let callee = see(alloc, source, scope, callee)?;
    let arguments = see_all(alloc, source, scope, arguments.as_slice());
    let (arguments, callee) = beside(arguments, callee)?;
    call_of(scope, callee, *open, arguments, *ellipsis)
}

/// An operator before an operand.
#[cycle(seeing)]
#[inline(never)]
fn see_unary(
    alloc: Global,
    source: &SourceFile,
    scope: &mut Scope,
    expr: &Expr,
) -> Result<Seen, NoMemory> {
    let Expr::Unary { operator, operand } = expr else {
        return Err(lost());
    };
    let x = see(alloc, source, scope, operand)?;
    unary(scope, *operator, x)
}

/// An operator between two operands.
#[cycle(seeing)]
#[inline(never)]
fn see_binary(
    alloc: Global,
    source: &SourceFile,
    scope: &mut Scope,
    expr: &Expr,
) -> Result<Seen, NoMemory> {
    let Expr::Binary {
        left,
        operator,
        right,
    } = expr
    else {
        return Err(lost());
    };
    let left = see(alloc, source, scope, left)?;
    let right = see(alloc, source, scope, right);
    let (right, left) = beside(right, left)?;
    binary(scope, *operator, left, right)
}

/// A bound of a slice expression, where it is written.
#[cycle(seeing)]
fn see_bound(
    alloc: Global,
    source: &SourceFile,
    scope: &mut Scope,
    bound: &Option<Box<Expr>>,
) -> Result<Option<Seen>, NoMemory> {
    match bound {
        Some(bound) => sound(see(alloc, source, scope, bound)),
        None => Ok(None),
    }
}

/// The expressions of a list.
#[cycle(seeing)]
pub(crate) fn see_all(
    alloc: Global,
    source: &SourceFile,
    scope: &mut Scope,
    exprs: &[ListedExpr],
) -> Result<Vec<Seen>, NoMemory> {
    let mut all = Vec::new(alloc);
    for listed in exprs {
        let seen = see(alloc, source, scope, &listed.expr)?;
        all.push(seen)?;
    }
    Ok(all)
}
