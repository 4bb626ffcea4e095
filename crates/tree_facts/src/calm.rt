//! Expressions without effects.

use go_tree::{ExprKind, TypedExpr};
use go_type::Builtin;

/// Whether an expression has no effect, though it may fault: no call, receive or literal stands in it, and no call of a
/// built-in function but of those that only look.
#[cycle(calm)]
pub fn is_calm(expr: &TypedExpr) -> bool {
    match &expr.kind {
        ExprKind::ConstOf(_)
        | ExprKind::NilOf
        | ExprKind::VarOf(_)
        | ExprKind::FunctionOf(_)
        | ExprKind::MethodExpr { .. }
        | ExprKind::PartOf(_) => true,
        ExprKind::LiteralOf(_)
        | ExprKind::Receive { .. }
        | ExprKind::CallOf { .. }
        | ExprKind::CompositeOf(_) => false,
        ExprKind::MethodValue { receiver, .. } => is_calm(receiver),
        ExprKind::FieldOf { operand, .. }
        | ExprKind::UnaryOf { operand, .. }
        | ExprKind::AssertTo { operand, .. } => is_calm(operand),
        ExprKind::Deref(operand)
        | ExprKind::AddressOf(operand)
        | ExprKind::ConvertTo(operand)
        | ExprKind::ToInterface(operand) => is_calm(operand),
        ExprKind::IndexOf { operand, index, .. } => is_calm(operand) && is_calm(index),
        ExprKind::MapIndex { map, key, .. } => is_calm(map) && is_calm(key),
        ExprKind::SliceOf {
            operand,
            low,
            high,
            max,
            ..
        } => is_calm(operand)
            && is_calm_or_none(low)
            && is_calm_or_none(high)
            && is_calm_or_none(max),
        ExprKind::BinaryOf { left, right, .. }
        | ExprKind::CompareOf { left, right, .. }
        | ExprKind::AndAlso { left, right }
        | ExprKind::OrElse { left, right } => is_calm(left) && is_calm(right),
        ExprKind::BuiltinOf {
            builtin,
            arguments,
            ..
        } => only_looks(*builtin) && are_calm(arguments),
    }
}

#[cycle(calm)]
fn is_calm_or_none(expr: &Option<Box<TypedExpr>>) -> bool {
    match expr {
        Some(expr) => is_calm(expr),
        None => true,
    }
}

#[cycle(calm)]
fn are_calm(exprs: &[TypedExpr]) -> bool {
    for expr in exprs {
        if !is_calm(expr) {
            return false;
        }
    }
    true
}

/// Whether a built-in function has no effect.
fn only_looks(builtin: Builtin) -> bool {
    matches!(
        builtin,
        Builtin::Cap | Builtin::Len | Builtin::Max | Builtin::Min
    )
}
