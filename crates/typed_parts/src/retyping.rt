//! Untyped operands given types. Go specification, "Constants" and "Representability".

ghost use Rattle.std.specs.Prelude.{◌≡◌, is_some};
ghost use Rattle.go_tree.specs.declared.exprs.ExprKind.TheVariants as kinds;
ghost use Rattle.go_type.specs.Operators.{shift_of};
ghost use Rattle.typed_parts.specs.Joining.{both, listed};
ghost use Rattle.typed_parts.specs.Judged.{Comes, reported};
ghost use Rattle.typed_parts.specs.Retyping.{AreRetyped, IsDefaulted, IsGiven, IsOfList, IsOfOne, IsOfTwo, IsShifted, Makes, constant_as, rekinded};

use crate::ground::{Ground, lost};
use crate::joining::{both, with_last};
use crate::nodes::{boxed_both, boxed_sound, node};
use go_base::{NoMemory, Pos, Rule, TypeId};
use go_rules::{Untyped, as_constant, kind_fits, untyped_kind};
use go_tree::{ExprKind, TypedExpr};
use go_type::{BinaryOp, Builtin, Const, UnaryOp};

/// An untyped operand with a type that it may take. `ConstantOutOfRange` at each constant in it that is no value of the type,
/// and `BadShift` at the left operand of a shift where the type is no integer type.
#[cycle(retyping)]
pub fn retyped(
    ground: &mut Ground,
    expr: TypedExpr,
    to: TypeId,
) -> Result<Option<TypedExpr>, NoMemory>
    ensures { Comes ground.old ground.new result (IsGiven ground.old.types to expr) }
{
    let (at, _of, kind) = expr.into_parts();
    match kind {
        ExprKind::ConstOf(value) => Ok(retyped_constant(ground, at, value, to)),
        ExprKind::NilOf => Ok(Some(node(at, to, ExprKind::NilOf))),
        ExprKind::CompareOf { op, left, right } => {
            Ok(Some(node(at, to, ExprKind::CompareOf { op, left, right })))
        }
        ExprKind::UnaryOf { op, operand } => {
            let operand = retyped(ground, Box::into_inner(operand), to);
            unary_of(ground, at, to, op, operand)
        }
        ExprKind::AndAlso { left, right } => {
            let left = retyped(ground, Box::into_inner(left), to);
            let right = retyped(ground, Box::into_inner(right), to);
            and_also(ground, at, to, left, right)
        }
        ExprKind::OrElse { left, right } => {
            let left = retyped(ground, Box::into_inner(left), to);
            let right = retyped(ground, Box::into_inner(right), to);
            or_else(ground, at, to, left, right)
        }
        ExprKind::BinaryOf { op, left, right } => {
            if is_shift(op) {
                let left = retyped_shifted(ground, left, to);
                shift_of(ground, at, to, op, left, right)
            } else {
                let left = retyped(ground, Box::into_inner(left), to);
                let right = retyped(ground, Box::into_inner(right), to);
                binary_of(ground, at, to, op, left, right)
            }
        }
        ExprKind::BuiltinOf {
            builtin,
            arguments,
            ..
        } => {
            let arguments = retyped_each(ground, arguments, to);
            built_in_of(at, to, builtin, arguments)
        }
        kind => {
            drop(kind);
            Err(lost())
        }
    }
}

/// The left operand of a shift with a type. `BadShift` at it where that is no integer type.
#[cycle(retyping)]
fn retyped_shifted(
    ground: &mut Ground,
    left: Box<TypedExpr>,
    to: TypeId,
) -> Result<Option<TypedExpr>, NoMemory>
    ensures { Comes ground.old ground.new result (IsShifted ground.old.types to left.value) }
{
    if kind_fits(&ground.types, Untyped::Int, to) {
        return retyped(ground, Box::into_inner(left), to);
    }
    ground.report(left.at, Rule::BadShift);
    drop(left);
    Ok(None)
}

#[cycle(retyping)]
fn retyped_each(
    ground: &mut Ground,
    exprs: Vec<TypedExpr>,
    to: TypeId,
) -> Result<Option<Vec<TypedExpr>>, NoMemory>
    ensures { Comes ground.old ground.new (listed result) (AreRetyped ground.old.types to exprs.items) }
{
    let mut typed = Some(Vec::new(ground.alloc));
    for expr in exprs {
        let expr = retyped(ground, expr, to)?;
        typed = with_last(typed, expr)?;
    }
    Ok(typed)
}

/// Whether an operator is a shift.
fn is_shift(op: BinaryOp) -> bool
    ensures { result ≡ is_some (shift_of op) }
{
    op.shift().is_some()
}

fn retyped_constant(ground: &mut Ground, at: Pos, value: Const, to: TypeId) -> Option<TypedExpr>
    ensures answer { result ≡ (constant_as ground.old.types at value to).sound }
    ensures broken { ground.new ≡ reported ground.old (constant_as ground.old.types at value to).broken }
{
    match as_constant(&ground.types, value, to) {
        Ok(value) => Some(node(at, to, ExprKind::ConstOf(value))),
        Err(breach) => {
            ground.report(at, breach.rule);
            None
        }
    }
}

fn unary_of(
    ground: &Ground,
    at: Pos,
    of: TypeId,
    op: UnaryOp,
    operand: Result<Option<TypedExpr>, NoMemory>,
) -> Result<Option<TypedExpr>, NoMemory>
    ensures { Makes (IsOfOne at of (kinds.UnaryOf op)) operand result }
{
    match boxed_sound(ground, operand)? {
        Some(operand) => Ok(Some(node(at, of, ExprKind::UnaryOf { op, operand }))),
        None => Ok(None),
    }
}

/// `left && right` of a type, where both are sound.
pub fn and_also(
    ground: &Ground,
    at: Pos,
    of: TypeId,
    left: Result<Option<TypedExpr>, NoMemory>,
    right: Result<Option<TypedExpr>, NoMemory>,
) -> Result<Option<TypedExpr>, NoMemory>
    ensures { Makes (IsOfTwo at of kinds.AndAlso) (both left right) result }
{
    match boxed_both(ground, left, right)? {
        Some((left, right)) => Ok(Some(node(at, of, ExprKind::AndAlso { left, right }))),
        None => Ok(None),
    }
}

/// `left || right` of a type, where both are sound.
pub fn or_else(
    ground: &Ground,
    at: Pos,
    of: TypeId,
    left: Result<Option<TypedExpr>, NoMemory>,
    right: Result<Option<TypedExpr>, NoMemory>,
) -> Result<Option<TypedExpr>, NoMemory>
    ensures { Makes (IsOfTwo at of kinds.OrElse) (both left right) result }
{
    match boxed_both(ground, left, right)? {
        Some((left, right)) => Ok(Some(node(at, of, ExprKind::OrElse { left, right }))),
        None => Ok(None),
    }
}

/// An operator on two operands of a type, where both are sound.
pub fn binary_of(
    ground: &Ground,
    at: Pos,
    of: TypeId,
    op: BinaryOp,
    left: Result<Option<TypedExpr>, NoMemory>,
    right: Result<Option<TypedExpr>, NoMemory>,
) -> Result<Option<TypedExpr>, NoMemory>
    ensures { Makes (IsOfTwo at of (kinds.BinaryOf op)) (both left right) result }
{
    match boxed_both(ground, left, right)? {
        Some((left, right)) => Ok(Some(node(at, of, ExprKind::BinaryOf { op, left, right }))),
        None => Ok(None),
    }
}

fn shift_of(
    ground: &Ground,
    at: Pos,
    of: TypeId,
    op: BinaryOp,
    left: Result<Option<TypedExpr>, NoMemory>,
    right: Box<TypedExpr>,
) -> Result<Option<TypedExpr>, NoMemory>
    ensures { Makes (IsOfOne at of (λ b. kinds.BinaryOf op b right)) left result }
{
    match both(boxed_sound(ground, left), Ok(Some(right)))? {
        Some((left, right)) => Ok(Some(node(at, of, ExprKind::BinaryOf { op, left, right }))),
        None => Ok(None),
    }
}

fn built_in_of(
    at: Pos,
    of: TypeId,
    builtin: Builtin,
    arguments: Result<Option<Vec<TypedExpr>>, NoMemory>,
) -> Result<Option<TypedExpr>, NoMemory>
    ensures { Makes (IsOfList at of builtin) arguments result }
{
    match arguments? {
        Some(arguments) => Ok(Some(node(
            at,
            of,
            ExprKind::BuiltinOf {
                builtin,
                form: None,
                arguments,
                spread: false,
            },
        ))),
        None => Ok(None),
    }
}

/// An untyped operand as one of a kind that its own joins to.
pub fn rekinded(ground: &mut Ground, expr: TypedExpr, kind: Untyped) -> Option<TypedExpr>
    ensures answer { result ≡ (rekinded ground.old.types expr kind).sound }
    ensures broken { ground.new ≡ reported ground.old (rekinded ground.old.types expr kind).broken }
{
    let (at, _of, it) = expr.into_parts();
    match it {
        ExprKind::ConstOf(value) => retyped_constant(ground, at, value, kind.type_id()),
        it => Some(node(at, kind.type_id(), it)),
    }
}

/// An untyped operand but `nil` with its default type, and a typed one as it is.
pub fn defaulted(ground: &mut Ground, expr: TypedExpr) -> Result<Option<TypedExpr>, NoMemory>
    ensures { Comes ground.old ground.new result (IsDefaulted ground.old.types expr) }
{
    let Some(kind) = untyped_kind(&ground.types, expr.of) else {
        return Ok(Some(expr));
    };
    match kind.default_type() {
        Some(of) => retyped(ground, expr, of),
        None => {
            drop(expr);
            Err(lost())
        }
    }
}
