//! The nodes of names and literals. Go specification, "Operands", "Constants", "Integer literals", "Rune literals", "String
//! literals" and "Function literals".

ghost use Rattle.std.specs.Prelude.{◌≡◌, IfOk};
ghost use Rattle.go_rules.specs.declared.untyped.Untyped.TheVariants as kind_of;
ghost use Rattle.go_tree.specs.declared.exprs.ExprKind.{ExprKind as TheKind};
ghost use Rattle.go_tree.specs.declared.exprs.ExprKind.TheVariants as kinds;
ghost use Rattle.go_type.specs.declared.constants.Const.TheVariants as constants;
ghost use Rattle.typed_parts.specs.Joining.{both};
ghost use Rattle.typed_parts.specs.Judged.{reported};
ghost use Rattle.typed_parts.specs.Nodes.{AreBoxed, IsBoxed, integer_literal, iota, node, untyped};

use crate::ground::Ground;
use crate::joining::{beside, both, sound};
use go_base::{Bytes, FuncId, NoMemory, Pos, Rule, TypeId, VarId};
use go_rules::Untyped;
use go_tree::{ExprKind, TypedExpr};
use go_type::Const;
use std::alloc::Global;

/// A name of a constant: its value, and its type or untyped kind.
pub fn constant(alloc: Global, at: Pos, of: TypeId, value: &Const) -> Result<TypedExpr, NoMemory>
    ensures { IfOk result (λ expr. expr ≡ node at of (kinds.ConstOf value.now)) }
{
    Ok(TypedExpr {
        at,
        of,
        kind: ExprKind::ConstOf(value.copy(alloc)?),
    })
}

/// `iota` in the specification of constants of a number, from 0.
pub fn iota(at: Pos, number: i128) -> TypedExpr
    ensures { result ≡ iota at number }
{
    TypedExpr {
        at,
        of: Untyped::Int.type_id(),
        kind: ExprKind::ConstOf(Const::Int(number)),
    }
}

/// `nil`.
pub fn nil(at: Pos) -> TypedExpr
    ensures { result ≡ node at (untyped kind_of.Nil) TheKind.NilOf }
{
    TypedExpr {
        at,
        of: Untyped::Nil.type_id(),
        kind: ExprKind::NilOf,
    }
}

/// A name of a variable.
pub fn variable(at: Pos, variable: VarId, of: TypeId) -> TypedExpr
    ensures { result ≡ node at of (kinds.VarOf variable) }
{
    TypedExpr {
        at,
        of,
        kind: ExprKind::VarOf(variable),
    }
}

/// A name of a function, whose type is its signature.
pub fn function(at: Pos, function: FuncId, signature: TypeId) -> TypedExpr
    ensures { result ≡ node at signature (kinds.FunctionOf function) }
{
    TypedExpr {
        at,
        of: signature,
        kind: ExprKind::FunctionOf(function),
    }
}

/// A function literal, at the word `func`.
pub fn function_literal(at: Pos, function: FuncId, signature: TypeId) -> TypedExpr
    ensures { result ≡ node at signature (kinds.LiteralOf function) }
{
    TypedExpr {
        at,
        of: signature,
        kind: ExprKind::LiteralOf(function),
    }
}

/// An integer literal. `ConstantOutOfRange` at it where it has no value of 128 bits.
pub fn integer_literal(ground: &mut Ground, at: Pos, value: Option<i128>) -> Option<TypedExpr>
    ensures answer { result ≡ (integer_literal at value).sound }
    ensures broken { ground.new ≡ reported ground.old (integer_literal at value).broken }
{
    let Some(value) = value else {
        ground.report(at, Rule::ConstantOutOfRange);
        return None;
    };
    Some(iota(at, value))
}

/// A rune literal.
pub fn rune_literal(at: Pos, value: i128) -> TypedExpr
    ensures { result ≡ node at (untyped kind_of.Rune) (kinds.ConstOf (constants.Rune value)) }
{
    TypedExpr {
        at,
        of: Untyped::Rune.type_id(),
        kind: ExprKind::ConstOf(Const::Rune(value)),
    }
}

/// A string literal.
pub fn text_literal(at: Pos, value: Bytes) -> TypedExpr
    ensures { result ≡ node at (untyped kind_of.Text) (kinds.ConstOf (constants.Text value)) }
{
    TypedExpr {
        at,
        of: Untyped::Text.type_id(),
        kind: ExprKind::ConstOf(Const::Text(value)),
    }
}

/// A node.
pub fn node(at: Pos, of: TypeId, kind: ExprKind) -> TypedExpr
    ensures { result ≡ node at of kind }
{
    TypedExpr { at, of, kind }
}

/// A node that stands in another.
pub fn boxed(ground: &Ground, expr: TypedExpr) -> Result<Box<TypedExpr>, NoMemory>
    ensures { IfOk result (λ boxed. boxed.value ≡ expr) }
{
    Ok(Box::new(ground.alloc, expr)?)
}

/// Two nodes that stand in another.
pub fn boxes(
    ground: &Ground,
    left: TypedExpr,
    right: TypedExpr,
) -> Result<(Box<TypedExpr>, Box<TypedExpr>), NoMemory>
    ensures first { IfOk result (λ boxes. boxes.0.value ≡ left) }
    ensures second { IfOk result (λ boxes. boxes.1.value ≡ right) }
{
    let (left, right) = beside(boxed(ground, left), right)?;
    let (right, left) = beside(boxed(ground, right), left)?;
    Ok((left, right))
}

/// A node that stands in another, where it came and is sound.
pub fn boxed_sound(
    ground: &Ground,
    expr: Result<Option<TypedExpr>, NoMemory>,
) -> Result<Option<Box<TypedExpr>>, NoMemory>
    ensures { IsBoxed expr result }
{
    match expr? {
        Some(expr) => sound(boxed(ground, expr)),
        None => Ok(None),
    }
}

/// Two nodes that stand in another, where both came and are sound.
pub fn boxed_both(
    ground: &Ground,
    left: Result<Option<TypedExpr>, NoMemory>,
    right: Result<Option<TypedExpr>, NoMemory>,
) -> Result<Option<(Box<TypedExpr>, Box<TypedExpr>)>, NoMemory>
    ensures { AreBoxed (both left right) result }
{
    match both(left, right)? {
        Some((left, right)) => sound(boxes(ground, left, right)),
        None => Ok(None),
    }
}
