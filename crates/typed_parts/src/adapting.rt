//! Values made ones of the types that they are assigned to. Go specification, "Assignability" and "Variables".

ghost use Rattle.std.specs.Prelude.{◌≡◌, ◌↔◌, ◌||◌, ◌∷◌, [], IsTrue, IfOk, Some};
ghost use Rattle.go_base.specs.declared.rule.Rule.TheVariants.{NotAssignable};
ghost use Rattle.go_rules.specs.declared.untyped.Untyped.TheVariants as bool_kind;
ghost use Rattle.go_rules.specs.Matching.{is_empty_interface};
ghost use Rattle.go_rules.specs.Untyped.{fits_type, kind_at};
ghost use Rattle.go_type.specs.Assignable.{Assignable};
ghost use Rattle.go_type.specs.Table.{basic_id};
ghost use Rattle.go_tree.specs.declared.exprs.ExprKind.TheVariants as kinds;
ghost use Rattle.typed_parts.specs.Adapting.{IsAssigned, IsAssignedTo, IsDefaultFor, IsMade, IsOkAssigned, IsPassed, IsSettled, IsThroughDefault};
ghost use Rattle.typed_parts.specs.Judged.{Comes, reported};
ghost use Rattle.typed_parts.specs.Nodes.{node};
ghost use Rattle.typed_parts.specs.Shapes.{is_interface, is_nil};

use crate::ground::Ground;
use crate::joining::sound;
use crate::meaning::Given;
use crate::nodes::{boxed, node};
use crate::retyping::{defaulted, retyped};
use go_base::{NoMemory, Pos, Rule, TypeId};
use go_rules::{Untyped, is_empty_interface, kind_fits, untyped_kind};
use go_tree::{ExprKind, TypedExpr};
use go_type::{Basic, TypeTerm, Types, assignable, basic, identical, implements};

/// A value with a type of its own: an untyped operand takes its default type. `UseOfUntypedNil` at `nil`, and
/// `ConstantOutOfRange` at a constant that is no value of its default type.
pub fn by_default(ground: &mut Ground, x: Option<Given>) -> Result<Option<TypedExpr>, NoMemory>
    ensures { Comes ground.old ground.new result (IsDefaultFor ground.old.types x) }
{
    let Some(x) = x else {
        return Ok(None);
    };
    if is_nil(&ground.types, x.expr.of) {
        ground.report(x.at, Rule::UseOfUntypedNil);
        drop(x);
        return Ok(None);
    }
    defaulted(ground, x.expr)
}

/// Whether a type is that of `nil` without a type.
pub fn is_nil(types: &Types, of: TypeId) -> bool
    ensures { result ≡ is_nil types.now of }
{
    matches!(untyped_kind(types, of), Some(Untyped::Nil))
}

/// A value as one of exactly a type, to which it is assigned. `ConstantOutOfRange` at an untyped constant that is of
/// the class of the type, or goes into an interface, and does not fit; else `NotAssignable` at the value.
pub fn assigned(
    ground: &mut Ground,
    x: Option<Given>,
    to: Option<TypeId>,
) -> Result<Option<TypedExpr>, NoMemory>
    ensures { Comes ground.old ground.new result (IsAssignedTo ground.old.types x to) }
{
    let Some(x) = x else {
        return Ok(None);
    };
    match to {
        Some(to) => assigned_to(ground, x, to),
        None => {
            drop(x);
            Ok(None)
        }
    }
}

fn assigned_to(ground: &mut Ground, x: Given, to: TypeId) -> Result<Option<TypedExpr>, NoMemory>
    ensures { Comes ground.old ground.new result (IsAssigned ground.old.types x to) }
{
    let Given { at, expr } = x;
    match untyped_kind(&ground.types, expr.of) {
        Some(kind) => assigned_untyped(ground, at, expr, kind, to),
        None => passed(ground, at, expr, to),
    }
}

fn assigned_untyped(
    ground: &mut Ground,
    at: Pos,
    expr: TypedExpr,
    kind: Untyped,
    to: TypeId,
) -> Result<Option<TypedExpr>, NoMemory>
    requires { kind_at ground.old.types expr.of ≡ Some kind }
    ensures { Comes ground.old ground.new result (IsAssigned ground.old.types (record { at = at; expr = expr }) to) }
{
    if kind_fits(&ground.types, kind, to) {
        return retyped(ground, expr, to);
    }
    if !is_interface(&ground.types, to) {
        refuse(ground, at, expr);
        return Ok(None);
    }
    match kind.default_type() {
        Some(of) => into_interface(ground, at, expr, of, to),
        None => {
            refuse(ground, at, expr);
            Ok(None)
        }
    }
}

/// A value may not be assigned.
fn refuse(ground: &mut Ground, at: Pos, expr: TypedExpr)
    ensures { ground.new ≡ reported ground.old (record { at = at; rule = NotAssignable } ∷ []) }
{
    drop(expr);
    ground.report(at, Rule::NotAssignable);
}

/// An untyped operand by its default type made a value of an interface.
fn into_interface(
    ground: &mut Ground,
    at: Pos,
    expr: TypedExpr,
    of: TypeId,
    to: TypeId,
) -> Result<Option<TypedExpr>, NoMemory>
    ensures { Comes ground.old ground.new result (IsThroughDefault ground.old.types at expr of to) }
{
    match retyped(ground, expr, of)? {
        Some(expr) => passed(ground, at, expr, to),
        None => Ok(None),
    }
}

/// A typed value as one of a type, to which it is assigned. `NotAssignable` at the place where it may not be.
pub fn passed(
    ground: &mut Ground,
    at: Pos,
    expr: TypedExpr,
    to: TypeId,
) -> Result<Option<TypedExpr>, NoMemory>
    ensures { Comes ground.old ground.new result (IsPassed ground.old.types at expr to) }
{
    if may_pass(&ground.types, expr.of, to) {
        return sound(made(ground, expr, to));
    }
    refuse(ground, at, expr);
    Ok(None)
}

/// Whether a typed value of a type may be assigned to another.
pub fn may_pass(types: &Types, from: TypeId, to: TypeId) -> bool
    ensures { IsTrue result ↔ Assignable types.now from to }
{
    assignable(types, from, to)
}

/// A typed value made one of a type, to which it may be assigned or converted.
pub fn made(ground: &Ground, expr: TypedExpr, to: TypeId) -> Result<TypedExpr, NoMemory>
    ensures { IfOk result (IsMade ground.now.types expr to) }
{
    if identical(&ground.types, expr.of, to) {
        return Ok(expr);
    }
    let at = expr.at;
    let becomes = implements(&ground.types, expr.of, to);
    let operand = boxed(ground, expr)?;
    if becomes {
        Ok(node(at, to, ExprKind::ToInterface(operand)))
    } else {
        Ok(node(at, to, ExprKind::ConvertTo(operand)))
    }
}

/// Whether a type's underlying type is an interface.
pub fn is_interface(types: &Types, of: TypeId) -> bool
    ensures { result ≡ is_interface types.now of }
{
    matches!(types.underlying_term(of), Some(TypeTerm::Interface(_)))
}

/// What is given no type by its context as `by_default`, and else as `assigned`.
pub fn settle(
    ground: &mut Ground,
    x: Option<Given>,
    to: Option<TypeId>,
) -> Result<Option<TypedExpr>, NoMemory>
    ensures { Comes ground.old ground.new result (IsSettled ground.old.types x to) }
{
    match to {
        Some(to) => assigned(ground, x, Some(to)),
        None => by_default(ground, x),
    }
}

/// A part of a call's several values, by its number and type, as a value of a type to which it is assigned.
/// `NotAssignable` at the place of the call.
pub fn assigned_part(
    ground: &mut Ground,
    at: Pos,
    part: u32,
    of: TypeId,
    to: TypeId,
) -> Result<Option<TypedExpr>, NoMemory>
    ensures { Comes ground.old ground.new result (IsPassed ground.old.types at (node at of (kinds.PartOf part)) to) }
{
    passed(ground, at, node(at, of, ExprKind::PartOf(part)), to)
}

/// The second part of a comma-ok form, an untyped boolean, as a value of a type to which it is assigned. `NotAssignable`
/// at the place of the form.
pub fn assigned_ok(ground: &mut Ground, at: Pos, to: TypeId) -> Result<Option<TypedExpr>, NoMemory>
    ensures { Comes ground.old ground.new result (IsOkAssigned ground.old.types at to) }
{
    if takes_bool(&ground.types, to) {
        let part = node(at, basic(Basic::Bool), ExprKind::PartOf(1));
        return sound(made(ground, part, to));
    }
    ground.report(at, Rule::NotAssignable);
    Ok(None)
}

/// Whether an untyped boolean may be assigned to a type that is a boolean one, or an interface without methods.
fn takes_bool(types: &Types, to: TypeId) -> bool
    ensures { result ≡ (fits_type types.now bool_kind.Bool to || is_empty_interface types.now to) }
{
    kind_fits(types, Untyped::Bool, to) || is_empty_interface(types, to)
}
