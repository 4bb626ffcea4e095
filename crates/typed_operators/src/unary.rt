//! Operators on one operand. Go specification, "Arithmetic operators", "Logical operators", "Address operators" and "Receive
//! operator".

ghost use Rattle.std.specs.Prelude.{◌≡◌, IfOk};
ghost use Rattle.go_type.specs.Assignable.{underlying_term_of};
ghost use Rattle.go_tree.specs.declared.exprs.ExprKind.TheVariants as kinds;
ghost use Rattle.typed_operators.specs.Addressing.{IsAddress, IsAddressOf, IsIndirection, IsPointerType, addressed, has_address, is_composite, meaning_of};
ghost use Rattle.typed_operators.specs.Made.{IsOnOne};
ghost use Rattle.typed_operators.specs.Unary.{IsDereference, IsIndirect, IsNegation, IsOperation, IsPlus, IsReceipt, IsReceive, IsSign, IsSignedAs, boolean, folded, is_plain, receipt, received, signed};
ghost use Rattle.typed_parts.specs.Judged.{Comes, judged, reported};
ghost use Rattle.typed_parts.specs.Nodes.{node};
ghost use Rattle.typed_parts.specs.Numbers.{constant_in};
ghost use Rattle.typed_parts.specs.Turning.{Turns};

use go_base::{NoMemory, Pos, Rule, TypeId};
use go_rules::{fold_unary, takes_logic, takes_sign, untyped_kind};
use go_tree::{ExprKind, TypedExpr};
use go_type::{Dir, TypeTerm, Types, UnaryOp};
use typed_parts::{
    Given, Ground, Seen, asked, beside, boxed, is_constant, is_place, node, one_value, pointed,
    seen_type, sound,
};

/// The signs.
#[derive(Clone, Copy, PartialEq, Eq)]
pub enum SignOp {
    /// `+`
    Plus,
    /// `-`
    Minus,
    /// `^`
    Complement,
}

/// `+x`, `-x` or `^x`, whose operator is at the place. `BadOperand` at an operand that is no integer, and
/// `ConstantOutOfRange` at the operator where a constant has no value of its type.
pub fn sign(
    ground: &mut Ground,
    at: Pos,
    op: SignOp,
    x: Seen,
) -> Result<Option<TypedExpr>, NoMemory>
    ensures { Comes ground.old ground.new result (IsSign ground.old.types at op x) }
{
    match signed(ground, x) {
        Some(x) => signed_as(ground, at, op, x),
        None => Ok(None),
    }
}

/// An operand of a sign. `BadOperand` at one that is no integer.
#[tactic(auto, using(typed_parts::proofs::Reports::reported_after))]
pub(crate) fn signed(ground: &mut Ground, x: Seen) -> Option<Given>
    ensures answer { result ≡ (signed ground.old.types x).sound }
    ensures broken { ground.new ≡ reported ground.old (signed ground.old.types x).broken }
{
    let x = one_value(ground, x)?;
    let takes = takes_sign(&ground.types, x.expr.of);
    asked(ground, x, takes, Rule::BadOperand)
}

/// A sign at an operand that is an integer.
fn signed_as(
    ground: &mut Ground,
    at: Pos,
    op: SignOp,
    x: Given,
) -> Result<Option<TypedExpr>, NoMemory>
    ensures { Comes ground.old ground.new result (IsSignedAs ground.old.types at op x) }
{
    match op {
        SignOp::Plus => sound(plus(ground, at, x.expr)),
        SignOp::Minus => operation(ground, at, UnaryOp::Negate, x.expr),
        SignOp::Complement => operation(ground, at, UnaryOp::Complement, x.expr),
    }
}

/// `+x`, which is no place.
fn plus(ground: &Ground, at: Pos, x: TypedExpr) -> Result<TypedExpr, NoMemory>
    ensures { IfOk result (IsPlus ground.now.types at x) }
{
    if is_plain(&ground.types, &x) {
        Ok(placed(at, x))
    } else {
        converted(ground, at, x)
    }
}

/// Whether an operand is a constant, or has no type.
fn is_plain(types: &Types, x: &TypedExpr) -> bool
    ensures { result ≡ is_plain types.now x.now }
{
    is_constant(x) || untyped_kind(types, x.of).is_some()
}

fn placed(at: Pos, x: TypedExpr) -> TypedExpr
    ensures { result ≡ node at x.of x.kind }
{
    let (_at, of, kind) = x.into_parts();
    node(at, of, kind)
}

fn converted(ground: &Ground, at: Pos, x: TypedExpr) -> Result<TypedExpr, NoMemory>
    ensures { IfOk result (IsOnOne at x.of kinds.ConvertTo x) }
{
    let of = x.of;
    let operand = boxed(ground, x)?;
    Ok(node(at, of, ExprKind::ConvertTo(operand)))
}

/// An operator on an operand that it takes, which is folded where that is a constant.
fn operation(
    ground: &mut Ground,
    at: Pos,
    op: UnaryOp,
    x: TypedExpr,
) -> Result<Option<TypedExpr>, NoMemory>
    ensures { Comes ground.old ground.new result (IsOperation ground.old.types at op x) }
{
    if is_constant(&x) {
        let value = folded(ground, at, op, &x);
        drop(x);
        Ok(value)
    } else {
        sound(operated(ground, at, op, x))
    }
}

fn operated(ground: &Ground, at: Pos, op: UnaryOp, x: TypedExpr) -> Result<TypedExpr, NoMemory>
    ensures { IfOk result (IsOnOne at x.of (kinds.UnaryOf op) x) }
{
    let of = x.of;
    let operand = boxed(ground, x)?;
    Ok(node(at, of, ExprKind::UnaryOf { op, operand }))
}

/// An operator on a constant. `ConstantOutOfRange` at the operator where it has no value of its type.
fn folded(ground: &mut Ground, at: Pos, op: UnaryOp, x: &TypedExpr) -> Option<TypedExpr>
    ensures answer { result ≡ (judged (constant_in x.now.kind) (folded ground.old.types at op x.now.of)).sound }
    ensures broken { ground.new ≡ reported ground.old (judged (constant_in x.now.kind) (folded ground.old.types at op x.now.of)).broken }
{
    let ExprKind::ConstOf(value) = &x.kind else {
        return None;
    };
    match fold_unary(&ground.types, op, value, x.of) {
        Ok(value) => Some(node(at, x.of, ExprKind::ConstOf(value))),
        Err(breach) => {
            ground.report(at, breach.rule);
            None
        }
    }
}

/// `!x`. `BadOperand` at an operand that is no boolean.
pub fn negation(ground: &mut Ground, at: Pos, x: Seen) -> Result<Option<TypedExpr>, NoMemory>
    ensures { Comes ground.old ground.new result (IsNegation ground.old.types at x) }
{
    match boolean(ground, x) {
        Some(x) => operation(ground, at, UnaryOp::Not, x.expr),
        None => Ok(None),
    }
}

/// An operand of `!`. `BadOperand` at one that is no boolean.
#[tactic(auto, using(typed_parts::proofs::Reports::reported_after))]
fn boolean(ground: &mut Ground, x: Seen) -> Option<Given>
    ensures answer { result ≡ (boolean ground.old.types x).sound }
    ensures broken { ground.new ≡ reported ground.old (boolean ground.old.types x).broken }
{
    let x = one_value(ground, x)?;
    let takes = takes_logic(&ground.types, x.expr.of);
    asked(ground, x, takes, Rule::BadOperand)
}

/// `*x`: a pointer type where `x` is a type, with `TypeTooLarge` at the `*`, and else what the pointer points to, with
/// `BadOperand` at an operand that is no pointer.
pub fn indirection(ground: &mut Ground, at: Pos, x: Seen) -> Result<Seen, NoMemory>
    ensures at { IfOk result (λ part. part.at ≡ at) }
    ensures is { Turns ground.old ground.new (meaning_of result) (IsIndirection at x) }
{
    if let Some(of) = seen_type(&x) {
        drop(x);
        let pointer = pointer_type(ground, at, of)?;
        return Ok(Seen::of_type(at, pointer));
    }
    let expr = dereference(ground, at, x)?;
    Ok(Seen::value(at, expr))
}

/// The type of pointers to values of a type. `TypeTooLarge` at the place where it is.
fn pointer_type(ground: &mut Ground, at: Pos, of: TypeId) -> Result<Option<TypeId>, NoMemory>
    ensures { Turns ground.old ground.new result (IsPointerType at of) }
{
    let pointer = ground.hold(TypeTerm::Pointer(of))?;
    let fits = ground.within_limits(at, pointer)?;
    Ok(fits.then_some(pointer))
}

fn dereference(ground: &mut Ground, at: Pos, x: Seen) -> Result<Option<TypedExpr>, NoMemory>
    ensures { Comes ground.old ground.new result (IsDereference ground.old.types at x) }
{
    match one_value(ground, x) {
        Some(x) => indirect(ground, at, x),
        None => Ok(None),
    }
}

/// What a value points to. `BadOperand` at what is no pointer.
fn indirect(ground: &mut Ground, at: Pos, x: Given) -> Result<Option<TypedExpr>, NoMemory>
    ensures { Comes ground.old ground.new result (IsIndirect ground.old.types at x) }
{
    match pointed(ground, x.expr.of) {
        Some(base) => sound(indirection_of(ground, at, base, x.expr)),
        None => {
            ground.report(x.at, Rule::BadOperand);
            drop(x);
            Ok(None)
        }
    }
}

fn indirection_of(
    ground: &Ground,
    at: Pos,
    base: TypeId,
    x: TypedExpr,
) -> Result<TypedExpr, NoMemory>
    ensures { IfOk result (IsOnOne at base kinds.Deref x) }
{
    let operand = boxed(ground, x)?;
    Ok(node(at, base, ExprKind::Deref(operand)))
}

/// `&x`. `CannotTakeAddress` at an operand that is neither a place nor a composite literal, and `TypeTooLarge` at the `&`.
pub fn address_of(ground: &mut Ground, at: Pos, x: Seen) -> Result<Option<TypedExpr>, NoMemory>
    ensures { Turns ground.old ground.new result (IsAddressOf at x) }
{
    match addressed(ground, x) {
        Some(x) => address(ground, at, x.expr),
        None => Ok(None),
    }
}

/// An operand of `&`. `CannotTakeAddress` at one that is neither a place nor a composite literal.
#[tactic(auto, using(typed_parts::proofs::Reports::reported_after))]
fn addressed(ground: &mut Ground, x: Seen) -> Option<Given>
    ensures answer { result ≡ (addressed ground.old.types x).sound }
    ensures broken { ground.new ≡ reported ground.old (addressed ground.old.types x).broken }
{
    let x = one_value(ground, x)?;
    let may = has_address(&x.expr);
    asked(ground, x, may, Rule::CannotTakeAddress)
}

fn has_address(expr: &TypedExpr) -> bool
    ensures { result ≡ has_address expr.now }
{
    is_composite(&expr.kind) || is_place(expr)
}

fn is_composite(kind: &ExprKind) -> bool
    ensures { result ≡ is_composite kind.now }
{
    matches!(kind, ExprKind::CompositeOf(_))
}

fn address(ground: &mut Ground, at: Pos, expr: TypedExpr) -> Result<Option<TypedExpr>, NoMemory>
    ensures { Turns ground.old ground.new result (IsAddress at expr) }
{
    let (pointer, expr) = beside(pointer_type(ground, at, expr.of), expr)?;
    match pointer {
        Some(pointer) => sound(pointer_to(ground, at, pointer, expr)),
        None => {
            drop(expr);
            Ok(None)
        }
    }
}

fn pointer_to(
    ground: &Ground,
    at: Pos,
    pointer: TypeId,
    x: TypedExpr,
) -> Result<TypedExpr, NoMemory>
    ensures { IfOk result (IsOnOne at pointer kinds.AddressOf x) }
{
    let operand = boxed(ground, x)?;
    Ok(node(at, pointer, ExprKind::AddressOf(operand)))
}

/// `<-x`. `BadChannelOperation` at an operand that is no channel, or only one for sending.
pub fn receive(ground: &mut Ground, at: Pos, x: Seen) -> Result<Option<TypedExpr>, NoMemory>
    ensures { Comes ground.old ground.new result (IsReceive ground.old.types at x) }
{
    match one_value(ground, x) {
        Some(x) => received_from(ground, at, x),
        None => Ok(None),
    }
}

fn received_from(ground: &mut Ground, at: Pos, x: Given) -> Result<Option<TypedExpr>, NoMemory>
    ensures { Comes ground.old ground.new result (IsReceipt ground.old.types at x) }
{
    match received(ground, x.expr.of) {
        Some(elem) => sound(receipt(ground, at, elem, x.expr)),
        None => {
            ground.report(x.at, Rule::BadChannelOperation);
            drop(x);
            Ok(None)
        }
    }
}

fn receipt(ground: &Ground, at: Pos, elem: TypeId, x: TypedExpr) -> Result<TypedExpr, NoMemory>
    ensures { IfOk result (IsOnOne at elem receipt x) }
{
    let channel = boxed(ground, x)?;
    Ok(node(
        at,
        elem,
        ExprKind::Receive {
            channel,
            comma_ok: false,
        },
    ))
}

/// What is received from a channel type that is not only for sending.
fn received(ground: &Ground, of: TypeId) -> Option<TypeId>
    ensures { result ≡ received (underlying_term_of ground.now.types of) }
{
    match ground.types.underlying_term(of) {
        Some(
            TypeTerm::Chan {
                dir: Dir::Both | Dir::Receive,
                elem,
            },
        ) => Some(*elem),
        _ => None,
    }
}
