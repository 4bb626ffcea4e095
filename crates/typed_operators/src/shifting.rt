//! Shifts. Go specification, "Operators".

ghost use Rattle.std.specs.Prelude.{◌≡◌};
ghost use Rattle.typed_operators.specs.Shifting.{AreShiftOperands, IsCount, IsShift, IsShiftedBy, count_value, is_negative, shift_op, shift_value, shifted};
ghost use Rattle.typed_parts.specs.Judged.{Comes, reported};
ghost use Rattle.typed_parts.specs.Numbers.{integer_of};

use go_base::{NoMemory, Pos, Rule, TypeId};
use go_rules::{fold_shift, takes_shift};
use go_tree::{ExprKind, TypedExpr};
use go_type::{Basic, BinaryOp, basic};
use typed_parts::{
    Given, Ground, Seen, as_untyped, asked, binary_of, both, integer_of, node, one_value,
};

/// `x << y` where `left` says so, and else `x >> y`. `BadShift` at an operand that is no integer, and at a constant count
/// below 0; `ConstantOutOfRange` at an untyped count that `uint` has not, and at the whole where constants have no value
/// of their type.
pub fn shift(
    ground: &mut Ground,
    left: bool,
    x: Seen,
    y: Seen,
) -> Result<Option<TypedExpr>, NoMemory>
    ensures { Comes ground.old ground.new result (IsShift ground.old.types left x y) }
{
    match shift_operands(ground, x, y)? {
        Some((x, count)) => shifted(ground, left, x, count),
        None => Ok(None),
    }
}

/// The operand of a shift, and its count.
fn shift_operands(
    ground: &mut Ground,
    x: Seen,
    y: Seen,
) -> Result<Option<(Given, TypedExpr)>, NoMemory>
    ensures { Comes ground.old ground.new result (AreShiftOperands ground.old.types x y) }
{
    let x = one_value(ground, x);
    let y = one_value(ground, y);
    let x = shifted_operand(ground, x);
    let count = shift_count(ground, y);
    both(Ok(x), count)
}

/// An operand of a shift. `BadShift` at one that is no integer.
fn shifted_operand(ground: &mut Ground, x: Option<Given>) -> Option<Given>
    ensures answer { result ≡ (shift_value ground.old.types x).sound }
    ensures broken { ground.new ≡ reported ground.old (shift_value ground.old.types x).broken }
{
    let x = x?;
    let takes = takes_shift(&ground.types, x.expr.of);
    asked(ground, x, takes, Rule::BadShift)
}

/// The count of a shift; an untyped one becomes `uint`.
fn shift_count(ground: &mut Ground, y: Option<Given>) -> Result<Option<TypedExpr>, NoMemory>
    ensures { Comes ground.old ground.new result (IsCount ground.old.types y) }
{
    match count_value(ground, y) {
        Some(y) => as_untyped(ground, y.expr, basic(Basic::Uint)),
        None => Ok(None),
    }
}

/// A count before it has a type. `BadShift` at one that is no integer, and at a constant below 0.
#[tactic(auto, using(typed_parts::proofs::Reports::reported_after))]
fn count_value(ground: &mut Ground, y: Option<Given>) -> Option<Given>
    ensures answer { result ≡ (count_value ground.old.types y).sound }
    ensures broken { ground.new ≡ reported ground.old (count_value ground.old.types y).broken }
{
    let y = shifted_operand(ground, y)?;
    let is_count = !is_negative(&y.expr);
    asked(ground, y, is_count, Rule::BadShift)
}

/// Whether an expression is a constant integer below 0.
fn is_negative(expr: &TypedExpr) -> bool
    ensures { result ≡ is_negative (integer_of expr.now) }
{
    match integer_of(expr) {
        Some(number) => number < 0,
        None => false,
    }
}

/// A shift of an operand by a count: a constant where both are.
fn shifted(
    ground: &mut Ground,
    left: bool,
    x: Given,
    count: TypedExpr,
) -> Result<Option<TypedExpr>, NoMemory>
    ensures { Comes ground.old ground.new result (IsShiftedBy ground.old.types left x count) }
{
    let Given { at, expr } = x;
    let of = expr.of;
    if let Some((a, b)) = integer_of(&expr).zip(integer_of(&count)) {
        drop(expr);
        drop(count);
        return Ok(folded(ground, left, at, a, b, of));
    }
    binary_of(
        ground,
        at,
        of,
        shift_op(left),
        Ok(Some(expr)),
        Ok(Some(count)),
    )
}

const fn shift_op(left: bool) -> BinaryOp
    ensures { result ≡ shift_op left }
{
    if left {
        BinaryOp::ShiftLeft
    } else {
        BinaryOp::ShiftRight
    }
}

fn folded(
    ground: &mut Ground,
    left: bool,
    at: Pos,
    a: i128,
    count: i128,
    of: TypeId,
) -> Option<TypedExpr>
    ensures answer { result ≡ (shifted ground.old.types left at a count of).sound }
    ensures broken { ground.new ≡ reported ground.old (shifted ground.old.types left at a count of).broken }
{
    match fold_shift(&ground.types, left, a, count, of) {
        Ok(value) => Some(node(at, of, ExprKind::ConstOf(value))),
        Err(breach) => {
            ground.report(at, breach.rule);
            None
        }
    }
}
