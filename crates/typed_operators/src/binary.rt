//! Operators of arithmetic and logic on two operands. Go specification, "Operators", "Arithmetic operators", "String
//! concatenation" and "Logical operators".

ghost use Rattle.std.specs.Prelude.{◌≡◌};
ghost use Rattle.std.specs.Option.{option_map};
ghost use Rattle.go_base.specs.declared.rule.Rule.TheVariants.{BadOperand, DivisionByZero};
ghost use Rattle.go_rules.specs.Folding.{arithmetic_folded, logic_folded};
ghost use Rattle.typed_operators.specs.Binary.{IsAlike, IsArithmetic, IsCombined, IsJoined, IsJunction, IsLogical, IsMatchedAlike, IsOperated, arithmetic_operands, binary_op, broken_of, divisor_given, folded_node, holds_of, is_zero, logic_operands, operands_of, operands_break, operands_hold, takes_given, truth_given, truths, truths_break, truths_hold};
ghost use Rattle.typed_operators.specs.Pairs.{constants};
ghost use Rattle.typed_operators.specs.Shifting.{IsBinary, is_left};
ghost use Rattle.typed_parts.specs.Judged.{Comes, Exactly, reported};
ghost use Rattle.typed_parts.specs.Numbers.{integer_of};

use crate::pairs::{Pair, paired};
use crate::shifting::shift;
use go_base::{NoMemory, Pos, Rule, TypeId};
use go_rules::{
    FoldError, LogicOp, Matched, Part, fold_arithmetic, fold_logic, match_types, takes_arithmetic,
    takes_logic,
};
use go_tree::{ExprKind, TypedExpr};
use go_type::{BinaryOp, Const, ConstOp, Types, identical};
use typed_parts::{
    Given, Ground, Seen, and_also, binary_of, integer_of, node, one_value, only, or_else,
};

/// An operator whose result has the type of the left operand: `arithmetic`, or `shift`.
pub fn binary_expression(
    ground: &mut Ground,
    op: BinaryOp,
    x: Seen,
    y: Seen,
) -> Result<Option<TypedExpr>, NoMemory>
    ensures { Comes ground.old ground.new result (IsBinary ground.old.types op x y) }
{
    match op.int_op() {
        Some(int_op) => arithmetic(ground, int_op, x, y),
        None => shift(ground, is_left(op), x, y),
    }
}

const fn is_left(op: BinaryOp) -> bool
    ensures { result ≡ is_left op }
{
    matches!(op, BinaryOp::ShiftLeft)
}

/// What two operands become, where that is one type or kind.
fn matched_alike(types: &Types, first: TypeId, second: TypeId) -> Option<Matched>
    ensures { IsMatchedAlike types.now first second result }
{
    match match_types(types, first, second)? {
        Matched::Typed => {
            if identical(types, first, second) {
                Some(Matched::Typed)
            } else {
                None
            }
        }
        how => Some(how),
    }
}

/// Two operands of one type or kind. `BadOperand` at the first where there is none.
fn alike(ground: &mut Ground, x: Given, y: Given) -> Result<Option<Pair>, NoMemory>
    ensures { Comes ground.old ground.new result (IsAlike ground.old.types x y) }
{
    match matched_alike(&ground.types, x.expr.of, y.expr.of) {
        Some(how) => paired(ground, how, x.expr, y.expr),
        None => {
            ground.report(x.at, Rule::BadOperand);
            drop(x);
            drop(y);
            Ok(None)
        }
    }
}

/// Two operands, each of which is one value.
#[derive(Drop)]
struct Operands {
    x: Given,
    y: Given,
    /// Whether the operator takes them.
    taken: bool,
}

/// The places of an operation of arithmetic.
#[derive(Clone, Copy)]
struct Places {
    /// Of the whole, which is that of the first operand.
    whole: Pos,
    second: Pos,
}

/// `x op y` of arithmetic. `BadOperand` at an operand that the operator does not take, and at the whole where the two
/// have no type in common; `ConstantOutOfRange` at an untyped constant that is no value of the other's type, and at
/// the whole where constants have no value of their type; `DivisionByZero` at a divisor that is the constant 0.
pub fn arithmetic(
    ground: &mut Ground,
    op: ConstOp,
    x: Seen,
    y: Seen,
) -> Result<Option<TypedExpr>, NoMemory>
    ensures { Comes ground.old ground.new result (IsArithmetic ground.old.types op x y) }
{
    match arithmetic_operands(ground, op, x, y) {
        Some(operands) => operated(ground, op, operands),
        None => Ok(None),
    }
}

/// The operands of arithmetic, where they are sound.
#[tactic(auto, using(typed_parts::proofs::Reports::reported_after))]
fn arithmetic_operands(ground: &mut Ground, op: ConstOp, x: Seen, y: Seen) -> Option<Operands>
    ensures answer { result ≡ (arithmetic_operands ground.old.types op x y).sound }
    ensures broken { ground.new ≡ reported ground.old (arithmetic_operands ground.old.types op x y).broken }
{
    let x = one_value(ground, x);
    let y = one_value(ground, y);
    let taken = ask_operands(ground, op, &x, &y);
    operands_of(x, y, taken)
}

fn operands_of(x: Option<Given>, y: Option<Given>, taken: bool) -> Option<Operands>
    ensures { result ≡ operands_of x y taken }
{
    match x.zip(y) {
        Some((x, y)) => Some(Operands { x, y, taken }),
        None => None,
    }
}

fn operated(
    ground: &mut Ground,
    op: ConstOp,
    operands: Operands,
) -> Result<Option<TypedExpr>, NoMemory>
    ensures { Comes ground.old ground.new result (IsOperated ground.old.types op operands) }
{
    let Operands { x, y, taken } = operands;
    let places = Places {
        whole: x.at,
        second: y.at,
    };
    let pair = alike(ground, x, y)?;
    match only(pair, taken) {
        Some(pair) => combined(ground, op, places, pair),
        None => Ok(None),
    }
}

/// Whether each operand that is sound is one that the operator takes.
#[tactic(auto, using(typed_parts::proofs::Reports::reported_after))]
fn ask_operands(ground: &mut Ground, op: ConstOp, x: &Option<Given>, y: &Option<Given>) -> bool
    ensures holds { result ≡ operands_hold ground.old.types op x.now y.now }
    ensures broken { ground.new ≡ reported ground.old (operands_break ground.old.types op x.now y.now) }
{
    let first = ask_arithmetic(ground, op, x);
    let second = ask_arithmetic(ground, op, y);
    let divisor = ask_divisor(ground, op, y);
    first && second && divisor
}

/// Whether an operand, where it is sound, is one that the operator takes. `BadOperand` at it where not.
fn ask_arithmetic(ground: &mut Ground, op: ConstOp, x: &Option<Given>) -> bool
    ensures holds { result ≡ holds_of (takes_given ground.old.types op) x.now }
    ensures broken { ground.new ≡ reported ground.old (broken_of (takes_given ground.old.types op) BadOperand x.now) }
{
    let Some(x) = x else {
        return true;
    };
    if takes_arithmetic(&ground.types, op, x.expr.of) {
        return true;
    }
    ground.report(x.at, Rule::BadOperand);
    false
}

/// Whether an operand is no constant 0 by which is divided. `DivisionByZero` at it where it is.
fn ask_divisor(ground: &mut Ground, op: ConstOp, y: &Option<Given>) -> bool
    ensures holds { result ≡ holds_of (divisor_given op) y.now }
    ensures broken { ground.new ≡ reported ground.old (broken_of (divisor_given op) DivisionByZero y.now) }
{
    let Some(y) = y else {
        return true;
    };
    if !matches!(op, ConstOp::Div | ConstOp::Rem) || !is_zero(&y.expr) {
        return true;
    }
    ground.report(y.at, Rule::DivisionByZero);
    false
}

fn is_zero(expr: &TypedExpr) -> bool
    ensures { result ≡ is_zero (integer_of expr.now) }
{
    match integer_of(expr) {
        Some(number) => number == 0,
        None => false,
    }
}

/// An operation on two operands of one type: a constant where both are.
fn combined(
    ground: &mut Ground,
    op: ConstOp,
    places: Places,
    pair: Pair,
) -> Result<Option<TypedExpr>, NoMemory>
    ensures { Comes ground.old ground.new result (IsCombined ground.old.types op places pair) }
{
    let of = pair.left.of;
    if let Some((a, b)) = pair.constants() {
        let value = fold(ground, op, places, a, b, of);
        drop(pair);
        return value;
    }
    let Pair { left, right } = pair;
    binary_of(
        ground,
        places.whole,
        of,
        binary_op(op),
        Ok(Some(left)),
        Ok(Some(right)),
    )
}

fn fold(
    ground: &mut Ground,
    op: ConstOp,
    places: Places,
    a: &Const,
    b: &Const,
    of: TypeId,
) -> Result<Option<TypedExpr>, NoMemory>
    ensures { Comes ground.old ground.new result (Exactly (folded_node places of (arithmetic_folded ground.old.types op a.now b.now of))) }
{
    match fold_arithmetic(ground.alloc, &ground.types, op, a, b, of) {
        Ok(value) => Ok(Some(node(places.whole, of, ExprKind::ConstOf(value)))),
        Err(FoldError::Broken(breach)) => {
            let place = match breach.part {
                Part::Second => places.second,
                _ => places.whole,
            };
            ground.report(place, breach.rule);
            Ok(None)
        }
        Err(FoldError::OutOfMemory) => Err(NoMemory),
    }
}

const fn binary_op(op: ConstOp) -> BinaryOp
    ensures { result ≡ binary_op op }
{
    match op {
        ConstOp::Add => BinaryOp::Add,
        ConstOp::Sub => BinaryOp::Sub,
        ConstOp::Mul => BinaryOp::Mul,
        ConstOp::Div => BinaryOp::Div,
        ConstOp::Rem => BinaryOp::Rem,
        ConstOp::And => BinaryOp::And,
        ConstOp::Or => BinaryOp::Or,
        ConstOp::Xor => BinaryOp::Xor,
        ConstOp::AndNot => BinaryOp::AndNot,
    }
}

/// `x && y` or `x || y`. `BadOperand` at an operand that is no boolean, and at the whole where the types differ.
pub fn logical(
    ground: &mut Ground,
    op: LogicOp,
    x: Seen,
    y: Seen,
) -> Result<Option<TypedExpr>, NoMemory>
    ensures { Comes ground.old ground.new result (IsLogical ground.old.types op x y) }
{
    match logic_operands(ground, x, y) {
        Some(operands) => joined(ground, op, operands),
        None => Ok(None),
    }
}

/// The operands of logic, where they are sound.
#[tactic(auto, using(typed_parts::proofs::Reports::reported_after))]
fn logic_operands(ground: &mut Ground, x: Seen, y: Seen) -> Option<Operands>
    ensures answer { result ≡ (logic_operands ground.old.types x y).sound }
    ensures broken { ground.new ≡ reported ground.old (logic_operands ground.old.types x y).broken }
{
    let x = one_value(ground, x);
    let y = one_value(ground, y);
    let taken = ask_truths(ground, &x, &y);
    operands_of(x, y, taken)
}

fn joined(
    ground: &mut Ground,
    op: LogicOp,
    operands: Operands,
) -> Result<Option<TypedExpr>, NoMemory>
    ensures { Comes ground.old ground.new result (IsJoined ground.old.types op operands) }
{
    let Operands { x, y, taken } = operands;
    let at = x.at;
    let pair = alike(ground, x, y)?;
    match only(pair, taken) {
        Some(pair) => joined_truths(ground, op, at, pair),
        None => Ok(None),
    }
}

#[tactic(auto, using(typed_parts::proofs::Reports::reported_after))]
fn ask_truths(ground: &mut Ground, x: &Option<Given>, y: &Option<Given>) -> bool
    ensures holds { result ≡ truths_hold ground.old.types x.now y.now }
    ensures broken { ground.new ≡ reported ground.old (truths_break ground.old.types x.now y.now) }
{
    let first = ask_logic(ground, x);
    let second = ask_logic(ground, y);
    first && second
}

fn ask_logic(ground: &mut Ground, x: &Option<Given>) -> bool
    ensures holds { result ≡ holds_of (truth_given ground.old.types) x.now }
    ensures broken { ground.new ≡ reported ground.old (broken_of (truth_given ground.old.types) BadOperand x.now) }
{
    let Some(x) = x else {
        return true;
    };
    if takes_logic(&ground.types, x.expr.of) {
        return true;
    }
    ground.report(x.at, Rule::BadOperand);
    false
}

fn joined_truths(
    ground: &Ground,
    op: LogicOp,
    at: Pos,
    pair: Pair,
) -> Result<Option<TypedExpr>, NoMemory>
    ensures { Comes ground.now ground.now result (IsJunction op at pair) }
{
    let of = pair.left.of;
    if let Some(truth) = folded_truth(op, &pair) {
        drop(pair);
        return Ok(Some(node(at, of, ExprKind::ConstOf(Const::Truth(truth)))));
    }
    let Pair { left, right } = pair;
    match op {
        LogicOp::And => and_also(ground, at, of, Ok(Some(left)), Ok(Some(right))),
        LogicOp::Or => or_else(ground, at, of, Ok(Some(left)), Ok(Some(right))),
    }
}

fn folded_truth(op: LogicOp, pair: &Pair) -> Option<bool>
    ensures { result ≡ option_map (λ both. logic_folded op both.0 both.1) (truths (constants pair.now)) }
{
    match pair.constants()? {
        (Const::Truth(a), Const::Truth(b)) => Some(fold_logic(op, *a, *b)),
        _ => None,
    }
}
