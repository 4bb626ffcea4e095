//! Comparisons. Go specification, "Comparison operators" and "Expression switches".

ghost use Rattle.std.specs.Prelude.{◌≡◌, ◌↔◌, ◌⊎◌, IfOk, IsTrue};
ghost use Rattle.go_type.specs.Assignable.{Assignable};
ghost use Rattle.go_rules.specs.Operands.{TakesComparison};
ghost use Rattle.go_type.specs.declared.operators.CompareOp.TheVariants as compare_op;
ghost use Rattle.typed_operators.specs.Comparing.{AreCompared, AreComparedNodes, AreDefaulted, IsAsked, IsAskedCase, IsCase, IsCaseMatched, IsCaseOf, IsCaseOperand, IsCased, IsCaseValue, IsComparablePair, IsCompared, IsComparison, IsComparisonOf, IsLevelled, IsMatchedFor, IsPairMatched, IsTruth, IsTruthCase, IsTruthCaseOf, IsTruthOf, tests_equality, with_nil};
ghost use Rattle.typed_operators.specs.Pairs.{two_values};
ghost use Rattle.typed_parts.specs.Judged.{Comes, Outcome, reported};

use crate::pairs::{Pair, pair_of, paired};
use go_base::{NoMemory, Pos, Rule, TypeId};
use go_rules::{Matched, Untyped, fold_compare, match_compared, takes_comparison};
use go_tree::{ExprKind, TypedCase, TypedExpr};
use go_type::{Basic, CompareOp, Const, Types, basic};
use typed_parts::{
    Given, Ground, Seen, asked, beside, boxes, defaulted, is_nil, lost, made, may_pass, node,
    one_value, only, retyped, sound,
};

/// `x op y`. `NotComparable` at the whole where the two cannot be compared, and `ConstantOutOfRange` at an untyped constant
/// that does not fit.
pub fn comparison(
    ground: &mut Ground,
    op: CompareOp,
    x: Seen,
    y: Seen,
) -> Result<Option<TypedExpr>, NoMemory>
    ensures { Comes ground.old ground.new result (IsComparison ground.old.types op x y) }
{
    match two_values(ground, x, y) {
        Some((x, y)) => comparison_of(ground, op, x, y),
        None => Ok(None),
    }
}

/// Two operands, each of which is one value.
#[tactic(auto, using(typed_parts::proofs::Reports::reported_after))]
fn two_values(ground: &mut Ground, x: Seen, y: Seen) -> Option<(Given, Given)>
    ensures answer { result ≡ (two_values ground.old.types x y).sound }
    ensures broken { ground.new ≡ reported ground.old (two_values ground.old.types x y).broken }
{
    let x = one_value(ground, x);
    let y = one_value(ground, y);
    x.zip(y)
}

fn comparison_of(
    ground: &mut Ground,
    op: CompareOp,
    x: Given,
    y: Given,
) -> Result<Option<TypedExpr>, NoMemory>
    ensures { Comes ground.old ground.new result (IsComparisonOf ground.old.types op x y) }
{
    let at = x.at;
    match comparable_pair(ground, op, x, y)? {
        Some(pair) => compared(ground, op, at, pair),
        None => Ok(None),
    }
}

/// Two operands as they are compared. `NotComparable` at the first.
fn comparable_pair(
    ground: &mut Ground,
    op: CompareOp,
    x: Given,
    y: Given,
) -> Result<Option<Pair>, NoMemory>
    ensures { Comes ground.old ground.new result (IsComparablePair ground.old.types op x y) }
{
    let (first, second) = (x.expr.of, y.expr.of);
    let at = x.at;
    match matched_for(&ground.types, op, first, second) {
        Some(how) => pair_matched(ground, op, how, x, y),
        None => {
            drop(x);
            drop(y);
            ground.report(at, Rule::NotComparable);
            Ok(None)
        }
    }
}

fn pair_matched(
    ground: &mut Ground,
    op: CompareOp,
    how: Matched,
    x: Given,
    y: Given,
) -> Result<Option<Pair>, NoMemory>
    ensures { Comes ground.old ground.new result (IsPairMatched ground.old.types op how x y) }
{
    let at = x.at;
    let with_nil = with_nil(&ground.types, x.expr.of, y.expr.of);
    match paired(ground, how, x.expr, y.expr)? {
        Some(pair) => Ok(asked_pair(ground, op, at, pair, with_nil)),
        None => Ok(None),
    }
}

fn with_nil(types: &Types, first: TypeId, second: TypeId) -> bool
    ensures { result ≡ with_nil types.now first second }
{
    is_nil(types, first) || is_nil(types, second)
}

/// Two operands, where both have types of which values are compared, or one is `nil`. `NotComparable` at the place.
fn asked_pair(
    ground: &mut Ground,
    op: CompareOp,
    at: Pos,
    pair: Pair,
    with_nil: bool,
) -> Option<Pair>
    ensures { Outcome ground.old ground.new result (IsAsked ground.old.types op at with_nil pair) }
{
    if with_nil {
        return Some(pair);
    }
    if take_comparison(&ground.types, op, pair.left.of, pair.right.of) {
        return Some(pair);
    }
    drop(pair);
    ground.report(at, Rule::NotComparable);
    None
}

fn take_comparison(types: &Types, op: CompareOp, first: TypeId, second: TypeId) -> bool
    ensures { IsTrue result ↔ (TakesComparison types.now op first × TakesComparison types.now op second) }
{
    takes_comparison(types, op, first) && takes_comparison(types, op, second)
}

/// What two operands of a comparison become by their types. None where they cannot be compared.
fn matched_for(types: &Types, op: CompareOp, first: TypeId, second: TypeId) -> Option<Matched>
    ensures { IsMatchedFor types.now op first second result }
{
    if with_nil(types, first, second) {
        if tests_equality(op) {
            return match_compared(types, first, second);
        }
        return None;
    }
    match match_compared(types, first, second)? {
        Matched::Typed => {
            if may_pass_either(types, first, second) {
                Some(Matched::Typed)
            } else {
                None
            }
        }
        how => Some(how),
    }
}

/// Whether values of one of two types may be assigned to the other.
fn may_pass_either(types: &Types, first: TypeId, second: TypeId) -> bool
    ensures { IsTrue result ↔ (Assignable types.now first second ⊎ Assignable types.now second first) }
{
    may_pass(types, first, second) || may_pass(types, second, first)
}

const fn tests_equality(op: CompareOp) -> bool
    ensures { result ≡ tests_equality op }
{
    matches!(op, CompareOp::Equal | CompareOp::NotEqual)
}

/// The comparison of two operands that can be compared: a constant where both are.
fn compared(
    ground: &mut Ground,
    op: CompareOp,
    at: Pos,
    pair: Pair,
) -> Result<Option<TypedExpr>, NoMemory>
    ensures { Comes ground.old ground.new result (IsCompared ground.old.types op at pair) }
{
    if let Some((a, b)) = pair.constants() {
        let value = Const::Truth(fold_compare(op, a, b));
        drop(pair);
        return Ok(Some(node(at, Untyped::Bool.type_id(), ExprKind::ConstOf(value))));
    }
    compared_nodes(ground, op, at, pair)
}

fn compared_nodes(
    ground: &mut Ground,
    op: CompareOp,
    at: Pos,
    pair: Pair,
) -> Result<Option<TypedExpr>, NoMemory>
    ensures { Comes ground.old ground.new result (AreComparedNodes ground.old.types op at pair) }
{
    match defaulted_pair(ground, pair)? {
        Some(pair) => sound(compared_values(ground, op, at, pair)),
        None => Ok(None),
    }
}

/// Two operands that are not both constants, where untyped ones take their default types.
fn defaulted_pair(ground: &mut Ground, pair: Pair) -> Result<Option<Pair>, NoMemory>
    ensures { Comes ground.old ground.new result (AreDefaulted ground.old.types pair) }
{
    let left = defaulted(ground, pair.left);
    let right = defaulted(ground, pair.right);
    pair_of(left, right)
}

/// The comparison of two typed operands, of which one may be assigned to the type of the other.
fn compared_values(
    ground: &Ground,
    op: CompareOp,
    at: Pos,
    pair: Pair,
) -> Result<TypedExpr, NoMemory>
    ensures { IfOk result (AreCompared ground.now.types op at pair) }
{
    let pair = levelled(ground, pair)?;
    let (left, right) = boxes(ground, pair.left, pair.right)?;
    Ok(node(
        at,
        Untyped::Bool.type_id(),
        ExprKind::CompareOf { op, left, right },
    ))
}

/// Two typed operands as ones of one type: the left one takes that of the right one if it may, and else the right one that
/// of the left.
fn levelled(ground: &Ground, pair: Pair) -> Result<Pair, NoMemory>
    ensures { IfOk result (IsLevelled ground.now.types pair.left pair.right) }
{
    let Pair { left, right } = pair;
    let (first, second) = (left.of, right.of);
    if may_pass(&ground.types, first, second) {
        let (left, right) = beside(made(ground, left, second), right)?;
        Ok(Pair { left, right })
    } else {
        let (right, left) = beside(made(ground, right, first), left)?;
        Ok(Pair { left, right })
    }
}

/// A case of a switch whose tag has a type: the value is compared with the tag by `==`. Rows stand at the value.
pub fn case_value(
    ground: &mut Ground,
    tag: TypeId,
    value: Seen,
) -> Result<Option<TypedCase>, NoMemory>
    ensures { Comes ground.old ground.new result (IsCaseValue ground.old.types tag value) }
{
    match one_value(ground, value) {
        Some(x) => case_given(ground, tag, x),
        None => Ok(None),
    }
}

fn case_given(ground: &mut Ground, tag: TypeId, x: Given) -> Result<Option<TypedCase>, NoMemory>
    ensures { Comes ground.old ground.new result (IsCaseOf ground.old.types tag x) }
{
    match matched_for(&ground.types, CompareOp::Equal, x.expr.of, tag) {
        Some(how) => case_matched(ground, how, x, tag),
        None => {
            ground.report(x.at, Rule::NotComparable);
            drop(x);
            Ok(None)
        }
    }
}

fn case_matched(
    ground: &mut Ground,
    how: Matched,
    x: Given,
    tag: TypeId,
) -> Result<Option<TypedCase>, NoMemory>
    ensures { Comes ground.old ground.new result (IsCaseMatched ground.old.types how x tag) }
{
    let at = x.at;
    match cased(ground, how, x, tag)? {
        Some(value) => sound(case_of(ground, at, tag, value)),
        None => Ok(None),
    }
}

/// A case's value as it is compared with a typed tag. `NotComparable` at it where it is not.
fn cased(
    ground: &mut Ground,
    how: Matched,
    x: Given,
    tag: TypeId,
) -> Result<Option<TypedExpr>, NoMemory>
    ensures { Comes ground.old ground.new result (IsCased ground.old.types how x tag) }
{
    let Given { at, expr } = x;
    let is_nil = is_nil(&ground.types, expr.of);
    match case_operand(ground, how, expr, tag)? {
        Some(value) => Ok(asked_case(ground, at, tag, value, is_nil)),
        None => Ok(None),
    }
}

/// A case's value, where values of its type and the tag's are compared, or it is `nil`.
fn asked_case(
    ground: &mut Ground,
    at: Pos,
    tag: TypeId,
    value: TypedExpr,
    is_nil: bool,
) -> Option<TypedExpr>
    ensures { Outcome ground.old ground.new result (IsAskedCase ground.old.types at is_nil tag value) }
{
    if is_nil {
        return Some(value);
    }
    if take_comparison(&ground.types, CompareOp::Equal, value.of, tag) {
        return Some(value);
    }
    drop(value);
    ground.report(at, Rule::NotComparable);
    None
}

fn case_operand(
    ground: &mut Ground,
    how: Matched,
    expr: TypedExpr,
    tag: TypeId,
) -> Result<Option<TypedExpr>, NoMemory>
    ensures { Comes ground.old ground.new result (IsCaseOperand ground.old.types how expr tag) }
{
    match how {
        Matched::Typed => Ok(Some(expr)),
        Matched::FirstConverted => retyped(ground, expr, tag),
        Matched::FirstDefault => defaulted(ground, expr),
        _ => {
            drop(expr);
            Err(lost())
        }
    }
}

/// A case: its value takes the tag's type if it may, and else the tag that of the value.
fn case_of(ground: &Ground, at: Pos, tag: TypeId, value: TypedExpr) -> Result<TypedCase, NoMemory>
    ensures { IfOk result (IsCase ground.now.types at tag value) }
{
    if may_pass(&ground.types, value.of, tag) {
        let value = made(ground, value, tag)?;
        Ok(TypedCase {
            at,
            tag_to: None,
            value,
        })
    } else {
        Ok(TypedCase {
            at,
            tag_to: Some(value.of),
            value,
        })
    }
}

/// A case of a switch without a tag: the value is compared with `true` of type `bool`.
pub fn truth_case(ground: &mut Ground, value: Seen) -> Result<Option<TypedCase>, NoMemory>
    ensures { Comes ground.old ground.new result (IsTruthCase ground.old.types value) }
{
    match case_value(ground, basic(Basic::Bool), value)? {
        Some(case) => sound(with_truth(ground, case)),
        None => Ok(None),
    }
}

/// A case that is compared with `true` as one that is true or false.
fn with_truth(ground: &Ground, case: TypedCase) -> Result<TypedCase, NoMemory>
    ensures { IfOk result (IsTruthCaseOf ground.now.types case) }
{
    let (at, tag_to, value) = case.into_parts();
    let value = truth_of(ground, at, tag_to, value)?;
    Ok(TypedCase {
        at,
        tag_to: None,
        value,
    })
}

fn truth_of(
    ground: &Ground,
    at: Pos,
    tag_to: Option<TypeId>,
    value: TypedExpr,
) -> Result<TypedExpr, NoMemory>
    ensures { IfOk result (IsTruthOf ground.now.types at value tag_to) }
{
    match tag_to {
        None => Ok(value),
        Some(to) => is_truth(ground, at, to, value),
    }
}

/// Whether a value of another type is `true`.
fn is_truth(ground: &Ground, at: Pos, to: TypeId, value: TypedExpr) -> Result<TypedExpr, NoMemory>
    ensures { IfOk result (IsTruth ground.now.types at to value) }
{
    let of = basic(Basic::Bool);
    let truth = node(at, of, ExprKind::ConstOf(Const::Truth(true)));
    let (truth, value) = beside(made(ground, truth, to), value)?;
    let (left, right) = boxes(ground, truth, value)?;
    Ok(node(
        at,
        of,
        ExprKind::CompareOf {
            op: CompareOp::Equal,
            left,
            right,
        },
    ))
}
