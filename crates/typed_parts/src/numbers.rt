//! Constants that are known by an expression, and whole numbers. Go specification, "Constants", "Index expressions" and
//! "Slice expressions".

ghost use Rattle.std.specs.Prelude.{◌≡◌, is_some};
ghost use Rattle.typed_parts.specs.Judged.{Comes};
ghost use Rattle.typed_parts.specs.Retyping.{IsAsUntyped};
ghost use Rattle.typed_parts.specs.Wholes.{IsTextTyped, IsWhole};
ghost use Rattle.typed_parts.specs.Numbers.{constant_in, integer_of, text_length, whole_breach};

use crate::ground::Ground;
use crate::meaning::Given;
use crate::retyping::retyped;
use crate::shapes::is_untyped_text;
use go_base::{NoMemory, Rule, TypeId};
use go_rules::{takes_sign, untyped_kind};
use go_tree::{ExprKind, TypedExpr};
use go_type::{Basic, Const, Types, basic, represent};

/// The number of a constant integer.
#[tactic(auto, unfolding(crate::specs::Numbers::integer_of))]
pub fn integer_of(expr: &TypedExpr) -> Option<i128>
    ensures { result ≡ integer_of expr.now }
{
    match &expr.kind {
        ExprKind::ConstOf(Const::Int(number) | Const::Rune(number)) => Some(*number),
        _ => None,
    }
}

/// Whether an expression is a constant.
pub fn is_constant(expr: &TypedExpr) -> bool
    ensures { result ≡ is_some (constant_in expr.now.kind) }
{
    matches!(&expr.kind, ExprKind::ConstOf(_))
}

/// How many bytes a constant string has.
#[tactic(auto, unfolding(crate::specs::Numbers::text_length))]
pub fn text_length(expr: &TypedExpr) -> Option<i128>
    ensures { result ≡ text_length expr.now }
{
    match &expr.kind {
        ExprKind::ConstOf(Const::Text(bytes)) => Some(bytes.len() as i128),
        _ => None,
    }
}

/// A whole number, as an index, a bound or a size: of an integer type, an untyped one of `int`. `rule` at it where it is no
/// integer or is a constant below 0, and `ConstantOutOfRange` at a constant that `int` has not.
pub fn whole_index(
    ground: &mut Ground,
    i: Option<Given>,
    rule: Rule,
) -> Result<Option<TypedExpr>, NoMemory>
    ensures { Comes ground.old ground.new result (IsWhole ground.old.types i rule) }
{
    let Some(i) = i else {
        return Ok(None);
    };
    match whole_breach(&ground.types, &i.expr, rule) {
        Some(rule) => {
            ground.report(i.at, rule);
            drop(i);
            Ok(None)
        }
        None => as_untyped(ground, i.expr, basic(Basic::Int)),
    }
}

/// The rule that an expression breaks as a whole number.
fn whole_breach(types: &Types, expr: &TypedExpr, rule: Rule) -> Option<Rule>
    ensures { result ≡ whole_breach types.now expr.now rule }
{
    if !takes_sign(types, expr.of) {
        return Some(rule);
    }
    let number = integer_of(expr)?;
    if !represent(types, &Const::Int(number), basic(Basic::Int)) {
        return Some(Rule::ConstantOutOfRange);
    }
    if number < 0 { Some(rule) } else { None }
}

/// An untyped operand with a type that it may take, and a typed one as it is.
pub fn as_untyped(
    ground: &mut Ground,
    expr: TypedExpr,
    to: TypeId,
) -> Result<Option<TypedExpr>, NoMemory>
    ensures { Comes ground.old ground.new result (IsAsUntyped ground.old.types to expr) }
{
    match untyped_kind(&ground.types, expr.of) {
        Some(_) => retyped(ground, expr, to),
        None => Ok(Some(expr)),
    }
}

/// An untyped string as one of type `string`, and any other value as it is.
pub fn with_text_type(ground: &mut Ground, x: Option<Given>) -> Result<Option<Given>, NoMemory>
    ensures { Comes ground.old ground.new result (IsTextTyped ground.old.types x) }
{
    let Some(x) = x else {
        return Ok(None);
    };
    if !is_untyped_text(&ground.types, x.expr.of) {
        return Ok(Some(x));
    }
    let Given { at, expr } = x;
    match retyped(ground, expr, basic(Basic::Text))? {
        Some(expr) => Ok(Some(Given { at, expr })),
        None => Ok(None),
    }
}
