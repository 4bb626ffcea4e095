//! Type assertions and comma-ok forms. Go specification, "Type assertions", "Index expressions", "Receive operator" and "Type
//! switches".

ghost use Rattle.std.specs.Prelude.{◌≡◌, ◌↔◌, IfOk, IsTrue};
ghost use Rattle.typed_parts.specs.Joining.{sound};
ghost use Rattle.typed_parts.specs.Judged.{reported};
ghost use Rattle.typed_parts.specs.Turning.{Turns};
ghost use Rattle.typed_primaries.specs.Asserting.{IsAsserted, IsTypeAssertion, IsWithOk, MayBe, case_broken, has_second, interface_value, paired_with_ok};

use go_base::{NoMemory, Pos, Rule, TypeId};
use go_tree::{ExprKind, TypedExpr};
use go_type::{Basic, basic, implements};
use typed_parts::{Given, Ground, Seen, asked, beside, boxed, is_interface, node, one_value, only};

/// `x.(T)`, where the type is at a place. `BadTypeAssertion` at an operand that is no interface, and at a type that is
/// neither an interface nor has its methods.
pub fn type_assertion(
    ground: &mut Ground,
    x: Seen,
    to: Option<TypeId>,
    to_at: Pos,
) -> Result<Option<TypedExpr>, NoMemory>
    ensures { Turns ground.old ground.new result (IsTypeAssertion x to to_at) }
{
    let x = interface_operand(ground, x);
    match x.zip(to) {
        Some((x, to)) => asserted(ground, x, to, to_at),
        None => Ok(None),
    }
}

/// A value of an interface type as one of another type. `BadTypeAssertion` at that where it may not be.
fn asserted(
    ground: &mut Ground,
    x: Given,
    to: TypeId,
    to_at: Pos,
) -> Result<Option<TypedExpr>, NoMemory>
    ensures { Turns ground.old ground.new result (IsAsserted to_at x to) }
{
    let may = asserted_case(ground, x.expr.of, to, to_at);
    let Some(x) = only(Some(x), may) else {
        return Ok(None);
    };
    let operand = boxed(ground, x.expr)?;
    Ok(Some(node(
        x.at,
        to,
        ExprKind::AssertTo {
            operand,
            to,
            comma_ok: false,
        },
    )))
}

/// The operand of a type assertion or a type switch. `BadTypeAssertion` at one that is no interface.
#[tactic(auto, using(typed_parts::proofs::Reports::reported_after))]
pub fn interface_operand(ground: &mut Ground, x: Seen) -> Option<Given>
    ensures answer { result ≡ (interface_value ground.old.types x).sound }
    ensures broken { ground.new ≡ reported ground.old (interface_value ground.old.types x).broken }
{
    let x = one_value(ground, x)?;
    let may = is_interface(&ground.types, x.expr.of);
    asked(ground, x, may, Rule::BadTypeAssertion)
}

/// Whether a type may be asserted of a value of an interface type. `BadTypeAssertion` at it where it is neither an
/// interface nor has its methods.
pub fn asserted_case(ground: &mut Ground, of: TypeId, to: TypeId, to_at: Pos) -> bool
    ensures holds { IsTrue result ↔ MayBe ground.old.types of to }
    ensures broken { ground.new ≡ reported ground.old (case_broken to_at result) }
{
    if is_interface(&ground.types, to) || implements(&ground.types, to, of) {
        return true;
    }
    ground.report(to_at, Rule::BadTypeAssertion);
    false
}

/// Whether an expression may give a second value that tells whether it has one: an index of a map, a receive or a type
/// assertion.
pub fn has_ok_form(expr: &TypedExpr) -> bool
    ensures { result ≡ has_second expr.now.kind }
{
    matches!(
        &expr.kind,
        ExprKind::MapIndex { .. } | ExprKind::Receive { .. } | ExprKind::AssertTo { .. }
    )
}

/// The expression with its second value, whose type is a tuple; where it has no such form, as it is.
pub fn with_ok(ground: &mut Ground, expr: TypedExpr) -> Result<TypedExpr, NoMemory>
    ensures { Turns ground.old ground.new (sound result) (IsWithOk expr) }
{
    let pair = ground.tuple(&[expr.of, basic(Basic::Bool)]);
    let (pair, expr) = beside(pair, expr)?;
    Ok(paired(expr, pair))
}

/// An expression that has a form with a second value in that form, with the type of both.
fn paired(expr: TypedExpr, pair: TypeId) -> TypedExpr
    ensures { result ≡ paired_with_ok expr pair }
{
    let (at, of, kind) = expr.into_parts();
    let comma_ok = true;
    match kind {
        ExprKind::MapIndex { map, key, .. } => {
            node(at, pair, ExprKind::MapIndex { map, key, comma_ok })
        }
        ExprKind::Receive { channel, .. } => {
            node(at, pair, ExprKind::Receive { channel, comma_ok })
        }
        ExprKind::AssertTo { operand, to, .. } => node(
            at,
            pair,
            ExprKind::AssertTo {
                operand,
                to,
                comma_ok,
            },
        ),
        kind => node(at, of, kind),
    }
}
