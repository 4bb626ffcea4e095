//! Which types operators, interfaces and assertions need. Go specification, "Operators" and "Type assertions".

ghost use Rattle.std.specs.Prelude.{◌≡◌, ◌&&◌, ◌||◌};
ghost use Rattle.go_type.specs.Assignable.{underlying_term_of};
ghost use Rattle.go_type.specs.Same.{same_id};
ghost use Rattle.go_type.specs.Table.{term_at};
ghost use Rattle.expr_typing.specs.Parts as part;
ghost use Rattle.expr_typing.specs.Parts.{compares};
ghost use Rattle.expr_typing.specs.Telling.{Told, at_tests};
ghost use Rattle.type_shapes.specs.Shapes as shape;
ghost use Rattle.typed_trees.specs.Nodes as node;
ghost use Rattle.typed_trees.specs.Tests.{Tests};

use crate::around::Around;
use crate::asking::{comparable, implements};
use crate::forms::has_address;
use crate::nodes::{has_integers, is_ordered, is_value_or_both};
use go_base::TypeId;
use go_type::{BinaryOp, CompareOp, TypeTerm, Types, UnaryOp};
use type_shapes::{is_interface, is_pointer_to, is_text, is_truth, may_receive};
use typed_trees::Form;

/// Whether what has an address has the base of a pointer type.
pub fn fits_address(around: Around<'_>, form: Form, operand: TypeId, of: TypeId) -> bool
    ensures { result ≡ (node.has_address form && shape.is_pointer_to (term_at around.entry.program.now.types of) operand) }
{
    has_address(form) && is_pointer_to(&around.program.types, of, operand)
}

pub fn fits_unary(around: Around<'_>, op: UnaryOp, operand: TypeId, of: TypeId) -> bool
    ensures { (tests : Tests) → result ≡ node.fits_unary (at_tests around.entry tests) op operand of }
{
    takes_unary(around, op, of) && operand == of
}

fn takes_unary(around: Around<'_>, op: UnaryOp, of: TypeId) -> bool
    ensures { (tests : Tests) → result ≡ node.takes_unary (at_tests around.entry tests) op of }
{
    match op {
        UnaryOp::Not => is_truth(&around.program.types, of),
        UnaryOp::Negate | UnaryOp::Complement => has_integers(around, of),
    }
}

/// Whether an operator has operands of two types, and gives a value of a third. Go specification, "Arithmetic
/// operators".
#[tactic(auto, using(crate::proofs::Lists::join_rules))]
pub fn fits_binary(
    around: Around<'_>,
    op: BinaryOp,
    left: TypeId,
    right: TypeId,
    of: TypeId,
) -> bool
    ensures { (tests : Tests) → result ≡ node.fits_binary (at_tests around.entry tests) op left right of }
{
    match op.shift() {
        Some(_) => (left == of) & (has_integers(around, left) & has_integers(around, right)),
        None => (left == of) & ((right == of) & takes_binary(around, op, of)),
    }
}

/// Whether an operator takes values of a type: integers, and strings that are joined.
fn takes_binary(around: Around<'_>, op: BinaryOp, of: TypeId) -> bool
    ensures { result ≡ (part.is_integer_type around.entry.program.now.types of || (part.is_join op && shape.is_text (underlying_term_of around.entry.program.now.types of))) }
{
    has_integers(around, of) || (is_join(op) && is_text(&around.program.types, of))
}

fn is_join(op: BinaryOp) -> bool
    ensures { result ≡ part.is_join op }
{
    matches!(op, BinaryOp::Add)
}

/// Whether values of two types may be compared, one of which may be `nil`.
pub fn fits_comparison(
    around: Around<'_>,
    op: CompareOp,
    left: TypeId,
    right: TypeId,
    is_nil: bool,
    of: TypeId,
) -> bool
    ensures { (told : Told around.entry.program.now.types) → result ≡ (same_id left right && (compares (at_tests around.entry told.tests) op left is_nil && shape.is_truth (underlying_term_of around.entry.program.now.types of))) }
{
    left == right && compares(around, op, left, is_nil) && is_truth(&around.program.types, of)
}

fn compares(around: Around<'_>, op: CompareOp, of: TypeId, is_nil: bool) -> bool
    ensures { (told : Told around.entry.program.now.types) → result ≡ compares (at_tests around.entry told.tests) op of is_nil }
{
    match op {
        CompareOp::Equal | CompareOp::NotEqual => comparable(around, of) || is_nil,
        CompareOp::Less | CompareOp::LessEqual | CompareOp::Greater | CompareOp::GreaterEqual =>
            is_ordered(around, of),
    }
}

pub fn fits_logic(around: Around<'_>, left: TypeId, right: TypeId, of: TypeId) -> bool
    ensures { result ≡ (same_id left of && (same_id right of && shape.is_truth (underlying_term_of around.entry.program.now.types of))) }
{
    left == of && right == of && is_truth(&around.program.types, of)
}

pub fn fits_receive(around: Around<'_>, channel: TypeId, comma_ok: bool, of: TypeId) -> bool
    ensures { (tests : Tests) → result ≡ node.fits_receive (at_tests around.entry tests) channel comma_ok of }
{
    let types = &around.program.types;
    match received_elem(types, channel) {
        Some(elem) => is_value_or_both(types, comma_ok, elem, of),
        None => false,
    }
}

/// The elements of a channel that may be received from.
fn received_elem(types: &Types, of: TypeId) -> Option<TypeId>
    ensures { result ≡ shape.received_elem (underlying_term_of types.now of) }
{
    match types.underlying_term(of) {
        Some(TypeTerm::Chan { dir, elem }) if may_receive(*dir) => Some(*elem),
        _ => None,
    }
}

pub fn fits_boxing(around: Around<'_>, operand: TypeId, of: TypeId) -> bool
    ensures { (told : Told around.entry.program.now.types) → result ≡ node.fits_boxing (at_tests around.entry told.tests) operand of }
{
    is_interface(&around.program.types, of) && implements(around, operand, of)
}

pub fn fits_assertion(
    around: Around<'_>,
    operand: TypeId,
    to: TypeId,
    comma_ok: bool,
    of: TypeId,
) -> bool
    ensures { (told : Told around.entry.program.now.types) → result ≡ node.fits_assertion (at_tests around.entry told.tests) operand to comma_ok of }
{
    let types = &around.program.types;
    is_interface(types, operand)
        && (is_interface(types, to) || implements(around, to, operand))
        && is_value_or_both(types, comma_ok, to, of)
}
