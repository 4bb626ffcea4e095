//! Which types operators need.

ghost use Rattle.std.specs.Prelude.{◌≡◌, ◌↔◌, IsTrue, is_some};
ghost use Rattle.ssa_typed.specs.Forms.{has_unary, is_shift, is_taken, is_equality, is_nil, common_type, is_same_address, ComparesAs, operates, ComparesOf, FitsBinary};
ghost use Rattle.ssa_typed.specs.Operands.{known};

use crate::known::{Frame, Known};
use go_base::TypeId;
use go_type::{BinaryOp, CompareOp, Types, UnaryOp, comparable};
use ssa_ir::{ConstValue, Infix, Operand};
use type_shapes::{is_integer, is_text, is_truth};

pub fn has_unary(types: &Types, op: UnaryOp, of: TypeId) -> bool
    ensures { result ≡ has_unary types.now op of }
{
    match op {
        UnaryOp::Negate | UnaryOp::Complement => is_integer(types, of),
        UnaryOp::Not => is_truth(types, of),
    }
}

pub fn fits_binary(frame: Frame, op: Infix, left: &Operand, right: &Operand, of: TypeId) -> bool
    ensures { IsTrue result ↔ FitsBinary frame.entry.code.now frame.entry.function.now op left.now right.now of }
{
    match op {
        Infix::Operate(op) => operates(frame, op, left, right, of),
        Infix::Compare(op) => is_truth(&frame.code.types, of) && compares(frame, op, left, right),
    }
}

fn operates(frame: Frame, op: BinaryOp, left: &Operand, right: &Operand, of: TypeId) -> bool
    ensures { result ≡ operates frame.entry.code.now frame.entry.function.now op left.now right.now of }
{
    if is_shift(op) {
        return frame.is(left, of)
            && is_integer(&frame.code.types, of)
            && frame.is_integer_operand(right);
    }
    is_taken(&frame.code.types, op, of) && frame.is(left, of) && frame.is(right, of)
}

fn is_shift(op: BinaryOp) -> bool
    ensures { result ≡ is_shift op }
{
    matches!(op, BinaryOp::ShiftLeft | BinaryOp::ShiftRight)
}

/// Whether an operator takes values of a type: integers, and strings that are joined.
fn is_taken(types: &Types, op: BinaryOp, of: TypeId) -> bool
    ensures { result ≡ is_taken types.now op of }
{
    match op {
        BinaryOp::Add => is_integer(types, of) || is_text(types, of),
        _ => is_integer(types, of),
    }
}

fn compares(frame: Frame, op: CompareOp, left: &Operand, right: &Operand) -> bool
    ensures { IsTrue result ↔ ComparesOf frame.entry.code.now frame.entry.function.now op left.now right.now (common_type (known frame.entry.code.now frame.entry.function.now left.now) (known frame.entry.code.now frame.entry.function.now right.now)) }
{
    match common_type(frame.known(left), frame.known(right)) {
        Some(of) => {
            frame.is(left, of)
                && frame.is(right, of)
                && compares_as(&frame.code.types, op, left, right, of)
        }
        None => is_equality(op) && is_same_address(frame.known(left), frame.known(right)),
    }
}

/// The type that two operands have, where one of them is neither a function nor an address.
fn common_type(left: Option<Known>, right: Option<Known>) -> Option<TypeId>
    ensures { result ≡ common_type left right }
{
    match (left, right) {
        (Some(Known::Held(of)), Some(_)) | (Some(_), Some(Known::Held(of))) => Some(of),
        _ => None,
    }
}

fn is_same_address(left: Option<Known>, right: Option<Known>) -> bool
    ensures { result ≡ is_same_address left right }
{
    match (left, right) {
        (Some(Known::Address(a)), Some(Known::Address(b))) => a == b,
        _ => false,
    }
}

fn is_equality(op: CompareOp) -> bool
    ensures { result ≡ is_equality op }
{
    matches!(op, CompareOp::Equal | CompareOp::NotEqual)
}

fn compares_as(types: &Types, op: CompareOp, left: &Operand, right: &Operand, of: TypeId) -> bool
    ensures { IsTrue result ↔ ComparesAs types.now op left.now right.now of }
{
    match op {
        CompareOp::Equal | CompareOp::NotEqual => {
            is_nil(left) || is_nil(right) || comparable(types, of)
        }
        _ => is_integer(types, of) || is_text(types, of),
    }
}

fn is_nil(operand: &Operand) -> bool
    ensures { result ≡ is_nil operand.now }
{
    matches!(
        operand,
        Operand::Constant {
            value: ConstValue::Nil,
            ..
        }
    )
}
