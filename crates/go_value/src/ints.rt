//! Integers of each kind. Go specification, "Arithmetic operators", "Integer operators", "Integer overflow" and
//! "Conversions between numeric types".

ghost use Rattle.std.specs.Prelude.{◌≡◌, ◌^◌, ◌<◌, ◌≤◌, pos, ◌+ℤ◌, ◌-ℤ◌, ◌*ℤ◌, ◌≢◌, int_div};
ghost use Rattle.std.specs.Int.{int_shr};
ghost use Rattle.go_type.specs.declared.constants.ConstOp.TheVariants as op;
ghost use Rattle.go_type.specs.Constants.{value_of};
ghost use Rattle.go_value.specs.Ints.{bits_of, residue, wrapped, operated, shift_value};

use crate::faults::Fault;
use go_type::{ConstOp, IntKind};

/// How many integers a kind has.
fn size_of_kind(kind: IntKind) -> i128
    ensures { result ≡ pos (2 ^ bits_of kind) }
{
    match kind.bits {
        8 => 0x100,
        16 => 0x1_0000,
        32 => 0x1_0000_0000,
        _ => 0x1_0000_0000_0000_0000,
    }
}

/// The width of a kind.
fn width(kind: IntKind) -> u128
    ensures same { result ≡ bits_of kind }
    ensures most { result ≤ 64 }
{
    match kind.bits {
        8 => 8,
        16 => 16,
        32 => 32,
        _ => 64,
    }
}

/// An integer modulo the size of a kind.
fn lowest_bits(kind: IntKind, a: i128) -> i128
    ensures { result ≡ residue (bits_of kind) a }
{
    match kind.bits {
        8 => a.rem_euclid(0x100),
        16 => a.rem_euclid(0x1_0000),
        32 => a.rem_euclid(0x1_0000_0000),
        _ => a.rem_euclid(0x1_0000_0000_0000_0000),
    }
}

/// The integer of a kind that has the same lowest bits.
pub fn convert_int(kind: IntKind, a: i128) -> i128
    ensures { result ≡ wrapped kind a }
{
    let rest = lowest_bits(kind, a);
    let size = size_of_kind(kind);
    if kind.signed && rest >= size / 2 {
        rest - size
    } else {
        rest
    }
}

/// The value of an operator at two integers, in a kind. Division truncates toward zero, and a remainder has the sign of
/// the dividend. `ZeroDivisor` exactly where the divisor of `/` or `%` is 0.
pub fn int_op(kind: IntKind, op: ConstOp, a: i128, b: i128) -> Result<i128, Fault>
    ensures { result ≡ operated kind op a b }
{
    match op {
        ConstOp::Add => Ok(sum(kind, a, b)),
        ConstOp::Sub => Ok(difference(kind, a, b)),
        ConstOp::Mul => Ok(product(kind, a, b)),
        ConstOp::Div => quotient(kind, a, b),
        ConstOp::Rem => remainder(kind, a, b),
        ConstOp::And => Ok(convert_int(kind, a & b)),
        ConstOp::Or => Ok(convert_int(kind, a | b)),
        ConstOp::Xor => Ok(convert_int(kind, a ^ b)),
        ConstOp::AndNot => Ok(cleared(kind, a, b)),
    }
}

fn sum(kind: IntKind, a: i128, b: i128) -> i128
    ensures { result ≡ wrapped kind (a +ℤ b) }
{
    convert_int(kind, a.wrapping_add(b))
}

fn difference(kind: IntKind, a: i128, b: i128) -> i128
    ensures { result ≡ wrapped kind (a -ℤ b) }
{
    convert_int(kind, a.wrapping_sub(b))
}

fn product(kind: IntKind, a: i128, b: i128) -> i128
    ensures { result ≡ wrapped kind (a *ℤ b) }
{
    convert_int(kind, a.wrapping_mul(b))
}

fn cleared(kind: IntKind, a: i128, b: i128) -> i128
    ensures { result ≡ wrapped kind (value_of op.AndNot a b) }
{
    convert_int(kind, bits_without(a, b))
}

/// The bits of one integer that another one has not.
fn bits_without(a: i128, b: i128) -> i128
    ensures { result ≡ value_of op.AndNot a b }
{
    a & !b
}

fn quotient(kind: IntKind, a: i128, b: i128) -> Result<i128, Fault>
    ensures { result ≡ operated kind op.Div a b }
{
    if b == 0 {
        return Err(Fault::ZeroDivisor);
    }
    Ok(divided(kind, a, b))
}

fn divided(kind: IntKind, a: i128, b: i128) -> i128
    requires { b ≢ pos 0 }
    ensures { result ≡ wrapped kind (int_div a b) }
{
    convert_int(kind, a.wrapping_div(b))
}

fn remainder(kind: IntKind, a: i128, b: i128) -> Result<i128, Fault>
    ensures { result ≡ operated kind op.Rem a b }
{
    if b == 0 {
        return Err(Fault::ZeroDivisor);
    }
    Ok(convert_int(kind, a.wrapping_rem(b)))
}

/// An integer shifted by a count, in a kind: to the left where `left` says so, and else to the right, which rounds down.
/// `NegativeShift` exactly where the count is negative.
pub fn shift_op(kind: IntKind, left: bool, a: i128, count: i128) -> Result<i128, Fault>
    ensures { result ≡ shift_value kind left a count }
{
    if count < 0 {
        return Err(Fault::NegativeShift);
    }
    if left {
        Ok(shifted_left(kind, a, count.unsigned_abs()))
    } else {
        Ok(shifted_right(a, count.unsigned_abs()))
    }
}

fn shifted_left(kind: IntKind, a: i128, count: u128) -> i128
    ensures { result ≡ wrapped kind (a *ℤ pos (2 ^ count)) }
{
    if count < width(kind) {
        shifted_near(kind, a, count as u32)
    } else {
        0
    }
}

/// An integer times 2 to a count below 64, in a kind.
fn shifted_near(kind: IntKind, a: i128, count: u32) -> i128
    requires { count < 64 }
    ensures { result ≡ wrapped kind (a *ℤ pos (2 ^ count)) }
{
    convert_int(kind, a.wrapping_shl(count))
}

fn shifted_right(a: i128, count: u128) -> i128
    ensures { result ≡ int_shr a count }
{
    if count < 127 {
        a >> count as u32
    } else {
        a >> 127
    }
}
