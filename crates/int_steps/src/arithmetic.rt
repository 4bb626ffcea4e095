//! Operations on integers. Go specification, "Operators".

ghost use Rattle.std.specs.Prelude.{◌≡◌, ◌-ℤ◌, ◌<ℤ◌, int_div, int_rem, negsuc, pos};
ghost use Rattle.std.specs.Ordering.{int_cmp};
ghost use Rattle.go_type.specs.declared.constants.ConstOp.TheVariants as op;
ghost use Rattle.go_value.specs.Ints.{operated, wrapped};
ghost use Rattle.ssa_mean.specs.Arithmetic.{holds};

use go_type::{CompareOp, ConstOp, IntKind};
use go_value::{Fault, convert_int, int_op};

/// Whether two integers meet a comparison.
pub fn compare(op: CompareOp, a: i128, b: i128) -> bool
    ensures { result ≡ holds op (int_cmp a b) }
{
    match op {
        CompareOp::Equal => a == b,
        CompareOp::NotEqual => a != b,
        CompareOp::Less => a < b,
        CompareOp::LessEqual => a <= b,
        CompareOp::Greater => a > b,
        CompareOp::GreaterEqual => a >= b,
    }
}

/// An integer operation.
pub fn operate(kind: IntKind, op: ConstOp, a: i128, b: i128) -> Result<i128, Fault>
    ensures { result ≡ operated kind op a b }
{
    match op {
        ConstOp::Div => quotient(kind, a, b),
        ConstOp::Rem => remainder(kind, a, b),
        _ => int_op(kind, op, a, b),
    }
}

/// A quotient; in 64 bits where both integers fit.
fn quotient(kind: IntKind, a: i128, b: i128) -> Result<i128, Fault>
    ensures { result ≡ operated kind op.Div a b }
{
    match (i64::try_from(a), i64::try_from(b)) {
        (Ok(a), Ok(b)) if b > 0 => Ok(convert_int(kind, divided(a, b))),
        _ => int_op(kind, ConstOp::Div, a, b),
    }
}

fn divided(a: i64, b: i64) -> i128
    ensures { pos 0 <ℤ b → result ≡ int_div a b }
{
    i128::from(a.wrapping_div(b.max(1)))
}

/// A remainder; in 64 bits where both integers fit.
fn remainder(kind: IntKind, a: i128, b: i128) -> Result<i128, Fault>
    ensures { result ≡ operated kind op.Rem a b }
{
    match (i64::try_from(a), i64::try_from(b)) {
        (Ok(a), Ok(b)) if b > 0 => Ok(convert_int(kind, rest(a, b))),
        _ => int_op(kind, ConstOp::Rem, a, b),
    }
}

fn rest(a: i64, b: i64) -> i128
    ensures { pos 0 <ℤ b → result ≡ int_rem a b }
{
    i128::from(a.wrapping_rem(b.max(1)))
}

/// The negative of an integer, in a kind.
pub fn negative(kind: IntKind, number: i128) -> i128
    ensures { result ≡ wrapped kind (pos 0 -ℤ number) }
{
    convert_int(kind, number.wrapping_neg())
}

/// The integer whose bits are those that another has not, in a kind.
pub fn turned(kind: IntKind, number: i128) -> i128
    ensures { result ≡ wrapped kind (negsuc 0 -ℤ number) }
{
    convert_int(kind, !number)
}
