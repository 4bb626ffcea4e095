//! Constants. Go specification, "Constants", "Arithmetic operators", "Integer operators" and "String concatenation".

ghost use Rattle.std.specs.Prelude.{◌≡◌, ◌↔◌, ◌+◌, ◌<◌, ◌^◌, ℕ, pos, ◌*ℤ◌, ◌≤ℤ◌, ◌++◌, length, IfOk, IsErrOf, ok_or, unsigned_abs};
ghost use Rattle.std.specs.Int.{int_shr};
ghost use Rattle.go_type.specs.Values.{order_of, rank_of, is_same_value};
ghost use Rattle.go_type.specs.Constants.{in_range, int_result, shifted, value_of, max_text};

use go_base::{Bytes, NoMemory};
use std::alloc::Global;
use std::cmp::Ordering;

/// The value of a constant. `==` tells an integer from a rune; `same_value` does not.
#[derive(Drop, PartialEq, Eq)]
pub enum Const {
    Int(i128),
    Rune(i128),
    Text(Bytes),
    Truth(bool),
}

impl Const {
    /// The same constant once more.
    pub fn copy(&self, alloc: Global) -> Result<Const, NoMemory>
        ensures { IfOk result (λ copy. copy ≡ self.now) }
    {
        Ok(match self {
            Const::Int(number) => Const::Int(*number),
            Const::Rune(number) => Const::Rune(*number),
            Const::Text(bytes) => {
                Const::Text(Bytes::new(Vec::from_slice(alloc, bytes.as_slice())?))
            }
            Const::Truth(truth) => Const::Truth(*truth),
        })
    }
}

/// The order of the values of constants: integers and runes by their numbers, then texts by their bytes, then `false`
/// and `true`. The integer 97 and the rune 'a' are one value.
pub fn value_order(a: &Const, b: &Const) -> Ordering
    ensures { result ≡ order_of a.now b.now }
{
    match (a, b) {
        (Const::Int(x) | Const::Rune(x), Const::Int(y) | Const::Rune(y)) => x.cmp(y),
        (Const::Text(x), Const::Text(y)) => x.as_slice().cmp(&y.as_slice()),
        (Const::Truth(x), Const::Truth(y)) => x.cmp(y),
        _ => rank(a).cmp(&rank(b)),
    }
}

fn rank(value: &Const) -> u8
    ensures { result ≡ rank_of value.now }
{
    match value {
        Const::Int(_) | Const::Rune(_) => 0,
        Const::Text(_) => 1,
        Const::Truth(_) => 2,
    }
}

/// Whether two constants are one value, as two typed constants that are 97 and 'a' are.
pub fn same_value(a: &Const, b: &Const) -> bool
    ensures { result ≡ is_same_value a.now b.now }
{
    value_order(a, b).is_eq()
}

/// The operators on integers.
#[derive(Clone, Copy, Debug, PartialEq, Eq)]
pub enum ConstOp {
    Add,
    Sub,
    Mul,
    Div,
    Rem,
    And,
    Or,
    Xor,
    AndNot,
}

/// Why an operation on integers has no value.
#[derive(Clone, Copy, Debug, PartialEq, Eq)]
pub enum IntFault {
    /// The divisor of `/` or `%` is 0.
    ZeroDivisor,
    /// The value is not in -2^127 .. 2^127-1.
    OutOfRange,
}

/// Why two texts have no concatenation.
#[derive(Clone, Copy, Debug, PartialEq, Eq)]
pub enum ConstError {
    /// It would have more than 4,194,304 bytes.
    TooLong,
    OutOfMemory,
}

/// The most bytes that a constant text has.
pub const MAX_TEXT: usize = 4_194_304;

/// The value of an operator at two integers. Division truncates toward zero, and a remainder has the sign of the
/// dividend. Bits are those of two's complement. `ZeroDivisor` exactly where the divisor of `/` or `%` is 0, and else
/// `OutOfRange` exactly where the value does not fit.
pub fn int_binary(op: ConstOp, a: i128, b: i128) -> Result<i128, IntFault>
    ensures { result ≡ int_result op a b }
{
    match op {
        ConstOp::Add => fitting(a.checked_add(b)),
        ConstOp::Sub => fitting(a.checked_sub(b)),
        ConstOp::Mul => fitting(a.checked_mul(b)),
        ConstOp::Div => quotient(a, b),
        ConstOp::Rem => remainder(a, b),
        ConstOp::And => Ok(a & b),
        ConstOp::Or => Ok(a | b),
        ConstOp::Xor => Ok(a ^ b),
        ConstOp::AndNot => Ok(a & !b),
    }
}

fn fitting(value: Option<i128>) -> Result<i128, IntFault>
    ensures { result ≡ ok_or value IntFault.OutOfRange }
{
    value.ok_or(IntFault::OutOfRange)
}

fn quotient(a: i128, b: i128) -> Result<i128, IntFault>
    ensures { result ≡ int_result ConstOp.Div a b }
{
    if b == 0 {
        return Err(IntFault::ZeroDivisor);
    }
    fitting(a.checked_div(b))
}

fn remainder(a: i128, b: i128) -> Result<i128, IntFault>
    ensures { result ≡ int_result ConstOp.Rem a b }
{
    if b == 0 {
        return Err(IntFault::ZeroDivisor);
    }
    Ok(a.wrapping_rem(b))
}

/// An integer shifted by a count, to the left where `left` says so, and else to the right, which rounds down.
/// `OutOfRange` exactly where the value does not fit.
pub fn int_shift(left: bool, a: i128, count: i128) -> Result<i128, IntFault>
    requires { pos 0 ≤ℤ count }
    ensures { result ≡ in_range (shifted left a (unsigned_abs count)) }
{
    if left {
        shift_left(a, count.unsigned_abs())
    } else {
        Ok(shift_right(a, count.unsigned_abs()))
    }
}

fn shift_right(a: i128, count: u128) -> i128
    ensures { result ≡ int_shr a count }
{
    if count < 127 {
        a >> count as u32
    } else {
        a >> 127
    }
}

fn shift_left(a: i128, count: u128) -> Result<i128, IntFault>
    ensures { result ≡ in_range (a *ℤ pos (2 ^ count)) }
{
    if a == 0 {
        return Ok(0);
    }
    if count > 127 {
        return Err(IntFault::OutOfRange);
    }
    scaled(a, 2u128.pow(count as u32))
}

fn scaled(a: i128, factor: u128) -> Result<i128, IntFault>
    ensures { result ≡ in_range (a *ℤ pos factor) }
{
    let Some(size) = a.unsigned_abs().checked_mul(factor) else {
        return Err(IntFault::OutOfRange);
    };
    if a < 0 {
        fitting(0i128.checked_sub_unsigned(size))
    } else {
        fitting(0i128.checked_add_unsigned(size))
    }
}

/// Two texts, one behind the other. `TooLong` exactly where they have more than 4,194,304 bytes together.
pub fn join(alloc: Global, a: &Bytes, b: &Bytes) -> Result<Bytes, ConstError>
    ensures ok { IfOk result (λ joined. joined ≡ a.now ++ b.now) }
    ensures too_long { IsErrOf result ConstError.TooLong ↔ (max_text < length (a.now ++ b.now)) }
{
    let (front, back) = (a.as_slice(), b.as_slice());
    if front.len() > MAX_TEXT || back.len() > MAX_TEXT - front.len() {
        return Err(ConstError::TooLong);
    }
    match joined(alloc, front, back) {
        Ok(bytes) => Ok(bytes),
        Err(NoMemory) => Err(ConstError::OutOfMemory),
    }
}

fn joined(alloc: Global, front: &[u8], back: &[u8]) -> Result<Bytes, NoMemory>
    ensures { IfOk result (λ joined. joined ≡ front.now ++ back.now) }
{
    let mut bytes = Vec::from_slice(alloc, front)?;
    bytes.extend_from_slice(back)?;
    Ok(Bytes::new(bytes))
}
