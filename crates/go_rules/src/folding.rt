//! Operations on constants. Go specification, "Constant expressions", "Arithmetic operators", "Integer operators",
//! "String concatenation" and "Comparison operators". A value has to be one of the type of the operation, and for an
//! untyped one an integer of 128 bits or a text of at most 4,194,304 bytes.

ghost use Rattle.std.specs.Prelude.{◌≡◌, OnOk, pos, ◌≤ℤ◌};
ghost use Rattle.go_rules.specs.Breaches.{Folds};
ghost use Rattle.go_type.specs.Representable.{is_unsigned};
ghost use Rattle.go_rules.specs.Folding.{all_ones, arithmetic_folded, as_constant, compared, count_checked, integer_folded, logic_folded, made, ones_of, remade, shift_folded, sign_folded, text_folded, texts_folded, typed_value, unary_folded};

use crate::breach::{Breach, FoldError};
use crate::untyped::{Untyped, untyped_kind};
use go_base::{Bytes, Rule, TypeId};
use go_type::{
    Basic, CompareOp, Const, ConstError, ConstOp, IntFault, TypeTerm, Types, UnaryOp, int_binary,
    int_shift, join, represent, value_order,
};
use std::alloc::Global;

/// The logical operators on two operands.
#[derive(Clone, Copy, PartialEq, Eq)]
pub enum LogicOp {
    /// `&&`
    And,
    /// `||`
    Or,
}

/// The constant that an integer is: a rune where its type is the untyped one of runes.
fn made(types: &Types, of: TypeId, number: i128) -> Const
    ensures { result ≡ made types.now of number }
{
    match untyped_kind(types, of) {
        Some(Untyped::Rune) => Const::Rune(number),
        _ => Const::Int(number),
    }
}

fn remade(types: &Types, of: TypeId, value: Const) -> Const
    ensures { result ≡ remade types.now of value }
{
    match value {
        Const::Int(number) => made(types, of, number),
        Const::Rune(number) => made(types, of, number),
        Const::Text(bytes) => Const::Text(bytes),
        Const::Truth(truth) => Const::Truth(truth),
    }
}

/// An untyped constant as a constant of a type. `ConstantOutOfRange` exactly where it is no value of that.
pub fn as_constant(types: &Types, value: Const, of: TypeId) -> Result<Const, Breach>
    ensures { result ≡ as_constant types.now value of }
{
    if !represent(types, &value, of) {
        return Err(Breach::whole(Rule::ConstantOutOfRange));
    }
    Ok(remade(types, of, value))
}

/// The constant of a type that an operation on integers gives.
fn typed_value(types: &Types, of: TypeId, value: Result<i128, IntFault>) -> Result<Const, Breach>
    ensures { result ≡ typed_value types.now of value }
{
    match value {
        Ok(number) => as_constant(types, Const::Int(number), of),
        Err(IntFault::OutOfRange) => Err(Breach::whole(Rule::ConstantOutOfRange)),
        Err(IntFault::ZeroDivisor) => Err(Breach::second(Rule::DivisionByZero)),
    }
}

/// An arithmetic operator at two integers, whose result has a type. `DivisionByZero` exactly where the divisor is 0, and
/// else `ConstantOutOfRange` exactly where the value is none of the type, or has more than 128 bits.
pub fn fold_integer(
    types: &Types,
    op: ConstOp,
    a: i128,
    b: i128,
    of: TypeId,
) -> Result<Const, Breach>
    ensures { result ≡ integer_folded types.now op a b of }
{
    typed_value(types, of, int_binary(op, a, b))
}

/// A constant count of a shift. `BadShift` exactly where it is negative, and `ConstantOutOfRange` exactly where it is
/// above the values of `uint`.
pub fn check_count(count: i128) -> Result<(), Breach>
    ensures checked { result ≡ count_checked count }
    ensures counts { OnOk result (pos 0 ≤ℤ count) }
{
    if count < 0 {
        return Err(Breach::second(Rule::BadShift));
    }
    if !is_count(count) {
        return Err(Breach::second(Rule::ConstantOutOfRange));
    }
    Ok(())
}

fn is_count(count: i128) -> bool
    ensures { result ≡ is_unsigned 64 count }
{
    0 <= count && count <= 0xffff_ffff_ffff_ffff
}

/// An integer shifted by a count, to the left where `left` says so; the result has a type. Rules are those of the count,
/// and then `ConstantOutOfRange` exactly where the value is none of the type, or has more than 128 bits.
pub fn fold_shift(
    types: &Types,
    left: bool,
    a: i128,
    count: i128,
    of: TypeId,
) -> Result<Const, Breach>
    ensures { result ≡ shift_folded types.now left a count of }
{
    check_count(count)?;
    typed_value(types, of, int_shift(left, a, count))
}

/// Two texts, one behind the other. `ConstantOutOfRange` exactly where they have more than 4,194,304 bytes together.
#[tactic(auto, using(crate::proofs::Texts::text_joined, crate::proofs::Texts::text_too_long))]
pub fn fold_text(alloc: Global, a: &Bytes, b: &Bytes) -> Result<Const, FoldError>
    ensures { Folds result (text_folded a.now b.now) }
{
    match join(alloc, a, b) {
        Ok(bytes) => Ok(Const::Text(bytes)),
        Err(ConstError::TooLong) => {
            Err(FoldError::Broken(Breach::whole(Rule::ConstantOutOfRange)))
        }
        Err(ConstError::OutOfMemory) => Err(FoldError::OutOfMemory),
    }
}

fn fold_integers(
    types: &Types,
    op: ConstOp,
    a: i128,
    b: i128,
    of: TypeId,
) -> Result<Const, FoldError>
    ensures { Folds result (integer_folded types.now op a b of) }
{
    match fold_integer(types, op, a, b, of) {
        Ok(value) => Ok(value),
        Err(breach) => Err(FoldError::Broken(breach)),
    }
}

fn fold_texts(alloc: Global, op: ConstOp, a: &Bytes, b: &Bytes) -> Result<Const, FoldError>
    ensures { Folds result (texts_folded op a.now b.now) }
{
    match op {
        ConstOp::Add => fold_text(alloc, a, b),
        _ => Err(FoldError::Broken(Breach::whole(Rule::BadOperand))),
    }
}

/// An arithmetic operator at two constants: at integers as `fold_integer`, and `+` at texts as `fold_text`.
/// `BadOperand` exactly where the operands are others.
pub fn fold_arithmetic(
    alloc: Global,
    types: &Types,
    op: ConstOp,
    a: &Const,
    b: &Const,
    of: TypeId,
) -> Result<Const, FoldError>
    ensures { Folds result (arithmetic_folded types.now op a.now b.now of) }
{
    match (a, b) {
        (Const::Int(x) | Const::Rune(x), Const::Int(y) | Const::Rune(y)) => {
            fold_integers(types, op, *x, *y, of)
        }
        (Const::Text(x), Const::Text(y)) => fold_texts(alloc, op, x, y),
        _ => Err(FoldError::Broken(Breach::whole(Rule::BadOperand))),
    }
}

/// The integer all of whose bits are 1: in an unsigned type its greatest value, and else -1.
fn all_ones(types: &Types, of: TypeId) -> i128
    ensures { result ≡ all_ones types.now of }
{
    match types.underlying_term(of) {
        Some(TypeTerm::Basic(basic)) => ones_of(*basic),
        _ => -1,
    }
}

fn ones_of(basic: Basic) -> i128
    ensures { result ≡ ones_of basic }
{
    match basic {
        Basic::Uint8 => 0xff,
        Basic::Uint16 => 0xffff,
        Basic::Uint32 => 0xffff_ffff,
        Basic::Uint | Basic::Uint64 => 0xffff_ffff_ffff_ffff,
        _ => -1,
    }
}

/// `-a` where `negate` says so, and else `^a`; the result has a type. `ConstantOutOfRange` exactly where the value is none
/// of the type, or has more than 128 bits.
pub fn fold_sign(types: &Types, negate: bool, a: i128, of: TypeId) -> Result<Const, Breach>
    ensures { result ≡ sign_folded types.now negate a of }
{
    if negate {
        fold_integer(types, ConstOp::Sub, 0, a, of)
    } else {
        fold_integer(types, ConstOp::Xor, a, all_ones(types, of), of)
    }
}

/// An operator at one constant: `-` and `^` at an integer as `fold_sign`, and `!` at a truth value. `BadOperand` at the
/// operand exactly where that is another.
pub fn fold_unary(types: &Types, op: UnaryOp, a: &Const, of: TypeId) -> Result<Const, Breach>
    ensures { result ≡ unary_folded types.now op a.now of }
{
    match (op, a) {
        (UnaryOp::Negate, Const::Int(x) | Const::Rune(x)) => fold_sign(types, true, *x, of),
        (UnaryOp::Complement, Const::Int(x) | Const::Rune(x)) => fold_sign(types, false, *x, of),
        (UnaryOp::Not, Const::Truth(x)) => Ok(Const::Truth(!*x)),
        _ => Err(Breach::first(Rule::BadOperand)),
    }
}

/// A comparison of two constants: of integers by size, and of texts by their bytes.
pub fn fold_compare(op: CompareOp, a: &Const, b: &Const) -> bool
    ensures { result ≡ compared op a.now b.now }
{
    let order = value_order(a, b);
    match op {
        CompareOp::Equal => order.is_eq(),
        CompareOp::NotEqual => order.is_ne(),
        CompareOp::Less => order.is_lt(),
        CompareOp::LessEqual => order.is_le(),
        CompareOp::Greater => order.is_gt(),
        CompareOp::GreaterEqual => order.is_ge(),
    }
}

/// `a && b`, or `a || b`.
pub fn fold_logic(op: LogicOp, a: bool, b: bool) -> bool
    ensures { result ≡ logic_folded op a b }
{
    match op {
        LogicOp::And => a && b,
        LogicOp::Or => a || b,
    }
}
