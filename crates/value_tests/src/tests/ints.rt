//! Integers at the ends of their kinds. Go specification, "Integer operators" and "Conversions".

use go_value::{Fault, IntKind, IntOp, convert_int, int_op, shift_op};
use std::test::Fail;

const LEAST: i128 = -0x8000_0000_0000_0000;

const MOST: i128 = 0x7fff_ffff_ffff_ffff;

const MOST_UINT: i128 = 0xffff_ffff_ffff_ffff;

const I8: IntKind = IntKind {
    bits: 8,
    signed: true,
};

const I16: IntKind = IntKind {
    bits: 16,
    signed: true,
};

const I32: IntKind = IntKind {
    bits: 32,
    signed: true,
};

const I64: IntKind = IntKind {
    bits: 64,
    signed: true,
};

const U8: IntKind = IntKind {
    bits: 8,
    signed: false,
};

const U16: IntKind = IntKind {
    bits: 16,
    signed: false,
};

const U32: IntKind = IntKind {
    bits: 32,
    signed: false,
};

const U64: IntKind = IntKind {
    bits: 64,
    signed: false,
};

/// An operator at two integers of a kind, and what it gives.
const OPERATED: &[(IntKind, IntOp, i128, i128, Result<i128, Fault>)] = &[
    (I64, IntOp::Div, LEAST, -1, Ok(LEAST)),
    (I64, IntOp::Rem, LEAST, -1, Ok(0)),
    (I32, IntOp::Div, -0x8000_0000, -1, Ok(-0x8000_0000)),
    (I32, IntOp::Rem, -0x8000_0000, -1, Ok(0)),
    (I16, IntOp::Div, -0x8000, -1, Ok(-0x8000)),
    (I8, IntOp::Div, -128, -1, Ok(-128)),
    (I8, IntOp::Rem, -128, -1, Ok(0)),
    (I64, IntOp::Div, -7, 2, Ok(-3)),
    (I64, IntOp::Rem, -7, 2, Ok(-1)),
    (I64, IntOp::Div, 7, -2, Ok(-3)),
    (I64, IntOp::Rem, 7, -2, Ok(1)),
    (I64, IntOp::Div, LEAST, 1, Ok(LEAST)),
    (I64, IntOp::Rem, LEAST, MOST, Ok(-1)),
    (I64, IntOp::Div, LEAST, 0, Err(Fault::ZeroDivisor)),
    (U8, IntOp::Rem, 0, 0, Err(Fault::ZeroDivisor)),
    (U64, IntOp::Div, MOST_UINT, MOST_UINT, Ok(1)),
    (I64, IntOp::Add, MOST, 1, Ok(LEAST)),
    (I64, IntOp::Add, LEAST, LEAST, Ok(0)),
    (I64, IntOp::Sub, LEAST, 1, Ok(MOST)),
    (I64, IntOp::Sub, 0, LEAST, Ok(LEAST)),
    (U64, IntOp::Add, MOST_UINT, MOST_UINT, Ok(MOST_UINT - 1)),
    (U64, IntOp::Sub, 0, MOST_UINT, Ok(1)),
    (I64, IntOp::Mul, MOST, MOST, Ok(1)),
    (I64, IntOp::Mul, LEAST, LEAST, Ok(0)),
    (I64, IntOp::Mul, LEAST, -1, Ok(LEAST)),
    (U64, IntOp::Mul, MOST_UINT, MOST_UINT, Ok(1)),
    (I8, IntOp::Mul, 64, 2, Ok(-128)),
    (U16, IntOp::Mul, 256, 256, Ok(0)),
    (U32, IntOp::Add, 0xffff_ffff, 1, Ok(0)),
    (I64, IntOp::AndNot, -1, 12, Ok(-13)),
    (I64, IntOp::And, -1, LEAST, Ok(LEAST)),
    (I8, IntOp::Or, -128, 127, Ok(-1)),
    (U8, IntOp::Xor, 255, 15, Ok(240)),
    (U64, IntOp::AndNot, MOST_UINT, 1, Ok(MOST_UINT - 1)),
];

/// Whether an integer of a kind is shifted to the left, the integer, the count, and what the shift gives.
const SHIFTED: &[(IntKind, bool, i128, i128, Result<i128, Fault>)] = &[
    (I64, true, 5, 0, Ok(5)),
    (I64, false, -5, 0, Ok(-5)),
    (I64, true, 1, 63, Ok(LEAST)),
    (I64, true, 3, 63, Ok(LEAST)),
    (I64, true, -1, 63, Ok(LEAST)),
    (I64, true, -1, 1, Ok(-2)),
    (I64, true, -1, 64, Ok(0)),
    (I64, true, 1, MOST_UINT, Ok(0)),
    (I64, false, MOST, 63, Ok(0)),
    (I64, false, MOST, 62, Ok(1)),
    (I64, false, 5, 64, Ok(0)),
    (I64, false, -5, 1, Ok(-3)),
    (I64, false, LEAST, 62, Ok(-2)),
    (I64, false, LEAST, 63, Ok(-1)),
    (I64, false, LEAST, 64, Ok(-1)),
    (I64, false, -1, MOST_UINT, Ok(-1)),
    (U64, true, MOST_UINT, 63, Ok(0x8000_0000_0000_0000)),
    (U64, true, MOST_UINT, 64, Ok(0)),
    (U64, false, MOST_UINT, 63, Ok(1)),
    (U64, false, MOST_UINT, 64, Ok(0)),
    (I32, true, 1, 31, Ok(-0x8000_0000)),
    (U32, true, 1, 32, Ok(0)),
    (I8, true, 1, 7, Ok(-128)),
    (I8, true, 1, 8, Ok(0)),
    (I8, false, -128, 7, Ok(-1)),
    (I8, false, -128, 8, Ok(-1)),
    (U8, true, 255, 1, Ok(254)),
    (U8, false, 255, 8, Ok(0)),
    (I64, true, 1, -1, Err(Fault::NegativeShift)),
    (U64, false, 1, LEAST, Err(Fault::NegativeShift)),
];

/// A kind, an integer, and the integer of the kind that it is converted to.
const CONVERTED: &[(IntKind, i128, i128)] = &[
    (I8, 127, 127),
    (I8, 128, -128),
    (I8, 255, -1),
    (I8, -128, -128),
    (I8, -129, 127),
    (I16, 32768, -32768),
    (I16, -32769, 32767),
    (I32, 0x8000_0000, -0x8000_0000),
    (I32, -0x8000_0001, 0x7fff_ffff),
    (I64, MOST + 1, LEAST),
    (I64, LEAST - 1, MOST),
    (I64, MOST_UINT, -1),
    (I64, i128::MIN, 0),
    (I64, i128::MAX, -1),
    (U8, 256, 0),
    (U8, -1, 255),
    (U16, 65536, 0),
    (U16, -1, 65535),
    (U32, 0x1_0000_0000, 0),
    (U32, -1, 0xffff_ffff),
    (U64, MOST_UINT, MOST_UINT),
    (U64, MOST_UINT + 1, 0),
    (U64, -1, MOST_UINT),
    (U64, LEAST, 0x8000_0000_0000_0000),
    (U64, i128::MAX, MOST_UINT),
];

#[test]
fn integers_meet_operators(rt: HostRuntime) -> Result<(), Fail> {
    for (kind, op, first, second, given) in OPERATED {
        let found = int_op(*kind, *op, *first, *second);
        assert!(rt; found == *given, "{kind:?} {first} {second}");
    }
    Ok(())
}

#[test]
fn integers_are_shifted(rt: HostRuntime) -> Result<(), Fail> {
    for (kind, left, value, count, given) in SHIFTED {
        let found = shift_op(*kind, *left, *value, *count);
        assert!(rt; found == *given, "{kind:?} {left} {value} {count}");
    }
    Ok(())
}

#[test]
fn integers_are_converted(rt: HostRuntime) -> Result<(), Fail> {
    for (kind, value, given) in CONVERTED {
        assert_eq!(rt; convert_int(*kind, *value), *given, "{kind:?} {value}");
    }
    Ok(())
}
