//! The Go specification's examples of constants, and the operators and widths.

use crate::shapes::empty;
use go_base::Bytes;
use go_type::{
    Basic, BinaryOp, Builtin, Const, ConstOp, IntFault, IntKind, Path, basic, int_binary, int_kind,
    int_shift, join, represent, same_value, value_order,
};
use std::cmp::Ordering;
use std::test::Fail;

/// "Integer operators": quotients and remainders of the table there, and the ends of the range.
const BINARY: &[(ConstOp, i128, i128, Result<i128, IntFault>)] = &[
    (ConstOp::Div, -5, 3, Ok(-1)),
    (ConstOp::Rem, -5, 3, Ok(-2)),
    (ConstOp::Div, 1, 0, Err(IntFault::ZeroDivisor)),
    (ConstOp::Div, i128::MIN, -1, Err(IntFault::OutOfRange)),
    (ConstOp::Add, i128::MAX, 1, Err(IntFault::OutOfRange)),
    (ConstOp::AndNot, 6, 3, Ok(4)),
];

#[test]
fn integers(rt: HostRuntime) {
    for (op, a, b, want) in BINARY {
        assert_eq!(rt; int_binary(*op, *a, *b), *want, "{a} {op:?} {b}");
    }
}

#[test]
fn shifts(rt: HostRuntime) {
    assert_eq!(rt; int_shift(false, -11, 2), Ok(-3));
    assert_eq!(rt; int_shift(true, 1, 127), Err(IntFault::OutOfRange));
}

/// "Representability" and "Numeric types": an integer, a type, whether it has the integer, and the type's width.
const REPRESENTED: &[(i128, Basic, bool, Option<(u8, bool)>)] = &[
    (97, Basic::Uint8, true, Some((8, false))),
    (1024, Basic::Uint8, false, Some((8, false))),
    (-128, Basic::Int8, true, Some((8, true))),
    (128, Basic::Int8, false, Some((8, true))),
    (97, Basic::Text, false, None),
];

#[test]
fn representable_constants(rt: HostRuntime) -> Result<(), Fail> {
    let types = empty(rt.alloc())?;
    for (number, kind, want, width) in REPRESENTED {
        let kind = basic(*kind);
        assert_eq!(rt; represent(&types, &Const::Rune(*number), kind), *want);
        let width = width.map(|(bits, signed)| IntKind { bits, signed });
        assert_eq!(rt; int_kind(&types, kind), width);
    }
    Ok(())
}

#[test]
fn operators(rt: HostRuntime) {
    assert_eq!(rt; Builtin::Append.text(), "append");
    assert_eq!(rt; BinaryOp::AndNot.int_op(), Some(ConstOp::AndNot));
    assert_eq!(rt; BinaryOp::ShiftLeft.shift(), Some(true));
}

#[test]
fn values(rt: HostRuntime) -> Result<(), Fail> {
    let a = Bytes::new(Vec::from_slice(rt.alloc(), b"a")?);
    let both = Const::Text(join(rt.alloc(), &a, &a)?);
    assert!(rt; same_value(&Const::Int(97), &Const::Rune(97)));
    assert!(rt; both.copy(rt.alloc())? == both);
    assert_eq!(rt; value_order(&Const::Text(a), &both), Ordering::Less);
    Ok(())
}

#[test]
fn last_steps(rt: HostRuntime) -> Result<(), Fail> {
    let mut path = Path::new(rt.alloc());
    path.push(4_294_967_290)?;
    assert!(rt; !path.can_add_to_last(6));
    assert!(rt; path.can_add_to_last(5));
    path.add_to_last(5);
    assert_eq!(rt; (path.last(), path.len()), (Some(u32::MAX), 1));
    Ok(())
}
