//! Operators, comparisons and conversions.

use crate::tests::rigs::{Outcome, frame, function, param, step};
use go_base::NoMemory;
use go_store::Store;
use go_type::{Basic, BinaryOp, CompareOp, UnaryOp, basic};
use go_value::{Fault, Value, ValueError};
use ssa_ir::{ConstValue, Infix, Op, Operand};
use std::alloc::Global;
use std::test::Fail;

const LEAST: i128 = -0x8000_0000_0000_0000;

const MOST: i128 = 0x7fff_ffff_ffff_ffff;

const MOST_UINT: i128 = 0xffff_ffff_ffff_ffff;

/// An operator at two integers of a kind, and what it gives.
const GIVEN: &[(Basic, BinaryOp, i128, i128, i128)] = &[
    (Basic::Int8, BinaryOp::Add, 127, 1, -128),
    (Basic::Int8, BinaryOp::Sub, -128, 1, 127),
    (Basic::Int16, BinaryOp::Add, 32767, 1, -32768),
    (Basic::Int16, BinaryOp::Sub, -32768, 1, 32767),
    (
        Basic::Int32,
        BinaryOp::Add,
        2_147_483_647,
        1,
        -2_147_483_648,
    ),
    (
        Basic::Int32,
        BinaryOp::Sub,
        -2_147_483_648,
        1,
        2_147_483_647,
    ),
    (Basic::Int64, BinaryOp::Add, MOST, 1, LEAST),
    (Basic::Int64, BinaryOp::Sub, LEAST, 1, MOST),
    (Basic::Int, BinaryOp::Add, MOST, 1, LEAST),
    (Basic::Int, BinaryOp::Mul, MOST, 2, -2),
    (Basic::Uint8, BinaryOp::Add, 255, 1, 0),
    (Basic::Uint8, BinaryOp::Sub, 0, 1, 255),
    (Basic::Uint16, BinaryOp::Add, 65535, 1, 0),
    (Basic::Uint16, BinaryOp::Sub, 0, 1, 65535),
    (Basic::Uint32, BinaryOp::Add, 4_294_967_295, 1, 0),
    (Basic::Uint32, BinaryOp::Sub, 0, 1, 4_294_967_295),
    (Basic::Uint64, BinaryOp::Add, MOST_UINT, 1, 0),
    (Basic::Uint64, BinaryOp::Sub, 0, 1, MOST_UINT),
    (Basic::Uint, BinaryOp::Sub, 0, 1, MOST_UINT),
    (Basic::Int64, BinaryOp::Div, LEAST, -1, LEAST),
    (Basic::Int64, BinaryOp::Rem, LEAST, -1, 0),
    (Basic::Int, BinaryOp::Div, -7, 2, -3),
    (Basic::Int, BinaryOp::Rem, -7, 2, -1),
    (Basic::Int64, BinaryOp::ShiftLeft, 1, 63, LEAST),
    (Basic::Int64, BinaryOp::ShiftLeft, 1, 64, 0),
    (Basic::Int64, BinaryOp::ShiftRight, 5, 64, 0),
    (Basic::Int64, BinaryOp::ShiftRight, -5, 64, -1),
    (Basic::Uint64, BinaryOp::ShiftLeft, 1, 64, 0),
    (Basic::Uint64, BinaryOp::ShiftRight, MOST_UINT, 64, 0),
    (Basic::Uint8, BinaryOp::ShiftLeft, 1, 8, 0),
    (Basic::Int, BinaryOp::And, 12, 10, 8),
    (Basic::Int, BinaryOp::Or, 12, 10, 14),
    (Basic::Int, BinaryOp::Xor, 12, 10, 6),
    (Basic::Int, BinaryOp::AndNot, 12, 10, 4),
];

/// An operator at two integers, and the fault that it meets.
const MET: &[(BinaryOp, i128, i128, Fault)] = &[
    (BinaryOp::Div, 7, 0, Fault::ZeroDivisor),
    (BinaryOp::Rem, 7, 0, Fault::ZeroDivisor),
    (BinaryOp::ShiftLeft, 7, -1, Fault::NegativeShift),
    (BinaryOp::ShiftRight, 7, -1, Fault::NegativeShift),
];

/// A comparison of two integers, and 1 where they meet it.
const COMPARED: &[(CompareOp, i128, i128, i128)] = &[
    (CompareOp::Equal, 3, 3, 1),
    (CompareOp::NotEqual, 3, 3, 0),
    (CompareOp::Less, 3, 4, 1),
    (CompareOp::Less, 4, 3, 0),
    (CompareOp::LessEqual, 4, 4, 1),
    (CompareOp::Greater, 3, 4, 0),
    (CompareOp::GreaterEqual, 4, 3, 1),
];

/// An operator at one integer of a kind, and what it gives.
const ALONE: &[(Basic, UnaryOp, i128, i128)] = &[
    (Basic::Int8, UnaryOp::Negate, -128, -128),
    (Basic::Uint8, UnaryOp::Negate, 1, 255),
    (Basic::Int, UnaryOp::Negate, 5, -5),
    (Basic::Int8, UnaryOp::Complement, 0, -1),
    (Basic::Uint8, UnaryOp::Complement, 0, 255),
];

/// An integer, the kind that it is converted to, and what it is then.
const CONVERTED: &[(i128, Basic, i128)] = &[
    (300, Basic::Uint8, 44),
    (255, Basic::Int8, -1),
    (-1, Basic::Uint64, MOST_UINT),
    (-1, Basic::Uint16, 65535),
    (MOST, Basic::Int32, -1),
];

/// A step on two parameters of a kind.
fn on_params(
    alloc: Global,
    kind: Basic,
    op: Op,
    first: i128,
    second: i128,
) -> Result<Outcome, NoMemory> {
    let function = function(alloc, &[kind, kind], &[], kind)?;
    let mut regs = frame(alloc, Value::Int(first), Value::Int(second))?;
    let mut store = Store::new(alloc);
    step(alloc, &function, &mut regs, &mut store, op)
}

fn between(op: Infix) -> Op {
    let (left, right) = (param(0), param(1));
    Op::Binary { op, left, right }
}

#[test]
fn operators_give_integers_of_a_kind(rt: HostRuntime) -> Result<(), Fail> {
    for (kind, op, first, second, given) in GIVEN {
        let outcome = on_params(
            rt.alloc(),
            *kind,
            between(Infix::Operate(*op)),
            *first,
            *second,
        )?;
        assert!(rt; outcome.0 == Ok(()));
        assert_eq!(rt; outcome.1, [Some(*first), Some(*second), Some(*given)]);
    }
    Ok(())
}

#[test]
fn faults_leave_the_slots(rt: HostRuntime) -> Result<(), Fail> {
    for (op, first, second, met) in MET {
        let op = between(Infix::Operate(*op));
        let outcome = on_params(rt.alloc(), Basic::Int64, op, *first, *second)?;
        assert!(rt; outcome.0 == Err(ValueError::Fault(*met)));
        assert_eq!(rt; outcome.1, [Some(*first), Some(*second), None]);
    }
    Ok(())
}

#[test]
fn integers_are_compared(rt: HostRuntime) -> Result<(), Fail> {
    for (op, first, second, meets) in COMPARED {
        let op = between(Infix::Compare(*op));
        let outcome = on_params(rt.alloc(), Basic::Int, op, *first, *second)?;
        assert!(rt; outcome.0 == Ok(()));
        assert_eq!(rt; outcome.1, [Some(*first), Some(*second), Some(*meets)]);
    }
    Ok(())
}

#[test]
fn operators_take_one_integer(rt: HostRuntime) -> Result<(), Fail> {
    for (kind, op, first, given) in ALONE {
        let (op, operand) = (*op, param(0));
        let outcome = on_params(rt.alloc(), *kind, Op::Unary { op, operand }, *first, 0)?;
        assert!(rt; outcome.0 == Ok(()));
        assert_eq!(rt; outcome.1, [Some(*first), Some(0), Some(*given)]);
    }
    Ok(())
}

#[test]
fn integers_are_converted(rt: HostRuntime) -> Result<(), Fail> {
    for (first, kind, given) in CONVERTED {
        let (to, operand) = (basic(*kind), param(0));
        let outcome = on_params(
            rt.alloc(),
            Basic::Int,
            Op::Convert { to, operand },
            *first,
            0,
        )?;
        assert!(rt; outcome.0 == Ok(()));
        assert_eq!(rt; outcome.1, [Some(*first), Some(0), Some(*given)]);
    }
    Ok(())
}

/// A free variable less a constant; then the register less the parameter.
fn on_free(alloc: Global) -> Result<[Outcome; 2], NoMemory> {
    let function = function(alloc, &[Basic::Int], &[Basic::Int], Basic::Int)?;
    let mut regs = frame(alloc, Value::Int(2), Value::Int(9))?;
    let mut store = Store::new(alloc);
    let value = ConstValue::Int(4);
    let of = basic(Basic::Int);
    let op = Infix::Operate(BinaryOp::Sub);
    let left = Operand::Free(0);
    let right = Operand::Constant { value, of };
    let first = step(
        alloc,
        &function,
        &mut regs,
        &mut store,
        Op::Binary { op, left, right },
    )?;
    let left = Operand::Register(0);
    let right = param(0);
    let second = step(
        alloc,
        &function,
        &mut regs,
        &mut store,
        Op::Binary { op, left, right },
    )?;
    Ok([first, second])
}

#[test]
fn operands_stand_one_behind_another(rt: HostRuntime) -> Result<(), Fail> {
    let [first, second] = on_free(rt.alloc())?;
    assert!(rt; first.0 == Ok(()));
    assert_eq!(rt; first.1, [Some(2), Some(9), Some(5)]);
    assert!(rt; second.0 == Ok(()));
    assert_eq!(rt; second.1, [Some(2), Some(9), Some(3)]);
    Ok(())
}

#[test]
fn other_instructions_change_nothing(rt: HostRuntime) -> Result<(), Fail> {
    let outcome = on_params(rt.alloc(), Basic::Int, Op::Tick, 1, 2)?;
    assert!(rt; outcome.0 == Err(ValueError::OutOfMemory));
    assert_eq!(rt; outcome.1, [Some(1), Some(2), None]);
    Ok(())
}
