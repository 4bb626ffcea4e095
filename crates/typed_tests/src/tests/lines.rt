//! Instructions as texts: a letter that says the form, and a byte for each part.

use crate::tests::calls::{call_of, cases_of};
use crate::tests::operands::{bound, operand, operands};
use crate::tests::world::World;
use go_base::{BlockId, FuncId, NoMemory};
use go_type::{BinaryOp, CompareOp, UnaryOp};
use ssa_ir::{Infix, Op, PhiEdge, PhiEdges};
use std::alloc::Global;

/// Where operands are made.
#[derive(Clone, Copy)]
pub struct Maker<'a> {
    pub alloc: Global,
    pub world: &'a World,
    pub bytes: &'a [u8],
}

impl Maker<'_> {
    /// The byte at a place behind the letter of the form.
    pub fn byte(&self, place: usize) -> u8 {
        self.bytes.get(place).copied().unwrap_or(b'a')
    }

    fn digit(&self, place: usize) -> u32 {
        u32::from(self.byte(place).wrapping_sub(b'0'))
    }
}

/// The instruction of a form.
pub fn op_of(form: u8, maker: Maker) -> Result<Op, NoMemory> {
    match form {
        b'p' => phi(maker),
        b'f' => closure(maker),
        b'q' => returned(maker),
        b'(' => Ok(Op::Call(call_of(maker)?)),
        b'g' => Ok(Op::Go(call_of(maker)?)),
        b'd' => Ok(Op::Defer(call_of(maker)?)),
        b'W' => select(maker, true),
        b'w' => select(maker, false),
        b'o' | b'u' | b'*' | b'!' | b'.' | b'&' | b'[' | b']' => Ok(simple(form, maker)),
        b'l' | b'L' | b'm' | b':' | b'>' | b'-' | b'~' => Ok(held(form, maker)),
        b'n' | b'c' | b't' | b'i' | b'j' | b'M' | b'C' | b'S' | b'A' | b'a' => Ok(typed(
            form, maker,
        )),
        _ => Ok(other(form, maker)),
    }
}

/// Each edge comes from the block of its place.
fn phi(maker: Maker) -> Result<Op, NoMemory> {
    let mut edges = PhiEdges::new(maker.alloc);
    for (number, byte) in maker.bytes.iter().enumerate() {
        edges.push(PhiEdge {
            from: BlockId {
                number: number as u64,
            },
            value: operand(maker.alloc, maker.world, *byte),
        })?;
    }
    Ok(Op::Phi(edges))
}

fn closure(maker: Maker) -> Result<Op, NoMemory> {
    let function = FuncId {
        number: u64::from(maker.digit(0)),
    };
    let captured = maker.bytes.get(1..).unwrap_or(&[]);
    let captured = operands(maker.alloc, maker.world, captured)?;
    Ok(Op::MakeClosure { function, captured })
}

fn returned(maker: Maker) -> Result<Op, NoMemory> {
    Ok(Op::Return(operands(maker.alloc, maker.world, maker.bytes)?))
}

fn select(maker: Maker, blocking: bool) -> Result<Op, NoMemory> {
    let cases = cases_of(maker)?;
    Ok(Op::Select { blocking, cases })
}

fn part(maker: Maker, place: usize) -> ssa_ir::Operand {
    operand(maker.alloc, maker.world, maker.byte(place))
}

/// The operators in their order, arithmetic first, by letters from `a`.
fn infix(letter: u8) -> Infix {
    match letter {
        b'a' => Infix::Operate(BinaryOp::Add),
        b'b' => Infix::Operate(BinaryOp::Sub),
        b'c' => Infix::Operate(BinaryOp::Mul),
        b'd' => Infix::Operate(BinaryOp::Div),
        b'e' => Infix::Operate(BinaryOp::Rem),
        b'f' => Infix::Operate(BinaryOp::And),
        b'g' => Infix::Operate(BinaryOp::Or),
        b'h' => Infix::Operate(BinaryOp::Xor),
        b'i' => Infix::Operate(BinaryOp::AndNot),
        b'j' => Infix::Operate(BinaryOp::ShiftLeft),
        b'k' => Infix::Operate(BinaryOp::ShiftRight),
        b'l' => Infix::Compare(CompareOp::Equal),
        b'm' => Infix::Compare(CompareOp::NotEqual),
        b'n' => Infix::Compare(CompareOp::Less),
        b'o' => Infix::Compare(CompareOp::LessEqual),
        b'p' => Infix::Compare(CompareOp::Greater),
        _ => Infix::Compare(CompareOp::GreaterEqual),
    }
}

fn unary(letter: u8) -> UnaryOp {
    match letter {
        b'-' => UnaryOp::Negate,
        b'^' => UnaryOp::Complement,
        _ => UnaryOp::Not,
    }
}

/// Operators, places, fields and elements.
fn simple(form: u8, maker: Maker) -> Op {
    match form {
        b'o' => Op::Binary {
            op: infix(maker.byte(0)),
            left: part(maker, 1),
            right: part(maker, 2),
        },
        b'u' => Op::Unary {
            op: unary(maker.byte(0)),
            operand: part(maker, 1),
        },
        b'*' => Op::Load(part(maker, 0)),
        b'!' => Op::Store {
            at: part(maker, 0),
            value: part(maker, 1),
        },
        b'.' => Op::Field {
            operand: part(maker, 0),
            field: maker.digit(1),
        },
        b'&' => Op::FieldAddress {
            operand: part(maker, 0),
            field: maker.digit(1),
        },
        b'[' => Op::Index {
            operand: part(maker, 0),
            index: part(maker, 1),
        },
        _ => Op::IndexAddress {
            operand: part(maker, 0),
            index: part(maker, 1),
        },
    }
}

/// Maps, slices and channels; with a second result where the letter is the greater of two.
fn held(form: u8, maker: Maker) -> Op {
    match form {
        b'l' | b'L' => Op::Lookup {
            map: part(maker, 0),
            key: part(maker, 1),
            comma_ok: form == b'L',
        },
        b'm' => Op::Update {
            map: part(maker, 0),
            key: part(maker, 1),
            value: part(maker, 2),
        },
        b':' => Op::Slice {
            operand: part(maker, 0),
            low: bound(maker.alloc, maker.world, maker.byte(1)),
            high: bound(maker.alloc, maker.world, maker.byte(2)),
            max: bound(maker.alloc, maker.world, maker.byte(3)),
        },
        b'>' => Op::Send {
            channel: part(maker, 0),
            value: part(maker, 1),
        },
        _ => Op::Receive {
            channel: part(maker, 0),
            comma_ok: form == b'~',
        },
    }
}

/// What names a type, by the letter behind the form.
fn typed(form: u8, maker: Maker) -> Op {
    let of = maker.world.of(maker.byte(0));
    let operand = part(maker, 1);
    match form {
        b'c' => Op::Convert { to: of, operand },
        b't' => Op::ChangeType { to: of, operand },
        b'i' => Op::MakeInterface { to: of, operand },
        b'j' => Op::ChangeInterface { to: of, operand },
        b'C' => Op::MakeChan { of, size: operand },
        b'S' => Op::MakeSlice {
            of,
            len: operand,
            cap: part(maker, 2),
        },
        b'a' | b'A' => Op::TypeAssert {
            operand,
            to: of,
            comma_ok: form == b'A',
        },
        b'M' => Op::MakeMap(of),
        _ => Op::New(of),
    }
}

/// The rest; jumps lead to block 0.
fn other(form: u8, maker: Maker) -> Op {
    let start = BlockId { number: 0 };
    match form {
        b'r' => Op::RunDefers,
        b'R' => Op::Range(part(maker, 0)),
        b'N' => Op::Next(part(maker, 0)),
        b'x' => Op::Extract {
            operand: part(maker, 0),
            part: maker.digit(1),
        },
        b'J' => Op::Jump(start),
        b'I' => Op::If {
            test: part(maker, 0),
            then_to: start,
            else_to: BlockId { number: 1 },
        },
        b'P' => Op::Panic(part(maker, 0)),
        _ => Op::Tick,
    }
}
