//! Operands by one byte each: a parameter by its letter, a register by its digit, and capital letters for the rest.

use crate::tests::world::World;
use go_base::{Bytes, FuncId, NoMemory, VarId};
use ssa_ir::{ConstValue, Operand, Operands};
use std::alloc::Global;

/// `A` is a free variable, `F` a function, `G` one with a free variable, `I` the initialisation of a package, `H` a
/// function that is not there, `V` a package variable and `U` one that is not there; others are constants.
pub fn operand(alloc: Global, world: &World, byte: u8) -> Operand {
    match byte {
        b'a'..=b'z' => Operand::Param(u64::from(byte - b'a')),
        b'0'..=b'9' => Operand::Register(u64::from(byte - b'0')),
        b'A' => Operand::Free(0),
        b'F' => Operand::Function(FuncId { number: 0 }),
        b'G' => Operand::Function(FuncId { number: 2 }),
        b'I' => Operand::Function(FuncId { number: 3 }),
        b'H' => Operand::Function(FuncId { number: 9 }),
        b'V' => Operand::Variable(VarId { number: 0 }),
        b'U' => Operand::Variable(VarId { number: 9 }),
        _ => constant(alloc, world, byte),
    }
}

/// `N` is a nil pointer and `M` one of an integer type, `Z` a zero struct, `Y` the zero of a tuple, `C` an integer, `X` one
/// that its type has not, `T` a truth, `W` a text, `K` a truth as a text and `L` a text as a truth.
fn constant(alloc: Global, world: &World, byte: u8) -> Operand {
    let (value, letter) = match byte {
        b'N' => (ConstValue::Nil, b'i'),
        b'M' => (ConstValue::Nil, b'a'),
        b'Z' => (ConstValue::Zero, b'h'),
        b'Y' => (ConstValue::Zero, b'0'),
        b'X' => (ConstValue::Int(300), b'd'),
        b'T' => (ConstValue::Truth(true), b'b'),
        b'K' => (ConstValue::Truth(true), b'c'),
        b'L' => (ConstValue::Text(Bytes::new(Vec::new(alloc))), b'b'),
        b'W' => (ConstValue::Text(Bytes::new(Vec::new(alloc))), b'c'),
        _ => (ConstValue::Int(-7), b'a'),
    };
    let of = world.of(letter);
    Operand::Constant { value, of }
}

/// A list of operands.
pub fn operands(alloc: Global, world: &World, bytes: &[u8]) -> Result<Operands, NoMemory> {
    let mut operands = Operands::new(alloc);
    for byte in bytes {
        operands.push(operand(alloc, world, *byte))?;
    }
    Ok(operands)
}

/// The operand of a byte, and none for `_`.
pub fn bound(alloc: Global, world: &World, byte: u8) -> Option<Operand> {
    if byte == b'_' {
        None
    } else {
        Some(operand(alloc, world, byte))
    }
}
