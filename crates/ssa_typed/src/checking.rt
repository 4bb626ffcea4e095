//! Which codes are typed, so far as their instructions and functions go.

ghost use Rattle.std.specs.Prelude.{◌≡◌, ◌++◌, ◌↔◌, ℕ, IsTrue, IfOk, IsOk, MatchOption, true};
ghost use Rattle.std.specs.List.{list_all};
ghost use Rattle.ssa_ir.specs.Uses.{given_register, given_registers};
ghost use Rattle.ssa_typed.specs.Typed.{is_allowed, is_wrapper, are_value_types, has_rest, fits_kind, fits_header, IsTypedInstr, IsTypedIn, IsFirstIllIn, IsFirstIllAt, IsTypedFunction, IsTyped, IsFirstIllTyped};

use crate::forms::fits;
use crate::headers::{fits_header, is_allowed};
use crate::known::Frame;
use go_base::NoMemory;
use indexmap::IndexSet;
use ssa_ir::{Code, Instr};
use std::alloc::Global;
use thiserror::Error;

/// Why a code is not typed.
#[derive(Clone, Copy, Debug, PartialEq, Eq, Error)]
pub enum TypedError {
    /// The first line that is ill typed. The first line of a function is named as instruction 0 of its block 0.
    #[error("ill typed in function {function} at block {block}, instruction {instr}")]
    IllTyped {
        function: u64,
        block: u64,
        instr: u64,
    },
    #[error("out of memory")]
    OutOfMemory,
}

/// A place in a function.
#[derive(Clone, Copy)]
struct Place {
    block: usize,
    instr: usize,
}

/// Tests that each instruction of a code has operands and a register of the types that it needs.
pub fn type_code(alloc: Global, code: &Code) -> Result<(), TypedError>
    ensures typed { IsOk result → IsTyped code.now }
    ensures ill { (function block instr : ℕ) → result ≡ Err (TypedError.IllTyped function block instr) → IsFirstIllTyped code.now function block instr }
{
    for (number, function) in code.functions.as_slice().iter().enumerate() {
        let frame = Frame { code, function };
        let Ok(found) = first_ill_typed(alloc, frame) else {
            return Err(TypedError::OutOfMemory);
        };
        if let Some(place) = found {
            return Err(TypedError::IllTyped {
                function: number as u64,
                block: place.block as u64,
                instr: place.instr as u64,
            });
        }
    }
    Ok(())
}

/// The first line of a function that is ill typed.
fn first_ill_typed(alloc: Global, frame: Frame) -> Result<Option<Place>, NoMemory>
    ensures { IfOk result (λ found. MatchOption found (IsTypedFunction frame.entry.code.now frame.entry.function.now) (λ place. IsFirstIllAt frame.entry.code.now frame.entry.function.now place.block place.instr)) }
{
    if !fits_header(frame) {
        return Ok(Some(Place { block: 0, instr: 0 }));
    }
    let mut given = IndexSet::new(alloc);
    for (number, block) in frame.function.blocks.as_slice().iter().enumerate() {
        if let Some(instr) = first_in_block(frame, &mut given, block.instrs.as_slice())? {
            return Ok(Some(Place {
                block: number,
                instr,
            }));
        }
    }
    Ok(None)
}

fn first_in_block(
    frame: Frame,
    given: &mut IndexSet<u64>,
    instrs: &[Instr],
) -> Result<Option<usize>, NoMemory>
    ensures { IfOk result (λ found. MatchOption found (((k : ℕ) → IsTypedIn frame.entry.code.now frame.entry.function.now given.old.keys instrs.now k) × (given.new.keys ≡ given.old.keys ++ given_registers instrs.now)) (λ index. IsFirstIllIn frame.entry.code.now frame.entry.function.now given.old.keys instrs.now index)) }
{
    for (index, instr) in instrs.iter().enumerate() {
        if !fits_instr(frame, given, instr)? {
            return Ok(Some(index));
        }
    }
    Ok(None)
}

/// Whether an instruction is typed, and gives no register that was given before.
fn fits_instr(frame: Frame, given: &mut IndexSet<u64>, instr: &Instr) -> Result<bool, NoMemory>
    ensures typed { IfOk result (λ r. IsTrue r ↔ IsTypedInstr frame.entry.code.now frame.entry.function.now given.old.keys instr.now) }
    ensures given { IfOk result (λ r. IsTrue r → given.new.keys ≡ given.old.keys ++ given_register instr.now) }
{
    if !is_allowed(frame.function, &instr.op) {
        return Ok(false);
    }
    let Some(register) = instr.register else {
        return Ok(fits(frame, &instr.op, None));
    };
    let Some(of) = frame.register_at(register) else {
        return Ok(false);
    };
    if !fits(frame, &instr.op, Some(of)) {
        return Ok(false);
    }
    let is_new = given.insert(register)?;
    Ok(is_new)
}
