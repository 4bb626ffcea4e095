//! One instruction on integers. Go specification, "Operators", "Conversions between numeric types", "Address operators"
//! and "Assignment statements".

ghost use Rattle.std.specs.Prelude.{◌≡◌, OnErr};
ghost use Rattle.go_store.specs.Stores.{stored};
ghost use Rattle.interp_state.specs.Frames.{KeepsSpare, frames_of};
ghost use Rattle.go_value.specs.Values.{value_of};
ghost use Rattle.int_steps.specs.Steps.{DoesAs, MayWant, MeetsNone, int_assigned, int_does, state_of, with_value};

use crate::operands::{address, integer, register_slot};
use crate::values::{given, lost};
use go_store::Store;
use go_type::Types;
use go_value::{Value, ValueError};
use interp_state::RegStack;
use ssa_ir::{Function, Instr, Op, Operand};

/// One instruction: an operation, a comparison or a conversion of integers, or a load or a store of one. Its operands
/// are parameters, free variables and registers, whose values are the slots of the top frame, and constants. Where it
/// meets a fault nothing changes. It takes no memory, but where an array that is kept in bytes gets an integer that is
/// no byte; `OutOfMemory` is also what it answers to an instruction of another form.
pub fn int_step(
    types: &Types,
    regs: &mut RegStack,
    store: &mut Store,
    function: &Function,
    instr: &Instr,
) -> Result<(), ValueError>
    ensures does { let does = int_does types.now function.now instr.now.register instr.now.op (state_of regs.old store.old) in DoesAs (MayWant instr.now.op does) result does (state_of regs.new store.new) }
    ensures err { OnErr result (state_of regs.new store.new ≡ state_of regs.old store.old) }
    ensures spare { KeepsSpare regs.old regs.new }
{
    match &instr.op {
        Op::Store { at, value } => put(regs, store, function, at, value),
        op => {
            let value = given(types, regs, store, function, op)?;
            write(regs, function, instr.register, value);
            Ok(())
        }
    }
}

/// A register gets a value, where there is one.
fn write(regs: &mut RegStack, function: &Function, register: Option<u64>, value: Value)
    ensures slots { frames_of regs.new ≡ with_value function.now register (value_of value) (frames_of regs.old) }
    ensures spare { KeepsSpare regs.old regs.new }
{
    match register {
        Some(register) => regs.set(register_slot(function, register), value),
        None => drop(value),
    }
}

/// A part of the store gets an integer.
fn put(
    regs: &RegStack,
    store: &mut Store,
    function: &Function,
    at: &Operand,
    value: &Operand,
) -> Result<(), ValueError>
    ensures does { let does = int_assigned function.now (state_of regs.now store.old) at.now value.now in DoesAs (MeetsNone does) result does (stored store.new) }
    ensures err { OnErr result (stored store.new ≡ stored store.old) }
{
    let Some(number) = integer(regs, function, value) else {
        return Err(lost());
    };
    match address(regs, function, at) {
        Some(at) => store.put_int_at(at, number),
        None => Err(lost()),
    }
}
