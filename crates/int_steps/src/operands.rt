//! Operands in the slots of a frame.

ghost use Rattle.std.specs.Prelude.{◌≡◌, min, option_map, slice_get};
ghost use Rattle.go_store.specs.Cells.{integer_in};
ghost use Rattle.go_value.specs.Kinds as kinds;
ghost use Rattle.go_value.specs.Values.{value_of};
ghost use Rattle.interp_state.specs.Frames.{frames_of};
ghost use Rattle.int_steps.specs.Steps as meant;
ghost use Rattle.int_steps.specs.Steps.{constant_integer, kind_at};

use go_base::TypeId;
use go_type::{IntKind, Types, int_kind};
use go_value::{Address, Value};
use interp_state::RegStack;
use ssa_ir::{ConstValue, Function, Operand};

/// The slot of a register of a function; the last number where it is larger, which is the slot of none.
pub fn register_slot(function: &Function, number: u64) -> u64
    ensures { result ≡ min (meant.register_slot function.now number) 18446744073709551615 }
{
    let params = function.params.as_slice().len() as u64;
    let free = function.free.as_slice().len() as u64;
    params.saturating_add(free.saturating_add(number))
}

/// The slot of an operand. None where it is no parameter, free variable or register.
fn slot_of(function: &Function, operand: &Operand) -> Option<u64>
    ensures { result ≡ option_map (λ n. min n 18446744073709551615) (meant.slot_of function.now operand.now) }
{
    match operand {
        Operand::Param(number) => parameter_slot(function, *number),
        Operand::Free(number) => free_slot(function, *number),
        Operand::Register(number) => Some(register_slot(function, *number)),
        Operand::Function(_) | Operand::Variable(_) | Operand::Constant { .. } => None,
    }
}

fn parameter_slot(function: &Function, number: u64) -> Option<u64>
    ensures { result ≡ option_map (λ n. min n 18446744073709551615) (meant.slot_of function.now (Operand.Param number)) }
{
    if number < function.params.as_slice().len() as u64 {
        Some(number)
    } else {
        None
    }
}

fn free_slot(function: &Function, number: u64) -> Option<u64>
    ensures { result ≡ option_map (λ n. min n 18446744073709551615) (meant.slot_of function.now (Operand.Free number)) }
{
    if number < function.free.as_slice().len() as u64 {
        let params = function.params.as_slice().len() as u64;
        Some(params.saturating_add(number))
    } else {
        None
    }
}

/// What the slot of an operand holds.
fn held<'a>(regs: &'a RegStack, function: &Function, operand: &Operand) -> Option<&'a Value>
    ensures { option_map (λ it. value_of it.now) result ≡ meant.held function.now (frames_of regs.now) operand.now }
{
    match slot_of(function, operand) {
        Some(slot) => regs.get(slot),
        None => None,
    }
}

/// The integer that an operand is. None where it is none.
pub fn integer(regs: &RegStack, function: &Function, operand: &Operand) -> Option<i128>
    ensures { result ≡ meant.integer_of function.now (frames_of regs.now) operand.now }
{
    match operand {
        Operand::Constant { value, .. } => constant_integer(value),
        _ => held_integer(regs, function, operand),
    }
}

fn constant_integer(value: &ConstValue) -> Option<i128>
    ensures { result ≡ constant_integer value.now }
{
    match value {
        ConstValue::Int(number) => Some(*number),
        _ => None,
    }
}

/// The integer that the slot of an operand holds.
fn held_integer(regs: &RegStack, function: &Function, operand: &Operand) -> Option<i128>
    ensures { result ≡ integer_in (meant.held function.now (frames_of regs.now) operand.now) }
{
    match held(regs, function, operand) {
        Some(value) => as_integer(value),
        None => None,
    }
}

fn as_integer(value: &Value) -> Option<i128>
    ensures { result ≡ kinds.integer (value_of value.now) }
{
    match value {
        Value::Int(number) => Some(*number),
        _ => None,
    }
}

/// The address that the slot of an operand holds. None where it holds none.
pub fn address<'a>(
    regs: &'a RegStack,
    function: &Function,
    operand: &Operand,
) -> Option<&'a Address>
    ensures { option_map (λ it. it.now) result ≡ meant.pointer_of function.now (frames_of regs.now) operand.now }
{
    match held(regs, function, operand) {
        Some(value) => as_address(value),
        None => None,
    }
}

fn as_address(value: &Value) -> Option<&Address>
    ensures { option_map (λ it. it.now) result ≡ meant.as_pointer (value_of value.now) }
{
    match value {
        Value::Pointer(address) => Some(address),
        _ => None,
    }
}

fn type_of(function: &Function, operand: &Operand) -> Option<TypeId>
    ensures { result ≡ meant.type_of function.now operand.now }
{
    match operand {
        Operand::Param(number) => type_at(function.params.as_slice(), *number),
        Operand::Free(number) => type_at(function.free.as_slice(), *number),
        Operand::Register(number) => type_at(function.registers.as_slice(), *number),
        Operand::Constant { of, .. } => Some(*of),
        Operand::Function(_) | Operand::Variable(_) => None,
    }
}

fn type_at(types: &[TypeId], number: u64) -> Option<TypeId>
    ensures { result ≡ slice_get types.now number }
{
    types.get(number as usize).copied()
}

/// The width and the sign of the type of an operand. None where it is no integer.
pub fn kind_of(types: &Types, function: &Function, operand: &Operand) -> Option<IntKind>
    ensures { result ≡ kind_at types.now function.now operand.now }
{
    match type_of(function, operand) {
        Some(of) => int_kind(types, of),
        None => None,
    }
}
