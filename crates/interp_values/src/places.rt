//! Cells, and the parts of values. Go specification, "Address operators", "Selectors" and "Index expressions".

ghost use Rattle.std.specs.Prelude.{◌≡◌, IfOk, IfSome, None, Some, map};
ghost use Rattle.code_plan.specs.declared.steps.Step.TheVariants as act;
ghost use Rattle.go_store.specs.Stores.{stored};
ghost use Rattle.go_value.specs.Values as vals;
ghost use Rattle.go_value.specs.Values.{parts_of, value_of};
ghost use Rattle.interp_state.specs.Machines.{machine_of};
ghost use Rattle.interp_state.specs.Turns.{IsChanged, IsGiven, IsMade, Steps};
ghost use Rattle.interp_values.specs.Given.{IsGivenAs};
ghost use Rattle.plan_mean.specs.Operands.{with_one, with_two};
ghost use Rattle.plan_mean.specs.Step.{acts, new_cell};
ghost use Rattle.ssa_mean.specs.Comes.{to};
ghost use Rattle.ssa_mean.specs.Places.{assigned, element_value, field_address, field_of, index_address, index_of, load};

use code_plan::Arg;
use go_base::NoMemory;
use go_store::element;
use go_value::{Address, Fault, Part, Value, check_index};
use interp_state::{Machine, Met, Turn};
use std::alloc::Global;

/// A new cell, with a value.
#[inline(never)]
pub fn make_cell(machine: &mut Machine<'_>, zero: &Box<Value>, to: u32) -> Turn
    ensures { Steps result machine.old machine.new (λ w. acts w (machine_of machine.old) (act.New zero.now to)) }
{
    let made = made_cell(machine, zero);
    machine.give(to, made)
}

fn made_cell(machine: &mut Machine<'_>, zero: &Box<Value>) -> Result<Value, Met>
    ensures { IsMade result machine.old machine.new (to (new_cell (machine_of machine.old) zero.now)) }
{
    let value = zero.copy(machine.alloc)?;
    let cell = machine.store.make_cell(value)?;
    Ok(Value::Pointer(Address::whole(cell)))
}

/// What a pointer leads to.
pub fn load(machine: &mut Machine<'_>, at: &Arg, to: u32) -> Turn
    ensures { Steps result machine.old machine.new (λ w. acts w (machine_of machine.old) (act.Load at.now to)) }
{
    match loaded_int(machine, at) {
        Ok(Some(number)) => machine.set_int(to, number),
        Ok(None) => load_any(machine, at, to),
        Err(_) => Turn::WantsMemory,
    }
}

/// The integer at an address. None where it is nil, or leads to no integer.
fn loaded_int(machine: &Machine<'_>, at: &Arg) -> Result<Option<i128>, NoMemory>
    ensures { IfOk result (λ found. IfSome found (λ it. with_one (machine_of machine.now) at.now (load (stored machine.now.store)) ≡ to (vals.number it))) }
{
    Ok(machine.store.int_at(machine.address(at)?))
}

#[inline(never)]
fn load_any(machine: &mut Machine<'_>, at: &Arg, to: u32) -> Turn
    ensures { Steps result machine.old machine.new (λ w. acts w (machine_of machine.old) (act.Load at.now to)) }
{
    let loaded = loaded(machine, at);
    machine.give(to, loaded)
}

fn loaded(machine: &Machine<'_>, at: &Arg) -> Result<Value, Met>
    ensures { IsGiven result (with_one (machine_of machine.now) at.now (load (stored machine.now.store))) }
{
    Ok(machine.store.load_at(machine.alloc, machine.address(at)?)?)
}

/// A value is put where a pointer leads to.
pub fn store(machine: &mut Machine<'_>, at: &Arg, value: &Arg) -> Turn
    ensures { Steps result machine.old machine.new (λ w. acts w (machine_of machine.old) (act.Store at.now value.now)) }
{
    let stored = stored(machine, at, value);
    machine.done(stored)
}

fn stored(machine: &mut Machine<'_>, at: &Arg, value: &Arg) -> Result<(), Met>
    ensures { IsChanged result machine.old machine.new (with_two (machine_of machine.old) at.now value.now (assigned (stored machine.old.store))) }
{
    let address = machine.address(at)?.copy()?;
    let stored = put_value(machine, &address, value);
    drop(address);
    stored
}

/// The value of an operand is put at an address.
fn put_value(machine: &mut Machine<'_>, at: &Address, value: &Arg) -> Result<(), Met>
    ensures { IsChanged result machine.old machine.new (with_one (machine_of machine.old) value.now (assigned (stored machine.old.store) (vals.pointer at.now))) }
{
    match machine.look(value)? {
        Value::Int(number) => {
            let number = *number;
            put(machine, at, Value::Int(number))
        }
        other => {
            let value = other.copy(machine.alloc)?;
            put(machine, at, value)
        }
    }
}

fn put(machine: &mut Machine<'_>, at: &Address, value: Value) -> Result<(), Met>
    ensures { IsChanged result machine.old machine.new (assigned (stored machine.old.store) (vals.pointer at.now) (value_of value)) }
{
    Ok(machine.store.put_at(at, value)?)
}

/// The address of a field.
pub fn field_address(machine: &mut Machine<'_>, operand: &Arg, field: u32, to: u32) -> Turn
    ensures { Steps result machine.old machine.new (λ w. acts w (machine_of machine.old) (act.FieldAddress operand.now field to)) }
{
    let part = part_of(machine, operand, field);
    machine.give(to, part)
}

fn part_of(machine: &Machine<'_>, operand: &Arg, step: u32) -> Result<Value, Met>
    ensures { IsGiven result (with_one (machine_of machine.now) operand.now (λ it. field_address it step)) }
{
    part_at(machine.alloc, machine.address(operand)?, step)
}

/// The address of a part of what an address leads to.
fn part_at(alloc: Global, address: &Address, step: u32) -> Result<Value, Met>
    ensures { IsGiven result (field_address (vals.pointer address.now) step) }
{
    match address.part(alloc, step) {
        Ok(part) => Ok(Value::Pointer(part)),
        Err(_) => {
            if address.is_nil() {
                Err(Met::Fault(Fault::NilPointer))
            } else {
                Err(Met::Memory)
            }
        }
    }
}

/// The address of an element of a slice.
pub fn slice_element(machine: &mut Machine<'_>, operand: &Arg, index: &Arg, to: u32) -> Turn
    ensures { Steps result machine.old machine.new (λ w. acts w (machine_of machine.old) (act.SliceElement operand.now index.now to)) }
{
    let element = element_of(machine, operand, index);
    machine.give(to, element)
}

fn element_of(machine: &Machine<'_>, operand: &Arg, index: &Arg) -> Result<Value, Met>
    ensures { IsGiven result (with_two (machine_of machine.now) operand.now index.now (index_address None)) }
{
    let index = machine.int(index)?;
    let address = element(machine.alloc, machine.slice(operand)?, index)?;
    Ok(Value::Pointer(address))
}

/// The address of an element of an array.
pub fn array_element(
    machine: &mut Machine<'_>,
    operand: &Arg,
    index: &Arg,
    len: u64,
    to: u32,
) -> Turn
    ensures { Steps result machine.old machine.new (λ w. acts w (machine_of machine.old) (act.ArrayElement operand.now index.now len to)) }
{
    let element = array_part(machine, operand, index, len);
    machine.give(to, element)
}

/// The address of an element of an array that a pointer points to. A nil pointer comes before a bad index.
fn array_part(machine: &Machine<'_>, operand: &Arg, index: &Arg, len: u64) -> Result<Value, Met>
    ensures { IsGiven result (with_two (machine_of machine.now) operand.now index.now (index_address (Some len))) }
{
    let index = machine.int(index)?;
    let address = machine.address(operand)?;
    if address.is_nil() {
        return Err(Met::Fault(Fault::NilPointer));
    }
    let place = check_index(index, len)?;
    match u32::try_from(place) {
        Ok(step) => part_at(machine.alloc, address, step),
        Err(_) => Err(Met::Memory),
    }
}

/// A field of a value.
pub fn field(machine: &mut Machine<'_>, operand: &Arg, field: u32, to: u32) -> Turn
    ensures { Steps result machine.old machine.new (λ w. acts w (machine_of machine.old) (act.Field operand.now field to)) }
{
    let part = part_value(machine, operand, field);
    machine.give(to, part)
}

/// A part of a value of parts.
fn part_value(machine: &Machine<'_>, operand: &Arg, part: u32) -> Result<Value, Met>
    ensures { IsGiven result (with_one (machine_of machine.now) operand.now (λ it. field_of it part)) }
{
    match machine.look(operand)? {
        Value::Parts(parts) => nth_part(machine.alloc, parts.as_slice(), part as usize),
        _ => Err(Met::Memory),
    }
}

fn nth_part(alloc: Global, parts: &[Part], place: usize) -> Result<Value, Met>
    ensures { IsGiven result (field_of (vals.parts (parts_of parts.now)) place) }
{
    match parts.get(place) {
        Some(part) => Ok(part.value.copy(alloc)?),
        None => Err(Met::Memory),
    }
}

/// A part of a tuple.
pub fn extract(machine: &mut Machine<'_>, operand: &Arg, part: u32, to: u32) -> Turn
    ensures { Steps result machine.old machine.new (λ w. acts w (machine_of machine.old) (act.Extract operand.now part to)) }
{
    let part = part_value(machine, operand, part);
    machine.give(to, part)
}

/// An element of an array that is a value.
pub fn array_item(machine: &mut Machine<'_>, operand: &Arg, index: &Arg, to: u32) -> Turn
    ensures { Steps result machine.old machine.new (λ w. acts w (machine_of machine.old) (act.Element operand.now index.now to)) }
{
    let part = array_value(machine, operand, index);
    machine.give(to, part)
}

fn array_value(machine: &Machine<'_>, operand: &Arg, index: &Arg) -> Result<Value, Met>
    ensures { IsGiven result (with_two (machine_of machine.now) operand.now index.now index_of) }
{
    let index = machine.int(index)?;
    match machine.look(operand)? {
        Value::Parts(parts) => item_at(machine.alloc, parts.as_slice(), index),
        _ => Err(Met::Memory),
    }
}

fn item_at(alloc: Global, parts: &[Part], index: i128) -> Result<Value, Met>
    ensures { IsGiven result (element_value (vals.parts (parts_of parts.now)) index) }
{
    let place = check_index(index, parts.len() as u64)?;
    nth_part(alloc, parts, place as usize)
}

/// A byte of a text.
pub fn byte(machine: &mut Machine<'_>, operand: &Arg, index: &Arg, to: u32) -> Turn
    ensures { Steps result machine.old machine.new (λ w. acts w (machine_of machine.old) (act.Byte operand.now index.now to)) }
{
    match byte_of(machine, operand, index) {
        Ok(byte) => machine.set_int(to, byte),
        Err(met) => machine.meet(met),
    }
}

fn byte_of(machine: &Machine<'_>, operand: &Arg, index: &Arg) -> Result<i128, Met>
    ensures { IsGivenAs vals.number result (with_two (machine_of machine.now) operand.now index.now index_of) }
{
    let index = machine.int(index)?;
    byte_at(machine.text(operand)?.as_slice(), index)
}

fn byte_at(bytes: &[u8], index: i128) -> Result<i128, Met>
    ensures { IsGivenAs vals.number result (element_value (vals.text bytes.now) index) }
{
    let place = check_index(index, bytes.len() as u64)?;
    match bytes.get(place as usize) {
        Some(byte) => Ok(i128::from(*byte)),
        None => Err(Met::Memory),
    }
}

/// A value as it is.
pub fn keep(machine: &mut Machine<'_>, operand: &Arg, to: u32) -> Turn
    ensures { Steps result machine.old machine.new (λ w. acts w (machine_of machine.old) (act.Keep operand.now to)) }
{
    match machine.read(operand) {
        Ok(value) => {
            machine.set(to, value);
            Turn::Goes
        }
        Err(_) => Turn::WantsMemory,
    }
}
