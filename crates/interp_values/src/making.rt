//! Maps, slices, conversions, interfaces and function values.

ghost use Rattle.std.specs.Prelude.{◌≡◌, ◌++◌, ℤ, List, Option, Some, None, IfOk, IfSome, IfNone, OnOk, map, option_map, unsigned_abs, true, if◌then◌else◌};
ghost use Rattle.code_plan.specs.declared.steps.ConvertForm.TheVariants as form;
ghost use Rattle.code_plan.specs.declared.steps.Step.TheVariants as act;
ghost use Rattle.go_sched.specs.Goroutines.{state_of};
ghost use Rattle.go_store.specs.Slices as slices;
ghost use Rattle.go_store.specs.Stores.{stored};
ghost use Rattle.go_value.specs.Interfaces.{converted, dynamic_type, is_interface_type};
ghost use Rattle.go_value.specs.Values.{value_of};
ghost use Rattle.go_value.specs.Values as vals;
ghost use Rattle.go_value.specs.declared.address.Pointer.{Pointer as PointerType};
ghost use Rattle.interp_state.specs.Machines.{machine_of};
ghost use Rattle.interp_state.specs.States.{looked};
ghost use Rattle.interp_state.specs.Turns.{IsIn, IsGiven, IsMade, IsChanged, IsUnseen, Steps};
ghost use Rattle.interp_values.specs.Made.{IsMadeChannel, IsPlace};
ghost use Rattle.plan_mean.specs.Operands.{look_at_all, with_one, with_two, with_integer};
ghost use Rattle.plan_mean.specs.State.{World};
ghost use Rattle.plan_mean.specs.Step as steps;
ghost use Rattle.plan_mean.specs.Step.{acts, gives, gives_stored, with_integers, look_up, update, cut_of, conversion, new_map, make_closure};
ghost use Rattle.ssa_mean.specs.Comes.{of_result, to};
ghost use Rattle.ssa_mean.specs.Making.{is_nil_of, is_no_size, value_or};
ghost use Rattle.ssa_mean.specs.Making as making;
ghost use Rattle.ssa_mean.specs.Places as places;

use code_plan::{Arg, Bounds, ConvertForm, CutForm, Step};
use go_base::{FuncId, MapId, NoMemory, TypeId};
use go_store::{
    MAX_SLICE_LEAVES, array_slice, bytes_of_text, runes_of_text, slice_of, text_of_bytes,
    text_of_runes,
};
use go_type::{IntKind, TypeTerm};
use go_value::{
    Address, BoundTarget, Dynamic, Fault, FuncValue, SliceValue, Value, ValueError,
    assertion_fault, convert_int, text_of_int, text_slice, to_interface,
};
use interp_state::{Machine, Met, Turn, lost};

/// The map that an operand is.
fn map_id(machine: &Machine<'_>, arg: &Arg) -> Result<Option<MapId>, NoMemory>
    ensures { IfOk result (λ it. looked machine.now arg.now ≡ Some (vals.map_number it)) }
{
    match machine.look(arg)? {
        Value::Map(map) => Ok(*map),
        _ => Err(lost()),
    }
}

/// What a map holds for a key, or gets for it.
#[inline(never)]
pub fn act_on_map(machine: &mut Machine<'_>, step: &Step) -> Turn
    ensures { Steps result machine.old machine.new (λ w. acts w (machine_of machine.old) step.now) }
{
    match step {
        Step::Lookup {
            map,
            key,
            zero,
            comma_ok,
            to,
        } => {
            let found = found(machine, map, key, zero, *comma_ok);
            machine.give(*to, found)
        }
        Step::Update { map, key, value } => {
            let updated = updated(machine, map, key, value);
            machine.done(updated)
        }
        _ => Turn::WantsMemory,
    }
}

fn found(
    machine: &Machine<'_>,
    map: &Arg,
    key: &Arg,
    zero: &Value,
    comma_ok: bool,
) -> Result<Value, Met>
    ensures { (w : World) → IsIn w machine.now → IsGiven result (with_two (machine_of machine.now) map.now key.now (look_up w (stored machine.now.store) (value_of zero.now) comma_ok)) }
{
    let map = map_id(machine, map)?;
    let key = machine.look(key)?;
    let found = machine
        .store
        .map_get(machine.alloc, &machine.code.types, map, key)?;
    Ok(found_or(machine, found, zero, comma_ok)?)
}

/// What was found, and else another value, with whether it was found where that is asked.
fn found_or(
    machine: &Machine<'_>,
    found: Option<Value>,
    other: &Value,
    comma_ok: bool,
) -> Result<Value, NoMemory>
    ensures { IfOk result (λ it. value_of it ≡ value_or comma_ok (option_map value_of found) (value_of other.now)) }
{
    match found {
        Some(value) => machine.with_ok_where(comma_ok, value, true),
        None => machine.with_ok_where(comma_ok, other.copy(machine.alloc)?, false),
    }
}

fn updated(machine: &mut Machine<'_>, map: &Arg, key: &Arg, value: &Arg) -> Result<(), Met>
    ensures { (w : World) → IsIn w machine.old → IsChanged result machine.old machine.new (with_two (machine_of machine.old) map.now key.now (λ it key. with_one (machine_of machine.old) value.now (update w (stored machine.old.store) it key))) }
{
    let map = map_id(machine, map)?;
    let key = machine.read(key)?;
    let value = machine.read(value)?;
    Ok(machine.store.map_put(&machine.code.types, map, key, value)?)
}

/// A new map.
pub fn make_map(machine: &mut Machine<'_>, to: u32) -> Turn
    ensures { Steps result machine.old machine.new (λ w. acts w (machine_of machine.old) (act.MakeMap to)) }
{
    let made = made_map(machine);
    machine.give(to, made)
}

fn made_map(machine: &mut Machine<'_>) -> Result<Value, Met>
    ensures { IsMade result machine.old machine.new (to (new_map (machine_of machine.old))) }
{
    Ok(Value::Map(Some(machine.store.make_map()?)))
}

/// A new channel.
pub fn make_chan(machine: &mut Machine<'_>, leaves: u32, size: &Arg, to: u32) -> Turn
    ensures { Steps result machine.old machine.new (λ w. acts w (machine_of machine.old) (act.MakeChan leaves size.now to)) }
{
    let made = made_chan(machine, leaves, size);
    machine.give(to, made)
}

fn made_chan(machine: &mut Machine<'_>, leaves: u32, size: &Arg) -> Result<Value, Met>
    ensures { IsMadeChannel result machine.old machine.new (with_integer (machine_of machine.old) size.now (making.made_chan leaves (state_of machine.old.sched))) }
{
    let size = machine.int(size)?;
    chan_of_size(machine, leaves, size)
}

fn chan_of_size(machine: &mut Machine<'_>, leaves: u32, size: i128) -> Result<Value, Met>
    ensures { IsMadeChannel result machine.old machine.new (making.made_chan leaves (state_of machine.old.sched) size) }
{
    match size_within(leaves, size) {
        Some(size) => Ok(Value::Chan(Some(machine.sched.make_chan(size)?))),
        None => Err(Met::Fault(Fault::MakeChan)),
    }
}

/// The size of a channel of elements of so many leaves. None where it can have no such size.
fn size_within(leaves: u32, size: i128) -> Option<u32>
    ensures { result ≡ (if is_no_size leaves size then None else Some (unsigned_abs size)) }
{
    let most = i128::from(MAX_SLICE_LEAVES / leaves.max(1));
    if size < 0 || size > most {
        return None;
    }
    Some(size as u32)
}

/// A new slice.
pub fn make_slice(
    machine: &mut Machine<'_>,
    zero: &Value,
    leaves: u32,
    len: &Arg,
    cap: &Arg,
    to: u32,
) -> Turn
    ensures { Steps result machine.old machine.new (λ w. gives_stored w (machine_of machine.old) to (with_integers (machine_of machine.old) len.now cap.now (making.made_slice leaves (stored machine.old.store) (value_of zero.now)))) }
{
    let made = made_slice(machine, zero, leaves, len, cap);
    machine.give(to, made)
}

fn made_slice(
    machine: &mut Machine<'_>,
    zero: &Value,
    leaves: u32,
    len: &Arg,
    cap: &Arg,
) -> Result<Value, Met>
    ensures { IsMade result machine.old machine.new (with_integers (machine_of machine.old) len.now cap.now (making.made_slice leaves (stored machine.old.store) (value_of zero.now))) }
{
    let len = machine.int(len)?;
    let cap = machine.int(cap)?;
    let slice = machine.store.make_slice(zero, leaves, len, cap)?;
    Ok(Value::slice(machine.alloc, slice)?)
}

/// A part of a slice, a text or an array.
#[inline(never)]
pub fn cut(machine: &mut Machine<'_>, step: &Step) -> Turn
    ensures { Steps result machine.old machine.new (λ w. acts w (machine_of machine.old) step.now) }
{
    match step {
        Step::Cut {
            form,
            operand,
            bounds,
            to,
        } => {
            let part = part_between(machine, *form, operand, bounds);
            machine.give(*to, part)
        }
        _ => Turn::WantsMemory,
    }
}

/// The place of a bound. None where it is left out.
fn place(machine: &Machine<'_>, bound: &Option<Arg>) -> Result<Option<i128>, NoMemory>
    ensures { IfOk result (λ it. IsPlace machine.now bound.now it) }
{
    match bound {
        Some(arg) => Ok(Some(machine.int(arg)?)),
        None => Ok(None),
    }
}

fn part_between(
    machine: &Machine<'_>,
    form: CutForm,
    operand: &Arg,
    bounds: &Bounds,
) -> Result<Value, Met>
    ensures { IsGiven result (cut_of (machine_of machine.now) form operand.now bounds.now) }
{
    let low = place(machine, &bounds.low)?;
    let high = place(machine, &bounds.high)?;
    let max = place(machine, &bounds.max)?;
    match form {
        CutForm::Text => text_between(machine, operand, low, high, max),
        CutForm::Slice => slice_between(machine, operand, low, high, max),
        CutForm::Array(len) => array_between(machine, operand, len, low, high, max),
    }
}

/// A text has no capacity: `max` is left out.
fn text_between(
    machine: &Machine<'_>,
    operand: &Arg,
    low: Option<i128>,
    high: Option<i128>,
    max: Option<i128>,
) -> Result<Value, Met>
    ensures { IsGiven result (with_one (machine_of machine.now) operand.now (λ whole. places.part_between None whole (record { low = low; high = high; max = max }))) }
{
    if max.is_some() {
        return Err(Met::Memory);
    }
    let bytes = machine.text(operand)?;
    let high = high.unwrap_or(i128::from(bytes.len() as u64));
    let part = text_slice(machine.alloc, bytes, low.unwrap_or(0), high)?;
    Ok(Value::text(machine.alloc, part)?)
}

fn slice_between(
    machine: &Machine<'_>,
    operand: &Arg,
    low: Option<i128>,
    high: Option<i128>,
    max: Option<i128>,
) -> Result<Value, Met>
    ensures { IsGiven result (with_one (machine_of machine.now) operand.now (λ whole. places.part_between None whole (record { low = low; high = high; max = max }))) }
{
    let slice = machine.slice(operand)?.copy(machine.alloc)?;
    slice_part(machine, slice, low, high, max)
}

fn slice_part(
    machine: &Machine<'_>,
    slice: SliceValue,
    low: Option<i128>,
    high: Option<i128>,
    max: Option<i128>,
) -> Result<Value, Met>
    ensures { IsGiven result (places.cut slice (record { low = low; high = high; max = max })) }
{
    let high = high.unwrap_or(i128::from(slice.len));
    let max = max.unwrap_or(i128::from(slice.cap));
    let part = slice_of(slice, low.unwrap_or(0), high, max)?;
    Ok(Value::slice(machine.alloc, part)?)
}

/// A part of an array that a pointer points to.
fn array_between(
    machine: &Machine<'_>,
    operand: &Arg,
    len: u64,
    low: Option<i128>,
    high: Option<i128>,
    max: Option<i128>,
) -> Result<Value, Met>
    ensures { IsGiven result (with_one (machine_of machine.now) operand.now (λ whole. places.part_between (Some len) whole (record { low = low; high = high; max = max }))) }
{
    let address = machine.address(operand)?;
    if address.is_nil() {
        return Err(Met::Fault(Fault::NilPointer));
    }
    let whole = whole_array(machine, address, len)?;
    slice_part(machine, whole, low, high, max)
}

/// All of an array that is pointed to.
fn whole_array(machine: &Machine<'_>, at: &Address, len: u64) -> Result<SliceValue, NoMemory>
    ensures { IfOk result (λ it. it ≡ slices.whole_array at.now len) }
{
    let pointer = at.pointer(machine.alloc)?;
    match array_slice(machine.alloc, &pointer, len) {
        Ok(slice) => Ok(slice),
        Err(_) => Err(lost()),
    }
}

/// A value as one of another type.
#[inline(never)]
pub fn convert(machine: &mut Machine<'_>, form: ConvertForm, operand: &Arg, to: u32) -> Turn
    ensures { Steps result machine.old machine.new (λ w. acts w (machine_of machine.old) (act.Convert form operand.now to)) }
{
    let converted = converted(machine, form, operand);
    machine.give(to, converted)
}

fn converted(machine: &mut Machine<'_>, form: ConvertForm, operand: &Arg) -> Result<Value, Met>
    ensures { IsMade result machine.old machine.new (conversion (machine_of machine.old) form operand.now) }
{
    match form {
        ConvertForm::Int(kind) => int_to_int(machine, kind, operand),
        ConvertForm::IntToText => int_to_text(machine, operand),
        ConvertForm::BytesToText => bytes_to_text(machine, operand),
        ConvertForm::RunesToText => runes_to_text(machine, operand),
        ConvertForm::TextToBytes => text_to_bytes(machine, operand),
        ConvertForm::TextToRunes => text_to_runes(machine, operand),
    }
}

fn int_to_int(machine: &Machine<'_>, kind: IntKind, operand: &Arg) -> Result<Value, Met>
    ensures { IsMade result machine.now machine.now (conversion (machine_of machine.now) (form.Int kind) operand.now) }
{
    Ok(Value::Int(convert_int(kind, machine.int(operand)?)))
}

fn int_to_text(machine: &Machine<'_>, operand: &Arg) -> Result<Value, Met>
    ensures { IsMade result machine.now machine.now (conversion (machine_of machine.now) form.IntToText operand.now) }
{
    let text = text_of_int(machine.alloc, machine.int(operand)?)?;
    Ok(Value::text(machine.alloc, text)?)
}

fn bytes_to_text(machine: &Machine<'_>, operand: &Arg) -> Result<Value, Met>
    ensures { IsMade result machine.now machine.now (conversion (machine_of machine.now) form.BytesToText operand.now) }
{
    let slice = machine.slice(operand)?;
    let text = text_of_bytes(machine.alloc, &machine.store, slice)?;
    Ok(Value::text(machine.alloc, text)?)
}

fn runes_to_text(machine: &Machine<'_>, operand: &Arg) -> Result<Value, Met>
    ensures { IsMade result machine.now machine.now (conversion (machine_of machine.now) form.RunesToText operand.now) }
{
    let slice = machine.slice(operand)?;
    let text = text_of_runes(machine.alloc, &machine.store, slice)?;
    Ok(Value::text(machine.alloc, text)?)
}

fn text_to_bytes(machine: &mut Machine<'_>, operand: &Arg) -> Result<Value, Met>
    ensures { IsMade result machine.old machine.new (conversion (machine_of machine.old) form.TextToBytes operand.now) }
{
    let text = machine.text(operand)?.clone()?;
    let slice = bytes_of_text(machine.alloc, &mut machine.store, &text)?;
    Ok(Value::slice(machine.alloc, slice)?)
}

fn text_to_runes(machine: &mut Machine<'_>, operand: &Arg) -> Result<Value, Met>
    ensures { IsMade result machine.old machine.new (conversion (machine_of machine.old) form.TextToRunes operand.now) }
{
    let text = machine.text(operand)?.clone()?;
    let slice = runes_of_text(machine.alloc, &mut machine.store, &text)?;
    Ok(Value::slice(machine.alloc, slice)?)
}

/// A value in an interface.
#[inline(never)]
pub fn make_interface(machine: &mut Machine<'_>, of: TypeId, operand: &Arg, to: u32) -> Turn
    ensures { Steps result machine.old machine.new (λ w. acts w (machine_of machine.old) (act.MakeInterface of operand.now to)) }
{
    let made = made_interface(machine, of, operand);
    machine.give(to, made)
}

fn made_interface(machine: &Machine<'_>, of: TypeId, operand: &Arg) -> Result<Value, Met>
    ensures { IsGiven result (with_one (machine_of machine.now) operand.now (λ inner. of_result (converted machine.now.code.now.types of inner))) }
{
    let value = machine.read(operand)?;
    Ok(to_interface(machine.alloc, &machine.code.types, of, value)?)
}

/// A function with the variables that it captures.
#[inline(never)]
pub fn closure(machine: &mut Machine<'_>, function: FuncId, captured: &[Arg], to: u32) -> Turn
    ensures { Steps result machine.old machine.new (λ w. gives w (machine_of machine.old) to (make_closure (machine_of machine.old) function captured.now)) }
{
    let made = made_closure(machine, function, captured);
    machine.give(to, made)
}

fn made_closure(machine: &Machine<'_>, function: FuncId, args: &[Arg]) -> Result<Value, Met>
    ensures { IsGiven result (make_closure (machine_of machine.now) function args.now) }
{
    let captured = addresses(machine, args)?;
    let closure = FuncValue::Closure { function, captured };
    Ok(Value::function(machine.alloc, closure)?)
}

/// The addresses that operands are.
fn addresses(machine: &Machine<'_>, args: &[Arg]) -> Result<Vec<Address>, NoMemory>
    ensures { IfOk result (λ it. look_at_all (machine_of machine.now) args.now ≡ Some (map vals.pointer it.items)) }
{
    let mut captured = Vec::with_capacity(machine.alloc, args.len())?;
    for arg in args {
        let address = machine.address(arg)?.copy()?;
        captured.push(address)?;
    }
    Ok(captured)
}

/// A method with its receiver.
#[inline(never)]
pub fn bind(
    machine: &mut Machine<'_>,
    target: BoundTarget,
    is_interface: bool,
    receiver: &Arg,
    to: u32,
) -> Turn
    ensures { Steps result machine.old machine.new (λ w. acts w (machine_of machine.old) (act.Bind target is_interface receiver.now to)) }
{
    let made = bound_method(machine, target, is_interface, receiver);
    machine.give(to, made)
}

fn bound_method(
    machine: &Machine<'_>,
    target: BoundTarget,
    is_interface: bool,
    receiver: &Arg,
) -> Result<Value, Met>
    ensures { IsGiven result (with_one (machine_of machine.now) receiver.now (steps.bind target is_interface)) }
{
    let receiver = machine.read(receiver)?;
    if is_nil_interface(is_interface, &receiver) {
        return Err(Met::Fault(Fault::NilPointer));
    }
    Ok(go_value::bind(machine.alloc, target, receiver)?)
}

/// Whether a value of a type, which is one of interfaces or is none, is a nil interface.
fn is_nil_interface(is_interface: bool, value: &Value) -> bool
    ensures { result ≡ is_nil_of is_interface (value_of value.now) }
{
    is_interface && is_nil(value)
}

fn is_nil(value: &Value) -> bool
    ensures { result ≡ is_nil_of true (value_of value.now) }
{
    match value {
        Value::NilInterface => true,
        Value::Truth(_)
        | Value::Int(_)
        | Value::Text(_)
        | Value::Pointer(_)
        | Value::Slice(_)
        | Value::Map(_)
        | Value::Chan(_)
        | Value::Func(_)
        | Value::Interface(_)
        | Value::Parts(_)
        | Value::Iter(_) => false,
    }
}

/// A value in an interface as one of a type.
#[inline(never)]
pub fn assert(machine: &mut Machine<'_>, step: &Step) -> Turn
    ensures { Steps result machine.old machine.new (λ w. acts w (machine_of machine.old) step.now) }
{
    match step {
        Step::Assert {
            operand,
            wanted,
            zero,
            comma_ok,
            to,
        } => {
            let asserted = asserted(machine, operand, *wanted, zero, *comma_ok);
            machine.give(*to, asserted)
        }
        _ => Turn::WantsMemory,
    }
}

fn asserted(
    machine: &mut Machine<'_>,
    operand: &Arg,
    wanted: TypeId,
    zero: &Value,
    comma_ok: bool,
) -> Result<Value, Met>
    ensures given { (w : World) → IsIn w machine.old → IsGiven result (with_one (machine_of machine.old) operand.now (λ it. making.assertion comma_ok it wanted (steps.held_as w it wanted) (value_of zero.now))) }
    ensures unseen { IsUnseen machine.old machine.new }
{
    let value = machine.read(operand)?;
    asserted_value(machine, &value, wanted, zero, comma_ok)
}

fn asserted_value(
    machine: &mut Machine<'_>,
    value: &Value,
    wanted: TypeId,
    zero: &Value,
    comma_ok: bool,
) -> Result<Value, Met>
    ensures given { (w : World) → IsIn w machine.old → IsGiven result (making.assertion comma_ok (value_of value.now) wanted (steps.held_as w (value_of value.now) wanted) (value_of zero.now)) }
    ensures unseen { IsUnseen machine.old machine.new }
{
    let held = as_type(machine, value, wanted)?;
    assertion(machine, value, wanted, held, zero, comma_ok)
}

fn assertion(
    machine: &Machine<'_>,
    value: &Value,
    wanted: TypeId,
    held: Option<Value>,
    zero: &Value,
    comma_ok: bool,
) -> Result<Value, Met>
    ensures { IsGiven result (making.assertion comma_ok (value_of value.now) wanted (option_map value_of held) (value_of zero.now)) }
{
    match held {
        Some(held) => Ok(machine.with_ok_where(comma_ok, held, true)?),
        None => {
            if comma_ok {
                Ok(machine.with_ok(zero.copy(machine.alloc)?, false)?)
            } else {
                Err(Met::Fault(assertion_fault(value, wanted)))
            }
        }
    }
}

/// A value in an interface as one of a type. None where it is none.
fn as_type(
    machine: &mut Machine<'_>,
    value: &Value,
    wanted: TypeId,
) -> Result<Option<Value>, NoMemory>
    ensures held { (w : World) → IsIn w machine.old → IfOk result (λ it. option_map value_of it ≡ steps.held_as w (value_of value.now) wanted) }
    ensures unseen { IsUnseen machine.old machine.new }
{
    let Some(dynamic) = interface_of(value) else {
        return Ok(None);
    };
    let of = dynamic.of();
    if of == wanted {
        return Ok(Some(dynamic.value().copy(machine.alloc)?));
    }
    as_interface(machine, value, of, wanted)
}

/// A value in an interface, with its type, as one of another type. None where that is no type of interfaces, or is not
/// implemented.
fn as_interface(
    machine: &mut Machine<'_>,
    value: &Value,
    of: TypeId,
    wanted: TypeId,
) -> Result<Option<Value>, NoMemory>
    ensures held { (w : World) → IsIn w machine.old → IfOk result (λ it. option_map value_of it ≡ (if is_interface_type w.naming.types wanted then (if w.answers.implements of wanted then Some (value_of value.now) else None) else None)) }
    ensures unseen { IsUnseen machine.old machine.new }
{
    if !is_interface(machine, wanted) {
        return Ok(None);
    }
    if !machine.implements(of, wanted)? {
        return Ok(None);
    }
    Ok(Some(value.copy(machine.alloc)?))
}

fn is_interface(machine: &Machine<'_>, of: TypeId) -> bool
    ensures { result ≡ is_interface_type machine.now.code.now.types of }
{
    matches!(
        machine.code.types.underlying_term(of),
        Some(TypeTerm::Interface(_))
    )
}

/// What an interface holds. None where a value is none, or nil.
fn interface_of(value: &Value) -> Option<&Dynamic>
    ensures some { IfSome result (λ it. value_of value.now ≡ vals.dynamic it.now.of it.now.value) }
    ensures none { IfNone result (dynamic_type (value_of value.now) ≡ None) }
{
    match value {
        Value::Interface(dynamic) => Some(dynamic),
        Value::Truth(_)
        | Value::Int(_)
        | Value::Text(_)
        | Value::Pointer(_)
        | Value::Slice(_)
        | Value::Map(_)
        | Value::Chan(_)
        | Value::Func(_)
        | Value::NilInterface
        | Value::Parts(_)
        | Value::Iter(_) => None,
    }
}
