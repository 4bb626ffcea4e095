//! Keys of maps, as bytes. Two keys of one type have the same bytes where they are equal.

ghost use Rattle.std.specs.Prelude.{◌≡◌, ◌++◌, ◌∷◌, [], Bool, IfOk, length};
ghost use Rattle.go_base.specs.declared.ids.TypeId.{TypeId};
ghost use Rattle.go_value.specs.Values.{value_of, parts_of, dynamic, chan_number, number as number_value};
ghost use Rattle.go_maps.specs.Keys.{code, parts_code, number_code, steps_code, pointer_code, Hashes, HashesIn, HashesPart, part_code};

use crate::equality::is_comparable;
use crate::memory::lost;
use go_base::{ChanId, NoMemory};
use go_type::Types;
use go_value::{Address, Dynamic, Fault, Part, Value, ValueError};
use std::alloc::Global;

/// The bytes of a key. `Unhashable` exactly where an interface in it holds a value of a type that is not comparable.
pub(crate) fn key_bytes(alloc: Global, types: &Types, key: &Value) -> Result<Vec<u8>, ValueError>
    ensures code { IfOk result (λ bytes. bytes.items ≡ code (value_of key.now)) }
    ensures fault { Hashes types.now (value_of key.now) result }
{
    let mut bytes = Vec::new(alloc);
    push_key(alloc, types, key, &mut bytes)?;
    Ok(bytes)
}

#[cycle(key)]
fn push_key(
    alloc: Global,
    types: &Types,
    key: &Value,
    bytes: &mut Vec<u8>,
) -> Result<(), ValueError>
    ensures code { IfOk result (λ _. bytes.new.items ≡ bytes.old.items ++ code (value_of key.now)) }
    ensures fault { Hashes types.now (value_of key.now) result }
{
    match key {
        Value::Interface(dynamic) => push_dynamic(alloc, types, dynamic, bytes),
        Value::Parts(parts) => push_parts(alloc, types, parts.as_slice(), bytes),
        _ => Ok(push_leaf(alloc, key, bytes)?),
    }
}

#[cycle(key)]
fn push_dynamic(
    alloc: Global,
    types: &Types,
    held: &Dynamic,
    bytes: &mut Vec<u8>,
) -> Result<(), ValueError>
    ensures code { IfOk result (λ _. bytes.new.items ≡ bytes.old.items ++ code (dynamic held.now.of held.now.value)) }
    ensures fault { Hashes types.now (dynamic held.now.of held.now.value) result }
{
    if !is_comparable(types, held.of()) {
        return Err(ValueError::Fault(Fault::Unhashable(held.of())));
    }
    push_byte(bytes, 1)?;
    push_number(bytes, held.of().number)?;
    push_key(alloc, types, held.value(), bytes)
}

#[cycle(key)]
fn push_parts(
    alloc: Global,
    types: &Types,
    parts: &[Part],
    bytes: &mut Vec<u8>,
) -> Result<(), ValueError>
    ensures code { IfOk result (λ _. bytes.new.items ≡ bytes.old.items ++ parts_code (parts_of parts.now)) }
    ensures fault { HashesIn types.now (parts_of parts.now) result }
{
    for part in parts {
        push_part(alloc, types, part, bytes)?;
    }
    Ok(())
}

/// Fields named `_` are left out.
#[cycle(key)]
fn push_part(
    alloc: Global,
    types: &Types,
    part: &Part,
    bytes: &mut Vec<u8>,
) -> Result<(), ValueError>
    ensures code { IfOk result (λ _. bytes.new.items ≡ bytes.old.items ++ part_code part.now) }
    ensures fault { HashesPart types.now part.now result }
{
    if part.blank {
        return Ok(());
    }
    push_key(alloc, types, &part.value, bytes)
}

fn push_leaf(alloc: Global, key: &Value, bytes: &mut Vec<u8>) -> Result<(), NoMemory>
    ensures { IfOk result (λ _. bytes.new.items ≡ bytes.old.items ++ code (value_of key.now)) }
{
    match key {
        Value::NilInterface => push_byte(bytes, 0),
        Value::Truth(false) => push_byte(bytes, 0),
        Value::Truth(true) => push_byte(bytes, 1),
        Value::Int(number) => push_int(bytes, *number),
        Value::Text(text) => push_text(bytes, text.as_slice()),
        Value::Chan(chan) => push_chan(bytes, *chan),
        Value::Pointer(address) => push_address(alloc, address, bytes),
        _ => Err(lost()),
    }
}

fn push_byte(bytes: &mut Vec<u8>, byte: u8) -> Result<(), NoMemory>
    ensures { IfOk result (λ _. bytes.new.items ≡ bytes.old.items ++ byte ∷ []) }
{
    bytes.push(byte)?;
    Ok(())
}

fn push_int(bytes: &mut Vec<u8>, number: i128) -> Result<(), NoMemory>
    ensures { IfOk result (λ _. bytes.new.items ≡ bytes.old.items ++ code (number_value number)) }
{
    bytes.extend_from_slice(&number.to_le_bytes())?;
    Ok(())
}

fn push_text(bytes: &mut Vec<u8>, text: &[u8]) -> Result<(), NoMemory>
    ensures { IfOk result (λ _. bytes.new.items ≡ bytes.old.items ++ (number_code (length text.now) ++ text.now)) }
{
    push_number(bytes, text.len() as u64)?;
    bytes.extend_from_slice(text)?;
    Ok(())
}

fn push_chan(bytes: &mut Vec<u8>, chan: Option<ChanId>) -> Result<(), NoMemory>
    ensures { IfOk result (λ _. bytes.new.items ≡ bytes.old.items ++ code (chan_number chan)) }
{
    let Some(chan) = chan else {
        return push_byte(bytes, 0);
    };
    push_byte(bytes, 1)?;
    push_number(bytes, chan.number)
}

fn push_address(alloc: Global, address: &Address, bytes: &mut Vec<u8>) -> Result<(), NoMemory>
    ensures { IfOk result (λ _. bytes.new.items ≡ bytes.old.items ++ pointer_code address.now.cell address.now.path) }
{
    let pointer = address.pointer(alloc)?;
    let Some(cell) = pointer.cell else {
        return push_byte(bytes, 0);
    };
    push_byte(bytes, 1)?;
    push_number(bytes, cell.number)?;
    push_number(bytes, pointer.path.len() as u64)?;
    push_steps(bytes, pointer.path.as_slice())
}

fn push_steps(bytes: &mut Vec<u8>, steps: &[u32]) -> Result<(), NoMemory>
    ensures { IfOk result (λ _. bytes.new.items ≡ bytes.old.items ++ steps_code steps.now) }
{
    for step in steps {
        push_number(bytes, u64::from(*step))?;
    }
    Ok(())
}

fn push_number(bytes: &mut Vec<u8>, number: u64) -> Result<(), NoMemory>
    ensures { IfOk result (λ _. bytes.new.items ≡ bytes.old.items ++ number_code number) }
{
    bytes.extend_from_slice(&number.to_le_bytes())?;
    Ok(())
}
