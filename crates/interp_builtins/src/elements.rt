//! What built-in functions do with the elements of slices and the entries of maps.

ghost use Rattle.std.specs.Prelude.{◌≡◌, ◌+◌, ◌<◌, ◌∷◌, [], Bool, Some, IfOk, IfErr, OnOk, length, map, option_map, replicate};
ghost use Rattle.go_store.specs.Conversions.{numbers_of};
ghost use Rattle.go_store.specs.Slices.{elements_of, last_step, later};
ghost use Rattle.go_store.specs.Stores.{loaded, stored};
ghost use Rattle.go_base.specs.declared.ids.TypeId.{TypeId};
ghost use Rattle.go_maps.specs.Equality.{TellsComparable};
ghost use Rattle.go_value.specs.Address.{settled};
ghost use Rattle.go_value.specs.Values as vals;
ghost use Rattle.go_value.specs.Values.{value_of};
ghost use Rattle.interp_builtins.specs.Done.{IsDoneIn};
ghost use Rattle.plan_mean.specs.BuiltIns as meant;
ghost use Rattle.plan_mean.specs.MapCalls.{deleted};
ghost use Rattle.ssa_mean.specs.Answers.{Answers};
ghost use Rattle.ssa_mean.specs.BuiltIns as calls;
ghost use Rattle.ssa_mean.specs.BuiltIns.{append_all, append_items, changes, copy_from, overwritten_from};
ghost use Rattle.ssa_mean.specs.Comes.{to, then_to};

use go_base::{Bytes, MapId, NoMemory};
use go_store::{Store, element};
use go_type::Types;
use go_value::{SliceValue, Value, ValueError};
use interp_state::{Met, lost};
use std::alloc::Global;

/// A slice, which is a value, with items behind its elements.
pub(crate) fn append_values(
    alloc: Global,
    store: &mut Store,
    leaves: u32,
    slice: &Value,
    items: &[Value],
) -> Result<Option<Value>, Met>
    ensures { IsDoneIn result (stored store.old) (stored store.new) (append_items leaves (stored store.old) (value_of slice.now ∷ map value_of items.now)) }
{
    match slice {
        Value::Slice(slice) => append_to(alloc, store, leaves, slice, items),
        _ => Err(Met::Memory),
    }
}

/// A slice with the elements of another, or with the bytes of a text, behind its own.
pub(crate) fn append_more(
    alloc: Global,
    store: &mut Store,
    leaves: u32,
    slice: &Value,
    more: &Value,
) -> Result<Option<Value>, Met>
    ensures { IsDoneIn result (stored store.old) (stored store.new) (calls.append_elements leaves (stored store.old) (value_of slice.now ∷ value_of more.now ∷ [])) }
{
    match (slice, more) {
        (Value::Slice(slice), Value::Slice(more)) => {
            append_elements(alloc, store, leaves, slice, more)
        }
        (Value::Slice(slice), Value::Text(text)) => append_bytes(alloc, store, leaves, slice, text),
        _ => Err(Met::Memory),
    }
}

/// The first elements of a slice become those of another, or the bytes of a text.
pub(crate) fn copy_values(
    alloc: Global,
    store: &mut Store,
    to: &Value,
    from: &Value,
) -> Result<Option<Value>, Met>
    ensures { IsDoneIn result (stored store.old) (stored store.new) (calls.copy (stored store.old) (value_of to.now ∷ value_of from.now ∷ [])) }
{
    match (to, from) {
        (Value::Slice(to), Value::Slice(from)) => copy_elements(store, to, from),
        (Value::Slice(to), Value::Text(text)) => copy_bytes(alloc, store, to, text),
        _ => Err(Met::Memory),
    }
}

/// Each element of a slice becomes the zero value.
pub(crate) fn clear_value(
    alloc: Global,
    store: &mut Store,
    slice: &Value,
    zero: &Value,
) -> Result<Option<Value>, Met>
    ensures { IsDoneIn result (stored store.old) (stored store.new) (calls.clear_slice (stored store.old) (value_of zero.now) (value_of slice.now ∷ [])) }
{
    match slice {
        Value::Slice(slice) => put_everywhere(alloc, store, slice, zero),
        _ => Err(Met::Memory),
    }
}

/// The entry of a key of a map goes.
pub(crate) fn delete_in(
    types: &Types,
    store: &mut Store,
    map: &Value,
    key: &Value,
) -> Result<Option<Value>, Met>
    ensures { (answers : Answers) → TellsComparable types.now answers.comparable → IsDoneIn result (stored store.old) (stored store.new) (meant.delete answers (stored store.old) (value_of map.now ∷ value_of key.now ∷ [])) }
{
    match map {
        Value::Map(map) => delete_key(types, store, *map, key),
        _ => Err(Met::Memory),
    }
}

/// A slice with items behind its elements.
fn append_to(
    alloc: Global,
    store: &mut Store,
    leaves: u32,
    slice: &SliceValue,
    items: &[Value],
) -> Result<Option<Value>, Met>
    ensures { IsDoneIn result (stored store.old) (stored store.new) (calls.append leaves (stored store.old) slice.now (map value_of items.now)) }
{
    match store.append(leaves, slice, items) {
        Ok(appended) => slice_of(alloc, appended),
        Err(ValueError::Fault(fault)) => Err(Met::Fault(fault)),
        Err(ValueError::OutOfMemory) => Err(Met::Memory),
    }
}

fn slice_of(alloc: Global, slice: SliceValue) -> Result<Option<Value>, Met>
    ensures value { IfOk result (λ it. option_map value_of it ≡ Some (vals.slice slice)) }
    ensures lost { IfErr result (λ met. met ≡ Met.Memory) }
{
    match Value::slice(alloc, slice) {
        Ok(value) => Ok(Some(value)),
        Err(_) => Err(Met::Memory),
    }
}

/// A slice with the elements of another behind its own.
fn append_elements(
    alloc: Global,
    store: &mut Store,
    leaves: u32,
    slice: &SliceValue,
    more: &SliceValue,
) -> Result<Option<Value>, Met>
    ensures { IsDoneIn result (stored store.old) (stored store.new) (append_all leaves (stored store.old) slice.now (vals.slice more.now)) }
{
    match elements(alloc, store, more) {
        Ok(items) => append_to(alloc, store, leaves, slice, items.as_slice()),
        Err(_) => Err(Met::Memory),
    }
}

/// A slice with the bytes of a text behind its elements.
fn append_bytes(
    alloc: Global,
    store: &mut Store,
    leaves: u32,
    slice: &SliceValue,
    text: &Bytes,
) -> Result<Option<Value>, Met>
    ensures { IsDoneIn result (stored store.old) (stored store.new) (append_all leaves (stored store.old) slice.now (vals.text text.now)) }
{
    match byte_values(alloc, text.as_slice()) {
        Ok(items) => append_to(alloc, store, leaves, slice, items.as_slice()),
        Err(_) => Err(Met::Memory),
    }
}

/// The elements of a slice.
fn elements(alloc: Global, store: &Store, slice: &SliceValue) -> Result<Vec<Value>, NoMemory>
    ensures { IfOk result (λ items. elements_of (stored store.now) slice.now ≡ Some (map value_of items.items)) }
{
    let mut items = Vec::new(alloc);
    if slice.len > most_places(slice) {
        return Err(lost());
    }
    for index in 0..slice.len {
        items.push(element_at(alloc, store, slice, index)?)?;
    }
    Ok(items)
}

/// How many places a pointer can reach from the first element of a slice on.
fn most_places(slice: &SliceValue) -> u64
    ensures { 0 < result → (0 < length slice.now.at.path) × (last_step slice.now.at + result < 4294967296) }
{
    match slice.at.path.as_slice().last() {
        Some(first) => u64::from(u32::MAX - *first),
        None => 0,
    }
}

fn element_at(
    alloc: Global,
    store: &Store,
    slice: &SliceValue,
    index: u64,
) -> Result<Value, NoMemory>
    ensures { IfOk result (λ it. index < slice.now.len → loaded (stored store.now) (settled (later slice.now.at index)) ≡ Some (value_of it)) }
{
    match element(alloc, slice, i128::from(index)) {
        Ok(address) => match store.load_at(alloc, &address) {
            Ok(item) => Ok(item),
            Err(_) => Err(lost()),
        },
        Err(_) => Err(lost()),
    }
}

/// Bytes as values.
fn byte_values(alloc: Global, bytes: &[u8]) -> Result<Vec<Value>, NoMemory>
    ensures { IfOk result (λ items. map value_of items.items ≡ map vals.number (numbers_of bytes.now)) }
{
    let mut items = Vec::new(alloc);
    for byte in bytes {
        items.push(Value::Int(i128::from(*byte)))?;
    }
    Ok(items)
}

/// The elements of one slice become those of another, as many as the shorter one has.
fn copy_elements(
    store: &mut Store,
    to: &SliceValue,
    from: &SliceValue,
) -> Result<Option<Value>, Met>
    ensures { IsDoneIn result (stored store.old) (stored store.new) (copy_from (stored store.old) to.now (vals.slice from.now)) }
{
    match store.copy_items(to, from) {
        Ok(count) => Ok(Some(Value::Int(i128::from(count)))),
        Err(_) => Err(Met::Memory),
    }
}

/// The first elements of a slice become the bytes of a text, as many as the shorter one has.
fn copy_bytes(
    alloc: Global,
    store: &mut Store,
    to: &SliceValue,
    text: &Bytes,
) -> Result<Option<Value>, Met>
    ensures { IsDoneIn result (stored store.old) (stored store.new) (copy_from (stored store.old) to.now (vals.text text.now)) }
{
    let count = text.len().min(to.len as usize);
    let (bytes, _) = text.as_slice().split_at(count);
    match byte_values(alloc, bytes) {
        Ok(items) => match put_first(alloc, store, to, items.as_slice()) {
            Ok(()) => Ok(Some(Value::Int(count as i128))),
            Err(_) => Err(Met::Memory),
        },
        Err(_) => Err(Met::Memory),
    }
}

/// Each element of a slice gets a value.
fn put_everywhere(
    alloc: Global,
    store: &mut Store,
    slice: &SliceValue,
    value: &Value,
) -> Result<Option<Value>, Met>
    ensures { IsDoneIn result (stored store.old) (stored store.new) (to (changes (overwritten_from (stored store.old) slice.now (replicate slice.now.len (value_of value.now))))) }
{
    match copies(alloc, value, slice.len) {
        Ok(items) => match put_first(alloc, store, slice, items.as_slice()) {
            Ok(()) => Ok(None),
            Err(_) => Err(Met::Memory),
        },
        Err(_) => Err(Met::Memory),
    }
}

/// So many copies of a value.
fn copies(alloc: Global, value: &Value, count: u64) -> Result<Vec<Value>, NoMemory>
    ensures { IfOk result (λ items. map value_of items.items ≡ replicate count (value_of value.now)) }
{
    let mut items = Vec::new(alloc);
    for _ in 0..count {
        items.push(value.copy(alloc)?)?;
    }
    Ok(items)
}

/// The first elements of a slice become other values.
fn put_first(
    alloc: Global,
    store: &mut Store,
    slice: &SliceValue,
    items: &[Value],
) -> Result<(), NoMemory>
    ensures { OnOk result (stored store.new ≡ overwritten_from (stored store.old) slice.now (map value_of items.now)) }
{
    let room = SliceValue {
        at: slice.at.copy(alloc)?,
        len: 0,
        cap: items.len() as u64,
    };
    match store.append(1, &room, items) {
        Ok(_) => Ok(()),
        Err(_) => Err(lost()),
    }
}

/// The entry of a key goes.
fn delete_key(
    types: &Types,
    store: &mut Store,
    map: Option<MapId>,
    key: &Value,
) -> Result<Option<Value>, Met>
    ensures { (test : TypeId → Bool) → TellsComparable types.now test → IsDoneIn result (stored store.old) (stored store.new) (then_to changes (deleted test (stored store.old) map (value_of key.now))) }
{
    match store.map_remove(types, map, key) {
        Ok(()) => Ok(None),
        Err(ValueError::Fault(fault)) => Err(Met::Fault(fault)),
        Err(ValueError::OutOfMemory) => Err(Met::Memory),
    }
}
