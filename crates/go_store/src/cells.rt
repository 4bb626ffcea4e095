//! Cells: what a store writes in place.

ghost use Rattle.std.specs.Prelude.{◌≡◌, IfOk, IfSome, ◌<◌, ℕ, pos, length, slice_index_or, IsTrue, map};
ghost use Rattle.go_value.specs.Values.{value_of, parts_of, Field};
ghost use Rattle.go_value.specs.Values as vals;
ghost use Rattle.go_store.specs.Cells.{held, packed, packed_bytes, place_of, plain_number, IsPlain};

use crate::leaves::{Leaf, integer};
use go_base::NoMemory;
use go_value::{Part, Value};
use std::alloc::Global;

/// A cell, or a part of one. Parts of a value stand one by one, and integers together: in a byte each where all are
/// below 256, and else in 16 bytes each.
#[cycle(cell)]
#[derive(Drop)]
pub(crate) enum Cell {
    One(Leaf),
    Ints(Vec<i128>),
    Many(Vec<Place>),
    Bytes(Vec<u8>),
}

/// The fewest parts of a value that are kept as bytes. Fewer are mostly the fields of a struct, which soon get larger
/// integers.
const LEAST_BYTES: usize = 16;

#[cycle(cell)]
#[derive(Drop)]
pub(crate) struct Place {
    pub(crate) cell: Cell,
    pub(crate) blank: bool,
}

/// A cell that holds a value.
#[tactic(auto, using(crate::proofs::Held::one_is))]
pub(crate) fn cell_of(alloc: Global, value: Value) -> Result<Cell, NoMemory>
    ensures { IfOk result (λ cell. held cell ≡ value_of value) }
{
    match &value {
        Value::Parts(parts) => cell_of_parts(alloc, parts.as_slice()),
        _ => Ok(Cell::One(Leaf { value })),
    }
}

/// A cell that holds a copy of a value.
#[cycle(unpack)]
#[tactic(auto, using(crate::proofs::Held::one_is))]
pub(crate) fn cell_of_copy(alloc: Global, value: &Value) -> Result<Cell, NoMemory>
    ensures { IfOk result (λ cell. held cell ≡ value_of value.now) }
{
    match value {
        Value::Parts(parts) => cell_of_parts(alloc, parts.as_slice()),
        _ => Ok(Cell::One(Leaf {
            value: value.copy(alloc)?,
        })),
    }
}

#[cycle(unpack)]
#[tactic(auto, using(crate::proofs::Held::many_are))]
fn cell_of_parts(alloc: Global, parts: &[Part]) -> Result<Cell, NoMemory>
    ensures { IfOk result (λ cell. held cell ≡ vals.parts (parts_of parts.now)) }
{
    if let Some(packed) = packed_cell(alloc, parts)? {
        return Ok(packed);
    }
    let mut places = Vec::with_capacity(alloc, parts.len())?;
    for part in parts {
        let cell = cell_of_copy(alloc, &part.value)?;
        places.push(Place {
            cell,
            blank: part.blank,
        })?;
    }
    Ok(Cell::Many(places))
}

/// The cell of parts that are integers, and none a field named `_`. None where they are not.
#[tactic(auto, using(crate::proofs::Held::bytes_are))]
fn packed_cell(alloc: Global, parts: &[Part]) -> Result<Option<Cell>, NoMemory>
    ensures { IfOk result (λ found. IfSome found (λ cell. held cell ≡ vals.parts (parts_of parts.now))) }
{
    if parts.len() >= LEAST_BYTES {
        if let Some(bytes) = bytes_of_parts(alloc, parts)? {
            return Ok(Some(Cell::Bytes(bytes)));
        }
    }
    if are_ints(parts) {
        return Ok(Some(cell_of_ints(alloc, parts)?));
    }
    Ok(None)
}

/// Whether parts are integers, and none is a field named `_`.
fn are_ints(parts: &[Part]) -> bool
    ensures { IsTrue result → (k : ℕ) (d : Field) → k < length parts.now → IsPlain (slice_index_or parts.now k d) }
{
    for part in parts {
        if part.blank || integer(&part.value).is_none() {
            return false;
        }
    }
    !parts.is_empty()
}

#[tactic(auto, using(crate::proofs::Held::ints_are))]
fn cell_of_ints(alloc: Global, parts: &[Part]) -> Result<Cell, NoMemory>
    requires { (k : ℕ) (d : Field) → k < length parts.now → IsPlain (slice_index_or parts.now k d) }
    ensures { IfOk result (λ cell. held cell ≡ vals.parts (parts_of parts.now)) }
{
    let mut ints = Vec::with_capacity(alloc, parts.len())?;
    for part in parts {
        match integer(&part.value) {
            Some(number) => ints.push(number)?,
            None => {}
        }
    }
    Ok(Cell::Ints(ints))
}

/// The integer below 256 that a part is. None where it is none, or a field named `_`.
fn byte_of_part(part: &Part) -> Option<u8>
    ensures { IfSome result (λ byte. part.now ≡ plain_number (pos byte)) }
{
    if part.blank {
        return None;
    }
    let number = integer(&part.value)?;
    match u8::try_from(number) {
        Ok(byte) => Some(byte),
        Err(_) => None,
    }
}

/// The integers below 256 that parts are. None where one is none, or a field named `_`.
fn bytes_of_parts(alloc: Global, parts: &[Part]) -> Result<Option<Vec<u8>>, NoMemory>
    ensures { IfOk result (λ found. IfSome found (λ bytes. packed_bytes bytes.items ≡ vals.parts (parts_of parts.now))) }
{
    let mut bytes = Vec::with_capacity(alloc, parts.len())?;
    for part in parts {
        match byte_of_part(part) {
            Some(byte) => bytes.push(byte)?,
            None => return Ok(None),
        }
    }
    Ok(Some(bytes))
}

/// The value that a cell holds.
#[cycle(pack)]
#[tactic(auto, using(crate::proofs::Held::of_forms))]
pub(crate) fn whole(alloc: Global, cell: &Cell) -> Result<Value, NoMemory>
    ensures { IfOk result (λ value. value_of value ≡ held cell.now) }
{
    match cell {
        Cell::One(leaf) => leaf.value.copy(alloc),
        Cell::Ints(ints) => whole_ints(alloc, ints.as_slice()),
        Cell::Many(places) => whole_places(alloc, places.as_slice()),
        Cell::Bytes(bytes) => whole_bytes(alloc, bytes.as_slice()),
    }
}

#[cycle(pack)]
fn whole_places(alloc: Global, places: &[Place]) -> Result<Value, NoMemory>
    ensures { IfOk result (λ value. value_of value ≡ vals.parts (parts_of (map place_of places.now))) }
{
    let mut parts = Vec::with_capacity(alloc, places.len())?;
    for place in places {
        let value = whole(alloc, &place.cell)?;
        parts.push(Part {
            value,
            blank: place.blank,
        })?;
    }
    Value::parts(alloc, parts)
}

fn whole_ints(alloc: Global, ints: &[i128]) -> Result<Value, NoMemory>
    ensures { IfOk result (λ value. value_of value ≡ packed ints.now) }
{
    let mut parts = Vec::with_capacity(alloc, ints.len())?;
    for number in ints {
        parts.push(Part::plain(Value::Int(*number)))?;
    }
    Value::parts(alloc, parts)
}

fn whole_bytes(alloc: Global, bytes: &[u8]) -> Result<Value, NoMemory>
    ensures { IfOk result (λ value. value_of value ≡ packed_bytes bytes.now) }
{
    let mut parts = Vec::with_capacity(alloc, bytes.len())?;
    for byte in bytes {
        parts.push(Part::plain(Value::Int(i128::from(*byte))))?;
    }
    Value::parts(alloc, parts)
}

/// The same cell once more.
#[cycle(again)]
#[tactic(auto, using(crate::proofs::Held::of_forms))]
pub(crate) fn copy_cell(alloc: Global, cell: &Cell) -> Result<Cell, NoMemory>
    ensures { IfOk result (λ copy. held copy ≡ held cell.now) }
{
    match cell {
        Cell::One(leaf) => Ok(Cell::One(leaf.copy(alloc)?)),
        Cell::Ints(ints) => Ok(Cell::Ints(Vec::from_slice(alloc, ints.as_slice())?)),
        Cell::Many(places) => copy_places(alloc, places.as_slice()),
        Cell::Bytes(bytes) => Ok(Cell::Bytes(Vec::from_slice(alloc, bytes.as_slice())?)),
    }
}

#[cycle(again)]
#[tactic(auto, using(crate::proofs::Held::many_are))]
fn copy_places(alloc: Global, places: &[Place]) -> Result<Cell, NoMemory>
    ensures { IfOk result (λ copy. held copy ≡ vals.parts (parts_of (map place_of places.now))) }
{
    let mut copies = Vec::with_capacity(alloc, places.len())?;
    for place in places {
        let cell = copy_cell(alloc, &place.cell)?;
        copies.push(Place {
            cell,
            blank: place.blank,
        })?;
    }
    Ok(Cell::Many(copies))
}
