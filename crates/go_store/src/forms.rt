//! The two forms of arrays of integers: in a byte each, and in 16 bytes each.

ghost use Rattle.std.specs.Prelude.{◌≡◌, ◌++◌, IfOk, IfSome, OnOk, map, pos};
ghost use Rattle.go_store.specs.Cells.{held, packed};

use crate::cells::Cell;
use crate::memory::lost;
use go_base::NoMemory;
use std::alloc::Global;

/// The integers of an array of bytes.
#[tactic(auto, using(crate::proofs::Held::bytes_are))]
pub(crate) fn ints_of(alloc: Global, array: &Cell) -> Result<Vec<i128>, NoMemory>
    ensures { IfOk result (λ ints. packed ints.items ≡ held array.now) }
{
    match array {
        Cell::Bytes(bytes) => wide(alloc, bytes.as_slice()),
        _ => Err(lost()),
    }
}

fn wide(alloc: Global, bytes: &[u8]) -> Result<Vec<i128>, NoMemory>
    ensures { IfOk result (λ ints. ints.items ≡ map pos bytes.now) }
{
    let mut ints = Vec::with_capacity(alloc, bytes.len())?;
    widen_onto(&mut ints, bytes)?;
    Ok(ints)
}

/// Adds bytes to integers.
pub(crate) fn widen_onto(ints: &mut Vec<i128>, bytes: &[u8]) -> Result<(), NoMemory>
    ensures { OnOk result (ints.new.items ≡ ints.old.items ++ map pos bytes.now) }
{
    for byte in bytes {
        ints.push(i128::from(*byte))?;
    }
    Ok(())
}

/// The bytes of an array of integers. None where one is no byte.
#[tactic(auto, using(crate::proofs::Held::ints_are))]
fn bytes_of(alloc: Global, array: &Cell) -> Result<Option<Vec<u8>>, NoMemory>
    ensures { IfOk result (λ found. IfSome found (λ bytes. packed (map pos bytes.items) ≡ held array.now)) }
{
    match array {
        Cell::Ints(ints) if are_bytes(ints.as_slice()) => Ok(Some(narrow(alloc, ints.as_slice())?)),
        _ => Ok(None),
    }
}

/// Whether integers are bytes.
pub(crate) fn are_bytes(ints: &[i128]) -> bool {
    for number in ints {
        if u8::try_from(*number).is_err() {
            return false;
        }
    }
    true
}

fn narrow(alloc: Global, ints: &[i128]) -> Result<Vec<u8>, NoMemory>
    ensures { IfOk result (λ bytes. map pos bytes.items ≡ ints.now) }
{
    let mut bytes = Vec::with_capacity(alloc, ints.len())?;
    narrow_onto(&mut bytes, ints)?;
    Ok(bytes)
}

/// Adds integers, which are bytes, to bytes.
pub(crate) fn narrow_onto(bytes: &mut Vec<u8>, ints: &[i128]) -> Result<(), NoMemory>
    ensures { OnOk result (map pos bytes.new.items ≡ map pos bytes.old.items ++ ints.now) }
{
    for number in ints {
        match u8::try_from(*number) {
            Ok(byte) => bytes.push(byte)?,
            Err(_) => return Err(lost()),
        }
    }
    Ok(())
}

/// An array of bytes keeps 16 bytes an integer from now on.
#[tactic(auto, using(crate::proofs::Held::ints_are))]
pub(crate) fn widen(alloc: Global, array: &mut Cell) -> Result<(), NoMemory>
    ensures { held array.new ≡ held array.old }
{
    if is_bytes(array) {
        let ints = ints_of(alloc, array)?;
        *array = Cell::Ints(ints);
    }
    Ok(())
}

/// An array of integers keeps a byte for each from now on, where each is a byte.
#[tactic(auto, using(crate::proofs::Held::bytes_are))]
fn narrow_where_bytes(alloc: Global, array: &mut Cell) -> Result<(), NoMemory>
    ensures { held array.new ≡ held array.old }
{
    if let Some(bytes) = bytes_of(alloc, array)? {
        *array = Cell::Bytes(bytes);
    }
    Ok(())
}

/// Two arrays of integers get one form: that of the first, where it can hold both.
pub(crate) fn make_alike(alloc: Global, array: &mut Cell, other: &mut Cell) -> Result<(), NoMemory>
    ensures array { held array.new ≡ held array.old }
    ensures other { held other.new ≡ held other.old }
{
    if is_bytes(array) && is_ints(other) {
        narrow_where_bytes(alloc, other)?;
    }
    if is_bytes(array) && is_ints(other) {
        widen(alloc, array)?;
    }
    if is_ints(array) && is_bytes(other) {
        widen(alloc, other)?;
    }
    Ok(())
}

/// Whether a cell is an array of integers in one of the two forms.
pub(crate) fn is_packed(cell: &Cell) -> bool {
    is_bytes(cell) || is_ints(cell)
}

fn is_bytes(cell: &Cell) -> bool {
    match cell {
        Cell::Bytes(_) => true,
        _ => false,
    }
}

fn is_ints(cell: &Cell) -> bool {
    match cell {
        Cell::Ints(_) => true,
        _ => false,
    }
}
