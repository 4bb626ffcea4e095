//! Parts of cells. Go specification, "Variables" and "Assignment statements".

ghost use Rattle.std.specs.Prelude.{◌≡◌, ◌∷◌, pos, Some, IfSome, IfOk, OnOk, OnErr, IsSome};
ghost use Rattle.go_value.specs.Kinds.{integer};
ghost use Rattle.go_value.specs.Values.{value_of};
ghost use Rattle.go_value.specs.Values as vals;
ghost use Rattle.go_store.specs.Cells.{held, packed, packed_bytes, read_at, written_at, integer_in};

use crate::cells::{Cell, whole};
use crate::forms::ints_of;
use crate::leaves::{Leaf, integer};
use crate::memory::lost;
use go_base::NoMemory;
use go_value::Value;
use std::alloc::Global;
use std::mem;

/// The value of a part of a cell.
pub(crate) fn read(alloc: Global, cell: &Cell, steps: &[u32]) -> Result<Value, NoMemory>
    ensures { IfOk result (λ value. read_at (held cell.now) steps.now ≡ Some (value_of value)) }
{
    let Some((step, rest)) = steps.split_first() else {
        return whole(alloc, cell);
    };
    match cell {
        Cell::Many(places) => match places.get(*step as usize) {
            Some(place) => read(alloc, &place.cell, rest),
            None => Err(lost()),
        },
        Cell::Ints(ints) => read_number(ints.as_slice(), *step, rest),
        Cell::Bytes(bytes) => read_byte(bytes.as_slice(), *step, rest),
        Cell::One(_) => Err(lost()),
    }
}

fn read_number(ints: &[i128], step: u32, rest: &[u32]) -> Result<Value, NoMemory>
    ensures { IfOk result (λ value. read_at (packed ints.now) (step ∷ rest.now) ≡ Some (value_of value)) }
{
    match number_at(ints, step, rest) {
        Some(number) => Ok(Value::Int(number)),
        None => Err(lost()),
    }
}

fn read_byte(bytes: &[u8], step: u32, rest: &[u32]) -> Result<Value, NoMemory>
    ensures { IfOk result (λ value. read_at (packed_bytes bytes.now) (step ∷ rest.now) ≡ Some (value_of value)) }
{
    match byte_at(bytes, step, rest) {
        Some(number) => Ok(Value::Int(number)),
        None => Err(lost()),
    }
}

/// The integer at a step. None where there is none, and where there are further steps.
fn number_at(ints: &[i128], step: u32, rest: &[u32]) -> Option<i128>
    ensures { result ≡ integer_in (read_at (packed ints.now) (step ∷ rest.now)) }
{
    if rest.is_empty() {
        ints.get(step as usize).copied()
    } else {
        None
    }
}

/// The integer at a step among bytes, as `number_at`.
fn byte_at(bytes: &[u8], step: u32, rest: &[u32]) -> Option<i128>
    ensures { result ≡ integer_in (read_at (packed_bytes bytes.now) (step ∷ rest.now)) }
{
    if !rest.is_empty() {
        return None;
    }
    match bytes.get(step as usize) {
        Some(byte) => Some(i128::from(*byte)),
        None => None,
    }
}

/// The integer that a part of a cell holds. None where it holds no integer.
pub(crate) fn read_int(cell: &Cell, steps: &[u32]) -> Option<i128>
    ensures { result ≡ integer_in (read_at (held cell.now) steps.now) }
{
    let Some((step, rest)) = steps.split_first() else {
        return whole_int(cell);
    };
    match cell {
        Cell::Many(places) => match places.get(*step as usize) {
            Some(place) => read_int(&place.cell, rest),
            None => None,
        },
        Cell::Ints(ints) => number_at(ints.as_slice(), *step, rest),
        Cell::Bytes(bytes) => byte_at(bytes.as_slice(), *step, rest),
        Cell::One(_) => None,
    }
}

/// The integer that a cell holds. None where it holds no integer.
#[tactic(auto, using(crate::proofs::Reached::of_integers))]
pub(crate) fn whole_int(cell: &Cell) -> Option<i128>
    ensures { result ≡ integer (held cell.now) }
{
    match cell {
        Cell::One(leaf) => integer(&leaf.value),
        Cell::Ints(_) | Cell::Many(_) | Cell::Bytes(_) => None,
    }
}

/// The part of a cell that the steps lead to. None where there is none that stands by itself.
pub(crate) fn part<'a>(cell: &'a Cell, steps: &[u32]) -> Option<&'a Cell>
    ensures { IfSome result (λ part. read_at (held cell.now) steps.now ≡ Some (held part.now)) }
{
    let Some((step, rest)) = steps.split_first() else {
        return Some(cell);
    };
    match cell {
        Cell::Many(places) => part(&places.get(*step as usize)?.cell, rest),
        Cell::Ints(_) | Cell::Bytes(_) | Cell::One(_) => None,
    }
}

/// Puts a new cell, which is no integer, in the place of a part; `new` holds what stood there after it.
pub(crate) fn write(cell: &mut Cell, steps: &[u32], new: &mut Cell) -> Result<(), NoMemory>
    ensures ok { OnOk result (held cell.new ≡ written_at (held new.old) (held cell.old) steps.now) }
    ensures there { OnOk result (IsSome (read_at (held cell.old) steps.now)) }
    ensures err { OnErr result (held cell.new ≡ held cell.old) }
{
    let Some((step, rest)) = steps.split_first() else {
        mem::swap(cell, new);
        return Ok(());
    };
    match cell {
        Cell::Many(places) => match places.get_mut(*step as usize) {
            Some(place) => write(&mut place.cell, rest, new),
            None => Err(lost()),
        },
        Cell::Ints(_) | Cell::Bytes(_) | Cell::One(_) => Err(lost()),
    }
}

/// Puts an integer in the place of a part.
pub(crate) fn write_int(
    alloc: Global,
    cell: &mut Cell,
    steps: &[u32],
    number: i128,
) -> Result<(), NoMemory>
    ensures ok { OnOk result (held cell.new ≡ written_at (vals.number number) (held cell.old) steps.now) }
    ensures there { OnOk result (IsSome (read_at (held cell.old) steps.now)) }
    ensures err { OnErr result (held cell.new ≡ held cell.old) }
{
    let Some((step, rest)) = steps.split_first() else {
        become_int(cell, number);
        return Ok(());
    };
    match cell {
        Cell::Many(places) => match places.get_mut(*step as usize) {
            Some(place) => write_int(alloc, &mut place.cell, rest, number),
            None => Err(lost()),
        },
        Cell::Ints(ints) => write_number(ints.as_mut_slice(), *step, rest, number),
        Cell::Bytes(_) => write_in_bytes(alloc, cell, *step, rest, number),
        Cell::One(_) => Err(lost()),
    }
}

#[tactic(auto, using(crate::proofs::Held::one_is))]
fn become_int(cell: &mut Cell, number: i128)
    ensures { held cell.new ≡ vals.number number }
{
    *cell = Cell::One(Leaf {
        value: Value::Int(number),
    });
}

/// Puts an integer in the place of one of an array of bytes, which keeps 16 bytes an integer from then on where the new
/// one is no byte.
fn write_in_bytes(
    alloc: Global,
    cell: &mut Cell,
    step: u32,
    rest: &[u32],
    number: i128,
) -> Result<(), NoMemory>
    ensures ok { OnOk result (held cell.new ≡ written_at (vals.number number) (held cell.old) (step ∷ rest.now)) }
    ensures there { OnOk result (IsSome (read_at (held cell.old) (step ∷ rest.now))) }
    ensures err { OnErr result (held cell.new ≡ held cell.old) }
{
    match u8::try_from(number) {
        Ok(byte) => write_byte(cell, step, rest, byte),
        Err(_) => write_wide(alloc, cell, step, rest, number),
    }
}

fn write_byte(cell: &mut Cell, step: u32, rest: &[u32], byte: u8) -> Result<(), NoMemory>
    ensures ok { OnOk result (held cell.new ≡ written_at (vals.number (pos byte)) (held cell.old) (step ∷ rest.now)) }
    ensures there { OnOk result (IsSome (read_at (held cell.old) (step ∷ rest.now))) }
    ensures err { OnErr result (held cell.new ≡ held cell.old) }
{
    match cell {
        Cell::Bytes(bytes) => set_byte(bytes.as_mut_slice(), step, rest, byte),
        _ => Err(lost()),
    }
}

fn set_byte(bytes: &mut [u8], step: u32, rest: &[u32], byte: u8) -> Result<(), NoMemory>
    ensures ok { OnOk result (packed_bytes bytes.new ≡ written_at (vals.number (pos byte)) (packed_bytes bytes.old) (step ∷ rest.now)) }
    ensures there { OnOk result (IsSome (read_at (packed_bytes bytes.old) (step ∷ rest.now))) }
    ensures err { OnErr result (bytes.new ≡ bytes.old) }
{
    if !rest.is_empty() || step as usize >= bytes.len() {
        return Err(lost());
    }
    bytes[step as usize] = byte;
    Ok(())
}

#[tactic(auto, using(crate::proofs::Held::ints_are))]
fn write_wide(
    alloc: Global,
    cell: &mut Cell,
    step: u32,
    rest: &[u32],
    number: i128,
) -> Result<(), NoMemory>
    ensures ok { OnOk result (held cell.new ≡ written_at (vals.number number) (held cell.old) (step ∷ rest.now)) }
    ensures there { OnOk result (IsSome (read_at (held cell.old) (step ∷ rest.now))) }
    ensures err { OnErr result (held cell.new ≡ held cell.old) }
{
    let mut ints = ints_of(alloc, cell)?;
    write_number(ints.as_mut_slice(), step, rest, number)?;
    *cell = Cell::Ints(ints);
    Ok(())
}

fn write_number(ints: &mut [i128], step: u32, rest: &[u32], number: i128) -> Result<(), NoMemory>
    ensures ok { OnOk result (packed ints.new ≡ written_at (vals.number number) (packed ints.old) (step ∷ rest.now)) }
    ensures there { OnOk result (IsSome (read_at (packed ints.old) (step ∷ rest.now))) }
    ensures err { OnErr result (ints.new ≡ ints.old) }
{
    if !rest.is_empty() || step as usize >= ints.len() {
        return Err(lost());
    }
    ints[step as usize] = number;
    Ok(())
}
