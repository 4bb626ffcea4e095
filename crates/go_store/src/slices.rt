//! Slices. Go specification, "Slice types", "Slice expressions", "Appending to and copying slices" and "Making slices,
//! maps and channels".

ghost use Rattle.std.specs.Prelude.{◌≡◌, ◌↔◌, ◌∷◌, [], Some, None, IfSome, IsSome, IfOk, IsErrOf, OnOk, OnErr, length, map, replicate, unsigned_abs, unwrap_or, ◌++◌};
ghost use Rattle.go_value.specs.Gives.{FaultIs, Gives};
ghost use Rattle.go_value.specs.Values.{value_of};
ghost use Rattle.go_store.specs.Cells.{held};
ghost use Rattle.go_value.specs.Zeros.{zeroed};
ghost use Rattle.go_store.specs.Arrays.{array_of, with_elements, with_run};
ghost use Rattle.go_store.specs.Slices.{Appends, append_fault, appended_slice, array_at, copied, copy_count, element_of, elements_of, last_step, later, make_fault, most_elements, run_in, slice_of_new, sliced, whole_array, with_run_in, with_zeros};
ghost use Rattle.go_store.specs.Stores.{loaded, made, stored, with_part_in};

use crate::cells::Cell;
use crate::memory::lost;
use crate::parts::part;
use crate::runs::{
    empty_array, empty_bytes, empty_ints, push_all, push_run, push_times, push_zeros, write_run,
};
use crate::store::Store;
use go_base::{CellId, NoMemory};
use go_value::{Address, Fault, Pointer, SliceValue, Value, ValueError, check_index, pointer_to};
use std::alloc::Global;

/// The most leaves of a slice.
pub const MAX_SLICE_LEAVES: u32 = 16_777_216;

/// The most elements of so many leaves that a slice has.
fn most_elements(leaves: u32) -> u32
    ensures { result ≡ most_elements leaves }
{
    MAX_SLICE_LEAVES / leaves.max(1)
}

/// The part of a slice from `low` on and before `high`, with the capacity up to `max`. `SliceBounds` exactly where they
/// are not in order, or `max` is above the capacity.
pub fn slice_of(slice: SliceValue, low: i128, high: i128, max: i128) -> Result<SliceValue, Fault>
    ensures { result ≡ sliced slice low high max }
{
    if low < 0 || high < low || max < high || max > i128::from(slice.cap) {
        return Err(Fault::SliceBounds);
    }
    Ok(moved(slice, low as u64, (high - low) as u64, (max - low) as u64))
}

/// A slice that begins so many elements later.
fn moved(slice: SliceValue, by: u64, len: u64, cap: u64) -> SliceValue
    ensures { result ≡ record { at = later slice.at by; len = len; cap = cap } }
{
    let mut at = slice.at;
    if let Ok(by) = u32::try_from(by) {
        if at.path.can_add_to_last(by) {
            at.path.add_to_last(by);
        }
    }
    SliceValue { at, len, cap }
}

/// The slice of a whole array that a pointer points to. `NilPointer` exactly where it is nil.
pub fn array_slice(alloc: Global, array: &Pointer, len: u64) -> Result<SliceValue, ValueError>
    ensures ok { IfOk result (λ slice. slice ≡ whole_array array.now len) }
    ensures nil { IsErrOf result (ValueError.Fault Fault.NilPointer) ↔ (array.now.cell ≡ None) }
{
    Ok(SliceValue {
        at: array.part(alloc, 0)?,
        len,
        cap: len,
    })
}

/// The address of an element of a slice. `Index` exactly where there is none.
pub fn element(alloc: Global, slice: &SliceValue, index: i128) -> Result<Address, ValueError>
    ensures { Gives (λ address. address) result (element_of slice.now index) }
{
    match check_index(index, slice.len) {
        Ok(place) => match near_element(slice, place) {
            Some((cell, part)) => Ok(Address::near(alloc, cell, part)?),
            None => Ok(Address::of(alloc, later(alloc, slice, place)?)?),
        },
        Err(fault) => Err(ValueError::Fault(fault)),
    }
}

/// The cell and the part of an element of a slice of a whole array. None where the array lies deeper in its cell.
fn near_element(slice: &SliceValue, place: u64) -> Option<(CellId, u32)>
    ensures { IfSome result (λ near. later slice.now.at place ≡ record { cell = Some near.0; path = near.1 ∷ [] }) }
{
    let cell = slice.at.cell?;
    let [first] = slice.at.path.as_slice() else {
        return None;
    };
    let part = first.checked_add(u32::try_from(place).ok()?)?;
    Some((cell, part))
}

/// The pointer to a place behind the start of a slice.
fn later(alloc: Global, slice: &SliceValue, by: u64) -> Result<Pointer, NoMemory>
    ensures { IfOk result (λ at. at ≡ later slice.now.at by) }
{
    let mut at = slice.at.copy(alloc)?;
    match u32::try_from(by) {
        Ok(by) if at.path.can_add_to_last(by) => {
            at.path.add_to_last(by);
            Ok(at)
        }
        _ => Err(lost()),
    }
}

/// The capacity of a slice.
fn capacity(slice: &SliceValue) -> u64
    ensures { result ≡ slice.now.cap }
{
    slice.cap
}

impl Store {
    /// A slice of a new array of zero values. `MakeSliceLen` exactly where the length is negative or above the limit,
    /// and else `MakeSliceCap` exactly where the capacity is below the length or above the limit. After an error the
    /// store is as before.
    pub fn make_slice(
        &mut self,
        zero: &Value,
        leaves: u32,
        len: i128,
        cap: i128,
    ) -> Result<SliceValue, ValueError>
        ensures made { IfOk result (λ slice. slice ≡ slice_of_new (stored self.old) (unsigned_abs len) (unsigned_abs cap)) }
        ensures ok { OnOk result (stored self.new ≡ with_zeros (stored self.old) (value_of zero.now) cap) }
        ensures fault { FaultIs result (make_fault leaves len cap) }
        ensures err { OnErr result (stored self.new ≡ stored self.old) }
    {
        let most = i128::from(most_elements(leaves));
        if len < 0 || len > most {
            return Err(ValueError::Fault(Fault::MakeSliceLen));
        }
        if cap < len || cap > most {
            return Err(ValueError::Fault(Fault::MakeSliceCap));
        }
        let mut array = empty_array(self.alloc, zero, cap as usize)?;
        push_times(self.alloc, &mut array, zero, cap as usize)?;
        Ok(self.slice_of_array(array, len as u64, cap as u64)?)
    }

    /// A slice of a new array.
    pub(crate) fn slice_of_array(
        &mut self,
        array: Cell,
        len: u64,
        cap: u64,
    ) -> Result<SliceValue, NoMemory>
        ensures made { IfOk result (λ slice. slice ≡ slice_of_new (stored self.old) len cap) }
        ensures ok { OnOk result (stored self.new ≡ made (stored self.old) (held array)) }
        ensures err { OnErr result (stored self.new ≡ stored self.old) }
    {
        let next = go_base::CellId {
            number: self.cells.len() as u64,
        };
        let at = pointer_to(self.alloc, next, 0)?;
        self.add_cell(array)?;
        Ok(SliceValue { at, len, cap })
    }

    /// A slice with items behind its elements: in its array where the capacity suffices, and else in a new one, whose
    /// capacity is the larger of the length needed and twice the old capacity, within the limit. `GrowSlice` exactly
    /// where the length needed is above the limit. After an error the store is as before.
    pub fn append(
        &mut self,
        leaves: u32,
        slice: &SliceValue,
        items: &[Value],
    ) -> Result<SliceValue, ValueError>
        ensures value { IfOk result (λ it. it ≡ appended_slice leaves (stored self.old) slice.now (length items.now)) }
        ensures ok { OnOk result (Appends leaves (stored self.old) slice.now (map value_of items.now) (stored self.new)) }
        ensures fault { FaultIs result (append_fault leaves slice.now (length items.now)) }
        ensures err { OnErr result (stored self.new ≡ stored self.old) }
    {
        let Some(first) = items.first() else {
            return Ok(slice.copy(self.alloc)?);
        };
        let room = capacity(slice);
        let Some(needed) = slice.len.checked_add(items.len() as u64) else {
            return Err(ValueError::Fault(Fault::GrowSlice));
        };
        if needed <= room {
            return Ok(self.append_in_place(slice, first, items, needed)?);
        }
        let most = u64::from(most_elements(leaves));
        if needed > most {
            return Err(ValueError::Fault(Fault::GrowSlice));
        }
        let cap = needed.max(room.saturating_mul(2)).min(most);
        let array = self.grown(slice, items, first, (cap - needed) as usize)?;
        Ok(self.slice_of_array(array, needed, cap)?)
    }

    fn append_in_place(
        &mut self,
        slice: &SliceValue,
        first: &Value,
        items: &[Value],
        needed: u64,
    ) -> Result<SliceValue, NoMemory>
        ensures value { IfOk result (λ it. it ≡ record { at = slice.now.at; len = needed; cap = slice.now.cap }) }
        ensures ok { OnOk result (stored self.new ≡ with_run_in (array_of (map value_of items.now)) (stored self.old) (later slice.now.at slice.now.len)) }
        ensures err { OnErr result (stored self.new ≡ stored self.old) }
    {
        let mut elements = empty_array(self.alloc, first, items.len())?;
        push_all(self.alloc, &mut elements, items)?;
        let at = later(self.alloc, slice, slice.len)?;
        let start = slice.at.copy(self.alloc)?;
        self.write_elements(&at, &mut elements)?;
        Ok(SliceValue {
            at: start,
            len: needed,
            cap: slice.cap,
        })
    }

    fn write_elements(&mut self, at: &Pointer, elements: &mut Cell) -> Result<(), NoMemory>
        ensures ok { OnOk result (stored self.new ≡ with_run_in (held elements.old) (stored self.old) at.now) }
        ensures err { OnErr result (stored self.new ≡ stored self.old) }
    {
        match (at.cell, at.path.as_slice().split_last()) {
            (Some(cell), Some((first, steps))) => self.write_run(cell, steps, *first, elements),
            _ => Err(lost()),
        }
    }

    fn write_run(
        &mut self,
        cell: CellId,
        steps: &[u32],
        first: u32,
        elements: &mut Cell,
    ) -> Result<(), NoMemory>
        ensures ok { OnOk result (stored self.new ≡ with_part_in (with_run (held elements.old) first) (stored self.old) cell steps.now) }
        ensures err { OnErr result (stored self.new ≡ stored self.old) }
    {
        match self.cells.get_mut(cell.number as usize) {
            Some(cell) => write_run(self.alloc, cell, steps, first as usize, elements),
            None => Err(lost()),
        }
    }

    /// A new array of the elements of a slice, items, and zero values.
    fn grown(
        &self,
        slice: &SliceValue,
        items: &[Value],
        first: &Value,
        zeros: usize,
    ) -> Result<Cell, NoMemory>
        ensures ok { IfOk result (λ array. held array ≡ array_of (unwrap_or (elements_of (stored self.now) slice.now) [] ++ map value_of items.now ++ replicate zeros (zeroed (value_of first.now)))) }
        ensures there { OnOk result (IsSome (elements_of (stored self.now) slice.now)) }
    {
        let count = items.len().saturating_add(zeros);
        let room = count.saturating_add(slice.len as usize);
        let mut array = empty_array(self.alloc, first, room)?;
        self.push_slice(&mut array, slice)?;
        push_all(self.alloc, &mut array, items)?;
        push_zeros(self.alloc, &mut array, first, zeros)?;
        Ok(array)
    }

    /// Adds the elements of a slice to an array.
    pub(crate) fn push_slice(&self, array: &mut Cell, slice: &SliceValue) -> Result<(), NoMemory>
        ensures ok { OnOk result (held array.new ≡ with_elements (unwrap_or (elements_of (stored self.now) slice.now) []) (held array.old)) }
        ensures there { OnOk result (IsSome (elements_of (stored self.now) slice.now)) }
    {
        if slice.len == 0 {
            return Ok(());
        }
        self.push_elements(array, &slice.at, slice.len as usize)
    }

    /// Adds so many elements, from one on, to an array.
    fn push_elements(&self, array: &mut Cell, at: &Pointer, len: usize) -> Result<(), NoMemory>
        ensures ok { OnOk result (held array.new ≡ with_elements (unwrap_or (run_in (stored self.now) at.now len) []) (held array.old)) }
        ensures there { OnOk result (IsSome (run_in (stored self.now) at.now len)) }
    {
        match self.array(at) {
            Some((from, first)) => push_run(self.alloc, array, from, first, len),
            None => Err(lost()),
        }
    }

    /// The array that a pointer to an element points into, and the place of the element.
    fn array(&self, at: &Pointer) -> Option<(&Cell, usize)>
        ensures array { IfSome result (λ found. loaded (stored self.now) (array_at at.now) ≡ Some (held found.0.now)) }
        ensures first { IfSome result (λ found. found.1 ≡ last_step at.now) }
    {
        let (first, steps) = at.path.as_slice().split_last()?;
        let cell = self.cells.get(at.cell?.number as usize)?;
        Some((part(cell, steps)?, *first as usize))
    }

    /// An array without elements, for as many as are told, of the kind of the array that a pointer points into.
    #[tactic(auto, using(crate::proofs::Lengthened::many_empty))]
    fn empty_like(&self, at: &Pointer, room: usize) -> Result<Cell, NoMemory>
        ensures { IfOk result (λ array. held array ≡ array_of []) }
    {
        match self.array(at) {
            Some((Cell::Bytes(_), _)) => empty_bytes(self.alloc, room),
            Some((Cell::Ints(_), _)) => empty_ints(self.alloc, room),
            _ => Ok(Cell::Many(Vec::with_capacity(self.alloc, room)?)),
        }
    }

    /// Copies elements of one slice to another, as many as the shorter one has, as if all were read before one is
    /// written, and says how many. After an error the store is as before.
    pub fn copy_items(&mut self, to: &SliceValue, from: &SliceValue) -> Result<u64, ValueError>
        ensures count { IfOk result (λ count. count ≡ copy_count to.now from.now) }
        ensures ok { OnOk result (stored self.new ≡ copied (stored self.old) to.now from.now) }
        ensures fault { FaultIs result None }
        ensures err { OnErr result (stored self.new ≡ stored self.old) }
    {
        let count = to.len.min(from.len);
        if count == 0 {
            return Ok(0);
        }
        let mut elements = self.empty_like(&from.at, count as usize)?;
        self.push_elements(&mut elements, &from.at, count as usize)?;
        self.write_elements(&to.at, &mut elements)?;
        Ok(count)
    }
}
