//! Runs of elements of arrays. Go specification, "Slice types" and "Appending to and copying slices".

ghost use Rattle.std.specs.Prelude.{◌≡◌, ◌+◌, ◌≤◌, ◌∷◌, ◌++◌, [], pos, IsSome, IfOk, OnOk, OnErr, drop, length, map, replicate, take, unwrap_or};
ghost use borrow.Rule.Slice.PartMut.{put_mid};
ghost use Rattle.go_value.specs.Values.{value_of};
ghost use Rattle.go_value.specs.Values as vals;
ghost use Rattle.go_value.specs.Zeros.{zeroed};
ghost use Rattle.go_store.specs.Arrays.{array_of, run_of, with_elements, with_run};
ghost use Rattle.go_store.specs.Cells.{held, held_in, packed, packed_bytes, spread, updated};

use crate::cells::{Cell, Place, cell_of_copy, copy_cell};
use crate::forms::{are_bytes, ints_of, is_packed, make_alike, narrow_onto, widen, widen_onto};
use crate::leaves::integer;
use crate::memory::lost;
use crate::parts::whole_int;
use go_base::NoMemory;
use go_value::{Value, zero_like};
use std::alloc::Global;

/// An array without elements, for as many as are told, of the kind of an element.
#[tactic(auto, using(crate::proofs::Lengthened::many_empty))]
pub(crate) fn empty_array(alloc: Global, like: &Value, room: usize) -> Result<Cell, NoMemory>
    ensures { IfOk result (λ array. held array ≡ array_of []) }
{
    match integer(like) {
        Some(number) if u8::try_from(number).is_ok() => empty_bytes(alloc, room),
        Some(_) => empty_ints(alloc, room),
        None => Ok(Cell::Many(Vec::with_capacity(alloc, room)?)),
    }
}

/// An array without elements, for as many bytes as are told.
#[tactic(auto, using(crate::proofs::Lengthened::bytes_empty))]
pub(crate) fn empty_bytes(alloc: Global, room: usize) -> Result<Cell, NoMemory>
    ensures { IfOk result (λ array. held array ≡ array_of []) }
{
    Ok(Cell::Bytes(Vec::with_capacity(alloc, room)?))
}

/// An array without elements, for as many integers as are told.
#[tactic(auto, using(crate::proofs::Lengthened::ints_empty))]
pub(crate) fn empty_ints(alloc: Global, room: usize) -> Result<Cell, NoMemory>
    ensures { IfOk result (λ array. held array ≡ array_of []) }
{
    Ok(Cell::Ints(Vec::with_capacity(alloc, room)?))
}

/// Adds an element to an array.
pub(crate) fn push_element(alloc: Global, array: &mut Cell, element: Cell) -> Result<(), NoMemory>
    ensures { OnOk result (held array.new ≡ with_elements (held element ∷ []) (held array.old)) }
{
    match array {
        Cell::Ints(ints) => match whole_int(&element) {
            Some(number) => push_number(ints, number),
            None => Err(lost()),
        },
        Cell::Many(places) => push_place(places, element),
        Cell::Bytes(_) => push_to_bytes(alloc, array, &element),
        Cell::One(_) => Err(lost()),
    }
}

/// Adds an integer to an array of bytes, which keeps 16 bytes an integer from then on where the new one is no byte.
fn push_to_bytes(alloc: Global, array: &mut Cell, element: &Cell) -> Result<(), NoMemory>
    ensures { OnOk result (held array.new ≡ with_elements (held element.now ∷ []) (held array.old)) }
{
    let Some(number) = whole_int(element) else {
        return Err(lost());
    };
    match u8::try_from(number) {
        Ok(byte) => push_byte(array, byte),
        Err(_) => push_wide(alloc, array, number),
    }
}

fn push_byte(array: &mut Cell, byte: u8) -> Result<(), NoMemory>
    ensures { OnOk result (held array.new ≡ with_elements (vals.number (pos byte) ∷ []) (held array.old)) }
{
    match array {
        Cell::Bytes(bytes) => {
            bytes.push(byte)?;
            Ok(())
        }
        _ => Err(lost()),
    }
}

#[tactic(auto, using(crate::proofs::Held::ints_are))]
fn push_wide(alloc: Global, array: &mut Cell, number: i128) -> Result<(), NoMemory>
    ensures { OnOk result (held array.new ≡ with_elements (vals.number number ∷ []) (held array.old)) }
{
    let mut ints = ints_of(alloc, array)?;
    push_number(&mut ints, number)?;
    *array = Cell::Ints(ints);
    Ok(())
}

fn push_number(ints: &mut Vec<i128>, number: i128) -> Result<(), NoMemory>
    ensures { OnOk result (packed ints.new.items ≡ with_elements (vals.number number ∷ []) (packed ints.old.items)) }
{
    ints.push(number)?;
    Ok(())
}

fn push_place(places: &mut Vec<Place>, cell: Cell) -> Result<(), NoMemory>
    ensures { OnOk result (spread places.new.items ≡ with_elements (held cell ∷ []) (spread places.old.items)) }
{
    places.push(Place { cell, blank: false })?;
    Ok(())
}

/// Adds copies of values to an array.
pub(crate) fn push_all(alloc: Global, array: &mut Cell, items: &[Value]) -> Result<(), NoMemory>
    ensures { OnOk result (held array.new ≡ with_elements (map value_of items.now) (held array.old)) }
{
    for item in items {
        push_element(alloc, array, cell_of_copy(alloc, item)?)?;
    }
    Ok(())
}

/// Adds a value to an array as often as told.
pub(crate) fn push_times(
    alloc: Global,
    array: &mut Cell,
    value: &Value,
    times: usize,
) -> Result<(), NoMemory>
    ensures { OnOk result (held array.new ≡ with_elements (replicate times (value_of value.now)) (held array.old)) }
{
    match integer(value) {
        Some(number) if is_packed(array) => push_number_times(alloc, array, number, times),
        _ => push_copies_of(alloc, array, value, times),
    }
}

fn push_copies_of(
    alloc: Global,
    array: &mut Cell,
    value: &Value,
    times: usize,
) -> Result<(), NoMemory>
    ensures { OnOk result (held array.new ≡ with_elements (replicate times (value_of value.now)) (held array.old)) }
{
    for _ in 0..times {
        push_element(alloc, array, cell_of_copy(alloc, value)?)?;
    }
    Ok(())
}

fn push_number_times(
    alloc: Global,
    array: &mut Cell,
    number: i128,
    times: usize,
) -> Result<(), NoMemory>
    ensures { OnOk result (held array.new ≡ with_elements (replicate times (vals.number number)) (held array.old)) }
{
    if u8::try_from(number).is_err() {
        widen(alloc, array)?;
    }
    fill(array, number, times)
}

fn fill(array: &mut Cell, number: i128, times: usize) -> Result<(), NoMemory>
    ensures { OnOk result (held array.new ≡ with_elements (replicate times (vals.number number)) (held array.old)) }
{
    match array {
        Cell::Ints(ints) => fill_ints(ints, number, times),
        Cell::Bytes(bytes) => fill_bytes(bytes, number, times),
        Cell::One(_) | Cell::Many(_) => Err(lost()),
    }
}

fn fill_ints(ints: &mut Vec<i128>, number: i128, times: usize) -> Result<(), NoMemory>
    ensures { OnOk result (packed ints.new.items ≡ with_elements (replicate times (vals.number number)) (packed ints.old.items)) }
{
    let Some(len) = ints.len().checked_add(times) else {
        return Err(lost());
    };
    ints.resize(len, number)?;
    Ok(())
}

fn fill_bytes(bytes: &mut Vec<u8>, number: i128, times: usize) -> Result<(), NoMemory>
    ensures { OnOk result (packed_bytes bytes.new.items ≡ with_elements (replicate times (vals.number number)) (packed_bytes bytes.old.items)) }
{
    let Ok(byte) = u8::try_from(number) else {
        return Err(lost());
    };
    let Some(len) = bytes.len().checked_add(times) else {
        return Err(lost());
    };
    bytes.resize(len, byte)?;
    Ok(())
}

/// Adds the zero value of the type of a value as often as told.
pub(crate) fn push_zeros(
    alloc: Global,
    array: &mut Cell,
    like: &Value,
    times: usize,
) -> Result<(), NoMemory>
    ensures { OnOk result (held array.new ≡ with_elements (replicate times (zeroed (value_of like.now))) (held array.old)) }
{
    let zero = zero_like(alloc, like)?;
    let pushed = push_times(alloc, array, &zero, times);
    drop(zero);
    pushed
}

/// Adds copies of so many elements of another array, from one on.
pub(crate) fn push_run(
    alloc: Global,
    array: &mut Cell,
    from: &Cell,
    first: usize,
    len: usize,
) -> Result<(), NoMemory>
    ensures ok { OnOk result (held array.new ≡ with_elements (unwrap_or (run_of (held from.now) first len) []) (held array.old)) }
    ensures there { OnOk result (IsSome (run_of (held from.now) first len)) }
{
    if !takes_run(array, from, first, len) {
        widen(alloc, array)?;
    }
    push_onto(alloc, array, from, first, len)
}

fn push_onto(
    alloc: Global,
    array: &mut Cell,
    from: &Cell,
    first: usize,
    len: usize,
) -> Result<(), NoMemory>
    ensures ok { OnOk result (held array.new ≡ with_elements (unwrap_or (run_of (held from.now) first len) []) (held array.old)) }
    ensures there { OnOk result (IsSome (run_of (held from.now) first len)) }
{
    match array {
        Cell::Ints(all) => push_run_of_ints(all, from, first, len),
        Cell::Many(all) => push_run_of_places(alloc, all, from, first, len),
        Cell::Bytes(all) => push_run_of_bytes(all, from, first, len),
        Cell::One(_) => Err(lost()),
    }
}

/// Whether an array has the form that so many elements of another one need.
fn takes_run(array: &Cell, from: &Cell, first: usize, len: usize) -> bool {
    match (array, from) {
        (Cell::Bytes(_), Cell::Ints(ints)) => match run(ints.as_slice(), first, len) {
            Ok(ints) => are_bytes(ints),
            Err(_) => true,
        },
        _ => true,
    }
}

fn push_run_of_ints(
    all: &mut Vec<i128>,
    from: &Cell,
    first: usize,
    len: usize,
) -> Result<(), NoMemory>
    ensures ok { OnOk result (packed all.new.items ≡ with_elements (unwrap_or (run_of (held from.now) first len) []) (packed all.old.items)) }
    ensures there { OnOk result (IsSome (run_of (held from.now) first len)) }
{
    match from {
        Cell::Ints(ints) => push_ints(all, ints.as_slice(), first, len),
        Cell::Bytes(bytes) => push_wide_run(all, bytes.as_slice(), first, len),
        _ => Err(lost()),
    }
}

fn push_run_of_bytes(
    all: &mut Vec<u8>,
    from: &Cell,
    first: usize,
    len: usize,
) -> Result<(), NoMemory>
    ensures ok { OnOk result (packed_bytes all.new.items ≡ with_elements (unwrap_or (run_of (held from.now) first len) []) (packed_bytes all.old.items)) }
    ensures there { OnOk result (IsSome (run_of (held from.now) first len)) }
{
    match from {
        Cell::Bytes(bytes) => push_bytes(all, bytes.as_slice(), first, len),
        Cell::Ints(ints) => push_narrow_run(all, ints.as_slice(), first, len),
        _ => Err(lost()),
    }
}

fn push_run_of_places(
    alloc: Global,
    all: &mut Vec<Place>,
    from: &Cell,
    first: usize,
    len: usize,
) -> Result<(), NoMemory>
    ensures ok { OnOk result (spread all.new.items ≡ with_elements (unwrap_or (run_of (held from.now) first len) []) (spread all.old.items)) }
    ensures there { OnOk result (IsSome (run_of (held from.now) first len)) }
{
    match from {
        Cell::Many(places) => push_copies(alloc, all, places.as_slice(), first, len),
        _ => Err(lost()),
    }
}

/// So many items of a slice from one on.
fn run<T>(items: &[T], first: usize, len: usize) -> Result<&[T], NoMemory>
    ensures within { OnOk result (first + len ≤ length items.now) }
    ensures items { IfOk result (λ run. run.now ≡ take len (drop first items.now)) }
{
    if first > items.len() || len > items.len() - first {
        return Err(lost());
    }
    Ok(&items[first..first + len])
}

fn push_ints(all: &mut Vec<i128>, ints: &[i128], first: usize, len: usize) -> Result<(), NoMemory>
    ensures ok { OnOk result (packed all.new.items ≡ with_elements (map vals.number (take len (drop first ints.now))) (packed all.old.items)) }
    ensures within { OnOk result (first + len ≤ length ints.now) }
{
    all.extend_from_slice(run(ints, first, len)?)?;
    Ok(())
}

fn push_bytes(all: &mut Vec<u8>, bytes: &[u8], first: usize, len: usize) -> Result<(), NoMemory>
    ensures ok { OnOk result (all.new.items ≡ all.old.items ++ take len (drop first bytes.now)) }
    ensures within { OnOk result (first + len ≤ length bytes.now) }
{
    all.extend_from_slice(run(bytes, first, len)?)?;
    Ok(())
}

fn push_wide_run(
    all: &mut Vec<i128>,
    bytes: &[u8],
    first: usize,
    len: usize,
) -> Result<(), NoMemory>
    ensures ok { OnOk result (all.new.items ≡ all.old.items ++ map pos (take len (drop first bytes.now))) }
    ensures within { OnOk result (first + len ≤ length bytes.now) }
{
    widen_onto(all, run(bytes, first, len)?)
}

fn push_narrow_run(
    all: &mut Vec<u8>,
    ints: &[i128],
    first: usize,
    len: usize,
) -> Result<(), NoMemory>
    ensures ok { OnOk result (map pos all.new.items ≡ map pos all.old.items ++ take len (drop first ints.now)) }
    ensures within { OnOk result (first + len ≤ length ints.now) }
{
    narrow_onto(all, run(ints, first, len)?)
}

fn push_copies(
    alloc: Global,
    all: &mut Vec<Place>,
    places: &[Place],
    first: usize,
    len: usize,
) -> Result<(), NoMemory>
    ensures ok { OnOk result (spread all.new.items ≡ with_elements (map held_in (take len (drop first places.now))) (spread all.old.items)) }
    ensures within { OnOk result (first + len ≤ length places.now) }
{
    push_places(alloc, all, run(places, first, len)?)
}

fn push_places(alloc: Global, all: &mut Vec<Place>, places: &[Place]) -> Result<(), NoMemory>
    ensures { OnOk result (spread all.new.items ≡ with_elements (map held_in places.now) (spread all.old.items)) }
{
    for place in places {
        push_place(all, copy_cell(alloc, &place.cell)?)?;
    }
    Ok(())
}

/// Puts the elements of an array in the places of a run of elements; the array has then what stood there. The steps
/// lead to the array of the run.
pub(crate) fn write_run(
    alloc: Global,
    cell: &mut Cell,
    steps: &[u32],
    first: usize,
    elements: &mut Cell,
) -> Result<(), NoMemory>
    ensures ok { OnOk result (held cell.new ≡ updated (with_run (held elements.old) first) (held cell.old) steps.now) }
    ensures err { OnErr result (held cell.new ≡ held cell.old) }
{
    let Some((step, rest)) = steps.split_first() else {
        return overwrite(alloc, cell, first, elements);
    };
    match cell {
        Cell::Many(places) => match places.get_mut(*step as usize) {
            Some(place) => write_run(alloc, &mut place.cell, rest, first, elements),
            None => Err(lost()),
        },
        _ => Err(lost()),
    }
}

fn overwrite(
    alloc: Global,
    array: &mut Cell,
    first: usize,
    elements: &mut Cell,
) -> Result<(), NoMemory>
    ensures ok { OnOk result (held array.new ≡ with_run (held elements.old) first (held array.old)) }
    ensures err { OnErr result (held array.new ≡ held array.old) }
{
    make_alike(alloc, array, elements)?;
    swap_elements(array, first, elements)
}

fn swap_elements(array: &mut Cell, first: usize, elements: &mut Cell) -> Result<(), NoMemory>
    ensures ok { OnOk result (held array.new ≡ with_run (held elements.old) first (held array.old)) }
    ensures err { OnErr result (held array.new ≡ held array.old) }
{
    match array {
        Cell::Ints(ints) => overwrite_ints(ints, first, elements),
        Cell::Many(places) => overwrite_places(places, first, elements),
        Cell::Bytes(bytes) => overwrite_bytes(bytes, first, elements),
        Cell::One(_) => Err(lost()),
    }
}

fn overwrite_ints(ints: &mut Vec<i128>, first: usize, elements: &mut Cell) -> Result<(), NoMemory>
    ensures ok { OnOk result (packed ints.new.items ≡ with_run (held elements.old) first (packed ints.old.items)) }
    ensures err { OnErr result (ints.new.items ≡ ints.old.items) }
{
    match elements {
        Cell::Ints(new) => swap_run(ints.as_mut_slice(), first, new.as_mut_slice()),
        _ => Err(lost()),
    }
}

fn overwrite_bytes(bytes: &mut Vec<u8>, first: usize, elements: &mut Cell) -> Result<(), NoMemory>
    ensures ok { OnOk result (packed_bytes bytes.new.items ≡ with_run (held elements.old) first (packed_bytes bytes.old.items)) }
    ensures err { OnErr result (bytes.new.items ≡ bytes.old.items) }
{
    match elements {
        Cell::Bytes(new) => swap_run(bytes.as_mut_slice(), first, new.as_mut_slice()),
        _ => Err(lost()),
    }
}

fn overwrite_places(
    places: &mut Vec<Place>,
    first: usize,
    elements: &mut Cell,
) -> Result<(), NoMemory>
    ensures ok { OnOk result (spread places.new.items ≡ with_run (held elements.old) first (spread places.old.items)) }
    ensures err { OnErr result (places.new.items ≡ places.old.items) }
{
    match elements {
        Cell::Many(new) => swap_run(places.as_mut_slice(), first, new.as_mut_slice()),
        _ => Err(lost()),
    }
}

/// Swaps items with so many of another slice, from one on.
fn swap_run<T>(items: &mut [T], first: usize, new: &mut [T]) -> Result<(), NoMemory>
    ensures within { OnOk result (first + length new.old ≤ length items.old) }
    ensures ok { OnOk result (items.new ≡ put_mid first (length new.old) items.old new.old) }
    ensures err { OnErr result (items.new ≡ items.old) }
{
    if first > items.len() || new.len() > items.len() - first {
        return Err(lost());
    }
    items[first..first + new.len()].swap_with_slice(new);
    Ok(())
}
