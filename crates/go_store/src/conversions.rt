//! Conversions between texts and slices. Go specification, "Conversions to and from a string type".

ghost use Rattle.std.specs.Prelude.{◌≡◌, ◌<◌, ◌≤◌, ◌-◌, ◌++◌, ◌∷◌, [], IfOk, OnOk, IsSome, Some, drop, flat_map, length, map, pos, ℕ};
ghost use Rattle.go_value.specs.Gives.{Gives};
ghost use Rattle.go_value.specs.Runes.{IsFirstRune};
ghost use Rattle.go_value.specs.Values.{number};
ghost use Rattle.go_store.specs.Cells.{held, packed};
ghost use Rattle.go_store.specs.Conversions.{AreRunes, MakesRunes, MakesSlice, byte_of, items_of, numbers_of, rune_bytes, within_limit};
ghost use Rattle.go_store.specs.Slices.{elements_of};
ghost use Rattle.go_store.specs.Stores.{stored};

use crate::cells::Cell;
use crate::memory::lost;
use crate::slices::MAX_SLICE_LEAVES;
use crate::store::Store;
use go_base::{Bytes, NoMemory};
use go_value::{Fault, MAX_TEXT, SliceValue, ValueError, decode_rune, push_rune};
use std::alloc::Global;

impl Store {
    /// The integers of a slice.
    #[tactic(auto, using(crate::proofs::Spelled::elements_ints))]
    fn ints_of(&self, alloc: Global, slice: &SliceValue) -> Result<Vec<i128>, NoMemory>
        ensures { IfOk result (λ ints. elements_of (stored self.now) slice.now ≡ Some (map number ints.items)) }
    {
        let mut run = no_ints(alloc);
        self.push_slice(&mut run, slice)?;
        let ints = ints_in(run)?;
        Ok(ints)
    }

    /// The bytes of a slice of bytes.
    #[tactic(auto, using(crate::proofs::Spelled::elements_ints))]
    fn bytes_of(&self, alloc: Global, slice: &SliceValue) -> Result<Vec<u8>, NoMemory>
        ensures { IfOk result (λ bytes. elements_of (stored self.now) slice.now ≡ Some (map number (numbers_of bytes.items))) }
    {
        let mut run = no_bytes(alloc);
        self.push_slice(&mut run, slice)?;
        let bytes = bytes_in(run)?;
        Ok(bytes)
    }

    /// A slice of a new array of integers, whose capacity is its length. `MakeSliceLen` exactly where there are more
    /// than 16,777,216. After an error the store is as before.
    #[tactic(auto, using(crate::proofs::Spelled::packed_is, crate::proofs::Held::ints_are))]
    fn slice_of_ints(&mut self, ints: Vec<i128>) -> Result<SliceValue, ValueError>
        ensures { MakesSlice (stored self.old) ints.items result (stored self.new) }
    {
        let len = ints.len() as u64;
        if len > u64::from(MAX_SLICE_LEAVES) {
            return Err(ValueError::Fault(Fault::MakeSliceLen));
        }
        Ok(self.slice_of_array(Cell::Ints(ints), len, len)?)
    }

    /// A slice of a new array of bytes, as `slice_of_ints`.
    #[tactic(auto, using(crate::proofs::Held::bytes_are))]
    fn slice_of_bytes(&mut self, bytes: Vec<u8>) -> Result<SliceValue, ValueError>
        ensures { MakesSlice (stored self.old) (numbers_of bytes.items) result (stored self.new) }
    {
        let len = bytes.len() as u64;
        if len > u64::from(MAX_SLICE_LEAVES) {
            return Err(ValueError::Fault(Fault::MakeSliceLen));
        }
        Ok(self.slice_of_array(Cell::Bytes(bytes), len, len)?)
    }
}

#[tactic(auto, using(crate::proofs::Held::ints_are))]
fn no_ints(alloc: Global) -> Cell
    ensures { held result ≡ packed [] }
{
    Cell::Ints(Vec::new(alloc))
}

#[tactic(auto, using(crate::proofs::Held::ints_are))]
fn ints_in(array: Cell) -> Result<Vec<i128>, NoMemory>
    ensures { IfOk result (λ ints. held array ≡ packed ints.items) }
{
    match array {
        Cell::Ints(ints) => Ok(ints),
        _ => Err(lost()),
    }
}

#[tactic(auto, using(crate::proofs::Held::bytes_are))]
fn no_bytes(alloc: Global) -> Cell
    ensures { held result ≡ packed [] }
{
    Cell::Bytes(Vec::new(alloc))
}

#[tactic(auto, using(crate::proofs::Held::bytes_are))]
fn bytes_in(array: Cell) -> Result<Vec<u8>, NoMemory>
    ensures { IfOk result (λ bytes. held array ≡ packed (numbers_of bytes.items)) }
{
    match array {
        Cell::Bytes(bytes) => Ok(bytes),
        _ => Err(lost()),
    }
}

/// The text of a slice of bytes. `TextTooLong` exactly where there are more than 268,435,456.
#[tactic(auto, using(crate::proofs::Spelled::of_bytes))]
pub fn text_of_bytes(alloc: Global, store: &Store, slice: &SliceValue) -> Result<Bytes, ValueError>
    ensures text { Gives (λ text. text) result (within_limit (flat_map byte_of (items_of (stored store.now) slice.now))) }
    ensures there { OnOk result (IsSome (elements_of (stored store.now) slice.now)) }
{
    within_limit(store.bytes_of(alloc, slice)?)
}

/// The text of a slice of code points. One that is none counts as U+FFFD. `TextTooLong` exactly where the text would
/// have more than 268,435,456 bytes.
#[tactic(auto, using(crate::proofs::Spelled::of_slice))]
pub fn text_of_runes(alloc: Global, store: &Store, slice: &SliceValue) -> Result<Bytes, ValueError>
    ensures text { Gives (λ text. text) result (within_limit (flat_map rune_bytes (items_of (stored store.now) slice.now))) }
    ensures there { OnOk result (IsSome (elements_of (stored store.now) slice.now)) }
{
    let ints = store.ints_of(alloc, slice)?;
    let bytes = bytes_of_runes(alloc, ints.as_slice())?;
    within_limit(bytes)
}

fn bytes_of_runes(alloc: Global, runes: &[i128]) -> Result<Vec<u8>, NoMemory>
    ensures { IfOk result (λ bytes. bytes.items ≡ flat_map rune_bytes (map number runes.now)) }
{
    let mut bytes = Vec::new(alloc);
    for rune in runes {
        push_rune(&mut bytes, *rune)?;
    }
    Ok(bytes)
}

/// The text of bytes. `TextTooLong` exactly where there are more than 268,435,456.
fn within_limit(bytes: Vec<u8>) -> Result<Bytes, ValueError>
    ensures { Gives (λ text. text) result (within_limit bytes.items) }
{
    if bytes.len() > MAX_TEXT {
        return Err(ValueError::Fault(Fault::TextTooLong));
    }
    Ok(Bytes::new(bytes))
}

/// A slice of the bytes of a text, in a new array. `MakeSliceLen` exactly where there are more than 16,777,216. After
/// an error the store is as before.
pub fn bytes_of_text(
    alloc: Global,
    store: &mut Store,
    text: &Bytes,
) -> Result<SliceValue, ValueError>
    ensures { MakesSlice (stored store.old) (numbers_of text.now) result (stored store.new) }
{
    let bytes = text.as_slice();
    if bytes.len() > MAX_SLICE_LEAVES as usize {
        return Err(ValueError::Fault(Fault::MakeSliceLen));
    }
    let bytes = Vec::from_slice(alloc, bytes)?;
    store.slice_of_bytes(bytes)
}

/// A slice of the code points of a text, in a new array. `MakeSliceLen` exactly where there are more than 16,777,216.
/// After an error the store is as before.
pub fn runes_of_text(
    alloc: Global,
    store: &mut Store,
    text: &Bytes,
) -> Result<SliceValue, ValueError>
    ensures { MakesRunes (stored store.old) text.now result (stored store.new) }
{
    let runes = code_points(alloc, text.as_slice())?;
    store.slice_of_ints(runes)
}

#[tactic(auto, using(crate::proofs::Spelled::follows_next, crate::proofs::Spelled::follows_end))]
fn code_points(alloc: Global, bytes: &[u8]) -> Result<Vec<i128>, NoMemory>
    ensures { IfOk result (λ runes. AreRunes bytes.now runes.items) }
{
    let mut runes = Vec::new(alloc);
    let mut at = 0usize;
    while at < bytes.len() {
        at = push_code_point(&mut runes, bytes, at)?;
    }
    Ok(runes)
}

/// Adds the code point at a place, and gives the place behind it.
#[tactic(auto, using(crate::proofs::Spelled::width_within))]
fn push_code_point(runes: &mut Vec<i128>, bytes: &[u8], at: usize) -> Result<usize, NoMemory>
    requires { at < length bytes.now }
    ensures within { IfOk result (λ next. (at < next) × (next ≤ length bytes.now)) }
    ensures rune { IfOk result (λ next. (rune : ℕ) × IsFirstRune (drop at bytes.now) rune (next - at) × (runes.new.items ≡ runes.old.items ++ pos rune ∷ [])) }
{
    let (rune, width) = decode_rune(bytes, at);
    runes.push(i128::from(rune))?;
    Ok(at + usize::from(width))
}
