//! Texts, and places in them. Go specification, "String concatenation", "Index expressions" and "Slice expressions".

ghost use Rattle.std.specs.Prelude.{◌≡◌, ◌++◌, ◌<◌, ◌↔◌, length, IfOk, IsErrOf};
ghost use Rattle.go_value.specs.Gives.{Gives};
ghost use Rattle.go_value.specs.Texts.{place_at, text_between};

use crate::faults::{Fault, ValueError};
use go_base::{Bytes, NoMemory};
use std::alloc::Global;

/// The most bytes that a text has in a run.
pub const MAX_TEXT: usize = 268_435_456;

/// Two texts, one behind the other. `TextTooLong` exactly where they have more than 268,435,456 bytes together.
pub fn concat(alloc: Global, a: &Bytes, b: &Bytes) -> Result<Bytes, ValueError>
    ensures ok { IfOk result (λ joined. joined ≡ a.now ++ b.now) }
    ensures too_long { IsErrOf result (ValueError.Fault Fault.TextTooLong) ↔ (268435456 < length (a.now ++ b.now)) }
{
    let (front, back) = (a.as_slice(), b.as_slice());
    if front.len() > MAX_TEXT || back.len() > MAX_TEXT - front.len() {
        return Err(ValueError::Fault(Fault::TextTooLong));
    }
    Ok(joined(alloc, front, back)?)
}

fn joined(alloc: Global, front: &[u8], back: &[u8]) -> Result<Bytes, NoMemory>
    ensures { IfOk result (λ joined. joined ≡ front.now ++ back.now) }
{
    let mut bytes = Vec::with_capacity(alloc, front.len().saturating_add(back.len()))?;
    bytes.extend_from_slice(front)?;
    bytes.extend_from_slice(back)?;
    Ok(Bytes::new(bytes))
}

/// The place of an element of an array or a slice of a length. `Index` exactly where there is none.
pub fn check_index(index: i128, len: u64) -> Result<u64, Fault>
    ensures { result ≡ place_at index len }
{
    match u64::try_from(index) {
        Ok(place) if place < len => Ok(place),
        _ => Err(Fault::Index { index, len }),
    }
}

/// The part of a text from a place on and before another. `SliceBounds` exactly where the places are not in order, or
/// one is not in the text.
pub fn text_slice(alloc: Global, text: &Bytes, low: i128, high: i128) -> Result<Bytes, ValueError>
    ensures { Gives (λ part. part) result (text_between text.now low high) }
{
    let bytes = text.as_slice();
    if low < 0 || high < low || high > bytes.len() as i128 {
        return Err(ValueError::Fault(Fault::SliceBounds));
    }
    let part = &bytes[low as usize..high as usize];
    Ok(Bytes::new(Vec::from_slice(alloc, part)?))
}
