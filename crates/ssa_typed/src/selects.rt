//! Which types sends, receives and `select` need.

ghost use Rattle.std.specs.Prelude.{◌≡◌, slice_get};
ghost use Rattle.go_type.specs.Table.{term_at};
ghost use Rattle.ssa_typed.specs.Forms.{gives_received, receives_at, takes_cases, selects};
ghost use Rattle.ssa_typed.specs.Operands.{shape, is_where};
ghost use Rattle.type_shapes.specs.Shapes.{sent_elem, received_elem, parts_of};

use crate::elements::gives;
use crate::known::Frame;
use go_base::TypeId;
use go_type::{Basic, TypeTerm};
use ssa_ir::{Operand, SelectCase};
use type_shapes::{is_id, is_plain, may_receive, may_send, parts};

/// A `select` has no more cases.
const MAX_CASES: usize = 4_294_967_295;

/// The elements of a channel that may be sent to.
fn sent_elem(frame: Frame, channel: &Operand) -> Option<TypeId>
    ensures { result ≡ sent_elem (shape frame.entry.code.now frame.entry.function.now channel.now) }
{
    match frame.shape(channel) {
        Some(TypeTerm::Chan { dir, elem }) if may_send(*dir) => Some(*elem),
        _ => None,
    }
}

/// The elements of a channel that may be received from.
fn received_elem(frame: Frame, channel: &Operand) -> Option<TypeId>
    ensures { result ≡ received_elem (shape frame.entry.code.now frame.entry.function.now channel.now) }
{
    match frame.shape(channel) {
        Some(TypeTerm::Chan { dir, elem }) if may_receive(*dir) => Some(*elem),
        _ => None,
    }
}

pub fn fits_send(frame: Frame, channel: &Operand, value: &Operand) -> bool
    ensures { result ≡ is_where frame.entry.code.now frame.entry.function.now value.now (sent_elem (shape frame.entry.code.now frame.entry.function.now channel.now)) }
{
    frame.is_where(value, sent_elem(frame, channel))
}

pub fn fits_receive(frame: Frame, channel: &Operand, comma_ok: bool, of: TypeId) -> bool
    ensures { result ≡ gives_received frame.entry.code.now.types of comma_ok (received_elem (shape frame.entry.code.now frame.entry.function.now channel.now)) }
{
    match received_elem(frame, channel) {
        Some(elem) => gives(&frame.code.types, of, elem, comma_ok),
        None => false,
    }
}

/// Whether a register has the type of what a `select` gives: the index, whether a value came, and the values received.
pub fn fits_select(frame: Frame, cases: &[SelectCase], of: TypeId) -> bool
    ensures { result ≡ selects frame.entry.code.now frame.entry.function.now cases.now (parts_of (term_at frame.entry.code.now.types of)) }
{
    match parts(&frame.code.types, of) {
        Some([index, ok, rest @ ..]) => {
            is_plain(*index, Basic::Int)
                && is_plain(*ok, Basic::Bool)
                && cases.len() <= MAX_CASES
                && takes_cases(frame, cases, rest)
        }
        _ => false,
    }
}

/// Whether each send has a channel and a value of its elements, and each receive one of the types.
fn takes_cases(frame: Frame, cases: &[SelectCase], received: &[TypeId]) -> bool
    ensures { result ≡ takes_cases frame.entry.code.now frame.entry.function.now cases.now received.now }
{
    let mut place: usize = 0;
    for (index, case) in cases.iter().enumerate() {
        match case {
            SelectCase::Send { channel, value } => {
                if !fits_send(frame, channel, value) {
                    return false;
                }
            }
            SelectCase::Receive { channel } => {
                if !receives(frame, channel, received, place) {
                    return false;
                }
                place += 1;
            }
        }
    }
    place == received.len()
}

/// Whether the elements of a channel have the type at a place.
fn receives(frame: Frame, channel: &Operand, received: &[TypeId], place: usize) -> bool
    ensures { result ≡ receives_at frame.entry.code.now frame.entry.function.now channel.now (slice_get received.now place) }
{
    match received.get(place) {
        Some(of) => is_id(received_elem(frame, channel), *of),
        None => false,
    }
}
