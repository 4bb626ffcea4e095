//! Which types the built-in functions need.

ghost use Rattle.std.specs.Prelude.{◌≡◌};
ghost use Rattle.std.specs.List.{list_all};
ghost use Rattle.go_type.specs.Assignable.{underlying_term_of};
ghost use Rattle.ssa_typed.specs.Calls.{is_cleared, is_closed, is_array, points_to_array, has_own_cap, has_own_len, is_ordered, is_run_of, deletes, copies_from, is_printed, has_cap, appends_elems, appends, fits_effect, fits_value, fits_builtin, fits_deferred_builtin};
ghost use Rattle.ssa_typed.specs.Operands.{shape, pointee};

use crate::known::Frame;
use crate::pairs::are_of;
use go_base::TypeId;
use go_type::{Basic, Builtin, TypeTerm, Types};
use ssa_ir::Operand;
use type_shapes::{is_any, is_byte, is_integer, is_plain, is_text, is_truth, may_send};

/// Whether a call of a built-in function is typed. `panic` is called with `go` and `defer` alone.
pub fn fits_builtin(
    frame: Frame,
    builtin: Builtin,
    arguments: &[Operand],
    register: Option<TypeId>,
) -> bool
    ensures { result ≡ fits_builtin frame.entry.code.now frame.entry.function.now builtin arguments.now register }
{
    match register {
        Some(of) => fits_value(frame, builtin, arguments, of),
        None => fits_effect(frame, builtin, arguments),
    }
}

pub fn fits_deferred_builtin(frame: Frame, builtin: Builtin, arguments: &[Operand]) -> bool
    ensures { result ≡ fits_deferred_builtin frame.entry.code.now frame.entry.function.now builtin arguments.now }
{
    match (builtin, arguments) {
        (Builtin::Panic, [value]) => frame.is_any_operand(value),
        (Builtin::Copy, [to, from]) => copies_from(frame, to, from),
        (Builtin::Recover, []) => true,
        _ => fits_effect(frame, builtin, arguments),
    }
}

/// Built-in functions without a result.
fn fits_effect(frame: Frame, builtin: Builtin, arguments: &[Operand]) -> bool
    ensures { result ≡ fits_effect frame.entry.code.now frame.entry.function.now builtin arguments.now }
{
    match (builtin, arguments) {
        (Builtin::Clear, [one]) => is_cleared(frame, one),
        (Builtin::Close, [one]) => is_closed(frame, one),
        (Builtin::Delete, [map, by]) => deletes(frame, map, by),
        (Builtin::Print | Builtin::Println, _) => are_printed(frame, arguments),
        _ => false,
    }
}

fn is_cleared(frame: Frame, operand: &Operand) -> bool
    ensures { result ≡ is_cleared (shape frame.entry.code.now frame.entry.function.now operand.now) }
{
    matches!(
        frame.shape(operand),
        Some(TypeTerm::Map { .. } | TypeTerm::Slice(_))
    )
}

fn is_closed(frame: Frame, operand: &Operand) -> bool
    ensures { result ≡ is_closed (shape frame.entry.code.now frame.entry.function.now operand.now) }
{
    match frame.shape(operand) {
        Some(TypeTerm::Chan { dir, .. }) => may_send(*dir),
        _ => false,
    }
}

fn deletes(frame: Frame, map: &Operand, by: &Operand) -> bool
    ensures { result ≡ deletes frame.entry.code.now frame.entry.function.now (shape frame.entry.code.now frame.entry.function.now map.now) by.now }
{
    match frame.shape(map) {
        Some(TypeTerm::Map { key, .. }) => frame.is(by, *key),
        _ => false,
    }
}

fn are_printed(frame: Frame, arguments: &[Operand]) -> bool
    ensures { result ≡ list_all (is_printed frame.entry.code.now frame.entry.function.now) arguments.now }
{
    for argument in arguments {
        if !is_printed(frame, argument) {
            return false;
        }
    }
    true
}

fn is_printed(frame: Frame, operand: &Operand) -> bool
    ensures { result ≡ is_printed frame.entry.code.now frame.entry.function.now operand.now }
{
    let types = &frame.code.types;
    match frame.held_type(operand) {
        Some(of) => is_truth(types, of) || is_integer(types, of) || is_text(types, of),
        None => false,
    }
}

/// Built-in functions with a result.
fn fits_value(frame: Frame, builtin: Builtin, arguments: &[Operand], of: TypeId) -> bool
    ensures { result ≡ fits_value frame.entry.code.now frame.entry.function.now builtin arguments.now of }
{
    match (builtin, arguments) {
        (Builtin::Append, [slice, items @ ..]) => {
            frame.is(slice, of) && appends(frame, of, items)
        }
        (Builtin::Cap, [one]) => is_plain(of, Basic::Int) && has_cap(frame, one),
        (Builtin::Len, [one]) => {
            is_plain(of, Basic::Int) && (has_cap(frame, one) || has_len(frame, one))
        }
        (Builtin::Copy, [to, from]) => is_plain(of, Basic::Int) && copies_from(frame, to, from),
        (Builtin::Max | Builtin::Min, [_, ..]) => is_ordered(&frame.code.types, of)
            && are_of(frame, arguments, of),
        (Builtin::Recover, []) => is_any(&frame.code.types, of),
        _ => false,
    }
}

/// Whether a type is one of integers or strings.
fn is_ordered(types: &Types, of: TypeId) -> bool
    ensures { result ≡ is_ordered types.now of }
{
    is_integer(types, of) || is_text(types, of)
}

/// Whether operands may be appended to a slice: one more slice of its elements, a string to bytes, or elements.
fn appends(frame: Frame, of: TypeId, items: &[Operand]) -> bool
    ensures { result ≡ appends frame.entry.code.now frame.entry.function.now (underlying_term_of frame.entry.code.now.types of) items.now }
{
    match frame.code.types.underlying_term(of) {
        Some(TypeTerm::Slice(elem)) => appends_elems(frame, *elem, items),
        _ => false,
    }
}

fn appends_elems(frame: Frame, elem: TypeId, items: &[Operand]) -> bool
    ensures { result ≡ appends_elems frame.entry.code.now frame.entry.function.now elem items.now }
{
    match items {
        [one] => is_run_of(frame, one, elem) || frame.is(one, elem),
        _ => are_of(frame, items, elem),
    }
}

/// Whether an operand is a slice of elements, or a string where these are bytes.
fn is_run_of(frame: Frame, operand: &Operand, elem: TypeId) -> bool
    ensures { result ≡ is_run_of frame.entry.code.now.types (shape frame.entry.code.now frame.entry.function.now operand.now) elem }
{
    match frame.shape(operand) {
        Some(TypeTerm::Slice(other)) => *other == elem,
        Some(TypeTerm::Basic(Basic::Text)) => is_byte(&frame.code.types, elem),
        _ => false,
    }
}

fn copies_from(frame: Frame, to: &Operand, from: &Operand) -> bool
    ensures { result ≡ copies_from frame.entry.code.now frame.entry.function.now (shape frame.entry.code.now frame.entry.function.now to.now) from.now }
{
    match frame.shape(to) {
        Some(TypeTerm::Slice(elem)) => is_run_of(frame, from, *elem),
        _ => false,
    }
}

fn has_cap(frame: Frame, operand: &Operand) -> bool
    ensures { result ≡ has_cap frame.entry.code.now frame.entry.function.now operand.now }
{
    has_own_cap(frame, operand) || points_to_array(frame, operand)
}

fn has_own_cap(frame: Frame, operand: &Operand) -> bool
    ensures { result ≡ has_own_cap (shape frame.entry.code.now frame.entry.function.now operand.now) }
{
    matches!(
        frame.shape(operand),
        Some(TypeTerm::Array { .. } | TypeTerm::Slice(_) | TypeTerm::Chan { .. })
    )
}

fn points_to_array(frame: Frame, operand: &Operand) -> bool
    ensures { result ≡ points_to_array frame.entry.code.now.types (pointee frame.entry.code.now frame.entry.function.now operand.now) }
{
    match frame.pointee(operand) {
        Some(base) => is_array(&frame.code.types, base),
        None => false,
    }
}

fn is_array(types: &Types, of: TypeId) -> bool
    ensures { result ≡ is_array (underlying_term_of types.now of) }
{
    matches!(types.underlying_term(of), Some(TypeTerm::Array { .. }))
}

fn has_len(frame: Frame, operand: &Operand) -> bool
    ensures { result ≡ has_own_len (shape frame.entry.code.now frame.entry.function.now operand.now) }
{
    matches!(
        frame.shape(operand),
        Some(TypeTerm::Basic(Basic::Text) | TypeTerm::Map { .. })
    )
}
