//! Which types fields, elements and slices need.

ghost use Rattle.std.specs.Prelude.{◌≡◌, ◌&&◌};
ghost use Rattle.go_type.specs.Table.{term_at};
ghost use Rattle.ssa_typed.specs.Forms.{is_pointer_where, is_slice_where, array_elem_at, gives, has_field, has_field_address, has_elem, elem_below, looks_up, updates, is_bound, are_bounds, slices};
ghost use Rattle.ssa_typed.specs.Operands.{shape, pointee, is_integer_operand};

use crate::known::Frame;
use go_base::TypeId;
use go_type::{Basic, TypeTerm, Types};
use ssa_ir::Operand;
use type_shapes::{array_elem, field_of, is_plain, is_pointer_to, is_slice_of, is_with_ok};

/// Whether a register has the type of a result, or with a second boolean result the tuple of both.
pub fn gives(types: &Types, register: TypeId, of: TypeId, comma_ok: bool) -> bool
    ensures { result ≡ gives types.now register of comma_ok }
{
    if comma_ok {
        is_with_ok(types, register, of)
    } else {
        register == of
    }
}

fn is_pointer_where(types: &Types, of: TypeId, base: Option<TypeId>) -> bool
    ensures { result ≡ is_pointer_where (term_at types.now of) base }
{
    match base {
        Some(base) => is_pointer_to(types, of, base),
        None => false,
    }
}

fn is_slice_where(types: &Types, of: TypeId, elem: Option<TypeId>) -> bool
    ensures { result ≡ is_slice_where (term_at types.now of) elem }
{
    match elem {
        Some(elem) => is_slice_of(types, of, elem),
        None => false,
    }
}

/// The elements of an array type, where there is one.
fn array_elem_at(types: &Types, array: Option<TypeId>) -> Option<TypeId>
    ensures { result ≡ array_elem_at types.now array }
{
    match array {
        Some(array) => array_elem(types, array),
        None => None,
    }
}

pub fn fits_field(frame: Frame, operand: &Operand, field: u32, of: TypeId) -> bool
    ensures { result ≡ has_field (shape frame.entry.code.now frame.entry.function.now operand.now) field of }
{
    match frame.shape(operand) {
        Some(TypeTerm::Struct(fields)) => match fields.as_slice().get(field as usize) {
            Some(field) => field.of == of,
            None => false,
        },
        _ => false,
    }
}

pub fn fits_field_address(frame: Frame, operand: &Operand, field: u32, of: TypeId) -> bool
    ensures { result ≡ has_field_address frame.entry.code.now.types (pointee frame.entry.code.now frame.entry.function.now operand.now) field of }
{
    let types = &frame.code.types;
    match frame.pointee(operand) {
        Some(base) => is_pointer_where(types, of, field_of(types, base, field)),
        None => false,
    }
}

pub fn fits_index(frame: Frame, operand: &Operand, index: &Operand, of: TypeId) -> bool
    ensures { result ≡ (has_elem (shape frame.entry.code.now frame.entry.function.now operand.now) of && is_integer_operand frame.entry.code.now frame.entry.function.now index.now) }
{
    has_elem(frame, operand, of) && frame.is_integer_operand(index)
}

fn has_elem(frame: Frame, operand: &Operand, of: TypeId) -> bool
    ensures { result ≡ has_elem (shape frame.entry.code.now frame.entry.function.now operand.now) of }
{
    match frame.shape(operand) {
        Some(TypeTerm::Array { elem, .. }) => *elem == of,
        Some(TypeTerm::Basic(Basic::Text)) => is_plain(of, Basic::Uint8),
        _ => false,
    }
}

pub fn fits_index_address(frame: Frame, operand: &Operand, index: &Operand, of: TypeId) -> bool
    ensures { result ≡ (is_integer_operand frame.entry.code.now frame.entry.function.now index.now && is_pointer_where (term_at frame.entry.code.now.types of) (elem_below frame.entry.code.now.types (shape frame.entry.code.now frame.entry.function.now operand.now) (pointee frame.entry.code.now frame.entry.function.now operand.now))) }
{
    frame.is_integer_operand(index)
        && is_pointer_where(&frame.code.types, of, elem_below(frame, operand))
}

/// The elements of a slice, or of an array that is pointed to.
fn elem_below(frame: Frame, operand: &Operand) -> Option<TypeId>
    ensures { result ≡ elem_below frame.entry.code.now.types (shape frame.entry.code.now frame.entry.function.now operand.now) (pointee frame.entry.code.now frame.entry.function.now operand.now) }
{
    match frame.shape(operand) {
        Some(TypeTerm::Slice(elem)) => Some(*elem),
        _ => array_elem_at(&frame.code.types, frame.pointee(operand)),
    }
}

pub fn fits_lookup(frame: Frame, map: &Operand, key: &Operand, comma_ok: bool, of: TypeId) -> bool
    ensures { result ≡ looks_up frame.entry.code.now frame.entry.function.now (shape frame.entry.code.now frame.entry.function.now map.now) key.now comma_ok of }
{
    match frame.shape(map) {
        Some(TypeTerm::Map { key: by, elem }) => {
            frame.is(key, *by) && gives(&frame.code.types, of, *elem, comma_ok)
        }
        _ => false,
    }
}

pub fn fits_update(frame: Frame, map: &Operand, key: &Operand, value: &Operand) -> bool
    ensures { result ≡ updates frame.entry.code.now frame.entry.function.now (shape frame.entry.code.now frame.entry.function.now map.now) key.now value.now }
{
    match frame.shape(map) {
        Some(TypeTerm::Map { key: by, elem }) => frame.is(key, *by) && frame.is(value, *elem),
        _ => false,
    }
}

fn is_bound(frame: Frame, bound: &Option<Operand>) -> bool
    ensures { result ≡ is_bound frame.entry.code.now frame.entry.function.now bound.now }
{
    match bound {
        Some(bound) => frame.is_integer_operand(bound),
        None => true,
    }
}

pub fn are_bounds(
    frame: Frame,
    low: &Option<Operand>,
    high: &Option<Operand>,
    max: &Option<Operand>,
) -> bool
    ensures { result ≡ are_bounds frame.entry.code.now frame.entry.function.now low.now high.now max.now }
{
    is_bound(frame, low) && is_bound(frame, high) && is_bound(frame, max)
}

pub fn fits_slice(frame: Frame, operand: &Operand, has_max: bool, of: TypeId) -> bool
    ensures { result ≡ slices frame.entry.code.now frame.entry.function.now (shape frame.entry.code.now frame.entry.function.now operand.now) operand.now has_max of }
{
    match frame.shape(operand) {
        Some(TypeTerm::Slice(_)) => frame.is(operand, of),
        Some(TypeTerm::Basic(Basic::Text)) => !has_max && frame.is(operand, of),
        _ => {
            let types = &frame.code.types;
            is_slice_where(types, of, array_elem_at(types, frame.pointee(operand)))
        }
    }
}
