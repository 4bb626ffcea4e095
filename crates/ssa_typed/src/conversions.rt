//! Which types conversions need.

ghost use Rattle.std.specs.Prelude.{◌≡◌, length};
ghost use Rattle.std.specs.Cmp.Lexicographic.{pointwise};
ghost use Rattle.go_type.specs.Assignable.{underlying_term_of};
ghost use Rattle.go_type.specs.Identity.{like_method};
ghost use Rattle.go_type.specs.Table.{term_at};
ghost use Rattle.ssa_typed.specs.Conversions.{converts, converts_type, like_bare, like_bare_field, same_to, same_type, same_below, loses_direction, points_to_same, is_changed, changes, changes_pointer};
ghost use Rattle.ssa_typed.specs.Operands.{known, held_type};

use crate::known::{Frame, Known};
use go_base::TypeId;
use go_type::{Dir, Field, MethodType, TypeTerm, Types};
use ssa_ir::Operand;
use type_shapes::{is_characters, is_integer, is_text};

/// Whether a value is converted: an integer to an integer or a string, or between strings and bytes or runes.
pub fn fits_conversion(frame: Frame, operand: &Operand, to: TypeId) -> bool
    ensures { result ≡ converts frame.entry.code.now.types (held_type (known frame.entry.code.now frame.entry.function.now operand.now)) to }
{
    match frame.held_type(operand) {
        Some(from) => is_converted(&frame.code.types, from, to),
        None => false,
    }
}

fn is_converted(types: &Types, from: TypeId, to: TypeId) -> bool
    ensures { result ≡ converts_type types.now from to }
{
    if is_integer(types, from) {
        return is_integer(types, to) || is_text(types, to);
    }
    (is_text(types, from) && is_characters(types, to))
        || (is_text(types, to) && is_characters(types, from))
}

/// Whether a value is one of a type too: the underlying types are identical but for tags, or a channel loses a direction.
pub fn fits_change(frame: Frame, operand: &Operand, to: TypeId) -> bool
    ensures { result ≡ changes frame.entry.code.now (known frame.entry.code.now frame.entry.function.now operand.now) to }
{
    match frame.known(operand) {
        Some(Known::Held(from)) => is_changed(&frame.code.types, from, to),
        Some(Known::Function(id)) => frame.is_below_type_of(to, id),
        Some(Known::Address(base)) => changes_pointer(&frame.code.types, base, to),
        None => false,
    }
}

fn is_changed(types: &Types, from: TypeId, to: TypeId) -> bool
    ensures { result ≡ is_changed types.now from to }
{
    let (a, b) = (types.underlying(from), types.underlying(to));
    is_same_type(types, a, b) || loses_direction(types, a, b) || points_to_same(types, a, b)
}

/// Whether a type is a pointer to a type of the same underlying type.
fn changes_pointer(types: &Types, base: TypeId, to: TypeId) -> bool
    ensures { result ≡ changes_pointer types.now base (underlying_term_of types.now to) }
{
    match types.underlying_term(to) {
        Some(TypeTerm::Pointer(other)) => is_same_below(types, base, *other),
        _ => false,
    }
}

/// Whether two pointer types point to types whose underlying types are identical but for tags.
fn points_to_same(types: &Types, a: TypeId, b: TypeId) -> bool
    ensures { result ≡ points_to_same types.now (term_at types.now a) (term_at types.now b) }
{
    match (types.get(a), types.get(b)) {
        (Some(TypeTerm::Pointer(a)), Some(TypeTerm::Pointer(b))) => is_same_below(types, *a, *b),
        _ => false,
    }
}

fn is_same_below(types: &Types, a: TypeId, b: TypeId) -> bool
    ensures { result ≡ same_below types.now a b }
{
    is_same_type(types, types.underlying(a), types.underlying(b))
}

fn is_same_type(types: &Types, a: TypeId, b: TypeId) -> bool
    ensures { result ≡ same_type types.now a b }
{
    is_same(types, a, b, types.len())
}

/// Whether a channel of both directions becomes one of one direction.
fn loses_direction(types: &Types, from: TypeId, to: TypeId) -> bool
    ensures { result ≡ loses_direction (term_at types.now from) (term_at types.now to) }
{
    match (types.get(from), types.get(to)) {
        (
            Some(
                TypeTerm::Chan {
                    dir: Dir::Both,
                    elem,
                },
            ),
            Some(TypeTerm::Chan { elem: other, .. }),
        ) => elem == other,
        _ => false,
    }
}

/// Whether two types are identical but for tags, down to a depth. Those with one id are so at once.
#[cycle(same)]
fn is_same(types: &Types, a: TypeId, b: TypeId, depth: usize) -> bool
    ensures { result ≡ same_to depth types.now a b }
{
    if a == b {
        return true;
    }
    if depth == 0 {
        return false;
    }
    match (types.get(a), types.get(b)) {
        (Some(a), Some(b)) => is_same_term(types, a, b, depth - 1),
        _ => false,
    }
}

#[cycle(same)]
fn is_same_term(types: &Types, a: &TypeTerm, b: &TypeTerm, depth: usize) -> bool
    ensures { result ≡ like_bare (same_to depth types.now) a.now b.now }
{
    match (a, b) {
        (TypeTerm::Pointer(a), TypeTerm::Pointer(b)) | (TypeTerm::Slice(a), TypeTerm::Slice(b)) => {
            is_same(types, *a, *b, depth)
        }
        (
            TypeTerm::Array { len, elem },
            TypeTerm::Array {
                len: n,
                elem: other,
            },
        ) => { len == n && is_same(types, *elem, *other, depth) }
        (
            TypeTerm::Map { key, elem },
            TypeTerm::Map {
                key: by,
                elem: other,
            },
        ) => { is_same(types, *key, *by, depth) && is_same(types, *elem, *other, depth) }
        (
            TypeTerm::Chan { dir, elem },
            TypeTerm::Chan {
                dir: way,
                elem: other,
            },
        ) => { dir == way && is_same(types, *elem, *other, depth) }
        (TypeTerm::Func(a), TypeTerm::Func(b)) => {
            are_same(types, a.params.as_slice(), b.params.as_slice(), depth)
                && are_same(types, a.results.as_slice(), b.results.as_slice(), depth)
                && a.variadic == b.variadic
        }
        (TypeTerm::Struct(a), TypeTerm::Struct(b)) => {
            are_same_fields(types, a.as_slice(), b.as_slice(), depth)
        }
        (TypeTerm::Interface(a), TypeTerm::Interface(b)) => {
            are_same_methods(types, a.as_slice(), b.as_slice(), depth)
        }
        _ => false,
    }
}

#[cycle(same)]
fn are_same(types: &Types, a: &[TypeId], b: &[TypeId], depth: usize) -> bool
    ensures { result ≡ pointwise (same_to depth types.now) a.now b.now }
{
    if a.len() != b.len() {
        return false;
    }
    for (index, one) in a.iter().enumerate() {
        if !is_same(types, *one, b[index], depth) {
            return false;
        }
    }
    true
}

#[cycle(same)]
fn are_same_fields(types: &Types, a: &[Field], b: &[Field], depth: usize) -> bool
    ensures { result ≡ pointwise (like_bare_field (same_to depth types.now)) a.now b.now }
{
    if a.len() != b.len() {
        return false;
    }
    for (index, one) in a.iter().enumerate() {
        if !is_same_field(types, one, &b[index], depth) {
            return false;
        }
    }
    true
}

#[cycle(same)]
fn is_same_field(types: &Types, a: &Field, b: &Field, depth: usize) -> bool
    ensures { result ≡ like_bare_field (same_to depth types.now) a.now b.now }
{
    a.name == b.name
        && a.package == b.package
        && a.embedded == b.embedded
        && is_same(types, a.of, b.of, depth)
}

#[cycle(same)]
fn are_same_methods(types: &Types, a: &[MethodType], b: &[MethodType], depth: usize) -> bool
    ensures { result ≡ pointwise (like_method (same_to depth types.now)) a.now b.now }
{
    if a.len() != b.len() {
        return false;
    }
    for (index, one) in a.iter().enumerate() {
        if !is_same_method(types, *one, b[index], depth) {
            return false;
        }
    }
    true
}

#[cycle(same)]
fn is_same_method(types: &Types, a: MethodType, b: MethodType, depth: usize) -> bool
    ensures { result ≡ like_method (same_to depth types.now) a b }
{
    a.name == b.name && a.package == b.package && is_same(types, a.of, b.of, depth)
}
