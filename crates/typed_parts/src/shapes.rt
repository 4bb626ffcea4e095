//! What the underlying type of an operand is, for those who look at its elements.

ghost use Rattle.std.specs.Prelude.{◌≡◌, ◌<◌, ◌^◌, length};
ghost use Rattle.go_rules.specs.Untyped.{is_text_type};
ghost use Rattle.go_type.specs.Assignable.{underlying_term_of};
ghost use Rattle.typed_parts.specs.Shapes.{array_behind, elem_of, fields_of, is_untyped_text, pointed, shape_of, term_shape};

use crate::ground::Ground;
use go_base::TypeId;
use go_rules::{Untyped, untyped_kind};
use go_type::{Basic, Dir, Field, TypeTerm, Types};

/// A type whose values have elements.
#[derive(Clone, Copy)]
pub enum Shape {
    /// A string, or an untyped one.
    Text,
    Array {
        len: u64,
        elem: TypeId,
    },
    /// A pointer to an array type.
    ArrayPointer {
        array: TypeId,
        len: u64,
        elem: TypeId,
    },
    Slice {
        elem: TypeId,
    },
    Map {
        key: TypeId,
        elem: TypeId,
    },
    Chan {
        dir: Dir,
        elem: TypeId,
    },
}

/// What a type's underlying type is. None where its values have no elements.
pub fn shape_of(ground: &Ground, of: TypeId) -> Option<Shape>
    ensures { result ≡ shape_of ground.now.types of }
{
    match pointed(ground, of) {
        Some(array) => pointed_shape(&ground.types, array),
        None => plain_shape(&ground.types, of),
    }
}

fn pointed_shape(types: &Types, array: TypeId) -> Option<Shape>
    ensures { result ≡ array_behind array (underlying_term_of types.now array) }
{
    match types.underlying_term(array) {
        Some(TypeTerm::Array { len, elem }) => Some(Shape::ArrayPointer {
            array,
            len: *len,
            elem: *elem,
        }),
        _ => None,
    }
}

fn plain_shape(types: &Types, of: TypeId) -> Option<Shape>
    ensures { result ≡ term_shape (underlying_term_of types.now of) }
{
    match types.underlying_term(of) {
        Some(TypeTerm::Basic(Basic::Text | Basic::UntypedText)) => Some(Shape::Text),
        Some(TypeTerm::Array { len, elem }) => Some(Shape::Array {
            len: *len,
            elem: *elem,
        }),
        Some(TypeTerm::Slice(elem)) => Some(Shape::Slice { elem: *elem }),
        Some(TypeTerm::Map { key, elem }) => Some(Shape::Map {
            key: *key,
            elem: *elem,
        }),
        Some(TypeTerm::Chan { dir, elem }) => Some(Shape::Chan {
            dir: *dir,
            elem: *elem,
        }),
        _ => None,
    }
}

/// What a pointer type points to.
pub fn pointed(ground: &Ground, of: TypeId) -> Option<TypeId>
    ensures { result ≡ pointed ground.now.types of }
{
    match ground.types.underlying_term(of) {
        Some(TypeTerm::Pointer(base)) => Some(*base),
        _ => None,
    }
}

/// Whether a type is the kind of untyped strings.
pub fn is_untyped_text(types: &Types, of: TypeId) -> bool
    ensures { result ≡ is_untyped_text types.now of }
{
    matches!(untyped_kind(types, of), Some(Untyped::Text))
}

/// The type of the elements of a slice type.
pub fn elem_of(types: &Types, of: TypeId) -> Option<TypeId>
    ensures { result ≡ elem_of types.now of }
{
    match types.underlying_term(of) {
        Some(TypeTerm::Slice(elem)) => Some(*elem),
        _ => None,
    }
}

/// Whether a type's underlying type is that of strings.
pub fn is_text(types: &Types, of: TypeId) -> bool
    ensures { result ≡ is_text_type types.now of }
{
    matches!(
        types.underlying_term(of),
        Some(TypeTerm::Basic(Basic::Text))
    )
}

/// The fields of a struct type, and none of another.
pub fn fields_of(types: &Types, of: TypeId) -> &[Field]
    ensures fields { result.now ≡ fields_of types.now of }
    ensures few { length result.now < 2 ^ 32 }
{
    match types.underlying_term(of) {
        Some(TypeTerm::Struct(fields)) => fields.as_slice(),
        _ => &[],
    }
}
