//! What types are, by their terms or by those of their underlying types.
#![tactic(auto)]

ghost use Rattle.std.specs.Prelude.{◌≡◌, is_some, option_copied};
ghost use Rattle.go_type.specs.Assignable.{underlying_term_of};
ghost use Rattle.go_type.specs.Kinds.{kind_of};
ghost use Rattle.go_type.specs.Same.{same_id};
ghost use Rattle.go_type.specs.Table.{term_at, basic_id};
ghost use Rattle.type_shapes.specs.Shapes.{is_text, is_truth, is_interface, is_any, is_characters, is_byte, is_state, is_value_type, has_nil, has_zero, is_pointer_to, is_slice_of, parts_of, is_with_ok, base_of, array_elem, field_of, may_send, may_receive, is_id, is_map, is_chan, is_slice};

use go_base::TypeId;
use go_type::{Basic, Dir, TypeTerm, Types, basic, int_kind};

/// Whether the underlying type is one of integers. Go specification, "Numeric types".
pub fn is_integer(types: &Types, of: TypeId) -> bool
    ensures { result ≡ is_some (kind_of types.now of) }
{
    int_kind(types, of).is_some()
}

/// Whether the underlying type is `string`. Go specification, "String types".
pub fn is_text(types: &Types, of: TypeId) -> bool
    ensures { result ≡ is_text (underlying_term_of types.now of) }
{
    matches!(
        types.underlying_term(of),
        Some(TypeTerm::Basic(Basic::Text))
    )
}

/// Whether the underlying type is `bool`. Go specification, "Boolean types".
pub fn is_truth(types: &Types, of: TypeId) -> bool
    ensures { result ≡ is_truth (underlying_term_of types.now of) }
{
    matches!(
        types.underlying_term(of),
        Some(TypeTerm::Basic(Basic::Bool))
    )
}

/// Whether the underlying type is an interface. Go specification, "Interface types".
pub fn is_interface(types: &Types, of: TypeId) -> bool
    ensures { result ≡ is_interface (underlying_term_of types.now of) }
{
    matches!(types.underlying_term(of), Some(TypeTerm::Interface(_)))
}

/// Whether the underlying type is a map. Go specification, "Map types".
pub fn is_map(types: &Types, of: TypeId) -> bool
    ensures { result ≡ is_map (underlying_term_of types.now of) }
{
    matches!(types.underlying_term(of), Some(TypeTerm::Map { .. }))
}

/// Whether the underlying type is a channel. Go specification, "Channel types".
pub fn is_chan(types: &Types, of: TypeId) -> bool
    ensures { result ≡ is_chan (underlying_term_of types.now of) }
{
    matches!(types.underlying_term(of), Some(TypeTerm::Chan { .. }))
}

/// Whether the underlying type is a slice. Go specification, "Slice types".
pub fn is_slice(types: &Types, of: TypeId) -> bool
    ensures { result ≡ is_slice (underlying_term_of types.now of) }
{
    matches!(types.underlying_term(of), Some(TypeTerm::Slice(_)))
}

/// Whether a type is `interface{}`.
pub fn is_any(types: &Types, of: TypeId) -> bool
    ensures { result ≡ is_any (term_at types.now of) }
{
    match types.get(of) {
        Some(TypeTerm::Interface(methods)) => methods.as_slice().is_empty(),
        _ => false,
    }
}

/// Whether the underlying type of a type is `interface{}`.
pub fn is_any_below(types: &Types, of: TypeId) -> bool
    ensures { result ≡ is_any (underlying_term_of types.now of) }
{
    match types.underlying_term(of) {
        Some(TypeTerm::Interface(methods)) => methods.as_slice().is_empty(),
        _ => false,
    }
}

/// Whether a type is one of slices of bytes or runes.
pub fn is_characters(types: &Types, of: TypeId) -> bool
    ensures { result ≡ is_characters types.now (underlying_term_of types.now of) }
{
    match types.underlying_term(of) {
        Some(TypeTerm::Slice(elem)) => matches!(
            types.underlying_term(*elem),
            Some(TypeTerm::Basic(Basic::Uint8 | Basic::Int32))
        ),
        _ => false,
    }
}

/// Whether the underlying type is `uint8`.
pub fn is_byte(types: &Types, of: TypeId) -> bool
    ensures { result ≡ is_byte (underlying_term_of types.now of) }
{
    matches!(
        types.underlying_term(of),
        Some(TypeTerm::Basic(Basic::Uint8))
    )
}

/// Whether a type is a tuple or the state of a range.
pub fn is_state(types: &Types, of: TypeId) -> bool
    ensures { result ≡ is_state (underlying_term_of types.now of) }
{
    matches!(
        types.underlying_term(of),
        Some(TypeTerm::Tuple(_) | TypeTerm::Iter(_))
    )
}

/// Whether a type is held, and is neither a tuple nor the state of a range.
pub fn is_value_type(types: &Types, of: TypeId) -> bool
    ensures { result ≡ is_value_type (term_at types.now of) }
{
    match types.get(of) {
        None | Some(TypeTerm::Tuple(_) | TypeTerm::Iter(_)) => false,
        Some(_) => true,
    }
}

/// Whether a type has the value `nil`. Go specification, "The zero value".
pub fn has_nil(types: &Types, of: TypeId) -> bool
    ensures { result ≡ has_nil (underlying_term_of types.now of) }
{
    matches!(
        types.underlying_term(of),
        Some(
            TypeTerm::Pointer(_)
                | TypeTerm::Func(_)
                | TypeTerm::Slice(_)
                | TypeTerm::Map { .. }
                | TypeTerm::Chan { .. }
                | TypeTerm::Interface(_)
        )
    )
}

/// Whether a type has a zero value: it is defined, and neither a tuple nor the state of a range.
pub fn has_zero(types: &Types, of: TypeId) -> bool
    ensures { result ≡ has_zero (underlying_term_of types.now of) }
{
    match types.underlying_term(of) {
        None | Some(TypeTerm::Tuple(_) | TypeTerm::Iter(_) | TypeTerm::Declared(_)) => false,
        Some(_) => true,
    }
}

/// Whether a type is the predeclared one.
pub fn is_plain(of: TypeId, kind: Basic) -> bool
    ensures { result ≡ same_id of (basic_id kind) }
{
    of == basic(kind)
}

/// Whether a type is a pointer to another.
pub fn is_pointer_to(types: &Types, of: TypeId, base: TypeId) -> bool
    ensures { result ≡ is_pointer_to (term_at types.now of) base }
{
    match types.get(of) {
        Some(TypeTerm::Pointer(to)) => *to == base,
        _ => false,
    }
}

/// Whether a type is a slice of another.
pub fn is_slice_of(types: &Types, of: TypeId, elem: TypeId) -> bool
    ensures { result ≡ is_slice_of (term_at types.now of) elem }
{
    match types.get(of) {
        Some(TypeTerm::Slice(other)) => *other == elem,
        _ => false,
    }
}

/// The parts of a tuple.
pub fn parts(types: &Types, of: TypeId) -> Option<&[TypeId]>
    ensures { option_copied result ≡ parts_of (term_at types.now of) }
{
    match types.get(of) {
        Some(TypeTerm::Tuple(parts)) => Some(parts.as_slice()),
        _ => None,
    }
}

/// Whether a type is a tuple of another and `bool`.
pub fn is_with_ok(types: &Types, of: TypeId, first: TypeId) -> bool
    ensures { result ≡ is_with_ok first (parts_of (term_at types.now of)) }
{
    match parts(types, of) {
        Some([one, two]) => *one == first && is_plain(*two, Basic::Bool),
        _ => false,
    }
}

/// What a pointer points to.
pub fn base_of(types: &Types, of: TypeId) -> Option<TypeId>
    ensures { result ≡ base_of (underlying_term_of types.now of) }
{
    match types.underlying_term(of) {
        Some(TypeTerm::Pointer(base)) => Some(*base),
        _ => None,
    }
}

/// The type of the elements of an array type.
pub fn array_elem(types: &Types, of: TypeId) -> Option<TypeId>
    ensures { result ≡ array_elem (underlying_term_of types.now of) }
{
    match types.underlying_term(of) {
        Some(TypeTerm::Array { elem, .. }) => Some(*elem),
        _ => None,
    }
}

/// The type of a field of a struct type.
pub fn field_of(types: &Types, of: TypeId, field: u32) -> Option<TypeId>
    ensures { result ≡ field_of field (underlying_term_of types.now of) }
{
    match types.underlying_term(of) {
        Some(TypeTerm::Struct(fields)) => match fields.as_slice().get(field as usize) {
            Some(field) => Some(field.of),
            None => None,
        },
        _ => None,
    }
}

/// Whether values may be sent in a direction. Go specification, "Channel types".
pub fn may_send(dir: Dir) -> bool
    ensures { result ≡ may_send dir }
{
    matches!(dir, Dir::Both | Dir::Send)
}

/// Whether values may be received in a direction.
pub fn may_receive(dir: Dir) -> bool
    ensures { result ≡ may_receive dir }
{
    matches!(dir, Dir::Both | Dir::Receive)
}

/// Whether a type is the one wanted, where there is one.
pub fn is_id(id: Option<TypeId>, of: TypeId) -> bool
    ensures { result ≡ is_id id of }
{
    match id {
        Some(id) => id == of,
        None => false,
    }
}
