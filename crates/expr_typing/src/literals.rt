//! Which types composite literals need. Go specification, "Composite literals".

ghost use Rattle.std.specs.Prelude.{◌≡◌, ◌&&◌, IfOk, map};
ghost use Rattle.go_type.specs.Assignable.{underlying_term_of};
ghost use Rattle.expr_typing.specs.Parts as part;
ghost use Rattle.typed_trees.specs.Nodes.{are_distinct};

use crate::around::Around;
use crate::distinct::{are_distinct_fields, are_distinct_items};
use go_base::{NoMemory, TypeId};
use go_tree::{FieldInit, ItemInit};
use go_type::{TypeTerm, Types};

/// Whether a type is one of structs, and each field is given at most once.
pub fn are_fields(around: Around<'_>, fields: &[FieldInit], of: TypeId) -> Result<bool, NoMemory>
    ensures { IfOk result (λ r. r ≡ (part.is_struct (underlying_term_of around.entry.program.now.types of) && are_distinct (map (λ x. x.field) fields.now))) }
{
    let once_each = are_distinct_fields(around.alloc, fields)?;
    Ok(is_struct(&around.program.types, of) & once_each)
}

fn is_struct(types: &Types, of: TypeId) -> bool
    ensures { result ≡ part.is_struct (underlying_term_of types.now of) }
{
    matches!(types.underlying_term(of), Some(TypeTerm::Struct(_)))
}

/// Whether a type is one of slices, or of arrays of a length, and each index is given at most once.
pub fn are_items(
    around: Around<'_>,
    items: &[ItemInit],
    len: u64,
    of: TypeId,
) -> Result<bool, NoMemory>
    ensures { IfOk result (λ r. r ≡ (part.has_items (underlying_term_of around.entry.program.now.types of) len && are_distinct (map (λ x. x.index) items.now))) }
{
    let once_each = are_distinct_items(around.alloc, items)?;
    Ok(has_items(&around.program.types, of, len) & once_each)
}

fn has_items(types: &Types, of: TypeId, len: u64) -> bool
    ensures { result ≡ part.has_items (underlying_term_of types.now of) len }
{
    match types.underlying_term(of) {
        Some(TypeTerm::Array { len: size, .. }) => len == *size,
        Some(TypeTerm::Slice(_)) => true,
        _ => false,
    }
}

/// The type of the elements of an array or slice type.
pub fn item_type(types: &Types, of: TypeId) -> Option<TypeId>
    ensures { result ≡ part.item_type (underlying_term_of types.now of) }
{
    match types.underlying_term(of) {
        Some(TypeTerm::Array { elem, .. } | TypeTerm::Slice(elem)) => Some(*elem),
        _ => None,
    }
}

/// The type of the keys of a map type.
pub fn key_type(types: &Types, of: TypeId) -> Option<TypeId>
    ensures { result ≡ part.key_type (underlying_term_of types.now of) }
{
    match types.underlying_term(of) {
        Some(TypeTerm::Map { key, .. }) => Some(*key),
        _ => None,
    }
}

/// The type of the elements of a map type.
pub fn value_type(types: &Types, of: TypeId) -> Option<TypeId>
    ensures { result ≡ part.value_type (underlying_term_of types.now of) }
{
    match types.underlying_term(of) {
        Some(TypeTerm::Map { elem, .. }) => Some(*elem),
        _ => None,
    }
}

/// Whether a type is the one that is wanted, where there is one.
pub fn is_of(of: TypeId, wanted: Option<TypeId>) -> bool
    ensures { result ≡ part.is_of of wanted }
{
    match wanted {
        Some(wanted) => of == wanted,
        None => false,
    }
}
