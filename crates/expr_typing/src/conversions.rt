//! Which types may be converted to which. Go specification, "Conversions".

ghost use Rattle.std.specs.Prelude.{◌≡◌};
ghost use Rattle.go_type.specs.Assignable.{underlying_term_of};
ghost use Rattle.expr_typing.specs.Telling.{Told, at_tests};
ghost use Rattle.typed_trees.specs.Conversions as conversion;
ghost use Rattle.typed_trees.specs.Tests.{Tests};

use crate::alike::is_same_but_tags;
use crate::around::Around;
use crate::nodes::has_integers;
use go_base::TypeId;
use go_type::{Dir, TypeTerm, Types};
use type_shapes::{is_characters, is_interface, is_text};

/// Whether a value of a type may be converted to another that is no interface.
pub fn fits_conversion(around: Around<'_>, from: TypeId, to: TypeId) -> bool
    ensures { (told : Told around.entry.program.now.types) → result ≡ conversion.fits_conversion (at_tests around.entry told.tests) from to }
{
    !is_interface(&around.program.types, to)
        & (keeps_value(around, from, to) | makes_value(around, from, to))
}

fn keeps_value(around: Around<'_>, from: TypeId, to: TypeId) -> bool
    ensures { (told : Told around.entry.program.now.types) → result ≡ conversion.keeps_value (at_tests around.entry told.tests) from to }
{
    is_alike_below(around, from, to)
        || loses_direction(&around.program.types, from, to)
        || points_alike(around, from, to)
}

/// Whether the underlying types of two types are identical but for tags.
fn is_alike_below(around: Around<'_>, from: TypeId, to: TypeId) -> bool
    ensures { (told : Told around.entry.program.now.types) → result ≡ conversion.alike_below (at_tests around.entry told.tests) from to }
{
    let types = &around.program.types;
    is_same_but_tags(types, types.underlying(from), types.underlying(to))
}

/// Whether a channel of both directions becomes one of the same elements.
fn loses_direction(types: &Types, from: TypeId, to: TypeId) -> bool
    ensures { result ≡ conversion.loses_direction (underlying_term_of types.now from) (underlying_term_of types.now to) }
{
    match (types.underlying_term(from), types.underlying_term(to)) {
        (
            Some(
                TypeTerm::Chan {
                    dir: Dir::Both,
                    elem,
                },
            ),
            Some(TypeTerm::Chan { elem: other, .. }),
        ) => elem == other,
        _ => false,
    }
}

/// Whether two pointer types point to types whose underlying types are identical but for tags.
fn points_alike(around: Around<'_>, from: TypeId, to: TypeId) -> bool
    ensures { (told : Told around.entry.program.now.types) → result ≡ conversion.points_alike (at_tests around.entry told.tests) (underlying_term_of around.entry.program.now.types from) (underlying_term_of around.entry.program.now.types to) }
{
    let types = &around.program.types;
    match (types.underlying_term(from), types.underlying_term(to)) {
        (Some(TypeTerm::Pointer(from)), Some(TypeTerm::Pointer(to))) => {
            is_alike_below(around, *from, *to)
        }
        _ => false,
    }
}

fn makes_value(around: Around<'_>, from: TypeId, to: TypeId) -> bool
    ensures { (tests : Tests) → result ≡ conversion.makes_value (at_tests around.entry tests) from to }
{
    let types = &around.program.types;
    (has_integers(around, from) && (has_integers(around, to) || is_text(types, to)))
        || (is_text(types, from) && is_characters(types, to))
        || (is_characters(types, from) && is_text(types, to))
}
