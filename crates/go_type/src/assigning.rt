//! When a value of one type may be assigned to another, and which types implement an interface. Go specification,
//! "Assignability" and "Implementing an interface".

ghost use Rattle.std.specs.Prelude.{◌≡◌, ◌↔◌, IsTrue};
ghost use Rattle.std.specs.List.{All};
ghost use Rattle.go_type.specs.Assignable.{Assignable, Fits, has_values, is_untyped, Implements, HasMethodOf, is_named, underlying_term_of, Narrows};
ghost use Rattle.go_type.specs.Table.{term_at, underlying_of};
ghost use Rattle.go_type.specs.Identity.{Identical};

use crate::members::Wanted;
use crate::methods::SelectionKind;
use crate::selectors::is_declared_pointer;
use crate::sights::{Sight, sight_of};
use crate::term::{Basic, Dir, MethodType, TypeTerm};
use crate::types::{Types, identical};
use go_base::TypeId;

/// Whether a typed value of one type may be assigned to a variable of another: the types are identical; or their underlying
/// types are and one is not named; or the second is an interface that the first implements; or the first is a channel
/// for both directions, the second a channel of an identical element type, and one of them is not named. A tuple and an
/// untyped constant are no typed values.
pub fn assignable(types: &Types, from: TypeId, to: TypeId) -> bool
    ensures { IsTrue result ↔ Assignable types.now from to }
{
    has_values(types, from) && fits(types, from, to)
}

/// Whether a type is that of typed values: no tuple, no state of a range and no kind of untyped constants.
fn has_values(types: &Types, id: TypeId) -> bool
    ensures { result ≡ has_values (term_at types.now id) }
{
    match types.get(id) {
        Some(TypeTerm::Basic(basic)) => !is_untyped(*basic),
        Some(TypeTerm::Tuple(_) | TypeTerm::Iter(_)) | None => false,
        Some(_) => true,
    }
}

fn is_untyped(basic: Basic) -> bool
    ensures { result ≡ is_untyped basic }
{
    matches!(
        basic,
        Basic::UntypedBool
            | Basic::UntypedInt
            | Basic::UntypedRune
            | Basic::UntypedText
            | Basic::UntypedNil
    )
}

fn fits(types: &Types, from: TypeId, to: TypeId) -> bool
    ensures { IsTrue result ↔ Fits types.now from to }
{
    identical(types, from, to)
        || ((has_underlying_of(types, from, to) || is_narrowing(types, from, to))
            && !(has_name(types, from) && has_name(types, to)))
        || implements(types, from, to)
}

fn has_underlying_of(types: &Types, a: TypeId, b: TypeId) -> bool
    ensures { IsTrue result ↔ Identical types.now (underlying_of types.now a) (underlying_of types.now b) }
{
    identical(types, types.underlying(a), types.underlying(b))
}

/// Whether a type is predeclared or declared.
fn has_name(types: &Types, id: TypeId) -> bool
    ensures { result ≡ is_named (term_at types.now id) }
{
    matches!(
        types.get(id),
        Some(TypeTerm::Basic(_) | TypeTerm::Declared(_))
    )
}

/// Whether a channel for both directions becomes one of an identical element type.
fn is_narrowing(types: &Types, from: TypeId, to: TypeId) -> bool
    ensures { IsTrue result ↔ Narrows types.now (underlying_term_of types.now from) (underlying_term_of types.now to) }
{
    let Some(
        TypeTerm::Chan {
            dir: Dir::Both,
            elem,
        },
    ) = types.underlying_term(from)
    else {
        return false;
    };
    match types.underlying_term(to) {
        Some(TypeTerm::Chan { elem: other, .. }) => identical(types, *elem, *other),
        _ => false,
    }
}

/// Whether a type has the methods of an interface, each with an identical type. False where the second is no interface.
pub fn implements(types: &Types, a: TypeId, interface: TypeId) -> bool
    ensures { IsTrue result ↔ Implements types.now a interface }
{
    match types.underlying_term(interface) {
        Some(TypeTerm::Interface(methods)) => has_methods(types, a, methods.as_slice()),
        _ => false,
    }
}

fn has_methods(types: &Types, a: TypeId, methods: &[MethodType]) -> bool
    ensures { IsTrue result ↔ All (HasMethodOf types.now a) methods.now }
{
    for method in methods {
        if !has_method(types, a, method) {
            return false;
        }
    }
    true
}

/// Whether the method set of a type has a method of an interface.
fn has_method(types: &Types, a: TypeId, method: &MethodType) -> bool
    ensures { IsTrue result ↔ HasMethodOf types.now a method.now }
{
    if types.is_blank(method.name) {
        return false;
    }
    let wanted = Wanted {
        name: method.name,
        package: method.package,
    };
    match sight_of(types, a, wanted) {
        Sight::One { kind, of, usable } => {
            kind != SelectionKind::Field
                && usable
                && !is_declared_pointer(types, a)
                && identical(types, of, method.of)
        }
        _ => false,
    }
}
