//! What two operands of an operator become, so that they have one type. Go specification, "Operators", "Comparison
//! operators" and "Constant expressions".

ghost use Rattle.std.specs.Prelude.{◌≡◌};
ghost use Rattle.go_rules.specs.Matching.{compared_types, converted, joined_kinds, is_empty_interface, matched_types, may_default};

use crate::untyped::{Untyped, kind_fits, untyped_kind};
use go_base::TypeId;
use go_type::{TypeTerm, Types};

/// What two operands become.
#[derive(Clone, Copy, PartialEq, Eq)]
pub enum Matched {
    /// Both have types of their own, which stay.
    Typed,
    /// Both are untyped, and become of one kind.
    Untyped(Untyped),
    /// The left one is untyped and takes the type of the right one.
    FirstConverted,
    /// The right one is untyped and takes the type of the left one.
    SecondConverted,
    /// The left one is untyped and takes its default type.
    FirstDefault,
    /// The right one is untyped and takes its default type.
    SecondDefault,
}

/// What two operands of arithmetic or logic become, by their types. None where there is nothing that fits.
pub fn match_types(types: &Types, first: TypeId, second: TypeId) -> Option<Matched>
    ensures { result ≡ matched_types types.now first second }
{
    match (untyped_kind(types, first), untyped_kind(types, second)) {
        (None, None) => Some(Matched::Typed),
        (Some(one), Some(other)) => joined(one, other),
        (Some(kind), None) => converted(kind_fits(types, kind, second), Matched::FirstConverted),
        (None, Some(kind)) => converted(kind_fits(types, kind, first), Matched::SecondConverted),
    }
}

fn joined(one: Untyped, other: Untyped) -> Option<Matched>
    ensures { result ≡ joined_kinds one other }
{
    match one.joined(other) {
        Some(kind) => Some(Matched::Untyped(kind)),
        None => None,
    }
}

fn converted(fits: bool, becomes: Matched) -> Option<Matched>
    ensures { result ≡ converted fits becomes }
{
    if fits { Some(becomes) } else { None }
}

/// Whether a type's underlying type is an interface without methods.
pub fn is_empty_interface(types: &Types, of: TypeId) -> bool
    ensures { result ≡ is_empty_interface types.now of }
{
    match types.underlying_term(of) {
        Some(TypeTerm::Interface(methods)) => methods.as_slice().is_empty(),
        _ => false,
    }
}

/// What two operands of a comparison become, by their types: as for other operators, but that a constant beside an
/// interface without methods takes its default type. None where there is nothing that fits.
pub fn match_compared(types: &Types, first: TypeId, second: TypeId) -> Option<Matched>
    ensures { result ≡ compared_types types.now first second }
{
    if let Some(matched) = match_types(types, first, second) {
        return Some(matched);
    }
    match (untyped_kind(types, first), untyped_kind(types, second)) {
        (Some(kind), None) => { converted(may_default(types, kind, second), Matched::FirstDefault) }
        (None, Some(kind)) => { converted(may_default(types, kind, first), Matched::SecondDefault) }
        (Some(_), Some(_)) => None,
        (None, None) => None,
    }
}

/// Whether an untyped operand of a kind takes its default type beside an operand of a type.
fn may_default(types: &Types, kind: Untyped, beside: TypeId) -> bool
    ensures { result ≡ may_default types.now kind beside }
{
    match kind {
        Untyped::Nil => false,
        Untyped::Bool => is_empty_interface(types, beside),
        Untyped::Int => is_empty_interface(types, beside),
        Untyped::Rune => is_empty_interface(types, beside),
        Untyped::Text => is_empty_interface(types, beside),
    }
}
