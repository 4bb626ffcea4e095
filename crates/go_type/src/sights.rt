//! What of a selected field or method does not depend on the path to it.

ghost use Rattle.std.specs.Prelude.{◌≡◌, ◌∷◌, [], ℕ, List};
ghost use Rattle.std.specs.List.{flat_map};
ghost use Rattle.go_type.specs.Selector.{method_named, members_named, signature_named, field_named, fields_named, selected_in, members_below, embedded_by, embedded_from};
ghost use Rattle.go_type.specs.Sights.{Sees, summary, both_sights, fields_in};
ghost use Rattle.go_type.specs.Table.{term_at, underlying_of};

use crate::levels::{base, follow, is_pointer_type};
use crate::members::{Member, Wanted};
use crate::methods::{MethodEntry, SelectError, SelectionKind};
use crate::selectors::find_member;
use crate::term::{Field, MethodType, TypeTerm};
use crate::types::Types;
use go_base::TypeId;

/// What a name selects.
#[derive(Clone, Copy)]
pub enum Sight {
    Nothing,
    /// A field or method and its type, and whether a value has it where it is a method.
    One {
        kind: SelectionKind,
        of: TypeId,
        usable: bool,
    },
    Several,
}

impl Sight {
    fn and(self, other: Sight) -> Sight
        ensures { result ≡ both_sights self other }
    {
        match (self, other) {
            (Sight::Nothing, sight) | (sight, Sight::Nothing) => sight,
            _ => Sight::Several,
        }
    }
}

/// What a name selects of a type.
pub fn sight_of(types: &Types, a: TypeId, wanted: Wanted) -> Sight
    ensures { Sees types.now a wanted result }
{
    match find_member(types.allocator(), types, a, wanted) {
        Ok(member) => seen(&member),
        Err(SelectError::Absent) => Sight::Nothing,
        Err(SelectError::Ambiguous { .. }) => Sight::Several,
        Err(SelectError::OutOfMemory) => sight_unaided(types, a, wanted),
    }
}

fn seen(member: &Member) -> Sight
    ensures { result ≡ summary (member.now ∷ []) }
{
    Sight::One {
        kind: member.kind,
        of: member.of,
        usable: !member.pointer || member.indirect,
    }
}

/// The same without memory: a type is looked at again for each path to it.
fn sight_unaided(types: &Types, a: TypeId, wanted: Wanted) -> Sight
    ensures { Sees types.now a wanted result }
{
    let of = base(types, a);
    let indirect = is_pointer_type(types, types.underlying(a));
    'depths: for depth in 0..types.len() {
        let found = sight_below(types, wanted, of, indirect, depth);
        if !matches!(found, Sight::Nothing) {
            return found;
        }
    }
    Sight::Nothing
}

/// What is selected as many embedded fields below a type as the depth.
#[cycle(sights)]
fn sight_below(types: &Types, wanted: Wanted, of: TypeId, indirect: bool, depth: usize) -> Sight
    ensures { (path : List ℕ) → result ≡ summary (members_below depth types.now wanted (record { of = of; path = path; indirect = indirect })) }
{
    if depth == 0 {
        return sight_here(types, wanted, of, indirect);
    }
    sight_in_fields(types, wanted, fields_of(types, of), indirect, depth - 1)
}

/// The fields of a struct, and none of another type.
fn fields_of(types: &Types, of: TypeId) -> &[Field]
    ensures { result.now ≡ fields_in (term_at types.now (underlying_of types.now of)) }
{
    match types.underlying_term(of) {
        Some(TypeTerm::Struct(fields)) => fields.as_slice(),
        _ => &[],
    }
}

#[cycle(sights)]
fn sight_in_fields(
    types: &Types,
    wanted: Wanted,
    fields: &[Field],
    indirect: bool,
    depth: usize,
) -> Sight
    ensures { (path : List ℕ) → result ≡ summary (flat_map (members_below depth types.now wanted) (embedded_from types.now path indirect fields.now)) }
{
    let mut found = Sight::Nothing;
    for field in fields {
        found = found.and(sight_through(types, wanted, field, indirect, depth));
    }
    found
}

#[cycle(sights)]
fn sight_through(
    types: &Types,
    wanted: Wanted,
    field: &Field,
    indirect: bool,
    depth: usize,
) -> Sight
    ensures { (path : List ℕ) (n : ℕ) → result ≡ summary (flat_map (members_below depth types.now wanted) (embedded_by types.now path indirect n field.now)) }
{
    if !field.embedded {
        return Sight::Nothing;
    }
    let of = follow(types, field.of);
    let through = indirect || is_pointer_type(types, field.of);
    sight_below(types, wanted, of, through, depth)
}

/// What is selected of a type itself.
fn sight_here(types: &Types, wanted: Wanted, of: TypeId, indirect: bool) -> Sight
    ensures { (path : List ℕ) → result ≡ summary (selected_in types.now wanted (record { of = of; path = path; indirect = indirect })) }
{
    let own = sight_of_methods(wanted, types.methods(of), indirect);
    own.and(sight_of_term(types, wanted, of, indirect))
}

fn sight_of_term(types: &Types, wanted: Wanted, of: TypeId, indirect: bool) -> Sight
    ensures { (path : List ℕ) → result ≡ summary (members_named wanted path indirect (term_at types.now (underlying_of types.now of))) }
{
    match types.underlying_term(of) {
        Some(TypeTerm::Struct(fields)) => sight_of_fields(wanted, fields.as_slice(), indirect),
        Some(TypeTerm::Interface(methods)) => {
            sight_of_signatures(wanted, methods.as_slice(), indirect)
        }
        _ => Sight::Nothing,
    }
}

fn sight_of_methods(wanted: Wanted, methods: &[MethodEntry], indirect: bool) -> Sight
    ensures { (path : List ℕ) → result ≡ summary (flat_map (method_named wanted path indirect) methods.now) }
{
    let mut found = Sight::Nothing;
    for method in methods {
        found = found.and(sight_of_method(wanted, method, indirect));
    }
    found
}

fn sight_of_method(wanted: Wanted, method: &MethodEntry, indirect: bool) -> Sight
    ensures { (path : List ℕ) → result ≡ summary (method_named wanted path indirect method.now) }
{
    if !wanted.is(method.name, method.package) {
        return Sight::Nothing;
    }
    Sight::One {
        kind: method.kind,
        of: method.of,
        usable: !method.pointer || indirect,
    }
}

fn sight_of_fields(wanted: Wanted, fields: &[Field], indirect: bool) -> Sight
    ensures { (path : List ℕ) → result ≡ summary (fields_named wanted path indirect fields.now) }
{
    let mut found = Sight::Nothing;
    for field in fields {
        found = found.and(sight_of_field(wanted, field, indirect));
    }
    found
}

fn sight_of_field(wanted: Wanted, field: &Field, indirect: bool) -> Sight
    ensures { (path : List ℕ) (n : ℕ) → result ≡ summary (field_named wanted path indirect n field.now) }
{
    if !wanted.is(field.name, field.package) {
        return Sight::Nothing;
    }
    Sight::One {
        kind: SelectionKind::Field,
        of: field.of,
        usable: true,
    }
}

fn sight_of_signatures(wanted: Wanted, methods: &[MethodType], indirect: bool) -> Sight
    ensures { (path : List ℕ) → result ≡ summary (flat_map (signature_named wanted path indirect) methods.now) }
{
    let mut found = Sight::Nothing;
    for method in methods {
        found = found.and(sight_of_signature(wanted, method, indirect));
    }
    found
}

fn sight_of_signature(wanted: Wanted, method: &MethodType, indirect: bool) -> Sight
    ensures { (path : List ℕ) → result ≡ summary (signature_named wanted path indirect method.now) }
{
    if !wanted.is(method.name, method.package) {
        return Sight::Nothing;
    }
    Sight::One {
        kind: SelectionKind::InterfaceMethod,
        of: method.of,
        usable: true,
    }
}
