//! The fields and methods of the types that embedded fields lead to. Go specification, "Struct types" and "Selectors".

ghost use Rattle.std.specs.Prelude.{◌≡◌, ◌<◌, ◌^◌, ◌++◌, ℕ, List, length, map, OnOk, IfOk};
ghost use Rattle.std.specs.List.{flat_map};
ghost use Rattle.go_type.specs.Selector.{is_wanted, flat_map_from, method_named, field_named, fields_named, signature_named, selected_in, selection_of};
ghost use Rattle.go_type.specs.Levels.{place_at, member_by};

use crate::methods::{MethodEntry, Path, Selection, SelectionKind};
use crate::term::{Field, MethodType, TypeTerm};
use crate::types::Types;
use go_base::{NameId, NoMemory, TypeId};
use std::alloc::Global;

/// A name that is looked for, with the package that it belongs to.
#[derive(Clone, Copy, PartialEq, Eq, PartialOrd, Ord)]
pub struct Wanted {
    pub name: NameId,
    pub package: u32,
}

impl Wanted {
    /// Whether a name of a package is the one that is looked for.
    pub fn is(&self, name: NameId, of: u32) -> bool
        ensures { result ≡ is_wanted self.now name of }
    {
        self.name == name && self.package == of
    }
}

/// A type that embedded fields lead to, without the path to it.
#[derive(Clone, Copy)]
pub struct Spot {
    pub of: TypeId,
    /// Which of the places above has the embedded field.
    pub from: usize,
    /// The number of the embedded field.
    pub number: u32,
    /// Whether a pointer was followed on the way.
    pub indirect: bool,
}

/// A field or method of a type that embedded fields lead to, without the path to it.
#[derive(Clone, Copy)]
pub struct Found {
    /// Which of the places has it.
    pub from: usize,
    /// The number of a field. None for a method.
    pub number: Option<u32>,
    pub kind: SelectionKind,
    /// The type of the field, or the method's function type without the receiver.
    pub of: TypeId,
    /// Whether it is a method whose receiver is a pointer.
    pub pointer: bool,
    /// Whether a pointer was followed on the way.
    pub indirect: bool,
}

/// A field or method of a type that embedded fields lead to.
#[derive(Drop)]
pub struct Member {
    pub path: Path,
    pub kind: SelectionKind,
    /// The type of the field, or the method's function type without the receiver.
    pub of: TypeId,
    /// Whether it is a method whose receiver is a pointer.
    pub pointer: bool,
    /// Whether a pointer was followed on the way.
    pub indirect: bool,
}

impl Member {
    /// What a selector of the member selects.
    pub fn into_selection(self) -> Selection
        ensures { result ≡ selection_of self }
    {
        let Member {
            path,
            kind,
            of,
            pointer: _,
            indirect: _,
        } = self;
        Selection {
            path,
            kind,
            result: of,
        }
    }
}

/// What is selected at a level.
pub fn members_in(
    alloc: Global,
    types: &Types,
    wanted: Wanted,
    level: &[Spot],
) -> Result<Vec<Found>, NoMemory>
    ensures { (paths : ℕ → List ℕ) → IfOk result (λ found. map (member_by paths) found.items ≡ flat_map_from (λ i spot. selected_in types.now wanted (place_at paths i spot)) 0 level.now) }
{
    let mut found = Vec::new(alloc);
    for (index, spot) in level.iter().enumerate() {
        add_selected(types, wanted, index, *spot, &mut found)?;
    }
    Ok(found)
}

fn add_selected(
    types: &Types,
    wanted: Wanted,
    from: usize,
    spot: Spot,
    found: &mut Vec<Found>,
) -> Result<(), NoMemory>
    ensures { (paths : ℕ → List ℕ) → OnOk result (map (member_by paths) found.new.items ≡ map (member_by paths) found.old.items ++ selected_in types.now wanted (place_at paths from spot)) }
{
    add_methods(wanted, from, spot, types.methods(spot.of), found)?;
    match types.underlying_term(spot.of) {
        Some(TypeTerm::Struct(fields)) => add_fields(wanted, from, spot, fields.as_slice(), found),
        Some(TypeTerm::Interface(methods)) => {
            add_signatures(wanted, from, spot, methods.as_slice(), found)
        }
        _ => Ok(()),
    }
}

fn add_methods(
    wanted: Wanted,
    from: usize,
    spot: Spot,
    methods: &[MethodEntry],
    found: &mut Vec<Found>,
) -> Result<(), NoMemory>
    ensures { (paths : ℕ → List ℕ) → OnOk result (map (member_by paths) found.new.items ≡ map (member_by paths) found.old.items ++ flat_map (method_named wanted (paths from) spot.indirect) methods.now) }
{
    for method in methods {
        add_method(wanted, from, spot, method, found)?;
    }
    Ok(())
}

fn add_method(
    wanted: Wanted,
    from: usize,
    spot: Spot,
    method: &MethodEntry,
    found: &mut Vec<Found>,
) -> Result<(), NoMemory>
    ensures { (paths : ℕ → List ℕ) → OnOk result (map (member_by paths) found.new.items ≡ map (member_by paths) found.old.items ++ method_named wanted (paths from) spot.indirect method.now) }
{
    if wanted.is(method.name, method.package) {
        found.push(Found {
            from,
            number: None,
            kind: method.kind,
            of: method.of,
            pointer: method.pointer,
            indirect: spot.indirect,
        })?;
    }
    Ok(())
}

fn add_fields(
    wanted: Wanted,
    from: usize,
    spot: Spot,
    fields: &[Field],
    found: &mut Vec<Found>,
) -> Result<(), NoMemory>
    requires { length fields.now < 2 ^ 32 }
    ensures { (paths : ℕ → List ℕ) → OnOk result (map (member_by paths) found.new.items ≡ map (member_by paths) found.old.items ++ fields_named wanted (paths from) spot.indirect fields.now) }
{
    for (index, field) in fields.iter().enumerate() {
        add_field(wanted, from, spot, index as u32, field, found)?;
    }
    Ok(())
}

fn add_field(
    wanted: Wanted,
    from: usize,
    spot: Spot,
    number: u32,
    field: &Field,
    found: &mut Vec<Found>,
) -> Result<(), NoMemory>
    ensures { (paths : ℕ → List ℕ) → OnOk result (map (member_by paths) found.new.items ≡ map (member_by paths) found.old.items ++ field_named wanted (paths from) spot.indirect number field.now) }
{
    if wanted.is(field.name, field.package) {
        found.push(Found {
            from,
            number: Some(number),
            kind: SelectionKind::Field,
            of: field.of,
            pointer: false,
            indirect: spot.indirect,
        })?;
    }
    Ok(())
}

fn add_signatures(
    wanted: Wanted,
    from: usize,
    spot: Spot,
    methods: &[MethodType],
    found: &mut Vec<Found>,
) -> Result<(), NoMemory>
    ensures { (paths : ℕ → List ℕ) → OnOk result (map (member_by paths) found.new.items ≡ map (member_by paths) found.old.items ++ flat_map (signature_named wanted (paths from) spot.indirect) methods.now) }
{
    for method in methods {
        add_signature(wanted, from, spot, method, found)?;
    }
    Ok(())
}

fn add_signature(
    wanted: Wanted,
    from: usize,
    spot: Spot,
    method: &MethodType,
    found: &mut Vec<Found>,
) -> Result<(), NoMemory>
    ensures { (paths : ℕ → List ℕ) → OnOk result (map (member_by paths) found.new.items ≡ map (member_by paths) found.old.items ++ signature_named wanted (paths from) spot.indirect method.now) }
{
    if wanted.is(method.name, method.package) {
        found.push(Found {
            from,
            number: None,
            kind: SelectionKind::InterfaceMethod,
            of: method.of,
            pointer: false,
            indirect: spot.indirect,
        })?;
    }
    Ok(())
}
