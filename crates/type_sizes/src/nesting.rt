//! Whether a type has a nesting. It has none where its parts, or parts of these, have themselves as parts.

ghost use Rattle.std.specs.Prelude.{◌≡◌, ◌++◌, ◌∷◌, [], ℕ, List, map, IfOk, OnOk, IsTrue, ◌↔◌};
ghost use Rattle.std.specs.List.{flat_map};
ghost use Rattle.go_type.specs.Table.{term_at};
ghost use Rattle.type_sizes.specs.Nesting.{HasNesting, IsPartGraph, IsRow, whole, whole_parts};

use go_base::{NoMemory, TypeId};
use go_graph::{components_of, on_themselves, reaching};
use go_type::{Field, MethodType, TypeTerm, Types};
use indexmap::IndexSet;
use std::alloc::Global;

/// Whether a type has a nesting.
pub fn has_nesting(types: &Types, id: TypeId) -> Result<bool, NoMemory>
    ensures { IfOk result (λ b. IsTrue b ↔ HasNesting types.now id) }
{
    let alloc = types.allocator();
    let graph = graph_of(types, id)?;
    let components = components_of(alloc, graph.as_slice())?;
    let marks = on_themselves(alloc, graph.as_slice(), &components)?;
    let endless = reaching(alloc, graph.as_slice(), &components, marks.as_slice())?;
    Ok(!endless[components.of[0]])
}

/// The graph of a type, of the types that its whole parts lead to, and of their whole parts. The type is node 0.
fn graph_of(types: &Types, id: TypeId) -> Result<Vec<Vec<usize>>, NoMemory>
    ensures { IfOk result (λ graph. IsPartGraph types.now id (map (λ r. r.items) graph.items)) }
{
    let mut reached = IndexSet::new(types.allocator());
    let mut graph = Vec::new(types.allocator());
    let done = add_rows(types, id, &mut reached, &mut graph);
    drop(reached);
    done.and(Ok(graph))
}

/// Adds a row for a type and for each that it leads to, where there is none.
fn add_rows(
    types: &Types,
    id: TypeId,
    reached: &mut IndexSet<TypeId>,
    graph: &mut Vec<Vec<usize>>,
) -> Result<(), NoMemory>
    requires reached { reached.old.keys ≡ [] }
    requires graph { graph.old.items ≡ [] }
    ensures { OnOk result (IsPartGraph types.now id (map (λ r. r.items) graph.new.items)) }
{
    reached.insert(id)?;
    'places: for place in 0..usize::MAX {
        let Some(part) = reached.get_index(place).copied() else {
            return Ok(());
        };
        add_row(types, part, reached, graph)?;
    }
    Err(NoMemory)
}

/// Adds the row of a type.
fn add_row(
    types: &Types,
    id: TypeId,
    reached: &mut IndexSet<TypeId>,
    graph: &mut Vec<Vec<usize>>,
) -> Result<(), NoMemory>
    ensures { OnOk result ((row : List ℕ) × (IsRow (whole_parts types.now id) reached.old.keys reached.new.keys row × (map (λ r. r.items) graph.new.items ≡ map (λ r. r.items) graph.old.items ++ row ∷ []))) }
{
    let parts = whole_parts(types, id)?;
    let row = row_of(types.allocator(), parts.as_slice(), reached)?;
    graph.push(row)?;
    Ok(())
}

/// The places of types in a set, to which those that were not in it are added.
fn row_of(
    alloc: Global,
    parts: &[TypeId],
    reached: &mut IndexSet<TypeId>,
) -> Result<Vec<usize>, NoMemory>
    ensures { IfOk result (λ row. IsRow parts.now reached.old.keys reached.new.keys row.items) }
{
    let mut row = Vec::new(alloc);
    for part in parts {
        let (place, _) = reached.insert_full(*part)?;
        row.push(place)?;
    }
    Ok(row)
}

/// The parts of a type that count with their own nesting.
fn whole_parts(types: &Types, id: TypeId) -> Result<Vec<TypeId>, NoMemory>
    ensures { IfOk result (λ parts. parts.items ≡ whole_parts types.now id) }
{
    let mut parts = Vec::new(types.allocator());
    add_whole_parts(types, id, &mut parts)?;
    Ok(parts)
}

fn add_whole_parts(types: &Types, id: TypeId, parts: &mut Vec<TypeId>) -> Result<(), NoMemory>
    ensures { OnOk result (parts.new.items ≡ parts.old.items ++ whole_parts types.now id) }
{
    match types.underlying_term(id) {
        Some(TypeTerm::Array { elem, .. }) => {
            parts.push(*elem)?;
            Ok(())
        }
        Some(TypeTerm::Struct(fields)) => add_fields(fields.as_slice(), parts),
        Some(
            TypeTerm::Pointer(elem)
            | TypeTerm::Slice(elem)
            | TypeTerm::Chan { elem, .. }
            | TypeTerm::Iter(elem),
        ) => add_part(types, *elem, parts),
        Some(TypeTerm::Map { key, elem }) => {
            add_part(types, *key, parts)?;
            add_part(types, *elem, parts)
        }
        Some(TypeTerm::Func(signature)) => {
            add_parts(types, signature.params.as_slice(), parts)?;
            add_parts(types, signature.results.as_slice(), parts)
        }
        Some(TypeTerm::Interface(methods)) => add_methods(types, methods.as_slice(), parts),
        Some(TypeTerm::Tuple(ids)) => add_parts(types, ids.as_slice(), parts),
        Some(TypeTerm::Basic(_) | TypeTerm::Declared(_)) | None => Ok(()),
    }
}

fn add_fields(fields: &[Field], parts: &mut Vec<TypeId>) -> Result<(), NoMemory>
    ensures { OnOk result (parts.new.items ≡ parts.old.items ++ map (λ field. field.of) fields.now) }
{
    for field in fields {
        parts.push(field.of)?;
    }
    Ok(())
}

/// Adds a part that is no element or field, where it is no declared type.
fn add_part(types: &Types, id: TypeId, parts: &mut Vec<TypeId>) -> Result<(), NoMemory>
    ensures { OnOk result (parts.new.items ≡ parts.old.items ++ whole types.now id) }
{
    if !types.is_declared_type(id) {
        parts.push(id)?;
    }
    Ok(())
}

fn add_parts(types: &Types, ids: &[TypeId], parts: &mut Vec<TypeId>) -> Result<(), NoMemory>
    ensures { OnOk result (parts.new.items ≡ parts.old.items ++ flat_map (whole types.now) ids.now) }
{
    for id in ids {
        add_part(types, *id, parts)?;
    }
    Ok(())
}

fn add_methods(
    types: &Types,
    methods: &[MethodType],
    parts: &mut Vec<TypeId>,
) -> Result<(), NoMemory>
    ensures { OnOk result (parts.new.items ≡ parts.old.items ++ flat_map (λ method. whole types.now method.of) methods.now) }
{
    for method in methods {
        add_part(types, method.of, parts)?;
    }
    Ok(())
}
