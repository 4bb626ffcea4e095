//! The rules that are asked of nodes once what they look at is known.

use crate::denoting::{Denoted, Denoting};
use crate::extent::number_at;
use crate::receivers::{is_bad_embedded, is_bad_receiver, is_interface, receiver_base};
use crate::shapes::{MethodKey, Shapes};
use crate::values::{Values, length_at};
use decl_nodes::{ElementNode, InNode, Kind, MethodNode, Tables, is_marked};
use go_base::{NoMemory, Rule, TypeId};
use go_type::{MAX_LEAVES, MAX_NESTING};
use indexmap::{IndexMap, IndexSet};
use std::alloc::Global;

/// What the rules look at.
#[derive(Drop)]
pub struct Facts {
    pub denoting: Denoting,
    pub values: Values,
    pub shapes: Shapes,
    pub leaves: Vec<Option<u64>>,
    pub nestings: Vec<Option<u64>>,
    /// Which types have values that are not compared.
    pub incomparable: Vec<bool>,
}

/// Asks the rules of types at each node.
pub fn blame_types(tables: &mut Tables, facts: &Facts) -> Result<(), NoMemory> {
    for node in 0..tables.nodes.len() {
        blame_size(tables, facts, node)?;
        blame_parts(tables, facts, node)?;
    }
    Ok(())
}

/// A type as written is not too large.
fn blame_size(tables: &mut Tables, facts: &Facts, node: usize) -> Result<(), NoMemory> {
    let is_type = match tables.nodes.kind(node) {
        Some(kind) => is_written_type(kind),
        None => false,
    };
    let is_large = number_at(facts.leaves.as_slice(), node).unwrap_or(0) > MAX_LEAVES
        || number_at(facts.nestings.as_slice(), node).unwrap_or(0) > MAX_NESTING as u64;
    if is_type && is_large {
        tables
            .violations
            .push(&tables.nodes, node, Rule::TypeTooLarge)?;
    }
    Ok(())
}

fn is_written_type(kind: &Kind) -> bool {
    matches!(
        kind,
        Kind::Named(_)
            | Kind::Predeclared(_)
            | Kind::Paren(_)
            | Kind::Pointer(_)
            | Kind::Slice(_)
            | Kind::Array { .. }
            | Kind::Map { .. }
            | Kind::Chan { .. }
            | Kind::Function(_)
            | Kind::Struct(_)
            | Kind::Interface(_)
    )
}

/// Keys of maps, lengths of arrays, what is embedded.
fn blame_parts(tables: &mut Tables, facts: &Facts, node: usize) -> Result<(), NoMemory> {
    let blamed = bad_parts(tables, facts, node)?;
    for (part, rule) in blamed.as_slice() {
        tables.violations.push(&tables.nodes, *part, *rule)?;
    }
    Ok(())
}

/// The parts of a node that are bad.
fn bad_parts(tables: &Tables, facts: &Facts, node: usize) -> Result<Vec<(usize, Rule)>, NoMemory> {
    match tables.nodes.kind(node) {
        Some(Kind::Map { key, .. }) => one_or_none(tables.alloc, bad_key(facts, *key)),
        Some(Kind::Array { length, .. }) => one_or_none(tables.alloc, bad_length(facts, *length)),
        Some(Kind::Embedded { name, pointer }) => one_or_none(
            tables.alloc,
            bad_embedded(tables, facts, node, *name, *pointer),
        ),
        Some(Kind::Interface(elements)) => bad_elements(tables, facts, elements.as_slice()),
        _ => Ok(Vec::new(tables.alloc)),
    }
}

fn one_or_none(
    alloc: Global,
    blamed: Option<(usize, Rule)>,
) -> Result<Vec<(usize, Rule)>, NoMemory> {
    let mut all = Vec::new(alloc);
    if let Some(one) = blamed {
        all.push(one)?;
    }
    Ok(all)
}

/// No pointer is embedded, nor a pointer to a pointer or an interface.
fn bad_embedded(
    tables: &Tables,
    facts: &Facts,
    node: usize,
    name: usize,
    pointer: bool,
) -> Option<(usize, Rule)> {
    if is_bad_embedded(&tables.nodes, &tables.types, &facts.denoting, name, pointer) {
        Some((node, Rule::BadEmbeddedType))
    } else {
        None
    }
}

fn bad_key(facts: &Facts, key: usize) -> Option<(usize, Rule)> {
    if is_marked(facts.incomparable.as_slice(), key) {
        Some((key, Rule::MapKeyNotComparable))
    } else {
        None
    }
}

fn bad_length(facts: &Facts, length: usize) -> Option<(usize, Rule)> {
    if facts.values.get(length).is_some() && length_at(&facts.values, length).is_none() {
        Some((length, Rule::BadArrayLength))
    } else {
        None
    }
}

/// The types that earlier elements of an interface have for a name.
#[derive(Clone, Copy)]
struct Earlier {
    /// That of the first embedded one, and whether there are others.
    embedded: Option<TypeId>,
    embedded_differ: bool,
    /// That of the first of all, and whether there are others.
    first: TypeId,
    differ: bool,
}

/// The elements of an interface that are no interfaces, or bring a method whose name has another type.
fn bad_elements(
    tables: &Tables,
    facts: &Facts,
    elements: &[ElementNode],
) -> Result<Vec<(usize, Rule)>, NoMemory> {
    let mut blamed = Vec::new(tables.alloc);
    let mut seen: IndexMap<MethodKey, Earlier> = IndexMap::new(tables.alloc);
    for element in elements {
        match element {
            ElementNode::Own {
                node,
                name,
                package,
                signature,
            } => {
                let key = MethodKey {
                    name: *name,
                    package: *package,
                };
                if let Some(of) = facts.shapes.get(*signature) {
                    if see_method(&mut seen, key, of, false)? {
                        blamed.push((*node, Rule::DuplicateFieldOrMethod))?;
                    }
                }
            }
            ElementNode::Embedded { node, name } => {
                if let Some(rule) = bad_interface(tables, facts, &mut seen, *name)? {
                    blamed.push((*node, rule))?;
                }
            }
        }
    }
    Ok(blamed)
}

fn bad_interface(
    tables: &Tables,
    facts: &Facts,
    seen: &mut IndexMap<MethodKey, Earlier>,
    name: usize,
) -> Result<Option<Rule>, NoMemory> {
    let Some(under) = facts.denoting.under(name) else {
        return Ok(None);
    };
    if !is_interface(&tables.nodes, &tables.types, under) {
        return Ok(Some(Rule::BadEmbeddedType));
    }
    let Some(methods) = facts
        .shapes
        .embedded_methods(&facts.denoting, &tables.types, name)
    else {
        return Ok(None);
    };
    let mut bad = false;
    for method in methods {
        let key = MethodKey {
            name: method.name,
            package: method.package,
        };
        bad |= see_method(seen, key, method.of, true)?;
    }
    if bad {
        Ok(Some(Rule::DuplicateFieldOrMethod))
    } else {
        Ok(None)
    }
}

/// Takes a method into account. Whether an earlier element has another type for the name, and one of the two is embedded.
fn see_method(
    seen: &mut IndexMap<MethodKey, Earlier>,
    key: MethodKey,
    of: TypeId,
    embedded: bool,
) -> Result<bool, NoMemory> {
    let Some(earlier) = seen.get(&key).copied() else {
        let first = Earlier {
            embedded: if embedded { Some(of) } else { None },
            embedded_differ: false,
            first: of,
            differ: false,
        };
        seen.insert(key, first)?;
        return Ok(false);
    };
    let bad = if embedded {
        earlier.differ || earlier.first != of
    } else {
        earlier.embedded_differ || earlier.embedded.is_some_and(|other| other != of)
    };
    seen.insert(key, later(earlier, of, embedded))?;
    Ok(bad)
}

fn later(earlier: Earlier, of: TypeId, embedded: bool) -> Earlier {
    let mut next = earlier;
    next.differ |= earlier.first != of;
    if embedded {
        match earlier.embedded {
            Some(other) => next.embedded_differ |= other != of,
            None => next.embedded = Some(of),
        }
    }
    next
}

/// Asks the rules of methods and their receivers.
pub fn blame_methods(tables: &mut Tables, facts: &Facts) -> Result<(), NoMemory> {
    let mut seen = IndexSet::new(tables.alloc);
    for index in 0..tables.methods.len() {
        let Some(method) = tables.methods.as_slice().get(index).copied() else {
            return Ok(());
        };
        blame_receiver(tables, facts, method)?;
        blame_method(tables, facts, &mut seen, method)?;
    }
    Ok(())
}

/// A receiver is a declared type of the package that is no pointer and no interface, or a pointer to one.
fn blame_receiver(tables: &mut Tables, facts: &Facts, method: MethodNode) -> Result<(), NoMemory> {
    let is_bad = is_bad_receiver(
        &tables.nodes,
        &tables.types,
        &facts.denoting,
        method.receiver,
        method.form,
    );
    if is_bad {
        tables
            .violations
            .push(&tables.nodes, method.receiver, Rule::BadReceiver)?;
    }
    Ok(())
}

/// A method has not the name of an earlier one of its type, nor that of a field.
fn blame_method(
    tables: &mut Tables,
    facts: &Facts,
    seen: &mut IndexSet<InNode>,
    method: MethodNode,
) -> Result<(), NoMemory> {
    if method.name == tables.known.blank {
        return Ok(());
    }
    let Some(base) = receiver_base(&tables.nodes, &facts.denoting, method.form) else {
        return Ok(());
    };
    let part = InNode {
        node: base.declared,
        name: method.name,
        package: method.package,
    };
    let is_new = seen.insert(part)?;
    if !is_new || is_field(tables, facts, base.declared, method) {
        tables
            .violations
            .push(&tables.nodes, method.node, Rule::DuplicateFieldOrMethod)?;
    }
    Ok(())
}

/// Whether a declared type is a struct with a field that has a method's name.
fn is_field(tables: &Tables, facts: &Facts, declared: usize, method: MethodNode) -> bool {
    let Some(Denoted::Form(form)) = facts.denoting.under(declared) else {
        return false;
    };
    let field = InNode {
        node: form,
        name: method.name,
        package: method.package,
    };
    matches!(tables.nodes.kind(form), Some(Kind::Struct(_))) && tables.parts.contains(&field)
}
