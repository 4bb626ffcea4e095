//! How large types are, on programs that break rules too: leaves and nesting. Both are known of a type where they are of
//! its parts; a type that is a part of itself has neither.

use crate::denoting::{Denoted, Denoting};
use crate::values::{Values, length_at};
use decl_nodes::{
    ElementNode, FieldNode, Kind, Nodes, Order, SignatureNode, add_edge, is_marked, no_edges,
    order_of,
};
use go_base::{NoMemory, TypeId};
use go_type::{MAX_LEAVES, TypeTerm, Types};
use std::alloc::Global;

/// The nesting of the predeclared type `error`, whose method has a result.
const ERROR_NESTING: u64 = 3;

/// The leaves of each node, at most one more than the most.
pub fn find_leaves(
    alloc: Global,
    nodes: &Nodes,
    values: &Values,
    holds: &Order,
) -> Result<Vec<Option<u64>>, NoMemory> {
    let mut leaves = unknown(alloc, nodes.len())?;
    for node in holds.nodes.as_slice() {
        if !is_marked(holds.cyclic.as_slice(), *node) {
            let found = leaves_at(nodes, values, leaves.as_slice(), *node);
            put(&mut leaves, *node, found);
        }
    }
    Ok(leaves)
}

fn unknown(alloc: Global, count: usize) -> Result<Vec<Option<u64>>, NoMemory> {
    let mut numbers = Vec::new(alloc);
    for _ in 0..count {
        numbers.push(None)?;
    }
    Ok(numbers)
}

fn put(numbers: &mut Vec<Option<u64>>, node: usize, number: Option<u64>) {
    if let Some(place) = numbers.get_mut(node) {
        *place = number;
    }
}

/// The number of a node.
pub fn number_at(numbers: &[Option<u64>], node: usize) -> Option<u64> {
    match numbers.get(node) {
        Some(number) => *number,
        None => None,
    }
}

fn leaves_at(nodes: &Nodes, values: &Values, leaves: &[Option<u64>], node: usize) -> Option<u64> {
    match nodes.kind(node)? {
        Kind::Named(to) | Kind::Paren(to) => number_at(leaves, *to),
        Kind::Defined { form, .. } | Kind::Alias { form } => number_at(leaves, *form),
        Kind::Embedded { name, pointer } => {
            if *pointer {
                Some(1)
            } else {
                number_at(leaves, *name)
            }
        }
        Kind::Array { length, element } => {
            let length = length_at(values, *length)?;
            let leaves = number_at(leaves, *element)?;
            Some(limited(length.saturating_mul(leaves).max(1)))
        }
        Kind::Struct(fields) => leaves_of_fields(fields.as_slice(), leaves),
        Kind::Predeclared(_)
        | Kind::Pointer(_)
        | Kind::Slice(_)
        | Kind::Map { .. }
        | Kind::Chan { .. }
        | Kind::Function(_)
        | Kind::Interface(_) => Some(1),
        _ => None,
    }
}

fn leaves_of_fields(fields: &[FieldNode], leaves: &[Option<u64>]) -> Option<u64> {
    let mut sum = 0u64;
    for field in fields {
        sum = limited(sum.saturating_add(number_at(leaves, field.form)?));
    }
    Some(sum.max(1))
}

/// At most one more than the most leaves.
fn limited(leaves: u64) -> u64 {
    leaves.min(MAX_LEAVES.saturating_add(1))
}

/// What is at hand where nestings are found.
#[derive(Clone, Copy)]
struct Known<'a> {
    nodes: &'a Nodes,
    types: &'a Types,
    denoting: &'a Denoting,
}

/// The nesting of each node.
pub fn find_nestings(
    alloc: Global,
    nodes: &Nodes,
    types: &Types,
    denoting: &Denoting,
) -> Result<Vec<Option<u64>>, NoMemory> {
    let known = Known {
        nodes,
        types,
        denoting,
    };
    let mut graph = no_edges(alloc, nodes.len())?;
    for node in 0..nodes.len() {
        known.add_edges(&mut graph, node)?;
    }
    let order = order_of(alloc, graph.as_slice())?;
    let mut nestings = unknown(alloc, nodes.len())?;
    for node in order.nodes.as_slice() {
        if !is_marked(order.cyclic.as_slice(), *node) {
            let found = known.nesting_at(nestings.as_slice(), *node);
            put(&mut nestings, *node, found);
        }
    }
    Ok(nestings)
}

impl Known<'_> {
    /// The nodes whose nesting that of a node is made of.
    fn add_edges(self, graph: &mut Vec<Vec<usize>>, node: usize) -> Result<(), NoMemory> {
        match self.nodes.kind(node) {
            Some(Kind::Named(to) | Kind::Paren(to) | Kind::Function(to)) => {
                add_edge(graph, node, *to)
            }
            Some(Kind::Defined { form, .. } | Kind::Alias { form }) => add_edge(graph, node, *form),
            Some(Kind::Embedded { name, pointer }) => {
                if *pointer {
                    self.add_part(graph, node, *name)
                } else {
                    add_edge(graph, node, *name)
                }
            }
            Some(Kind::Pointer(to) | Kind::Slice(to)) => self.add_part(graph, node, *to),
            Some(Kind::Chan { element, .. }) => self.add_part(graph, node, *element),
            Some(Kind::Map { key, element }) => {
                self.add_part(graph, node, *key)?;
                self.add_part(graph, node, *element)
            }
            Some(Kind::Array { element, .. }) => add_edge(graph, node, *element),
            Some(Kind::Struct(fields)) => add_fields(graph, node, fields.as_slice()),
            Some(Kind::Signature(signature)) => {
                self.add_parts(graph, node, signature.params.as_slice())?;
                self.add_parts(graph, node, signature.results.as_slice())
            }
            Some(Kind::Interface(elements)) => self.add_elements(graph, node, elements.as_slice()),
            _ => Ok(()),
        }
    }

    /// A part that counts 1 where it is a declared type.
    fn add_part(
        self,
        graph: &mut Vec<Vec<usize>>,
        node: usize,
        part: usize,
    ) -> Result<(), NoMemory> {
        match self.denoting.denoted(part) {
            Some(Denoted::Form(form)) => add_edge(graph, node, form),
            _ => Ok(()),
        }
    }

    fn add_parts(
        self,
        graph: &mut Vec<Vec<usize>>,
        node: usize,
        parts: &[usize],
    ) -> Result<(), NoMemory> {
        for part in parts {
            self.add_part(graph, node, *part)?;
        }
        Ok(())
    }

    fn add_elements(
        self,
        graph: &mut Vec<Vec<usize>>,
        node: usize,
        elements: &[ElementNode],
    ) -> Result<(), NoMemory> {
        for element in elements {
            match element {
                ElementNode::Own { signature, .. } => add_edge(graph, node, *signature)?,
                ElementNode::Embedded { name, .. } => {
                    if let Some(Denoted::Form(form)) = self.denoting.under(*name) {
                        add_edge(graph, node, form)?;
                    }
                }
            }
        }
        Ok(())
    }

    fn nesting_at(self, nestings: &[Option<u64>], node: usize) -> Option<u64> {
        match self.nodes.kind(node)? {
            Kind::Named(to) | Kind::Paren(to) | Kind::Function(to) => number_at(nestings, *to),
            Kind::Defined { form, .. } | Kind::Alias { form } => number_at(nestings, *form),
            Kind::Predeclared(of) => Some(self.nesting_of(*of)),
            Kind::Embedded { name, pointer } => {
                if *pointer {
                    above(self.part(nestings, *name))
                } else {
                    number_at(nestings, *name)
                }
            }
            Kind::Pointer(to) | Kind::Slice(to) => above(self.part(nestings, *to)),
            Kind::Chan { element, .. } => above(self.part(nestings, *element)),
            Kind::Map { key, element } => {
                let key = self.part(nestings, *key)?;
                let element = self.part(nestings, *element)?;
                above(Some(key.max(element)))
            }
            Kind::Array { element, .. } => above(number_at(nestings, *element)),
            Kind::Struct(fields) => above(deepest_field(fields.as_slice(), nestings)),
            Kind::Signature(signature) => above(self.deepest_of(signature, nestings)),
            Kind::Interface(elements) => above(self.deepest_method(elements.as_slice(), nestings)),
            _ => None,
        }
    }

    fn nesting_of(self, of: TypeId) -> u64 {
        match self.types.get(of) {
            Some(TypeTerm::Declared(_)) => ERROR_NESTING,
            _ => 1,
        }
    }

    /// The nesting of a part that counts 1 where it is a declared type.
    fn part(self, nestings: &[Option<u64>], part: usize) -> Option<u64> {
        match self.denoting.denoted(part)? {
            Denoted::Form(form) => number_at(nestings, form),
            Denoted::Declared(_) | Denoted::Predeclared(_) => Some(1),
        }
    }

    /// The deepest of parameters and results; 0 without any.
    fn deepest_of(self, signature: &SignatureNode, nestings: &[Option<u64>]) -> Option<u64> {
        let mut deepest = self.deepest_part(signature.params.as_slice(), nestings)?;
        if signature.variadic {
            if let Some(last) = signature.params.as_slice().last() {
                deepest = deepest.max(above(self.part(nestings, *last))?);
            }
        }
        let results = self.deepest_part(signature.results.as_slice(), nestings)?;
        Some(deepest.max(results))
    }

    fn deepest_part(self, parts: &[usize], nestings: &[Option<u64>]) -> Option<u64> {
        let mut deepest = 0u64;
        for part in parts {
            deepest = deepest.max(self.part(nestings, *part)?);
        }
        Some(deepest)
    }

    /// The deepest of the methods of an interface; 0 without any.
    fn deepest_method(self, elements: &[ElementNode], nestings: &[Option<u64>]) -> Option<u64> {
        let mut deepest = 0u64;
        for element in elements {
            let depth = match element {
                ElementNode::Own { signature, .. } => number_at(nestings, *signature)?,
                ElementNode::Embedded { name, .. } => self.below_interface(*name, nestings)?,
            };
            deepest = deepest.max(depth);
        }
        Some(deepest)
    }

    /// The deepest of the methods of an embedded interface.
    fn below_interface(self, name: usize, nestings: &[Option<u64>]) -> Option<u64> {
        match self.denoting.under(name)? {
            Denoted::Form(form) => match self.nodes.kind(form)? {
                Kind::Interface(_) => Some(number_at(nestings, form)?.saturating_sub(1)),
                _ => None,
            },
            Denoted::Predeclared(of) => Some(self.nesting_of(of).saturating_sub(1)),
            Denoted::Declared(_) => None,
        }
    }
}

fn add_fields(
    graph: &mut Vec<Vec<usize>>,
    node: usize,
    fields: &[FieldNode],
) -> Result<(), NoMemory> {
    for field in fields {
        add_edge(graph, node, field.form)?;
    }
    Ok(())
}

/// One more than a nesting.
fn above(nesting: Option<u64>) -> Option<u64> {
    Some(nesting?.saturating_add(1))
}

fn deepest_field(fields: &[FieldNode], nestings: &[Option<u64>]) -> Option<u64> {
    let mut deepest = 0u64;
    for field in fields {
        deepest = deepest.max(number_at(nestings, field.form)?);
    }
    Some(deepest)
}
