//! The types of nodes, held in the table of types. Go specification, "Types", "Type identity".

use crate::denoting::{Denoted, Denoting};
use crate::values::{Values, length_at};
use decl_nodes::{
    ElementNode, FieldNode, Kind, Nodes, SignatureNode, add_edge, is_marked, no_edges, order_of,
};
use go_base::{Bytes, NameId, NoMemory, TypeId};
use go_type::{Field, Fields, MethodType, MethodTypes, Signature, TypeIds, TypeTerm, Types};
use indexmap::IndexMap;
use std::alloc::Global;

/// The types of nodes.
#[derive(Drop)]
pub struct Shapes {
    alloc: Global,
    shapes: Vec<Option<TypeId>>,
}

/// A method of an interface.
#[derive(Clone, Copy, PartialEq, Eq, PartialOrd, Ord, Hash)]
pub struct MethodKey {
    pub name: NameId,
    pub package: u32,
}

/// What is at hand where types are found.
#[derive(Clone, Copy)]
struct Known<'a> {
    nodes: &'a Nodes,
    values: &'a Values,
    denoting: &'a Denoting,
}

/// The types of the nodes.
pub fn find_shapes(
    alloc: Global,
    nodes: &Nodes,
    types: &mut Types,
    values: &Values,
    denoting: &Denoting,
) -> Result<Shapes, NoMemory> {
    let known = Known {
        nodes,
        values,
        denoting,
    };
    let mut graph = no_edges(alloc, nodes.len())?;
    for node in 0..nodes.len() {
        known.add_edges(&mut graph, node)?;
    }
    let order = order_of(alloc, graph.as_slice())?;
    let mut shapes = Shapes {
        alloc,
        shapes: Vec::new(alloc),
    };
    for _ in 0..nodes.len() {
        shapes.shapes.push(None)?;
    }
    for node in order.nodes.as_slice() {
        if !is_marked(order.cyclic.as_slice(), *node) {
            let shape = shapes.find(known, types, *node)?;
            shapes.set(*node, shape);
        }
    }
    Ok(shapes)
}

impl Known<'_> {
    /// The nodes whose types the type of a node is made of. A declared type is made of nothing.
    fn add_edges(self, graph: &mut Vec<Vec<usize>>, node: usize) -> Result<(), NoMemory> {
        match self.nodes.kind(node) {
            Some(Kind::Named(to)) => match self.nodes.kind(*to) {
                Some(Kind::Alias { .. }) => add_edge(graph, node, *to),
                _ => Ok(()),
            },
            Some(Kind::Alias { form }) => add_edge(graph, node, *form),
            Some(Kind::Paren(to) | Kind::Pointer(to) | Kind::Slice(to) | Kind::Function(to)) => {
                add_edge(graph, node, *to)
            }
            Some(Kind::Array { element, .. } | Kind::Chan { element, .. }) => {
                add_edge(graph, node, *element)
            }
            Some(Kind::Embedded { name, .. }) => add_edge(graph, node, *name),
            Some(Kind::Map { key, element }) => {
                add_edge(graph, node, *key)?;
                add_edge(graph, node, *element)
            }
            Some(Kind::Struct(fields)) => add_fields(graph, node, fields.as_slice()),
            Some(Kind::Signature(signature)) => {
                add_all(graph, node, signature.params.as_slice())?;
                add_all(graph, node, signature.results.as_slice())
            }
            Some(Kind::Interface(elements)) => self.add_elements(graph, node, elements.as_slice()),
            _ => Ok(()),
        }
    }

    fn add_elements(
        self,
        graph: &mut Vec<Vec<usize>>,
        node: usize,
        elements: &[ElementNode],
    ) -> Result<(), NoMemory> {
        for element in elements {
            match element {
                ElementNode::Own { signature, .. } => add_edge(graph, node, *signature)?,
                ElementNode::Embedded { name, .. } => {
                    if let Some(Denoted::Form(form)) = self.denoting.under(*name) {
                        add_edge(graph, node, form)?;
                    }
                }
            }
        }
        Ok(())
    }
}

fn add_fields(
    graph: &mut Vec<Vec<usize>>,
    node: usize,
    fields: &[FieldNode],
) -> Result<(), NoMemory> {
    for field in fields {
        add_edge(graph, node, field.form)?;
    }
    Ok(())
}

fn add_all(graph: &mut Vec<Vec<usize>>, node: usize, parts: &[usize]) -> Result<(), NoMemory> {
    for part in parts {
        add_edge(graph, node, *part)?;
    }
    Ok(())
}

/// The id of a type. None where it may not be held.
fn held(types: &mut Types, term: TypeTerm) -> Result<Option<TypeId>, NoMemory> {
    if !types.can_hold(&term) {
        return Ok(None);
    }
    let id = types.hold(term)?;
    Ok(Some(id))
}

impl Shapes {
    /// The type of a node.
    pub fn get(&self, node: usize) -> Option<TypeId> {
        match self.shapes.as_slice().get(node) {
            Some(shape) => *shape,
            None => None,
        }
    }

    fn set(&mut self, node: usize, shape: Option<TypeId>) {
        if let Some(place) = self.shapes.get_mut(node) {
            *place = shape;
        }
    }

    /// The type of a node whose parts have theirs.
    fn find(
        &self,
        known: Known<'_>,
        types: &mut Types,
        node: usize,
    ) -> Result<Option<TypeId>, NoMemory> {
        match known.nodes.kind(node) {
            Some(Kind::Named(to)) => Ok(self.named(known, *to)),
            Some(Kind::Defined { of, .. }) => Ok(Some(*of)),
            Some(Kind::Predeclared(of)) => Ok(Some(*of)),
            Some(Kind::Alias { form }) => Ok(self.get(*form)),
            Some(Kind::Paren(to) | Kind::Function(to)) => Ok(self.get(*to)),
            Some(Kind::Pointer(to)) => self.pointer(types, *to),
            Some(Kind::Embedded { name, pointer }) => {
                if *pointer {
                    self.pointer(types, *name)
                } else {
                    Ok(self.get(*name))
                }
            }
            Some(Kind::Signature(signature)) => self.signature(types, signature),
            Some(Kind::Struct(fields)) => self.structure(types, fields.as_slice()),
            Some(Kind::Interface(elements)) => { self.interface(known, types, elements.as_slice()) }
            Some(kind) => self.simple(known, types, kind),
            None => Ok(None),
        }
    }

    fn named(&self, known: Known<'_>, to: usize) -> Option<TypeId> {
        match known.nodes.kind(to)? {
            Kind::Defined { of, .. } => Some(*of),
            _ => self.get(to),
        }
    }

    fn pointer(&self, types: &mut Types, to: usize) -> Result<Option<TypeId>, NoMemory> {
        match self.get(to) {
            Some(to) => held(types, TypeTerm::Pointer(to)),
            None => Ok(None),
        }
    }

    fn simple(
        &self,
        known: Known<'_>,
        types: &mut Types,
        kind: &Kind,
    ) -> Result<Option<TypeId>, NoMemory> {
        match self.simple_term(known, kind) {
            Some(term) => held(types, term),
            None => Ok(None),
        }
    }

    fn simple_term(&self, known: Known<'_>, kind: &Kind) -> Option<TypeTerm> {
        match kind {
            Kind::Slice(to) => Some(TypeTerm::Slice(self.get(*to)?)),
            Kind::Array { length, element } => Some(TypeTerm::Array {
                len: length_at(known.values, *length)?,
                elem: self.get(*element)?,
            }),
            Kind::Map { key, element } => Some(TypeTerm::Map {
                key: self.get(*key)?,
                elem: self.get(*element)?,
            }),
            Kind::Chan { dir, element } => Some(TypeTerm::Chan {
                dir: *dir,
                elem: self.get(*element)?,
            }),
            _ => None,
        }
    }

    fn signature(
        &self,
        types: &mut Types,
        signature: &SignatureNode,
    ) -> Result<Option<TypeId>, NoMemory> {
        let params = self.params(types, signature)?;
        let results = self.all(signature.results.as_slice())?;
        match (params, results) {
            (Some(params), Some(results)) => held(
                types,
                TypeTerm::Func(Signature {
                    params,
                    results,
                    variadic: signature.variadic,
                }),
            ),
            _ => Ok(None),
        }
    }

    fn all(&self, nodes: &[usize]) -> Result<Option<TypeIds>, NoMemory> {
        let mut ids = TypeIds::new(self.alloc);
        for node in nodes {
            let Some(id) = self.get(*node) else {
                return Ok(None);
            };
            ids.push(id)?;
        }
        Ok(Some(ids))
    }

    /// The parameters; of a variadic function the last one is a slice.
    fn params(
        &self,
        types: &mut Types,
        signature: &SignatureNode,
    ) -> Result<Option<TypeIds>, NoMemory> {
        let nodes = signature.params.as_slice();
        let (Some((last, front)), true) = (nodes.split_last(), signature.variadic) else {
            return self.all(nodes);
        };
        let Some(mut ids) = self.all(front)? else {
            return Ok(None);
        };
        let Some(element) = self.get(*last) else {
            return Ok(None);
        };
        let Some(slice) = held(types, TypeTerm::Slice(element))? else {
            return Ok(None);
        };
        ids.push(slice)?;
        Ok(Some(ids))
    }

    fn structure(
        &self,
        types: &mut Types,
        nodes: &[FieldNode],
    ) -> Result<Option<TypeId>, NoMemory> {
        let mut fields = Fields::new(self.alloc);
        for node in nodes {
            let Some(of) = self.get(node.form) else {
                return Ok(None);
            };
            fields.push(Field {
                name: node.name,
                package: node.package,
                of,
                embedded: node.embedded,
                tag: Bytes::new(Vec::from_slice(self.alloc, node.tag.as_slice())?),
            })?;
        }
        held(types, TypeTerm::Struct(fields))
    }

    fn interface(
        &self,
        known: Known<'_>,
        types: &mut Types,
        elements: &[ElementNode],
    ) -> Result<Option<TypeId>, NoMemory> {
        let mut methods = IndexMap::new(self.alloc);
        for element in elements {
            let added = self.add_methods(known, types, *element, &mut methods)?;
            if !added {
                return Ok(None);
            }
        }
        methods.sort_keys()?;
        let mut list = MethodTypes::new(self.alloc);
        for (key, of) in methods.iter() {
            list.push(MethodType {
                name: key.name,
                package: key.package,
                of: *of,
            })?;
        }
        held(types, TypeTerm::Interface(list))
    }

    /// Adds the methods that an element brings. False where they are not known, or a name has another type already.
    fn add_methods(
        &self,
        known: Known<'_>,
        types: &Types,
        element: ElementNode,
        methods: &mut IndexMap<MethodKey, TypeId>,
    ) -> Result<bool, NoMemory> {
        match element {
            ElementNode::Own {
                name,
                package,
                signature,
                ..
            } => match self.get(signature) {
                Some(of) => add_method(methods, MethodKey { name, package }, of),
                None => Ok(false),
            },
            ElementNode::Embedded { name, .. } => {
                match self.embedded_methods(known.denoting, types, name) {
                    Some(embedded) => add_embedded(methods, embedded),
                    None => Ok(false),
                }
            }
        }
    }

    /// The methods of an interface that is embedded by a name. None where they are not known.
    pub fn embedded_methods<'a>(
        &self,
        denoting: &Denoting,
        types: &'a Types,
        name: usize,
    ) -> Option<&'a [MethodType]> {
        let of = match denoting.under(name)? {
            Denoted::Form(form) => self.get(form)?,
            Denoted::Predeclared(of) => of,
            Denoted::Declared(_) => return None,
        };
        match types.underlying_term(of)? {
            TypeTerm::Interface(methods) => Some(methods.as_slice()),
            _ => None,
        }
    }
}

fn add_embedded(
    methods: &mut IndexMap<MethodKey, TypeId>,
    embedded: &[MethodType],
) -> Result<bool, NoMemory> {
    for method in embedded {
        let key = MethodKey {
            name: method.name,
            package: method.package,
        };
        if !add_method(methods, key, method.of)? {
            return Ok(false);
        }
    }
    Ok(true)
}

/// Adds a method. False where its name has another type already.
fn add_method(
    methods: &mut IndexMap<MethodKey, TypeId>,
    key: MethodKey,
    of: TypeId,
) -> Result<bool, NoMemory> {
    match methods.insert(key, of)? {
        Some(earlier) => Ok(earlier == of),
        None => Ok(true),
    }
}
