//! Which declarations stand on themselves. Go specification, "Type declarations", "Constant declarations".

ghost use Rattle.std.specs.Prelude.{◌≡◌, ◌++◌, ◌∷◌, ◌&&◌, ◌||◌, ◌⊎◌, ◌↔◌, ℕ, [], map, flat_map, length, replicate, slice_get, false, true, IfOk, OnOk};
ghost use Rattle.go_graph.specs.Graph.{IsAmong, StandsOn, next};
ghost use Rattle.go_graph.specs.Marks.{AreMarks, marked};
ghost use Rattle.decl_nodes.specs.Edges.{IsOrder};
ghost use Rattle.decl_nodes.specs.declared.violations.Violation.{Violation};
ghost use Rattle.decl_rules.specs.Cycles;
ghost use Rattle.decl_rules.specs.Cycles.{IsCycleViolation, IsRecursive, NotComparable, RefersToItself, alias_edges, aliased, canon_of, cycles_below, declared_edges, edge_to, held, is_alias, is_constant, is_incomparable, is_marked_in, is_type, length_of, lengths_marked, mark_length, tie_edges, tied, violations_if};

use crate::edges::{Edge, on_circles};
use decl_nodes::{
    Declaration, FieldNode, Kind, Nodes, Order, Sort, Tables, Tie, TypeFact, Violations, is_marked,
    mark, reach_marked, unmarked,
};
use go_base::{NoMemory, Rule};
use std::alloc::Global;

/// What each node holds as a part of its own: elements of arrays, fields of structs, and what names denote.
pub fn holding(alloc: Global, nodes: &Nodes) -> Result<Vec<Vec<usize>>, NoMemory>
    ensures { IfOk result (λ g. map (λ r. r.items) g.items ≡ Cycles.holds nodes.now.list) }
{
    let mut graph = Vec::new(alloc);
    for node in nodes.as_slice() {
        graph.push(held(alloc, &node.kind)?)?;
    }
    Ok(graph)
}

fn held(alloc: Global, kind: &Kind) -> Result<Vec<usize>, NoMemory>
    ensures { IfOk result (λ v. v.items ≡ held kind.now) }
{
    match kind {
        Kind::Named(to) | Kind::Paren(to) => one(alloc, *to),
        Kind::Defined { form, .. } | Kind::Alias { form } => one(alloc, *form),
        Kind::Array { element, .. } => one(alloc, *element),
        Kind::Embedded { name, pointer } => {
            if *pointer {
                Ok(Vec::new(alloc))
            } else {
                one(alloc, *name)
            }
        }
        Kind::Struct(fields) => forms_of(alloc, fields.as_slice()),
        _ => Ok(Vec::new(alloc)),
    }
}

fn one(alloc: Global, node: usize) -> Result<Vec<usize>, NoMemory>
    ensures { IfOk result (λ v. v.items ≡ node ∷ []) }
{
    Ok(vec![in alloc; node]?)
}

/// The types of fields.
fn forms_of(alloc: Global, fields: &[FieldNode]) -> Result<Vec<usize>, NoMemory>
    ensures { IfOk result (λ v. v.items ≡ map (λ f. f.form) fields.now) }
{
    let mut forms = Vec::new(alloc);
    for field in fields {
        forms.push(field.form)?;
    }
    Ok(forms)
}

/// Which types have values that are not compared: they hold a slice, a map or a function.
pub fn incomparable(alloc: Global, nodes: &Nodes) -> Result<Vec<bool>, NoMemory>
    ensures { IfOk result (λ v. AreMarks (length nodes.now.list) (NotComparable nodes.now.list) v.items) }
{
    let marks = incomparable_kinds(alloc, nodes)?;
    let graph = holding(alloc, nodes)?;
    reach_marked(alloc, &graph, &marks)
}

/// Which nodes are slices, maps or functions.
fn incomparable_kinds(alloc: Global, nodes: &Nodes) -> Result<Vec<bool>, NoMemory>
    ensures { IfOk result (λ v. v.items ≡ map (λ n. is_incomparable n.kind) nodes.now.list) }
{
    let mut marks = Vec::new(alloc);
    for node in nodes.as_slice() {
        marks.push(is_incomparable(&node.kind))?;
    }
    Ok(marks)
}

fn is_incomparable(kind: &Kind) -> bool
    ensures { result ≡ is_incomparable kind.now }
{
    matches!(kind, Kind::Slice(_) | Kind::Map { .. } | Kind::Function(_))
}

/// Whether a declaration is of a type.
fn is_type(declared: &[Declaration], node: usize) -> bool
    ensures { result ≡ is_type declared.now node }
{
    match declared.get(node) {
        Some(declaration) => matches!(declaration.sort, Sort::Defined | Sort::Alias),
        None => false,
    }
}

fn is_alias(declared: &[Declaration], node: usize) -> bool
    ensures { result ≡ is_alias declared.now node }
{
    match declared.get(node) {
        Some(declaration) => matches!(declaration.sort, Sort::Alias),
        None => false,
    }
}

fn is_constant(declared: &[Declaration], node: usize) -> bool
    ensures { result ≡ is_constant declared.now node }
{
    match declared.get(node) {
        Some(declaration) => matches!(declaration.sort, Sort::Constant),
        None => false,
    }
}

/// What a name counts as: for an alias of a name what that leads to.
fn canon(facts: &[TypeFact], node: Option<usize>) -> Option<usize>
    ensures { result ≡ canon_of facts.now node }
{
    match facts.get(node?) {
        Some(fact) => fact.canon,
        None => None,
    }
}

/// Adds an edge to what there is.
fn add_to(edges: &mut Vec<Edge>, from: usize, to: Option<usize>) -> Result<(), NoMemory>
    ensures { OnOk result (edges.new.items ≡ edges.old.items ++ edge_to from to) }
{
    if let Some(to) = to {
        edges.push(Edge { from, to })?;
    }
    Ok(())
}

/// The names that types are tied to: as what they are declared, what they embed in interfaces, and the aliases in them.
fn tied(
    alloc: Global,
    declared: &[Declaration],
    ties: &[Tie],
    facts: &[TypeFact],
) -> Result<Vec<Edge>, NoMemory>
    ensures { IfOk result (λ v. v.items ≡ tied declared.now ties.now facts.now) }
{
    let mut edges = declared_as(alloc, facts)?;
    for tie in ties {
        add_tie(&mut edges, declared, facts, *tie)?;
    }
    Ok(edges)
}

/// The names that types are declared as.
fn declared_as(alloc: Global, facts: &[TypeFact]) -> Result<Vec<Edge>, NoMemory>
    ensures { IfOk result (λ v. v.items ≡ declared_edges facts.now 0 facts.now) }
{
    let mut edges = Vec::new(alloc);
    for (node, fact) in facts.iter().enumerate() {
        add_to(&mut edges, node, canon(facts, fact.target))?;
    }
    Ok(edges)
}

/// A name ties its type to what it counts as, where it is embedded in an interface or that is an alias.
fn add_tie(
    edges: &mut Vec<Edge>,
    declared: &[Declaration],
    facts: &[TypeFact],
    tie: Tie,
) -> Result<(), NoMemory>
    ensures { OnOk result (edges.new.items ≡ edges.old.items ++ tie_edges declared.now facts.now tie) }
{
    let Some(to) = canon(facts, Some(tie.target)) else {
        return Ok(());
    };
    if tie.embedded || is_alias(declared, to) {
        edges.push(Edge {
            from: tie.owner,
            to,
        })?;
    }
    Ok(())
}

/// The aliases that are named in aliases.
fn aliased(alloc: Global, declared: &[Declaration], ties: &[Tie]) -> Result<Vec<Edge>, NoMemory>
    ensures { IfOk result (λ v. v.items ≡ aliased declared.now ties.now) }
{
    let mut edges = Vec::new(alloc);
    for tie in ties {
        add_alias(&mut edges, declared, *tie)?;
    }
    Ok(edges)
}

fn add_alias(edges: &mut Vec<Edge>, declared: &[Declaration], tie: Tie) -> Result<(), NoMemory>
    ensures { OnOk result (edges.new.items ≡ edges.old.items ++ alias_edges declared.now tie) }
{
    if is_alias(declared, tie.owner) && is_alias(declared, tie.target) {
        edges.push(Edge {
            from: tie.owner,
            to: tie.target,
        })?;
    }
    Ok(())
}

/// Which declarations are of types that stand on themselves; `held` has the nodes that hold themselves.
fn recursive_types(
    alloc: Global,
    nodes: &Nodes,
    declared: &[Declaration],
    ties: &[Tie],
    facts: &[TypeFact],
    held: &[bool],
) -> Result<Vec<bool>, NoMemory>
    ensures { AreMarks (length nodes.now.list) (λ x. StandsOn (next (Cycles.holds nodes.now.list)) x x) held.now → IfOk result (λ v. AreMarks (length facts.now) (IsRecursive nodes.now.list declared.now ties.now facts.now) v.items) }
{
    let tied = tied(alloc, declared, ties, facts)?;
    let by_ties = on_circles(alloc, facts.len(), &tied)?;
    let aliased = aliased(alloc, declared, ties)?;
    let by_names = on_circles(alloc, facts.len(), &aliased)?;
    let mut marks = Vec::new(alloc);
    for node in 0..facts.len() {
        marks.push(is_recursive(declared, held, &by_ties, &by_names, node))?;
    }
    Ok(marks)
}

/// Whether a declaration is of a type that is marked.
fn is_recursive(
    declared: &[Declaration],
    held: &[bool],
    by_ties: &[bool],
    by_names: &[bool],
    node: usize,
) -> bool
    ensures { result ≡ (is_type declared.now node && (marked held.now node || (marked by_ties.now node || marked by_names.now node))) }
{
    is_type(declared, node)
        && (is_marked(held, node) || is_marked(by_ties, node) || is_marked(by_names, node))
}

/// Which declarations stand on themselves, and are constants or do so through the length of an array.
fn referring_to_themselves(
    alloc: Global,
    nodes: &Nodes,
    declared: &[Declaration],
    order: &Order,
    count: usize,
) -> Result<Vec<bool>, NoMemory>
    ensures { IsOrder nodes.now.edges order.now.of.items order.now.nodes.items order.now.cyclic.items → IfOk result (λ v. AreMarks count (RefersToItself nodes.now declared.now) v.items) }
{
    let lengths = with_lengths(alloc, nodes, order)?;
    let mut marks = Vec::new(alloc);
    for node in 0..count {
        marks.push(refers_to_itself(declared, order, &lengths, node))?;
    }
    Ok(marks)
}

fn refers_to_itself(declared: &[Declaration], order: &Order, lengths: &[bool], node: usize) -> bool
    ensures { result ≡ (marked order.now.cyclic.items node && (is_constant declared.now node || is_marked_in lengths.now (slice_get order.now.of.items node))) }
{
    is_marked(&order.cyclic, node)
        && (is_constant(declared, node) || has_length(&order.of, lengths, node))
}

/// Whether the component of a node has the length of an array.
fn has_length(of: &[usize], lengths: &[bool], node: usize) -> bool
    ensures { result ≡ is_marked_in lengths.now (slice_get of.now node) }
{
    match of.get(node) {
        Some(component) => is_marked(lengths, *component),
        None => false,
    }
}

/// Which components have the length of an array.
fn with_lengths(alloc: Global, nodes: &Nodes, order: &Order) -> Result<Vec<bool>, NoMemory>
    ensures { IfOk result (λ v. v.items ≡ lengths_marked order.now.of.items nodes.now.list (replicate (length order.now.nodes.items) false)) }
{
    let mut marks = unmarked(alloc, order.nodes.len())?;
    for node in nodes.as_slice() {
        mark_length(&mut marks, &order.of, &node.kind);
    }
    Ok(marks)
}

/// Marks the component of the length of an array.
fn mark_length(marks: &mut Vec<bool>, of: &[usize], kind: &Kind)
    ensures { marks.new.items ≡ mark_length of.now (length_of kind.now) marks.old.items }
{
    if let Kind::Array { length, .. } = kind {
        if let Some(component) = of.get(*length) {
            mark(marks, *component);
        }
    }
}

/// Types that stand on themselves, and declarations that do so through a constant or the length of an array.
pub fn blame_cycles(
    tables: &mut Tables,
    facts: &[TypeFact],
    holds: &Order,
    order: &Order,
) -> Result<(), NoMemory>
    ensures { AreMarks (length tables.old.nodes.list) (λ x. StandsOn (next (Cycles.holds tables.old.nodes.list)) x x) holds.now.cyclic.items → IsOrder tables.old.nodes.edges order.now.of.items order.now.nodes.items order.now.cyclic.items → OnOk result ((v : Violation) → IsAmong v tables.new.violations ↔ (IsAmong v tables.old.violations ⊎ IsCycleViolation tables.old.nodes tables.old.declarations.items tables.old.ties.items facts.now v)) }
{
    let recursive = recursive_types(
        tables.alloc,
        &tables.nodes,
        tables.declarations.as_slice(),
        tables.ties.as_slice(),
        facts,
        &holds.cyclic,
    )?;
    let selves = referring_to_themselves(
        tables.alloc,
        &tables.nodes,
        tables.declarations.as_slice(),
        order,
        facts.len(),
    )?;
    add_cycles(
        &mut tables.violations,
        &tables.nodes,
        &recursive,
        &selves,
        facts.len(),
    )
}

/// Blames the declarations that are marked.
fn add_cycles(
    violations: &mut Violations,
    nodes: &Nodes,
    recursive: &[bool],
    selves: &[bool],
    count: usize,
) -> Result<(), NoMemory>
    ensures { OnOk result (violations.new ≡ violations.old ++ cycles_below nodes.now.list recursive.now selves.now count) }
{
    for node in 0..count {
        blame_if(
            violations,
            nodes,
            is_marked(recursive, node),
            node,
            Rule::InvalidRecursiveType,
        )?;
        blame_if(
            violations,
            nodes,
            is_marked(selves, node),
            node,
            Rule::DeclarationRefersToItself,
        )?;
    }
    Ok(())
}

fn blame_if(
    violations: &mut Violations,
    nodes: &Nodes,
    is_bad: bool,
    node: usize,
    rule: Rule,
) -> Result<(), NoMemory>
    ensures { OnOk result (violations.new ≡ violations.old ++ violations_if is_bad (slice_get nodes.now.list node) node rule) }
{
    if is_bad {
        violations.push_cycle(nodes, node, rule)?;
    }
    Ok(())
}
