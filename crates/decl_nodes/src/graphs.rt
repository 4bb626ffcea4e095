//! What is asked of graphs over nodes.

ghost use Rattle.std.specs.Prelude.{◌≡◌, [], map, length, replicate, false, true, slice_set, IfOk, OnOk, OnErr, MatchOption};
ghost use Rattle.go_graph.specs.Graph.{next};
ghost use Rattle.go_graph.specs.Marks.{AreMarks, ReachesMark, marked};
ghost use Rattle.go_graph.specs.Silence.{IsFirst};
ghost use Rattle.decl_nodes.specs.Edges.{IsOrder, with_edge, with_edges};

use crate::error::lost;
use go_base::NoMemory;
use go_graph::{
    Fault, are_at_nodes, components_of, first_unsilenced, is_graph, on_themselves, reaching,
};
use std::alloc::Global;

/// The nodes of a graph in an order in which each comes after what it leads to.
#[derive(Drop)]
pub struct Order {
    /// For each node the number of its component.
    pub of: Vec<usize>,
    /// The nodes, those of a component together.
    pub nodes: Vec<usize>,
    /// Which nodes lead back to themselves.
    pub cyclic: Vec<bool>,
}

/// The order of a graph.
pub fn order_of(alloc: Global, graph: &[Vec<usize>]) -> Result<Order, NoMemory>
    ensures { IfOk result (λ o. IsOrder (map (λ r. r.items) graph.now) o.of.items o.nodes.items o.cyclic.items) }
{
    if !is_graph(graph) {
        return Err(lost());
    }
    let components = components_of(alloc, graph)?;
    let cyclic = on_themselves(alloc, graph, &components)?;
    Ok(Order {
        of: components.of,
        nodes: components.order,
        cyclic,
    })
}

/// From which nodes one comes to a marked one.
pub fn reach_marked(
    alloc: Global,
    graph: &[Vec<usize>],
    marks: &[bool],
) -> Result<Vec<bool>, NoMemory>
    ensures { IfOk result (λ v. AreMarks (length graph.now) (ReachesMark (map (λ r. r.items) graph.now) marks.now) v.items) }
{
    if !is_graph(graph) || marks.len() != graph.len() {
        return Err(lost());
    }
    let components = components_of(alloc, graph)?;
    let flags = reaching(alloc, graph, &components, marks)?;
    spread(alloc, components.of.as_slice(), flags.as_slice())
}

/// The flag of each node's component.
fn spread(alloc: Global, of: &[usize], flags: &[bool]) -> Result<Vec<bool>, NoMemory>
    ensures { IfOk result (λ v. v.items ≡ map (marked flags.now) of.now) }
{
    let mut marks = Vec::new(alloc);
    for component in of {
        marks.push(is_marked(flags, *component))?;
    }
    Ok(marks)
}

/// Whether a place is marked.
pub fn is_marked(marks: &[bool], place: usize) -> bool
    ensures { result ≡ marked marks.now place }
{
    marks.get(place).copied().unwrap_or(false)
}

/// Marks a place.
pub fn mark(marks: &mut Vec<bool>, place: usize)
    ensures { marks.new.items ≡ slice_set marks.old.items place true }
{
    if place < marks.len() {
        marks[place] = true;
    }
}

/// Nothing is marked.
pub fn unmarked(alloc: Global, count: usize) -> Result<Vec<bool>, NoMemory>
    ensures { IfOk result (λ v. v.items ≡ replicate count false) }
{
    Ok(vec![in alloc; false; count]?)
}

/// No edges yet.
pub fn no_edges(alloc: Global, count: usize) -> Result<Vec<Vec<usize>>, NoMemory>
    ensures { IfOk result (λ g. map (λ r. r.items) g.items ≡ replicate count []) }
{
    let mut graph = Vec::new(alloc);
    for made in 0..count {
        graph.push(Vec::new(alloc))?;
    }
    Ok(graph)
}

/// Adds an edge. After `NoMemory` all is as before.
pub fn add_edge(graph: &mut Vec<Vec<usize>>, from: usize, to: usize) -> Result<(), NoMemory>
    ensures added { OnOk result (map (λ r. r.items) graph.new.items ≡ with_edge from to (map (λ r. r.items) graph.old.items)) }
    ensures err { OnErr result (map (λ r. r.items) graph.new.items ≡ map (λ r. r.items) graph.old.items) }
{
    if from < graph.len() {
        graph[from].push(to)?;
    }
    Ok(())
}

/// Adds edges from one node. After `NoMemory` all is as before.
pub fn add_edges(graph: &mut Vec<Vec<usize>>, from: usize, to: &[usize]) -> Result<(), NoMemory>
    ensures added { OnOk result (map (λ r. r.items) graph.new.items ≡ with_edges from to.now (map (λ r. r.items) graph.old.items)) }
    ensures err { OnErr result (map (λ r. r.items) graph.new.items ≡ map (λ r. r.items) graph.old.items) }
{
    if from < graph.len() {
        graph[from].extend_from_slice(to)?;
    }
    Ok(())
}

/// The index of the first fault that no other silences.
pub fn first_heard(
    alloc: Global,
    graph: &[Vec<usize>],
    faults: &[Fault],
) -> Result<Option<usize>, NoMemory>
    ensures { IfOk result (λ o. MatchOption o (faults.now ≡ []) (IsFirst (next (map (λ r. r.items) graph.now)) faults.now)) }
{
    if !is_graph(graph) || !are_at_nodes(faults, graph.len()) {
        return Err(lost());
    }
    let components = components_of(alloc, graph)?;
    let cyclic = on_themselves(alloc, graph, &components)?;
    let first = first_unsilenced(alloc, graph, &components, cyclic.as_slice(), faults)?;
    Ok(first)
}
