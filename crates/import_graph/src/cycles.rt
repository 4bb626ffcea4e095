//! The first import on a cycle.

ghost use Rattle.std.specs.Prelude.{◌≡◌, ◌↔◌, ℕ, Contains, IfOk, OnOk, IsTrue, map, nat_eq};
ghost use Rattle.indexmap.specs.IndexSet.{insert_all};
ghost use Rattle.import_graph.specs.Cycles.{Reaches, IsOnCycle, IsFirstOnCycle};
ghost use Rattle.import_graph.specs.Edges.{AscendByStart};
ghost use Rattle.import_graph.specs.Ranks.{AreOrdered};

use crate::edges::{Edge, by_start, edges_from};
use crate::ranks::{Ranks, rank_of, ranks};
use go_base::NoMemory;
use indexmap::IndexSet;
use std::alloc::Global;

/// The index of the first edge whose end reaches its start: the first import on a cycle. None exactly where no edge is
/// on a cycle.
///
/// Go specification, "Import declarations": no package imports itself, directly or not.
pub fn first_on_cycle(alloc: Global, edges: &[Edge]) -> Result<Option<usize>, NoMemory>
    ensures { IfOk result (IsFirstOnCycle edges.now) }
{
    let sorted = by_start(alloc, edges)?;
    let ranks = ranks(alloc, sorted.as_slice())?;
    for (index, edge) in edges.iter().enumerate() {
        if is_on_cycle(alloc, sorted.as_slice(), &ranks, *edge)? {
            return Ok(Some(index));
        }
    }
    Ok(None)
}

/// Whether the end of an edge reaches its start. Ranks rule out most edges that are on no cycle.
fn is_on_cycle(alloc: Global, edges: &[Edge], ranks: &Ranks, edge: Edge) -> Result<bool, NoMemory>
    requires ascend { AscendByStart edges.now }
    requires ordered { AreOrdered ranks.now edges.now }
    ensures { IfOk result (λ is. IsTrue is ↔ IsOnCycle edges.now edge) }
{
    if rank_of(ranks, edge.from) < rank_of(ranks, edge.to) {
        return Ok(false);
    }
    reaches(alloc, edges, edge.to, edge.from)
}

/// Whether edges by their starts lead from a node to another.
fn reaches(alloc: Global, edges: &[Edge], start: u32, end: u32) -> Result<bool, NoMemory>
    requires { AscendByStart edges.now }
    ensures { IfOk result (λ is. IsTrue is ↔ Reaches edges.now start end) }
{
    let nodes = nodes_from(alloc, edges, start)?;
    Ok(nodes.contains(&end))
}

/// The nodes that edges by their starts lead to from a node.
fn nodes_from(alloc: Global, edges: &[Edge], start: u32) -> Result<IndexSet<u32>, NoMemory>
    requires { AscendByStart edges.now }
    ensures { IfOk result (λ nodes. (node : ℕ) → Contains nodes.keys node ↔ Reaches edges.now start node) }
{
    let mut met = IndexSet::new(alloc);
    met.insert(start)?;
    let mut place = 0;
    'places: while place < met.len() {
        let node = met.as_slice()[place];
        add_ends(edges_from(edges, node), &mut met)?;
        place += 1;
    }
    Ok(met)
}

/// Adds the ends of edges.
fn add_ends(edges: &[Edge], nodes: &mut IndexSet<u32>) -> Result<(), NoMemory>
    ensures { OnOk result (nodes.new.keys ≡ insert_all nat_eq nodes.old.keys (map (λ edge. edge.to) edges.now)) }
{
    for edge in edges {
        nodes.insert(edge.to)?;
    }
    Ok(())
}
