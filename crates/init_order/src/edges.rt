//! Edges between the groups of a graph whose nodes stand on each other.

ghost use Rattle.std.specs.Prelude.{◌≡◌, ◌<◌, ◌+◌, ◌^◌, ◌++◌, ℕ, [], All, map, length, slice_index, vec_len, IfOk, OnOk};
ghost use Rattle.go_graph.specs.Graph.{IsGraph, AreComponents, next};
ghost use Rattle.init_order.specs.Groups.{AreGroupEdges, edge_between, edges_to, waits, sources, AreWithin};

use crate::rows::{push_number, push_rows};
use go_base::NoMemory;
use std::alloc::Global;

/// An edge from one group of nodes to another.
#[derive(Clone, Copy)]
pub struct Edge {
    pub leaves: usize,
    pub enters: usize,
}

/// The edges of a graph that lead from one group of its nodes to another. `of` gives each node its group.
pub fn group_edges(alloc: Global, graph: &[Vec<usize>], of: &[usize]) -> Result<Vec<Edge>, NoMemory>
    requires graph { IsGraph (map (λ r. r.items) graph.now) }
    requires size { length of.now ≡ length graph.now }
    ensures { IfOk result (λ v. AreGroupEdges (map (λ r. r.items) graph.now) of.now v.items) }
{
    let mut edges = Vec::new(alloc);
    for node in 0..graph.len() {
        push_edges(&mut edges, &graph[node], of, of[node])?;
    }
    Ok(edges)
}

/// The edges from a group to those of targets.
fn push_edges(
    edges: &mut Vec<Edge>,
    targets: &[usize],
    of: &[usize],
    group: usize,
) -> Result<(), NoMemory>
    requires { All (λ y. y < length of.now) targets.now }
    ensures { OnOk result (edges.new.items ≡ edges.old.items ++ edges_to of.now group targets.now) }
{
    for target in targets {
        push_edge(edges, group, of[*target])?;
    }
    Ok(())
}

/// The edge from a group to another, if it is another.
fn push_edge(edges: &mut Vec<Edge>, leaves: usize, enters: usize) -> Result<(), NoMemory>
    ensures { OnOk result (edges.new.items ≡ edges.old.items ++ edge_between leaves enters) }
{
    if leaves != enters {
        edges.push(Edge { leaves, enters })?;
    }
    Ok(())
}

/// For each group how many edges lead from it, and one more.
pub fn counts_of(alloc: Global, count: usize, edges: &[Edge]) -> Result<Vec<usize>, NoMemory>
    requires within { AreWithin count edges.now }
    requires few { length edges.now + 1 < 2 ^ 64 }
    ensures size { IfOk result (λ v. vec_len v ≡ count) }
    ensures counts { IfOk result (λ v. (g : ℕ) → g < count → slice_index v.items g ≡ waits edges.now [] g + 1) }
{
    let mut counts = vec![in alloc; 1; count]?;
    for edge in edges {
        counts[edge.leaves] += 1;
    }
    Ok(counts)
}

/// For each group the groups from which an edge leads to it.
pub fn sources_of(alloc: Global, count: usize, edges: &[Edge]) -> Result<Vec<Vec<usize>>, NoMemory>
    requires { AreWithin count edges.now }
    ensures size { IfOk result (λ v. vec_len v ≡ count) }
    ensures sources { IfOk result (λ v. (g : ℕ) → g < count → next (map (λ r. r.items) v.items) g ≡ sources edges.now g) }
{
    let mut rows = Vec::new(alloc);
    push_rows(alloc, &mut rows, count)?;
    for edge in edges {
        push_number(&mut rows, edge.enters, edge.leaves)?;
    }
    Ok(rows)
}
