//! Edges, and those of one node.

ghost use Rattle.std.specs.Prelude.{IfOk, IsPermutation};
ghost use Rattle.import_graph.specs.Edges.{AscendByStart, AreAllFrom};

use go_base::NoMemory;
use std::alloc::Global;

/// An import of the package `to` by the package `from`; packages are numbered from 0.
#[derive(Clone, Copy, PartialEq, Eq, PartialOrd, Ord)]
pub struct Edge {
    pub from: u32,
    pub to: u32,
}

/// The edges, by their starts.
pub fn by_start(alloc: Global, edges: &[Edge]) -> Result<Vec<Edge>, NoMemory>
    ensures same { IfOk result (λ sorted. IsPermutation edges.now sorted.items) }
    ensures ascend { IfOk result (λ sorted. AscendByStart sorted.items) }
{
    let mut sorted = Vec::from_slice(alloc, edges)?;
    sorted.sort_unstable_by_key(|edge| edge.from);
    Ok(sorted)
}

/// The edges that start at a node, of edges by their starts.
pub fn edges_from(edges: &[Edge], node: u32) -> &[Edge]
    requires { AscendByStart edges.now }
    ensures { AreAllFrom edges.now node result.now }
{
    let first = edges.partition_point(|edge| edge.from < node);
    let rest = &edges[first..];
    let count = rest.partition_point(|edge| edge.from <= node);
    &rest[..count]
}
