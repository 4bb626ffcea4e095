//! Edges between declarations, and which of these they lead back to.

ghost use Rattle.std.specs.Prelude.{◌≡◌, ℕ, map, IfOk};
ghost use Rattle.go_graph.specs.Marks.{AreMarks};
ghost use Rattle.decl_rules.specs.Cycles.{HaveEdges, LeadsTo};

use decl_nodes::{add_edge, no_edges, order_of};
use go_base::NoMemory;
use std::alloc::Global;

/// An edge from one declaration to another.
#[derive(Clone, Copy)]
pub struct Edge {
    pub from: usize,
    pub to: usize,
}

/// The graph of edges between so many.
fn graph_of(alloc: Global, count: usize, edges: &[Edge]) -> Result<Vec<Vec<usize>>, NoMemory>
    ensures { IfOk result (λ g. HaveEdges count edges.now (map (λ r. r.items) g.items)) }
{
    let mut graph = no_edges(alloc, count)?;
    for edge in edges {
        add_edge(&mut graph, edge.from, edge.to)?;
    }
    Ok(graph)
}

/// Which of so many lead back to themselves.
pub fn on_circles(alloc: Global, count: usize, edges: &[Edge]) -> Result<Vec<bool>, NoMemory>
    ensures { IfOk result (λ v. AreMarks count (λ x. LeadsTo edges.now x x) v.items) }
{
    let graph = graph_of(alloc, count, edges)?;
    let order = order_of(alloc, graph.as_slice())?;
    Ok(order.cyclic)
}
