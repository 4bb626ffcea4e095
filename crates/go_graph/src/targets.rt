//! The targets of a graph's edges.

ghost use Rattle.std.specs.Prelude.{◌≡◌, ◌↔◌, IsTrue, map};
ghost use Rattle.go_graph.specs.Graph.{IsGraph, all_below, are_below};

/// Whether each edge of a graph leads to one of its nodes, as the other calls require.
pub fn is_graph(graph: &[Vec<usize>]) -> bool
    ensures { IsTrue result ↔ IsGraph (map (λ r. r.items) graph.now) }
{
    all_below(graph, graph.len())
}

fn all_below(graph: &[Vec<usize>], count: usize) -> bool
    ensures { result ≡ all_below count (map (λ r. r.items) graph.now) }
{
    'rows: for targets in graph {
        if !are_below(targets.as_slice(), count) {
            return false;
        }
    }
    true
}

fn are_below(targets: &[usize], count: usize) -> bool
    ensures { result ≡ are_below count targets.now }
{
    'targets: for target in targets {
        if *target >= count {
            return false;
        }
    }
    true
}
