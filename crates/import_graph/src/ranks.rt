//! Ranks of nodes: no edge leads to a lower rank, so that one to a higher rank is on no cycle.
//!
//! A walk in depth gives an order of the nodes, by the ends of their walks. A second walk, against the edges and in the
//! order turned round, meets in each turn the nodes that reach one another: the turn is their rank. No proof speaks of
//! the walks: the ranks are tested.

ghost use Rattle.std.specs.Prelude.{◌≡◌, IfOk, IsTrue};
ghost use Rattle.import_graph.specs.Ranks.{AreOrdered, rank_in};

use crate::edges::{Edge, by_start};
use crate::walk::Walk;
use go_base::NoMemory;
use std::alloc::Global;
use std::collections::HashMap;

/// The ranks of nodes.
pub type Ranks = HashMap<u32, usize>;

/// Ranks of nodes, for edges by their starts. Were a walk wrong, all nodes would have one rank.
pub fn ranks(alloc: Global, edges: &[Edge]) -> Result<Ranks, NoMemory>
    ensures { IfOk result (λ ranks. AreOrdered ranks edges.now) }
{
    let turns = turns(alloc, edges)?;
    if are_ordered(&turns, edges) {
        return Ok(turns);
    }
    Ok(HashMap::new(alloc))
}

/// The rank of a node: 0 where it has none.
pub fn rank_of(ranks: &Ranks, node: u32) -> usize
    ensures { result ≡ rank_in ranks.now node }
{
    ranks.get(&node).copied().unwrap_or(0)
}

fn are_ordered(ranks: &Ranks, edges: &[Edge]) -> bool
    ensures { IsTrue result → AreOrdered ranks.now edges.now }
{
    edges.iter().all(|edge| rank_of(ranks, edge.from) <= rank_of(ranks, edge.to))
}

/// For each node the turn in which the second walk meets it.
fn turns(alloc: Global, edges: &[Edge]) -> Result<Ranks, NoMemory> {
    let mut ahead = Walk::new(alloc, edges);
    for edge in edges {
        ahead.meet_all(edge.from, 0)?;
    }
    let back = turned(alloc, edges)?;
    let mut against = Walk::new(alloc, back.as_slice());
    for (turn, node) in ahead.done.iter().rev().enumerate() {
        against.meet_all(*node, turn)?;
    }
    Ok(against.turns)
}

/// The edges turned round, by their starts.
fn turned(alloc: Global, edges: &[Edge]) -> Result<Vec<Edge>, NoMemory> {
    let mut turned = Vec::new(alloc);
    for edge in edges {
        turned.push(Edge {
            from: edge.to,
            to: edge.from,
        })?;
    }
    by_start(alloc, turned.as_slice())
}
