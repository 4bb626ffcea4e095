//! Edges of a call graph, in order.

ghost use Rattle.std.specs.Prelude.{◌≡◌, ◌==◌, ◌↔◌, length, IfOk, slice_get};
ghost use Rattle.std.specs.List.{Contains};
ghost use Rattle.std.specs.List.Sorted.{IsStrictlySortedBy};
ghost use Rattle.cg_sets.specs.InOrder.{edge_cmp};
ghost use Rattle.cg_sets.specs.declared.edges.Edge.{Edge};

use go_base::{FuncId, NoMemory, Pos};
use std::marker::Model;

/// A function calls another at a site.
#[derive(Clone, Copy, PartialEq, Eq, PartialOrd, Ord)]
pub struct Edge {
    pub caller: FuncId,
    /// The `(` of the call; for a function named `init` its name.
    pub site: Pos,
    pub callee: FuncId,
}

/// Edges, each once, ascending by caller, site and callee.
#[derive(Drop)]
pub struct Edges {
    items: Vec<Edge>,
}

impl Model for Edges {
    ghost use Rattle.std.specs.Prelude.{List};
    ghost use Rattle.cg_sets.specs.declared.edges.Edge.{Edge};

    ghost Value = { List Edge };

    ghost view = { λ edges. edges.items.items };
}

impl Edges {
    /// The edges of a vector, in order.
    pub fn in_order(edges: Vec<Edge>) -> Result<Edges, NoMemory>
        ensures members { IfOk result (λ found. (e : Edge) → Contains found e ↔ Contains edges.items e) }
        ensures ascending { IfOk result (IsStrictlySortedBy edge_cmp) }
    {
        let mut items = edges;
        items.sort()?;
        items.dedup();
        Ok(Edges { items })
    }

    /// How many edges there are.
    pub fn len(&self) -> usize
        ensures { result ≡ length self.now }
    {
        self.items.len()
    }

    /// Whether there are none.
    pub fn is_empty(&self) -> bool
        ensures { result ≡ (length self.now == 0) }
    {
        self.items.is_empty()
    }

    /// The edge at an index. None past the end.
    pub fn get(&self, index: usize) -> Option<Edge>
        ensures { result ≡ slice_get self.now index }
    {
        self.items.get(index).copied()
    }

    /// The edges themselves.
    pub fn as_slice(&self) -> &[Edge]
        ensures { result.now ≡ self.now }
    {
        self.items.as_slice()
    }
}
