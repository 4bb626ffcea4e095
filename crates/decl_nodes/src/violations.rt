//! Rules that are violated at nodes, and the first of them that no other silences.

ghost use Rattle.std.specs.Prelude.{◌≡◌, ◌==◌, ◌++◌, ◌∷◌, [], map, length, false, true, slice_get, IfOk, OnOk, MatchOption};
ghost use Rattle.go_graph.specs.Graph.{next};
ghost use Rattle.decl_nodes.specs.Violated.{violated_at, violated_from, fault_of, IsFirstBroken};

use crate::graphs::first_heard;
use crate::nodes::Nodes;
use go_base::{NoMemory, Pos, Rule};
use std::alloc::Global;
use std::marker::Model;

/// The phase of declarations.
const PHASE: u8 = 2;

/// A rule that is violated at a node.
#[derive(Clone, Copy)]
pub struct Violation {
    pub node: usize,
    pub package: u32,
    pub at: Pos,
    pub rule: Rule,
    /// Whether it is that a declaration stands on itself.
    pub on_cycle: bool,
}

/// In what order violations are named.
#[derive(Clone, Copy, PartialEq, Eq, PartialOrd, Ord)]
struct Rank {
    package: u32,
    at: Pos,
    row: u32,
}

/// The rules that are violated.
#[derive(Drop)]
pub struct Violations {
    items: Vec<Violation>,
}

impl Model for Violations {
    ghost use Rattle.std.specs.Prelude.{List};
    ghost use Rattle.decl_nodes.specs.declared.violations.Violation.{Violation};

    ghost Value = { List Violation };

    ghost view = { λ v. v.items.items };
}

impl Violations {
    /// None.
    pub fn new(alloc: Global) -> Violations
        ensures { result ≡ [] }
    {
        Violations {
            items: Vec::new(alloc),
        }
    }

    /// A rule is violated at a node, and stands at the node's place.
    pub fn push(&mut self, nodes: &Nodes, node: usize, rule: Rule) -> Result<(), NoMemory>
        ensures { OnOk result (self.new ≡ self.old ++ violated_at (slice_get nodes.now.list node) node rule false) }
    {
        if let Some(item) = nodes.get(node) {
            self.add(item.package, item.at, node, rule, false)?;
        }
        Ok(())
    }

    /// A rule is violated at a node, and stands at another place.
    pub fn push_at(
        &mut self,
        nodes: &Nodes,
        node: usize,
        at: Pos,
        rule: Rule,
    ) -> Result<(), NoMemory>
        ensures { OnOk result (self.new ≡ self.old ++ violated_from (slice_get nodes.now.list node) node at rule) }
    {
        if let Some(item) = nodes.get(node) {
            self.add(item.package, at, node, rule, false)?;
        }
        Ok(())
    }

    /// A declaration stands on itself.
    pub fn push_cycle(&mut self, nodes: &Nodes, node: usize, rule: Rule) -> Result<(), NoMemory>
        ensures { OnOk result (self.new ≡ self.old ++ violated_at (slice_get nodes.now.list node) node rule true) }
    {
        if let Some(item) = nodes.get(node) {
            self.add(item.package, item.at, node, rule, true)?;
        }
        Ok(())
    }

    fn add(
        &mut self,
        package: u32,
        at: Pos,
        node: usize,
        rule: Rule,
        on_cycle: bool,
    ) -> Result<(), NoMemory>
        ensures { OnOk result (self.new ≡ self.old ++ record { node = node; «package» = «package»; at = at; rule = rule; on_cycle = on_cycle } ∷ []) }
    {
        self.items.push(Violation {
            node,
            package,
            at,
            rule,
            on_cycle,
        })?;
        Ok(())
    }

    /// Whether there are none.
    pub fn is_empty(&self) -> bool
        ensures { result ≡ (length self.now == 0) }
    {
        self.items.is_empty()
    }

    /// The first that no other silences, in the order of packages, files, offsets and rows. None where there are none.
    pub fn first(self, alloc: Global, nodes: &Nodes) -> Result<Option<Violation>, NoMemory>
        ensures { IfOk result (λ o. MatchOption o (self ≡ []) (IsFirstBroken (next nodes.now.edges) self)) }
    {
        let mut items = self.items;
        items.sort_by_key(|item| Rank {
            package: item.package,
            at: item.at,
            row: item.rule.row(),
        })?;
        let faults = faults_of(alloc, items.as_slice())?;
        let Some(index) = first_heard(alloc, nodes.edges(), faults.as_slice())? else {
            return Ok(None);
        };
        Ok(violation_at(items.as_slice(), index))
    }
}

/// The violation at an index.
fn violation_at(items: &[Violation], index: usize) -> Option<Violation>
    ensures { result ≡ slice_get items.now index }
{
    items.get(index).copied()
}

/// What silences others, and is silenced.
fn faults_of(alloc: Global, items: &[Violation]) -> Result<Vec<go_graph::Fault>, NoMemory>
    ensures { IfOk result (λ v. v.items ≡ map fault_of items.now) }
{
    let mut faults = Vec::new(alloc);
    for item in items {
        faults.push(go_graph::Fault {
            node: item.node,
            on_cycle: item.on_cycle,
        })?;
    }
    Ok(faults)
}
