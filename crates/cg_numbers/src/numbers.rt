//! Numbers for nodes, values and groups: those that are alike have one, and others different ones.

ghost use Rattle.std.specs.Prelude.{◌≡◌, IfOk, [], OnOk, length};
ghost use Rattle.cg_numbers.specs.Alike as alike;
ghost use Rattle.cg_numbers.specs.Numbered.{StandsFor, Extends, GrowsBy, IsAt, IsOnce};

use crate::likeness::Likeness;
use cg_nodes::{Group, Node, Value};
use go_base::NoMemory;
use go_type::Types;
use indexmap::IndexSet;
use std::alloc::Global;

/// The nodes, values and groups that were met, numbered from 0 in that order.
#[derive(Drop)]
pub struct Numbers {
    pub likeness: Likeness,
    pub nodes: IndexSet<Node>,
    pub values: IndexSet<Value>,
    pub groups: IndexSet<Group>,
}

impl Numbers {
    /// None were met.
    pub fn new(alloc: Global, types: &Types) -> Result<Numbers, NoMemory>
        ensures types { IfOk result (λ n. StandsFor types.now n.likeness.types n.likeness.bares) }
        ensures nodes { IfOk result (λ n. n.nodes.keys ≡ []) }
        ensures values { IfOk result (λ n. n.values.keys ≡ []) }
        ensures groups { IfOk result (λ n. n.groups.keys ≡ []) }
    {
        Ok(Numbers {
            likeness: Likeness::new(alloc, types)?,
            nodes: IndexSet::new(alloc),
            values: IndexSet::new(alloc),
            groups: IndexSet::new(alloc),
        })
    }

    /// Each is listed once, so that it has one number.
    pub fn laws(&self)
        ensures nodes { IsOnce self.now.nodes.keys }
        ensures values { IsOnce self.now.values.keys }
        ensures groups { IsOnce self.now.groups.keys }
    {
        let _nodes = self.nodes.len();
        let _values = self.values.len();
        let _groups = self.groups.len();
    }

    /// The number of a node.
    pub fn node(&mut self, node: Node) -> Result<usize, NoMemory>
        ensures ok { IfOk result (λ n. IsAt self.new.nodes.keys n (alike.like_node self.old.likeness.types self.old.likeness.bares node)) }
        ensures extends { OnOk result (Extends self.old self.new) }
        ensures same { self.new ≡ record self.old { nodes = self.new.nodes } }
    {
        let node = self.likeness.node(node);
        self.bare_node(node)
    }

    /// The number of a value.
    pub fn value(&mut self, value: Value) -> Result<usize, NoMemory>
        ensures ok { IfOk result (λ n. IsAt self.new.values.keys n (alike.like_value self.old.likeness.types self.old.likeness.bares value)) }
        ensures only { OnOk result (GrowsBy self.old.values.keys self.new.values.keys (alike.like_value self.old.likeness.types self.old.likeness.bares value)) }
        ensures extends { OnOk result (Extends self.old self.new) }
        ensures same { self.new ≡ record self.old { values = self.new.values } }
    {
        let value = self.likeness.value(value);
        self.bare_value(value)
    }

    /// The number of a group.
    pub fn group(&mut self, group: Group) -> Result<usize, NoMemory>
        ensures ok { IfOk result (λ n. IsAt self.new.groups.keys n (alike.like_group self.old.likeness.types self.old.likeness.bares group)) }
        ensures extends { OnOk result (Extends self.old self.new) }
        ensures same { self.new ≡ record self.old { groups = self.new.groups } }
    {
        let group = self.likeness.group(group);
        self.bare_group(group)
    }

    /// The number of a node that is in the form that stands for all alike.
    pub fn bare_node(&mut self, node: Node) -> Result<usize, NoMemory>
        ensures ok { IfOk result (λ n. IsAt self.new.nodes.keys n node) }
        ensures extends { OnOk result (Extends self.old self.new) }
        ensures same { self.new ≡ record self.old { nodes = self.new.nodes } }
    {
        let (number, _) = self.nodes.insert_full(node)?;
        Ok(number)
    }

    /// The number of a value that is in the form that stands for all alike.
    pub fn bare_value(&mut self, value: Value) -> Result<usize, NoMemory>
        ensures ok { IfOk result (λ n. IsAt self.new.values.keys n value) }
        ensures only { OnOk result (GrowsBy self.old.values.keys self.new.values.keys value) }
        ensures extends { OnOk result (Extends self.old self.new) }
        ensures same { self.new ≡ record self.old { values = self.new.values } }
    {
        let (number, _) = self.values.insert_full(value)?;
        Ok(number)
    }

    /// The number of a group that is in the form that stands for all alike.
    pub fn bare_group(&mut self, group: Group) -> Result<usize, NoMemory>
        ensures ok { IfOk result (λ n. IsAt self.new.groups.keys n group) }
        ensures extends { OnOk result (Extends self.old self.new) }
        ensures same { self.new ≡ record self.old { groups = self.new.groups } }
    {
        let (number, _) = self.groups.insert_full(group)?;
        Ok(number)
    }

    /// The values that were met.
    pub fn values(&self) -> &[Value]
        ensures { result.now ≡ self.now.values.keys }
    {
        self.values.as_slice()
    }

    /// The groups that were met.
    pub fn groups(&self) -> &[Group]
        ensures { result.now ≡ self.now.groups.keys }
    {
        self.groups.as_slice()
    }

    /// How many nodes were met.
    pub fn node_count(&self) -> usize
        ensures { result ≡ length self.now.nodes.keys }
    {
        self.nodes.len()
    }
}
