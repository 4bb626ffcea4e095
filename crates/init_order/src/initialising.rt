//! What initialisers and functions name, and which variables stand on themselves. Go specification, "Package initialization".

ghost use Rattle.std.specs.Prelude.{◌≡◌, ◌+◌, ◌<◌, ◌^◌, None, [], take, drop, map, length, slice_index_or, vec_len, MatchOption, IfOk, OnOk, OnErr, IfSome};
ghost use Rattle.go_graph.specs.Graph.{IsGraph, StandsOn, next, AreComponents};
ghost use Rattle.go_graph.specs.Marks.{AreMarks};
ghost use Rattle.init_order.specs.Naming.{nothing_named, naming, place};
ghost use Rattle.init_order.specs.Groups.{below};
ghost use Rattle.init_order.specs.Order.{IsInitOrder, StandOnEachOther};
ghost use Rattle.init_order.specs.Taking.{AreParts, steps_of};

use crate::edges::{Edge, counts_of, group_edges, sources_of};
use crate::labels::{labels_of, steps_of};
use crate::node::Node;
use crate::rows::{push_number, push_rows};
use crate::taking::Taking;
use go_base::NoMemory;
use go_graph::{Components, components_of, on_themselves};
use std::alloc::Global;
use std::marker::Model;

/// Which variables and functions are named by which: a variable by the step that gives it its value, and that by the names
/// in it; a function by the names in its body.
#[derive(Drop)]
pub struct Reliance {
    alloc: Global,
    variables: usize,
    steps: usize,
    functions: usize,
    graph: Vec<Vec<usize>>,
}

impl Model for Reliance {
    ghost use Rattle.std.specs.Prelude.{◌≡◌, ◌+◌, map, length};
    ghost use Rattle.go_graph.specs.Graph.{IsGraph};
    ghost use Rattle.init_order.specs.Naming.{Naming};

    ghost Value = { Naming };

    ghost view = { λ r. record { variables = r.variables; steps = r.steps; functions = r.functions; rows = map (λ row. row.items) r.graph.items } };

    ghost invariant = { λ r. (length (map (λ row. row.items) r.graph.items) ≡ r.variables + r.steps + r.functions) × IsGraph (map (λ row. row.items) r.graph.items) };
}

impl Reliance {
    /// Nothing names anything.
    pub fn new(
        alloc: Global,
        variables: usize,
        steps: usize,
        functions: usize,
    ) -> Result<Reliance, NoMemory>
        ensures { IfOk result (λ r. r ≡ nothing_named variables steps functions) }
    {
        let mut graph = Vec::new(alloc);
        push_rows(alloc, &mut graph, variables)?;
        push_rows(alloc, &mut graph, steps)?;
        push_rows(alloc, &mut graph, functions)?;
        Ok(Reliance {
            alloc,
            variables,
            steps,
            functions,
            graph,
        })
    }

    /// One names the other, or is given its value by it. What is no variable, step or function counts for nothing. After
    /// `NoMemory` all is as before.
    pub fn add(&mut self, from: Node, to: Node) -> Result<(), NoMemory>
        ensures added { OnOk result (self.new ≡ naming from to self.old) }
        ensures err { OnErr result (self.new ≡ self.old) }
    {
        let Some(from) = self.place(from) else {
            return Ok(());
        };
        let Some(to) = self.place(to) else {
            return Ok(());
        };
        push_number(&mut self.graph, from, to)
    }

    /// The place of a node in the graph: variables come first, then steps, then functions.
    fn place(&self, node: Node) -> Option<usize>
        ensures place { result ≡ place self.now node }
        ensures within { IfSome result (λ p. p < length self.now.rows) }
    {
        match node {
            Node::Variable(number) if number < self.variables => Some(number),
            Node::Step(number) if number < self.steps => Some(self.variables + number),
            Node::Function(number) if number < self.functions => {
                Some(self.variables + self.steps + number)
            }
            _ => None,
        }
    }

    /// For each variable whether its initialisation stands on it.
    pub fn variables_on_cycles(&self) -> Result<Vec<bool>, NoMemory>
        ensures { IfOk result (λ v. AreMarks self.now.variables (λ x. StandsOn (next self.now.rows) x x) v.items) }
    {
        let graph = self.graph.as_slice();
        let components = components_of(self.alloc, graph)?;
        let mut marks = on_themselves(self.alloc, graph, &components)?;
        marks.truncate(self.variables);
        Ok(marks)
    }

    /// The steps in the order in which they are taken: each is the first of those not before it that stands only on
    /// variables of steps before it. None exactly where two steps stand on each other.
    pub fn order(&self) -> Result<Option<Vec<usize>>, NoMemory>
        ensures { IfOk result (λ o. MatchOption o (StandOnEachOther self.now) (λ v. IsInitOrder self.now v.items)) }
    {
        let graph = self.graph.as_slice();
        let components = components_of(self.alloc, graph)?;
        let groups = &components.of[self.variables..self.variables + self.steps];
        let Some(labels) = labels_of(self.alloc, components.order.len(), groups)? else {
            return Ok(None);
        };
        let edges = group_edges(self.alloc, graph, &components.of)?;
        let taken = self.take_all(&components, groups, &edges, &labels)?;
        let steps = steps_of(self.alloc, &labels, &taken)?;
        Ok(Some(steps))
    }

    /// Takes all groups, one after the other.
    fn take_all(
        &self,
        components: &Components,
        groups: &[usize],
        edges: &[Edge],
        labels: &[Option<usize>],
    ) -> Result<Vec<usize>, NoMemory>
        requires parts { AreParts self.now components.now.of.items components.now.order.items edges.now (λ g. slice_index_or labels.now g None) }
        requires groups { groups.now ≡ take self.now.steps (drop self.now.variables components.now.of.items) }
        requires labels { length labels.now ≡ vec_len components.now.order }
        requires few { length edges.now + 1 < 2 ^ 64 }
        ensures { IfOk result (λ v. IsInitOrder self.now (steps_of (λ g. slice_index_or labels.now g None) v.items)) }
    {
        let count = components.order.len();
        let waiting = counts_of(self.alloc, count, edges)?;
        let back = sources_of(self.alloc, count, edges)?;
        let all = numbers(self.alloc, count)?;
        let mut taking = Taking::new(self.alloc, waiting);
        taking.tell_all(labels, &all)?;
        while let Some(group) = taking.next(groups)? {
            taking.tell_all(labels, &back[group])?;
        }
        Ok(taking.taken)
    }
}

/// The numbers below a bound.
fn numbers(alloc: Global, count: usize) -> Result<Vec<usize>, NoMemory>
    ensures { IfOk result (λ v. v.items ≡ below count) }
{
    let mut numbers = Vec::new(alloc);
    for number in 0..count {
        numbers.push(number)?;
    }
    Ok(numbers)
}
