//! A walk in depth, along edges.

use crate::edges::Edge;
use go_base::NoMemory;
use std::alloc::Global;
use std::collections::HashMap;

/// A node on the way, with the place of the edge that is followed next.
#[derive(Clone, Copy)]
struct Step {
    node: u32,
    next: usize,
}

/// A walk over a graph in depth.
#[derive(Drop)]
pub struct Walk<'a> {
    /// The edges, by their starts.
    edges: &'a [Edge],
    /// The nodes that were met, each with the turn in which it was.
    pub turns: HashMap<u32, usize>,
    /// The way to the present node.
    way: Vec<Step>,
    /// The nodes whose edges were followed, in order.
    pub done: Vec<u32>,
}

impl<'a> Walk<'a> {
    /// A walk that has met no node.
    pub fn new(alloc: Global, edges: &'a [Edge]) -> Walk<'a> {
        Walk {
            edges,
            turns: HashMap::new(alloc),
            way: Vec::new(alloc),
            done: Vec::new(alloc),
        }
    }

    /// Meets a node, and all that the edges lead to, in one turn. Each step follows an edge, or is the last at a node: at
    /// most one node more than there are edges.
    pub fn meet_all(&mut self, root: u32, turn: usize) -> Result<(), NoMemory> {
        self.meet(root, turn)?;
        for _ in 0..self.edges.len().saturating_mul(2).saturating_add(1) {
            let Some(step) = self.way.pop() else {
                return Ok(());
            };
            self.go_on(step, turn)?;
        }
        Ok(())
    }

    /// Goes to a node, unless it was met before.
    fn meet(&mut self, node: u32, turn: usize) -> Result<(), NoMemory> {
        if !self.turns.contains_key(&node) {
            self.turns.insert(node, turn)?;
            let next = self.edges.partition_point(|edge| edge.from < node);
            self.way.push(Step { node, next })?;
        }
        Ok(())
    }

    /// Follows an edge from a node, or ends with it.
    fn go_on(&mut self, step: Step, turn: usize) -> Result<(), NoMemory> {
        let Step { node, next } = step;
        if let Some(edge) = self.edges.get(next) {
            if edge.from == node {
                let next = next + 1;
                self.way.push(Step { node, next })?;
                return self.meet(edge.to, turn);
            }
        }
        self.done.push(node)?;
        Ok(())
    }
}
