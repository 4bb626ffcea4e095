//! Which nodes stand on themselves, and from which one comes to a mark.

ghost use Rattle.std.specs.Prelude.{◌≡◌, ℕ, ◌≤◌, ◌<◌, [], map, length, IfOk, vec_len, slice_index, true, false, replicate, All};
ghost use Rattle.go_graph.specs.Graph.{IsGraph, AreComponents, StandsOn, next};
ghost use Rattle.go_graph.specs.Marks.{AreMarks, AreReaching, has_component, has_flag, flagged};

use crate::components::Components;
use std::alloc::{AllocError, Global};

/// Which nodes stand on themselves: a path of one edge or more leads back to them.
pub fn on_themselves(
    alloc: Global,
    graph: &[Vec<usize>],
    components: &Components,
) -> Result<Vec<bool>, AllocError>
    requires graph { IsGraph (map (λ r. r.items) graph.now) }
    requires components { AreComponents (map (λ r. r.items) graph.now) components.now.of.items components.now.order.items }
    ensures { IfOk result (λ v. AreMarks (length graph.now) (λ x. StandsOn (next (map (λ r. r.items) graph.now)) x x) v.items) }
{
    let mut marks = Vec::new(alloc);
    for node in 0..graph.len() {
        marks.push(has_component(&graph[node], &components.of, components.of[node]))?;
    }
    Ok(marks)
}

/// Whether one of the nodes is in a component.
fn has_component(nodes: &[usize], of: &[usize], component: usize) -> bool
    requires { All (λ y. y < length of.now) nodes.now }
    ensures { result ≡ has_component of.now component nodes.now }
{
    for node in nodes {
        if of[*node] == component {
            return true;
        }
    }
    false
}

/// Which components have a node from which a path, of no edge or more, leads to a marked one.
pub fn reaching(
    alloc: Global,
    graph: &[Vec<usize>],
    components: &Components,
    marks: &[bool],
) -> Result<Vec<bool>, AllocError>
    requires graph { IsGraph (map (λ r. r.items) graph.now) }
    requires components { AreComponents (map (λ r. r.items) graph.now) components.now.of.items components.now.order.items }
    requires marks { length marks.now ≡ length graph.now }
    ensures { IfOk result (λ v. AreReaching (map (λ r. r.items) graph.now) components.now.of.items components.now.order.items marks.now v.items) }
{
    let mut flags = unmarked(alloc, components.order.len())?;
    for node in &components.order {
        reach_one(&mut flags, graph, &components.of, marks, *node);
    }
    Ok(flags)
}

/// Marks the component of a node that is marked, or of which a target's component is.
fn reach_one(flags: &mut Vec<bool>, graph: &[Vec<usize>], of: &[usize], marks: &[bool], node: usize)
    requires node { node < length graph.now }
    requires of { length of.now ≡ length graph.now }
    requires marks { length marks.now ≡ length graph.now }
    requires targets { All (λ y. y < length of.now) (next (map (λ r. r.items) graph.now) node) }
    requires flags { (x : ℕ) → x < length of.now → slice_index of.now x < vec_len flags.old }
    ensures { flags.new.items ≡ flagged (map (λ r. r.items) graph.now) of.now marks.now node flags.old.items }
{
    if marks[node] || has_flag(&graph[node], of, flags) {
        flags[of[node]] = true;
    }
}

/// Whether one of the nodes is in a component with a flag.
fn has_flag(nodes: &[usize], of: &[usize], flags: &[bool]) -> bool
    requires nodes { All (λ y. y < length of.now) nodes.now }
    requires flags { (x : ℕ) → x < length of.now → slice_index of.now x < length flags.now }
    ensures { result ≡ has_flag of.now flags.now nodes.now }
{
    for node in nodes {
        if flags[of[*node]] {
            return true;
        }
    }
    false
}

/// Nothing is marked.
pub fn unmarked(alloc: Global, count: usize) -> Result<Vec<bool>, AllocError>
    ensures { IfOk result (λ v. v.items ≡ replicate count false) }
{
    vec![in alloc; false; count]
}
