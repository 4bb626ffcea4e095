//! The first fault that no other silences.
//!
//! A fault silences those of nodes that stand on its own. Where two nodes stand on each other, it silences the other's
//! fault only where it alone is that its node stands on itself.

ghost use Rattle.std.specs.Prelude.{◌≡◌, ◌↔◌, ◌<◌, ℕ, [], IsTrue, true, false, replicate, ◌+◌, vec_len, map, length, All, IfOk, OnOk, MatchOption, slice_index, slice_set};
ghost use Rattle.go_graph.specs.Graph.{IsGraph, AreComponents, StandsOn, next};
ghost use Rattle.go_graph.specs.Marks.{AreMarks, marked, leaves};
ghost use Rattle.go_graph.specs.Silence.{are_at_nodes, AreAllSilenced, AreAtNodes, IsFirst, IsFirstByMarks, IsHeard, is_silenced, placed, below_one, IsBelowMarks, cycles_in, with_cycle};

use crate::components::Components;
use crate::fault::Fault;
use crate::reach::{reaching, unmarked};
use std::alloc::{AllocError, Global};

/// The index of the first fault that no other silences. None exactly where there are no faults.
pub fn first_unsilenced(
    alloc: Global,
    graph: &[Vec<usize>],
    components: &Components,
    cyclic: &[bool],
    faults: &[Fault],
) -> Result<Option<usize>, AllocError>
    requires graph { IsGraph (map (λ r. r.items) graph.now) }
    requires components { AreComponents (map (λ r. r.items) graph.now) components.now.of.items components.now.order.items }
    requires cyclic { AreMarks (length graph.now) (λ x. StandsOn (next (map (λ r. r.items) graph.now)) x x) cyclic.now }
    requires faults { AreAtNodes (length graph.now) faults.now }
    ensures first { IfOk result (λ o. MatchOption o (faults.now ≡ []) (IsFirst (next (map (λ r. r.items) graph.now)) faults.now)) }
    ensures heard { OnOk result (IsHeard (next (map (λ r. r.items) graph.now)) faults.now) }
{
    let places = places_of(alloc, graph.len(), faults)?;
    let faulty = reaching(alloc, graph, components, &places)?;
    let below = below_of(alloc, graph, components, &faulty)?;
    let cycles = cycles_of(alloc, components, faults)?;
    Ok(first_by_marks(&components.of, &below, cyclic, &cycles, faults))
}

/// Whether each fault is at a node of a graph of so many, as `first_unsilenced` requires.
pub fn are_at_nodes(faults: &[Fault], count: usize) -> bool
    ensures { IsTrue result ↔ AreAtNodes count faults.now }
{
    have_nodes(faults, count)
}

fn have_nodes(faults: &[Fault], count: usize) -> bool
    ensures { result ≡ are_at_nodes count faults.now }
{
    'faults: for fault in faults {
        if fault.node >= count {
            return false;
        }
    }
    true
}

/// The first of the faults that are not silenced, by marks.
fn first_by_marks(
    of: &[usize],
    below: &[bool],
    cyclic: &[bool],
    cycles: &[bool],
    faults: &[Fault],
) -> Option<usize>
    requires faults { All (λ f. f.node < length of.now) faults.now }
    requires below { (x : ℕ) → x < length of.now → slice_index of.now x < length below.now }
    requires cyclic { length cyclic.now ≡ length of.now }
    requires cycles { length cycles.now ≡ length below.now }
    ensures { MatchOption result (AreAllSilenced of.now below.now cyclic.now cycles.now faults.now) (IsFirstByMarks of.now below.now cyclic.now cycles.now faults.now) }
{
    'faults: for (index, fault) in faults.iter().enumerate() {
        if !is_silenced(of, below, cyclic, cycles, *fault) {
            return Some(index);
        }
    }
    None
}

/// Whether a fault is silenced, by marks.
fn is_silenced(of: &[usize], below: &[bool], cyclic: &[bool], cycles: &[bool], fault: Fault) -> bool
    requires fault { fault.node < length of.now }
    requires below { slice_index of.now fault.node < length below.now }
    requires cyclic { length cyclic.now ≡ length of.now }
    requires cycles { length cycles.now ≡ length below.now }
    ensures { result ≡ is_silenced of.now below.now cyclic.now cycles.now fault }
{
    let component = of[fault.node];
    below[component] || (cyclic[fault.node] && cycles[component] && !fault.on_cycle)
}

/// The nodes with a fault.
fn places_of(alloc: Global, count: usize, faults: &[Fault]) -> Result<Vec<bool>, AllocError>
    requires { All (λ f. f.node < count) faults.now }
    ensures { IfOk result (λ v. v.items ≡ placed faults.now (replicate count false)) }
{
    let mut marks = unmarked(alloc, count)?;
    for fault in faults {
        mark(&mut marks, fault.node);
    }
    Ok(marks)
}

fn mark(marks: &mut Vec<bool>, place: usize)
    requires { place < vec_len marks.old }
    ensures { marks.new.items ≡ slice_set marks.old.items place true }
{
    marks[place] = true;
}

/// The components that stand on a component with a flag, other than themselves.
fn below_of(
    alloc: Global,
    graph: &[Vec<usize>],
    components: &Components,
    flags: &[bool],
) -> Result<Vec<bool>, AllocError>
    requires graph { IsGraph (map (λ r. r.items) graph.now) }
    requires components { AreComponents (map (λ r. r.items) graph.now) components.now.of.items components.now.order.items }
    requires flags { length flags.now ≡ length components.now.order.items }
    ensures { IfOk result (λ v. IsBelowMarks (map (λ r. r.items) graph.now) components.now.of.items (length components.now.order.items) flags.now (length graph.now) v.items) }
{
    let mut marks = unmarked(alloc, components.order.len())?;
    for node in 0..graph.len() {
        mark_below(&mut marks, graph, &components.of, flags, node);
    }
    Ok(marks)
}

/// Marks the component of a node that stands on another component, with a flag.
fn mark_below(
    marks: &mut Vec<bool>,
    graph: &[Vec<usize>],
    of: &[usize],
    flags: &[bool],
    node: usize,
)
    requires node { node < length graph.now }
    requires of { length of.now ≡ length graph.now }
    requires targets { All (λ y. y < length of.now) (next (map (λ r. r.items) graph.now) node) }
    requires flags { (x : ℕ) → x < length of.now → slice_index of.now x < length flags.now }
    requires marks { slice_index of.now node < vec_len marks.old }
    ensures { marks.new.items ≡ below_one (map (λ r. r.items) graph.now) of.now flags.now node marks.old.items }
{
    if leaves(&graph[node], of, flags, of[node]) {
        marks[of[node]] = true;
    }
}

/// Whether one of the nodes is in another component, with a flag.
fn leaves(nodes: &[usize], of: &[usize], flags: &[bool], component: usize) -> bool
    requires nodes { All (λ y. y < length of.now) nodes.now }
    requires flags { (x : ℕ) → x < length of.now → slice_index of.now x < length flags.now }
    ensures { result ≡ leaves of.now flags.now component nodes.now }
{
    for node in nodes {
        if of[*node] != component && flags[of[*node]] {
            return true;
        }
    }
    false
}

/// The components with a fault on a cycle.
fn cycles_of(
    alloc: Global,
    components: &Components,
    faults: &[Fault],
) -> Result<Vec<bool>, AllocError>
    requires faults { All (λ f. f.node < length components.now.of.items) faults.now }
    requires components { (x : ℕ) → x < length components.now.of.items → slice_index components.now.of.items x < length components.now.order.items }
    ensures { IfOk result (λ v. v.items ≡ cycles_in components.now.of.items faults.now (replicate (length components.now.order.items) false)) }
{
    let mut marks = unmarked(alloc, components.order.len())?;
    for fault in faults {
        mark_cycle(&mut marks, &components.of, *fault);
    }
    Ok(marks)
}

fn mark_cycle(marks: &mut Vec<bool>, of: &[usize], fault: Fault)
    requires fault { fault.node < length of.now }
    requires marks { slice_index of.now fault.node < vec_len marks.old }
    ensures { marks.new.items ≡ with_cycle of.now fault marks.old.items }
{
    if fault.on_cycle {
        marks[of[fault.node]] = true;
    }
}
