//! Where values go through calls, by the candidates of the groups that are chosen from.

ghost use Rattle.std.specs.Prelude.{◌≡◌, ◌++◌, ℕ, IfOk, IfSome, None, OnOk, Some, flat_map, slice_get, true};
ghost use Rattle.cg_nodes.specs.declared.nodes.Group.{Group};
ghost use Rattle.cg_numbers.specs.Numbered.{IsAt};
ghost use Rattle.cg_solve.specs.LeastSets.{marked};
ghost use Rattle.cg_solve.specs.Tables.{row};
ghost use Rattle.cg_vta.specs.Passing as passing;
ghost use Rattle.cg_vta.specs.Passing.{AreWays, IsCalledAt};
ghost use Rattle.cg_vta.specs.Rows.{AreOf, called_row};

use crate::error::lost;
use cg_nodes::{Group, Node};
use cg_numbers::Numbers;
use cg_sets::{Answers, Candidate, Goal};
use cg_solve::is_marked;
use go_base::NoMemory;
use std::alloc::Global;

/// Values go from a node to another. Both are in the form that stands for all alike.
#[derive(Clone, Copy)]
pub struct Way {
    pub from: Node,
    pub to: Node,
}

/// The candidates of a group that is chosen from. None of another.
fn called_row<'a>(all: &'a Answers, called: &[bool], group: usize) -> &'a [Candidate]
    ensures { result.now ≡ called_row called.now (row all.now.rows) group }
{
    if is_marked(called, group) {
        all.rows.row(group)
    } else {
        &[]
    }
}

/// Where receivers of function types go.
pub fn receivers(
    alloc: Global,
    nodes: &[Node],
    all: &Answers,
    called: &[bool],
) -> Result<Vec<Way>, NoMemory>
    ensures { IfOk result (λ ways. AreOf (called_row called.now (row all.now.rows)) (passing.receiver_way nodes.now) ways.items) }
{
    let mut ways = Vec::new(alloc);
    for group in 0..all.rows.len() {
        put_receivers(&mut ways, nodes, called_row(all, called, group))?;
    }
    Ok(ways)
}

fn put_receivers(
    ways: &mut Vec<Way>,
    nodes: &[Node],
    candidates: &[Candidate],
) -> Result<(), NoMemory>
    ensures { OnOk result (ways.new.items ≡ ways.old.items ++ flat_map (passing.receiver_of nodes.now) candidates.now) }
{
    for candidate in candidates {
        put_receiver(ways, nodes, *candidate)?;
    }
    Ok(())
}

fn put_receiver(ways: &mut Vec<Way>, nodes: &[Node], candidate: Candidate) -> Result<(), NoMemory>
    ensures { OnOk result (ways.new.items ≡ ways.old.items ++ passing.receiver_of nodes.now candidate) }
{
    let from = node_at(nodes, candidate.receiver);
    put_from(ways, candidate.goal, from)?;
    Ok(())
}

fn node_at(nodes: &[Node], number: usize) -> Option<Node>
    ensures { result ≡ slice_get nodes.now number }
{
    nodes.get(number).copied()
}

fn put_from(ways: &mut Vec<Way>, goal: Goal, from: Option<Node>) -> Result<(), NoMemory>
    ensures { OnOk result (ways.new.items ≡ ways.old.items ++ passing.receiver_by goal from) }
{
    if let (Goal::Function(function), Some(from)) = (goal, from) {
        let to = Node::Parameter(function, 0);
        ways.push(Way { from, to })?;
    }
    Ok(())
}

/// Where the values of an argument's node go, and where those of an outcome's come from.
pub fn ways_at(
    alloc: Global,
    numbers: &Numbers,
    all: &Answers,
    called: &[bool],
    node: Node,
) -> Result<Vec<Way>, NoMemory>
    ensures { IfOk result (λ ways. AreWays numbers.now.groups.keys (row all.now.rows) called.now node ways.items) }
{
    numbers.laws();
    let Some(group) = called_at(numbers, called, node) else {
        return Ok(Vec::new(alloc));
    };
    let ways = ways_in(alloc, numbers.groups(), node, all.rows.row(group))?;
    Ok(ways)
}

/// The number of the group of a node, where the group is chosen from.
fn called_at(numbers: &Numbers, called: &[bool], node: Node) -> Option<usize>
    ensures some { IfSome result (IsCalledAt numbers.now.groups.keys called.now node) }
    ensures none { result ≡ None → (k : ℕ) → IsCalledAt numbers.now.groups.keys called.now node k → ⊥ }
{
    numbers.laws();
    let group = station(node)?;
    let number = group_number(numbers, group)?;
    if is_marked(called, number) {
        Some(number)
    } else {
        None
    }
}

/// The group whose calls give the values of a node, or get them.
fn station(node: Node) -> Option<Group>
    ensures { result ≡ passing.station node }
{
    match node {
        Node::Argument(group, _) | Node::Outcome(group, _) => Some(group),
        _ => None,
    }
}

fn group_number(numbers: &Numbers, group: Group) -> Option<usize>
    ensures some { IfSome result (λ k. IsAt numbers.now.groups.keys k group) }
    ensures none { result ≡ None → (k : ℕ) → IsAt numbers.now.groups.keys k group → ⊥ }
{
    numbers.groups.get_index_of(&group)
}

fn ways_in(
    alloc: Global,
    groups: &[Group],
    node: Node,
    candidates: &[Candidate],
) -> Result<Vec<Way>, NoMemory>
    ensures { IfOk result (λ ways. ways.items ≡ flat_map (passing.way_of groups.now node) candidates.now) }
{
    let mut ways = Vec::new(alloc);
    for candidate in candidates {
        put_way(&mut ways, groups, node, *candidate)?;
    }
    Ok(ways)
}

fn put_way(
    ways: &mut Vec<Way>,
    groups: &[Group],
    node: Node,
    candidate: Candidate,
) -> Result<(), NoMemory>
    ensures { OnOk result (ways.new.items ≡ ways.old.items ++ passing.way_of groups.now node candidate) }
{
    match node {
        Node::Argument(_, place) => put_argument(ways, groups, node, place, candidate),
        Node::Outcome(_, index) => {
            let from = given_by(groups, candidate.goal, index);
            ways.push(Way { from, to: node })?;
            Ok(())
        }
        _ => Ok(()),
    }
}

/// Adds where an argument goes, unless it is not handed on.
fn put_argument(
    ways: &mut Vec<Way>,
    groups: &[Group],
    from: Node,
    place: usize,
    candidate: Candidate,
) -> Result<(), NoMemory>
    ensures { OnOk result (ways.new.items ≡ ways.old.items ++ passing.argument_way groups.now from place candidate) }
{
    if place < candidate.skip {
        return Ok(());
    }
    let rest = place - candidate.skip;
    let index = rest.checked_add(candidate.base).ok_or(lost())?;
    let to = given_to(groups, candidate.goal, index);
    ways.push(Way { from, to })?;
    Ok(())
}

/// The node of what a goal is given.
fn given_to(groups: &[Group], goal: Goal, index: usize) -> Node
    ensures { result ≡ passing.given_to groups.now goal index }
{
    match goal {
        Goal::Function(function) => Node::Parameter(function, index),
        Goal::Group { group, .. } | Goal::First { group } => match groups.get(group).copied() {
            Some(group) => Node::Argument(group, index),
            None => Node::Nothing,
        },
    }
}

/// The node of what a goal gives.
fn given_by(groups: &[Group], goal: Goal, index: usize) -> Node
    ensures { result ≡ passing.given_by groups.now goal index }
{
    match goal {
        Goal::Function(function) => Node::Returned(function, index),
        Goal::Group { group, .. } | Goal::First { group } => match groups.get(group).copied() {
            Some(group) => Node::Outcome(group, index),
            None => Node::Nothing,
        },
    }
}
