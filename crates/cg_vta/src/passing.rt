//! How values flow: within bodies, and through calls by their candidates.

ghost use Rattle.std.specs.Prelude.{◌≡◌, ◌++◌, IfOk, OnOk, map, slice_get};
ghost use Rattle.cg_nodes.specs.declared.nodes.Node.{Node};
ghost use Rattle.cg_numbers.specs.Numbered.{Extends, IsAt};
ghost use Rattle.cg_sets.specs.Answering.{AreAnswers};
ghost use Rattle.cg_solve.specs.Tables.{row};
ghost use Rattle.cg_vta.specs.Choosing.{AreCalled};
ghost use Rattle.cg_vta.specs.Passing as passing;
ghost use Rattle.cg_vta.specs.Passing.{AreFlows, AreStreams, OfNode, Puts, PutsStations, PutsWay, PutsWays};
ghost use Rattle.go_tree.specs.declared.program.Program.{Program};

use crate::ways::{Way, receivers, ways_at};
use cg_nodes::Node;
use cg_numbers::{Flow, Numbers};
use cg_sets::Answers;
use cg_solve::Rule;
use go_base::NoMemory;
use std::alloc::Global;

/// All flows: those of bodies, and those through the candidates of the groups that are chosen from.
pub fn flows_of(
    alloc: Global,
    numbers: &mut Numbers,
    flows: &[Flow],
    all: &Answers,
    called: &[bool],
) -> Result<Vec<Rule>, NoMemory>
    ensures flows { (p : Program) → AreFlows p numbers.old flows.now → AreAnswers p numbers.old (row all.now.rows) → AreCalled p numbers.old called.now → IfOk result (λ rules. AreStreams p numbers.new rules.items) }
    ensures extends { OnOk result (Extends numbers.old numbers.new) }
    ensures same { OnOk result (numbers.new ≡ record numbers.old { nodes = numbers.new.nodes }) }
{
    let mut rules = body_rules(alloc, flows)?;
    let given = receivers(alloc, numbers.nodes.as_slice(), all, called)?;
    put_ways(&mut rules, numbers, given.as_slice())?;
    put_stations(alloc, &mut rules, numbers, all, called)?;
    Ok(rules)
}

/// The flows of bodies.
fn body_rules(alloc: Global, flows: &[Flow]) -> Result<Vec<Rule>, NoMemory>
    ensures { IfOk result (λ rules. rules.items ≡ map passing.flow_rule flows.now) }
{
    let mut rules = Vec::new(alloc);
    for flow in flows {
        rules.push(Rule {
            left: flow.from,
            right: flow.from,
            then: flow.to,
        })?;
    }
    Ok(rules)
}

/// The flows at every node, those that are met on the way too.
fn put_stations(
    alloc: Global,
    rules: &mut Vec<Rule>,
    numbers: &mut Numbers,
    all: &Answers,
    called: &[bool],
) -> Result<(), NoMemory>
    ensures puts { OnOk result (PutsStations numbers.new (row all.now.rows) called.now rules.old.items rules.new.items) }
    ensures extends { OnOk result (Extends numbers.old numbers.new) }
    ensures same { OnOk result (numbers.new ≡ record numbers.old { nodes = numbers.new.nodes }) }
{
    let mut number = 0;
    'stations: while number < numbers.node_count() {
        put_station(alloc, rules, numbers, all, called, number)?;
        number += 1;
    }
    Ok(())
}

fn put_station(
    alloc: Global,
    rules: &mut Vec<Rule>,
    numbers: &mut Numbers,
    all: &Answers,
    called: &[bool],
    number: usize,
) -> Result<(), NoMemory>
    ensures puts { OnOk result ((node : Node) → IsAt numbers.old.nodes.keys number node → Puts numbers.new (OfNode numbers.new (row all.now.rows) called.now node) rules.old.items rules.new.items) }
    ensures extends { OnOk result (Extends numbers.old numbers.new) }
    ensures same { OnOk result (numbers.new ≡ record numbers.old { nodes = numbers.new.nodes }) }
{
    let Some(node) = node_at(numbers, number) else {
        return Ok(());
    };
    let ways = ways_at(alloc, numbers, all, called, node)?;
    put_ways(rules, numbers, ways.as_slice())?;
    Ok(())
}

fn node_at(numbers: &Numbers, number: usize) -> Option<Node>
    ensures { result ≡ slice_get numbers.now.nodes.keys number }
{
    numbers.nodes.get_index(number).copied()
}

fn put_ways(rules: &mut Vec<Rule>, numbers: &mut Numbers, ways: &[Way]) -> Result<(), NoMemory>
    ensures puts { OnOk result (PutsWays numbers.new ways.now rules.old.items rules.new.items) }
    ensures extends { OnOk result (Extends numbers.old numbers.new) }
    ensures same { OnOk result (numbers.new ≡ record numbers.old { nodes = numbers.new.nodes }) }
{
    for way in ways {
        put_way(rules, numbers, *way)?;
    }
    Ok(())
}

fn put_way(rules: &mut Vec<Rule>, numbers: &mut Numbers, way: Way) -> Result<(), NoMemory>
    ensures puts { OnOk result (PutsWay numbers.new way rules.old.items rules.new.items) }
    ensures extends { OnOk result (Extends numbers.old numbers.new) }
    ensures same { OnOk result (numbers.new ≡ record numbers.old { nodes = numbers.new.nodes }) }
{
    let from = numbers.bare_node(way.from)?;
    let to = numbers.bare_node(way.to)?;
    rules.push(Rule {
        left: from,
        right: from,
        then: to,
    })?;
    Ok(())
}
