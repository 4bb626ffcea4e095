//! Which values are in the nodes that calls choose of.

ghost use Rattle.std.specs.Prelude.{◌≡◌, ◌==◌, ◌++◌, ◌↔◌, ℕ, IfOk, OnOk, flat_map, true};
ghost use Rattle.cg_numbers.specs.Numbered.{Extends};
ghost use Rattle.cg_sets.specs.Rules.{AreSeeds};
ghost use Rattle.cg_solve.specs.LeastSets.{IsClear, IsIndex, marked, search_of};
ghost use Rattle.cg_solve.specs.Lists.{Has, when};
ghost use Rattle.cg_solve.specs.Tables.{row};
ghost use Rattle.cg_vta.specs.Facts as fact;
ghost use Rattle.cg_vta.specs.Facts.{AreFacts, AreReached, AreStarts, Follows, IsChosen, IsFollowed};
ghost use Rattle.cg_vta.specs.Passing.{AreStreams};
ghost use Rattle.go_tree.specs.declared.program.Program.{Program};

use cg_nodes::{Node, Value};
use cg_numbers::{Call, Numbers, Seed, Site, Sites};
use cg_sets::{Answers, Candidate, Goal};
use cg_solve::{Rule, Search, Table, index, is_marked, solve};
use go_base::{NoMemory, TypeId};
use std::alloc::Global;

/// The numbers of what is there in each program: the faults of a run, where they are recovered, and the node in which
/// nothing is.
#[derive(Clone, Copy)]
pub struct Starts {
    pub fault: usize,
    pub recover: usize,
    pub nothing: usize,
}

/// The numbers of what is there in each program.
pub fn starts_of(numbers: &mut Numbers, fault: TypeId) -> Result<Starts, NoMemory>
    ensures at { IfOk result (λ starts. AreStarts numbers.new fault starts) }
    ensures extends { OnOk result (Extends numbers.old numbers.new) }
    ensures groups { OnOk result (numbers.new.groups ≡ numbers.old.groups) }
{
    let fault = numbers.value(Value::Class(fault))?;
    let recover = numbers.node(Node::Recover)?;
    let nothing = numbers.node(Node::Nothing)?;
    Ok(Starts {
        fault,
        recover,
        nothing,
    })
}

/// The values in each node that a call or a candidate chooses of.
pub fn facts_of(
    alloc: Global,
    met: &Sites,
    all: &Answers,
    rules: &[Rule],
    starts: Starts,
) -> Result<Table<usize>, NoMemory>
    ensures { (p : Program) → AreSeeds p met.now.numbers met.now.seeds.items → AreStarts met.now.numbers p.error_string starts → AreStreams p met.now.numbers rules.now → IfOk result (λ facts. AreFacts p met.now.numbers met.now.sites.items (row all.now.rows) starts.nothing (row facts)) }
{
    met.numbers.laws();
    let seeds = seeds_of(alloc, met.seeds.as_slice(), starts)?;
    let chosen = chosen_nodes(alloc, met.sites.as_slice(), all, starts.nothing)?;
    let nodes = marks_of(alloc, chosen.as_slice())?;
    let followed = candidate_values(alloc, all)?;
    let values = marks_of(alloc, followed.as_slice())?;
    follow_values(alloc, rules, &seeds, nodes.as_slice(), values.as_slice())
}

/// Where each value is made. The faults of a run may be recovered.
fn seeds_of(alloc: Global, seeds: &[Seed], starts: Starts) -> Result<Table<usize>, NoMemory>
    ensures { IfOk result (λ table. (k : ℕ) → row table k ≡ fact.seeds_at seeds.now starts k) }
{
    let mut table = Table::new(alloc);
    for seed in seeds {
        table.put(alloc, seed.value, seed.node)?;
    }
    table.put(alloc, starts.fault, starts.recover)?;
    Ok(table)
}

/// Whether a number is among others.
fn marks_of(alloc: Global, numbers: &[usize]) -> Result<Vec<bool>, NoMemory>
    ensures { IfOk result (λ marks. (k : ℕ) → (marked marks.items k ≡ true) ↔ Has numbers.now k) }
{
    let rules = Vec::new(alloc);
    let table = index(alloc, rules.as_slice())?;
    solve(alloc, rules.as_slice(), &table, numbers)
}

/// The nodes that calls and candidates choose of.
fn chosen_nodes(
    alloc: Global,
    sites: &[Site],
    all: &Answers,
    nothing: usize,
) -> Result<Vec<usize>, NoMemory>
    ensures { IfOk result (λ nodes. (k : ℕ) → IsChosen sites.now (row all.now.rows) nothing k → Has nodes.items k) }
{
    let mut nodes = Vec::new(alloc);
    nodes.push(nothing)?;
    put_sites(&mut nodes, sites)?;
    put_operands(&mut nodes, all)?;
    Ok(nodes)
}

fn put_sites(nodes: &mut Vec<usize>, sites: &[Site]) -> Result<(), NoMemory>
    ensures { OnOk result (nodes.new.items ≡ nodes.old.items ++ flat_map fact.site_nodes sites.now) }
{
    for site in sites {
        put_site(nodes, site.call)?;
    }
    Ok(())
}

fn put_site(nodes: &mut Vec<usize>, call: Call) -> Result<(), NoMemory>
    ensures { OnOk result (nodes.new.items ≡ nodes.old.items ++ fact.call_nodes call) }
{
    if let Call::Chosen { of, first, .. } = call {
        nodes.push(of)?;
        nodes.push(first)?;
    }
    Ok(())
}

fn put_operands(nodes: &mut Vec<usize>, all: &Answers) -> Result<(), NoMemory>
    ensures kept { OnOk result ((k : ℕ) → Has nodes.old.items k → Has nodes.new.items k) }
    ensures whole { OnOk result ((g : ℕ) (c : Candidate) (k : ℕ) → Has (row all.now.rows g) c → Has (fact.goal_nodes c.goal) k → Has nodes.new.items k) }
{
    for group in 0..all.rows.len() {
        put_row(nodes, all.rows.row(group))?;
    }
    Ok(())
}

fn put_row(nodes: &mut Vec<usize>, candidates: &[Candidate]) -> Result<(), NoMemory>
    ensures { OnOk result (nodes.new.items ≡ nodes.old.items ++ flat_map fact.operands candidates.now) }
{
    for candidate in candidates {
        put_operand(nodes, candidate.goal)?;
    }
    Ok(())
}

fn put_operand(nodes: &mut Vec<usize>, goal: Goal) -> Result<(), NoMemory>
    ensures { OnOk result (nodes.new.items ≡ nodes.old.items ++ fact.goal_nodes goal) }
{
    if let Goal::Group { of, .. } = goal {
        nodes.push(of)?;
    }
    Ok(())
}

/// The values of candidates.
fn candidate_values(alloc: Global, all: &Answers) -> Result<Vec<usize>, NoMemory>
    ensures { IfOk result (λ values. (w : ℕ) → IsFollowed (row all.now.rows) w → Has values.items w) }
{
    let mut values = Vec::new(alloc);
    for group in 0..all.rows.len() {
        put_values(&mut values, all.rows.row(group))?;
    }
    Ok(values)
}

fn put_values(values: &mut Vec<usize>, candidates: &[Candidate]) -> Result<(), NoMemory>
    ensures { OnOk result (values.new.items ≡ values.old.items ++ flat_map fact.value_in candidates.now) }
{
    for candidate in candidates {
        values.push(candidate.value)?;
    }
    Ok(())
}

/// Follows each value that is marked.
fn follow_values(
    alloc: Global,
    rules: &[Rule],
    seeds: &Table<usize>,
    nodes: &[bool],
    values: &[bool],
) -> Result<Table<usize>, NoMemory>
    ensures { IfOk result (λ facts. AreReached rules.now (row seeds.now) nodes.now values.now (row facts)) }
{
    let table = index(alloc, rules)?;
    let mut search = Search::new(alloc, rules)?;
    let mut facts = Table::new(alloc);
    for value in 0..seeds.len() {
        let row = seeds.row(value);
        follow_value(
            alloc,
            &mut facts,
            &mut search,
            rules,
            &table,
            nodes,
            values,
            value,
            row,
        )?;
    }
    Ok(facts)
}

/// Follows a value from where it is made, if it is marked.
fn follow_value(
    alloc: Global,
    facts: &mut Table<usize>,
    search: &mut Search,
    rules: &[Rule],
    table: &Table<Rule>,
    nodes: &[bool],
    values: &[bool],
    value: usize,
    seeds: &[usize],
) -> Result<(), NoMemory>
    requires index { IsIndex rules.now table.now }
    requires clear { IsClear rules.now (search_of search.old) }
    ensures clear { OnOk result (IsClear rules.now (search_of search.new)) }
    ensures follows { OnOk result (Follows rules.now seeds.now nodes.now (marked values.now value) value (row facts.old) (row facts.new)) }
{
    if !is_marked(values, value) {
        return Ok(());
    }
    search.solve(rules, table, seeds)?;
    put_facts(alloc, facts, nodes, value, search.found())?;
    search.clear(rules);
    Ok(())
}

fn put_facts(
    alloc: Global,
    facts: &mut Table<usize>,
    nodes: &[bool],
    value: usize,
    found: &[usize],
) -> Result<(), NoMemory>
    ensures { OnOk result ((k : ℕ) → row facts.new k ≡ row facts.old k ++ flat_map (fact.fact_at nodes.now value k) found.now) }
{
    for node in found {
        put_fact(alloc, facts, nodes, value, *node)?;
    }
    Ok(())
}

fn put_fact(
    alloc: Global,
    facts: &mut Table<usize>,
    nodes: &[bool],
    value: usize,
    node: usize,
) -> Result<(), NoMemory>
    ensures { OnOk result ((k : ℕ) → row facts.new k ≡ row facts.old k ++ fact.fact_at nodes.now value k node) }
{
    if is_marked(nodes, node) {
        facts.put(alloc, node, value)?;
    }
    Ok(())
}
