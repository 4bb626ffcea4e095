//! The groups that calls choose from, by classes and signatures alone.

ghost use Rattle.std.specs.Prelude.{◌≡◌, ◌++◌, IfOk, OnOk, flat_map};
ghost use Rattle.cg_numbers.specs.Numbered.{Extends};
ghost use Rattle.cg_sets.specs.Answering.{AreAnswers};
ghost use Rattle.cg_sets.specs.Rules.{AreSites};
ghost use Rattle.cg_solve.specs.Tables.{row};
ghost use Rattle.cg_vta.specs.Choosing as choosing;
ghost use Rattle.cg_vta.specs.Choosing.{AreBound, AreCalled, ListsBound, PutsBound, bound_at};
ghost use Rattle.cg_vta.specs.Rows.{AreOf};
ghost use Rattle.go_tree.specs.declared.program.Program.{Program};

use cg_nodes::{Group, Selector, Value};
use cg_numbers::{Call, Numbers, Site, Sites};
use cg_sets::{Answers, Candidate, Goal};
use cg_solve::{Rule, index, solve};
use go_base::NoMemory;
use std::alloc::Global;

/// The groups whose methods method values of interfaces stand for.
pub fn bound_groups(alloc: Global, numbers: &mut Numbers) -> Result<Vec<usize>, NoMemory>
    ensures bound { IfOk result (λ groups. ListsBound numbers.new groups.items) }
    ensures extends { OnOk result (Extends numbers.old numbers.new) }
    ensures values { OnOk result (numbers.new.values ≡ numbers.old.values) }
{
    let mut groups = Vec::new(alloc);
    for number in 0..numbers.values().len() {
        put_bound(&mut groups, numbers, number)?;
    }
    Ok(groups)
}

fn put_bound(groups: &mut Vec<usize>, numbers: &mut Numbers, number: usize) -> Result<(), NoMemory>
    ensures bound { OnOk result (PutsBound numbers.new (bound_at numbers.old.values.keys number) groups.old.items groups.new.items) }
    ensures extends { OnOk result (Extends numbers.old numbers.new) }
    ensures values { OnOk result (numbers.new.values ≡ numbers.old.values) }
{
    let Some(selector) = bound_at(numbers.values(), number) else {
        return Ok(());
    };
    let group = numbers.bare_group(Group::Selected(selector))?;
    groups.push(group)?;
    Ok(())
}

/// The method that the value of a number stands for, where it is a method value of an interface.
fn bound_at(values: &[Value], number: usize) -> Option<Selector>
    ensures { result ≡ bound_at values.now number }
{
    match values.get(number).copied() {
        Some(Value::BoundSelector { selector, .. }) => Some(selector),
        _ => None,
    }
}

/// Which groups are chosen from: by a call, by a method value of an interface, or by a call through a candidate.
pub fn called_groups(
    alloc: Global,
    met: &Sites,
    bound: Vec<usize>,
    all: &Answers,
) -> Result<Vec<bool>, NoMemory>
    ensures { (p : Program) → AreSites p met.now.numbers met.now.sites.items → AreBound p met.now.numbers bound.items → AreAnswers p met.now.numbers (row all.now.rows) → IfOk result (λ marks. AreCalled p met.now.numbers marks.items) }
{
    met.numbers.laws();
    let starts = with_sites(bound, met.sites.as_slice())?;
    let rules = group_rules(alloc, all)?;
    let table = index(alloc, rules.as_slice())?;
    solve(alloc, rules.as_slice(), &table, starts.as_slice())
}

/// The groups that calls choose from, behind others.
fn with_sites(bound: Vec<usize>, sites: &[Site]) -> Result<Vec<usize>, NoMemory>
    ensures { IfOk result (λ starts. starts.items ≡ bound.items ++ flat_map choosing.chosen_group sites.now) }
{
    let mut starts = bound;
    for site in sites {
        if let Call::Chosen { group, .. } = site.call {
            starts.push(group)?;
        }
    }
    Ok(starts)
}

/// Which groups candidates of groups choose from in turn.
fn group_rules(alloc: Global, all: &Answers) -> Result<Vec<Rule>, NoMemory>
    ensures { IfOk result (λ rules. AreOf (row all.now.rows) choosing.group_rule rules.items) }
{
    let mut rules = Vec::new(alloc);
    for group in 0..all.rows.len() {
        put_row(&mut rules, group, all.rows.row(group))?;
    }
    Ok(rules)
}

fn put_row(rules: &mut Vec<Rule>, from: usize, candidates: &[Candidate]) -> Result<(), NoMemory>
    ensures { OnOk result (rules.new.items ≡ rules.old.items ++ flat_map (choosing.group_rule from) candidates.now) }
{
    for candidate in candidates {
        put_goal(rules, from, candidate.goal)?;
    }
    Ok(())
}

fn put_goal(rules: &mut Vec<Rule>, from: usize, goal: Goal) -> Result<(), NoMemory>
    ensures { OnOk result (rules.new.items ≡ rules.old.items ++ choosing.goal_rule from goal) }
{
    match goal {
        Goal::Function(_) => Ok(()),
        Goal::Group { group, .. } | Goal::First { group } => {
            rules.push(Rule {
                left: from,
                right: from,
                then: group,
            })?;
            Ok(())
        }
    }
}
