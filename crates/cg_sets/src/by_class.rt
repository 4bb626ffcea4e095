//! The call graph by classes and signatures alone. golang.org/x/tools, package callgraph/cha.

ghost use Rattle.std.specs.Prelude.{◌≡◌, ◌++◌, ◌↔◌, List, IfOk, OnOk, map};
ghost use Rattle.std.specs.List.{Contains};
ghost use Rattle.std.specs.List.Sorted.{IsStrictlySortedBy};
ghost use Rattle.cg_sets.specs.Answering.{AreAnswers};
ghost use Rattle.cg_sets.specs.Candidates.{AreTypesOf};
ghost use Rattle.cg_sets.specs.Graphs.{IsChaEdge};
ghost use Rattle.cg_sets.specs.InOrder.{edge_cmp};
ghost use Rattle.cg_sets.specs.Rules.{AreRules, AreSites, IsAny, asked_by, goal_number, row_rule, question_of};
ghost use Rattle.cg_sets.specs.declared.edges.Edge.{Edge};
ghost use Rattle.cg_solve.specs.Tables.{row};
ghost use Rattle.go_base.specs.declared.ids.TypeId.{TypeId};
ghost use Rattle.go_tree.specs.declared.program.Program.{Program};
ghost use Rattle.go_type.specs.Table.{Table};

use crate::answers::{Answers, answers_of};
use crate::asking::{Asked, Question, edges_of, put_answer, target_number};
use crate::candidates::{Candidate, Goal};
use crate::edges::Edges;
use cg_numbers::{Call, Site, Sites, sites_of};
use cg_solve::Rule;
use go_base::NoMemory;
use go_tree::Program;
use std::alloc::Global;

/// The calls by classes and signatures alone: a call of an interface's method calls that of every class that implements the
/// interface, and a call of a function value every function of its signature, and what every method value and method
/// expression of its signature stands for.
pub fn cha(alloc: Global, program: &Program) -> Result<Edges, NoMemory>
    ensures exact { IfOk result (λ edges. (types : Table) × (bares : List TypeId) × AreTypesOf program.now types bares × ((e : Edge) → Contains edges e ↔ IsChaEdge program.now types bares e)) }
    ensures ascending { IfOk result (IsStrictlySortedBy edge_cmp) }
{
    let mut met = sites_of(alloc, program)?;
    let all = answers_of(alloc, program, &mut met.numbers)?;
    edges_by_class(alloc, &met, &all)
}

/// The edges of the calls that were met, where all candidates of their groups are given.
fn edges_by_class(alloc: Global, met: &Sites, all: &Answers) -> Result<Edges, NoMemory>
    ensures exact { (p : Program) → AreSites p met.now.numbers met.now.sites.items → AreAnswers p met.now.numbers (row all.now.rows) → IfOk result (λ edges. (e : Edge) → Contains edges e ↔ IsChaEdge p met.now.numbers.likeness.types met.now.numbers.likeness.bares e) }
    ensures ascending { IfOk result (IsStrictlySortedBy edge_cmp) }
{
    let rules = all_rules(alloc, all)?;
    let questions = all_questions(alloc, met.sites.as_slice())?;
    edges_of(alloc, questions.as_slice(), rules.as_slice())
}

/// What every group has.
fn all_rules(alloc: Global, all: &Answers) -> Result<Vec<Rule>, NoMemory>
    ensures { IfOk result (λ rules. AreRules (row all.now.rows) IsAny rules.items) }
{
    let mut rules = Vec::new(alloc);
    for group in 0..all.rows.len() {
        put_row(&mut rules, group, all.rows.row(group))?;
    }
    Ok(rules)
}

fn put_row(rules: &mut Vec<Rule>, group: usize, candidates: &[Candidate]) -> Result<(), NoMemory>
    ensures { OnOk result (rules.new.items ≡ rules.old.items ++ map (row_rule group) candidates.now) }
{
    for candidate in candidates {
        let target = target_of(candidate.goal)?;
        put_answer(rules, group, target)?;
    }
    Ok(())
}

/// The number of a goal, where the answers are the groups.
pub fn target_of(goal: Goal) -> Result<usize, NoMemory>
    ensures { IfOk result (λ n. n ≡ goal_number goal) }
{
    match goal {
        Goal::Function(_) => target_number(goal, 0),
        Goal::Group { group, .. } | Goal::First { group } => target_number(goal, group),
    }
}

fn all_questions(alloc: Global, sites: &[Site]) -> Result<Vec<Question>, NoMemory>
    ensures { IfOk result (λ questions. questions.items ≡ map question_of sites.now) }
{
    let mut questions = Vec::new(alloc);
    for site in sites {
        questions.push(question_of(*site))?;
    }
    Ok(questions)
}

/// What a call asks, where the answers are the groups.
pub fn question_of(site: Site) -> Question
    ensures { result ≡ question_of site }
{
    Question {
        caller: site.caller,
        at: site.at,
        asked: asked_by(site.call),
    }
}

fn asked_by(call: Call) -> Asked
    ensures { result ≡ asked_by call }
{
    match call {
        Call::Fixed(function) => Asked::Fixed(function),
        Call::Chosen { group, .. } => Asked::Answer(group),
    }
}
