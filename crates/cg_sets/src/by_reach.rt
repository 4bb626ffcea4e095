//! The call graph of what is reached. golang.org/x/tools, package callgraph/rta.

ghost use Rattle.std.specs.Prelude.{◌≡◌, ◌++◌, ◌∷◌, ◌*◌, ◌+◌, ◌↔◌, [], List, IfOk, OnOk, map};
ghost use Rattle.std.specs.List.{Contains, filter};
ghost use Rattle.std.specs.List.Sorted.{IsStrictlySortedBy};
ghost use Rattle.cg_nodes.specs.declared.nodes.Value.TheVariants as value_of;
ghost use Rattle.cg_numbers.specs.Numbered.{ValueAt};
ghost use Rattle.cg_sets.specs.Answering.{AreAnswers};
ghost use Rattle.cg_sets.specs.Candidates.{AreTypesOf};
ghost use Rattle.cg_sets.specs.Graphs.{IsRtaEdge};
ghost use Rattle.cg_sets.specs.InOrder.{edge_cmp};
ghost use Rattle.cg_sets.specs.Reaching as reaching;
ghost use Rattle.cg_sets.specs.Reaching.{AreRowRules, IsMade, IsReach, candidate_rule, fact_rule, seed_rule, site_rule};
ghost use Rattle.cg_sets.specs.declared.by_reach.FactNumber.TheVariants as fact;
ghost use Rattle.cg_sets.specs.Rules.{AreRules, AreSeeds, AreSites, question_of, row_rule};
ghost use Rattle.cg_sets.specs.declared.edges.Edge.{Edge};
ghost use Rattle.cg_solve.specs.Tables.{row};
ghost use Rattle.go_base.specs.declared.ids.TypeId.{TypeId};
ghost use Rattle.go_type.specs.Table.{Table};

use crate::answers::{Answers, answers_of};
use crate::asking::{Question, edges_of, put_answer};
use crate::by_class::{question_of, target_of};
use crate::candidates::{Candidate, Goal};
use crate::edges::Edges;
use crate::error::lost;
use cg_nodes::Value;
use cg_numbers::{Call, Seed, Site, Sites, sites_of};
use cg_solve::{Rule, index, is_marked, solve};
use go_base::{FuncId, NoMemory};
use go_tree::{FunctionForm, Program};
use std::alloc::Global;

/// What is known: that a function is reached, that a value is made in one that is, that a call in one that is asks for a
/// group.
#[derive(Clone, Copy)]
pub enum FactNumber {
    Reached(FuncId),
    Known(usize),
    Asked(usize),
}

/// The calls in functions that are reached from the initialisation of packages and from `main`, of values that are made in
/// functions that are reached.
pub fn rta(alloc: Global, program: &Program) -> Result<Edges, NoMemory>
    ensures exact { IfOk result (λ edges. (types : Table) × (bares : List TypeId) × AreTypesOf program.now types bares × ((e : Edge) → Contains edges e ↔ IsRtaEdge program.now types bares e)) }
    ensures ascending { IfOk result (IsStrictlySortedBy edge_cmp) }
{
    let mut met = sites_of(alloc, program)?;
    let all = answers_of(alloc, program, &mut met.numbers)?;
    let fault = met.numbers.value(Value::Class(program.error_string))?;
    edges_by_reach(alloc, program, &met, &all, fault)
}

/// The edges of the calls that were met, where all candidates of their groups are given.
fn edges_by_reach(
    alloc: Global,
    program: &Program,
    met: &Sites,
    all: &Answers,
    fault: usize,
) -> Result<Edges, NoMemory>
    ensures exact { AreSites program.now met.now.numbers met.now.sites.items → AreSeeds program.now met.now.numbers met.now.seeds.items → AreAnswers program.now met.now.numbers (row all.now.rows) → ValueAt met.now.numbers fault (value_of.Class program.now.error_string) → IfOk result (λ edges. (e : Edge) → Contains edges e ↔ IsRtaEdge program.now met.now.numbers.likeness.types met.now.numbers.likeness.bares e) }
    ensures ascending { IfOk result (IsStrictlySortedBy edge_cmp) }
{
    let marks = facts(alloc, program, met, all, fault)?;
    let rules = live_rules(alloc, all, marks.as_slice())?;
    let questions = live_questions(alloc, met.sites.as_slice(), marks.as_slice())?;
    edges_of(alloc, questions.as_slice(), rules.as_slice())
}

/// The number of a fact.
fn fact_number(fact: FactNumber) -> Result<usize, NoMemory>
    ensures { IfOk result (λ n. n ≡ reaching.fact_number fact) }
{
    match fact {
        FactNumber::Reached(function) => thrice(function.number as usize, 0),
        FactNumber::Known(value) => thrice(value, 1),
        FactNumber::Asked(group) => thrice(group, 2),
    }
}

fn thrice(number: usize, kind: usize) -> Result<usize, NoMemory>
    ensures { IfOk result (λ n. n ≡ number * 3 + kind) }
{
    let first = number.checked_mul(3).ok_or(lost())?;
    first.checked_add(kind).ok_or(lost())
}

/// Whether a fact holds.
fn holds(marks: &[bool], fact: FactNumber) -> Result<bool, NoMemory>
    ensures { IfOk result (λ b. b ≡ reaching.holds marks.now fact) }
{
    let number = fact_number(fact)?;
    Ok(is_marked(marks, number))
}

/// The facts that hold.
fn facts(
    alloc: Global,
    program: &Program,
    met: &Sites,
    all: &Answers,
    fault: usize,
) -> Result<Vec<bool>, NoMemory>
    ensures { AreSites program.now met.now.numbers met.now.sites.items → AreSeeds program.now met.now.numbers met.now.seeds.items → AreAnswers program.now met.now.numbers (row all.now.rows) → ValueAt met.now.numbers fault (value_of.Class program.now.error_string) → IfOk result (λ marks. IsReach program.now met.now.numbers marks.items) }
{
    met.numbers.laws();
    let starts = starts(alloc, program, fault)?;
    let mut rules = candidate_rules(alloc, all)?;
    put_sites(&mut rules, met.sites.as_slice())?;
    put_seeds(&mut rules, met.seeds.as_slice())?;
    let table = index(alloc, rules.as_slice())?;
    solve(alloc, rules.as_slice(), &table, starts.as_slice())
}

/// What holds from the start: what initialises packages is reached, and `main`; the faults of a run are made.
fn starts(alloc: Global, program: &Program, fault: usize) -> Result<Vec<usize>, NoMemory>
    ensures { IfOk result (λ starts. starts.items ≡ reaching.starts_of program.now fault) }
{
    let mut starts = first_starts(alloc, program, fault)?;
    for number in 0..program.functions.len() as u64 {
        put_start(&mut starts, program, FuncId { number })?;
    }
    Ok(starts)
}

fn first_starts(alloc: Global, program: &Program, fault: usize) -> Result<Vec<usize>, NoMemory>
    ensures { IfOk result (λ starts. starts.items ≡ reaching.fact_number (fact.Known fault) ∷ [] ++ reaching.main_start program.now.main) }
{
    let mut starts = Vec::new(alloc);
    starts.push(fact_number(FactNumber::Known(fault))?)?;
    if let Some(main) = program.main {
        starts.push(fact_number(FactNumber::Reached(main))?)?;
    }
    Ok(starts)
}

fn put_start(starts: &mut Vec<usize>, program: &Program, function: FuncId) -> Result<(), NoMemory>
    ensures { OnOk result (starts.new.items ≡ starts.old.items ++ reaching.start_at program.now function.number) }
{
    match program.functions.as_slice().get(function.number as usize) {
        Some(decl) => {
            if is_init(decl.form) {
                starts.push(fact_number(FactNumber::Reached(function))?)?;
            }
            Ok(())
        }
        None => Ok(()),
    }
}

fn is_init(form: FunctionForm) -> bool
    ensures { result ≡ reaching.is_init form }
{
    match form {
        FunctionForm::PackageInit => true,
        FunctionForm::Init | FunctionForm::Function | FunctionForm::Method => false,
        FunctionForm::Literal { .. } => false,
    }
}

/// Adds that one fact follows from two.
fn put_rule(
    rules: &mut Vec<Rule>,
    left: FactNumber,
    right: FactNumber,
    then: FactNumber,
) -> Result<(), NoMemory>
    ensures { OnOk result (rules.new.items ≡ rules.old.items ++ fact_rule left right then ∷ []) }
{
    let rule = Rule {
        left: fact_number(left)?,
        right: fact_number(right)?,
        then: fact_number(then)?,
    };
    rules.push(rule)?;
    Ok(())
}

/// What calls in functions that are reached call, or ask for.
fn put_sites(rules: &mut Vec<Rule>, sites: &[Site]) -> Result<(), NoMemory>
    ensures { OnOk result (rules.new.items ≡ rules.old.items ++ map site_rule sites.now) }
{
    for site in sites {
        let caller = FactNumber::Reached(site.caller);
        put_rule(rules, caller, caller, call_fact(site.call))?;
    }
    Ok(())
}

fn call_fact(call: Call) -> FactNumber
    ensures { result ≡ reaching.call_fact call }
{
    match call {
        Call::Fixed(function) => FactNumber::Reached(function),
        Call::Chosen { group, .. } => FactNumber::Asked(group),
    }
}

/// What is made in functions that are reached.
fn put_seeds(rules: &mut Vec<Rule>, seeds: &[Seed]) -> Result<(), NoMemory>
    ensures { OnOk result (rules.new.items ≡ rules.old.items ++ map seed_rule seeds.now) }
{
    for seed in seeds {
        let function = FactNumber::Reached(seed.function);
        put_rule(rules, function, function, FactNumber::Known(seed.value))?;
    }
    Ok(())
}

/// What values stand for that are made, in groups that are asked for.
fn candidate_rules(alloc: Global, all: &Answers) -> Result<Vec<Rule>, NoMemory>
    ensures { IfOk result (λ rules. AreRowRules (row all.now.rows) rules.items) }
{
    let mut rules = Vec::new(alloc);
    for group in 0..all.rows.len() {
        put_row(&mut rules, group, all.rows.row(group))?;
    }
    Ok(rules)
}

fn put_row(rules: &mut Vec<Rule>, group: usize, candidates: &[Candidate]) -> Result<(), NoMemory>
    ensures { OnOk result (rules.new.items ≡ rules.old.items ++ map (candidate_rule group) candidates.now) }
{
    for candidate in candidates {
        let asked = FactNumber::Asked(group);
        let known = FactNumber::Known(candidate.value);
        put_rule(rules, asked, known, goal_fact(candidate.goal))?;
    }
    Ok(())
}

fn goal_fact(goal: Goal) -> FactNumber
    ensures { result ≡ reaching.goal_fact goal }
{
    match goal {
        Goal::Function(function) => FactNumber::Reached(function),
        Goal::Group { group, .. } | Goal::First { group } => FactNumber::Asked(group),
    }
}

/// What groups have of values that are made.
fn live_rules(alloc: Global, all: &Answers, marks: &[bool]) -> Result<Vec<Rule>, NoMemory>
    ensures { IfOk result (λ rules. AreRules (row all.now.rows) (IsMade marks.now) rules.items) }
{
    let mut rules = Vec::new(alloc);
    for group in 0..all.rows.len() {
        put_live_row(&mut rules, group, all.rows.row(group), marks)?;
    }
    Ok(rules)
}

fn put_live_row(
    rules: &mut Vec<Rule>,
    group: usize,
    candidates: &[Candidate],
    marks: &[bool],
) -> Result<(), NoMemory>
    ensures { OnOk result (rules.new.items ≡ rules.old.items ++ map (row_rule group) (filter (reaching.is_made marks.now) candidates.now)) }
{
    for candidate in candidates {
        put_live(rules, group, *candidate, marks)?;
    }
    Ok(())
}

fn put_live(
    rules: &mut Vec<Rule>,
    group: usize,
    candidate: Candidate,
    marks: &[bool],
) -> Result<(), NoMemory>
    ensures { OnOk result (rules.new.items ≡ rules.old.items ++ map (row_rule group) (filter (reaching.is_made marks.now) (candidate ∷ []))) }
{
    if holds(marks, FactNumber::Known(candidate.value))? {
        let target = target_of(candidate.goal)?;
        put_answer(rules, group, target)?;
    }
    Ok(())
}

/// The calls in functions that are reached.
fn live_questions(alloc: Global, sites: &[Site], marks: &[bool]) -> Result<Vec<Question>, NoMemory>
    ensures { IfOk result (λ questions. questions.items ≡ map question_of (filter (reaching.runs_in marks.now) sites.now)) }
{
    let mut questions = Vec::new(alloc);
    for site in sites {
        put_question(&mut questions, *site, marks)?;
    }
    Ok(questions)
}

fn put_question(questions: &mut Vec<Question>, site: Site, marks: &[bool]) -> Result<(), NoMemory>
    ensures { OnOk result (questions.new.items ≡ questions.old.items ++ map question_of (filter (reaching.runs_in marks.now) (site ∷ []))) }
{
    if holds(marks, FactNumber::Reached(site.caller))? {
        questions.push(question_of(site))?;
    }
    Ok(())
}
