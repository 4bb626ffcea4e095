//! Edges from what calls ask and what is answered: an answer is a list of functions and of further answers.

ghost use Rattle.std.specs.Prelude.{◌≡◌, ◌==◌, ◌++◌, ◌∷◌, ◌↔◌, ℕ, [], IfOk, OnOk, map, flat_map, option_to_list};
ghost use Rattle.std.specs.List.{Contains};
ghost use Rattle.std.specs.List.Sorted.{IsStrictlySortedBy};
ghost use Rattle.cg_sets.specs.Asking.{answer_number, function_number, function_from, functions_in, target_number, answer_rule, HasEdge, question_edges, edge_to, if_so, answers_of, AreSound, AsksOf, AnswersAll, Grows};
ghost use Rattle.cg_sets.specs.InOrder.{edge_cmp};
ghost use Rattle.cg_sets.specs.declared.edges.Edge.{Edge};
ghost use Rattle.cg_solve.specs.LeastSets.{IsIndex, IsClear, search_of};
ghost use Rattle.cg_solve.specs.Tables.{row};

use crate::candidates::Goal;
use crate::edges::{Edge, Edges};
use crate::error::lost;
use cg_solve::{Rule, Search, Table, index};
use go_base::{FuncId, NoMemory, Pos};
use std::alloc::Global;

/// What a call calls: a function, or all functions of an answer.
#[derive(Clone, Copy)]
pub enum Asked {
    Fixed(FuncId),
    Answer(usize),
}

/// A call, and what it asks.
#[derive(Clone, Copy)]
pub struct Question {
    pub caller: FuncId,
    pub at: Pos,
    pub asked: Asked,
}

/// The number of an answer.
fn answer_number(answer: usize) -> Result<usize, NoMemory>
    ensures { IfOk result (λ n. n ≡ answer_number answer) }
{
    answer.checked_mul(2).ok_or(lost())
}

/// The number of a function among numbers of answers.
fn function_number(function: FuncId) -> Result<usize, NoMemory>
    ensures { IfOk result (λ n. n ≡ function_number function) }
{
    let even = (function.number as usize).checked_mul(2).ok_or(lost())?;
    even.checked_add(1).ok_or(lost())
}

/// The function of a number. None for that of an answer.
fn function_of(number: usize) -> Option<FuncId>
    ensures { option_to_list result ≡ function_from number }
{
    if number % 2 == 1 {
        return Some(FuncId {
            number: (number / 2) as u64,
        });
    }
    None
}

/// The number of a goal, whose group is the answer that is handed in.
pub fn target_number(goal: Goal, answer: usize) -> Result<usize, NoMemory>
    ensures { IfOk result (λ n. n ≡ target_number goal answer) }
{
    match goal {
        Goal::Function(function) => function_number(function),
        Goal::Group { .. } | Goal::First { .. } => answer_number(answer),
    }
}

/// Adds that an answer has a target.
pub fn put_answer(rules: &mut Vec<Rule>, answer: usize, target: usize) -> Result<(), NoMemory>
    ensures { OnOk result (rules.new.items ≡ rules.old.items ++ answer_rule answer target ∷ []) }
{
    let from = answer_number(answer)?;
    rules.push(Rule {
        left: from,
        right: from,
        then: target,
    })?;
    Ok(())
}

/// The edges of questions. `rules` says what the answers are.
pub fn edges_of(alloc: Global, questions: &[Question], rules: &[Rule]) -> Result<Edges, NoMemory>
    ensures members { IfOk result (λ edges. (e : Edge) → Contains edges e ↔ HasEdge questions.now rules.now e) }
    ensures ascending { IfOk result (IsStrictlySortedBy edge_cmp) }
{
    let given = given_of(alloc, questions, rules)?;
    let edges = all_edges(alloc, questions, &given)?;
    Edges::in_order(edges)
}

fn all_edges(
    alloc: Global,
    questions: &[Question],
    given: &Table<FuncId>,
) -> Result<Vec<Edge>, NoMemory>
    ensures { IfOk result (λ edges. edges.items ≡ flat_map (question_edges (row given.now)) questions.now) }
{
    let mut edges = Vec::new(alloc);
    for question in questions {
        put_edges(&mut edges, *question, given)?;
    }
    Ok(edges)
}

/// The functions of the answers that are asked for.
fn given_of(
    alloc: Global,
    questions: &[Question],
    rules: &[Rule],
) -> Result<Table<FuncId>, NoMemory>
    ensures sound { IfOk result (λ given. AreSound rules.now (row given)) }
    ensures whole { IfOk result (λ given. AnswersAll questions.now rules.now (row given)) }
{
    let asked = asked_of(alloc, questions)?;
    let table = index(alloc, rules)?;
    let mut search = Search::new(alloc, rules)?;
    let mut given = Table::new(alloc);
    for answer in asked.as_slice() {
        put_given(alloc, &mut given, &mut search, rules, &table, *answer)?;
    }
    Ok(given)
}

/// The answers that are asked for, each once.
fn asked_of(alloc: Global, questions: &[Question]) -> Result<Vec<usize>, NoMemory>
    ensures { IfOk result (λ asked. AsksOf questions.now asked.items) }
{
    let mut asked = answers_in(alloc, questions)?;
    asked.sort()?;
    asked.dedup();
    Ok(asked)
}

/// The answers that questions ask for.
fn answers_in(alloc: Global, questions: &[Question]) -> Result<Vec<usize>, NoMemory>
    ensures { IfOk result (λ asked. asked.items ≡ flat_map (λ q. answers_of q.asked) questions.now) }
{
    let mut asked = Vec::new(alloc);
    for question in questions {
        if let Asked::Answer(answer) = question.asked {
            asked.push(answer)?;
        }
    }
    Ok(asked)
}

fn put_given(
    alloc: Global,
    given: &mut Table<FuncId>,
    search: &mut Search,
    rules: &[Rule],
    table: &Table<Rule>,
    answer: usize,
) -> Result<(), NoMemory>
    requires index { IsIndex rules.now table.now }
    requires clear { IsClear rules.now (search_of search.old) }
    ensures clear { OnOk result (IsClear rules.now (search_of search.new)) }
    ensures given { OnOk result (Grows rules.now (row given.old) (row given.new) answer) }
{
    let start = answer_number(answer)?;
    search.solve(rules, table, [start].as_slice())?;
    put_found(alloc, given, answer, search.found())?;
    search.clear(rules);
    Ok(())
}

fn put_found(
    alloc: Global,
    given: &mut Table<FuncId>,
    answer: usize,
    found: &[usize],
) -> Result<(), NoMemory>
    ensures { OnOk result ((k : ℕ) → row given.new k ≡ row given.old k ++ if_so (answer == k) (functions_in found.now)) }
{
    for number in found {
        if let Some(function) = function_of(*number) {
            given.put(alloc, answer, function)?;
        }
    }
    Ok(())
}

fn put_edges(
    edges: &mut Vec<Edge>,
    question: Question,
    given: &Table<FuncId>,
) -> Result<(), NoMemory>
    ensures { OnOk result (edges.new.items ≡ edges.old.items ++ question_edges (row given.now) question) }
{
    match question.asked {
        Asked::Fixed(callee) => put_edge(edges, question, callee),
        Asked::Answer(answer) => put_each(edges, question, given.row(answer)),
    }
}

fn put_each(edges: &mut Vec<Edge>, question: Question, callees: &[FuncId]) -> Result<(), NoMemory>
    ensures { OnOk result (edges.new.items ≡ edges.old.items ++ map (edge_to question) callees.now) }
{
    for callee in callees {
        put_edge(edges, question, *callee)?;
    }
    Ok(())
}

fn put_edge(edges: &mut Vec<Edge>, question: Question, callee: FuncId) -> Result<(), NoMemory>
    ensures { OnOk result (edges.new.items ≡ edges.old.items ++ edge_to question callee ∷ []) }
{
    edges.push(Edge {
        caller: question.caller,
        site: question.at,
        callee,
    })?;
    Ok(())
}
