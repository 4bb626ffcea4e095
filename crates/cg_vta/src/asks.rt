//! What calls ask: what the values of a node stand for in a group.

ghost use Rattle.std.specs.Prelude.{◌≡◌, ◌⊎◌, ◌↔◌, ◌++◌, ℕ, [], IfOk, List, OnOk, Some, slice_get};
ghost use Rattle.std.specs.List.{Contains};
ghost use Rattle.std.specs.List.Sorted.{IsStrictlySortedBy};
ghost use Rattle.cg_nodes.specs.declared.nodes.Node.TheVariants as node_of;
ghost use Rattle.cg_numbers.specs.Numbered.{GrowsBy, IsAt, NodeAt};
ghost use Rattle.cg_numbers.specs.declared.numbers.Numbers.{Numbers};
ghost use Rattle.cg_numbers.specs.declared.sites.Call.TheVariants as call;
ghost use Rattle.cg_sets.specs.Answering.{AreAnswers};
ghost use Rattle.cg_sets.specs.Asking.{HasEdge};
ghost use Rattle.cg_sets.specs.InOrder.{edge_cmp};
ghost use Rattle.cg_sets.specs.Rules.{AreSites};
ghost use Rattle.cg_sets.specs.declared.candidates.Candidate.{Candidate};
ghost use Rattle.cg_sets.specs.declared.edges.Edge.{Edge};
ghost use Rattle.cg_solve.specs.Lists.{Has};
ghost use Rattle.cg_solve.specs.Tables.{row};
ghost use Rattle.cg_vta.specs.Asks as asking;
ghost use Rattle.cg_vta.specs.Asks.{AreAsked, AreAnswered, AreGoals, AskedAt, GrowsAs, IsGoalOf, PutsGoals, PutsTarget, TargetAt};
ghost use Rattle.cg_vta.specs.Facts.{AreFacts};
ghost use Rattle.cg_vta.specs.Flows.{IsVtaEdge};
ghost use Rattle.go_tree.specs.declared.program.Program.{Program};

use crate::goals::Goals;
use cg_numbers::{Call, Site};
use cg_sets::{Answers, Asked, Edges, Goal, Question, edges_of, put_answer, target_number};
use cg_solve::{Rule, Table};
use go_base::NoMemory;
use indexmap::IndexSet;
use std::alloc::Global;

/// What the values of a node stand for in a group. `first` is the node of the first argument.
#[derive(Clone, Copy, PartialEq, Eq, Hash)]
pub struct Ask {
    pub of: usize,
    pub first: usize,
    pub group: usize,
}

/// What is asked, each once.
#[derive(Drop)]
pub struct Asks {
    pub list: IndexSet<Ask>,
}

impl Asks {
    /// Nothing is asked.
    fn none(alloc: Global) -> Asks
        ensures { result.list.keys ≡ [] }
    {
        Asks {
            list: IndexSet::new(alloc),
        }
    }

    /// The number of an ask.
    fn number(&mut self, ask: Ask) -> Result<usize, NoMemory>
        ensures at { IfOk result (λ k. IsAt self.new.list.keys k ask) }
        ensures grows { OnOk result (GrowsBy self.old.list.keys self.new.list.keys ask) }
    {
        let (number, _) = self.list.insert_full(ask)?;
        Ok(number)
    }

    /// What is answered to an ask.
    fn answer(&mut self, ask: Ask) -> Result<Asked, NoMemory>
        ensures at { IfOk result (AskedAt self.new.list.keys (call.Chosen ask.of ask.first ask.group)) }
        ensures grows { OnOk result (GrowsBy self.old.list.keys self.new.list.keys ask) }
    {
        let number = self.number(ask)?;
        Ok(Asked::Answer(number))
    }

    /// The number of a goal that asks in turn.
    fn target(&mut self, goal: Goal, next: Ask) -> Result<usize, NoMemory>
        ensures at { IfOk result (TargetAt self.new.list.keys goal (Some next)) }
        ensures grows { OnOk result (GrowsBy self.old.list.keys self.new.list.keys next) }
    {
        let number = self.number(next)?;
        let target = target_number(goal, number)?;
        Ok(target)
    }

    /// The ask of a number.
    fn at(&self, number: usize) -> Option<Ask>
        ensures { result ≡ slice_get self.now.list.keys number }
    {
        self.list.get_index(number).copied()
    }
}

/// What is asked in turn, where that is what an ask has. `nothing` is the node in which nothing is.
fn next_ask(nothing: usize, ask: Ask, goal: Goal) -> Option<Ask>
    ensures { result ≡ asking.next_ask nothing ask goal }
{
    let first = nothing;
    match goal {
        Goal::Function(_) => None,
        Goal::Group { of, group } => Some(Ask { of, first, group }),
        Goal::First { group } => {
            let of = ask.first;
            Some(Ask { of, first, group })
        }
    }
}

/// What calls ask, each as it stands.
fn questions_of(alloc: Global, asks: &mut Asks, sites: &[Site]) -> Result<Vec<Question>, NoMemory>
    ensures questions { IfOk result (λ questions. AreAsked asks.new.list.keys sites.now questions.items) }
    ensures only { OnOk result ((a : Ask) → Has asks.new.list.keys a → Has asks.old.list.keys a ⊎ ((x : Site) × Has sites.now x × (asking.ask_of x.call ≡ Some a))) }
{
    let mut questions = Vec::new(alloc);
    for site in sites {
        let asked = asked_by(asks, site.call)?;
        questions.push(Question {
            caller: site.caller,
            at: site.at,
            asked,
        })?;
    }
    Ok(questions)
}

fn asked_by(asks: &mut Asks, call: Call) -> Result<Asked, NoMemory>
    ensures at { IfOk result (AskedAt asks.new.list.keys call) }
    ensures grows { OnOk result (GrowsAs asks.old.list.keys asks.new.list.keys (asking.ask_of call)) }
{
    match call {
        Call::Fixed(function) => Ok(Asked::Fixed(function)),
        Call::Chosen { of, first, group } => asks.answer(Ask { of, first, group }),
    }
}

/// The answers of all asks, of those too that are met on the way. `facts` has the values in each node.
fn rules_of(
    alloc: Global,
    asks: &mut Asks,
    goals: &Goals,
    facts: &Table<usize>,
    nothing: usize,
) -> Result<Vec<Rule>, NoMemory>
    ensures { (rows : ℕ → List Candidate) → AreGoals rows goals.now → IfOk result (λ rules. AreAnswered (row facts.now) rows nothing asks.old.list.keys asks.new.list.keys rules.items) }
{
    let mut rules = Vec::new(alloc);
    let mut number = 0;
    'turns: while number < asks.list.len() {
        put_ask(alloc, &mut rules, asks, goals, facts, nothing, number)?;
        number += 1;
    }
    Ok(rules)
}

/// The answers of the ask of a number.
fn put_ask(
    alloc: Global,
    rules: &mut Vec<Rule>,
    asks: &mut Asks,
    goals: &Goals,
    facts: &Table<usize>,
    nothing: usize,
    number: usize,
) -> Result<(), NoMemory>
    ensures { (rows : ℕ → List Candidate) → AreGoals rows goals.now → (a : Ask) → IsAt asks.old.list.keys number a → OnOk result (PutsGoals nothing number a (IsGoalOf (row facts.now) rows a) asks.old.list.keys asks.new.list.keys rules.old.items rules.new.items) }
{
    let Some(ask) = asks.at(number) else {
        return Ok(());
    };
    let found = goals_of(alloc, goals, facts, ask)?;
    put_goals(rules, asks, nothing, number, ask, found.as_slice())?;
    Ok(())
}

/// What the values in an ask's node stand for in its group.
fn goals_of(
    alloc: Global,
    goals: &Goals,
    facts: &Table<usize>,
    ask: Ask,
) -> Result<Vec<Goal>, NoMemory>
    ensures { (rows : ℕ → List Candidate) → AreGoals rows goals.now → IfOk result (λ found. (y : Goal) → Has found.items y ↔ IsGoalOf (row facts.now) rows ask y) }
{
    let mut found = Vec::new(alloc);
    for value in facts.row(ask.of) {
        put_found(&mut found, goals.find(ask.group, *value))?;
    }
    Ok(found)
}

fn put_found(found: &mut Vec<Goal>, goals: &[Goal]) -> Result<(), NoMemory>
    ensures { OnOk result (found.new.items ≡ found.old.items ++ goals.now) }
{
    for goal in goals {
        found.push(*goal)?;
    }
    Ok(())
}

fn put_goals(
    rules: &mut Vec<Rule>,
    asks: &mut Asks,
    nothing: usize,
    number: usize,
    ask: Ask,
    goals: &[Goal],
) -> Result<(), NoMemory>
    ensures { OnOk result (PutsGoals nothing number ask (Has goals.now) asks.old.list.keys asks.new.list.keys rules.old.items rules.new.items) }
{
    for goal in goals {
        put_goal(rules, asks, nothing, number, ask, *goal)?;
    }
    Ok(())
}

fn put_goal(
    rules: &mut Vec<Rule>,
    asks: &mut Asks,
    nothing: usize,
    number: usize,
    ask: Ask,
    goal: Goal,
) -> Result<(), NoMemory>
    ensures rules { OnOk result (PutsTarget nothing number ask goal asks.new.list.keys rules.old.items rules.new.items) }
    ensures grows { OnOk result (GrowsAs asks.old.list.keys asks.new.list.keys (asking.next_ask nothing ask goal)) }
{
    let target = target_of(asks, nothing, ask, goal)?;
    put_answer(rules, number, target)?;
    Ok(())
}

/// The number of a goal, whose asks are among the others.
fn target_of(asks: &mut Asks, nothing: usize, ask: Ask, goal: Goal) -> Result<usize, NoMemory>
    ensures at { IfOk result (TargetAt asks.new.list.keys goal (asking.next_ask nothing ask goal)) }
    ensures grows { OnOk result (GrowsAs asks.old.list.keys asks.new.list.keys (asking.next_ask nothing ask goal)) }
{
    let next = next_ask(nothing, ask, goal);
    with_next(asks, goal, next)
}

fn with_next(asks: &mut Asks, goal: Goal, next: Option<Ask>) -> Result<usize, NoMemory>
    ensures at { IfOk result (TargetAt asks.new.list.keys goal next) }
    ensures grows { OnOk result (GrowsAs asks.old.list.keys asks.new.list.keys next) }
{
    match next {
        Some(next) => asks.target(goal, next),
        None => target_number(goal, 0),
    }
}

/// The edges of what calls ask.
pub fn asked_edges(
    alloc: Global,
    sites: &[Site],
    all: &Answers,
    facts: &Table<usize>,
    nothing: usize,
) -> Result<Edges, NoMemory>
    ensures members { (p : Program) (n : Numbers) → AreSites p n sites.now → AreAnswers p n (row all.now.rows) → AreFacts p n sites.now (row all.now.rows) nothing (row facts.now) → NodeAt n nothing node_of.Nothing → IfOk result (λ edges. (e : Edge) → Contains edges e ↔ IsVtaEdge p n.likeness.types n.likeness.bares e) }
    ensures ascending { IfOk result (IsStrictlySortedBy edge_cmp) }
{
    let goals = Goals::of(alloc, all)?;
    let mut asks = Asks::none(alloc);
    let questions = questions_of(alloc, &mut asks, sites)?;
    let rules = rules_of(alloc, &mut asks, &goals, facts, nothing)?;
    edges_of(alloc, questions.as_slice(), rules.as_slice())
}
