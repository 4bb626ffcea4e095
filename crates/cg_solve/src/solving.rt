//! The least set of numbers that contains given numbers and is closed under rules.

ghost use Rattle.std.specs.Prelude.{◌≡◌, ℕ, ◌<◌, ◌≤◌, [], OnOk, IfOk, length, true, false, ◌↔◌};
ghost use Rattle.std.specs.List.{All};
ghost use Rattle.cg_solve.specs.Lists.{Has};
ghost use Rattle.cg_solve.specs.declared.solving.Rule.{Rule};
ghost use Rattle.cg_solve.specs.LeastSets.{Derives, IsIndex, IsSearch, IsClear, IsSolved, marked, search_of, added, added_all, followed};

use crate::table::Table;
use go_base::NoMemory;
use std::alloc::Global;

/// What has both `left` and `right` has `then`.
#[derive(Clone, Copy)]
pub struct Rule {
    pub left: usize,
    pub right: usize,
    pub then: usize,
}

/// The numbers that were found, and those whose rules are still to be followed. One search serves for many seeds.
#[derive(Drop)]
pub struct Search {
    marks: Vec<bool>,
    queue: Vec<usize>,
    found: Vec<usize>,
}

/// The rules by what they need.
pub fn index(alloc: Global, rules: &[Rule]) -> Result<Table<Rule>, NoMemory>
    ensures { IfOk result (λ table. IsIndex rules.now table) }
{
    let mut table = Table::new(alloc);
    for rule in rules {
        table.put(alloc, rule.left, *rule)?;
        table.put(alloc, rule.right, *rule)?;
    }
    Ok(table)
}

/// The least set: which numbers are in it.
pub fn solve(
    alloc: Global,
    rules: &[Rule],
    table: &Table<Rule>,
    seeds: &[usize],
) -> Result<Vec<bool>, NoMemory>
    requires { IsIndex rules.now table.now }
    ensures { IfOk result (λ marks. (n : ℕ) → (marked marks.items n ≡ true) ↔ Derives seeds.now rules.now n) }
{
    let mut search = Search::new(alloc, rules)?;
    search.solve(rules, table, seeds)?;
    let Search { marks, .. } = search;
    Ok(marks)
}

/// Whether a number is marked.
pub fn is_marked(marks: &[bool], number: usize) -> bool
    ensures { result ≡ marked marks.now number }
{
    match marks.get(number) {
        None => false,
        Some(mark) => *mark,
    }
}

fn cover_rules(marks: &mut Vec<bool>, rules: &[Rule]) -> Result<(), NoMemory>
    ensures same { OnOk result ((k : ℕ) → marked marks.new.items k ≡ marked marks.old.items k) }
    ensures room { OnOk result (All (λ r. r.then < length marks.new.items) rules.now) }
{
    for rule in rules {
        cover(marks, rule.then)?;
    }
    Ok(())
}

fn cover_seeds(marks: &mut Vec<bool>, seeds: &[usize]) -> Result<(), NoMemory>
    ensures same { OnOk result ((k : ℕ) → marked marks.new.items k ≡ marked marks.old.items k) }
    ensures room { OnOk result (All (λ n. n < length marks.new.items) seeds.now) }
    ensures more { OnOk result (length marks.old.items ≤ length marks.new.items) }
{
    for seed in seeds {
        cover(marks, *seed)?;
    }
    Ok(())
}

// Makes room for the mark of a number.
fn cover(marks: &mut Vec<bool>, number: usize) -> Result<(), NoMemory>
    ensures same { OnOk result ((k : ℕ) → marked marks.new.items k ≡ marked marks.old.items k) }
    ensures room { OnOk result (number < length marks.new.items) }
    ensures more { OnOk result (length marks.old.items ≤ length marks.new.items) }
{
    while marks.len() <= number {
        marks.push(false)?;
    }
    Ok(())
}

impl Search {
    /// A search that has room for what the rules give.
    pub fn new(alloc: Global, rules: &[Rule]) -> Result<Self, NoMemory>
        ensures { IfOk result (λ s. IsClear rules.now (search_of s)) }
    {
        let mut marks = Vec::new(alloc);
        cover_rules(&mut marks, rules)?;
        Ok(Search {
            marks,
            queue: Vec::new(alloc),
            found: Vec::new(alloc),
        })
    }

    /// Finds the least set.
    pub fn solve(
        &mut self,
        rules: &[Rule],
        table: &Table<Rule>,
        seeds: &[usize],
    ) -> Result<(), NoMemory>
        requires index { IsIndex rules.now table.now }
        requires clear { IsClear rules.now (search_of self.old) }
        ensures { OnOk result (IsSolved seeds.now rules.now (search_of self.new)) }
    {
        self.start(rules, seeds)?;
        while let Some(number) = self.queue.pop() {
            self.follow(table.row(number))?;
        }
        Ok(())
    }

    /// Which numbers are found.
    pub fn marks(&self) -> &[bool]
        ensures { result.now ≡ self.now.marks.items }
    {
        self.marks.as_slice()
    }

    /// The numbers that are found, each once, in the order in which they were.
    pub fn found(&self) -> &[usize]
        ensures { result.now ≡ self.now.found.items }
    {
        self.found.as_slice()
    }

    /// Forgets what was found. It costs no more than what was found.
    pub fn clear(&mut self, rules: &[Rule])
        requires listed { (n : ℕ) → marked self.old.marks.items n ≡ true → Has self.old.found.items n }
        requires room { (r : Rule) → Has rules.now r → r.then < length self.old.marks.items }
        ensures { IsClear rules.now (search_of self.new) }
    {
        while let Some(number) = self.found.pop() {
            if number < self.marks.len() {
                self.marks[number] = false;
            }
        }
        self.queue.clear();
    }

    // Puts the seeds into the queue.
    fn start(&mut self, rules: &[Rule], seeds: &[usize]) -> Result<(), NoMemory>
        requires { IsClear rules.now (search_of self.old) }
        ensures { OnOk result (IsSearch seeds.now rules.now [] (search_of self.new)) }
    {
        cover_seeds(&mut self.marks, seeds)?;
        self.add_all(seeds)?;
        Ok(())
    }

    // Follows rules, one after another.
    fn follow(&mut self, rules: &[Rule]) -> Result<(), NoMemory>
        ensures { OnOk result (search_of self.new ≡ followed rules.now (search_of self.old)) }
    {
        for rule in rules {
            if is_marked(&self.marks, rule.left) && is_marked(&self.marks, rule.right) {
                self.add(rule.then)?;
            }
        }
        Ok(())
    }

    // Adds numbers, one after another.
    fn add_all(&mut self, numbers: &[usize]) -> Result<(), NoMemory>
        ensures { OnOk result (search_of self.new ≡ added_all numbers.now (search_of self.old)) }
    {
        for number in numbers {
            self.add(*number)?;
        }
        Ok(())
    }

    // Marks a number, if it is new and has room.
    fn add(&mut self, number: usize) -> Result<(), NoMemory>
        ensures { OnOk result (search_of self.new ≡ added number (search_of self.old)) }
    {
        if number < self.marks.len() && !is_marked(&self.marks, number) {
            self.queue.push(number)?;
            self.found.push(number)?;
            self.marks[number] = true;
        }
        Ok(())
    }
}
