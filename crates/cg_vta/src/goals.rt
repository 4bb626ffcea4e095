//! What a value stands for in a group, found by both.

ghost use Rattle.std.specs.Prelude.{◌≡◌, ◌⊎◌, ◌↔◌, ℕ, [], IfOk, IfSome, None, OnOk};
ghost use Rattle.cg_numbers.specs.Numbered.{IsAt};
ghost use Rattle.cg_sets.specs.declared.candidates.Candidate.{Candidate};
ghost use Rattle.cg_sets.specs.declared.candidates.Goal.{Goal};
ghost use Rattle.cg_solve.specs.Lists.{Has};
ghost use Rattle.cg_solve.specs.Tables.{row};
ghost use Rattle.cg_vta.specs.Asks.{AreGoals, HasGoal, IsKept};

use cg_sets::{Answers, Candidate, Goal};
use cg_solve::Table;
use go_base::NoMemory;
use indexmap::IndexSet;
use std::alloc::Global;

/// A value in a group.
#[derive(Clone, Copy, PartialEq, Eq, Hash)]
pub struct Standing {
    pub group: usize,
    pub value: usize,
}

/// What values stand for in groups.
#[derive(Drop)]
pub struct Goals {
    pub standings: IndexSet<Standing>,
    pub rows: Table<Goal>,
}

impl Goals {
    /// What candidates stand for.
    pub fn of(alloc: Global, all: &Answers) -> Result<Goals, NoMemory>
        ensures { IfOk result (AreGoals (row all.now.rows)) }
    {
        let mut goals = Goals::none(alloc);
        for group in 0..all.rows.len() {
            goals.put_row(alloc, group, all.rows.row(group))?;
        }
        Ok(goals)
    }

    /// No goals.
    fn none(alloc: Global) -> Goals
        ensures standings { result.standings.keys ≡ [] }
        ensures rows { (j : ℕ) → row result.rows j ≡ [] }
    {
        Goals {
            standings: IndexSet::new(alloc),
            rows: Table::new(alloc),
        }
    }

    fn put_row(
        &mut self,
        alloc: Global,
        group: usize,
        candidates: &[Candidate],
    ) -> Result<(), NoMemory>
        ensures kept { IsKept self.old → OnOk result (IsKept self.new) }
        ensures goals { IsKept self.old → OnOk result ((g v : ℕ) (y : Goal) → HasGoal self.new g v y ↔ (HasGoal self.old g v y ⊎ ((group ≡ g) × (c : Candidate) × Has candidates.now c × (c.value ≡ v) × (c.goal ≡ y)))) }
    {
        for candidate in candidates {
            self.put(alloc, group, *candidate)?;
        }
        Ok(())
    }

    fn put(&mut self, alloc: Global, group: usize, candidate: Candidate) -> Result<(), NoMemory>
        ensures kept { IsKept self.old → OnOk result (IsKept self.new) }
        ensures goals { IsKept self.old → OnOk result ((g v : ℕ) (y : Goal) → HasGoal self.new g v y ↔ (HasGoal self.old g v y ⊎ ((group ≡ g) × (candidate.value ≡ v) × (candidate.goal ≡ y)))) }
    {
        let value = candidate.value;
        let (place, _) = self.standings.insert_full(Standing { group, value })?;
        self.rows.put(alloc, place, candidate.goal)?;
        Ok(())
    }

    /// The place of a standing. None where it has no goal.
    fn place_of(&self, standing: Standing) -> Option<usize>
        ensures some { IfSome result (λ k. IsAt self.now.standings.keys k standing) }
        ensures none { result ≡ None → (k : ℕ) → IsAt self.now.standings.keys k standing → ⊥ }
    {
        self.standings.get_index_of(&standing)
    }

    /// What a value stands for in a group.
    pub fn find(&self, group: usize, value: usize) -> &[Goal]
        ensures { IsKept self.now → (y : Goal) → Has result.now y ↔ HasGoal self.now group value y }
    {
        match self.place_of(Standing { group, value }) {
            Some(place) => self.rows.row(place),
            None => &[],
        }
    }
}
