//! How many registers are available.

ghost use Rattle.std.specs.Prelude.{◌≡◌, ◌+◌, ◌-◌, ◌<◌, ◌^◌, ◌==◌, ℕ, not, min, length, slice_get, IfOk, OnOk};
ghost use Rattle.std.specs.BTreeMap.{IsOrdered, values};
ghost use Rattle.std.specs.Ordering.{nat_cmp};
ghost use Rattle.ssa_sane.specs.Counts.{AllSmall, AddsOnes, AddsHome, AreCounts, others_of};
ghost use Rattle.ssa_sane.specs.Homes.{is_entered_in};
ghost use Rattle.ssa_sane.specs.Trees.{own_at};

use crate::homes::{Home, Homes};
use go_base::NoMemory;
use std::alloc::Global;

/// How many registers are given in each block and in no other, how many are given before every block but the first, and
/// of each block how many of the others are available at its entry.
#[derive(Drop)]
pub struct Counts {
    pub own: Vec<u64>,
    starts: u64,
    others: Vec<u64>,
}

impl Counts {
    pub fn new(alloc: Global, homes: &Homes, blocks: usize) -> Result<Counts, NoMemory>
        ensures counts { IfOk result (AreCounts homes.now blocks) }
        ensures small { OnOk result (length (values homes.now.map) < 2 ^ 63) }
        ensures ordered { OnOk result (IsOrdered nat_cmp homes.now.map) }
    {
        let mut counts = Counts {
            own: vec![in alloc; 0u64; blocks]?,
            starts: 0,
            others: vec![in alloc; 0u64; blocks]?,
        };
        for home in homes.map.values() {
            counts.add(homes, *home);
        }
        Ok(counts)
    }

    fn add(&mut self, homes: &Homes, home: Home)
        requires own { AllSmall self.old.own.items }
        requires starts { self.old.starts < 2 ^ 63 }
        requires others { AllSmall self.old.others.items }
        ensures { AddsHome homes.now.lacking.items home self.old self.new }
    {
        match home {
            Home::Block(block) => add_one(&mut self.own, block),
            Home::Start => self.starts += 1,
            Home::Several(index) => add_others(&mut self.others, homes, index),
        }
    }

    /// How many registers that are not given in one block alone are available at the entry of a block.
    pub fn others_at(&self, block: usize) -> u64
        ensures { result ≡ min (others_of self.now block) (2 ^ 64 - 1) }
    {
        let starts = if block > 0 { self.starts } else { 0 };
        starts.saturating_add(count_in(self.others.as_slice(), block))
    }
}

/// The count of a block; 0 where there is none.
pub fn count_in(counts: &[u64], block: usize) -> u64
    ensures { result ≡ own_at counts.now block }
{
    match counts.get(block) {
        Some(count) => *count,
        None => 0,
    }
}

fn add_one(counts: &mut Vec<u64>, block: usize)
    requires { AllSmall counts.old.items }
    ensures { AddsOnes (λ other. block == other) counts.old.items counts.new.items }
{
    if block < counts.len() {
        counts[block] += 1;
    }
}

fn add_others(counts: &mut Vec<u64>, homes: &Homes, index: usize)
    requires { AllSmall counts.old.items }
    ensures { AddsOnes (λ block. not (is_entered_in (slice_get homes.now.lacking.items index) block)) counts.old.items counts.new.items }
{
    for block in 0..counts.len() {
        if !homes.is_entered(index, block) {
            counts[block] += 1;
        }
    }
}
