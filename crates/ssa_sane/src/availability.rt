//! The registers that are available at the entries of blocks.

ghost use Rattle.std.specs.Prelude.{◌≡◌, ◌↔◌, ◌==◌, ◌+◌, ◌<◌, ◌^◌, ℕ, length, slice_get, Contains, IsTrue, IfOk};
ghost use Rattle.std.specs.Option.{option_copied};
ghost use Rattle.std.specs.BTreeMap.{IsOrdered};
ghost use Rattle.std.specs.Ordering.{nat_cmp};
ghost use Rattle.ssa_sane.specs.Counts.{others_of};
ghost use Rattle.ssa_sane.specs.Places.{registers_at, CountsAt};
ghost use Rattle.ssa_sane.specs.Trees.{place_at, IsTree};

use crate::counts::Counts;
use crate::places::Places;
use go_base::NoMemory;
use std::alloc::Global;
use std::marker::Model;
use std::rc::Rc;

/// The registers that are available at the entry of a block, ascending. They are held once for all blocks of a function.
#[derive(Drop)]
pub struct Registers {
    places: Rc<Places>,
    block: usize,
    len: u64,
}

impl Model for Registers {
    ghost use Rattle.std.specs.Prelude.{◌≡◌, List, ℕ, length};
    ghost use Rattle.std.specs.BTreeMap.{IsOrdered};
    ghost use Rattle.std.specs.Ordering.{nat_cmp};
    ghost use Rattle.ssa_sane.specs.Places.{registers_at};
    ghost use Rattle.ssa_sane.specs.Trees.{IsTree};

    ghost Value = { List ℕ };

    ghost view = { λ r. registers_at r.places.value r.block };

    ghost invariant = { λ r. IsTree r.places.value.tree.places.items × IsOrdered nat_cmp r.places.value.homes.map × (r.len ≡ length (registers_at r.places.value r.block)) };
}

impl Registers {
    /// How many there are.
    pub fn len(&self) -> u64
        ensures { result ≡ length self.now }
    {
        self.len
    }

    /// Whether there are none.
    pub fn is_empty(&self) -> bool
        ensures { result ≡ (length self.now == 0) }
    {
        self.len == 0
    }

    /// Whether a register is one of them.
    pub fn contains(&self, register: u64) -> bool
        ensures { IsTrue result ↔ Contains self.now register }
    {
        self.places.has(self.block, register)
    }

    /// The registers themselves.
    pub fn list(&self, alloc: Global) -> Result<Vec<u64>, NoMemory>
        ensures { IfOk result (λ list. list.items ≡ self.now) }
    {
        self.places.list(alloc, self.block)
    }

    fn new(places: &Rc<Places>, counts: &Counts, block: usize) -> Result<Registers, NoMemory>
        requires tree { IsTree places.now.value.tree.places.items }
        requires ordered { IsOrdered nat_cmp places.now.value.homes.map }
        requires counts { CountsAt places.now.value counts.now block }
        ensures { IfOk result (λ registers. registers ≡ registers_at places.now.value block) }
    {
        let len = places.count(counts, block);
        Ok(Registers {
            places: places.clone()?,
            block,
            len,
        })
    }
}

/// Of each block of a function the registers that are available at its entry.
#[derive(Drop)]
pub struct Available {
    blocks: Vec<Registers>,
}

impl Model for Available {
    ghost use Rattle.std.specs.Prelude.{List, ℕ};

    ghost Value = { List (List ℕ) };

    ghost view = { λ a. a.blocks.items };
}

impl Available {
    /// The registers of a block. None exactly where there is no such block.
    pub fn get(&self, block: u64) -> Option<&Registers>
        ensures { option_copied result ≡ slice_get self.now block }
    {
        self.blocks.get(block as usize)
    }

    /// How many blocks there are.
    pub fn len(&self) -> usize
        ensures { result ≡ length self.now }
    {
        self.blocks.len()
    }

    /// Whether there are none.
    pub fn is_empty(&self) -> bool
        ensures { result ≡ (length self.now == 0) }
    {
        self.blocks.is_empty()
    }

    /// The registers of each block of a function.
    pub(crate) fn new(
        alloc: Global,
        places: Places,
        counts: &Counts,
        count: usize,
    ) -> Result<Available, NoMemory>
        requires tree { IsTree places.tree.places.items }
        requires ordered { IsOrdered nat_cmp places.homes.map }
        requires counts { (block : ℕ) → block < count → CountsAt places counts.now block }
        ensures size { IfOk result (λ available. length available ≡ count) }
        ensures lists { IfOk result (λ available. (block : ℕ) → block < count → slice_get available block ≡ Some (registers_at places block)) }
    {
        let places = Rc::new(alloc, places)?;
        let mut blocks = Vec::new(alloc);
        for block in 0..count {
            blocks.push(Registers::new(&places, counts, block)?)?;
        }
        Ok(Available { blocks })
    }
}
