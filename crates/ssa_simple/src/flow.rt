//! A function while its statements are built: where `break`, `continue` and `fallthrough` lead.

use crate::error::lost;
use go_base::{BlockId, NoMemory, Pos};
use ssa_expr::Builder;
use ssa_ir::{Op, Operand};

/// A statement that `break` or `continue` may leave.
#[derive(Clone, Copy)]
pub struct Exit {
    /// The block behind it, once something leads there.
    pub behind: Option<BlockId>,
    /// Whether it is a loop.
    pub is_loop: bool,
    /// Where its next turn begins, once something leads there.
    pub next: Option<BlockId>,
    /// The body of the next clause, once something leads there.
    pub clause: Option<BlockId>,
}

impl Exit {
    /// A `switch` or `select`.
    pub fn of_choice() -> Exit {
        Exit {
            behind: None,
            is_loop: false,
            next: None,
            clause: None,
        }
    }

    /// A loop; where its next turn begins, where that is known.
    pub fn of_loop(next: Option<BlockId>) -> Exit {
        Exit {
            behind: None,
            is_loop: true,
            next,
            clause: None,
        }
    }
}

/// A function while its statements are built.
#[derive(Drop)]
pub struct Flow<'a> {
    /// Its code so far.
    pub builder: Builder<'a>,
    /// The statements that may be left, the innermost last.
    pub exits: Vec<Exit>,
}

impl<'a> Flow<'a> {
    /// A block that is entered, with all its predecessors.
    pub fn enter(&mut self, block: BlockId) -> Result<(), NoMemory> {
        self.builder.enter(block);
        self.builder.seal(block)
    }

    /// Enters a block where something leads to it.
    pub fn enter_if_filled(&mut self, slot: Option<BlockId>) -> Result<(), NoMemory> {
        match slot {
            Some(block) => self.enter(block),
            None => Ok(()),
        }
    }

    /// Leads to the block of a slot, where the current block has no end.
    pub fn leave_to(&mut self, slot: &mut Option<BlockId>, at: Pos) -> Result<(), NoMemory> {
        if self.builder.is_ended() {
            return Ok(());
        }
        let to = self.builder.to(slot)?;
        self.builder.jump(to, at)
    }

    /// Leads to a block, where the current block has no end.
    pub fn jump_to(&mut self, to: BlockId, at: Pos) -> Result<(), NoMemory> {
        if self.builder.is_ended() {
            return Ok(());
        }
        self.builder.jump(to, at)
    }

    /// Inside a statement that may be left.
    pub fn push_exit(&mut self, exit: Exit) -> Result<(), NoMemory> {
        self.exits.push(exit)?;
        Ok(())
    }

    /// Behind the innermost statement that may be left.
    pub fn pop_exit(&mut self) -> Result<Exit, NoMemory> {
        match self.exits.pop() {
            Some(exit) => Ok(exit),
            None => Err(lost()),
        }
    }

    /// The block behind the innermost statement that may be left.
    pub fn behind(&mut self) -> Result<BlockId, NoMemory> {
        let place = self.exits.len().saturating_sub(1);
        self.behind_at(place)
    }

    fn behind_at(&mut self, place: usize) -> Result<BlockId, NoMemory> {
        let Some(exit) = self.exits.get(place).copied() else {
            return Err(lost());
        };
        let mut slot = exit.behind;
        let block = self.builder.to(&mut slot)?;
        if let Some(exit) = self.exits.get_mut(place) {
            exit.behind = slot;
        }
        Ok(block)
    }

    /// `break` out of so many statements and one more.
    pub fn leave(&mut self, levels: u32, at: Pos) -> Result<(), NoMemory> {
        let place = self
            .exits
            .len()
            .saturating_sub(1)
            .saturating_sub(levels as usize);
        let to = self.behind_at(place)?;
        self.builder.jump(to, at)
    }

    /// `continue` of the loop outside of so many loops.
    pub fn go_on(&mut self, levels: u32, at: Pos) -> Result<(), NoMemory> {
        let Some(place) = self.loop_at(levels) else {
            return Err(lost());
        };
        let to = self.next_at(place)?;
        self.builder.jump(to, at)
    }

    /// Where the loop outside of so many loops stands.
    fn loop_at(&self, levels: u32) -> Option<usize> {
        let mut left = levels;
        for (place, exit) in self.exits.iter().enumerate().rev() {
            if exit.is_loop {
                if left == 0 {
                    return Some(place);
                }
                left = left.saturating_sub(1);
            }
        }
        None
    }

    fn next_at(&mut self, place: usize) -> Result<BlockId, NoMemory> {
        let Some(exit) = self.exits.get(place).copied() else {
            return Err(lost());
        };
        let mut slot = exit.next;
        let block = self.builder.to(&mut slot)?;
        if let Some(exit) = self.exits.get_mut(place) {
            exit.next = slot;
        }
        Ok(block)
    }

    /// `fallthrough` to the next clause.
    pub fn fall_through(&mut self, at: Pos) -> Result<(), NoMemory> {
        let place = self.exits.len().saturating_sub(1);
        let Some(exit) = self.exits.get(place).copied() else {
            return Err(lost());
        };
        let mut slot = exit.clause;
        let block = self.builder.to(&mut slot)?;
        if let Some(exit) = self.exits.get_mut(place) {
            exit.clause = slot;
        }
        self.builder.jump(block, at)
    }

    /// The body of the next clause of the innermost switch.
    pub fn set_clause(&mut self, clause: Option<BlockId>) {
        if let Some(exit) = self.exits.last_mut() {
            exit.clause = clause;
        }
    }

    /// The body of the next clause of the innermost switch, once something leads there.
    pub fn clause(&self) -> Option<BlockId> {
        self.exits.last()?.clause
    }

    /// Where the next turn of the innermost loop begins, once something leads there.
    pub fn next(&self) -> Option<BlockId> {
        self.exits.last()?.next
    }

    /// The body is next where a test holds, and else what follows the loop.
    pub fn branch_into(&mut self, test: Operand, at: Pos) -> Result<(), NoMemory> {
        let then_to = self.builder.add_block()?;
        let else_to = self.behind()?;
        let op = Op::If {
            test,
            then_to,
            else_to,
        };
        self.builder.effect(op, at)?;
        self.enter(then_to)
    }

    /// A turn of a loop begins.
    pub fn tick(&mut self, at: Pos) -> Result<(), NoMemory> {
        self.builder.effect(Op::Tick, at)
    }
}
