//! A check of blocks and their instructions.

ghost use Rattle.std.specs.Prelude.{◌≡◌, ◌↔◌, ◌+◌, ◌<◌, ◌&&◌, ℕ, true, length, IfOk, OnOk, MatchOption, slice_get, Contains, nat_eq};
ghost use Rattle.std.specs.HashMap.{get};
ghost use Rattle.std.specs.Option.{option_copied};
ghost use Rattle.ssa_ir.specs.Blocks.{instrs_at, is_end_op};
ghost use Rattle.go_base.specs.declared.ids.BlockId.{BlockId};
ghost use Rattle.ssa_ir.specs.declared.ops.PhiEdge.{PhiEdge};
ghost use Rattle.ssa_sane.specs.Checks.{IsCheck, HasSeen, is_seen, phi_edges, ArePhisBefore, ArePhiRight, IsEdgeRight, AreInstrsBelow, IsFirstWrong, IsRight, IsFirstIn, Sees, may_stand_in};
ghost use Rattle.ssa_sane.specs.Sane.{IsBlock, IsInstr, IsTarget, ArePreds, HasOperands, IsAvailable, is_phi, froms_of, numbers_of};

use crate::flow::is_entry;
use crate::places::Places;
use crate::uses::push_used;
use cg_solve::Table;
use go_base::{BlockId, NoMemory};
use ssa_ir::{Block, Function, Instr, Op, Operand, PhiEdge};
use std::collections::HashMap;

/// What blocks are checked by: of each those that lead to it, and where registers are available.
#[derive(Clone, Copy)]
pub struct Check<'a> {
    pub function: &'a Function,
    pub preds: &'a Table<usize>,
    pub places: &'a Places,
}

impl<'a> Check<'a> {
    /// The first instruction of a block at which something is wrong. Of each register the last block that gives it is kept,
    /// and a list whose memory is taken once.
    pub fn block(
        &self,
        seen: &mut HashMap<u64, usize>,
        used: &mut Vec<u64>,
        number: usize,
        block: &Block,
    ) -> Result<Option<usize>, NoMemory>
        requires check { IsCheck self.now.function.now self.now.preds.now self.now.places.now }
        requires stands { slice_get self.now.function.now.blocks number ≡ Some block.now }
        requires seen { HasSeen self.now.function.now number 0 seen.old }
        ensures first { IfOk result (λ found. MatchOption found (IsRight self.now.function.now number block.now) (IsFirstIn self.now.function.now number)) }
        ensures seen { IfOk result (λ found. found ≡ None → HasSeen self.now.function.now (number + 1) 0 seen.new) }
    {
        let fits = self.fits_block(used, number, block)?;
        if !fits {
            return Ok(Some(0));
        }
        let found = self.first_in(seen, used, number, block.instrs.as_slice())?;
        Ok(found)
    }

    /// Whether a block is right, but for its instructions.
    fn fits_block(
        &self,
        used: &mut Vec<u64>,
        number: usize,
        block: &Block,
    ) -> Result<bool, NoMemory>
        requires { IsCheck self.now.function.now self.now.preds.now self.now.places.now }
        ensures { IfOk result (λ fits. (fits ≡ true) ↔ IsBlock self.now.function.now number block.now) }
    {
        if !self.may_stand(number, block) {
            return Ok(false);
        }
        let fits = self.are_preds(used, number, block.preds.as_slice())?;
        Ok(fits)
    }

    /// Whether a block holds an instruction and can be reached, and none leads to it if it is an entry.
    fn may_stand(&self, number: usize, block: &Block) -> bool
        ensures { result ≡ may_stand_in self.now.function.now self.now.places.now number block.now }
    {
        !block.instrs.is_empty()
            && self.places.is_reached(number)
            && (block.preds.is_empty() || !is_entry(self.function, number))
    }

    /// Whether a list of blocks has each that leads to a block once, and no other.
    fn are_preds(
        &self,
        used: &mut Vec<u64>,
        number: usize,
        preds: &[BlockId],
    ) -> Result<bool, NoMemory>
        requires { IsCheck self.now.function.now self.now.preds.now self.now.places.now }
        ensures { IfOk result (λ fits. (fits ≡ true) ↔ ArePreds self.now.function.now number (numbers_of preds.now)) }
    {
        push_numbers(used, preds)?;
        Ok(self.is_row(used, number))
    }

    /// Whether the values of a phi come from each block that leads to a block once, and from no other.
    fn are_froms(
        &self,
        used: &mut Vec<u64>,
        number: usize,
        edges: &[PhiEdge],
    ) -> Result<bool, NoMemory>
        requires { IsCheck self.now.function.now self.now.preds.now self.now.places.now }
        ensures { IfOk result (λ fits. (fits ≡ true) ↔ ArePreds self.now.function.now number (froms_of edges.now)) }
    {
        push_froms(used, edges)?;
        Ok(self.is_row(used, number))
    }

    /// Whether numbers are those of the blocks that lead to a block, each once.
    fn is_row(&self, numbers: &mut Vec<u64>, number: usize) -> bool
        requires { IsCheck self.now.function.now self.now.preds.now self.now.places.now }
        ensures { (result ≡ true) ↔ ArePreds self.now.function.now number numbers.old.items }
    {
        numbers.sort_unstable();
        are_same(numbers.as_slice(), self.preds.row(number))
    }

    fn first_in(
        &self,
        seen: &mut HashMap<u64, usize>,
        used: &mut Vec<u64>,
        number: usize,
        instrs: &[Instr],
    ) -> Result<Option<usize>, NoMemory>
        requires check { IsCheck self.now.function.now self.now.preds.now self.now.places.now }
        requires instrs { instrs.now ≡ instrs_at self.now.function.now number }
        requires some { 0 < length self.now.function.now.blocks }
        requires seen { HasSeen self.now.function.now number 0 seen.old }
        ensures first { IfOk result (λ found. MatchOption found (AreInstrsBelow self.now.function.now number (length instrs.now)) (IsFirstWrong self.now.function.now number)) }
        ensures seen { IfOk result (λ found. found ≡ None → HasSeen self.now.function.now number (length instrs.now) seen.new) }
    {
        let mut phis = true;
        for (index, instr) in instrs.iter().enumerate() {
            let is_last = is_last(index, instrs);
            let fits = self.fits(seen, used, number, instr, phis, is_last)?;
            if !fits {
                return Ok(Some(index));
            }
            phis = are_phis(phis, instr);
            see(seen, instr, number)?;
        }
        Ok(None)
    }

    /// Whether an instruction is right at its place.
    fn fits(
        &self,
        seen: &HashMap<u64, usize>,
        used: &mut Vec<u64>,
        block: usize,
        instr: &Instr,
        phis: bool,
        is_last: bool,
    ) -> Result<bool, NoMemory>
        requires check { IsCheck self.now.function.now self.now.preds.now self.now.places.now }
        requires some { 0 < length self.now.function.now.blocks }
        ensures { IfOk result (λ fits. (index : ℕ) → HasSeen self.now.function.now block index seen.now → ((phis ≡ true) ↔ ArePhisBefore self.now.function.now block index) → ((is_last ≡ true) ↔ (index + 1 ≡ length (instrs_at self.now.function.now block))) → (fits ≡ true) ↔ IsInstr self.now.function.now block index instr.now) }
    {
        if !self.fits_end(&instr.op, is_last) {
            return Ok(false);
        }
        let fits = self.fits_operands(seen, used, block, &instr.op, phis)?;
        Ok(fits)
    }

    /// Whether an instruction ends a block exactly where it is the last, and its targets exist.
    fn fits_end(&self, op: &Op, is_last: bool) -> bool
        ensures { (result ≡ true) ↔ ((is_end_op op.now ≡ is_last) × ((to : ℕ) → IsTarget op.now to → to < length self.now.function.now.blocks)) }
    {
        op.is_end() == is_last && self.has_targets(op)
    }

    fn fits_operands(
        &self,
        seen: &HashMap<u64, usize>,
        used: &mut Vec<u64>,
        block: usize,
        op: &Op,
        phis: bool,
    ) -> Result<bool, NoMemory>
        requires check { IsCheck self.now.function.now self.now.preds.now self.now.places.now }
        requires some { 0 < length self.now.function.now.blocks }
        ensures { IfOk result (λ fits. (index : ℕ) → HasSeen self.now.function.now block index seen.now → ((phis ≡ true) ↔ ArePhisBefore self.now.function.now block index) → (fits ≡ true) ↔ HasOperands self.now.function.now block index op.now) }
    {
        match edges_of(op) {
            Some(edges) => {
                let fits = self.fits_phi(used, block, edges)?;
                Ok(phis && fits)
            }
            None => {
                used.clear();
                push_used(used, op)?;
                Ok(self.has_all(seen, block, used.as_slice()))
            }
        }
    }

    /// Whether all of some registers are available behind what was met of a block.
    fn has_all(&self, seen: &HashMap<u64, usize>, block: usize, used: &[u64]) -> bool
        requires check { IsCheck self.now.function.now self.now.preds.now self.now.places.now }
        requires some { 0 < length self.now.function.now.blocks }
        ensures { (index : ℕ) → HasSeen self.now.function.now block index seen.now → (result ≡ true) ↔ ((register : ℕ) → Contains used.now register → IsAvailable self.now.function.now block index register) }
    {
        for register in used {
            if !self.is_available(seen, block, *register) {
                return false;
            }
        }
        true
    }

    /// Whether a register is available behind what was met of a block.
    fn is_available(&self, seen: &HashMap<u64, usize>, block: usize, register: u64) -> bool
        requires check { IsCheck self.now.function.now self.now.preds.now self.now.places.now }
        requires some { 0 < length self.now.function.now.blocks }
        ensures { (index : ℕ) → HasSeen self.now.function.now block index seen.now → (result ≡ true) ↔ IsAvailable self.now.function.now block index register }
    {
        is_given(seen, block, register) || self.places.is_available(block, register)
    }

    /// Whether a phi has one operand for each block that leads to its own, available where that ends.
    fn fits_phi(
        &self,
        used: &mut Vec<u64>,
        block: usize,
        edges: &[PhiEdge],
    ) -> Result<bool, NoMemory>
        requires check { IsCheck self.now.function.now self.now.preds.now self.now.places.now }
        requires some { 0 < length self.now.function.now.blocks }
        ensures { IfOk result (λ fits. (fits ≡ true) ↔ ArePhiRight self.now.function.now block edges.now) }
    {
        let fits = self.are_froms(used, block, edges)?;
        Ok(fits && self.have_all_behind(edges))
    }

    /// Whether the operands of a phi are available where their blocks end.
    fn have_all_behind(&self, edges: &[PhiEdge]) -> bool
        requires check { IsCheck self.now.function.now self.now.preds.now self.now.places.now }
        requires some { 0 < length self.now.function.now.blocks }
        ensures { (result ≡ true) ↔ ((edge : PhiEdge) → Contains edges.now edge → IsEdgeRight self.now.function.now edge) }
    {
        for edge in edges {
            if !self.has_behind(edge) {
                return false;
            }
        }
        true
    }

    fn has_behind(&self, edge: &PhiEdge) -> bool
        requires check { IsCheck self.now.function.now self.now.preds.now self.now.places.now }
        requires some { 0 < length self.now.function.now.blocks }
        ensures { (result ≡ true) ↔ IsEdgeRight self.now.function.now edge.now }
    {
        match &edge.value {
            Operand::Register(register) => {
                self.places
                    .is_available_behind(edge.from.number as usize, *register)
            }
            _ => true,
        }
    }

    /// Whether the targets of an instruction exist.
    fn has_targets(&self, op: &Op) -> bool
        ensures { (result ≡ true) ↔ ((to : ℕ) → IsTarget op.now to → to < length self.now.function.now.blocks) }
    {
        let (first, second) = op.targets();
        self.exists(first) && self.exists(second)
    }

    fn exists(&self, block: Option<BlockId>) -> bool
        ensures { (result ≡ true) ↔ ((id : BlockId) → block ≡ Some id → id.number < length self.now.function.now.blocks) }
    {
        match block {
            Some(block) => block.number < self.function.blocks.len() as u64,
            None => true,
        }
    }
}

/// Whether an instruction is the last.
fn is_last(index: usize, instrs: &[Instr]) -> bool
    requires { index < length instrs.now }
    ensures { (result ≡ true) ↔ (index + 1 ≡ length instrs.now) }
{
    index + 1 == instrs.len()
}

/// Whether there are phis alone, and an instruction is one too.
fn are_phis(phis: bool, instr: &Instr) -> bool
    ensures { result ≡ (phis && is_phi instr.now) }
{
    phis && is_phi(instr)
}

/// The values of a phi.
fn edges_of(op: &Op) -> Option<&[PhiEdge]>
    ensures { option_copied result ≡ phi_edges op.now }
{
    match op {
        Op::Phi(edges) => Some(edges.as_slice()),
        _ => None,
    }
}

fn is_phi(instr: &Instr) -> bool
    ensures { result ≡ is_phi instr.now }
{
    match &instr.op {
        Op::Phi(_) => true,
        _ => false,
    }
}

fn is_given(seen: &HashMap<u64, usize>, block: usize, register: u64) -> bool
    ensures { result ≡ is_seen (get nat_eq seen.now register) block }
{
    match seen.get(&register) {
        Some(given) => *given == block,
        None => false,
    }
}

/// A block has an instruction that may give a register.
fn see(seen: &mut HashMap<u64, usize>, instr: &Instr, block: usize) -> Result<(), NoMemory>
    ensures { OnOk result (Sees instr.now block seen.old seen.new) }
{
    if let Some(register) = instr.register {
        seen.insert(register, block)?;
    }
    Ok(())
}

fn push_numbers(used: &mut Vec<u64>, ids: &[BlockId]) -> Result<(), NoMemory>
    ensures { OnOk result (used.new.items ≡ numbers_of ids.now) }
{
    used.clear();
    for id in ids {
        used.push(id.number)?;
    }
    Ok(())
}

fn push_froms(used: &mut Vec<u64>, edges: &[PhiEdge]) -> Result<(), NoMemory>
    ensures { OnOk result (used.new.items ≡ froms_of edges.now) }
{
    used.clear();
    for edge in edges {
        used.push(edge.from.number)?;
    }
    Ok(())
}

/// Whether two lists of numbers are the same.
fn are_same(numbers: &[u64], others: &[usize]) -> bool
    ensures { (result ≡ true) ↔ (numbers.now ≡ others.now) }
{
    if numbers.len() != others.len() {
        return false;
    }
    for (index, number) in numbers.iter().enumerate() {
        if *number != others[index] as u64 {
            return false;
        }
    }
    true
}
