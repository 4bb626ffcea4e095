//! Where jumps lead.

ghost use Rattle.std.specs.Prelude.{◌≡◌, ◌≤◌, ℕ, Option, IfOk, IfSome, length, slice_get};
ghost use Rattle.code_plan.specs.Forms.{IsStep, LeadsOn};
ghost use Rattle.code_plan.specs.Forms as forms;
ghost use Rattle.code_plan.specs.Sites.{site_of, IsPassedOver};
ghost use Rattle.ssa_ir.specs.Blocks.{instrs_in};
ghost use Rattle.ssa_ir.specs.declared.ops.Op.TheVariants as instr;
ghost use Rattle.ssa_mean.specs.Unwinding as unwinding;

use crate::error::small;
use crate::operands::Place;
use crate::steps::Step;
use go_base::{BlockId, NoMemory};
use ssa_ir::{Block, Instr, Op, Operand};

impl Place<'_> {
    pub fn jump(&self, to: BlockId) -> Result<Step, NoMemory>
        ensures { (register : Option ℕ) → IfOk result (λ step. IsStep (site_of self.now) register (instr.Jump to) step) }
    {
        Ok(Step::Jump {
            to: self.target(to)?,
        })
    }

    pub fn branch(
        &self,
        test: &Operand,
        then_to: BlockId,
        else_to: BlockId,
    ) -> Result<Step, NoMemory>
        ensures { (register : Option ℕ) → IfOk result (λ step. IsStep (site_of self.now) register (instr.If test.now then_to else_to) step) }
    {
        Ok(Step::If {
            test: self.arg(test)?,
            then_to: self.target(then_to)?,
            else_to: self.target(else_to)?,
        })
    }

    /// The block to which a jump leads in the end: one that does nothing but jump is passed over, where no phi asks from
    /// where the block behind it is entered.
    fn target(&self, block: BlockId) -> Result<u32, NoMemory>
        ensures { IfOk result (λ to. LeadsOn (site_of self.now).function block.number to) }
    {
        let blocks = self.function.blocks.as_slice();
        let mut at = block;
        for _ in 0..blocks.len() {
            match passed_over(blocks, at) {
                Some(next) => at = next,
                None => break,
            }
        }
        small(at.number)
    }
}

/// Where a block that may be passed over leads.
fn passed_over(blocks: &[Block], block: BlockId) -> Option<BlockId>
    ensures { IfSome result (λ next. IsPassedOver blocks.now block.number next) }
{
    let next = next_of(instrs_of(blocks, block))?;
    if phis_first(instrs_of(blocks, next)) > 0 {
        return None;
    }
    Some(next)
}

/// The instructions of a block, none where there is no such block.
fn instrs_of(blocks: &[Block], block: BlockId) -> &[Instr]
    ensures { result.now ≡ instrs_in (slice_get blocks.now block.number) }
{
    match blocks.get(block.number as usize) {
        Some(block) => block.instrs.as_slice(),
        None => &[],
    }
}

/// Where instructions jump that do nothing else.
fn next_of(instrs: &[Instr]) -> Option<BlockId>
    ensures { result ≡ forms.next_of instrs.now }
{
    match instrs {
        [only] => jump_of(&only.op),
        _ => None,
    }
}

/// Where an instruction jumps, if it is a jump.
fn jump_of(op: &Op) -> Option<BlockId>
    ensures { result ≡ forms.jump_of op.now }
{
    match op {
        Op::Jump(to) => Some(*to),
        _ => None,
    }
}

/// How many phis stand first.
pub(crate) fn phis_first(instrs: &[Instr]) -> usize
    ensures value { result ≡ unwinding.phis_first instrs.now }
    ensures within { result ≤ length instrs.now }
{
    for (count, instr) in instrs.iter().enumerate() {
        if !matches!(instr.op, Op::Phi(_)) {
            return count;
        }
    }
    instrs.len()
}
