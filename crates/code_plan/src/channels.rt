//! The steps of channels and of ranges.

ghost use Rattle.std.specs.Prelude.{◌≡◌, ℕ, Option, Some, IfOk};
ghost use Rattle.std.specs.List.{AllZip};
ghost use Rattle.code_plan.specs.Forms.{IsCase, IsNext, IsRange, IsStep};
ghost use Rattle.code_plan.specs.Operands.{IsZero};
ghost use Rattle.code_plan.specs.Sites.{site_of};
ghost use Rattle.ssa_ir.specs.declared.ops.Op.TheVariants as instr;
ghost use Rattle.ssa_mean.specs.Operands as ir;
ghost use Rattle.ssa_mean.specs.Ranges.{key_in, value_in, ranged};

use crate::error::lost;
use crate::late::{Mark, mark_at};
use crate::operands::Place;
use crate::steps::{PlannedCase, Step};
use go_base::{NoMemory, TypeId};
use go_type::TypeTerm;
use go_value::Value;
use ssa_ir::{Operand, SelectCase};

impl Place<'_> {
    pub fn send(&self, channel: &Operand, value: &Operand) -> Result<Step, NoMemory>
        ensures { (register : Option ℕ) → IfOk result (λ step. IsStep (site_of self.now) register (instr.Send channel.now value.now) step) }
    {
        Ok(Step::Send {
            channel: self.arg(channel)?,
            value: self.arg(value)?,
        })
    }

    pub fn receive(
        &self,
        register: Option<u64>,
        channel: &Operand,
        comma_ok: bool,
    ) -> Result<Step, NoMemory>
        ensures { IfOk result (λ step. IsStep (site_of self.now) register (instr.Receive channel.now comma_ok) step) }
    {
        Ok(Step::Receive {
            channel: self.arg(channel)?,
            zero: self.chan_zero(channel)?,
            comma_ok,
            to: self.to(register)?,
        })
    }

    /// The zero value of the elements of a channel.
    fn chan_zero(&self, channel: &Operand) -> Result<Box<Value>, NoMemory>
        ensures { let s = site_of self.now in IfOk result (λ zero. IsZero s (ir.element_type s.code s.function channel.now) zero.value) }
    {
        match self.known_term(channel)? {
            TypeTerm::Chan { elem, .. } => self.planner.held_zero(*elem),
            _ => Err(lost()),
        }
    }

    pub fn select(
        &self,
        register: Option<u64>,
        blocking: bool,
        cases: &[SelectCase],
    ) -> Result<Step, NoMemory>
        ensures { IfOk result (λ step. IsStep (site_of self.now) register (instr.Select blocking cases.now) step) }
    {
        Ok(Step::Select {
            blocking,
            cases: self.cases(cases)?,
            to: self.to(register)?,
        })
    }

    fn cases(&self, cases: &[SelectCase]) -> Result<Vec<PlannedCase>, NoMemory>
        ensures { IfOk result (λ planned. AllZip (IsCase (site_of self.now)) cases.now planned.items) }
    {
        let mut planned = Vec::new(self.planner.alloc);
        for case in cases {
            planned.push(self.case(case)?)?;
        }
        Ok(planned)
    }

    fn case(&self, case: &SelectCase) -> Result<PlannedCase, NoMemory>
        ensures { IfOk result (λ planned. IsCase (site_of self.now) case.now planned) }
    {
        match case {
            SelectCase::Send { channel, value } => Ok(PlannedCase::Send {
                channel: self.arg(channel)?,
                value: self.arg(value)?,
            }),
            SelectCase::Receive { channel } => Ok(PlannedCase::Receive {
                channel: self.arg(channel)?,
                zero: self.chan_zero(channel)?,
            }),
        }
    }

    pub fn range(&self, register: Option<u64>, operand: &Operand) -> Result<Step, NoMemory>
        ensures { IfOk result (λ step. IsStep (site_of self.now) register (instr.Range operand.now) step) }
    {
        Ok(Step::Range {
            operand: self.arg(operand)?,
            to: self.to(register)?,
        })
    }

    pub fn next(&self, register: Option<u64>, operand: &Operand) -> Result<Step, NoMemory>
        ensures { IfOk result (λ step. IsNext (site_of self.now) register operand.now step) }
    {
        let TypeTerm::Iter(over) = self.known_term(operand)? else {
            return Err(lost());
        };
        match self.planner.under(*over)? {
            TypeTerm::Map { key, elem } => self.next_map(register, operand, *key, *elem),
            _ => self.next_text(register, operand),
        }
    }

    fn next_map(
        &self,
        register: Option<u64>,
        operand: &Operand,
        key: TypeId,
        elem: TypeId,
    ) -> Result<Step, NoMemory>
        ensures { let s = site_of self.now in key_in (ranged s.code (ir.term_of s.code s.function operand.now)) ≡ Some key → value_in (ranged s.code (ir.term_of s.code s.function operand.now)) ≡ Some elem → IfOk result (λ step. IsNext s register operand.now step) }
    {
        Ok(Step::NextMap {
            range: self.range_slot(operand)?,
            key: self.planner.held_zero(key)?,
            value: self.planner.held_zero(elem)?,
            to: self.to(register)?,
        })
    }

    fn next_text(&self, register: Option<u64>, operand: &Operand) -> Result<Step, NoMemory>
        ensures { IfOk result (λ step. IsNext (site_of self.now) register operand.now step) }
    {
        Ok(Step::NextText {
            range: self.range_slot(operand)?,
            to: self.to(register)?,
        })
    }

    /// The slot of the register in which the state of a range is kept.
    fn range_slot(&self, operand: &Operand) -> Result<u32, NoMemory>
        ensures { IfOk result (λ slot. IsRange (site_of self.now) operand.now slot) }
    {
        let Operand::Register(register) = operand else {
            return Err(lost());
        };
        match mark_at(self.marks, *register) {
            Mark::Plain => self.slot(*register),
            _ => Err(lost()),
        }
    }
}
