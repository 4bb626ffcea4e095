//! The steps of cells, and of parts of values.

ghost use Rattle.std.specs.Prelude.{◌≡◌, ℕ, Option, Some, IfOk};
ghost use Rattle.code_plan.specs.Forms.{IsCut, IsIndex, IsIndexAddress, IsStep};
ghost use Rattle.code_plan.specs.Sites.{site_of};
ghost use Rattle.ssa_ir.specs.declared.ops.Op.TheVariants as instr;
ghost use Rattle.ssa_mean.specs.Operands as ir;

use crate::error::lost;
use crate::operands::Place;
use crate::steps::{CutForm, Step};
use go_base::{NoMemory, TypeId};
use go_type::TypeTerm;
use ssa_ir::Operand;

impl Place<'_> {
    pub fn new_cell(&self, register: Option<u64>, of: TypeId) -> Result<Step, NoMemory>
        ensures { IfOk result (λ step. IsStep (site_of self.now) register (instr.New of) step) }
    {
        Ok(Step::New {
            zero: self.planner.held_zero(of)?,
            to: self.to(register)?,
        })
    }

    pub fn load(&self, register: Option<u64>, at: &Operand) -> Result<Step, NoMemory>
        ensures { IfOk result (λ step. IsStep (site_of self.now) register (instr.Load at.now) step) }
    {
        Ok(Step::Load {
            at: self.arg(at)?,
            to: self.to(register)?,
        })
    }

    pub fn store(&self, at: &Operand, value: &Operand) -> Result<Step, NoMemory>
        ensures { (register : Option ℕ) → IfOk result (λ step. IsStep (site_of self.now) register (instr.Store at.now value.now) step) }
    {
        Ok(Step::Store {
            at: self.arg(at)?,
            value: self.arg(value)?,
        })
    }

    pub fn field(
        &self,
        register: Option<u64>,
        operand: &Operand,
        field: u32,
    ) -> Result<Step, NoMemory>
        ensures { IfOk result (λ step. IsStep (site_of self.now) register (instr.Field operand.now field) step) }
    {
        Ok(Step::Field {
            operand: self.arg(operand)?,
            field,
            to: self.to(register)?,
        })
    }

    pub fn field_address(
        &self,
        register: Option<u64>,
        operand: &Operand,
        field: u32,
    ) -> Result<Step, NoMemory>
        ensures { IfOk result (λ step. IsStep (site_of self.now) register (instr.FieldAddress operand.now field) step) }
    {
        Ok(Step::FieldAddress {
            operand: self.arg(operand)?,
            field,
            to: self.to(register)?,
        })
    }

    pub fn extract(
        &self,
        register: Option<u64>,
        operand: &Operand,
        part: u32,
    ) -> Result<Step, NoMemory>
        ensures { IfOk result (λ step. IsStep (site_of self.now) register (instr.Extract operand.now part) step) }
    {
        Ok(Step::Extract {
            operand: self.arg(operand)?,
            part,
            to: self.to(register)?,
        })
    }

    pub fn index(
        &self,
        register: Option<u64>,
        operand: &Operand,
        index: &Operand,
    ) -> Result<Step, NoMemory>
        ensures { IfOk result (λ step. IsIndex (site_of self.now) register operand.now index.now step) }
    {
        let to = self.to(register)?;
        let whole = self.arg(operand)?;
        let at = self.arg(index)?;
        if self.is_text(operand)? {
            return Ok(Step::Byte {
                operand: whole,
                index: at,
                to,
            });
        }
        Ok(Step::Element {
            operand: whole,
            index: at,
            to,
        })
    }

    pub fn index_address(
        &self,
        register: Option<u64>,
        operand: &Operand,
        index: &Operand,
    ) -> Result<Step, NoMemory>
        ensures { IfOk result (λ step. IsIndexAddress (site_of self.now) register operand.now index.now step) }
    {
        let to = self.to(register)?;
        let whole = self.arg(operand)?;
        let at = self.arg(index)?;
        match self.pointed_length(operand)? {
            Some(len) => Ok(Step::ArrayElement {
                operand: whole,
                index: at,
                len,
                to,
            }),
            None => Ok(Step::SliceElement {
                operand: whole,
                index: at,
                to,
            }),
        }
    }

    /// The type of what an operand points to. The address of a package variable needs no type of its own.
    fn pointed_type(&self, operand: &Operand) -> Result<Option<TypeId>, NoMemory>
        ensures { let s = site_of self.now in IfOk result (λ of. of ≡ ir.pointed_type s.code s.function operand.now) }
    {
        match operand {
            Operand::Variable(variable) => Ok(self.variable_type(*variable)),
            _ => self.base_type(operand),
        }
    }

    /// What a type of pointers points to.
    fn base_type(&self, operand: &Operand) -> Result<Option<TypeId>, NoMemory>
        ensures { let s = site_of self.now in IfOk result (λ of. of ≡ ir.base_of (ir.term_of s.code s.function operand.now)) }
    {
        match self.term_of(operand)? {
            Some(TypeTerm::Pointer(base)) => Ok(Some(*base)),
            _ => Ok(None),
        }
    }

    /// The length of the array that an operand points to. None where it is no pointer to an array.
    fn pointed_length(&self, operand: &Operand) -> Result<Option<u64>, NoMemory>
        ensures { let s = site_of self.now in IfOk result (λ len. len ≡ ir.pointed_length s.code s.function operand.now) }
    {
        match self.pointed_type(operand)? {
            Some(of) => Ok(self.array_length(of)),
            None => Ok(None),
        }
    }

    /// The length of an array of a type.
    fn array_length(&self, of: TypeId) -> Option<u64>
        ensures { result ≡ ir.length_in (ir.under (site_of self.now).code (Some of)) }
    {
        match self.planner.types().underlying_term(of) {
            Some(TypeTerm::Array { len, .. }) => Some(*len),
            _ => None,
        }
    }

    pub fn slice(
        &self,
        register: Option<u64>,
        operand: &Operand,
        low: &Option<Operand>,
        high: &Option<Operand>,
        max: &Option<Operand>,
    ) -> Result<Step, NoMemory>
        ensures { IfOk result (λ step. IsStep (site_of self.now) register (instr.Slice operand.now low.now high.now max.now) step) }
    {
        Ok(Step::Cut {
            form: self.cut_form(operand)?,
            operand: self.arg(operand)?,
            bounds: self.bounds(low, high, max)?,
            to: self.to(register)?,
        })
    }

    /// What is sliced.
    fn cut_form(&self, operand: &Operand) -> Result<CutForm, NoMemory>
        ensures { IfOk result (λ form. IsCut (site_of self.now) operand.now form) }
    {
        if let Some(len) = self.pointed_length(operand)? {
            return Ok(CutForm::Array(len));
        }
        if self.is_text(operand)? {
            Ok(CutForm::Text)
        } else {
            Ok(CutForm::Slice)
        }
    }

    pub fn lookup(
        &self,
        register: Option<u64>,
        map: &Operand,
        key: &Operand,
        comma_ok: bool,
    ) -> Result<Step, NoMemory>
        ensures { IfOk result (λ step. IsStep (site_of self.now) register (instr.Lookup map.now key.now comma_ok) step) }
    {
        let TypeTerm::Map { elem, .. } = self.known_term(map)? else {
            return Err(lost());
        };
        Ok(Step::Lookup {
            map: self.arg(map)?,
            key: self.arg(key)?,
            zero: self.planner.held_zero(*elem)?,
            comma_ok,
            to: self.to(register)?,
        })
    }

    pub fn update(&self, map: &Operand, key: &Operand, value: &Operand) -> Result<Step, NoMemory>
        ensures { (register : Option ℕ) → IfOk result (λ step. IsStep (site_of self.now) register (instr.Update map.now key.now value.now) step) }
    {
        Ok(Step::Update {
            map: self.arg(map)?,
            key: self.arg(key)?,
            value: self.arg(value)?,
        })
    }
}
