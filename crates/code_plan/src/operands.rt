//! Operands where an instruction is planned: their types, and what they are to its step.

ghost use Rattle.std.specs.Prelude.{◌≡◌, Some, true, IfOk};
ghost use Rattle.std.specs.Option.{option_and_then, option_copied};
ghost use Rattle.code_plan.specs.Forms.{IsToWhere, kind_at};
ghost use Rattle.code_plan.specs.Operands.{IsArg, IsArgWhere, AreArgs, AreBounds, IsTo};
ghost use Rattle.code_plan.specs.Registers.{late_at, register_slot};
ghost use Rattle.code_plan.specs.Sites.{site_of};
ghost use Rattle.go_value.specs.Values.{value_of};
ghost use Rattle.go_value.specs.Values as vals;
ghost use Rattle.ssa_ir.specs.declared.operands.Operand.TheVariants as operand_of;
ghost use Rattle.ssa_mean.specs.BuiltIns.{is_text_term};
ghost use Rattle.ssa_mean.specs.Operands as ir;

use crate::error::{lost, small};
use crate::late::{LateLoad, Mark, mark_at};
use crate::planner::Planner;
use crate::steps::{Arg, Bounds};
use go_base::{Bytes, CellId, FuncId, NoMemory, TypeId, VarId};
use go_type::{Basic, IntKind, Signature, TypeTerm, int_kind};
use go_value::{Address, FuncValue, Value};
use ssa_ir::{ConstValue, Function, Operand};

/// Where operands are planned: in a function, with loads that are still to be made.
#[derive(Clone, Copy)]
pub(crate) struct Place<'a> {
    pub planner: &'a Planner<'a>,
    pub function: &'a Function,
    pub marks: &'a [Mark],
    pub pending: &'a [LateLoad],
}

impl Place<'_> {
    /// The type of an operand, where the code has it.
    pub fn type_of(&self, operand: &Operand) -> Result<Option<TypeId>, NoMemory>
        ensures { let s = site_of self.now in IfOk result (λ of. of ≡ ir.type_of s.code s.function operand.now) }
    {
        match operand {
            Operand::Param(number) => {
                Ok(
                    self.function
                        .params
                        .as_slice()
                        .get(*number as usize)
                        .copied(),
                )
            }
            Operand::Free(number) => {
                Ok(self.function.free.as_slice().get(*number as usize).copied())
            }
            Operand::Register(number) => {
                Ok(
                    self.function
                        .registers
                        .as_slice()
                        .get(*number as usize)
                        .copied(),
                )
            }
            Operand::Function(made) => self.function_type(*made),
            Operand::Variable(variable) => Ok(self.variable_pointer(*variable)),
            Operand::Constant { of, .. } => Ok(Some(*of)),
        }
    }

    /// The type of a function that is a value.
    fn function_type(&self, made: FuncId) -> Result<Option<TypeId>, NoMemory>
        ensures { let s = site_of self.now in IfOk result (λ of. of ≡ option_and_then (ir.function_type s.code) (ir.function_at s.code made)) }
    {
        let functions = self.planner.code.functions.as_slice();
        let Some(made) = functions.get(made.number as usize) else {
            return Ok(None);
        };
        let signature = Signature {
            params: made.params.copy(self.planner.alloc)?,
            results: made.results.copy(self.planner.alloc)?,
            variadic: made.variadic,
        };
        Ok(self.planner.types().find(&TypeTerm::Func(signature)))
    }

    /// The type of a package variable.
    pub fn variable_type(&self, variable: VarId) -> Option<TypeId>
        ensures { let s = site_of self.now in result ≡ ir.variable_type s.code variable }
    {
        let variables = self.planner.code.variables.as_slice();
        match variables.get(variable.number as usize) {
            Some(variable) => Some(variable.of),
            None => None,
        }
    }

    /// The type of the address of a package variable.
    fn variable_pointer(&self, variable: VarId) -> Option<TypeId>
        ensures { let s = site_of self.now in result ≡ option_and_then (ir.pointer_type s.code) (ir.variable_type s.code variable) }
    {
        match self.variable_type(variable) {
            Some(base) => self.planner.types().find(&TypeTerm::Pointer(base)),
            None => None,
        }
    }

    /// The underlying term of the type of an operand, where the code has it.
    pub fn term_of(&self, operand: &Operand) -> Result<Option<&TypeTerm>, NoMemory>
        ensures { let s = site_of self.now in IfOk result (λ term. option_copied term ≡ ir.term_of s.code s.function operand.now) }
    {
        match self.type_of(operand)? {
            Some(of) => Ok(self.planner.types().underlying_term(of)),
            None => Ok(None),
        }
    }

    /// The underlying term of the type of an operand.
    pub fn known_term(&self, operand: &Operand) -> Result<&TypeTerm, NoMemory>
        ensures { let s = site_of self.now in IfOk result (λ term. ir.term_of s.code s.function operand.now ≡ Some term.now) }
    {
        match self.term_of(operand)? {
            Some(term) => Ok(term),
            None => Err(lost()),
        }
    }

    /// The width and the sign of an operand's type, where it is one of integers.
    pub fn kind_of(&self, operand: &Operand) -> Result<Option<IntKind>, NoMemory>
        ensures { let s = site_of self.now in IfOk result (λ kind. kind ≡ kind_at s operand.now) }
    {
        match self.type_of(operand)? {
            Some(of) => Ok(int_kind(self.planner.types(), of)),
            None => Ok(None),
        }
    }

    /// Whether an operand is a text.
    pub fn is_text(&self, operand: &Operand) -> Result<bool, NoMemory>
        ensures { let s = site_of self.now in IfOk result (λ it. it ≡ is_text_term (ir.term_of s.code s.function operand.now)) }
    {
        Ok(matches!(self.term_of(operand)?, Some(TypeTerm::Basic(Basic::Text))))
    }

    /// The slot of a register.
    pub fn slot(&self, register: u64) -> Result<u32, NoMemory>
        ensures { let s = site_of self.now in IfOk result (λ slot. slot ≡ register_slot s.function register) }
    {
        let params = self.function.params.as_slice().len() as u64;
        let free = self.function.free.as_slice().len() as u64;
        small(params.saturating_add(free.saturating_add(register)))
    }

    /// The slot of the register that an instruction gives.
    pub fn to(&self, register: Option<u64>) -> Result<u32, NoMemory>
        ensures { let s = site_of self.now in IfOk result (λ slot. IsTo s register slot) }
    {
        match register {
            Some(register) => self.slot(register),
            None => Err(lost()),
        }
    }

    /// The slot of the register that an instruction may give.
    pub fn to_where(&self, register: Option<u64>) -> Result<Option<u32>, NoMemory>
        ensures { let s = site_of self.now in IfOk result (λ slot. IsToWhere s register slot) }
    {
        match register {
            Some(register) => Ok(Some(self.slot(register)?)),
            None => Ok(None),
        }
    }

    /// The cell from which a register is still to be loaded.
    fn pending_cell(&self, register: u64) -> Option<u64>
        ensures { let s = site_of self.now in result ≡ late_at s.pending register }
    {
        let mut found = None;
        for load in self.pending {
            if load.register == register {
                found = Some(load.cell);
            }
        }
        found
    }

    /// An operand.
    pub fn arg(&self, operand: &Operand) -> Result<Arg, NoMemory>
        ensures { let s = site_of self.now in IfOk result (λ it. IsArg s operand.now it) }
    {
        match operand {
            Operand::Param(number) => self.param(*number),
            Operand::Free(number) => self.free(*number),
            Operand::Register(number) => self.register(*number),
            Operand::Function(made) => self.made_function(*made),
            Operand::Variable(variable) => self.variable(*variable),
            Operand::Constant { value, of } => self.constant(value, *of),
        }
    }

    fn param(&self, number: u64) -> Result<Arg, NoMemory>
        ensures { let s = site_of self.now in IfOk result (λ it. IsArg s (operand_of.Param number) it) }
    {
        if number >= self.function.params.as_slice().len() as u64 {
            return Err(lost());
        }
        Ok(Arg::Slot(small(number)?))
    }

    fn free(&self, number: u64) -> Result<Arg, NoMemory>
        ensures { let s = site_of self.now in IfOk result (λ it. IsArg s (operand_of.Free number) it) }
    {
        if number >= self.function.free.as_slice().len() as u64 {
            return Err(lost());
        }
        let params = self.function.params.as_slice().len() as u64;
        Ok(Arg::Slot(small(params.saturating_add(number))?))
    }

    fn register(&self, number: u64) -> Result<Arg, NoMemory>
        ensures { let s = site_of self.now in IfOk result (λ it. IsArg s (operand_of.Register number) it) }
    {
        match mark_at(self.marks, number) {
            Mark::Late => self.late(number),
            _ => Ok(Arg::Slot(self.slot(number)?)),
        }
    }

    /// A register whose load is still to be made.
    fn late(&self, number: u64) -> Result<Arg, NoMemory>
        ensures { let s = site_of self.now in s.marks.late number ≡ true → IfOk result (λ it. IsArg s (operand_of.Register number) it) }
    {
        match self.pending_cell(number) {
            Some(cell) => Ok(Arg::Cell(self.slot(cell)?)),
            None => Err(lost()),
        }
    }

    fn made_function(&self, function: FuncId) -> Result<Arg, NoMemory>
        ensures { let s = site_of self.now in IfOk result (λ it. IsArg s (operand_of.Function function) it) }
    {
        let alloc = self.planner.alloc;
        let captured = Vec::new(alloc);
        let value = Value::function(alloc, FuncValue::Closure { function, captured })?;
        Ok(Arg::Held(self.boxed(value)?))
    }

    fn variable(&self, variable: VarId) -> Result<Arg, NoMemory>
        ensures { let s = site_of self.now in IfOk result (λ it. IsArg s (operand_of.Variable variable) it) }
    {
        let cell = CellId {
            number: variable.number,
        };
        Ok(Arg::Held(self.boxed(Value::Pointer(Address::whole(cell)))?))
    }

    fn constant(&self, value: &ConstValue, of: TypeId) -> Result<Arg, NoMemory>
        ensures { let s = site_of self.now in IfOk result (λ it. IsArg s (operand_of.Constant value.now of) it) }
    {
        Ok(Arg::Held(self.boxed(self.constant_value(value, of)?)?))
    }

    fn constant_value(&self, value: &ConstValue, of: TypeId) -> Result<Value, NoMemory>
        ensures { let s = site_of self.now in IfOk result (λ it. ir.constant_value s.code value.now of ≡ Some (value_of it)) }
    {
        match value {
            ConstValue::Int(number) => Ok(Value::Int(*number)),
            ConstValue::Truth(truth) => Ok(Value::Truth(*truth)),
            ConstValue::Text(bytes) => self.text(bytes),
            ConstValue::Nil | ConstValue::Zero => self.planner.zero(of),
        }
    }

    fn text(&self, bytes: &Bytes) -> Result<Value, NoMemory>
        ensures { IfOk result (λ it. value_of it ≡ vals.text bytes.now) }
    {
        let alloc = self.planner.alloc;
        Value::text(alloc, bytes.copy(alloc)?)
    }

    /// A value, as an operand holds it.
    fn boxed(&self, value: Value) -> Result<Box<Value>, NoMemory>
        ensures { IfOk result (λ it. it.value ≡ value) }
    {
        Ok(Box::new(self.planner.alloc, value)?)
    }

    /// Operands, in order.
    pub fn args(&self, operands: &[Operand]) -> Result<Vec<Arg>, NoMemory>
        ensures { let s = site_of self.now in IfOk result (λ it. AreArgs s operands.now it.items) }
    {
        let mut args = Vec::new(self.planner.alloc);
        for operand in operands {
            args.push(self.arg(operand)?)?;
        }
        Ok(args)
    }

    /// An operand that may be left out.
    fn arg_where(&self, operand: &Option<Operand>) -> Result<Option<Arg>, NoMemory>
        ensures { let s = site_of self.now in IfOk result (λ it. IsArgWhere s operand.now it) }
    {
        match operand {
            Some(operand) => Ok(Some(self.arg(operand)?)),
            None => Ok(None),
        }
    }

    /// Where a part begins and ends, and how far it may grow.
    pub fn bounds(
        &self,
        low: &Option<Operand>,
        high: &Option<Operand>,
        max: &Option<Operand>,
    ) -> Result<Box<Bounds>, NoMemory>
        ensures { let s = site_of self.now in IfOk result (λ it. AreBounds s low.now high.now max.now it.value) }
    {
        let bounds = Bounds {
            low: self.arg_where(low)?,
            high: self.arg_where(high)?,
            max: self.arg_where(max)?,
        };
        Ok(Box::new(self.planner.alloc, bounds)?)
    }
}
