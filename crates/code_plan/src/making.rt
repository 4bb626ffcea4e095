//! The steps of conversions, and of what makes interfaces, function values, channels and slices.

ghost use Rattle.std.specs.Prelude.{◌≡◌, Some, true, false, IfOk};
ghost use Rattle.go_base.specs.declared.ids.TypeId.{TypeId as TypeIdOf};
ghost use Rattle.code_plan.specs.Forms.{IsConversion, IsClosure, IsStep, wraps};
ghost use Rattle.code_plan.specs.Sites.{IsKept, site_of};
ghost use Rattle.ssa_ir.specs.declared.ops.Op.TheVariants as instr;
ghost use Rattle.ssa_ir.specs.declared.operands.Operand.{Operand as OperandOf};
ghost use Rattle.ssa_mean.specs.Making as making;
ghost use Rattle.ssa_mean.specs.Operands as ir;
ghost use Rattle.ssa_mean.specs.Unwinding.{is_wrapper_kind};

use crate::error::lost;
use crate::operands::Place;
use crate::steps::{ConvertForm, Step};
use go_base::{FuncId, NoMemory, TypeId};
use go_type::{TypeTerm, int_kind};
use go_value::BoundTarget;
use ssa_ir::{Function, FunctionKind, Operand};

impl Place<'_> {
    pub fn convert(
        &self,
        register: Option<u64>,
        of: TypeId,
        operand: &Operand,
    ) -> Result<Step, NoMemory>
        ensures { IfOk result (λ step. IsStep (site_of self.now) register (instr.Convert of operand.now) step) }
    {
        Ok(Step::Convert {
            form: self.convert_form(of, operand)?,
            operand: self.arg(operand)?,
            to: self.to(register)?,
        })
    }

    fn convert_form(&self, of: TypeId, operand: &Operand) -> Result<ConvertForm, NoMemory>
        ensures { IfOk result (λ form. IsConversion (site_of self.now) of operand.now form) }
    {
        if let TypeTerm::Slice(elem) = self.known_term(operand)? {
            return Ok(self.to_text(*elem));
        }
        if let TypeTerm::Slice(elem) = self.planner.under(of)? {
            return Ok(self.from_text(*elem));
        }
        match int_kind(self.planner.types(), of) {
            Some(kind) => Ok(ConvertForm::Int(kind)),
            None => Ok(ConvertForm::IntToText),
        }
    }

    /// The conversion of a slice of elements of a type.
    fn to_text(&self, elem: TypeId) -> ConvertForm
        ensures { let s = site_of self.now in (of : TypeIdOf) (it : OperandOf) → ir.element_in (ir.term_of s.code s.function it) ≡ Some elem → IsConversion s of it result }
    {
        if self.planner.is_byte(elem) {
            ConvertForm::BytesToText
        } else {
            ConvertForm::RunesToText
        }
    }

    /// The conversion to a slice of elements of a type.
    fn from_text(&self, elem: TypeId) -> ConvertForm
        ensures { let s = site_of self.now in (of : TypeIdOf) (it : OperandOf) → ir.element_in (ir.under s.code (Some of)) ≡ Some elem → IsConversion s of it result }
    {
        if self.planner.is_byte(elem) {
            ConvertForm::TextToBytes
        } else {
            ConvertForm::TextToRunes
        }
    }

    /// A value that stays as it is.
    pub fn keep(&self, register: Option<u64>, operand: &Operand) -> Result<Step, NoMemory>
        ensures { IfOk result (λ step. IsKept (site_of self.now) register operand.now step) }
    {
        Ok(Step::Keep {
            operand: self.arg(operand)?,
            to: self.to(register)?,
        })
    }

    pub fn make_interface(&self, register: Option<u64>, operand: &Operand) -> Result<Step, NoMemory>
        ensures { (of : TypeIdOf) → IfOk result (λ step. IsStep (site_of self.now) register (instr.MakeInterface of operand.now) step) }
    {
        let Some(of) = self.type_of(operand)? else {
            return Err(lost());
        };
        Ok(Step::MakeInterface {
            of,
            operand: self.arg(operand)?,
            to: self.to(register)?,
        })
    }

    /// A closure over what is captured, or the method that a wrapper is with the receiver that it binds.
    pub fn make_closure(
        &self,
        register: Option<u64>,
        id: FuncId,
        captured: &[Operand],
    ) -> Result<Step, NoMemory>
        ensures { IfOk result (λ step. IsClosure (site_of self.now) register id captured.now step) }
    {
        let functions = self.planner.code.functions.as_slice();
        let Some(made) = functions.get(id.number as usize) else {
            return Err(lost());
        };
        match made.kind {
            FunctionKind::Wrapper => self.bind(register, id, made, captured),
            _ => self.closure(register, id, captured),
        }
    }

    fn closure(
        &self,
        register: Option<u64>,
        id: FuncId,
        captured: &[Operand],
    ) -> Result<Step, NoMemory>
        ensures { wraps (site_of self.now) id ≡ Some false → IfOk result (λ step. IsClosure (site_of self.now) register id captured.now step) }
    {
        Ok(Step::Closure {
            function: id,
            captured: self.args(captured)?,
            to: self.to(register)?,
        })
    }

    fn bind(
        &self,
        register: Option<u64>,
        id: FuncId,
        wrapper: &Function,
        captured: &[Operand],
    ) -> Result<Step, NoMemory>
        ensures { ir.function_at (site_of self.now).code id ≡ Some wrapper.now → is_wrapper_kind wrapper.now.kind ≡ true → IfOk result (λ step. IsClosure (site_of self.now) register id captured.now step) }
    {
        let Some(receiver) = captured.first() else {
            return Err(lost());
        };
        Ok(Step::Bind {
            target: BoundTarget::Function(id),
            is_interface: self.binds_interface(wrapper),
            receiver: self.arg(receiver)?,
            to: self.to(register)?,
        })
    }

    /// Whether the receiver that a wrapper binds is of an interface type.
    fn binds_interface(&self, wrapper: &Function) -> bool
        ensures { result ≡ making.binds_interface (site_of self.now).code.types wrapper.now }
    {
        match wrapper.free.as_slice().first() {
            Some(of) => matches!(
                self.planner.types().underlying_term(*of),
                Some(TypeTerm::Interface(_))
            ),
            None => false,
        }
    }

    pub fn make_map(&self, register: Option<u64>) -> Result<Step, NoMemory>
        ensures { (of : TypeIdOf) → IfOk result (λ step. IsStep (site_of self.now) register (instr.MakeMap of) step) }
    {
        Ok(Step::MakeMap {
            to: self.to(register)?,
        })
    }

    pub fn make_chan(
        &self,
        register: Option<u64>,
        of: TypeId,
        size: &Operand,
    ) -> Result<Step, NoMemory>
        ensures { IfOk result (λ step. IsStep (site_of self.now) register (instr.MakeChan of size.now) step) }
    {
        let TypeTerm::Chan { elem, .. } = self.planner.under(of)? else {
            return Err(lost());
        };
        Ok(Step::MakeChan {
            leaves: self.planner.leaves(*elem)?,
            size: self.arg(size)?,
            to: self.to(register)?,
        })
    }

    pub fn make_slice(
        &self,
        register: Option<u64>,
        of: TypeId,
        len: &Operand,
        cap: &Operand,
    ) -> Result<Step, NoMemory>
        ensures { IfOk result (λ step. IsStep (site_of self.now) register (instr.MakeSlice of len.now cap.now) step) }
    {
        let TypeTerm::Slice(elem) = self.planner.under(of)? else {
            return Err(lost());
        };
        Ok(Step::MakeSlice {
            zero: self.planner.held_zero(*elem)?,
            leaves: self.planner.leaves(*elem)?,
            len: self.arg(len)?,
            cap: self.arg(cap)?,
            to: self.to(register)?,
        })
    }

    pub fn assert(
        &self,
        register: Option<u64>,
        operand: &Operand,
        wanted: TypeId,
        comma_ok: bool,
    ) -> Result<Step, NoMemory>
        ensures { IfOk result (λ step. IsStep (site_of self.now) register (instr.TypeAssert operand.now wanted comma_ok) step) }
    {
        Ok(Step::Assert {
            operand: self.arg(operand)?,
            wanted,
            zero: self.planner.held_zero(wanted)?,
            comma_ok,
            to: self.to(register)?,
        })
    }
}
