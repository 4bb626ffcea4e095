//! The steps of calls.

ghost use Rattle.std.specs.Prelude.{◌≡◌, ℕ, Option, Some, IfOk, option_map};
ghost use Rattle.code_plan.specs.Calls.{IsCall, IsCallee, meant_by, with_counted};
ghost use Rattle.code_plan.specs.Calls as calls;
ghost use Rattle.code_plan.specs.Forms.{IsStep};
ghost use Rattle.code_plan.specs.Sites.{site_of};
ghost use Rattle.go_type.specs.declared.operators.Builtin.TheVariants as called;
ghost use Rattle.ssa_ir.specs.declared.ops.Op.TheVariants as instr;
ghost use Rattle.ssa_mean.specs.BuiltIns.{built_in_of, append_of};
ghost use Rattle.ssa_mean.specs.Making.{leaves_of};
ghost use Rattle.ssa_mean.specs.Operands as ir;
ghost use Rattle.ssa_mean.specs.State.{appends_items, plain};

use crate::error::{lost, small};
use crate::operands::Place;
use crate::steps::{BuiltinForm, Callee, MethodName, PlannedCall, Step};
use go_base::{NoMemory, TypeId};
use go_type::{Basic, Builtin, TypeTerm};
use ssa_ir::{Call, Operand};

impl Place<'_> {
    pub fn call_step(&self, register: Option<u64>, call: &Call) -> Result<Step, NoMemory>
        ensures { IfOk result (λ step. IsStep (site_of self.now) register (instr.Call call.now) step) }
    {
        Ok(Step::Call {
            call: self.call(call)?,
            to: self.to_where(register)?,
        })
    }

    pub fn go(&self, call: &Call) -> Result<Step, NoMemory>
        ensures { (register : Option ℕ) → IfOk result (λ step. IsStep (site_of self.now) register (instr.Go call.now) step) }
    {
        Ok(Step::Go {
            call: self.call(call)?,
        })
    }

    /// A function that defers has a block that gives its results after a recovery.
    pub fn defer(&self, call: &Call) -> Result<Step, NoMemory>
        ensures { (register : Option ℕ) → IfOk result (λ step. IsStep (site_of self.now) register (instr.Defer call.now) step) }
    {
        if self.function.recover.is_none() {
            return Err(lost());
        }
        Ok(Step::Defer {
            call: self.call(call)?,
        })
    }

    fn call(&self, call: &Call) -> Result<PlannedCall, NoMemory>
        ensures { IfOk result (λ planned. IsCall (site_of self.now) call.now planned) }
    {
        Ok(PlannedCall {
            callee: self.callee(call)?,
            arguments: self.args(operands_of(call))?,
        })
    }

    fn callee(&self, call: &Call) -> Result<Callee, NoMemory>
        ensures { IfOk result (λ callee. IsCallee (site_of self.now) call.now callee) }
    {
        match call {
            Call::Static { function, .. } => Ok(Callee::Function(small(function.number)?)),
            Call::Dynamic { callee, .. } => Ok(Callee::Value(self.arg(callee)?)),
            Call::Invoke {
                receiver,
                name,
                package,
                ..
            } => Ok(Callee::Method {
                receiver: self.arg(receiver)?,
                method: MethodName {
                    name: *name,
                    package: *package,
                },
            }),
            Call::Builtin { builtin, arguments } => {
                Ok(Callee::Builtin(self.builtin(*builtin, arguments.as_slice())?))
            }
        }
    }

    /// The form of a built-in function that its operands ask for.
    fn builtin(&self, builtin: Builtin, arguments: &[Operand]) -> Result<BuiltinForm, NoMemory>
        ensures { let s = site_of self.now in IfOk result (λ form. option_map with_counted (built_in_of s.code s.function builtin arguments.now) ≡ Some (meant_by form)) }
    {
        match builtin {
            Builtin::Append => self.append(arguments),
            Builtin::Cap => Ok(BuiltinForm::Cap),
            Builtin::Clear => self.clear(arguments),
            Builtin::Close => Ok(BuiltinForm::Close),
            Builtin::Copy => self.copy(arguments),
            Builtin::Delete => Ok(BuiltinForm::Delete),
            Builtin::Len => Ok(BuiltinForm::Len),
            Builtin::Max => Ok(BuiltinForm::Max),
            Builtin::Min => Ok(BuiltinForm::Min),
            Builtin::Panic => Ok(BuiltinForm::Panic),
            Builtin::Print => Ok(BuiltinForm::Print),
            Builtin::Println => Ok(BuiltinForm::Println),
            Builtin::Recover => Ok(BuiltinForm::Recover),
            Builtin::Make | Builtin::New => Err(lost()),
        }
    }

    fn append(&self, arguments: &[Operand]) -> Result<BuiltinForm, NoMemory>
        ensures { let s = site_of self.now in IfOk result (λ form. option_map with_counted (built_in_of s.code s.function called.Append arguments.now) ≡ Some (meant_by form)) }
    {
        let Some(first) = arguments.first() else {
            return Err(lost());
        };
        let TypeTerm::Slice(elem) = self.known_term(first)? else {
            return Err(lost());
        };
        match arguments {
            [_, second] => self.append_second(*elem, second),
            _ => self.append_items(*elem),
        }
    }

    /// A second operand that is a slice of the elements of the first, or a text for bytes, stands for its elements; any
    /// other is an item.
    fn append_second(&self, elem: TypeId, second: &Operand) -> Result<BuiltinForm, NoMemory>
        ensures { let s = site_of self.now in IfOk result (λ form. with_counted (append_of s.code elem (leaves_of s.code.types elem) (ir.term_of s.code s.function second.now)) ≡ meant_by form) }
    {
        let leaves = self.planner.leaves(elem)?;
        match self.term_of(second)? {
            Some(TypeTerm::Slice(of)) if *of == elem => Ok(BuiltinForm::AppendSlice { leaves }),
            Some(TypeTerm::Basic(Basic::Text)) if self.planner.is_byte(elem) => {
                Ok(BuiltinForm::AppendText { leaves })
            }
            _ => Ok(BuiltinForm::Append { leaves }),
        }
    }

    fn append_items(&self, elem: TypeId) -> Result<BuiltinForm, NoMemory>
        ensures { IfOk result (λ form. with_counted (appends_items (leaves_of (site_of self.now).code.types elem)) ≡ meant_by form) }
    {
        Ok(BuiltinForm::Append {
            leaves: self.planner.leaves(elem)?,
        })
    }

    fn clear(&self, arguments: &[Operand]) -> Result<BuiltinForm, NoMemory>
        ensures { let s = site_of self.now in IfOk result (λ form. option_map with_counted (built_in_of s.code s.function called.Clear arguments.now) ≡ Some (meant_by form)) }
    {
        let Some(first) = arguments.first() else {
            return Err(lost());
        };
        match self.known_term(first)? {
            TypeTerm::Slice(elem) => Ok(BuiltinForm::ClearSlice {
                zero: self.planner.held_zero(*elem)?,
            }),
            _ => Ok(BuiltinForm::ClearMap),
        }
    }

    fn copy(&self, arguments: &[Operand]) -> Result<BuiltinForm, NoMemory>
        ensures { IfOk result (λ form. meant_by form ≡ plain called.Copy) }
    {
        match arguments {
            [_, second] => self.copy_from(second),
            _ => Ok(BuiltinForm::Copy),
        }
    }

    fn copy_from(&self, operand: &Operand) -> Result<BuiltinForm, NoMemory>
        ensures { IfOk result (λ form. meant_by form ≡ plain called.Copy) }
    {
        if self.is_text(operand)? {
            Ok(BuiltinForm::CopyText)
        } else {
            Ok(BuiltinForm::Copy)
        }
    }
}

/// The operands that are the arguments of a call.
fn operands_of(call: &Call) -> &[Operand]
    ensures { result.now ≡ calls.operands_of call.now }
{
    match call {
        Call::Static { arguments, .. }
        | Call::Dynamic { arguments, .. }
        | Call::Invoke { arguments, .. }
        | Call::Builtin { arguments, .. } => arguments.as_slice(),
    }
}
