//! A function of a code, where its instructions are judged: the types of operands, and which types have a zero value.

ghost use Rattle.std.specs.Prelude.{◌≡◌, IfOk, slice_get};
ghost use Rattle.std.specs.Option.{option_and_then, option_copied};
ghost use Rattle.ssa_mean.specs.Operands as ir;
ghost use Rattle.ssa_runnable.specs.Runnable.{has_zero};
ghost use Rattle.ssa_runnable.specs.Zeros.{KnowsZeros};

use crate::zeros::zero_at;
use go_base::{FuncId, NoMemory, TypeId, VarId};
use go_type::{Signature, TypeTerm};
use ssa_ir::{Code, Function, Operand};
use std::alloc::Global;

#[derive(Clone, Copy)]
pub(crate) struct Site<'a> {
    pub alloc: Global,
    pub code: &'a Code,
    pub function: &'a Function,
    /// Whether each type has a zero value, by its number.
    pub zeros: &'a [bool],
    ghost zeros_known: { KnowsZeros code.now zeros.now },
}

impl Site<'_> {
    /// Whether a type has a zero value.
    pub fn has_zero(&self, of: TypeId) -> bool
        ensures { result ≡ has_zero self.now.code.now (Some of) }
    {
        zero_at(self.zeros, of)
    }

    /// Whether there is a type, and it has a zero value.
    pub fn has_zero_where(&self, of: Option<TypeId>) -> bool
        ensures { result ≡ has_zero self.now.code.now of }
    {
        match of {
            Some(of) => self.has_zero(of),
            None => false,
        }
    }

    /// The type of an operand, where the code has it.
    pub fn type_of(&self, operand: &Operand) -> Result<Option<TypeId>, NoMemory>
        ensures { IfOk result (λ of. of ≡ ir.type_of self.now.code.now self.now.function.now operand.now) }
    {
        Ok(match operand {
            Operand::Param(number) => type_at(self.function.params.as_slice(), *number),
            Operand::Free(number) => type_at(self.function.free.as_slice(), *number),
            Operand::Register(number) => type_at(self.function.registers.as_slice(), *number),
            Operand::Function(made) => self.function_type(*made)?,
            Operand::Variable(variable) => self.variable_pointer(*variable),
            Operand::Constant { of, .. } => Some(*of),
        })
    }

    /// The type of a function that is a value.
    fn function_type(&self, made: FuncId) -> Result<Option<TypeId>, NoMemory>
        ensures { let c = self.now.code.now in IfOk result (λ of. of ≡ option_and_then (ir.function_type c) (ir.function_at c made)) }
    {
        let functions = self.code.functions.as_slice();
        let Some(made) = functions.get(made.number as usize) else {
            return Ok(None);
        };
        let signature = Signature {
            params: made.params.copy(self.alloc)?,
            results: made.results.copy(self.alloc)?,
            variadic: made.variadic,
        };
        Ok(self.code.types.find(&TypeTerm::Func(signature)))
    }

    fn variable_type(&self, variable: VarId) -> Option<TypeId>
        ensures { result ≡ ir.variable_type self.now.code.now variable }
    {
        let variables = self.code.variables.as_slice();
        match variables.get(variable.number as usize) {
            Some(variable) => Some(variable.of),
            None => None,
        }
    }

    /// The type of the address of a package variable.
    fn variable_pointer(&self, variable: VarId) -> Option<TypeId>
        ensures { let c = self.now.code.now in result ≡ option_and_then (ir.pointer_type c) (ir.variable_type c variable) }
    {
        match self.variable_type(variable) {
            Some(base) => self.code.types.find(&TypeTerm::Pointer(base)),
            None => None,
        }
    }

    /// The underlying term of the type of an operand, where the code has it.
    pub fn term_of(&self, operand: &Operand) -> Result<Option<&TypeTerm>, NoMemory>
        ensures { IfOk result (λ term. option_copied term ≡ ir.term_of self.now.code.now self.now.function.now operand.now) }
    {
        match self.type_of(operand)? {
            Some(of) => Ok(self.code.types.underlying_term(of)),
            None => Ok(None),
        }
    }

    /// The type of the elements of what an operand is.
    pub fn element_type(&self, operand: &Operand) -> Result<Option<TypeId>, NoMemory>
        ensures { IfOk result (λ of. of ≡ ir.element_type self.now.code.now self.now.function.now operand.now) }
    {
        match self.type_of(operand)? {
            Some(of) => Ok(self.element_below(of)),
            None => Ok(None),
        }
    }

    /// The type of the elements of a type.
    pub fn element_below(&self, of: TypeId) -> Option<TypeId>
        ensures { result ≡ ir.element_in (ir.under self.now.code.now (Some of)) }
    {
        match self.code.types.underlying_term(of) {
            Some(
                TypeTerm::Slice(elem)
                | TypeTerm::Array { elem, .. }
                | TypeTerm::Map { elem, .. }
                | TypeTerm::Chan { elem, .. },
            ) => Some(*elem),
            _ => None,
        }
    }
}

/// The type at a place, where there is one.
fn type_at(types: &[TypeId], place: u64) -> Option<TypeId>
    ensures { result ≡ slice_get types.now place }
{
    match types.get(place as usize) {
        Some(of) => Some(*of),
        None => None,
    }
}
