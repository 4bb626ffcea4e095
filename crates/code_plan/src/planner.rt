//! What is read of a code while it is planned.

ghost use Rattle.std.specs.Prelude.{◌≡◌};
ghost use Rattle.ssa_mean.specs.Zeros.{blank_from};

use crate::error::{lost, small};
use go_base::{NameId, NoMemory, TypeId};
use go_type::{Basic, MAX_NESTING, TypeTerm, Types, leaves_up_to};
use go_value::{Value, zero_value};
use ssa_ir::Code;
use std::alloc::Global;

/// A code that is planned.
#[derive(Clone, Copy)]
pub(crate) struct Planner<'a> {
    pub alloc: Global,
    pub code: &'a Code,
    /// The name `_`.
    pub blank: Option<NameId>,
    ghost blank_is: { blank ≡ blank_from 0 code.now.names },
}

impl<'a> Planner<'a> {
    ghost use Rattle.std.specs.Prelude.{◌≡◌, ◌==◌, Some, IfOk};
    ghost use Rattle.code_plan.specs.Calls.{counted_leaves};
    ghost use Rattle.go_value.specs.Values.{value_of};
    ghost use Rattle.ssa_mean.specs.Conversions.{are_bytes};
    ghost use Rattle.ssa_mean.specs.Making.{leaves_of};
    ghost use Rattle.ssa_mean.specs.Operands.{under};
    ghost use Rattle.ssa_mean.specs.Zeros.{zero_of};

    pub fn new(alloc: Global, code: &'a Code) -> Planner<'a>
        ensures { result.code.now ≡ code.now }
    {
        Planner {
            alloc,
            code,
            blank: code.names.find("_"),
        }
    }

    pub fn types(&self) -> &Types
        ensures { result.now ≡ self.now.code.now.types }
    {
        &self.code.types
    }

    /// The underlying term of a type.
    pub fn under(&self, of: TypeId) -> Result<&TypeTerm, NoMemory>
        ensures { IfOk result (λ term. under self.now.code.now (Some of) ≡ Some term.now) }
    {
        match self.code.types.underlying_term(of) {
            Some(term) => Ok(term),
            None => Err(lost()),
        }
    }

    /// Whether a type is that of bytes.
    pub fn is_byte(&self, of: TypeId) -> bool
        ensures { result ≡ are_bytes self.now.code.now.types (Some of) }
    {
        matches!(
            self.code.types.underlying_term(of),
            Some(TypeTerm::Basic(Basic::Uint8))
        )
    }

    /// The zero value of a type.
    pub fn zero(&self, of: TypeId) -> Result<Value, NoMemory>
        ensures { IfOk result (λ zero. zero_of self.now.code.now of ≡ Some (value_of zero)) }
    {
        zero_value(self.alloc, self.types(), self.blank, of)
    }

    /// The zero value of a type, as a step holds it.
    pub fn held_zero(&self, of: TypeId) -> Result<Box<Value>, NoMemory>
        ensures { IfOk result (λ zero. zero_of self.now.code.now of ≡ Some (value_of zero.value)) }
    {
        Ok(Box::new(self.alloc, self.zero(of)?)?)
    }

    /// How many leaves a type has. A slice has at most 16,777,216, so that more are as many.
    pub fn leaves(&self, of: TypeId) -> Result<u32, NoMemory>
        ensures { IfOk result (λ leaves. leaves ≡ counted_leaves (leaves_of self.now.code.now.types of)) }
    {
        small(leaves_up_to(self.types(), of, 16_777_217, MAX_NESTING))
    }
}
