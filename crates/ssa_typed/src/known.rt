//! The types of operands.

ghost use Rattle.std.specs.Prelude.{◌≡◌, slice_get, option_copied};
ghost use Rattle.go_type.specs.Assignable.{underlying_term_of};
ghost use Rattle.go_type.specs.Table.{term_at};
ghost use Rattle.ssa_typed.specs.Operands.{function_at, is_signature, is_function_type, is_value, address_of, value_of, register_at, known, has_constant, is_known, is_operand, is_where, held_type, type_of, term_of, shape, is_integer_operand, is_truth_operand, is_any_operand, pointee_of, pointee};

use go_base::{FuncId, TypeId, VarId};
use go_type::{Const, Signature, TypeTerm, represent};
use ssa_ir::{Code, ConstValue, Function, FunctionKind, Operand};
use type_shapes::{
    base_of, has_nil, has_zero, is_any, is_integer, is_pointer_to, is_text, is_truth,
};

/// The type of an operand. Those of functions and of the addresses of package variables need not be held.
#[derive(Clone, Copy, PartialEq, Eq)]
pub enum Known {
    Held(TypeId),
    Function(FuncId),
    /// A pointer to the type.
    Address(TypeId),
}

/// A function of a code.
#[derive(Clone, Copy)]
pub struct Frame<'a> {
    pub code: &'a Code,
    pub function: &'a Function,
}

/// Whether a signature is that of a function.
pub fn is_signature(signature: &Signature, function: &Function) -> bool
    ensures { result ≡ is_signature signature.now function.now }
{
    signature.params.as_slice() == function.params.as_slice()
        && signature.results.as_slice() == function.results.as_slice()
        && signature.variadic == function.variadic
}

/// Whether a function that is an operand has no free variables and initialises no package.
pub fn is_value(function: &Function) -> bool
    ensures { result ≡ is_value function.now.kind function.now.free }
{
    match function.kind {
        FunctionKind::Init => false,
        _ => function.free.as_slice().is_empty(),
    }
}

/// The type at a place, where there is one.
fn type_at(types: &[TypeId], place: u64) -> Option<TypeId>
    ensures { result ≡ slice_get types.now place }
{
    match types.get(place as usize) {
        Some(of) => Some(*of),
        None => None,
    }
}

fn held(of: Option<TypeId>) -> Option<Known>
    ensures { result ≡ type_of of }
{
    match of {
        Some(of) => Some(Known::Held(of)),
        None => None,
    }
}

impl<'a> Frame<'a> {
    /// A function of the code.
    pub fn function_at(&self, id: FuncId) -> Option<&'a Function>
        ensures { option_copied result ≡ function_at self.now.code.now id }
    {
        self.code.functions.as_slice().get(id.number as usize)
    }

    fn variable_at(&self, id: VarId) -> Option<Known>
        ensures { result ≡ address_of (slice_get self.now.code.now.variables id.number) }
    {
        match self.code.variables.as_slice().get(id.number as usize) {
            Some(variable) => Some(Known::Address(variable.of)),
            None => None,
        }
    }

    /// The type of a register.
    pub fn register_at(&self, register: u64) -> Option<TypeId>
        ensures { result ≡ register_at self.now.function.now register }
    {
        type_at(self.function.registers.as_slice(), register)
    }

    /// The type of an operand. None where it names nothing that is held, or is a constant that its type has not.
    pub fn known(&self, operand: &Operand) -> Option<Known>
        ensures { result ≡ known self.now.code.now self.now.function.now operand.now }
    {
        match operand {
            Operand::Param(number) => held(type_at(self.function.params.as_slice(), *number)),
            Operand::Free(number) => held(type_at(self.function.free.as_slice(), *number)),
            Operand::Register(number) => held(self.register_at(*number)),
            Operand::Function(function) => self.function_value(*function),
            Operand::Variable(variable) => self.variable_at(*variable),
            Operand::Constant { value, of } => self.constant(value, *of),
        }
    }

    fn function_value(&self, id: FuncId) -> Option<Known>
        ensures { result ≡ value_of id (function_at self.now.code.now id) }
    {
        match self.function_at(id) {
            Some(function) if is_value(function) => Some(Known::Function(id)),
            _ => None,
        }
    }

    fn constant(&self, value: &ConstValue, of: TypeId) -> Option<Known>
        ensures { result ≡ known self.now.code.now self.now.function.now (Operand.Constant value.now of) }
    {
        if self.has_constant(value, of) {
            return Some(Known::Held(of));
        }
        None
    }

    fn has_constant(&self, value: &ConstValue, of: TypeId) -> bool
        ensures { result ≡ has_constant self.now.code.now.types value.now of }
    {
        match value {
            ConstValue::Int(value) => represent(&self.code.types, &Const::Int(*value), of),
            ConstValue::Truth(_) => is_truth(&self.code.types, of),
            ConstValue::Text(_) => is_text(&self.code.types, of),
            ConstValue::Nil => has_nil(&self.code.types, of),
            ConstValue::Zero => has_zero(&self.code.types, of),
        }
    }

    /// Whether an operand has a type.
    pub fn is(&self, operand: &Operand, of: TypeId) -> bool
        ensures { result ≡ is_operand self.now.code.now self.now.function.now operand.now of }
    {
        match self.known(operand) {
            Some(Known::Held(id)) => id == of,
            Some(Known::Function(id)) => self.is_type_of(of, id),
            Some(Known::Address(base)) => is_pointer_to(&self.code.types, of, base),
            None => false,
        }
    }

    /// Whether an operand has a type, where there is one.
    pub fn is_where(&self, operand: &Operand, of: Option<TypeId>) -> bool
        ensures { result ≡ is_where self.now.code.now self.now.function.now operand.now of }
    {
        match of {
            Some(of) => self.is(operand, of),
            None => false,
        }
    }

    /// Whether a type is that of a function.
    pub fn is_type_of(&self, of: TypeId, id: FuncId) -> bool
        ensures { result ≡ is_function_type (term_at self.now.code.now.types of) (function_at self.now.code.now id) }
    {
        match (self.code.types.get(of), self.function_at(id)) {
            (Some(TypeTerm::Func(signature)), Some(function)) => is_signature(signature, function),
            _ => false,
        }
    }

    /// Whether the underlying type of a type is that of a function.
    pub fn is_below_type_of(&self, of: TypeId, id: FuncId) -> bool
        ensures { result ≡ is_function_type (underlying_term_of self.now.code.now.types of) (function_at self.now.code.now id) }
    {
        match (self.code.types.underlying_term(of), self.function_at(id)) {
            (Some(TypeTerm::Func(signature)), Some(function)) => is_signature(signature, function),
            _ => false,
        }
    }

    /// The type of an operand that is neither a function nor an address.
    pub fn held_type(&self, operand: &Operand) -> Option<TypeId>
        ensures { result ≡ held_type (known self.now.code.now self.now.function.now operand.now) }
    {
        match self.known(operand) {
            Some(Known::Held(id)) => Some(id),
            _ => None,
        }
    }

    /// The underlying term of the type of such an operand.
    pub fn shape(&self, operand: &Operand) -> Option<&'a TypeTerm>
        ensures { option_copied result ≡ shape self.now.code.now self.now.function.now operand.now }
    {
        match self.held_type(operand) {
            Some(of) => self.code.types.underlying_term(of),
            None => None,
        }
    }

    pub fn is_integer_operand(&self, operand: &Operand) -> bool
        ensures { result ≡ is_integer_operand self.now.code.now self.now.function.now operand.now }
    {
        match self.held_type(operand) {
            Some(of) => is_integer(&self.code.types, of),
            None => false,
        }
    }

    pub fn is_truth_operand(&self, operand: &Operand) -> bool
        ensures { result ≡ is_truth_operand self.now.code.now self.now.function.now operand.now }
    {
        match self.held_type(operand) {
            Some(of) => is_truth(&self.code.types, of),
            None => false,
        }
    }

    /// Whether an operand has the type `interface{}`.
    pub fn is_any_operand(&self, operand: &Operand) -> bool
        ensures { result ≡ is_any_operand self.now.code.now self.now.function.now operand.now }
    {
        match self.held_type(operand) {
            Some(of) => is_any(&self.code.types, of),
            None => false,
        }
    }

    /// What an operand points to.
    pub fn pointee(&self, operand: &Operand) -> Option<TypeId>
        ensures { result ≡ pointee self.now.code.now self.now.function.now operand.now }
    {
        match self.known(operand) {
            Some(Known::Held(id)) => base_of(&self.code.types, id),
            Some(Known::Address(base)) => Some(base),
            _ => None,
        }
    }
}
