//! What stands around a node, and what names stand for there. Go specification, "Declarations and scope".

ghost use Rattle.std.specs.Prelude.{◌≡◌, ◌&&◌, slice_get};
ghost use Rattle.type_shapes.specs.Shapes.{is_id};
ghost use Rattle.expr_typing.specs.Telling.{at_tests, function_type, literal_type, method_type_of};
ghost use Rattle.typed_trees.specs.Around as spec;
ghost use Rattle.typed_trees.specs.Tests.{Tests};

use go_base::{FuncId, TypeId, VarId};
use go_tree::{FunctionDecl, FunctionForm, Program, Variable};
use std::alloc::Global;
use type_shapes::is_id;

/// What stands around a node: the program, the function in whose body it is, the variables that this one captures.
#[derive(Clone, Copy)]
pub struct Around<'a> {
    pub alloc: Global,
    pub program: &'a Program,
    pub function: FuncId,
    pub captured: &'a [VarId],
}

/// A declared function.
fn function_at(around: Around<'_>, id: FuncId) -> Option<FunctionDecl>
    ensures { result ≡ slice_get around.entry.program.now.functions id.number }
{
    match around.program.functions.as_slice().get(id.number as usize) {
        Some(decl) => Some(*decl),
        None => None,
    }
}

/// The type of a declared function.
pub fn function_type(around: Around<'_>, id: FuncId) -> Option<TypeId>
    ensures { result ≡ function_type around.entry.program.now id }
{
    match function_at(around, id) {
        Some(decl) => plain_signature(decl),
        None => None,
    }
}

fn plain_signature(decl: FunctionDecl) -> Option<TypeId>
    ensures { result ≡ spec.only_if (spec.is_plain decl.form) decl.signature }
{
    match decl.form {
        FunctionForm::Function => Some(decl.signature),
        _ => None,
    }
}

/// The type of a literal of the function.
pub fn literal_type(around: Around<'_>, id: FuncId) -> Option<TypeId>
    ensures { result ≡ literal_type around.entry.program.now around.entry.function id }
{
    match function_at(around, id) {
        Some(decl) => literal_signature(decl, around.function),
        None => None,
    }
}

fn literal_signature(decl: FunctionDecl, function: FuncId) -> Option<TypeId>
    ensures { result ≡ spec.only_if (spec.is_literal_in function decl.form) decl.signature }
{
    match decl.form {
        FunctionForm::Literal { within } if within == function => Some(decl.signature),
        _ => None,
    }
}

/// The type of a declared method with a receiver of a type.
pub fn method_type_of(around: Around<'_>, id: FuncId, receiver: TypeId) -> Option<TypeId>
    ensures { result ≡ method_type_of around.entry.program.now id receiver }
{
    match function_at(around, id) {
        Some(decl) => method_signature(decl, receiver),
        None => None,
    }
}

fn method_signature(decl: FunctionDecl, receiver: TypeId) -> Option<TypeId>
    ensures { result ≡ spec.only_if (spec.is_method decl.form && is_id decl.receiver receiver) decl.signature }
{
    if is_method(decl.form) && is_id(decl.receiver, receiver) {
        return Some(decl.signature);
    }
    None
}

fn is_method(form: FunctionForm) -> bool
    ensures { result ≡ spec.is_method form }
{
    matches!(form, FunctionForm::Method)
}

/// A variable of the program.
pub fn variable_at(around: Around<'_>, id: VarId) -> Option<Variable>
    ensures { result ≡ slice_get around.entry.program.now.variables id.number }
{
    match around.program.variables.as_slice().get(id.number as usize) {
        Some(variable) => Some(*variable),
        None => None,
    }
}

/// Whether a variable can be named here, and has a type.
pub fn is_variable(around: Around<'_>, id: VarId, of: TypeId) -> bool
    ensures { (tests : Tests) → result ≡ spec.is_variable (at_tests around.entry tests) id of }
{
    match variable_at(around, id) {
        Some(variable) => variable.of == of && is_reached(around, id, variable.function),
        None => false,
    }
}

/// Whether a variable is one of a package, of the function, or one that it captures.
fn is_reached(around: Around<'_>, id: VarId, own: Option<FuncId>) -> bool
    ensures { result ≡ spec.is_reached around.entry.function around.entry.captured.now id own }
{
    match own {
        None => true,
        Some(own) => own == around.function || is_among(id, around.captured),
    }
}

fn is_among(id: VarId, ids: &[VarId]) -> bool
    ensures { result ≡ spec.is_among id ids.now }
{
    ids.iter().any(|it| it.number == id.number)
}

/// Whether a variable is one of the function itself, of a type.
pub fn is_own_variable(around: Around<'_>, id: VarId, of: TypeId) -> bool
    ensures { (tests : Tests) → result ≡ spec.is_own_variable (at_tests around.entry tests) id of }
{
    match variable_at(around, id) {
        Some(variable) => variable.of == of && is_own(around.function, variable.function),
        None => false,
    }
}

fn is_own(function: FuncId, own: Option<FuncId>) -> bool
    ensures { result ≡ spec.is_own function own }
{
    match own {
        Some(own) => own == function,
        None => false,
    }
}
