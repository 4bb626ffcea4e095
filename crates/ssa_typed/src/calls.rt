//! Which types calls need.

ghost use Rattle.std.specs.Prelude.{◌≡◌, option_copied, is_some};
ghost use Rattle.go_type.specs.Assignable.{underlying_term_of};
ghost use Rattle.go_type.specs.Table.{term_at};
ghost use Rattle.ssa_typed.specs.Calls.{are_parts, gives_list, gives_results, method_named, method_type, term_where, signature_results, function_results, static_results, dynamic_results, results_of, fits_call, fits_deferred};
ghost use Rattle.ssa_typed.specs.Operands.{function_at, known, shape};
ghost use Rattle.type_shapes.specs.Shapes.{parts_of};

use crate::builtins::{fits_builtin, fits_deferred_builtin};
use crate::known::{Frame, Known, is_value};
use crate::pairs::are;
use go_base::{FuncId, NameId, TypeId};
use go_type::{MethodType, TypeTerm, Types};
use ssa_ir::{Call, Operand};
use type_shapes::parts;

/// Whether a call is typed that gives a register of a type, or none.
pub fn fits_call(frame: Frame, call: &Call, register: Option<TypeId>) -> bool
    ensures { result ≡ fits_call frame.entry.code.now frame.entry.function.now call.now register }
{
    match call {
        Call::Builtin { builtin, arguments } => {
            fits_builtin(frame, *builtin, arguments.as_slice(), register)
        }
        _ => gives_results(&frame.code.types, results_of(frame, call), register),
    }
}

/// Whether a call is typed whose results are let go.
pub fn fits_deferred(frame: Frame, call: &Call) -> bool
    ensures { result ≡ fits_deferred frame.entry.code.now frame.entry.function.now call.now }
{
    match call {
        Call::Builtin { builtin, arguments } => {
            fits_deferred_builtin(frame, *builtin, arguments.as_slice())
        }
        _ => results_of(frame, call).is_some(),
    }
}

fn gives_results(types: &Types, results: Option<&[TypeId]>, register: Option<TypeId>) -> bool
    ensures { result ≡ gives_results types.now (option_copied results.entry) register }
{
    match results {
        Some(results) => gives_list(types, results, register),
        None => false,
    }
}

/// Whether a register is given for results: none, one of the type of the one, or one of the tuple of several.
fn gives_list(types: &Types, results: &[TypeId], register: Option<TypeId>) -> bool
    ensures { result ≡ gives_list types.now results.now register }
{
    match (results, register) {
        ([], None) => true,
        ([one], Some(of)) => *one == of,
        ([_, _, ..], Some(of)) => are_parts(types, results, of),
        _ => false,
    }
}

fn are_parts(types: &Types, results: &[TypeId], of: TypeId) -> bool
    ensures { result ≡ are_parts results.now (parts_of (term_at types.now of)) }
{
    match parts(types, of) {
        Some(parts) => parts == results,
        None => false,
    }
}

/// The results of a call, where its arguments have the types that it needs.
fn results_of<'a>(frame: Frame<'a>, call: &Call) -> Option<&'a [TypeId]>
    ensures { option_copied result ≡ results_of frame.entry.code.now frame.entry.function.now call.now }
{
    match call {
        Call::Static {
            function,
            arguments,
        } => { static_results(frame, *function, arguments.as_slice()) }
        Call::Dynamic { callee, arguments } => {
            dynamic_results(frame, callee, arguments.as_slice())
        }
        Call::Invoke {
            receiver,
            name,
            package,
            arguments,
        } => invoke_results(frame, receiver, *name, *package, arguments.as_slice()),
        Call::Builtin { .. } => None,
    }
}

fn static_results<'a>(frame: Frame<'a>, id: FuncId, arguments: &[Operand]) -> Option<&'a [TypeId]>
    ensures { option_copied result ≡ static_results frame.entry.code.now frame.entry.function.now arguments.now (function_at frame.entry.code.now id) }
{
    match frame.function_at(id) {
        Some(function) if is_value(function) => function_results(frame, id, arguments),
        _ => None,
    }
}

fn function_results<'a>(frame: Frame<'a>, id: FuncId, arguments: &[Operand]) -> Option<&'a [TypeId]>
    ensures { option_copied result ≡ function_results frame.entry.code.now frame.entry.function.now arguments.now (function_at frame.entry.code.now id) }
{
    match frame.function_at(id) {
        Some(function) if are(frame, arguments, function.params.as_slice()) => {
            Some(function.results.as_slice())
        }
        _ => None,
    }
}

fn dynamic_results<'a>(
    frame: Frame<'a>,
    callee: &Operand,
    arguments: &[Operand],
) -> Option<&'a [TypeId]>
    ensures { option_copied result ≡ dynamic_results frame.entry.code.now frame.entry.function.now arguments.now (known frame.entry.code.now frame.entry.function.now callee.now) }
{
    match frame.known(callee) {
        Some(Known::Held(of)) => {
            signature_results(frame, arguments, frame.code.types.underlying_term(of))
        }
        Some(Known::Function(id)) => function_results(frame, id, arguments),
        _ => None,
    }
}

fn invoke_results<'a>(
    frame: Frame<'a>,
    receiver: &Operand,
    name: NameId,
    package: u32,
    arguments: &[Operand],
) -> Option<&'a [TypeId]>
    ensures { option_copied result ≡ signature_results frame.entry.code.now frame.entry.function.now arguments.now (term_where frame.entry.code.now.types (method_type name «package» (shape frame.entry.code.now frame.entry.function.now receiver.now))) }
{
    match method_type(frame, receiver, name, package) {
        Some(of) => signature_results(frame, arguments, frame.code.types.get(of)),
        None => None,
    }
}

fn signature_results<'a>(
    frame: Frame<'a>,
    arguments: &[Operand],
    term: Option<&'a TypeTerm>,
) -> Option<&'a [TypeId]>
    ensures { option_copied result ≡ signature_results frame.entry.code.now frame.entry.function.now arguments.now (option_copied term.entry) }
{
    match term {
        Some(TypeTerm::Func(signature)) if are(frame, arguments, signature.params.as_slice()) => {
            Some(signature.results.as_slice())
        }
        _ => None,
    }
}

/// The type of a method of an interface value.
fn method_type(frame: Frame, receiver: &Operand, name: NameId, package: u32) -> Option<TypeId>
    ensures { result ≡ method_type name «package» (shape frame.entry.code.now frame.entry.function.now receiver.now) }
{
    match frame.shape(receiver) {
        Some(TypeTerm::Interface(methods)) => method_named(methods.as_slice(), name, package),
        _ => None,
    }
}

fn method_named(methods: &[MethodType], name: NameId, package: u32) -> Option<TypeId>
    ensures { result ≡ method_named name «package» methods.now }
{
    for method in methods {
        if method.name == name && method.package == package {
            return Some(method.of);
        }
    }
    None
}
