//! Which first lines of functions are typed, and which instructions a function may hold.

ghost use Rattle.std.specs.Prelude.{◌≡◌};
ghost use Rattle.ssa_typed.specs.Typed.{is_wrapper, is_external, is_init, are_value_types, has_rest, is_bare, fits_kind, fits_header, is_allowed};

use crate::known::Frame;
use go_base::TypeId;
use go_type::{TypeTerm, Types};
use ssa_ir::{Call, Function, FunctionKind, Op};
use type_shapes::is_value_type;

/// Whether a function may hold an instruction: a wrapper has no dynamic call, `go` or `defer`, and what has a `defer` has a
/// recover block.
pub fn is_allowed(function: &Function, op: &Op) -> bool
    ensures { result ≡ is_allowed function.now op.now }
{
    match op {
        Op::Call(Call::Dynamic { .. }) | Op::Go(_) => !is_wrapper(function.kind),
        Op::Defer(_) => !is_wrapper(function.kind) && function.recover.is_some(),
        _ => true,
    }
}

fn is_wrapper(kind: FunctionKind) -> bool
    ensures { result ≡ is_wrapper kind }
{
    matches!(kind, FunctionKind::Wrapper)
}

/// Whether a function's first line is typed.
pub fn fits_header(frame: Frame) -> bool
    ensures { result ≡ fits_header frame.entry.code.now frame.entry.function.now }
{
    let types = &frame.code.types;
    let function = frame.function;
    are_value_types(types, function.params.as_slice())
        && are_value_types(types, function.free.as_slice())
        && are_value_types(types, function.results.as_slice())
        && has_rest(types, function.variadic, function.params.as_slice())
        && fits_kind(function)
}

/// Whether types are held, and none is a tuple or the state of a range.
fn are_value_types(types: &Types, ids: &[TypeId]) -> bool
    ensures { result ≡ are_value_types types.now ids.now }
{
    for id in ids {
        if !is_value_type(types, *id) {
            return false;
        }
    }
    true
}

/// Whether the last parameter of a variadic function has a type of the form `[]T`.
fn has_rest(types: &Types, variadic: bool, params: &[TypeId]) -> bool
    ensures { result ≡ has_rest types.now variadic params.now }
{
    if !variadic {
        return true;
    }
    match params.last() {
        Some(last) => matches!(types.get(*last), Some(TypeTerm::Slice(_))),
        None => false,
    }
}

/// Whether a function is external exactly where it has no blocks, and the initialisation of a package has no parameters,
/// free variables and results.
fn fits_kind(function: &Function) -> bool
    ensures { result ≡ fits_kind function.now }
{
    is_external(function.kind) == function.blocks.is_empty()
        && (!is_init(function.kind) || is_bare(function))
}

fn is_external(kind: FunctionKind) -> bool
    ensures { result ≡ is_external kind }
{
    matches!(kind, FunctionKind::External)
}

fn is_init(kind: FunctionKind) -> bool
    ensures { result ≡ is_init kind }
{
    matches!(kind, FunctionKind::Init)
}

fn is_bare(function: &Function) -> bool
    ensures { result ≡ is_bare function.now }
{
    function.params.as_slice().is_empty()
        && function.free.as_slice().is_empty()
        && function.results.as_slice().is_empty()
}
