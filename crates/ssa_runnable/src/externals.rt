//! Functions without bodies: they give no results, and `os.Exit` takes an integer.

ghost use Rattle.std.specs.Prelude.{◌≡◌};
ghost use Rattle.ssa_runnable.specs.Runnable.{fits_external, takes_status};
ghost use Rattle.ssa_runnable.specs.Tests.{externals_fit};

use go_base::TypeId;
use go_type::{Types, int_kind};
use ssa_ir::{Function, FunctionKind};

pub(crate) fn externals_fit(types: &Types, functions: &[Function]) -> bool
    ensures { result ≡ externals_fit types.now functions.now }
{
    for function in functions {
        if !fits_external(types, function) {
            return false;
        }
    }
    true
}

fn fits_external(types: &Types, function: &Function) -> bool
    ensures { result ≡ fits_external types.now function.now function.now.kind }
{
    match function.kind {
        FunctionKind::External => {
            function.results.as_slice().is_empty()
                && (function.name.as_str() != "os.Exit"
                    || takes_status(types, function.params.as_slice()))
        }
        _ => true,
    }
}

fn takes_status(types: &Types, params: &[TypeId]) -> bool
    ensures { result ≡ takes_status types.now params.now }
{
    match params {
        [of] => int_kind(types, *of).is_some(),
        _ => false,
    }
}
