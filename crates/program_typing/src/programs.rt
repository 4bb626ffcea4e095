//! The test of whole programs.

ghost use Rattle.std.specs.Prelude.{◌≡◌, Some, IfOk, IsTrue};
ghost use Rattle.go_type.specs.Table.{term_at};
ghost use Rattle.program_typing.specs.Walk.{is_bare};
ghost use Rattle.typed_trees.specs.Around.{is_plain, signature_in};
ghost use Rattle.typed_trees.specs.Programs as programs;
ghost use Rattle.typed_trees.specs.Tests.{Tests, AreTold};

use crate::functions::fit_functions;
use crate::initialisers::fit_steps;
use go_base::{FuncId, NoMemory, TypeId};
use go_tree::{FunctionForm, Program};
use go_type::{Signature, TypeTerm, Types};
use std::alloc::Global;

/// Whether a program is typed: each node has parts of the types that it needs, and each name, field and method that a
/// node selects exists.
pub fn is_program(alloc: Global, program: &Program) -> Result<bool, NoMemory>
    ensures typed { IfOk result (λ r. IsTrue r → programs.IsTypedProgram program.now) }
    ensures exact { (tests : Tests) → AreTold program.now.types tests → IfOk result (λ r. r ≡ programs.fits_program program.now tests) }
{
    let functions = fit_functions(alloc, program)?;
    let steps = fit_steps(alloc, program)?;
    Ok(functions & (steps & fits_main(program)))
}

/// Whether `main.main` is a declared function with neither parameters nor results, where there is one. Go specification,
/// "Program execution".
fn fits_main(program: &Program) -> bool
    ensures { (tests : Tests) → result ≡ programs.fits_main program.now tests program.now.main }
{
    match program.main {
        Some(id) => is_main(program, id),
        None => true,
    }
}

fn is_main(program: &Program, id: FuncId) -> bool
    ensures { (tests : Tests) → result ≡ programs.fits_main program.now tests (Some id) }
{
    match program.functions.as_slice().get(id.number as usize) {
        Some(decl) => is_plain(decl.form) & is_bare(&program.types, decl.signature),
        None => false,
    }
}

fn is_plain(form: FunctionForm) -> bool
    ensures { result ≡ is_plain form }
{
    match form {
        FunctionForm::Function => true,
        FunctionForm::Method
        | FunctionForm::Init
        | FunctionForm::PackageInit
        | FunctionForm::Literal { .. } => false,
    }
}

/// Whether a type is one of functions without parameters and results.
fn is_bare(types: &Types, of: TypeId) -> bool
    ensures { result ≡ is_bare (signature_in (term_at types.now of)) }
{
    match types.get(of) {
        Some(TypeTerm::Func(signature)) => lacks_all(signature),
        _ => false,
    }
}

fn lacks_all(signature: &Signature) -> bool
    ensures { result ≡ is_bare (Some signature.now) }
{
    signature.params.as_slice().is_empty() & signature.results.as_slice().is_empty()
}
