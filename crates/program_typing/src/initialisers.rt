//! The test of initialisers. Go specification, "Package initialization".

ghost use Rattle.std.specs.Prelude.{◌≡◌, ℕ, [], IfOk, OnOk, nat_eq};
ghost use Rattle.std.specs.HashMap.{get};
ghost use Rattle.std.specs.List.{list_all};
ghost use Rattle.go_tree.specs.declared.program.Program.{Program};
ghost use Rattle.expr_typing.specs.Telling.{Told};
ghost use Rattle.program_typing.specs.Initialisers.{Initialise, noted};
ghost use Rattle.program_typing.specs.Telling.{Gives, Tells};
ghost use Rattle.program_typing.specs.Walk as walk;
ghost use Rattle.typed_trees.specs.Programs as programs;
ghost use Rattle.typed_trees.specs.Tests.{Tests};

use crate::expressions::{values_are, variable_types};
use expr_typing::{Around, variable_at};
use go_base::{FuncId, NoMemory, VarId};
use go_tree::{FunctionDecl, FunctionForm, InitStep, Program};
use std::alloc::Global;
use std::collections::HashMap;

/// Whether each initialiser of a program fits.
pub fn fit_steps(alloc: Global, program: &Program) -> Result<bool, NoMemory>
    ensures { (told : Told program.now.types) → IfOk result (λ r. r ≡ list_all (programs.fits_step program.now told.tests) program.now.initialisers) }
{
    let numbers = numbers_of(alloc, program.functions.as_slice())?;
    fit_each(alloc, program, &numbers, program.initialisers.as_slice())
}

/// The number of the function that initialises each package that has one.
fn numbers_of(alloc: Global, functions: &[FunctionDecl]) -> Result<HashMap<u32, u64>, NoMemory>
    ensures { (p : Program) → p.functions ≡ functions.now → (tests : Tests) → IfOk result (Initialise p tests) }
{
    let mut numbers = HashMap::new(alloc);
    for (number, decl) in functions.iter().enumerate() {
        note(&mut numbers, number as u64, decl)?;
    }
    Ok(numbers)
}

/// The first function that initialises a package stays.
fn note(numbers: &mut HashMap<u32, u64>, number: u64, decl: &FunctionDecl) -> Result<(), NoMemory>
    ensures { (p : Program) (tests : Tests) (of : ℕ) → OnOk result (get nat_eq numbers.new of ≡ noted p tests number decl.now of (get nat_eq numbers.old of)) }
{
    if !is_initialiser(decl.form) {
        return Ok(());
    }
    if numbers.contains_key(&decl.package) {
        return Ok(());
    }
    numbers.insert(decl.package, number)?;
    Ok(())
}

fn is_initialiser(form: FunctionForm) -> bool
    ensures { result ≡ programs.is_initialiser form }
{
    match form {
        FunctionForm::PackageInit => true,
        FunctionForm::Function
        | FunctionForm::Method
        | FunctionForm::Init
        | FunctionForm::Literal { .. } => false,
    }
}

fn fit_each(
    alloc: Global,
    program: &Program,
    numbers: &HashMap<u32, u64>,
    steps: &[InitStep],
) -> Result<bool, NoMemory>
    ensures { (told : Told program.now.types) → Initialise program.now told.tests numbers.now → IfOk result (λ r. r ≡ list_all (programs.fits_step program.now told.tests) steps.now) }
{
    for step in steps {
        if !fits_step(alloc, program, numbers, step)? {
            return Ok(false);
        }
    }
    Ok(true)
}

/// Whether values are those of variables of packages.
fn fits_step(
    alloc: Global,
    program: &Program,
    numbers: &HashMap<u32, u64>,
    step: &InitStep,
) -> Result<bool, NoMemory>
    ensures { (told : Told program.now.types) → Initialise program.now told.tests numbers.now → IfOk result (λ r. r ≡ programs.fits_step program.now told.tests step.now) }
{
    match numbers.get(&step.package) {
        Some(number) => initialises(alloc, program, FuncId { number: *number }, step),
        None => Ok(false),
    }
}

fn initialises(
    alloc: Global,
    program: &Program,
    function: FuncId,
    step: &InitStep,
) -> Result<bool, NoMemory>
    ensures { (told : Told program.now.types) → IfOk result (λ r. r ≡ programs.initialises_in program.now told.tests (programs.within_function program.now told.tests function []) step.now) }
{
    let around = Around {
        alloc,
        program,
        function,
        captured: &[],
    };
    initialises_in(around, step)
}

fn initialises_in(around: Around<'_>, step: &InitStep) -> Result<bool, NoMemory>
    ensures { Tells around.entry result (λ a. walk.initialises_in a step.now) }
{
    let types = variable_types(around, step.variables.as_slice())?;
    let are = values_are(around, &step.values, types.as_slice())?;
    Ok(are_of_packages(around, step.variables.as_slice()) & are)
}

/// Whether each is a variable of a package.
fn are_of_packages(around: Around<'_>, ids: &[VarId]) -> bool
    ensures { Gives around.entry result (λ a. list_all (walk.is_of_a_package a) ids.now) }
{
    for id in ids {
        if !is_of_a_package(around, *id) {
            return false;
        }
    }
    true
}

fn is_of_a_package(around: Around<'_>, id: VarId) -> bool
    ensures { Gives around.entry result (λ a. walk.is_of_a_package a id) }
{
    match variable_at(around, id) {
        Some(it) => it.function.is_none(),
        None => false,
    }
}
