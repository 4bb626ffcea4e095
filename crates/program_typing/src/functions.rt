//! The test of functions. Go specification, "Function declarations", "Method declarations" and "Function literals".

ghost use Rattle.std.specs.Prelude.{◌≡◌, ◌∷◌, Some, IfOk};
ghost use Rattle.std.specs.List.{list_all};
ghost use Rattle.expr_typing.specs.Telling.{Told};
ghost use Rattle.program_typing.specs.Telling.{Gives, Tells};
ghost use Rattle.program_typing.specs.Walk as walk;
ghost use Rattle.typed_trees.specs.Programs as programs;

use crate::statements::fits_block;
use crate::within::inside;
use expr_typing::{Around, is_own_variable, variable_at};
use go_base::{FuncId, NoMemory, TypeId, VarId};
use go_tree::{Body, FunctionDecl, Program};
use go_type::{Signature, TypeTerm};
use std::alloc::Global;

/// Whether each function of a program has its body.
pub fn fit_functions(alloc: Global, program: &Program) -> Result<bool, NoMemory>
    ensures { (told : Told program.now.types) → IfOk result (λ r. r ≡ programs.fit_bodies program.now told.tests 0 program.now.functions program.now.bodies) }
{
    fit_bodies(
        alloc,
        program,
        program.functions.as_slice(),
        program.bodies.as_slice(),
    )
}

fn fit_bodies(
    alloc: Global,
    program: &Program,
    decls: &[FunctionDecl],
    bodies: &[Option<Body>],
) -> Result<bool, NoMemory>
    ensures { (told : Told program.now.types) → IfOk result (λ r. r ≡ programs.fit_bodies program.now told.tests 0 decls.now bodies.now) }
{
    if decls.len() != bodies.len() {
        return Ok(false);
    }
    for (number, decl) in decls.iter().enumerate() {
        let id = FuncId {
            number: number as u64,
        };
        if !fits_body(alloc, program, id, decl, &bodies[number])? {
            return Ok(false);
        }
    }
    Ok(true)
}

/// Whether a function has a body exactly where it is declared with one, and that fits.
fn fits_body(
    alloc: Global,
    program: &Program,
    id: FuncId,
    decl: &FunctionDecl,
    body: &Option<Body>,
) -> Result<bool, NoMemory>
    ensures { (told : Told program.now.types) → IfOk result (λ r. r ≡ programs.fits_body program.now told.tests id decl.now body.now) }
{
    match body {
        Some(body) => has_fit_body(alloc, program, id, decl, body),
        None => Ok(!decl.has_body),
    }
}

fn has_fit_body(
    alloc: Global,
    program: &Program,
    id: FuncId,
    decl: &FunctionDecl,
    body: &Body,
) -> Result<bool, NoMemory>
    ensures { (told : Told program.now.types) → IfOk result (λ r. r ≡ programs.fits_body program.now told.tests id decl.now (Some body.now)) }
{
    let around = Around {
        alloc,
        program,
        function: id,
        captured: body.captured.as_slice(),
    };
    let fits = fits_declared(around, body, decl)?;
    Ok(decl.has_body & fits)
}

/// Whether a body fits the type of its function.
fn fits_declared(around: Around<'_>, body: &Body, decl: &FunctionDecl) -> Result<bool, NoMemory>
    ensures { Tells around.entry result (λ a. programs.fits_declared a body.now decl.now) }
{
    match around.program.types.get(decl.signature) {
        Some(TypeTerm::Func(signature)) => fits_signature(around, body, decl.receiver, signature),
        _ => Ok(false),
    }
}

/// Whether parameters and results are variables of the function, what it captures are variables of others, and its
/// statements fit.
fn fits_signature(
    around: Around<'_>,
    body: &Body,
    receiver: Option<TypeId>,
    signature: &Signature,
) -> Result<bool, NoMemory>
    ensures { Tells around.entry result (λ a. programs.fits_signature a body.now receiver signature.now) }
{
    let params = has_params(
        around,
        body.params.as_slice(),
        receiver,
        signature.params.as_slice(),
    )?;
    let results = are_own(
        around,
        body.results.as_slice(),
        signature.results.as_slice(),
    );
    let captured = are_of_others(around, body.captured.as_slice());
    let block = fits_block(around, &body.block, inside(signature.results.as_slice()))?;
    Ok(params & (results & (captured & block)))
}

/// Whether variables are those of a receiver, where there is one, and of parameters of these types.
fn has_params(
    around: Around<'_>,
    ids: &[VarId],
    receiver: Option<TypeId>,
    params: &[TypeId],
) -> Result<bool, NoMemory>
    ensures { Tells around.entry result (λ a. walk.are_own a ids.now (programs.with_receiver receiver params.now)) }
{
    let types = with_receiver(around.alloc, receiver, params)?;
    Ok(are_own(around, ids, types.as_slice()))
}

/// The types of parameters, that of the receiver first.
fn with_receiver(
    alloc: Global,
    receiver: Option<TypeId>,
    params: &[TypeId],
) -> Result<Vec<TypeId>, NoMemory>
    ensures { IfOk result (λ types. types.items ≡ programs.with_receiver receiver params.now) }
{
    match receiver {
        Some(receiver) => with_first(alloc, receiver, params),
        None => Ok(Vec::from_slice(alloc, params)?),
    }
}

fn with_first(alloc: Global, first: TypeId, others: &[TypeId]) -> Result<Vec<TypeId>, NoMemory>
    ensures { IfOk result (λ types. types.items ≡ first ∷ others.now) }
{
    let mut types = Vec::new(alloc);
    types.push(first)?;
    types.extend_from_slice(others)?;
    Ok(types)
}

/// Whether variables are of the function itself and have these types, one each.
fn are_own(around: Around<'_>, ids: &[VarId], types: &[TypeId]) -> bool
    ensures { Gives around.entry result (λ a. walk.are_own a ids.now types.now) }
{
    if ids.len() != types.len() {
        return false;
    }
    for (index, id) in ids.iter().enumerate() {
        if !is_own_variable(around, *id, types[index]) {
            return false;
        }
    }
    true
}

/// Whether each is a variable of another function.
fn are_of_others(around: Around<'_>, ids: &[VarId]) -> bool
    ensures { Gives around.entry result (λ a. list_all (walk.is_of_other a) ids.now) }
{
    for id in ids {
        if !is_of_other(around, *id) {
            return false;
        }
    }
    true
}

fn is_of_other(around: Around<'_>, id: VarId) -> bool
    ensures { Gives around.entry result (λ a. walk.is_of_other a id) }
{
    match variable_at(around, id) {
        Some(it) => is_of_another(around.function, it.function),
        None => false,
    }
}

fn is_of_another(function: FuncId, own: Option<FuncId>) -> bool
    ensures { result ≡ programs.is_of_another function own }
{
    match own {
        Some(own) => own.number != function.number,
        None => false,
    }
}
