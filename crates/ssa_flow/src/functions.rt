//! Code of functions. Go specification, "Function declarations" and "Defer statements".

use crate::error::lost;
use go_base::{FuncId, NoMemory, Pos, TypeId, VarId};
use go_tree::{Body, FunctionDecl, FunctionForm, InitStep};
use go_type::{Signature, TypeIds, TypeTerm};
use ssa_expr::{Builder, lower_values};
use ssa_ir::{Call, Op, Operand, Operands};
use ssa_simple::{Flow, give, give_loaded};
use ssa_stmt::lower_block;

/// The body of a function: its entry, its statements, and its recover block.
pub(crate) fn lower_body(flow: &mut Flow<'_>, body: &Body) -> Result<(), NoMemory> {
    enter_function(&mut flow.builder, body)?;
    lower_block(flow, &body.block)?;
    if !flow.builder.is_ended() {
        let values = Vec::new(flow.builder.allocator());
        give(flow, body, values, true, body.block.end)?;
    }
    if body.has_defer {
        recover(flow, body)?;
    }
    Ok(())
}

/// The cells of results, then those of parameters, which hold the arguments.
fn enter_function(builder: &mut Builder<'_>, body: &Body) -> Result<(), NoMemory> {
    begin_results(builder, body)?;
    let mut number = 0u64;
    for var in body.params.as_slice() {
        enter_param(builder, *var, number)?;
        number = number.saturating_add(1);
    }
    Ok(())
}

fn begin_results(builder: &mut Builder<'_>, body: &Body) -> Result<(), NoMemory> {
    for var in body.results.as_slice() {
        builder.begin_var(*var)?;
    }
    Ok(())
}

fn enter_param(builder: &mut Builder<'_>, var: VarId, number: u64) -> Result<(), NoMemory> {
    let at = builder.variable(var)?.at;
    builder.begin_var(var)?;
    builder.write_var(var, Operand::Param(number), at)
}

/// Where the function goes on after a recovery.
fn recover(flow: &mut Flow<'_>, body: &Body) -> Result<(), NoMemory> {
    let block = flow.builder.add_block()?;
    flow.builder.set_recover(block);
    flow.enter(block)?;
    give_loaded(&mut flow.builder, body, body.block.at)
}

/// The initialisation of a package: its steps, then its functions named `init`.
pub(crate) fn lower_package_init(flow: &mut Flow<'_>, decl: &FunctionDecl) -> Result<(), NoMemory> {
    let program = flow.builder.program();
    lower_steps(
        &mut flow.builder,
        program.initialisers.as_slice(),
        decl.package,
    )?;
    call_inits(
        &mut flow.builder,
        program.functions.as_slice(),
        decl.package,
    )?;
    let given = Operands::new(flow.builder.allocator());
    flow.builder.effect(Op::Return(given), decl.at)
}

/// The steps of a package.
fn lower_steps(
    builder: &mut Builder<'_>,
    steps: &[InitStep],
    package: u32,
) -> Result<(), NoMemory> {
    for step in steps {
        if step.package == package {
            lower_step(builder, step)?;
        }
    }
    Ok(())
}

/// Calls of the functions named `init` of a package.
fn call_inits(
    builder: &mut Builder<'_>,
    functions: &[FunctionDecl],
    package: u32,
) -> Result<(), NoMemory> {
    let mut number = 0u64;
    for other in functions {
        if other.form == FunctionForm::Init && other.package == package {
            call_init(builder, number, other.at)?;
        }
        number = number.saturating_add(1);
    }
    Ok(())
}

fn call_init(builder: &mut Builder<'_>, number: u64, at: Pos) -> Result<(), NoMemory> {
    let call = Call::Static {
        function: FuncId { number },
        arguments: Operands::new(builder.allocator()),
    };
    builder.effect(Op::Call(call), at)
}

fn lower_step(builder: &mut Builder<'_>, step: &InitStep) -> Result<(), NoMemory> {
    let values = lower_values(builder, &step.values)?;
    let mut values = values.into_iter();
    for var in step.variables.as_slice() {
        let Some(value) = values.next() else {
            return Err(lost());
        };
        let at = builder.variable(*var)?.at;
        builder.write_var(*var, value, at)?;
    }
    Ok(())
}

/// The signature of a function.
pub(crate) fn signature_of(builder: &Builder<'_>, of: TypeId) -> Result<Signature, NoMemory> {
    match builder.under(of)? {
        TypeTerm::Func(signature) => signature.copy(builder.allocator()),
        _ => Err(lost()),
    }
}

/// The types of the parameters, the receiver first.
pub(crate) fn param_types(
    builder: &Builder<'_>,
    decl: &FunctionDecl,
    signature: &Signature,
) -> Result<TypeIds, NoMemory> {
    let mut params = TypeIds::new(builder.allocator());
    if let Some(receiver) = decl.receiver {
        params.push(receiver)?;
    }
    for param in signature.params.as_slice() {
        params.push(*param)?;
    }
    Ok(params)
}

/// The types of the free variables: pointers to what is captured.
pub(crate) fn free_types(builder: &mut Builder<'_>) -> Result<TypeIds, NoMemory> {
    let mut free = TypeIds::new(builder.allocator());
    let Some(body) = builder.body() else {
        return Ok(free);
    };
    for var in body.captured.as_slice() {
        let of = builder.variable(*var)?.of;
        free.push(builder.pointer_to(of)?)?;
    }
    Ok(free)
}
