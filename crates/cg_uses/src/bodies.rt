//! What stands in the bodies of a program: those of its functions and literals, and what initialises its packages.

ghost use Rattle.std.specs.Prelude.{◌≡◌, ◌++◌, IfOk, OnOk, flat_map};
ghost use Rattle.cg_nodes.specs.Places.{each_from};
ghost use Rattle.cg_uses.specs.Bodies as bodies;
ghost use Rattle.cg_uses.specs.Settings.{setting_of};

use crate::settings::{Around, variable_node};
use crate::statements::in_block;
use crate::targets::initialise;
use cg_nodes::{Called, Mention, Node, flow, put};
use go_base::{FuncId, NoMemory, VarId};
use go_tree::{Body, FunctionDecl, FunctionForm, InitStep, Program};
use std::alloc::Global;
use tree_facts::is_in_program;

/// What stands in a function: nothing where it is named `_`, or a literal in such a function.
pub fn uses(alloc: Global, program: &Program, function: FuncId) -> Result<Vec<Mention>, NoMemory>
    ensures { IfOk result (λ list. list.items ≡ bodies.uses program.now function) }
{
    let mut out = Vec::new(alloc);
    in_function(program, function, &mut out)?;
    Ok(out)
}

fn in_function(program: &Program, function: FuncId, out: &mut Vec<Mention>) -> Result<(), NoMemory>
    ensures { OnOk result (out.new.items ≡ out.old.items ++ bodies.uses program.now function) }
{
    match program.functions.as_slice().get(function.number as usize) {
        Some(decl) => in_declared(program, function, decl, out),
        None => Ok(()),
    }
}

#[tactic(auto, using(cg_nodes::proofs::Forms::types_of))]
fn in_declared(
    program: &Program,
    function: FuncId,
    decl: &FunctionDecl,
    out: &mut Vec<Mention>,
) -> Result<(), NoMemory>
    ensures { OnOk result (out.new.items ≡ out.old.items ++ bodies.declared_uses program.now function decl.now) }
{
    if !is_in_program(program, function) {
        return Ok(());
    }
    in_form(program, function, decl, out)
}

#[tactic(auto, unfolding(crate::specs::Bodies::form_uses))]
fn in_form(
    program: &Program,
    function: FuncId,
    decl: &FunctionDecl,
    out: &mut Vec<Mention>,
) -> Result<(), NoMemory>
    ensures { OnOk result (out.new.items ≡ out.old.items ++ bodies.form_uses program.now function decl.now decl.now.form) }
{
    match decl.form {
        FunctionForm::PackageInit => in_package(program, function, decl.package, out),
        FunctionForm::Function
        | FunctionForm::Method
        | FunctionForm::Init
        | FunctionForm::Literal { .. } => in_body_of(program, function, out),
    }
}

/// What initialises a package: its variables, and then its functions named `init`.
#[tactic(auto, using(cg_nodes::proofs::Forms::types_of), unfolding(crate::specs::Bodies::package_uses))]
fn in_package(
    program: &Program,
    function: FuncId,
    package: u32,
    out: &mut Vec<Mention>,
) -> Result<(), NoMemory>
    ensures { OnOk result (out.new.items ≡ out.old.items ++ bodies.package_uses program.now function «package») }
{
    let around = Around {
        types: &program.types,
        variables: program.variables.as_slice(),
        function,
        results: &[],
    };
    in_steps(&around, program.initialisers.as_slice(), package, out)?;
    call_inits(program.functions.as_slice(), package, out)
}

/// The initialisers of a package's variables.
fn in_steps(
    around: &Around,
    steps: &[InitStep],
    package: u32,
    out: &mut Vec<Mention>,
) -> Result<(), NoMemory>
    ensures { OnOk result (out.new.items ≡ out.old.items ++ flat_map (bodies.step_uses (setting_of around.now) «package») steps.now) }
{
    for step in steps {
        in_step(around, step, package, out)?;
    }
    Ok(())
}

#[tactic(auto, using(cg_nodes::proofs::Forms::types_of), unfolding(crate::specs::Bodies::step_uses))]
fn in_step(
    around: &Around,
    step: &InitStep,
    package: u32,
    out: &mut Vec<Mention>,
) -> Result<(), NoMemory>
    ensures { OnOk result (out.new.items ≡ out.old.items ++ bodies.step_uses (setting_of around.now) «package» step.now) }
{
    if step.package == package {
        return initialise(around, step.variables.as_slice(), &step.values, out);
    }
    Ok(())
}

/// The functions named `init` of a package are called, each at its name.
fn call_inits(
    functions: &[FunctionDecl],
    package: u32,
    out: &mut Vec<Mention>,
) -> Result<(), NoMemory>
    ensures { OnOk result (out.new.items ≡ out.old.items ++ each_from (bodies.init_uses «package») 0 functions.now) }
{
    for (number, decl) in functions.iter().enumerate() {
        call_init(number, decl, package, out)?;
    }
    Ok(())
}

#[tactic(auto, using(cg_nodes::proofs::Forms::types_of), unfolding(crate::specs::Bodies::init_uses))]
fn call_init(
    number: usize,
    decl: &FunctionDecl,
    package: u32,
    out: &mut Vec<Mention>,
) -> Result<(), NoMemory>
    ensures { OnOk result (out.new.items ≡ out.old.items ++ bodies.init_uses «package» number decl.now) }
{
    if is_init(decl.form) && decl.package == package {
        let called = Called::Fixed(FuncId {
            number: number as u64,
        });
        let at = decl.at;
        return put(Mention::Call { at, called }, out);
    }
    Ok(())
}

fn is_init(form: FunctionForm) -> bool
    ensures { result ≡ bodies.is_init form }
{
    match form {
        FunctionForm::Init => true,
        FunctionForm::Function
        | FunctionForm::Method
        | FunctionForm::PackageInit
        | FunctionForm::Literal { .. } => false,
    }
}

fn in_body_of(program: &Program, function: FuncId, out: &mut Vec<Mention>) -> Result<(), NoMemory>
    ensures { OnOk result (out.new.items ≡ out.old.items ++ bodies.uses_of_some program.now function) }
{
    match program.bodies.as_slice().get(function.number as usize) {
        Some(body) => in_body_if(program, function, body, out),
        None => Ok(()),
    }
}

#[tactic(auto, using(cg_nodes::proofs::Forms::types_of))]
fn in_body_if(
    program: &Program,
    function: FuncId,
    body: &Option<Body>,
    out: &mut Vec<Mention>,
) -> Result<(), NoMemory>
    ensures { OnOk result (out.new.items ≡ out.old.items ++ bodies.uses_if_body program.now function body.now) }
{
    match body {
        Some(body) => in_body(program, function, body, out),
        None => Ok(()),
    }
}

#[tactic(auto, using(cg_nodes::proofs::Forms::types_of), unfolding(crate::specs::Bodies::body_uses))]
fn in_body(
    program: &Program,
    function: FuncId,
    body: &Body,
    out: &mut Vec<Mention>,
) -> Result<(), NoMemory>
    ensures { OnOk result (out.new.items ≡ out.old.items ++ bodies.body_uses program.now function body.now) }
{
    let around = Around {
        types: &program.types,
        variables: program.variables.as_slice(),
        function,
        results: body.results.as_slice(),
    };
    enter(&around, body.params.as_slice(), out)?;
    leave(&around, body.results.as_slice(), out)?;
    in_block(&around, &body.block, out)
}

/// What a function is given is in its parameters.
fn enter(around: &Around, params: &[VarId], out: &mut Vec<Mention>) -> Result<(), NoMemory>
    ensures { OnOk result (out.new.items ≡ out.old.items ++ bodies.entered (setting_of around.now) params.now) }
{
    for (index, variable) in params.iter().enumerate() {
        enter_one(around, index, *variable, out)?;
    }
    Ok(())
}

#[tactic(auto, unfolding(crate::specs::Bodies::enters))]
fn enter_one(
    around: &Around,
    index: usize,
    variable: VarId,
    out: &mut Vec<Mention>,
) -> Result<(), NoMemory>
    ensures { OnOk result (out.new.items ≡ out.old.items ++ bodies.enters (setting_of around.now) index variable) }
{
    let to = variable_node(around, variable);
    flow(Node::Parameter(around.function, index), to, out)
}

/// What is in the variables of results is given.
fn leave(around: &Around, results: &[VarId], out: &mut Vec<Mention>) -> Result<(), NoMemory>
    ensures { OnOk result (out.new.items ≡ out.old.items ++ bodies.given (setting_of around.now) results.now) }
{
    for (index, variable) in results.iter().enumerate() {
        leave_one(around, index, *variable, out)?;
    }
    Ok(())
}

#[tactic(auto, unfolding(crate::specs::Bodies::leaves))]
fn leave_one(
    around: &Around,
    index: usize,
    variable: VarId,
    out: &mut Vec<Mention>,
) -> Result<(), NoMemory>
    ensures { OnOk result (out.new.items ≡ out.old.items ++ bodies.leaves (setting_of around.now) index variable) }
{
    let from = variable_node(around, variable);
    flow(from, Node::Returned(around.function, index), out)
}
