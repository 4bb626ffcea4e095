//! Which variables need a cell.

ghost use Rattle.std.specs.Prelude.{◌≡◌, ◌↔◌, ◌&&◌, Contains, IfOk, IsTrue, true, slice_get, Some};
ghost use Rattle.std.specs.List.{list_any};
ghost use Rattle.std.specs.List.Sorted.{IsStrictlyIncreasing};
ghost use Rattle.tree_facts.specs.Cells as cell;
ghost use Rattle.tree_facts.specs.Search.{is_among};
ghost use Rattle.tree_facts.specs.Statements.{roots_in_block};

use crate::roots::Roots;
use go_base::{FuncId, NoMemory, VarId};
use go_tree::{Body, Program, Variable};
use std::alloc::Global;

/// Variables, ascending by number and each once.
#[derive(Drop)]
pub struct VarSet {
    items: Vec<VarId>,
}

impl VarSet {
    /// The variables themselves.
    pub fn as_slice(&self) -> &[VarId] {
        self.items.as_slice()
    }

    /// How many there are.
    pub fn len(&self) -> usize {
        self.items.len()
    }

    /// Whether there are none.
    pub fn is_empty(&self) -> bool {
        self.items.is_empty()
    }

    /// Whether a variable is one of them.
    pub fn contains(&self, variable: VarId) -> bool {
        self.items.binary_search(&variable).is_ok()
    }
}

/// Whether a variable needs a cell in a function: one of the function itself whose address, or that of a part, is taken
/// there, or of which a part is assigned; that a literal captures; or that is a result where a `defer` stands. And one of
/// another function that the function captures. A variable of a package needs none.
pub fn needs_cell(program: &Program, function: FuncId, var: VarId) -> bool
    ensures { result ≡ cell.needs_cell program.now function var }
{
    let bodies = program.bodies.as_slice();
    let declared = program.variables.as_slice().get(var.number as usize);
    match (declared, bodies.get(function.number as usize)) {
        (Some(declared), Some(Some(body))) => match declared.function {
            None => false,
            Some(own) => {
                if own.number == function.number {
                    needs_own(program, body, var)
                } else {
                    is_among(var, body.captured.as_slice())
                }
            }
        },
        _ => false,
    }
}

/// Whether a variable of a function needs a cell in the body of that function.
fn needs_own(program: &Program, body: &Body, var: VarId) -> bool
    ensures { result ≡ cell.needs_own program.now.bodies body.now var }
{
    is_result_with_defer(body, var)
        || is_captured_by_any(program.bodies.as_slice(), var)
        || is_met(program, body, var)
}

/// Whether a variable is one of a list.
fn is_among(var: VarId, list: &[VarId]) -> bool
    ensures { result ≡ is_among var list.now }
{
    list.iter().any(|other| other.number == var.number)
}

/// Whether a variable is a result of a function with a `defer`.
fn is_result_with_defer(body: &Body, var: VarId) -> bool
    ensures { result ≡ (body.now.has_defer && is_among var body.now.results) }
{
    body.has_defer && is_among(var, body.results.as_slice())
}

/// Whether a variable is captured in one of the bodies.
fn is_captured_by_any(bodies: &[Option<Body>], var: VarId) -> bool
    ensures { result ≡ list_any (cell.captures var) bodies.now }
{
    bodies.iter().any(|body| captures(var, body))
}

/// Whether a body captures a variable of a function around it.
fn captures(var: VarId, body: &Option<Body>) -> bool
    ensures { result ≡ cell.captures var body.now }
{
    match body {
        Some(body) => is_among(var, body.captured.as_slice()),
        None => false,
    }
}

/// Whether the address of a variable or of a part is taken in a body, or a part is assigned.
#[tactic(auto, unfolding(crate::specs::Search::searched))]
fn is_met(program: &Program, body: &Body, var: VarId) -> bool
    ensures { result ≡ is_among var (roots_in_block body.now.block) }
{
    let mut roots = Roots::one(program.types.allocator(), var);
    match roots.in_block(&body.block) {
        Ok(()) => roots.is_met,
        Err(_) => true,
    }
}

/// The variables that need a cell in a function: those of which `needs_cell` says so.
pub fn cells_of(alloc: Global, program: &Program, function: FuncId) -> Result<VarSet, NoMemory> {
    let mut items = Vec::new(alloc);
    let Some(Some(body)) = program.bodies.as_slice().get(function.number as usize) else {
        return Ok(VarSet { items });
    };
    let mut roots = Roots::all(alloc);
    roots.in_block(&body.block)?;
    let variables = program.variables.as_slice();
    push_own(&mut items, variables, function, &roots.met)?;
    if body.has_defer {
        push_own(&mut items, variables, function, body.results.as_slice())?;
    }
    for other in program.bodies.as_slice() {
        if let Some(other) = other {
            push_own(&mut items, variables, function, other.captured.as_slice())?;
        }
    }
    items.extend_from_slice(body.captured.as_slice())?;
    items.sort()?;
    items.dedup();
    Ok(VarSet { items })
}

/// Adds those of variables that are of a function.
fn push_own(
    items: &mut Vec<VarId>,
    variables: &[Variable],
    function: FuncId,
    added: &[VarId],
) -> Result<(), NoMemory> {
    for id in added {
        if let Some(variable) = variables.get(id.number as usize) {
            if variable.function == Some(function) {
                items.push(*id)?;
            }
        }
    }
    Ok(())
}
