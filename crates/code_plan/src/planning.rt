//! A code to its plan.

ghost use Rattle.std.specs.Prelude.{◌≡◌, ◌++◌, ◌∷◌, [], false, Some, IfOk, OnOk, codes, map, slice_get, if◌then◌else◌};
ghost use Rattle.std.specs.List.{AllZip};
ghost use Rattle.std.specs.Option.{option_map_or};
ghost use Rattle.std.specs.Str.{bytes_eq};
ghost use Rattle.code_plan.specs.Plans.{IsFunctionOf, IsPlanOf};
ghost use Rattle.code_plan.specs.Tables.{KnowsMethods, with_method};
ghost use Rattle.go_text.specs.Naming.{name_text};
ghost use Rattle.go_type.specs.Table.{term_at};
ghost use Rattle.go_value.specs.Values.{value_of};
ghost use Rattle.ssa_mean.specs.Faults as faults;
ghost use Rattle.ssa_mean.specs.Runs.{first_cells, is_init_kind, those_from};
ghost use Rattle.ssa_mean.specs.Runs as runs;

use crate::blocks::Body;
use crate::error::small;
use crate::late::marks_of;
use crate::planner::Planner;
use crate::steps::{MethodName, MethodOf, Plan, PlannedFunction};
use go_base::{NameId, NoMemory, TypeId};
use go_type::{TypeName, TypeTerm};
use go_value::Value;
use indexmap::IndexMap;
use ssa_ir::{Code, Function, FunctionKind, MethodLine};
use std::alloc::Global;

/// The plan of a code. `NoMemory` comes for want of memory, and where the code is not sane or not typed.
pub fn plan(alloc: Global, code: &Code) -> Result<Plan, NoMemory>
    ensures { IfOk result (IsPlanOf code.now) }
{
    let planner = Planner::new(alloc, code);
    Ok(Plan {
        functions: functions(&planner)?,
        methods: methods(alloc, code)?,
        variables: variables(&planner)?,
        starts: starts(alloc, code.functions.as_slice())?,
        error_string: error_string(code),
    })
}

fn functions(planner: &Planner<'_>) -> Result<Vec<PlannedFunction>, NoMemory>
    ensures { let code = planner.now.code.now in IfOk result (λ it. AllZip (IsFunctionOf code) code.functions it.items) }
{
    let mut all = Vec::new(planner.alloc);
    for function in planner.code.functions.as_slice() {
        all.push(planned(planner, function)?)?;
    }
    Ok(all)
}

fn planned(planner: &Planner<'_>, function: &Function) -> Result<PlannedFunction, NoMemory>
    ensures { IfOk result (λ it. IsFunctionOf planner.now.code.now function.now it) }
{
    let marks = marks_of(planner.alloc, planner.types(), function)?;
    let body = Body {
        planner,
        function,
        marks: marks.as_slice(),
    };
    body.planned()
}

/// The functions that methods are.
fn methods(alloc: Global, code: &Code) -> Result<IndexMap<MethodOf, u32>, NoMemory>
    ensures { IfOk result (λ all. KnowsMethods code.now.methods all.entries) }
{
    let mut all = IndexMap::new(alloc);
    for line in code.methods.as_slice() {
        add_method(&mut all, line)?;
    }
    Ok(all)
}

/// Adds a method; the first of its name stays.
fn add_method(all: &mut IndexMap<MethodOf, u32>, line: &MethodLine) -> Result<(), NoMemory>
    ensures { OnOk result (all.new.entries ≡ with_method line.now all.old.entries) }
{
    let function = small(line.function.number)?;
    let method = MethodOf {
        receiver: line.receiver,
        method: MethodName {
            name: line.name,
            package: line.package,
        },
    };
    if all.get(&method).is_none() {
        all.insert(method, function)?;
    }
    Ok(())
}

/// The zero values of the package variables.
fn variables(planner: &Planner<'_>) -> Result<Vec<Value>, NoMemory>
    ensures { let code = planner.now.code.now in IfOk result (λ it. first_cells code code.variables ≡ Some (map value_of it.items)) }
{
    let mut all = Vec::new(planner.alloc);
    for variable in planner.code.variables.as_slice() {
        all.push(planner.zero(variable.of)?)?;
    }
    Ok(all)
}

/// The initialisation of each package, then `main.main`.
fn starts(alloc: Global, functions: &[Function]) -> Result<Vec<u32>, NoMemory>
    ensures { IfOk result (λ it. it.items ≡ map (λ id. id.number) (those_from 0 (λ f. is_init_kind f.kind) functions.now ++ those_from 0 runs.is_main functions.now)) }
{
    let mut starts = Vec::new(alloc);
    push_inits(&mut starts, functions)?;
    push_main(&mut starts, functions)?;
    Ok(starts)
}

fn push_inits(starts: &mut Vec<u32>, functions: &[Function]) -> Result<(), NoMemory>
    ensures { OnOk result (starts.new.items ≡ starts.old.items ++ map (λ id. id.number) (those_from 0 (λ f. is_init_kind f.kind) functions.now)) }
{
    for (number, function) in functions.iter().enumerate() {
        push_where(starts, number, is_init(function))?;
    }
    Ok(())
}

fn push_main(starts: &mut Vec<u32>, functions: &[Function]) -> Result<(), NoMemory>
    ensures { OnOk result (starts.new.items ≡ starts.old.items ++ map (λ id. id.number) (those_from 0 runs.is_main functions.now)) }
{
    for (number, function) in functions.iter().enumerate() {
        push_where(starts, number, is_main(function))?;
    }
    Ok(())
}

/// Adds the number of a function, where it is one that is called.
fn push_where(starts: &mut Vec<u32>, number: usize, is_called: bool) -> Result<(), NoMemory>
    ensures { OnOk result (starts.new.items ≡ starts.old.items ++ (if is_called then number ∷ [] else [])) }
{
    if is_called {
        starts.push(small(number as u64)?)?;
    }
    Ok(())
}

/// Whether a function is the initialisation of a package.
fn is_init(function: &Function) -> bool
    ensures { result ≡ is_init_kind function.now.kind }
{
    matches!(function.kind, FunctionKind::Init)
}

/// `main.main` takes no arguments and returns no value.
fn is_main(function: &Function) -> bool
    ensures { result ≡ runs.is_main function.now }
{
    matches!(function.kind, FunctionKind::Source)
        && function.name.as_str() == "main.main"
        && function.params.as_slice().is_empty()
        && function.free.as_slice().is_empty()
        && function.results.as_slice().is_empty()
}

/// The type `errorString` of package `runtime`.
fn error_string(code: &Code) -> Option<TypeId>
    ensures { result ≡ faults.error_string code.now }
{
    for id in code.declared.as_slice() {
        if is_error_string(code, *id) {
            return Some(*id);
        }
    }
    None
}

fn is_error_string(code: &Code, id: TypeId) -> bool
    ensures { result ≡ faults.is_error_term code.now (term_at code.now.types id) }
{
    match code.types.get(id) {
        Some(TypeTerm::Declared(name)) => is_error_name(code, name),
        _ => false,
    }
}

fn is_error_name(code: &Code, name: &TypeName) -> bool
    ensures { result ≡ faults.is_error_name code.now name.now }
{
    if name.number != 0 || !is_runtime(code, name.package) {
        return false;
    }
    is_error_text(code, name.name)
}

/// Whether a package is `runtime`.
fn is_runtime(code: &Code, number: u32) -> bool
    ensures { result ≡ option_map_or (bytes_eq (codes "runtime")) (slice_get code.now.packages number) false }
{
    match code.packages.as_slice().get(number as usize) {
        Some(label) => "runtime" == label.as_str(),
        None => false,
    }
}

fn is_error_text(code: &Code, name: NameId) -> bool
    ensures { result ≡ bytes_eq (codes "errorString") (name_text code.now.names name) }
{
    match code.names.text(name) {
        Some(text) => "errorString" == text,
        None => false,
    }
}
