//! The text of what a code has beside functions, and in which order it stands.

use crate::tests::kinds::{Kinds, METHOD, make_kinds};
use crate::tests::rows::empty_function;
use crate::tests::texts::{Subject, printed};
use go_base::{FuncId, NameId, NoMemory};
use go_type::{Basic, basic};
use ssa_ir::{Code, CodeVariable, FunctionKind, MethodLine};
use std::alloc::Global;
use std::test::Fail;

const LISTS: &str = "package main
type main.point struct{}
method main.point.m main.f
method *main.point.m main.f
var main.x int
package lib
var lib._#1 int
func main.f(): external
method struct{}.m main.f
func promote (main.point).m(): external
";

fn add_methods(code: &mut Code, kinds: &Kinds) -> Result<(), NoMemory> {
    for receiver in [kinds.point, kinds.pointer, kinds.shape] {
        code.methods.push(MethodLine {
            receiver,
            name: METHOD,
            package: 0,
            function: FuncId { number: 0 },
        })?;
    }
    Ok(())
}

fn add_variables(code: &mut Code) -> Result<(), NoMemory> {
    for (name, package) in [(3, 0), (4, 1)] {
        code.variables.push(CodeVariable {
            name: NameId { number: name },
            package,
            of: basic(Basic::Int),
        })?;
    }
    Ok(())
}

fn add_functions(alloc: Global, code: &mut Code) -> Result<(), NoMemory> {
    code.functions.push(empty_function(alloc, "main.f")?)?;
    let mut wrapper = empty_function(alloc, "promote (main.point).m")?;
    wrapper.kind = FunctionKind::Wrapper;
    code.functions.push(wrapper)
}

/// Adds a type, methods, variables, and functions without bodies.
pub fn add_lists(alloc: Global, code: &mut Code) -> Result<(), NoMemory> {
    let kinds = make_kinds(alloc, &mut code.types)?;
    code.declared.push(kinds.point)?;
    add_methods(code, &kinds)?;
    add_variables(code)?;
    add_functions(alloc, code)
}

#[test]
fn lists_and_wrappers(rt: HostRuntime) -> Result<(), Fail> {
    let out = printed(rt.alloc(), Subject::Lists, false)?;
    assert_eq!(rt; out.bytes(), LISTS.as_bytes());
    Ok(())
}
