//! The package variables of a code with their numbers among the blank ones.

ghost use Rattle.std.specs.Prelude.{◌≡◌, ◌+◌, ◌<◌, ◌^◌, ℕ, nat_eq, unwrap_or, if◌then◌else◌, IfOk, OnOk};
ghost use Rattle.std.specs.HashMap.{get};
ghost use Rattle.ssa_print.specs.Variables.{is_blank_name, is_blank_in, named_variables};

use crate::operands::name_of;
use go_base::{Names, NoMemory};
use ssa_ir::CodeVariable;
use std::alloc::Global;
use std::collections::HashMap;

/// A package variable, with its number among the blank ones of its package, from 1; 0 where it is not blank.
#[derive(Clone, Copy)]
pub struct NamedVariable {
    pub variable: CodeVariable,
    pub blank: u64,
}

/// The package variables with their numbers among the blank ones of their packages.
pub fn name_variables(
    alloc: Global,
    names: &Names,
    variables: &[CodeVariable],
) -> Result<Vec<NamedVariable>, NoMemory>
    ensures { IfOk result (λ named. named.items ≡ named_variables names.now variables.now) }
{
    let mut named = Vec::new(alloc);
    let mut met: HashMap<u32, u64> = HashMap::new(alloc);
    for variable in variables {
        let blank = next_blank(names, &mut met, *variable)?;
        named.push(NamedVariable {
            variable: *variable,
            blank,
        })?;
    }
    Ok(named)
}

/// The number of a variable, where so many blank ones of each package were met.
fn next_blank(
    names: &Names,
    met: &mut HashMap<u32, u64>,
    variable: CodeVariable,
) -> Result<u64, NoMemory>
    requires { unwrap_or (get nat_eq met.old variable.«package») 0 + 1 < 2 ^ 64 }
    ensures number { IfOk result (λ n. n ≡ (if is_blank_name names.now variable.name then unwrap_or (get nat_eq met.old variable.«package») 0 + 1 else 0)) }
    ensures counts { (q : ℕ) → OnOk result (unwrap_or (get nat_eq met.new q) 0 ≡ unwrap_or (get nat_eq met.old q) 0 + (if is_blank_in names.now q variable then 1 else 0)) }
{
    if !is_blank(names, variable) {
        return Ok(0);
    }
    let count = met.get(&variable.package).copied().unwrap_or(0) + 1;
    met.insert(variable.package, count)?;
    Ok(count)
}

fn is_blank(names: &Names, variable: CodeVariable) -> bool
    ensures { result ≡ is_blank_name names.now variable.name }
{
    name_of(names, variable.name) == b"_".as_slice()
}
