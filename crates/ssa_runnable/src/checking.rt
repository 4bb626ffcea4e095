//! Which code is runnable.

ghost use Rattle.std.specs.Prelude.{◌≡◌, ◌++◌, ◌↔◌, IsTrue, IfOk, OnOk, true};
ghost use Rattle.go_base.specs.declared.ids.TypeId.{TypeId as Id};
ghost use Rattle.ssa_runnable.specs.Boxed.{boxed_functions, boxed_of};
ghost use Rattle.ssa_runnable.specs.Runnable.{HasMethods, IsRunnable};
ghost use Rattle.ssa_runnable.specs.Tests.{all_run, blocks_run, fits_interface, functions_run};
ghost use Rattle.ssa_runnable.specs.Zeros.{KnowsZeros};

use crate::boxed::is_interface;
use crate::errors::{error_string, fits_error};
use crate::externals::externals_fit;
use crate::implementing::distinct;
use crate::methods::{Lines, methods};
use crate::sites::Site;
use crate::zeros::zeros;
use go_base::{NoMemory, TypeId};
use go_type::Types;
use ssa_ir::{Block, Code, Instr};
use std::alloc::Global;

/// Whether each instruction of sane, typed code has a meaning wherever a run comes to it: zero values are there where
/// they are asked for, what is put into interfaces has the methods of those that it implements, and functions without
/// bodies have the form that the machine gives them.
pub fn is_runnable(alloc: Global, code: &Code) -> Result<bool, NoMemory>
    ensures { IfOk result (λ answer. IsTrue answer ↔ IsRunnable code.now) }
{
    if !externals_fit(&code.types, code.functions.as_slice()) {
        return Ok(false);
    }
    if !fits_error(&code.types, error_string(code)) {
        return Ok(false);
    }
    if !interfaces_fit(&code.types) {
        return Ok(false);
    }
    let zeros = zeros(alloc, code)?;
    if !functions_run(alloc, code, zeros.as_slice())? {
        return Ok(false);
    }
    let has = has_methods(alloc, code, zeros.as_slice())?;
    Ok(has)
}

/// Whether no declared interface has methods but those of its term.
fn interfaces_fit(types: &Types) -> bool
    ensures { IsTrue result ↔ ((of : Id) → fits_interface types.now of ≡ true) }
{
    for number in 0..types.len() {
        let of = TypeId {
            number: number as u64,
        };
        if !fits_interface(types, of) {
            return false;
        }
    }
    true
}

fn fits_interface(types: &Types, of: TypeId) -> bool
    ensures { result ≡ fits_interface types.now of }
{
    !is_interface(types, of) || types.methods(of).is_empty()
}

fn functions_run(alloc: Global, code: &Code, zeros: &[bool]) -> Result<bool, NoMemory>
    requires { KnowsZeros code.now zeros.now }
    ensures { IfOk result (λ r. r ≡ functions_run code.now code.now.functions) }
{
    for function in code.functions.as_slice() {
        let site = Site {
            alloc,
            code,
            function,
            zeros,
        };
        if !site.blocks_run(function.blocks.as_slice())? {
            return Ok(false);
        }
    }
    Ok(true)
}

impl Site<'_> {
    fn blocks_run(&self, blocks: &[Block]) -> Result<bool, NoMemory>
        ensures { IfOk result (λ r. r ≡ blocks_run self.now.code.now self.now.function.now blocks.now) }
    {
        for block in blocks {
            if !self.all_run(block.instrs.as_slice())? {
                return Ok(false);
            }
        }
        Ok(true)
    }

    fn all_run(&self, instrs: &[Instr]) -> Result<bool, NoMemory>
        ensures { IfOk result (λ r. r ≡ all_run self.now.code.now self.now.function.now instrs.now) }
    {
        for instr in instrs {
            if !self.runs(&instr.op)? {
                return Ok(false);
            }
        }
        Ok(true)
    }
}

/// Whether what is put into interfaces has every method of each that it implements.
fn has_methods(alloc: Global, code: &Code, zeros: &[bool]) -> Result<bool, NoMemory>
    requires { KnowsZeros code.now zeros.now }
    ensures { IfOk result (λ r. IsTrue r ↔ HasMethods code.now) }
{
    let boxed = boxed_types(alloc, code, zeros)?;
    let types = distinct(alloc, boxed.as_slice())?;
    let all = methods(alloc, code)?;
    let lines = Lines { code, all: &all };
    Ok(lines.stand_everywhere(types.as_slice()))
}

/// The types of which the code, or a run-time fault, puts values into interfaces.
fn boxed_types(alloc: Global, code: &Code, zeros: &[bool]) -> Result<Vec<TypeId>, NoMemory>
    requires { KnowsZeros code.now zeros.now }
    ensures { IfOk result (λ it. it.items ≡ boxed_of code.now) }
{
    let mut boxed = Vec::new(alloc);
    push_boxed(alloc, code, zeros, &mut boxed)?;
    if let Some(of) = error_string(code) {
        boxed.push(of)?;
    }
    Ok(boxed)
}

fn push_boxed(
    alloc: Global,
    code: &Code,
    zeros: &[bool],
    boxed: &mut Vec<TypeId>,
) -> Result<(), NoMemory>
    requires { KnowsZeros code.now zeros.now }
    ensures { OnOk result (boxed.new.items ≡ boxed.old.items ++ boxed_functions code.now code.now.functions) }
{
    for function in code.functions.as_slice() {
        let site = Site {
            alloc,
            code,
            function,
            zeros,
        };
        site.push_boxed(boxed)?;
    }
    Ok(())
}
