//! The run of a code.

ghost use Rattle.std.specs.Prelude.{◌≡◌, ◌≤◌, ◌++◌, ◌∷◌, [], None, Some, IfOk, IsErrOf, OnOk, map};
ghost use Rattle.std.specs.Io.KnownBytes.{Appends};
ghost use Rattle.go_base.specs.Devices.{HasFaulted};
ghost use Rattle.go_interp.specs.Output.{HasMoved, HasWritten};
ghost use Rattle.go_interp.specs.Ran.{HasRun, IsBare, IsFirst, LeadsTo, TellsRun, with_cells};
ghost use Rattle.go_sched.specs.Goroutines.{state_of};
ghost use Rattle.go_store.specs.Stores.{made, stored};
ghost use Rattle.go_value.specs.Values.{value_of};
ghost use Rattle.interp_state.specs.Machines.{goroutine_of};
ghost use Rattle.plan_mean.specs.Calls.{new_goroutine};

use crate::error::RunError;
use crate::stepping::make_steps;
use code_plan::{Plan, plan};
use go_base::{Ending, NoMemory, Sink, SinkError};
use go_sched::Sched;
use go_store::Store;
use go_value::Value;
use indexmap::IndexMap;
use interp_state::{Goroutine, Machine, Turn, lost};
use ssa_ir::Code;
use std::alloc::Global;

/// How much output is kept before it is written, in bytes.
const PIECE: usize = 8192;

/// Runs a code that is sane and typed: its output goes to `out`, and what it writes and how it ends are those of its one
/// run with these choices and this bound. The choices decide where one of several goroutines, cases or entries is next;
/// the bound is the number of ticks. `WriteFault` only where a write failed.
pub fn run<O: Sink>(
    alloc: Global,
    code: &Code,
    choices: &[u32],
    bound: u64,
    out: &mut O,
) -> Result<Ending, RunError>
    ensures told { IfOk result (λ ending. TellsRun code.now choices.now bound ending (O.written out.old) (O.written out.new)) }
    ensures written { HasWritten (O.written out.old) (O.written out.new) }
    ensures fault { IsErrOf result RunError.WriteFault → HasFaulted (O.faults out.old) (O.faults out.new) }
    ensures later { O.faults out.old ≤ O.faults out.new }
{
    match plan(alloc, code) {
        Ok(plan) => {
            let ending = run_plan(alloc, code, &plan, choices, bound, out);
            drop(plan);
            ending
        }
        Err(_) => Err(RunError::OutOfMemory),
    }
}

/// Runs a plan: its output goes to `out`, and what it writes and how it ends are those of its one run with these choices
/// and this bound. The types and the names of its values are those of the code. `WriteFault` only where a write failed.
pub fn run_plan<O: Sink>(
    alloc: Global,
    code: &Code,
    plan: &Plan,
    choices: &[u32],
    bound: u64,
    out: &mut O,
) -> Result<Ending, RunError>
    ensures exact { IfOk result (λ ending. HasRun code.now plan.now choices.now bound ending (O.written out.old) (O.written out.new)) }
    ensures written { HasWritten (O.written out.old) (O.written out.new) }
    ensures fault { IsErrOf result RunError.WriteFault → HasFaulted (O.faults out.old) (O.faults out.new) }
    ensures later { O.faults out.old ≤ O.faults out.new }
{
    match start(alloc, code, plan, choices, bound) {
        Ok(machine) => {
            let mut machine = machine;
            let ending = drive(&mut machine, out);
            drop(machine);
            ending
        }
        Err(_) => Err(RunError::OutOfMemory),
    }
}

/// Lets a machine go on to its end.
fn drive<O: Sink>(machine: &mut Machine<'_>, out: &mut O) -> Result<Ending, RunError>
    ensures exact { IfOk result (λ ending. LeadsTo machine.old ending (O.written out.old) (O.written out.new)) }
    ensures written { HasWritten (O.written out.old) (O.written out.new) }
    ensures fault { IsErrOf result RunError.WriteFault → HasFaulted (O.faults out.old) (O.faults out.new) }
    ensures later { O.faults out.old ≤ O.faults out.new }
{
    for _ in 0..u64::MAX {
        match make_steps(machine) {
            Turn::Goes => write_piece(machine, out)?,
            Turn::Ends => return finish(machine, out),
            Turn::WantsMemory => {
                write(machine, out)?;
                return Err(RunError::OutOfMemory);
            }
        }
    }
    Err(without_ending())
}

/// The machine before its first step.
fn start<'a>(
    alloc: Global,
    code: &'a Code,
    plan: &'a Plan,
    choices: &[u32],
    bound: u64,
) -> Result<Machine<'a>, NoMemory>
    ensures { IfOk result (λ it. IsFirst code.now plan.now choices.now bound it) }
{
    let sched = Sched::new(alloc, choices)?;
    let mut machine = bare(alloc, code, plan, sched, bound);
    match make_ready(&mut machine) {
        Ok(()) => Ok(machine),
        Err(NoMemory) => {
            drop(machine);
            Err(NoMemory)
        }
    }
}

/// The machine without cells and goroutines.
fn bare<'a>(alloc: Global, code: &'a Code, plan: &'a Plan, sched: Sched, bound: u64) -> Machine<'a>
    ensures { IsBare code.now plan.now (state_of sched) bound result }
{
    Machine {
        alloc,
        code,
        plan,
        store: Store::new(alloc),
        sched,
        goroutines: Vec::new(alloc),
        current: Goroutine::new(alloc, None),
        started: 0,
        ticks: bound,
        output: Vec::new(alloc),
        ending: None,
        waiting: Vec::new(alloc),
        implemented: IndexMap::new(alloc),
    }
}

/// Gives the machine the cells of the package variables, and a place for goroutine 0.
fn make_ready(machine: &mut Machine<'_>) -> Result<(), NoMemory>
    ensures cells { OnOk result (stored machine.new.store ≡ with_cells (map value_of machine.old.plan.now.variables.items) (stored machine.old.store)) }
    ensures goroutine { OnOk result (map goroutine_of machine.new.goroutines.items ≡ map goroutine_of machine.old.goroutines.items ++ new_goroutine None ∷ []) }
    ensures others { machine.new ≡ record machine.old { store = machine.new.store; goroutines = machine.new.goroutines } }
{
    let plan = machine.plan;
    make_cells(machine, plan.variables.as_slice())?;
    let first = Goroutine::new(machine.alloc, None);
    machine.goroutines.push(first)?;
    Ok(())
}

/// Gives the machine the cells of variables.
fn make_cells(machine: &mut Machine<'_>, variables: &[Value]) -> Result<(), NoMemory>
    ensures cells { OnOk result (stored machine.new.store ≡ with_cells (map value_of variables.now) (stored machine.old.store)) }
    ensures others { machine.new ≡ record machine.old { store = machine.new.store } }
{
    for value in variables {
        make_variable(machine, value)?;
    }
    Ok(())
}

/// Gives the machine the cell of a variable.
fn make_variable(machine: &mut Machine<'_>, value: &Value) -> Result<(), NoMemory>
    ensures cell { OnOk result (stored machine.new.store ≡ made (stored machine.old.store) (value_of value.now)) }
    ensures others { machine.new ≡ record machine.old { store = machine.new.store } }
{
    let value = value.copy(machine.alloc)?;
    machine.store.make_cell(value)?;
    Ok(())
}

/// Writes the output that is kept, where it is long.
fn write_piece<O: Sink>(machine: &mut Machine<'_>, out: &mut O) -> Result<(), RunError>
    ensures moved { OnOk result (HasMoved machine.old machine.new (O.written out.old) (O.written out.new)) }
    ensures written { HasWritten (O.written out.old) (O.written out.new) }
    ensures fault { IsErrOf result RunError.WriteFault → HasFaulted (O.faults out.old) (O.faults out.new) }
    ensures later { O.faults out.old ≤ O.faults out.new }
{
    if machine.output.len() < PIECE {
        return Ok(());
    }
    write(machine, out)
}

/// Writes the output that is kept.
fn write<O: Sink>(machine: &mut Machine<'_>, out: &mut O) -> Result<(), RunError>
    ensures moved { OnOk result (HasMoved machine.old machine.new (O.written out.old) (O.written out.new)) }
    ensures whole { OnOk result (machine.new.output.items ≡ []) }
    ensures ending { machine.new.ending ≡ machine.old.ending }
    ensures written { HasWritten (O.written out.old) (O.written out.new) }
    ensures fault { IsErrOf result RunError.WriteFault → HasFaulted (O.faults out.old) (O.faults out.new) }
    ensures later { O.faults out.old ≤ O.faults out.new }
{
    if machine.output.is_empty() {
        return Ok(());
    }
    let written = out.write(machine.output.as_slice());
    machine.output.clear();
    match written {
        Ok(()) => Ok(()),
        Err(SinkError::Failed) => Err(RunError::WriteFault),
        Err(SinkError::OutOfMemory) => Err(RunError::OutOfMemory),
    }
}

/// Writes the rest of the output.
fn finish<O: Sink>(machine: &mut Machine<'_>, out: &mut O) -> Result<Ending, RunError>
    ensures whole { IfOk result (λ ending. (machine.old.ending ≡ Some ending) × Appends (O.written out.old) (O.written out.new) machine.old.output.items) }
    ensures written { HasWritten (O.written out.old) (O.written out.new) }
    ensures fault { IsErrOf result RunError.WriteFault → HasFaulted (O.faults out.old) (O.faults out.new) }
    ensures later { O.faults out.old ≤ O.faults out.new }
{
    write(machine, out)?;
    match machine.ending.take() {
        Some(ending) => Ok(ending),
        None => Err(without_ending()),
    }
}

/// What a run without an ending answers. It cannot come.
fn without_ending() -> RunError
    ensures { result ≡ RunError.OutOfMemory }
{
    let NoMemory = lost();
    RunError::OutOfMemory
}
