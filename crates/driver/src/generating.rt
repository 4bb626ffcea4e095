//! The work on the generated program.

ghost use Rattle.std.specs.Prelude.{◌≡◌, ◌≤◌, ◌++◌, IfOk, IsErrOf, OnOk};
ghost use Rattle.go_base.specs.Devices.{HasFaulted};
ghost use Rattle.driver.specs.Generating.{count_line, Counts, IsGenerated, IsGeneratedRun, IsRunBehind};
ghost use Rattle.program_work.specs.Outputs.{Comes, Does};
ghost use Rattle.program_work.specs.Working.{IsSound};
ghost use Rattle.program_work.specs.declared.stop.Stop.TheVariants.{WriteFault};
ghost use Rattle.typed_trees.specs.Programs.{IsTypedProgram};

use command_line::Graph;
use go_base::{Ending, NoMemory, Sink};
use go_declared::CheckError;
use go_gen::generated;
use go_load::{LoadError, from_text};
use go_sources::Sources;
use go_stmt::check;
use go_text::push_number;
use go_tree::Program;
use program_typing::is_program;
use program_work::{Outcome, Stop, edges_of, run_code, sound_code};
use ssa_ir::Code;
use std::alloc::Global;

/// The file of the generated program.
const FILE: &str = "gen.go";

/// How many ticks its run may take.
const TICKS: u64 = 10_000_000;

/// Makes, checks, lists and runs the generated program of so many types.
pub fn generate<O: Sink>(alloc: Global, count: u32, out: &mut O) -> Outcome
    ensures comes { Comes (λ whole. IsGenerated whole count) result (O.written out.old) (O.written out.new) }
    ensures fault { result ≡ Outcome.WriteFault → HasFaulted (O.faults out.old) (O.faults out.new) }
    ensures later { O.faults out.old ≤ O.faults out.new }
{
    match made_and_run(alloc, count, out) {
        Ok(ending) => Outcome::Ended(ending),
        Err(stop) => stop.outcome(),
    }
}

// Makes the program, and then writes the numbers of edges and runs it.
fn made_and_run<O: Sink>(alloc: Global, count: u32, out: &mut O) -> Result<Ending, Stop>
    ensures does { Does (λ whole. IsGeneratedRun whole count) result (O.written out.old) (O.written out.new) }
    ensures fault { IsErrOf result WriteFault → HasFaulted (O.faults out.old) (O.faults out.new) }
    ensures later { O.faults out.old ≤ O.faults out.new }
{
    let text = generated(alloc, count)?;
    let sources = sources_of(alloc, text.as_slice())?;
    let program = checked(alloc, &sources)?;
    let code = sound_code(alloc, &program)?;
    let counts = counts_of(alloc, count, &program)?;
    write_and_run(alloc, counts.as_slice(), &code, out)
}

// Writes a text, and runs a code.
fn write_and_run<O: Sink>(
    alloc: Global,
    text: &[u8],
    code: &Code,
    out: &mut O,
) -> Result<Ending, Stop>
    requires sound { IsSound code.now }
    ensures does { Does (λ whole. IsRunBehind whole code.now text.now) result (O.written out.old) (O.written out.new) }
    ensures fault { IsErrOf result WriteFault → HasFaulted (O.faults out.old) (O.faults out.new) }
    ensures later { O.faults out.old ≤ O.faults out.new }
{
    out.write(text)?;
    run_code(alloc, code, &[], TICKS, out)
}

// The generated program breaks no rule of loading.
fn sources_of(alloc: Global, bytes: &[u8]) -> Result<Sources, Stop>
    ensures { IsErrOf result WriteFault → ⊥ }
{
    match from_text(alloc, FILE, bytes) {
        Ok(sources) => Ok(sources),
        Err(LoadError::OutOfMemory) => Err(Stop::OutOfMemory),
        Err(LoadError::ReadFault | LoadError::Refused { .. }) => Err(Stop::Internal),
    }
}

// Nor another one, and it is typed.
fn checked(alloc: Global, sources: &Sources) -> Result<Program, Stop>
    ensures typed { IfOk result IsTypedProgram }
    ensures fault { IsErrOf result WriteFault → ⊥ }
{
    match check(alloc, sources) {
        Ok(program) => tested(alloc, program),
        Err(CheckError::OutOfMemory) => Err(Stop::OutOfMemory),
        Err(CheckError::Refused { .. }) => Err(Stop::Internal),
    }
}

// A program that is typed.
fn tested(alloc: Global, program: Program) -> Result<Program, Stop>
    ensures typed { IfOk result IsTypedProgram }
    ensures fault { IsErrOf result WriteFault → ⊥ }
{
    let Ok(typed) = is_program(alloc, &program) else {
        return Err(Stop::OutOfMemory);
    };
    if typed {
        Ok(program)
    } else {
        Err(Stop::Internal)
    }
}

// The lines that say how many types the program has, and how many edges its graphs.
fn counts_of(alloc: Global, count: u32, program: &Program) -> Result<Vec<u8>, NoMemory>
    ensures { IfOk result (λ text. Counts program.now count text.items) }
{
    let cha = edges_of(alloc, Graph::Cha, program)?.len();
    let rta = edges_of(alloc, Graph::Rta, program)?.len();
    let vta = edges_of(alloc, Graph::Vta, program)?.len();
    let mut text = Vec::new(alloc);
    push_count(&mut text, b"gen ", count as usize)?;
    push_count(&mut text, b"cha ", cha)?;
    push_count(&mut text, b"rta ", rta)?;
    push_count(&mut text, b"vta ", vta)?;
    Ok(text)
}

fn push_count(text: &mut Vec<u8>, word: &[u8], count: usize) -> Result<(), NoMemory>
    ensures { OnOk result (text.new.items ≡ text.old.items ++ count_line word.now count) }
{
    text.extend_from_slice(word)?;
    push_number(text, count as u64)?;
    text.push(b'\n')?;
    Ok(())
}
