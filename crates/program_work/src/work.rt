//! The work on a program that breaks no rule: its code is printed, a call graph listed, and it is run, in this order.

ghost use Rattle.std.specs.Prelude.{◌≡◌, ◌≤◌, IfOk, IsErrOf, None, Some, true, false};
ghost use Rattle.go_base.specs.Devices.{HasFaulted};
ghost use Rattle.go_interp.specs.Output.{HasWritten};
ghost use Rattle.go_sources.specs.Sources.{files_of};
ghost use Rattle.program_work.specs.Asked.{wants_registers};
ghost use Rattle.program_work.specs.Graphs.{AreAsked};
ghost use Rattle.program_work.specs.Outputs.{Comes, Does};
ghost use Rattle.program_work.specs.Working.{first_path, HasRun, IsNotBuilt, IsServed, IsSound, IsWork};
ghost use Rattle.program_work.specs.declared.stop.Stop.TheVariants.{WriteFault};

use crate::coding::sound_code;
use crate::graphs::{asked_edges, list_asked, list_graph};
use crate::outcome::Outcome;
use crate::printing::print_code;
use crate::stop::Stop;
use cg_sets::Edges;
use command_line::{Letters, LoadCommand};
use go_base::{Ending, Place, Rule, Sink, Text};
use go_interp::run;
use go_sources::Sources;
use go_tree::Program;
use ssa_ir::Code;
use std::alloc::Global;

/// Does what is asked, beside a check, with a program that breaks no rule.
pub fn work_on<O: Sink>(
    alloc: Global,
    command: &LoadCommand,
    sources: &Sources,
    program: &Program,
    out: &mut O,
) -> Outcome
    ensures comes { Comes (λ whole. IsServed whole command.now (files_of sources.now) program.now) result (O.written out.old) (O.written out.new) }
    ensures fault { result ≡ Outcome.WriteFault → HasFaulted (O.faults out.old) (O.faults out.new) }
    ensures later { O.faults out.old ≤ O.faults out.new }
{
    if wants_registers(command) {
        return not_built(alloc, first_path(sources));
    }
    match work_built(alloc, command, sources, program, out) {
        Ok(outcome) => outcome,
        Err(stop) => stop.outcome(),
    }
}

// Whether code is asked in which variables need no cell.
fn wants_registers(command: &LoadCommand) -> bool
    ensures { result ≡ wants_registers command.now }
{
    match command.build {
        Some(letters) => !letters.naive,
        None => false,
    }
}

// The path of the target's first file.
fn first_path(sources: &Sources) -> &str
    ensures { result.now ≡ first_path (files_of sources.now) }
{
    match sources.file(0) {
        Some(file) => file.path.as_str(),
        None => "",
    }
}

// That what is asked of the program whose first file stands at a path is not built yet.
fn not_built(alloc: Global, path: &str) -> Outcome
    ensures { IsNotBuilt path.now result }
{
    match Text::new(alloc, path) {
        Ok(path) => Outcome::Refused {
            place: Place {
                path,
                offset: 0,
                line: 1,
                column: 1,
            },
            rule: Rule::NotBuiltYet,
        },
        Err(_) => Outcome::OutOfMemory,
    }
}

// Does what is asked, which is built.
fn work_built<O: Sink>(
    alloc: Global,
    command: &LoadCommand,
    sources: &Sources,
    program: &Program,
    out: &mut O,
) -> Result<Outcome, Stop>
    requires { wants_registers command.now ≡ false }
    ensures does { Does (λ whole. IsWork whole command.now (files_of sources.now) program.now) result (O.written out.old) (O.written out.new) }
    ensures fault { IsErrOf result WriteFault → HasFaulted (O.faults out.old) (O.faults out.new) }
    ensures later { O.faults out.old ≤ O.faults out.new }
{
    match command.build {
        Some(letters) => print_and_work(alloc, letters, command, sources, program, out),
        None => {
            if command.run {
                list_and_run(alloc, command, sources, program, out)
            } else {
                list_alone(alloc, command, sources, program, out)
            }
        }
    }
}

// Builds the code and the graph, prints the code, and does what else is asked.
fn print_and_work<O: Sink>(
    alloc: Global,
    letters: Letters,
    command: &LoadCommand,
    sources: &Sources,
    program: &Program,
    out: &mut O,
) -> Result<Outcome, Stop>
    requires built { wants_registers command.now ≡ false }
    requires asked { command.now.build ≡ Some letters }
    ensures does { Does (λ whole. IsWork whole command.now (files_of sources.now) program.now) result (O.written out.old) (O.written out.new) }
    ensures fault { IsErrOf result WriteFault → HasFaulted (O.faults out.old) (O.faults out.new) }
    ensures later { O.faults out.old ≤ O.faults out.new }
{
    let code = sound_code(alloc, program)?;
    let edges = asked_edges(alloc, command.callgraph, program)?;
    work_with_code(
        alloc, letters, &code, &edges, command, sources, program, out,
    )
}

// Prints a code that was built, lists the edges of the graph that is asked, and does what else is asked.
fn work_with_code<O: Sink>(
    alloc: Global,
    letters: Letters,
    code: &Code,
    edges: &Option<Edges>,
    command: &LoadCommand,
    sources: &Sources,
    program: &Program,
    out: &mut O,
) -> Result<Outcome, Stop>
    requires built { wants_registers command.now ≡ false }
    requires asked { command.now.build ≡ Some letters }
    requires sound { IsSound code.now }
    requires graph { AreAsked command.now.callgraph program.now edges.now }
    ensures does { Does (λ whole. IsWork whole command.now (files_of sources.now) program.now) result (O.written out.old) (O.written out.new) }
    ensures fault { IsErrOf result WriteFault → HasFaulted (O.faults out.old) (O.faults out.new) }
    ensures later { O.faults out.old ≤ O.faults out.new }
{
    print_code(alloc, code, letters, out)?;
    list_asked(alloc, edges, sources, program, out)?;
    if !command.run {
        return Ok(Outcome::Done);
    }
    let ending = run_as_asked(alloc, code, command, out)?;
    Ok(Outcome::Ended(ending))
}

// Lists the graph where one is asked, and does nothing else.
fn list_alone<O: Sink>(
    alloc: Global,
    command: &LoadCommand,
    sources: &Sources,
    program: &Program,
    out: &mut O,
) -> Result<Outcome, Stop>
    requires no_code { command.now.build ≡ None }
    requires no_run { command.now.run ≡ false }
    ensures does { Does (λ whole. IsWork whole command.now (files_of sources.now) program.now) result (O.written out.old) (O.written out.new) }
    ensures fault { IsErrOf result WriteFault → HasFaulted (O.faults out.old) (O.faults out.new) }
    ensures later { O.faults out.old ≤ O.faults out.new }
{
    list_graph(alloc, command.callgraph, sources, program, out)?;
    Ok(Outcome::Done)
}

// Lists the graph where one is asked, and runs the program's code, which is made before.
fn list_and_run<O: Sink>(
    alloc: Global,
    command: &LoadCommand,
    sources: &Sources,
    program: &Program,
    out: &mut O,
) -> Result<Outcome, Stop>
    requires no_code { command.now.build ≡ None }
    requires run { command.now.run ≡ true }
    ensures does { Does (λ whole. IsWork whole command.now (files_of sources.now) program.now) result (O.written out.old) (O.written out.new) }
    ensures fault { IsErrOf result WriteFault → HasFaulted (O.faults out.old) (O.faults out.new) }
    ensures later { O.faults out.old ≤ O.faults out.new }
{
    let code = sound_code(alloc, program)?;
    list_graph(alloc, command.callgraph, sources, program, out)?;
    let ending = run_as_asked(alloc, &code, command, out)?;
    Ok(Outcome::Ended(ending))
}

// Runs a code with the choices and the bound of a command.
fn run_as_asked<O: Sink>(
    alloc: Global,
    code: &Code,
    command: &LoadCommand,
    out: &mut O,
) -> Result<Ending, Stop>
    requires sound { IsSound code.now }
    ensures ran { IfOk result (λ ending. HasRun code.now command.now.choices command.now.bound ending (O.written out.old) (O.written out.new)) }
    ensures written { HasWritten (O.written out.old) (O.written out.new) }
    ensures fault { IsErrOf result WriteFault → HasFaulted (O.faults out.old) (O.faults out.new) }
    ensures later { O.faults out.old ≤ O.faults out.new }
{
    run_code(alloc, code, command.choices.as_slice(), command.bound, out)
}

/// Runs a sound code with these choices and this bound.
pub fn run_code<O: Sink>(
    alloc: Global,
    code: &Code,
    choices: &[u32],
    bound: u64,
    out: &mut O,
) -> Result<Ending, Stop>
    requires sound { IsSound code.now }
    ensures ran { IfOk result (λ ending. HasRun code.now choices.now bound ending (O.written out.old) (O.written out.new)) }
    ensures written { HasWritten (O.written out.old) (O.written out.new) }
    ensures fault { IsErrOf result WriteFault → HasFaulted (O.faults out.old) (O.faults out.new) }
    ensures later { O.faults out.old ≤ O.faults out.new }
{
    let ending = run(alloc, code, choices, bound, out)?;
    Ok(ending)
}
