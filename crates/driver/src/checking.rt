//! The check of a program that was loaded, and what is asked of one that breaks no rule.

ghost use Rattle.std.specs.Prelude.{◌≡◌, ◌≤◌, IsTrue};
ghost use Rattle.go_base.specs.Devices.{HasFaulted};
ghost use Rattle.go_sources.specs.Loaded.{IsWithin};
ghost use Rattle.go_sources.specs.Sources.{files_of};
ghost use Rattle.program_work.specs.Asked.{needs_main};
ghost use Rattle.program_work.specs.Checking.{IsCheckedRow, IsRefusal};
ghost use Rattle.program_work.specs.Outputs.{Comes};
ghost use Rattle.program_work.specs.Working.{IsResult};
ghost use Rattle.typed_trees.specs.Programs.{IsTypedProgram};

use command_line::LoadCommand;
use go_base::{Pos, Rule, Sink};
use go_declared::CheckError;
use go_sources::Sources;
use go_stmt::check;
use go_tree::Program;
use program_typing::is_program;
use program_work::{Outcome, work_on};
use std::alloc::Global;
use std::mem::forget;

/// Checks a program that was loaded, and does what is asked with it where it breaks no rule.
pub fn check_and_work<O: Sink>(
    alloc: Global,
    command: &LoadCommand,
    sources: &Sources,
    out: &mut O,
) -> Outcome
    ensures comes { Comes (λ whole. IsResult whole command.now (files_of sources.now)) result (O.written out.old) (O.written out.new) }
    ensures fault { result ≡ Outcome.WriteFault → HasFaulted (O.faults out.old) (O.faults out.new) }
    ensures later { O.faults out.old ≤ O.faults out.new }
{
    match check(alloc, sources) {
        Err(CheckError::Refused { pos, rule }) => refused(alloc, sources, pos, rule),
        Err(CheckError::OutOfMemory) => Outcome::OutOfMemory,
        Ok(program) => work_and_leave(alloc, command, sources, program, out),
    }
}

// Does what is asked with a program that breaks no rule, and leaves it to the end of the process: a tree may be deep, and
// would be taken apart level by level.
fn work_and_leave<O: Sink>(
    alloc: Global,
    command: &LoadCommand,
    sources: &Sources,
    program: Program,
    out: &mut O,
) -> Outcome
    ensures comes { Comes (λ whole. IsResult whole command.now (files_of sources.now)) result (O.written out.old) (O.written out.new) }
    ensures fault { result ≡ Outcome.WriteFault → HasFaulted (O.faults out.old) (O.faults out.new) }
    ensures later { O.faults out.old ≤ O.faults out.new }
{
    let outcome = test_and_work(alloc, command, sources, &program, out);
    forget(program);
    outcome
}

// Tests that a program that breaks no rule is typed, and does what is asked with it.
fn test_and_work<O: Sink>(
    alloc: Global,
    command: &LoadCommand,
    sources: &Sources,
    program: &Program,
    out: &mut O,
) -> Outcome
    ensures comes { Comes (λ whole. IsResult whole command.now (files_of sources.now)) result (O.written out.old) (O.written out.new) }
    ensures fault { result ≡ Outcome.WriteFault → HasFaulted (O.faults out.old) (O.faults out.new) }
    ensures later { O.faults out.old ≤ O.faults out.new }
{
    let Ok(typed) = is_program(alloc, program) else {
        return Outcome::OutOfMemory;
    };
    if !typed {
        return lost();
    }
    work_checked(alloc, command, sources, program, out)
}

// Does what is asked with a program that breaks no rule and is typed.
fn work_checked<O: Sink>(
    alloc: Global,
    command: &LoadCommand,
    sources: &Sources,
    program: &Program,
    out: &mut O,
) -> Outcome
    requires { IsTypedProgram program.now }
    ensures comes { Comes (λ whole. IsResult whole command.now (files_of sources.now)) result (O.written out.old) (O.written out.new) }
    ensures fault { result ≡ Outcome.WriteFault → HasFaulted (O.faults out.old) (O.faults out.new) }
    ensures later { O.faults out.old ≤ O.faults out.new }
{
    let lacks_main = needs_main(command) && program.main.is_none();
    if lacks_main {
        return refused(alloc, sources, package_name(sources), Rule::NotAMainPackage);
    }
    work_on(alloc, command, sources, program, out)
}

// Whether what is asked begins at `main`.
fn needs_main(command: &LoadCommand) -> bool
    ensures { result ≡ needs_main command.now }
{
    command.run || command.callgraph.is_some()
}

// Where the target's first file has the name of its package.
fn package_name(sources: &Sources) -> Pos {
    match sources.file(0) {
        Some(file) => Pos {
            file: 0,
            offset: file.tree.name.start,
        },
        None => Pos { file: 0, offset: 0 },
    }
}

// That a rule is broken at a place.
fn refused(alloc: Global, sources: &Sources, pos: Pos, rule: Rule) -> Outcome
    ensures { IsRefusal (files_of sources.now) result }
{
    if !is_checked(rule.row()) || !lies_in(sources, pos) {
        return lost();
    }
    match sources.place(alloc, pos) {
        Ok(place) => Outcome::Refused { place, rule },
        Err(_) => Outcome::OutOfMemory,
    }
}

// Whether a row is that of a rule that programs are checked for once they are loaded.
fn is_checked(row: u32) -> bool
    ensures { IsTrue result → IsCheckedRow row }
{
    18 <= row && row <= 69
}

// Whether a position lies in a file of the program, or at its end.
fn lies_in(sources: &Sources, pos: Pos) -> bool
    ensures { IsTrue result → IsWithin (files_of sources.now) pos }
{
    match sources.file(pos.file) {
        Some(file) => pos.offset as usize <= file.bytes.len(),
        None => false,
    }
}

// The answer where a rule of loading, or a place outside of the program, would be named, or a program that breaks no rule
// is not typed: none is.
fn lost() -> Outcome
    ensures { result ≡ Outcome.InternalError }
{
    Outcome::InternalError
}
