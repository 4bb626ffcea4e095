//! Runs of lines.

use crate::tests::kinds::{Kinds, make_kinds};
use crate::tests::reading::read;
use go_base::{Ending, NameId, Names, NoMemory, Text};
use go_devices::MemSink;
use go_interp::run;
use go_text::Labels;
use go_type::{TypeIds, Types};
use ssa_ir::{Code, CodeVariables, MethodLines};
use ssa_runnable::is_runnable;
use ssa_sane::sanity;
use ssa_typed::type_code;
use std::alloc::Global;

/// How a run is to end.
#[derive(Clone, Copy)]
pub enum Ends {
    Exits(u8),
    Panics(&'static str),
    Deadlocks,
    Overflows,
    AtBound,
}

/// The functions of a code, each as lines.
pub type Lines = &'static [&'static [&'static str]];

/// The functions of a code, the choices and the bound of its run, its output, and how it is to end.
pub type Row = (Lines, &'static [u32], u64, &'static str, Ends);

/// A bound that is not met.
pub const AMPLE: u64 = 10_000_000;

/// What a run wrote, and how it ended. None where its code is not sane, typed and runnable.
pub fn ran(
    alloc: Global,
    functions: Lines,
    choices: &[u32],
    bound: u64,
) -> Result<Option<(MemSink, Ending)>, NoMemory> {
    let code = code(alloc, functions)?;
    if !is_sound(alloc, &code)? {
        return Ok(None);
    }
    let mut out = MemSink::new(alloc, &[])?;
    match run(alloc, &code, choices, bound, &mut out) {
        Ok(ending) => Ok(Some((out, ending))),
        Err(_) => Err(NoMemory),
    }
}

/// Whether a run ended as it is to.
pub fn has_ended(ending: &Ending, wanted: Ends) -> bool {
    match (ending, wanted) {
        (Ending::Exited(status), Ends::Exits(wanted)) => *status == wanted,
        (Ending::Panicked(text), Ends::Panics(wanted)) => text.as_str() == wanted,
        (Ending::Deadlock, Ends::Deadlocks) => true,
        (Ending::StackOverflow, Ends::Overflows) => true,
        (Ending::Bound, Ends::AtBound) => true,
        _ => false,
    }
}

fn code(alloc: Global, functions: Lines) -> Result<Code, NoMemory> {
    let (error, method) = (NameId { number: 0 }, NameId { number: 1 });
    let mut types = Types::new(alloc, error, method)?;
    let kinds = make_kinds(alloc, &mut types)?;
    Ok(Code {
        types,
        names: names(alloc)?,
        packages: packages(alloc)?,
        declared: declared(alloc, kinds)?,
        variables: CodeVariables::new(alloc),
        methods: MethodLines::new(alloc),
        functions: read(alloc, kinds, functions)?,
    })
}

fn names(alloc: Global) -> Result<Names, NoMemory> {
    let mut names = Names::new(alloc);
    for name in ["error", "Error", "errorString"] {
        names.intern(name)?;
    }
    Ok(names)
}

fn packages(alloc: Global) -> Result<Labels, NoMemory> {
    let mut packages = Labels::new(alloc);
    for label in ["main", "runtime"] {
        packages.push(Text::new(alloc, label)?)?;
    }
    Ok(packages)
}

fn declared(alloc: Global, kinds: Kinds) -> Result<TypeIds, NoMemory> {
    let mut declared = TypeIds::new(alloc);
    declared.push(kinds.fault)?;
    Ok(declared)
}

/// Whether a code may be run.
fn is_sound(alloc: Global, code: &Code) -> Result<bool, NoMemory> {
    for function in code.functions.as_slice() {
        if sanity(alloc, function).is_err() {
            return Ok(false);
        }
    }
    if type_code(alloc, code).is_err() {
        return Ok(false);
    }
    is_runnable(alloc, code)
}
