//! Which lines are typed, and how they are printed.

use crate::tests::codes::{Subject, TESTED, code_of, kept};
use crate::tests::rows::{CALLS, HELD, Row, SIMPLE};
use go_base::NoMemory;
use go_devices::MemSink;
use ssa_ir::{Code, FunctionKind};
use ssa_print::{Show, print};
use ssa_typed::{TypedError, type_code};
use std::alloc::Global;
use std::test::Fail;

/// What `type_code` says of a subject.
fn judged(alloc: Global, subject: Subject) -> Result<Option<TypedError>, NoMemory> {
    let code = code_of(alloc, subject)?;
    let answer = type_code(alloc, &code).err();
    drop(code);
    Ok(answer)
}

/// Where the one instruction of a code is not typed.
const ILL: Option<TypedError> = Some(TypedError::IllTyped {
    function: TESTED,
    block: 0,
    instr: 0,
});

/// Whether a line is typed, or not, as its row says.
fn is_judged(alloc: Global, row: &Row) -> Result<bool, NoMemory> {
    let (line, text) = row;
    let wanted = if text.is_some() { None } else { ILL };
    Ok(judged(alloc, Subject::of(line))? == wanted)
}

#[test]
fn lines_are_typed_or_not(rt: HostRuntime) -> Result<(), Fail> {
    for rows in [SIMPLE, HELD, CALLS] {
        for row in rows {
            assert!(rt; is_judged(rt.alloc(), row)?, "{}", row.0);
        }
    }
    Ok(())
}

/// What is printed of a code.
pub fn print_code(alloc: Global, code: &Code) -> Result<MemSink, NoMemory> {
    let mut out = MemSink::new(alloc, &[])?;
    let show = Show {
        functions: true,
        available: false,
    };
    let done = print(alloc, code, show, &mut out);
    kept(out, done.map_err(|_| NoMemory))
}

/// What is printed of a line, where registers are given before it.
fn printed(alloc: Global, line: &str) -> Result<MemSink, NoMemory> {
    let mut subject = Subject::of(line);
    subject.given = true;
    let code = code_of(alloc, subject)?;
    let out = print_code(alloc, &code);
    drop(code);
    out
}

/// Whether the last line that is printed is a text.
fn ends_as(out: &[u8], text: &str) -> bool {
    let last = out.len().saturating_sub(1 + text.len());
    let (before, line) = (
        out.get(..last).unwrap_or(&[]),
        out.get(last..).unwrap_or(&[]),
    );
    before.last() == Some(&b'\t') && line.get(..text.len()) == Some(text.as_bytes())
}

#[test]
fn lines_have_their_texts(rt: HostRuntime) -> Result<(), Fail> {
    for rows in [SIMPLE, HELD, CALLS] {
        for (line, text) in rows {
            if let Some(text) = text {
                let out = printed(rt.alloc(), line)?;
                assert!(rt; ends_as(out.bytes(), text), "{line}");
            }
        }
    }
    Ok(())
}

/// Lines, with the kind of their function, whether it has a recover block, and whether they are then typed.
const ALLOWED: &[(&str, FunctionKind, bool, bool)] = &[
    ("a(s0", FunctionKind::Wrapper, true, true),
    ("a(iu", FunctionKind::Wrapper, true, true),
    ("a(ds", FunctionKind::Wrapper, true, false),
    ("_gs0", FunctionKind::Wrapper, true, false),
    ("_ds0", FunctionKind::Wrapper, true, false),
    ("_gs0", FunctionKind::Source, false, true),
    ("_ds0", FunctionKind::Source, false, false),
];

#[test]
fn calls_that_kinds_of_functions_allow(rt: HostRuntime) -> Result<(), Fail> {
    for (line, kind, recover, is_typed) in ALLOWED {
        let mut subject = Subject::of(line);
        subject.kind = *kind;
        subject.recover = *recover;
        assert_eq!(rt; judged(rt.alloc(), subject)?.is_none(), *is_typed, "{line}");
    }
    Ok(())
}
