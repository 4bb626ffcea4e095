//! Panics, and deferred calls.

use crate::tests::rigs::{AMPLE, Ends, Row, has_ended, ran};
use std::test::Fail;

const MAIN: &[&str] = &[
    "func main.main",
    "block",
    "println 'begun",
    "call 1",
    "println 'never",
    "return",
];

/// Passes a call on.
const BETWEEN: &[&str] = &["func main.f", "block", "call 2", "println 'never", "return"];

/// The same, with a deferred call, which takes its argument when it is deferred.
const DEFERRING: &[&str] = &[
    "func main.f",
    "recovery 1",
    "block",
    "defer 3 #1",
    "defer 3 #2",
    "call 2",
    "println 'never",
    "rundefers",
    "return",
    "block",
    "return",
];

const SHOWS: &[&str] = &["func main.h int", "block", "println $0", "return"];

const BOOM: &[&str] = &["func main.g", "block", "any box 'boom", "panic .0"];

const SEVEN: &[&str] = &["func main.g", "block", "any box #7", "panic .0"];

/// Divides by zero.
const DIVIDES: &[&str] = &[
    "func main.g",
    "block",
    "pointer new",
    "int load .0",
    "int quotient #1 .1",
    "println .2",
    "return",
];

/// Panics with what `recover` gives where nothing panics, which is nil.
const PANICS_WITH_NIL: &[&str] = &[
    "func main.g",
    "recovery 1",
    "block",
    "any recover",
    "panic .0",
    "block",
    "return",
];

const PASSED_ON: &[Row] = &[
    (
        &[MAIN, BETWEEN, BOOM],
        &[],
        AMPLE,
        "begun\n",
        Ends::Panics("boom"),
    ),
    (
        &[MAIN, BETWEEN, SEVEN],
        &[],
        AMPLE,
        "begun\n",
        Ends::Panics("7"),
    ),
    (
        &[MAIN, BETWEEN, DIVIDES],
        &[],
        AMPLE,
        "begun\n",
        Ends::Panics("runtime error: integer divide by zero"),
    ),
    (
        &[MAIN, BETWEEN, PANICS_WITH_NIL],
        &[],
        AMPLE,
        "begun\n",
        Ends::Panics("runtime error: panic called with nil argument"),
    ),
    (
        &[MAIN, DEFERRING, BOOM, SHOWS],
        &[],
        AMPLE,
        "begun\n2\n1\n",
        Ends::Panics("boom"),
    ),
];

#[test]
fn panics_go_through_frames(rt: HostRuntime) -> Result<(), Fail> {
    for (functions, choices, bound, wanted, ends) in PASSED_ON {
        let (out, ending) = ran(rt.alloc(), functions, choices, *bound)?.ok_or("unsound")?;
        assert_eq!(rt; out.bytes(), wanted.as_bytes());
        assert!(rt; has_ended(&ending, *ends), "{ending:?}");
    }
    Ok(())
}

/// Calls what panics, with a deferred call that may recover.
const GUARDED: &[&str] = &[
    "func main.f",
    "recovery 1",
    "block",
    "defer 3",
    "call 2",
    "println 'never",
    "rundefers",
    "return",
    "block",
    "return",
];

/// Goes on behind the call.
const GOES_ON: &[&str] = &["func main.main", "block", "call 1", "println 'on", "return"];

/// `println(recover().(string))`
const RECOVERS: &[&str] = &[
    "func main.h",
    "block",
    "any recover",
    "string assert .0",
    "println .1",
    "return",
];

/// The same of a run-time fault.
const RECOVERS_FAULT: &[&str] = &[
    "func main.h",
    "block",
    "any recover",
    "fault assert .0",
    "println .1",
    "return",
];

/// Recovers in a call of its own, which is no deferred one.
const HELPED: &[&str] = &["func main.h", "block", "call 4", "return"];

const HELPS: &[&str] = &["func main.help", "block", "any recover", "return"];

/// `defer func() { println(recover().(string)) }(); defer func() { panic("two") }(); panic("one")`
const PANICS_TWICE: &[&str] = &[
    "func main.main",
    "recovery 1",
    "block",
    "defer 1",
    "defer 2",
    "any box 'one",
    "panic .0",
    "block",
    "return",
];

const TWO: &[&str] = &["func main.g", "block", "any box 'two", "panic .0"];

const RECOVERED: &[Row] = &[
    (
        &[GOES_ON, GUARDED, BOOM, RECOVERS],
        &[],
        AMPLE,
        "boom\non\n",
        Ends::Exits(0),
    ),
    (
        &[GOES_ON, GUARDED, DIVIDES, RECOVERS_FAULT],
        &[],
        AMPLE,
        "integer divide by zero\non\n",
        Ends::Exits(0),
    ),
    (
        &[GOES_ON, GUARDED, BOOM, HELPED, HELPS],
        &[],
        AMPLE,
        "",
        Ends::Panics("boom"),
    ),
    (
        &[GOES_ON, GUARDED, SEVEN, RECOVERS],
        &[],
        AMPLE,
        "",
        Ends::Panics("runtime error: interface conversion: int is not string"),
    ),
    (
        &[PANICS_TWICE, RECOVERS, TWO],
        &[],
        AMPLE,
        "two\n",
        Ends::Exits(0),
    ),
];

#[test]
fn panics_are_recovered(rt: HostRuntime) -> Result<(), Fail> {
    for (functions, choices, bound, wanted, ends) in RECOVERED {
        let (out, ending) = ran(rt.alloc(), functions, choices, *bound)?.ok_or("unsound")?;
        assert_eq!(rt; out.bytes(), wanted.as_bytes());
        assert!(rt; has_ended(&ending, *ends), "{ending:?}");
    }
    Ok(())
}
