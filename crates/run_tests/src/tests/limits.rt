//! The limit of frames, and bounds.

use crate::tests::rigs::{AMPLE, Ends, Row, has_ended, ran};
use std::test::Fail;

/// Calls itself down to 1, and gives its argument.
const DEEP: &[&str] = &[
    "func main.f int",
    "results int",
    "block",
    "bool less $0 #2",
    "if .0 1 2",
    "block 0",
    "return #1",
    "block 0",
    "int add $0 #-1",
    "int call 1 .1",
    "int add .2 #1",
    "return .3",
];

/// With the frame of `main.main` these are 100,000 frames.
const TO_LIMIT: &[&str] = &[
    "func main.main",
    "block",
    "int call 1 #99999",
    "println .0",
    "return",
];

const PAST_LIMIT: &[&str] = &[
    "func main.main",
    "block",
    "println 'begun",
    "int call 1 #100000",
    "println .0",
    "return",
];

/// A call that returned leaves room for the next.
const TWO_TO_LIMIT: &[&str] = &[
    "func main.main",
    "block",
    "int call 1 #99999",
    "int call 1 #99999",
    "println .0 .1",
    "return",
];

/// The frame limit is asked before the tick.
const FRAMES: &[Row] = &[
    (&[TO_LIMIT, DEEP], &[], AMPLE, "99999\n", Ends::Exits(0)),
    (&[PAST_LIMIT, DEEP], &[], AMPLE, "begun\n", Ends::Overflows),
    (
        &[TWO_TO_LIMIT, DEEP],
        &[],
        AMPLE,
        "99999 99999\n",
        Ends::Exits(0),
    ),
    (&[TO_LIMIT, DEEP], &[], 100_000, "99999\n", Ends::Exits(0)),
    (&[TO_LIMIT, DEEP], &[], 99_999, "", Ends::AtBound),
    (
        &[PAST_LIMIT, DEEP],
        &[],
        100_000,
        "begun\n",
        Ends::Overflows,
    ),
];

#[test]
fn frames_have_a_limit(rt: HostRuntime) -> Result<(), Fail> {
    for (functions, choices, bound, wanted, ends) in FRAMES {
        let (out, ending) = ran(rt.alloc(), functions, choices, *bound)?.ok_or("unsound")?;
        assert_eq!(rt; out.bytes(), wanted.as_bytes(), "{bound}");
        assert!(rt; has_ended(&ending, *ends), "{bound} {ending:?}");
    }
    Ok(())
}

const HELLO: &[&str] = &["func main.main", "block", "println 'hi #7", "return"];

/// `for { println("turn") }`
const FOR_EVER: &[&str] = &[
    "func main.main",
    "block",
    "jump 1",
    "block 0 1",
    "tick",
    "println 'turn",
    "jump 1",
];

/// `os.Exit` spends no tick, and runs no deferred call.
const EXITS: &[&str] = &[
    "func main.main",
    "recovery 1",
    "block",
    "defer 1",
    "call 2 #-1",
    "rundefers",
    "return",
    "block",
    "return",
];

const SAYS: &[&str] = &["func main.f", "block", "println 'deferred", "return"];

const EXIT: &[&str] = &["external os.Exit int"];

const BOUNDS: &[Row] = &[
    (&[HELLO], &[], 0, "", Ends::AtBound),
    (&[HELLO], &[], 1, "hi 7\n", Ends::Exits(0)),
    (&[FOR_EVER], &[], 0, "", Ends::AtBound),
    (&[FOR_EVER], &[], 1, "", Ends::AtBound),
    (&[FOR_EVER], &[], 3, "turn\nturn\n", Ends::AtBound),
    (&[EXITS, SAYS, EXIT], &[], 1, "", Ends::Exits(255)),
    (&[EXITS, SAYS, EXIT], &[], 0, "", Ends::AtBound),
];

#[test]
fn runs_end_at_their_bounds(rt: HostRuntime) -> Result<(), Fail> {
    for (functions, choices, bound, wanted, ends) in BOUNDS {
        let (out, ending) = ran(rt.alloc(), functions, choices, *bound)?.ok_or("unsound")?;
        assert_eq!(rt; out.bytes(), wanted.as_bytes(), "{bound}");
        assert!(rt; has_ended(&ending, *ends), "{bound} {ending:?}");
    }
    Ok(())
}
