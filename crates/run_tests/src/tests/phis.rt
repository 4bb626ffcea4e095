//! Phis.

use crate::tests::rigs::{AMPLE, Ends, Row, has_ended, ran};
use std::test::Fail;

/// `a, b := 1, 2; for i := 0; i < 3; i++ { a, b = b, a }; println(a, b)`
const SWAPS: &[&str] = &[
    "func main.main",
    "block",
    "jump 1",
    "block 0 2",
    "int phi 0 #1 2 .1",
    "int phi 0 #2 2 .0",
    "int phi 0 #0 2 .4",
    "bool less .2 #3",
    "if .3 2 3",
    "block 1",
    "tick",
    "int add .2 #1",
    "jump 1",
    "block 1",
    "println .0 .1",
    "return",
];

/// Three values go round in a block that leads to itself, as long as the first is less than 3.
const GOES_ROUND: &[&str] = &[
    "func main.main",
    "block",
    "jump 1",
    "block 0 1",
    "int phi 0 #1 1 .1",
    "int phi 0 #2 1 .2",
    "int phi 0 #3 1 .0",
    "println .0 .1 .2",
    "bool less .0 #3",
    "if .3 1 2",
    "block 1",
    "return",
];

const TWICE: &[&str] = &[
    "func main.main",
    "block",
    "call 1 #7",
    "call 1 #-7",
    "return",
];

/// The phis take the values of the edge that was walked.
const DIAMOND: &[&str] = &[
    "func main.f int",
    "block",
    "bool less $0 #0",
    "if .0 1 2",
    "block 0",
    "int add $0 #100",
    "jump 3",
    "block 0",
    "jump 3",
    "block 1 2",
    "int phi 1 .1 2 $0",
    "string phi 1 'low 2 'high",
    "println .2 .3",
    "return",
];

const ROWS: &[Row] = &[
    (&[SWAPS], &[], AMPLE, "2 1\n", Ends::Exits(0)),
    (
        &[GOES_ROUND],
        &[],
        AMPLE,
        "1 2 3\n2 3 1\n3 1 2\n",
        Ends::Exits(0),
    ),
    (
        &[TWICE, DIAMOND],
        &[],
        AMPLE,
        "7 high\n93 low\n",
        Ends::Exits(0),
    ),
];

#[test]
fn phis_are_read_at_once(rt: HostRuntime) -> Result<(), Fail> {
    for (functions, choices, bound, wanted, ends) in ROWS {
        let (out, ending) = ran(rt.alloc(), functions, choices, *bound)?.ok_or("unsound")?;
        assert_eq!(rt; out.bytes(), wanted.as_bytes());
        assert!(rt; has_ended(&ending, *ends), "{ending:?}");
    }
    Ok(())
}
