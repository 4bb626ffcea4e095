//! Goroutines, channels and choices.

use crate::tests::rigs::{AMPLE, Ends, Row, has_ended, ran};
use std::test::Fail;

/// `c := make(chan int); c <- 1`
const SENDS: &[&str] = &[
    "func main.main",
    "block",
    "println 'begun",
    "chan make #0",
    "send .0 #1",
    "println 'never",
    "return",
];

const RECEIVES: &[&str] = &[
    "func main.main",
    "block",
    "chan make #1",
    "int receive .0",
    "println .1",
    "return",
];

const RECEIVES_FROM_NIL: &[&str] = &[
    "func main.main",
    "block",
    "int receive nil",
    "println .0",
    "return",
];

/// Both goroutines wait.
const WAITS: &[&str] = &[
    "func main.main",
    "block",
    "chan make #0",
    "go 1 .0",
    "int receive .0",
    "println .1",
    "int receive .0",
    "println .2",
    "return",
];

const SENDS_ONE: &[&str] = &["func main.f chan", "block", "send $0 #5", "return"];

const DEADLOCKS: &[Row] = &[
    (&[SENDS], &[], AMPLE, "begun\n", Ends::Deadlocks),
    (&[RECEIVES], &[], AMPLE, "", Ends::Deadlocks),
    (&[RECEIVES_FROM_NIL], &[], AMPLE, "", Ends::Deadlocks),
    (&[WAITS, SENDS_ONE], &[], AMPLE, "5\n", Ends::Deadlocks),
    (&[WAITS, SENDS_ONE], &[1], AMPLE, "5\n", Ends::Deadlocks),
];

#[test]
fn goroutines_deadlock(rt: HostRuntime) -> Result<(), Fail> {
    for (functions, choices, bound, wanted, ends) in DEADLOCKS {
        let (out, ending) = ran(rt.alloc(), functions, choices, *bound)?.ok_or("unsound")?;
        assert_eq!(rt; out.bytes(), wanted.as_bytes());
        assert!(rt; has_ended(&ending, *ends), "{ending:?}");
    }
    Ok(())
}

/// Two channels of which both hold a value; the index of the case, whether a value came, and both values are printed.
const CHOOSES: &[&str] = &[
    "func main.main",
    "block",
    "chan make #1",
    "chan make #1",
    "send .0 #10",
    "send .1 #20",
    "choice select .0 .1",
    "int part .2 0",
    "bool part .2 1",
    "int part .2 2",
    "int part .2 3",
    "println .3 .4 .5 .6",
    "return",
];

/// Neither channel holds a value.
const TRIES: &[&str] = &[
    "func main.main",
    "block",
    "chan make #1",
    "choice try .0 nil",
    "int part .1 0",
    "bool part .1 1",
    "int part .1 2",
    "println .2 .3 .4",
    "return",
];

/// `go func() { println("g") }(); println("m")`
const STARTS: &[&str] = &["func main.main", "block", "go 1", "println 'm", "return"];

const SAYS: &[&str] = &["func main.f", "block", "println 'g", "return"];

/// A choice among more than one candidate takes the next number, modulo their number, or 0 where none is left.
const CHOICES: &[Row] = &[
    (&[CHOOSES], &[], AMPLE, "0 true 10 0\n", Ends::Exits(0)),
    (&[CHOOSES], &[0], AMPLE, "0 true 10 0\n", Ends::Exits(0)),
    (&[CHOOSES], &[1], AMPLE, "1 true 0 20\n", Ends::Exits(0)),
    (&[CHOOSES], &[3], AMPLE, "1 true 0 20\n", Ends::Exits(0)),
    (&[TRIES], &[1], AMPLE, "-1 false 0\n", Ends::Exits(0)),
    (&[STARTS, SAYS], &[], AMPLE, "m\n", Ends::Exits(0)),
    (&[STARTS, SAYS], &[1], AMPLE, "g\nm\n", Ends::Exits(0)),
];

#[test]
fn choices_are_taken(rt: HostRuntime) -> Result<(), Fail> {
    for (functions, choices, bound, wanted, ends) in CHOICES {
        let (out, ending) = ran(rt.alloc(), functions, choices, *bound)?.ok_or("unsound")?;
        assert_eq!(rt; out.bytes(), wanted.as_bytes(), "{choices:?}");
        assert!(rt; has_ended(&ending, *ends), "{ending:?}");
    }
    Ok(())
}
