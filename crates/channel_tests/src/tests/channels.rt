//! Goroutines, channels and choices. Go specification, "Channel types", "Send statements", "Receive operator", "Select
//! statements" and "Close".

use go_base::{ChanId, GoId, NoMemory};
use go_sched::{
    Cases, ChanOp, Point, Received, Sched, SchedError, Selected, Sent, Wake, WakeResult, Wakes,
};
use go_text::push_number;
use go_value::{Fault, Value};
use std::alloc::Global;
use std::test::Fail;
use value_fixtures::push_shown;

/// A channel, which is nil where there is none.
type Chan = Option<ChanId>;

#[derive(Clone, Copy)]
enum Case {
    Send(Chan, i128),
    Receive(Chan),
}

/// What is done. Unless another is chosen, the goroutine that does it is 0.
#[derive(Clone, Copy)]
enum Act {
    /// A new channel of a size.
    Make(u32),
    Spawn,
    Do(Case),
    Close(Chan),
    /// A `select`, and whether it has a default.
    Select(&'static [Case], bool),
    Switch(Point),
    IsReady(Case),
    Len(Chan),
    Cap(Chan),
}

/// What is done, and what comes of it: the case that was done (0 where there are none), the value that came, and each
/// goroutine that goes on, with its case.
type Script = &'static [(Act, &'static str)];

const FIRST: Chan = Some(ChanId { number: 0 });

const SECOND: Chan = Some(ChanId { number: 1 });

/// Values come in the order in which they were sent, and those that wait to send are served in order.
const BUFFERED: Script = &[
    (Act::Make(1), "0"),
    (Act::Spawn, "1"),
    (Act::Spawn, "2"),
    (Act::Len(FIRST), "0"),
    (Act::Cap(FIRST), "1"),
    (Act::IsReady(Case::Receive(FIRST)), "no"),
    (Act::IsReady(Case::Send(FIRST, 1)), "yes"),
    (Act::Do(Case::Send(FIRST, 1)), "0"),
    (Act::Len(FIRST), "1"),
    (Act::IsReady(Case::Send(FIRST, 2)), "no"),
    (Act::Do(Case::Send(FIRST, 2)), "blocks"),
    (Act::Switch(Point::Blocked), "1"),
    (Act::Do(Case::Send(FIRST, 3)), "blocks"),
    (Act::Switch(Point::Blocked), "2"),
    (Act::Do(Case::Receive(FIRST)), "0 got 1; 0.0 sent"),
    (Act::Do(Case::Receive(FIRST)), "0 got 2; 1.0 sent"),
    (Act::Len(FIRST), "1"),
    (Act::Do(Case::Receive(FIRST)), "0 got 3"),
    (Act::Do(Case::Receive(FIRST)), "blocks"),
    (Act::Switch(Point::Blocked), "0"),
    (Act::Do(Case::Send(FIRST, 9)), "0; 2.0 got 9"),
];

/// Those that wait to receive are served in order.
const UNBUFFERED: Script = &[
    (Act::Make(0), "0"),
    (Act::Spawn, "1"),
    (Act::Spawn, "2"),
    (Act::IsReady(Case::Send(FIRST, 1)), "no"),
    (Act::Do(Case::Receive(FIRST)), "blocks"),
    (Act::Switch(Point::Blocked), "1"),
    (Act::Do(Case::Receive(FIRST)), "blocks"),
    (Act::Switch(Point::Blocked), "2"),
    (Act::IsReady(Case::Send(FIRST, 1)), "yes"),
    (Act::Do(Case::Send(FIRST, 7)), "0; 0.0 got 7"),
    (Act::Do(Case::Send(FIRST, 8)), "0; 1.0 got 8"),
    (Act::Do(Case::Send(FIRST, 9)), "blocks"),
    (Act::Switch(Point::Blocked), "0"),
    (Act::Do(Case::Receive(FIRST)), "0 got 9; 2.0 sent"),
];

/// What was sent before is received from a closed channel, and those that wait to send meet a fault.
const CLOSED: Script = &[
    (Act::Make(1), "0"),
    (Act::Spawn, "1"),
    (Act::Do(Case::Send(FIRST, 5)), "0"),
    (Act::Do(Case::Send(FIRST, 6)), "blocks"),
    (Act::Switch(Point::Blocked), "1"),
    (Act::Close(FIRST), "0; 0.0 fault"),
    (Act::IsReady(Case::Send(FIRST, 1)), "yes"),
    (Act::Do(Case::Receive(FIRST)), "0 got 5"),
    (Act::Do(Case::Receive(FIRST)), "0"),
    (Act::Do(Case::Receive(FIRST)), "0"),
    (Act::Do(Case::Send(FIRST, 1)), "send on closed"),
    (Act::Close(FIRST), "close of closed"),
    (Act::Close(None), "close of nil"),
];

/// All that wait to receive go on where the channel is closed.
const CLOSED_TO_RECEIVERS: Script = &[
    (Act::Make(0), "0"),
    (Act::Spawn, "1"),
    (Act::Spawn, "2"),
    (Act::Do(Case::Receive(FIRST)), "blocks"),
    (Act::Switch(Point::Blocked), "1"),
    (
        Act::Select(&[Case::Send(FIRST, 1), Case::Receive(FIRST)], false),
        "0; 0.0 got 1",
    ),
    (Act::Do(Case::Receive(FIRST)), "blocks"),
    (Act::Switch(Point::Blocked), "2"),
    (Act::Close(FIRST), "0; 1.0"),
];

/// A goroutine that waits both to receive and to send receives where the channel is closed.
const CLOSED_TO_BOTH: Script = &[
    (Act::Make(0), "0"),
    (Act::Spawn, "1"),
    (
        Act::Select(&[Case::Send(FIRST, 1), Case::Receive(FIRST)], false),
        "blocks",
    ),
    (Act::Switch(Point::Blocked), "1"),
    (Act::Close(FIRST), "0; 0.1"),
];

/// Nothing is ready on nil, and without anyone to go on no goroutine is next.
const NIL: Script = &[
    (Act::Len(None), "0"),
    (Act::Cap(None), "0"),
    (Act::Spawn, "1"),
    (Act::IsReady(Case::Send(None, 1)), "no"),
    (Act::IsReady(Case::Receive(None)), "no"),
    (Act::Do(Case::Send(None, 1)), "blocks"),
    (Act::Switch(Point::Blocked), "1"),
    (Act::Do(Case::Receive(None)), "blocks"),
    (Act::Switch(Point::Blocked), "none"),
];

/// With the choices 1 and 4: the ready cases in order are chosen among, and one alone takes no choice.
const SELECTED: Script = &[
    (Act::Make(1), "0"),
    (Act::Make(1), "1"),
    (Act::Do(Case::Send(FIRST, 10)), "0"),
    (Act::Do(Case::Send(SECOND, 20)), "0"),
    (
        Act::Select(&[Case::Receive(FIRST), Case::Receive(SECOND)], false),
        "1 got 20",
    ),
    (
        Act::Select(&[Case::Receive(SECOND), Case::Receive(FIRST)], false),
        "1 got 10",
    ),
    (
        Act::Select(&[Case::Receive(FIRST), Case::Receive(SECOND)], true),
        "default",
    ),
    (Act::Select(&[], true), "default"),
    (
        Act::Select(
            &[
                Case::Receive(FIRST),
                Case::Send(FIRST, 1),
                Case::Send(SECOND, 2),
            ],
            false,
        ),
        "1",
    ),
    (
        Act::Select(&[Case::Receive(None), Case::Receive(FIRST)], true),
        "1 got 1",
    ),
    (Act::Close(SECOND), "0"),
    (
        Act::Select(&[Case::Receive(FIRST), Case::Receive(SECOND)], true),
        "1",
    ),
    (
        Act::Select(&[Case::Send(SECOND, 1)], true),
        "send on closed",
    ),
];

/// A goroutine that waits in a `select` goes on with one case, and leaves the lists of all.
const WAITED: Script = &[
    (Act::Make(0), "0"),
    (Act::Make(1), "1"),
    (Act::Spawn, "1"),
    (Act::Do(Case::Send(SECOND, 2)), "0"),
    (
        Act::Select(&[Case::Receive(FIRST), Case::Send(SECOND, 3)], false),
        "blocks",
    ),
    (Act::Switch(Point::Blocked), "1"),
    (Act::IsReady(Case::Send(FIRST, 7)), "yes"),
    (Act::Do(Case::Receive(SECOND)), "0 got 2; 0.1 sent"),
    (Act::IsReady(Case::Send(FIRST, 7)), "no"),
    (Act::Do(Case::Receive(SECOND)), "0 got 3"),
    (
        Act::Select(&[Case::Send(None, 1), Case::Receive(FIRST)], false),
        "blocks",
    ),
    (Act::Switch(Point::Blocked), "0"),
    (Act::Do(Case::Send(FIRST, 8)), "0; 1.1 got 8"),
];

/// With the choices 2, 4, 0: the current goroutine, then those behind it in cyclic order; one that yields stands last.
const SWITCHED: Script = &[
    (Act::Spawn, "1"),
    (Act::Spawn, "2"),
    (Act::Switch(Point::After), "2"),
    (Act::Switch(Point::After), "0"),
    (Act::Switch(Point::Yield), "1"),
    (Act::Switch(Point::Yield), "2"),
    (Act::Switch(Point::After), "2"),
    (Act::Switch(Point::Ended), "0"),
    (Act::Switch(Point::Yield), "1"),
    (Act::Switch(Point::Ended), "0"),
    (Act::Switch(Point::Yield), "0"),
    (Act::Switch(Point::Ended), "none"),
];

/// Choices, and a script.
const SCRIPTS: &[(&[u32], Script)] = &[
    (&[], BUFFERED),
    (&[], UNBUFFERED),
    (&[], CLOSED),
    (&[], CLOSED_TO_RECEIVERS),
    (&[], CLOSED_TO_BOTH),
    (&[], NIL),
    (&[1, 4], SELECTED),
    (&[], WAITED),
    (&[2, 4, 0], SWITCHED),
];

fn operation(case: Case) -> ChanOp {
    match case {
        Case::Send(chan, value) => ChanOp::Send {
            chan,
            value: Value::Int(value),
        },
        Case::Receive(chan) => ChanOp::Receive { chan },
    }
}

fn cases(alloc: Global, all: &[Case]) -> Result<Cases, NoMemory> {
    let mut cases = Cases::new(alloc);
    for one in all {
        cases.push(operation(*one))?;
    }
    Ok(cases)
}

/// What comes of what is done.
fn outcome(alloc: Global, sched: &mut Sched, act: Act) -> Result<Vec<u8>, NoMemory> {
    let mut text = Vec::new(alloc);
    match act {
        Act::Make(size) => push_number(&mut text, sched.make_chan(size)?.number)?,
        Act::Spawn => push_number(&mut text, sched.spawn()?.number)?,
        Act::Len(chan) => push_number(&mut text, sched.len(chan))?,
        Act::Cap(chan) => push_number(&mut text, sched.cap(chan))?,
        Act::IsReady(case) => {
            let ready = sched.ready(&operation(case));
            text.extend_from_slice(if ready { b"yes" } else { b"no" })?;
        }
        Act::Switch(point) => match sched.switch(point) {
            Some(next) => push_number(&mut text, next.number)?,
            None => text.extend_from_slice(b"none")?,
        },
        Act::Do(case) => push_selected(&mut text, done(sched, case))?,
        Act::Close(chan) => push_selected(&mut text, closed(sched, chan))?,
        Act::Select(all, has_default) => {
            push_selected(&mut text, sched.select(&cases(alloc, all)?, has_default))?;
        }
    }
    Ok(text)
}

/// What an operation that stands alone did, as its case would have it.
fn done(sched: &mut Sched, case: Case) -> Result<Selected, SchedError> {
    let index = 0;
    match case {
        Case::Send(chan, value) => Ok(match sched.send(chan, Value::Int(value))? {
            Sent::Done(wakes) => Selected::Case {
                index,
                value: None,
                wakes,
            },
            Sent::Blocks => Selected::Blocks,
        }),
        Case::Receive(chan) => Ok(match sched.receive(chan)? {
            Received::Done { value, wakes } => Selected::Case {
                index,
                value,
                wakes,
            },
            Received::Blocks => Selected::Blocks,
        }),
    }
}

fn closed(sched: &mut Sched, chan: Chan) -> Result<Selected, SchedError> {
    let wakes = sched.close(chan)?;
    Ok(Selected::Case {
        index: 0,
        value: None,
        wakes,
    })
}

/// The index of a case, the value that came, and who goes on.
fn push_selected(text: &mut Vec<u8>, answer: Result<Selected, SchedError>) -> Result<(), NoMemory> {
    match answer {
        Ok(
            Selected::Case {
                index,
                value,
                wakes,
            },
        ) => {
            push_number(text, u64::from(index))?;
            push_got(text, &value)?;
            return push_wakes(text, wakes);
        }
        Ok(Selected::Default) => text.extend_from_slice(b"default")?,
        Ok(Selected::Blocks) => text.extend_from_slice(b"blocks")?,
        Err(SchedError::Fault(Fault::SendOnClosed)) => text.extend_from_slice(b"send on closed")?,
        Err(SchedError::Fault(Fault::CloseOfClosed)) => text.extend_from_slice(b"close of closed")?,
        Err(SchedError::Fault(Fault::CloseOfNil)) => text.extend_from_slice(b"close of nil")?,
        Err(_) => return Err(NoMemory),
    }
    Ok(())
}

/// A value that came, where there is one.
fn push_got(text: &mut Vec<u8>, value: &Option<Value>) -> Result<(), NoMemory> {
    if let Some(value) = value {
        text.extend_from_slice(b" got ")?;
        push_shown(text, value)?;
    }
    Ok(())
}

/// The number of each goroutine that goes on, its case, and how.
fn push_wakes(text: &mut Vec<u8>, wakes: Wakes) -> Result<(), NoMemory> {
    for wake in wakes.as_slice() {
        text.extend_from_slice(b"; ")?;
        push_number(text, wake.goroutine.number)?;
        text.push(b'.')?;
        push_number(text, u64::from(wake.index))?;
        match &wake.result {
            WakeResult::Sent => text.extend_from_slice(b" sent")?,
            WakeResult::Received(value) => push_got(text, value)?,
            WakeResult::SendOnClosed => text.extend_from_slice(b" fault")?,
        }
    }
    Ok(())
}

#[test]
fn scripts_are_played(rt: HostRuntime) -> Result<(), Fail> {
    for (number, (choices, script)) in SCRIPTS.iter().enumerate() {
        let mut sched = Sched::new(rt.alloc(), choices)?;
        for (place, (act, given)) in script.iter().enumerate() {
            let found = outcome(rt.alloc(), &mut sched, *act)?;
            assert_eq!(rt; found.as_slice(), given.as_bytes(), "{number} {place}");
        }
        assert!(rt; sched.is_spent());
        assert!(rt; sched.taken().is_empty());
    }
    Ok(())
}

/// How many candidates a choice has, and what is chosen of the choices 5, 4,294,967,295 and 0.
const PICKED: &[(u64, u32)] = &[(3, 2), (1, 0), (4_294_967_296, u32::MAX), (2, 0), (7, 0)];

#[test]
fn choices_are_recorded(rt: HostRuntime) -> Result<(), Fail> {
    let mut sched = Sched::recording(rt.alloc(), &[5, u32::MAX, 0])?;
    assert_eq!(rt; sched.current().number, 0);
    for (candidates, chosen) in PICKED {
        sched.make_room()?;
        assert_eq!(rt; sched.pick(*candidates), *chosen);
    }
    assert!(rt; sched.is_spent());
    assert_eq!(rt; sched.taken(), [2u32, u32::MAX, 0, 0].as_slice());
    Ok(())
}

#[test]
fn lists_are_filled(rt: HostRuntime) -> Result<(), Fail> {
    let mut cases = cases(rt.alloc(), &[])?;
    assert!(rt; cases.is_empty());
    cases.push(operation(Case::Receive(FIRST)))?;
    assert_eq!(rt; cases.len(), 1);
    assert!(rt;
        matches!(
            cases.as_slice(),
            [ChanOp::Receive {
                chan: Some(ChanId { number: 0 })
            }]
        )
    );
    let mut wakes = Wakes::new(rt.alloc());
    assert!(rt; wakes.is_empty());
    wakes.push(Wake {
        goroutine: GoId { number: 3 },
        index: 2,
        result: WakeResult::Sent,
    })?;
    assert_eq!(rt; wakes.len(), 1);
    let items = wakes.into_items();
    assert_eq!(rt; items.first().map(|wake| wake.goroutine.number), Some(3));
    Ok(())
}
