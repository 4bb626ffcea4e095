//! The texts of faults and of panics.

use go_base::{Names, NoMemory, Text, TypeId};
use go_text::Labels;
use go_type::Basic;
use go_value::{Fault, Value};
use std::alloc::Global;
use std::test::Fail;
use value_fixtures::{ANY, ERROR_STRING, INTS, NAMES, PAIR, made, types};
use value_texts::{fault_text, panic_text};

const INT: TypeId = TypeId {
    number: Basic::Int as u64,
};

/// A fault, and its text.
const FAULTS: &[(Fault, &str)] = &[
    (
        Fault::Index { index: -1, len: 5 },
        "index out of range [-1] with length 5",
    ),
    (
        Fault::Index {
            index: i128::MAX,
            len: u64::MAX,
        },
        "index out of range [170141183460469231731687303715884105727] with length 18446744073709551615",
    ),
    (Fault::SliceBounds, "slice bounds out of range"),
    (Fault::ZeroDivisor, "integer divide by zero"),
    (
        Fault::NilPointer,
        "invalid memory address or nil pointer dereference",
    ),
    (Fault::NilMap, "assignment to entry in nil map"),
    (Fault::NegativeShift, "negative shift amount"),
    (Fault::MakeSliceLen, "makeslice: len out of range"),
    (Fault::MakeSliceCap, "makeslice: cap out of range"),
    (Fault::GrowSlice, "growslice: len out of range"),
    (Fault::MakeChan, "makechan: size out of range"),
    (Fault::TextTooLong, "string too long"),
    (Fault::SendOnClosed, "send on closed channel"),
    (Fault::CloseOfClosed, "close of closed channel"),
    (Fault::CloseOfNil, "close of nil channel"),
    (Fault::Unhashable(INTS), "hash of unhashable type []int"),
    (
        Fault::Uncomparable(PAIR),
        "comparing uncomparable type struct{a int; _ int}",
    ),
    (
        Fault::Assertion {
            dynamic: Some(INT),
            wanted: ERROR_STRING,
        },
        "interface conversion: int is not runtime.errorString",
    ),
    (
        Fault::Assertion {
            dynamic: None,
            wanted: ANY,
        },
        "interface conversion: nil is not interface{}",
    ),
    (Fault::PanicNil, "panic called with nil argument"),
    (Fault::TooDeep, "value nested too deeply"),
];

/// What types are named by.
fn naming(alloc: Global) -> Result<(Names, Labels), NoMemory> {
    let mut names = Names::new(alloc);
    for name in NAMES {
        names.intern(name)?;
    }
    let mut labels = Labels::new(alloc);
    for label in ["main", "runtime"] {
        labels.push(Text::new(alloc, label)?)?;
    }
    Ok((names, labels))
}

#[test]
fn faults_have_texts(rt: HostRuntime) -> Result<(), Fail> {
    let types = types(rt.alloc())?;
    let (names, labels) = naming(rt.alloc())?;
    for (fault, given) in FAULTS {
        let text = fault_text(rt.alloc(), &names, &labels, &types, fault)?;
        assert_eq!(rt; text.as_slice(), given.as_bytes());
    }
    Ok(())
}

/// The words of a value in an interface, and the text of a panic with it.
const PANICS: &[(&str, &str)] = &[
    ("7 int", "7"),
    ("7 int8", "7"),
    ("true bool", "true"),
    ("'boom string", "boom"),
    ("7 count", "main.count(7)"),
    ("'a\"b label", "main.label(\"a\\\"b\")"),
    ("'gone errorString", "runtime error: gone"),
    ("1 2 blank pair", "(struct{a int; _ int})"),
    ("slice ints", "([]int)"),
    ("func function", "(func())"),
    ("1 2 two array", "([2]int)"),
];

#[test]
fn panics_have_texts(rt: HostRuntime) -> Result<(), Fail> {
    let types = types(rt.alloc())?;
    let (names, labels) = naming(rt.alloc())?;
    for (words, given) in PANICS {
        let value = made(rt.alloc(), &types, words)?;
        let dynamic = match &value {
            Value::Interface(dynamic) => Some(dynamic),
            _ => None,
        };
        let dynamic = dynamic.ok_or("no interface")?;
        let known = Some(ERROR_STRING);
        let text = panic_text(rt.alloc(), &names, &labels, &types, known, dynamic)?;
        assert_eq!(rt; text.as_slice(), given.as_bytes(), "{words}");
    }
    Ok(())
}
