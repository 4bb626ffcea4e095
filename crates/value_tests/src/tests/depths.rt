//! Conversions to interfaces, assertions, method values, and how deep values may be.

use go_base::{FuncId, NoMemory, TypeId};
use go_maps::equal;
use go_type::{Basic, Types};
use go_value::{
    BoundTarget, Dynamic, Fault, FuncValue, MAX_DEPTH, Value, assert_to, assertion_fault, bind,
    to_interface,
};
use std::alloc::Global;
use std::rc::Rc;
use std::test::Fail;
use value_fixtures::{ANY, COUNT, HOLDER, LABEL, PAIR, made, parts, settled, shown, sound, types};

const INT: TypeId = TypeId {
    number: Basic::Int as u64,
};

/// The predeclared type `error`, which none of the types implements.
const ERROR: TypeId = TypeId { number: 19 };

/// A value in an interface, a type, and what an assertion of it gives where it holds; the dynamic type.
const ASSERTED: &[(&str, TypeId, Option<&str>, Option<TypeId>)] = &[
    ("7 int", INT, Some("7"), Some(INT)),
    ("7 int", COUNT, None, Some(INT)),
    ("7 count", COUNT, Some("7"), Some(COUNT)),
    ("7 count", ANY, Some("[7]"), Some(COUNT)),
    ("7 count", ERROR, None, Some(COUNT)),
    ("7 8 blank pair", PAIR, Some(" 7 _8"), Some(PAIR)),
    ("'a label", LABEL, Some("a"), Some(LABEL)),
    ("nil", INT, None, None),
    ("nil", ANY, None, None),
    ("7 int any", INT, Some("7"), Some(INT)),
];

#[test]
fn types_are_asserted(rt: HostRuntime) -> Result<(), Fail> {
    let types = types(rt.alloc())?;
    for (words, wanted, given, dynamic) in ASSERTED {
        let value = made(rt.alloc(), &types, words)?;
        let (dynamic, wanted) = (*dynamic, *wanted);
        let fault = Fault::Assertion { dynamic, wanted };
        assert!(rt; assertion_fault(&value, wanted) == fault, "{words}");
        match (assert_to(rt.alloc(), &types, value, wanted)?, given) {
            (Some(found), Some(given)) => {
                assert_eq!(rt;
                    shown(rt.alloc(), &found)?.as_slice(),
                    given.as_bytes(),
                    "{words}"
                )
            }
            (found, given) => assert!(rt; found.is_none() && given.is_none(), "{words}"),
        }
    }
    Ok(())
}

/// A value in a struct in an interface, a number of times, each of which adds 2 to the depth.
fn deep(alloc: Global, types: &Types, words: &str, times: u32) -> Result<Value, NoMemory> {
    let mut value = made(alloc, types, words)?;
    for _ in 0..times {
        let held = Dynamic::new(HOLDER, parts(alloc, None, Some(value), false)?);
        value = Value::Interface(Rc::new(alloc, held)?);
    }
    Ok(value)
}

/// Two values in interfaces whose depth is the limit, and whether they are equal.
const DEEP: &[(&str, &str, bool)] = &[
    ("1 int", "1 int", true),
    ("1 int", "2 int", false),
    ("1 int", "'1 string", false),
];

#[test]
fn deep_values_are_compared(rt: HostRuntime) -> Result<(), Fail> {
    let types = types(rt.alloc())?;
    for (first, second, same) in DEEP {
        let first = deep(rt.alloc(), &types, first, 4_999)?;
        let held = parts(
            rt.alloc(),
            None,
            Some(deep(rt.alloc(), &types, second, 4_998)?),
            false,
        )?;
        let second = sound(to_interface(rt.alloc(), &types, HOLDER, held))?;
        assert_eq!(rt; (first.depth(), second.depth()), (MAX_DEPTH, MAX_DEPTH));
        let found = sound(equal(rt.alloc(), &types, &first, &second))?;
        assert_eq!(rt; found, *same);
    }
    Ok(())
}

#[test]
fn deeper_values_are_refused(rt: HostRuntime) -> Result<(), Fail> {
    let types = types(rt.alloc())?;
    let held = deep(rt.alloc(), &types, "nil", 4_999)?;
    let value = parts(rt.alloc(), None, Some(held), false)?;
    assert_eq!(rt; value.depth(), 10_000);
    let copy = value.copy(rt.alloc())?;
    let boxed = settled(to_interface(rt.alloc(), &types, HOLDER, copy))?;
    assert!(rt; boxed.err() == Some(Fault::TooDeep));
    let target = BoundTarget::Function(FuncId { number: 0 });
    let bound = settled(bind(rt.alloc(), target, value))?;
    assert!(rt; bound.err() == Some(Fault::TooDeep));
    let receiver = deep(rt.alloc(), &types, "nil", 4_999)?;
    let bound = sound(bind(rt.alloc(), target, receiver))?;
    assert_eq!(rt; bound.depth(), 10_000);
    Ok(())
}

#[test]
fn receivers_are_bound(rt: HostRuntime) -> Result<(), Fail> {
    let target = BoundTarget::Function(FuncId { number: 4 });
    let value = sound(bind(rt.alloc(), target, Value::Int(7)))?;
    let function = match &value {
        Value::Func(function) => Some(&**function),
        _ => None,
    };
    match function.ok_or("no function")? {
        FuncValue::Bound {
            target: bound,
            receiver,
        } => {
            assert!(rt; *bound == target);
            assert_eq!(rt;
                shown(rt.alloc(), receiver.value())?.as_slice(),
                b"7".as_slice()
            );
        }
        _ => return Err("no method")?,
    }
    Ok(())
}
