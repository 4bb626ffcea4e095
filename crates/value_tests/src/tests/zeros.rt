//! Zero values, and copies of values. Go specification, "The zero value".

use go_base::TypeId;
use go_type::{Basic, basic};
use go_value::{Value, zero_like, zero_value};
use std::test::Fail;
use value_fixtures::{
    ANY, ARRAY, BLANK, CHAN, COUNT, ERROR_STRING, FUNC, HOLDER, INTS, MAP, PAIR, POINTER, made,
    shown, types,
};

const BOOL: TypeId = TypeId {
    number: Basic::Bool as u64,
};

const UINT8: TypeId = TypeId {
    number: Basic::Uint8 as u64,
};

/// A type, and what is shown of its zero value.
const ZEROS: &[(TypeId, &str)] = &[
    (BOOL, "false"),
    (UINT8, "0"),
    (COUNT, "0"),
    (ERROR_STRING, ""),
    (ANY, "0"),
    (INTS, "-"),
    (POINTER, "-"),
    (MAP, "-"),
    (CHAN, "-"),
    (FUNC, "f"),
    (ARRAY, " 0 0"),
    (PAIR, " 0 _0"),
    (HOLDER, " "),
];

#[test]
fn types_have_zero_values(rt: HostRuntime) -> Result<(), Fail> {
    let types = types(rt.alloc())?;
    assert!(rt; basic(Basic::Bool) == BOOL);
    for (of, given) in ZEROS {
        let value = zero_value(rt.alloc(), &types, Some(BLANK), *of)?;
        assert_eq!(rt;
            shown(rt.alloc(), &value)?.as_slice(),
            given.as_bytes(),
            "{of:?}"
        );
    }
    Ok(())
}

/// The words of a value, what is shown of it, and of the zero value of its type.
const COPIED: &[(&str, &str, &str)] = &[
    ("true", "true", "false"),
    ("7", "7", "0"),
    ("'a", "a", ""),
    ("7 int", "[7]", "0"),
    ("7 8 two", " 7 8", " 0 0"),
    ("7 8 blank", " 7 _8", " 0 _0"),
    ("'a one", " a", " "),
    ("func", "f", "f"),
    ("slice", "-", "-"),
];

#[test]
fn values_are_copied(rt: HostRuntime) -> Result<(), Fail> {
    let types = types(rt.alloc())?;
    for (words, given, zero) in COPIED {
        let value = made(rt.alloc(), &types, words)?.copy(rt.alloc())?;
        assert_eq!(rt;
            shown(rt.alloc(), &value)?.as_slice(),
            given.as_bytes(),
            "{words}"
        );
        let like = zero_like(rt.alloc(), &value)?;
        assert_eq!(rt;
            shown(rt.alloc(), &like)?.as_slice(),
            zero.as_bytes(),
            "{words}"
        );
    }
    let (mut number, mut truth) = (Value::Int(7), Value::Truth(true));
    number.put_int(9);
    truth.put_int(9);
    assert_eq!(rt; shown(rt.alloc(), &number)?.as_slice(), b"9".as_slice());
    assert_eq!(rt; shown(rt.alloc(), &truth)?.as_slice(), b"true".as_slice());
    Ok(())
}
