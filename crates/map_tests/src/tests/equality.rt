//! Which values are equal, and which types can be compared. Go specification, "Comparison operators".

use go_base::TypeId;
use go_maps::{
    codes_tell_equality, comparable_is_told, entries_have_equal_keys, equal, is_comparable,
};
use go_value::Fault;
use std::test::Fail;
use value_fixtures::{
    ANY, ARRAY, BAG, CHAN, COUNT, FUNC, HOLDER, INTS, MAP, PAIR, POINTER, made, settled, types,
};

/// Two values of one type, and whether they are equal.
const COMPARED: &[(&str, &str, Result<bool, Fault>)] = &[
    ("1", "1", Ok(true)),
    ("1", "2", Ok(false)),
    ("'a", "'a", Ok(true)),
    ("'a", "'ab", Ok(false)),
    ("true", "true", Ok(true)),
    // Interfaces.
    ("nil", "nil", Ok(true)),
    ("1 int", "nil", Ok(false)),
    ("1 int", "1 int", Ok(true)),
    ("1 int", "2 int", Ok(false)),
    ("1 int", "1 int8", Ok(false)),
    ("1 int", "1 count", Ok(false)),
    ("'a label", "'a string", Ok(false)),
    // Interfaces in structs in interfaces.
    ("1 int one holder", "1 int one holder", Ok(true)),
    ("1 int one holder", "2 int one holder", Ok(false)),
    ("1 int one holder", "1 int8 one holder", Ok(false)),
    ("1 int one holder", "nil one holder", Ok(false)),
    (
        "nil one holder one holder",
        "nil one holder one holder",
        Ok(true),
    ),
    ("nil one holder one holder", "nil one holder", Ok(false)),
    // Fields named `_` are left out.
    ("1 5 two", "1 6 two", Ok(false)),
    ("1 5 blank", "1 6 blank", Ok(true)),
    ("1 5 blank", "2 5 blank", Ok(false)),
    ("1 5 blank pair", "1 6 blank pair", Ok(true)),
    ("1 slice ints blank", "1 slice ints blank", Ok(true)),
    // Types that are not comparable, up to the first difference.
    ("slice", "slice", Ok(true)),
    ("func", "func", Ok(true)),
    ("slice ints", "slice ints", Err(Fault::Uncomparable(INTS))),
    ("slice ints", "1 int", Ok(false)),
    ("slice ints", "nil", Ok(false)),
    (
        "func function",
        "func function",
        Err(Fault::Uncomparable(FUNC)),
    ),
    (
        "slice one bag",
        "slice one bag",
        Err(Fault::Uncomparable(BAG)),
    ),
    ("1 slice ints two", "2 slice ints two", Ok(false)),
    (
        "1 slice ints two",
        "1 slice ints two",
        Err(Fault::Uncomparable(INTS)),
    ),
    (
        "slice ints 1 two",
        "slice ints 2 two",
        Err(Fault::Uncomparable(INTS)),
    ),
];

#[test]
fn values_are_compared(rt: HostRuntime) -> Result<(), Fail> {
    let types = types(rt.alloc())?;
    for (first, second, given) in COMPARED {
        let left = made(rt.alloc(), &types, first)?;
        let right = made(rt.alloc(), &types, second)?;
        let found = settled(equal(rt.alloc(), &types, &left, &right))?;
        assert!(rt; found == *given, "{first}, {second}");
        let found = settled(equal(rt.alloc(), &types, &right, &left))?;
        assert!(rt; found == *given, "{second}, {first}");
    }
    Ok(())
}

/// A type, and whether it can be compared.
const COMPARABLE: &[(TypeId, bool)] = &[
    (ANY, true),
    (INTS, false),
    (PAIR, true),
    (HOLDER, true),
    (BAG, false),
    (POINTER, true),
    (MAP, false),
    (CHAN, true),
    (FUNC, false),
    (ARRAY, true),
    (COUNT, true),
];

#[test]
fn types_can_be_compared(rt: HostRuntime) -> Result<(), Fail> {
    let types = types(rt.alloc())?;
    for (of, given) in COMPARABLE {
        assert_eq!(rt; is_comparable(&types, *of), *given, "{of:?}");
    }
    comparable_is_told(&types);
    codes_tell_equality();
    entries_have_equal_keys();
    Ok(())
}
