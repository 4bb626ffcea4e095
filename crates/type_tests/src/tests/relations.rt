//! The Go specification's examples of identity, comparison, assignability, selectors and method sets.

use crate::shapes::Shape::{
    self, Chan, Defined, Func, Interface, Method, Named, Plain, Pointer, Slice, Struct,
};
use crate::shapes::{at, build};
use go_base::{NameId, TypeId};
use go_type::{
    Basic, Dir, EXPORTED, SelectError, Types, assignable, comparable, find_selector, identical,
    implements, method_set,
};
use std::alloc::Global;
use std::test::Fail;

/// "Selectors": T0 at 2, T2 at 7 and Q at 12, with the fields x and z (1, 3) and the methods M0 and M2 (4, 6). Then an
/// interface with M0, other types, and a struct that embeds two types with a field x.
const TYPES: &[Shape] = &[
    Plain(Basic::Int),
    Func,
    Named(10),
    Struct(&[(1, 0, false)]),
    Defined(2, 3),
    Method(2, 4, 1, true),
    Pointer(2),
    Named(12),
    Struct(&[(3, 0, false), (10, 6, true)]),
    Defined(7, 8),
    Method(7, 6, 1, true),
    Pointer(7),
    Named(13),
    Defined(12, 11),
    Interface(&[(4, 1, false)]),
    Slice(0),
    Chan(Dir::Both, 0),
    Chan(Dir::Send, 0),
    Named(14),
    Defined(18, 3),
    Struct(&[(10, 6, true), (14, 18, true)]),
];

/// Two types, whether they are identical, and whether a value of the first is assignable to the second.
const PAIRS: &[(usize, usize, bool, bool)] = &[
    (2, 2, true, true),
    (2, 18, false, false),
    (2, 3, false, true),
    (11, 12, false, true),
    (6, 14, false, true),
    (2, 14, false, false),
    (16, 17, false, true),
    (17, 16, false, false),
];

#[test]
fn pairs_of_types(rt: HostRuntime) -> Result<(), Fail> {
    let (types, ids) = build(&rt, rt.alloc(), TYPES)?;
    for (one, other, same, assigned) in PAIRS {
        let (a, b) = (at(ids.as_slice(), *one), at(ids.as_slice(), *other));
        assert_eq!(rt; identical(&types, a, b), *same, "{one} and {other}");
        assert_eq!(rt; assignable(&types, a, b), *assigned, "{one} to {other}");
    }
    Ok(())
}

/// "Comparison operators" and "Implementing an interface": whether a type is comparable, and whether it has M0.
const SINGLE: &[(usize, bool, bool)] = &[
    (0, true, false),
    (1, false, false),
    (2, true, false),
    (6, true, true),
    (7, true, true),
    (14, true, true),
    (15, false, false),
];

#[test]
fn single_types(rt: HostRuntime) -> Result<(), Fail> {
    let (types, ids) = build(&rt, rt.alloc(), TYPES)?;
    let interface = at(ids.as_slice(), 14);
    for (place, compared, implemented) in SINGLE {
        let a = at(ids.as_slice(), *place);
        assert_eq!(rt; comparable(&types, a), *compared, "{place}");
        assert_eq!(rt; implements(&types, a, interface), *implemented, "{place}");
    }
    Ok(())
}

/// A type, a name, and the path of what is selected, where there is one.
const SELECTED: &[(usize, u64, Option<&[u32]>)] = &[
    (7, 3, Some(&[0])),
    (11, 1, Some(&[1, 0])),
    (12, 1, Some(&[1, 0])),
    (11, 4, Some(&[1])),
    (11, 6, Some(&[])),
    (12, 4, None),
    (20, 1, None),
];

/// Whether a selector has this path.
fn selects(alloc: Global, types: &Types, a: TypeId, name: u64, path: Option<&[u32]>) -> bool {
    match find_selector(alloc, types, a, NameId { number: name }, EXPORTED) {
        Ok(selection) => path == Some(selection.path.as_slice()),
        Err(SelectError::OutOfMemory) => false,
        Err(_) => path.is_none(),
    }
}

#[test]
fn selectors(rt: HostRuntime) -> Result<(), Fail> {
    let (types, ids) = build(&rt, rt.alloc(), TYPES)?;
    for (place, name, path) in SELECTED {
        let a = at(ids.as_slice(), *place);
        assert!(rt;
            selects(rt.alloc(), &types, a, *name, *path),
            "{name} of {place}"
        );
    }
    Ok(())
}

/// The names of the methods of a type, ascending.
const METHODS: &[(usize, &[u64])] = &[(2, &[]), (6, &[4]), (7, &[4]), (11, &[4, 6]), (12, &[])];

fn has_methods(alloc: Global, types: &Types, a: TypeId, names: &[u64]) -> Result<bool, Fail> {
    let set = method_set(alloc, types, a)?;
    for (entry, name) in set.as_slice().iter().zip(names) {
        if entry.name.number != *name {
            return Ok(false);
        }
    }
    Ok(set.as_slice().len() == names.len())
}

#[test]
fn method_sets(rt: HostRuntime) -> Result<(), Fail> {
    let (types, ids) = build(&rt, rt.alloc(), TYPES)?;
    for (place, names) in METHODS {
        let a = at(ids.as_slice(), *place);
        assert!(rt; has_methods(rt.alloc(), &types, a, names)?, "{place}");
    }
    Ok(())
}
