//! What may be held and defined, sizes, and tables of many types.

use crate::shapes::Shape::{self, Defined, Func, Method, Named, Plain, Pointer, Struct};
use crate::shapes::{at, build, empty, hold, method, struct_of};
use go_base::{NameId, TypeId};
use go_type::{
    ALL_BASIC, Basic, EXPORTED, MAX_NESTING, SelectError, TypeTerm, Types, basic, find_selector,
    leaves_up_to,
};
use std::alloc::Global;
use std::process::Abort;
use std::test::Fail;

/// "Type declarations": 0 is not defined, and 1 is a struct that holds it.
const RECURSIVE_TYPES: &[Shape] = &[
    Named(1),
    Named(2),
    Struct(&[(3, 0, false)]),
    Defined(1, 2),
    Pointer(0),
    Struct(&[(3, 4, false)]),
    Func,
    Method(0, 4, 6, false),
];

/// Whether a type may become the underlying type of 0.
const DEFINABLE: &[(usize, bool)] = &[(1, false), (2, false), (4, true), (5, true)];

#[test]
fn underlying_types(rt: HostRuntime) -> Result<(), Fail> {
    let (types, ids) = build(&rt, rt.alloc(), RECURSIVE_TYPES)?;
    let named = at(ids.as_slice(), 0);
    for (place, want) in DEFINABLE {
        let underlying = at(ids.as_slice(), *place);
        assert_eq!(rt; types.can_define(named, underlying), *want, "{place}");
    }
    assert_eq!(rt;
        types.underlying(at(ids.as_slice(), 1)),
        at(ids.as_slice(), 2)
    );
    Ok(())
}

#[test]
fn methods(rt: HostRuntime) -> Result<(), Fail> {
    let (types, ids) = build(&rt, rt.alloc(), RECURSIVE_TYPES)?;
    let named = at(ids.as_slice(), 0);
    for (name, want) in [(4, false), (5, true)] {
        let entry = method(rt.alloc(), name, at(ids.as_slice(), 6), false);
        assert_eq!(rt; types.can_add_method(named, &entry), want, "{name}");
    }
    assert_eq!(rt; types.methods(named).len(), 1);
    Ok(())
}

/// An array of so many arrays of 1,024 integers.
fn matrix(rt: &impl Abort, types: &mut Types, len: u64) -> Result<TypeId, Fail> {
    let elem = basic(Basic::Int);
    let row = hold(rt, types, TypeTerm::Array { len: 1_024, elem })?;
    hold(rt, types, TypeTerm::Array { len, elem: row })
}

#[test]
fn sizes(rt: HostRuntime) -> Result<(), Fail> {
    let mut types = empty(rt.alloc())?;
    let matrix = matrix(&rt, &mut types, 1_025)?;
    let leaves = leaves_up_to(&types, matrix, 2_000_000, MAX_NESTING);
    assert_eq!(rt; leaves, 1_049_600);
    Ok(())
}

#[test]
fn basic_types(rt: HostRuntime) -> Result<(), Fail> {
    let types = empty(rt.alloc())?;
    for kind in &ALL_BASIC {
        let term = TypeTerm::Basic(*kind);
        assert_eq!(rt; types.find(&term), Some(basic(*kind)));
        assert!(rt; types.get(basic(*kind)) == Some(&term));
    }
    Ok(())
}

#[test]
fn blank_names(rt: HostRuntime) -> Result<(), Fail> {
    let mut types = empty(rt.alloc())?;
    types.set_blank(NameId { number: 9 });
    let copy = types.copy(rt.alloc())?;
    assert!(rt; copy.is_blank(NameId { number: 9 }));
    assert_eq!(rt; copy.len(), types.len());
    Ok(())
}

/// Structs in structs, so deep, each embedded in the next as the field 7.
fn nest(rt: &impl Abort, alloc: Global, types: &mut Types, depth: u32) -> Result<TypeId, Fail> {
    let mut last = basic(Basic::Int);
    for level in 0..depth {
        last = hold(rt, types, struct_of(alloc, &[last], &[(7, 0, level > 0)])?)?;
    }
    Ok(last)
}

#[test]
fn long_paths(rt: HostRuntime) -> Result<(), Fail> {
    let mut types = empty(rt.alloc())?;
    let outer = nest(&rt, rt.alloc(), &mut types, 5_000)?;
    let found = find_selector(rt.alloc(), &types, outer, NameId { number: 8 }, EXPORTED);
    assert!(rt; matches!(found, Err(SelectError::Absent)));
    Ok(())
}
