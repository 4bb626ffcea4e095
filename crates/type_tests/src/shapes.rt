//! A table of types for the tests.

use go_base::{Bytes, FuncId, NameId, TypeId};
use go_type::{
    Basic, Dir, EXPORTED, Field, Fields, MethodEntry, MethodType, MethodTypes, Path, SelectionKind,
    Signature, TypeIds, TypeName, TypeTerm, Types, basic,
};
use std::alloc::Global;
use std::process::Abort;
use std::test::Fail;

/// A field or method of a table's type: its name, the place of its type, and whether it is an embedded field.
pub type Part = (u64, usize, bool);

/// A type of a table, where other types are named by their places.
#[derive(Clone, Copy)]
pub enum Shape {
    Plain(Basic),
    /// A declared type, by its name.
    Named(u64),
    /// The underlying type, at the second place, of the declared type at the first.
    Defined(usize, usize),
    /// A method of the declared type at the place: its name, its function type, and whether its receiver is a pointer.
    Method(usize, u64, usize, bool),
    Pointer(usize),
    Slice(usize),
    Chan(Dir, usize),
    /// A function without parameters and results.
    Func,
    Struct(&'static [Part]),
    Interface(&'static [Part]),
}

/// The types of a table, and their ids in its order.
pub fn build(
    rt: &impl Abort,
    alloc: Global,
    table: &[Shape],
) -> Result<(Types, Vec<TypeId>), Fail> {
    let mut types = empty(alloc)?;
    let mut ids = Vec::new(alloc);
    for shape in table {
        let id = add(rt, alloc, &mut types, ids.as_slice(), shape)?;
        ids.push(id)?;
    }
    Ok((types, ids))
}

/// The predeclared types alone, with the name 100 for `error` and 101 for its method.
pub fn empty(alloc: Global) -> Result<Types, Fail> {
    let (error, method) = (NameId { number: 100 }, NameId { number: 101 });
    Ok(Types::new(alloc, error, method)?)
}

/// The id at a place, or an id that is not held.
pub fn at(ids: &[TypeId], place: usize) -> TypeId {
    ids.get(place)
        .copied()
        .unwrap_or(TypeId { number: u64::MAX })
}

fn add(
    rt: &impl Abort,
    alloc: Global,
    types: &mut Types,
    ids: &[TypeId],
    shape: &Shape,
) -> Result<TypeId, Fail> {
    match shape {
        Shape::Plain(kind) => Ok(basic(*kind)),
        Shape::Named(name) => declare(rt, types, *name),
        Shape::Defined(named, of) => Ok(define(rt, types, at(ids, *named), at(ids, *of))),
        Shape::Method(named, name, of, pointer) => {
            let entry = method(alloc, *name, at(ids, *of), *pointer);
            add_method(rt, types, at(ids, *named), entry)
        }
        other => hold(rt, types, term(alloc, ids, other)?),
    }
}

fn declare(rt: &impl Abort, types: &mut Types, name: u64) -> Result<TypeId, Fail> {
    let name = TypeName {
        name: NameId { number: name },
        package: 0,
        number: 0,
    };
    assert!(rt; !types.is_declared(name));
    Ok(types.declare(name)?)
}

fn define(rt: &impl Abort, types: &mut Types, named: TypeId, underlying: TypeId) -> TypeId {
    assert!(rt; types.can_define(named, underlying));
    types.define(named, underlying);
    named
}

/// A method of a function type.
pub fn method(alloc: Global, name: u64, of: TypeId, pointer: bool) -> MethodEntry {
    MethodEntry {
        name: NameId { number: name },
        package: EXPORTED,
        path: Path::new(alloc),
        kind: SelectionKind::Method(FuncId { number: name }),
        of,
        pointer,
    }
}

fn add_method(
    rt: &impl Abort,
    types: &mut Types,
    named: TypeId,
    entry: MethodEntry,
) -> Result<TypeId, Fail> {
    assert!(rt; types.can_add_method(named, &entry));
    types.add_method(named, entry)?;
    Ok(named)
}

/// Holds a type that may be held.
pub fn hold(rt: &impl Abort, types: &mut Types, term: TypeTerm) -> Result<TypeId, Fail> {
    assert!(rt; types.can_hold(&term));
    Ok(types.hold(term)?)
}

fn term(alloc: Global, ids: &[TypeId], shape: &Shape) -> Result<TypeTerm, Fail> {
    match shape {
        Shape::Struct(parts) => struct_of(alloc, ids, parts),
        Shape::Interface(parts) => interface_of(alloc, ids, parts),
        Shape::Func => Ok(TypeTerm::Func(Signature {
            params: TypeIds::new(alloc),
            results: TypeIds::new(alloc),
            variadic: false,
        })),
        other => Ok(plain_term(ids, other)),
    }
}

fn plain_term(ids: &[TypeId], shape: &Shape) -> TypeTerm {
    match shape {
        Shape::Pointer(elem) => TypeTerm::Pointer(at(ids, *elem)),
        Shape::Slice(elem) => TypeTerm::Slice(at(ids, *elem)),
        Shape::Chan(dir, elem) => TypeTerm::Chan {
            dir: *dir,
            elem: at(ids, *elem),
        },
        _ => TypeTerm::Basic(Basic::Int),
    }
}

/// A struct with these fields.
pub fn struct_of(alloc: Global, ids: &[TypeId], parts: &[Part]) -> Result<TypeTerm, Fail> {
    let mut fields = Fields::new(alloc);
    for (name, place, embedded) in parts {
        fields.push(Field {
            name: NameId { number: *name },
            package: EXPORTED,
            of: at(ids, *place),
            embedded: *embedded,
            tag: Bytes::new(Vec::new(alloc)),
        })?;
    }
    Ok(TypeTerm::Struct(fields))
}

fn interface_of(alloc: Global, ids: &[TypeId], parts: &[Part]) -> Result<TypeTerm, Fail> {
    let mut methods = MethodTypes::new(alloc);
    for (name, place, _) in parts {
        methods.push(MethodType {
            name: NameId { number: *name },
            package: EXPORTED,
            of: at(ids, *place),
        })?;
    }
    Ok(TypeTerm::Interface(methods))
}
