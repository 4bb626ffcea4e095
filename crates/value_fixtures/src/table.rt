//! The table of types.

use go_base::{Bytes, NameId, NoMemory, TypeId};
use go_type::{
    Basic, Dir, Field, Fields, MethodTypes, Signature, TypeIds, TypeName, TypeTerm, Types, basic,
};
use std::alloc::Global;

/// `interface{}`
pub const ANY: TypeId = TypeId { number: 20 };
/// `[]int`
pub const INTS: TypeId = TypeId { number: 21 };
/// `struct{a int; _ int}`
pub const PAIR: TypeId = TypeId { number: 22 };
/// `struct{x interface{}}`
pub const HOLDER: TypeId = TypeId { number: 23 };
/// `struct{x []int}`
pub const BAG: TypeId = TypeId { number: 24 };

/// `*int`
pub const POINTER: TypeId = TypeId { number: 25 };
/// `map[int]int`
pub const MAP: TypeId = TypeId { number: 26 };

/// `chan int`
pub const CHAN: TypeId = TypeId { number: 27 };
/// `func()`
pub const FUNC: TypeId = TypeId { number: 28 };
/// `[2]int`
pub const ARRAY: TypeId = TypeId { number: 29 };
/// `type count int`
pub const COUNT: TypeId = TypeId { number: 30 };
/// `type label string`
pub const LABEL: TypeId = TypeId { number: 31 };
/// `errorString` of `runtime`
pub const ERROR_STRING: TypeId = TypeId { number: 32 };

/// The names of the types, of their fields and of what is predeclared, by number.
pub const NAMES: &[&str] = &[
    "error",
    "Error",
    "count",
    "label",
    "errorString",
    "a",
    "_",
    "x",
];

/// The name `_`.
pub const BLANK: NameId = NameId { number: 6 };

/// The types, by their numbers.
pub fn types(alloc: Global) -> Result<Types, NoMemory> {
    let (error, method) = (NameId { number: 0 }, NameId { number: 1 });
    let mut types = Types::new(alloc, error, method)?;
    for number in 0..10 {
        let term = term(alloc, number)?;
        if !types.can_hold(&term) {
            return Err(NoMemory);
        }
        types.hold(term)?;
    }
    declare(&mut types, (2, 0), basic(Basic::Int))?;
    declare(&mut types, (3, 0), basic(Basic::Text))?;
    declare(&mut types, (4, 1), basic(Basic::Text))?;
    Ok(types)
}

/// The term of a type that is not declared.
fn term(alloc: Global, number: u32) -> Result<TypeTerm, NoMemory> {
    let elem = basic(Basic::Int);
    Ok(match number {
        0 => TypeTerm::Interface(MethodTypes::new(alloc)),
        1 => TypeTerm::Slice(elem),
        2 => TypeTerm::Struct(fields(alloc, &[(5, elem), (6, elem)])?),
        3 => TypeTerm::Struct(fields(alloc, &[(7, ANY)])?),
        4 => TypeTerm::Struct(fields(alloc, &[(7, INTS)])?),
        5 => TypeTerm::Pointer(elem),
        6 => TypeTerm::Map { key: elem, elem },
        7 => TypeTerm::Chan {
            dir: Dir::Both,
            elem,
        },
        8 => TypeTerm::Func(Signature {
            params: TypeIds::new(alloc),
            results: TypeIds::new(alloc),
            variadic: false,
        }),
        _ => TypeTerm::Array { len: 2, elem },
    })
}

/// Fields of names and types.
fn fields(alloc: Global, named: &[(u64, TypeId)]) -> Result<Fields, NoMemory> {
    let mut all = Fields::new(alloc);
    for (name, of) in named {
        all.push(Field {
            name: NameId { number: *name },
            package: 0,
            of: *of,
            embedded: false,
            tag: Bytes::new(Vec::new(alloc)),
        })?;
    }
    Ok(all)
}

/// Declares the type of a name and a package.
fn declare(types: &mut Types, (name, package): (u64, u32), below: TypeId) -> Result<(), NoMemory> {
    let name = TypeName {
        name: NameId { number: name },
        package,
        number: 0,
    };
    if types.is_declared(name) {
        return Err(NoMemory);
    }
    let made = types.declare(name)?;
    if !types.can_define(made, below) {
        return Err(NoMemory);
    }
    types.define(made, below);
    Ok(())
}
