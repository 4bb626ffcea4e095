//! A code without functions, and types in it.

use go_base::{NameId, Names, NoMemory, Text, TypeId};
use go_text::Labels;
use go_type::{Basic, Fields, TypeIds, TypeName, TypeTerm, Types, basic};
use ssa_ir::{Code, CodeVariables, ConstValue, Functions, MethodLines, Operand};
use std::alloc::Global;

/// `type point struct{}`, its underlying type, and the pointer to it.
#[derive(Clone, Copy)]
pub struct Kinds {
    pub point: TypeId,
    pub shape: TypeId,
    pub pointer: TypeId,
}

/// An empty code of the packages `main` and `lib`, with a name of a type, two of variables and one of a method.
pub fn code(alloc: Global) -> Result<Code, NoMemory> {
    let (error, method) = (NameId { number: 0 }, NameId { number: 1 });
    let types = Types::new(alloc, error, method);
    let parts = both(types, both(names(alloc), packages(alloc)))?;
    Ok(code_of(alloc, parts))
}

type Parts = (Types, (Names, Labels));

fn code_of(alloc: Global, parts: Parts) -> Code {
    let (types, (names, packages)) = parts;
    Code {
        types,
        names,
        packages,
        declared: TypeIds::new(alloc),
        variables: CodeVariables::new(alloc),
        methods: MethodLines::new(alloc),
        functions: Functions::new(alloc),
    }
}

/// Two things, where both came.
fn both<A: Drop, B: Drop>(
    first: Result<A, NoMemory>,
    second: Result<B, NoMemory>,
) -> Result<(A, B), NoMemory> {
    match (first, second) {
        (Ok(first), Ok(second)) => Ok((first, second)),
        _ => Err(NoMemory),
    }
}

/// A thing, where what was done to it succeeded.
pub fn kept<T: Drop>(thing: T, done: Result<(), NoMemory>) -> Result<T, NoMemory> {
    done.map(|()| thing)
}

fn names(alloc: Global) -> Result<Names, NoMemory> {
    let mut names = Names::new(alloc);
    for name in ["error", "Error", "point", "x", "_", "m"] {
        names.intern(name)?;
    }
    Ok(names)
}

fn packages(alloc: Global) -> Result<Labels, NoMemory> {
    let mut packages = Labels::new(alloc);
    for label in ["main", "lib"] {
        packages.push(Text::new(alloc, label)?)?;
    }
    Ok(packages)
}

/// The name of the method.
pub const METHOD: NameId = NameId { number: 5 };

const POINT: TypeName = TypeName {
    name: NameId { number: 2 },
    package: 0,
    number: 0,
};

/// Holds the types in a code that has none of them.
pub fn make_kinds(alloc: Global, types: &mut Types) -> Result<Kinds, NoMemory> {
    if types.is_declared(POINT) {
        return Err(NoMemory);
    }
    let point = types.declare(POINT)?;
    let shape = hold(types, TypeTerm::Struct(Fields::new(alloc)))?;
    let pointer = hold(types, TypeTerm::Pointer(point))?;
    if !types.can_define(point, shape) {
        return Err(NoMemory);
    }
    types.define(point, shape);
    Ok(Kinds {
        point,
        shape,
        pointer,
    })
}

fn hold(types: &mut Types, term: TypeTerm) -> Result<TypeId, NoMemory> {
    if types.can_hold(&term) {
        types.hold(term)
    } else {
        Err(NoMemory)
    }
}

/// A list of basic types.
pub fn basics(alloc: Global, list: &[Basic]) -> Result<TypeIds, NoMemory> {
    let mut ids = TypeIds::new(alloc);
    for kind in list {
        ids.push(basic(*kind))?;
    }
    Ok(ids)
}

/// A constant of the type `int`.
pub fn int(value: i128) -> Operand {
    Operand::Constant {
        value: ConstValue::Int(value),
        of: basic(Basic::Int),
    }
}
