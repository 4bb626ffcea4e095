//! Type terms. Go specification, "Types".

ghost use Rattle.std.specs.Prelude.{◌≡◌, IfOk};

use crate::lists::{Fields, MethodTypes, TypeIds};
use go_base::{Bytes, NameId, NoMemory, TypeId};
use std::alloc::Global;

/// The package of a name that is exported, so that every package means the same by it.
pub const EXPORTED: u32 = 4_294_967_295;

/// The name of a declared type, unlike that of every other.
#[derive(Clone, Copy, PartialEq, Eq, Hash)]
pub struct TypeName {
    pub name: NameId,
    /// The package that declares it; of the predeclared type `error` 4,294,967,295.
    pub package: u32,
    /// 0 for a type declared at package level, and else which of the types of its package that are declared in
    /// functions it is, from 1. A type named `_` at package level has 4,294,967,295 less the number of such types
    /// before it in its package.
    pub number: u32,
}

/// The predeclared basic types, and the kinds of untyped constants.
#[derive(Clone, Copy, PartialEq, Eq, Hash)]
pub enum Basic {
    Bool,
    Int,
    Int8,
    Int16,
    Int32,
    Int64,
    Uint,
    Uint8,
    Uint16,
    Uint32,
    Uint64,
    Text,
    UntypedBool,
    UntypedInt,
    UntypedRune,
    UntypedText,
    UntypedNil,
}

/// Every basic type, in their order.
pub const ALL_BASIC: [Basic; 17] = [
    Basic::Bool,
    Basic::Int,
    Basic::Int8,
    Basic::Int16,
    Basic::Int32,
    Basic::Int64,
    Basic::Uint,
    Basic::Uint8,
    Basic::Uint16,
    Basic::Uint32,
    Basic::Uint64,
    Basic::Text,
    Basic::UntypedBool,
    Basic::UntypedInt,
    Basic::UntypedRune,
    Basic::UntypedText,
    Basic::UntypedNil,
];

/// What a channel is for.
#[derive(Clone, Copy, PartialEq, Eq, Hash)]
pub enum Dir {
    Both,
    Send,
    Receive,
}

/// A function's parameters and results. A variadic one has a slice type as its last parameter.
#[derive(Drop, PartialEq, Eq, Hash)]
pub struct Signature {
    pub params: TypeIds,
    pub results: TypeIds,
    pub variadic: bool,
}

impl Signature {
    /// The same signature once more.
    pub fn copy(&self, alloc: Global) -> Result<Signature, NoMemory>
        ensures { IfOk result (λ copy. copy ≡ self.now) }
    {
        Ok(Signature {
            params: self.params.copy(alloc)?,
            results: self.results.copy(alloc)?,
            variadic: self.variadic,
        })
    }
}

/// A field of a struct.
#[derive(Drop, PartialEq, Eq, Hash)]
pub struct Field {
    pub name: NameId,
    /// The package of the struct, or `EXPORTED`.
    pub package: u32,
    pub of: TypeId,
    pub embedded: bool,
    /// Empty where there is none.
    pub tag: Bytes,
}

impl Field {
    /// The same field once more.
    pub fn copy(&self, alloc: Global) -> Result<Field, NoMemory>
        ensures { IfOk result (λ copy. copy ≡ self.now) }
    {
        Ok(Field {
            name: self.name,
            package: self.package,
            of: self.of,
            embedded: self.embedded,
            tag: Bytes::new(Vec::from_slice(alloc, self.tag.as_slice())?),
        })
    }
}

/// A method of an interface.
#[derive(Clone, Copy, PartialEq, Eq, Hash)]
pub struct MethodType {
    pub name: NameId,
    /// The package of the interface, or `EXPORTED`.
    pub package: u32,
    /// Its type, a function type.
    pub of: TypeId,
}

/// A type, whose parts are types that are held.
#[derive(Drop, PartialEq, Eq, Hash)]
pub enum TypeTerm {
    Basic(Basic),
    Declared(TypeName),
    Pointer(TypeId),
    Slice(TypeId),
    Array { len: u64, elem: TypeId },
    Map { key: TypeId, elem: TypeId },
    Chan { dir: Dir, elem: TypeId },
    Func(Signature),
    Struct(Fields),
    /// The methods ascend by the number of the name's id, then by package.
    Interface(MethodTypes),
    /// Several values, as a call may give them. Of registers alone.
    Tuple(TypeIds),
    /// The state of a range over values of the type. Of registers alone.
    Iter(TypeId),
}

impl TypeTerm {
    /// The same term once more.
    pub fn copy(&self, alloc: Global) -> Result<TypeTerm, NoMemory>
        ensures { IfOk result (λ copy. copy ≡ self.now) }
    {
        Ok(match self {
            TypeTerm::Basic(basic) => TypeTerm::Basic(*basic),
            TypeTerm::Declared(name) => TypeTerm::Declared(*name),
            TypeTerm::Pointer(elem) => TypeTerm::Pointer(*elem),
            TypeTerm::Slice(elem) => TypeTerm::Slice(*elem),
            TypeTerm::Array { len, elem } => TypeTerm::Array {
                len: *len,
                elem: *elem,
            },
            TypeTerm::Map { key, elem } => TypeTerm::Map {
                key: *key,
                elem: *elem,
            },
            TypeTerm::Chan { dir, elem } => TypeTerm::Chan {
                dir: *dir,
                elem: *elem,
            },
            TypeTerm::Func(signature) => TypeTerm::Func(signature.copy(alloc)?),
            TypeTerm::Struct(fields) => TypeTerm::Struct(fields.copy(alloc)?),
            TypeTerm::Interface(methods) => TypeTerm::Interface(methods.copy(alloc)?),
            TypeTerm::Tuple(parts) => TypeTerm::Tuple(parts.copy(alloc)?),
            TypeTerm::Iter(elem) => TypeTerm::Iter(*elem),
        })
    }
}
