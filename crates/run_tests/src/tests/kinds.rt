//! The types of the codes.

use go_base::{NameId, NoMemory, TypeId};
use go_type::{Basic, Dir, MethodTypes, TypeIds, TypeName, TypeTerm, Types, basic};
use std::alloc::Global;

/// The types that are not basic.
#[derive(Clone, Copy)]
pub struct Kinds {
    /// `interface{}`
    any: TypeId,
    /// `chan int`
    channel: TypeId,
    /// `*int`
    pointer: TypeId,
    /// What a `select` of two receives of integers gives.
    choice: TypeId,
    /// `errorString` of `runtime`.
    pub fault: TypeId,
}

/// `errorString`, whose name is the third and whose package is the second.
const FAULT: TypeName = TypeName {
    name: NameId { number: 2 },
    package: 1,
    number: 0,
};

impl Kinds {
    /// The type that a word names, where it names one.
    pub fn named(&self, word: &str) -> Option<TypeId> {
        match word {
            "bool" => Some(basic(Basic::Bool)),
            "int" => Some(basic(Basic::Int)),
            "string" => Some(basic(Basic::Text)),
            "any" => Some(self.any),
            "chan" => Some(self.channel),
            "pointer" => Some(self.pointer),
            "choice" => Some(self.choice),
            "fault" => Some(self.fault),
            _ => None,
        }
    }

    /// `chan int`
    pub fn channel(&self) -> TypeId {
        self.channel
    }

    /// The types that words name.
    pub fn all(&self, alloc: Global, words: &[&str]) -> Result<TypeIds, NoMemory> {
        let mut ids = TypeIds::new(alloc);
        for word in words {
            if let Some(of) = self.named(word) {
                ids.push(of)?;
            }
        }
        Ok(ids)
    }
}

/// Holds the types in those of a code that has none of them.
pub fn make_kinds(alloc: Global, types: &mut Types) -> Result<Kinds, NoMemory> {
    let int = basic(Basic::Int);
    let dir = Dir::Both;
    Ok(Kinds {
        any: hold(types, TypeTerm::Interface(MethodTypes::new(alloc)))?,
        channel: hold(types, TypeTerm::Chan { dir, elem: int })?,
        pointer: hold(types, TypeTerm::Pointer(int))?,
        choice: hold(types, TypeTerm::Tuple(choice_parts(alloc)?))?,
        fault: declare(types)?,
    })
}

/// The index, whether a value came, and the two values.
fn choice_parts(alloc: Global) -> Result<TypeIds, NoMemory> {
    let mut parts = TypeIds::new(alloc);
    for kind in [Basic::Int, Basic::Bool, Basic::Int, Basic::Int] {
        parts.push(basic(kind))?;
    }
    Ok(parts)
}

fn hold(types: &mut Types, term: TypeTerm) -> Result<TypeId, NoMemory> {
    if types.can_hold(&term) {
        types.hold(term)
    } else {
        Err(NoMemory)
    }
}

/// Declares `errorString`, whose values are strings.
fn declare(types: &mut Types) -> Result<TypeId, NoMemory> {
    if types.is_declared(FAULT) {
        return Err(NoMemory);
    }
    let fault = types.declare(FAULT)?;
    let text = basic(Basic::Text);
    if !types.can_define(fault, text) {
        return Err(NoMemory);
    }
    types.define(fault, text);
    Ok(fault)
}
