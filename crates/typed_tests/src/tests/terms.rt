//! Types that are made of others.

use crate::tests::world::type_at;
use go_base::{Bytes, NameId, NoMemory, TypeId};
use go_type::{
    Basic, Dir, EXPORTED, Field, Fields, MethodType, MethodTypes, Signature, TypeIds, TypeTerm,
};
use std::alloc::Global;

/// A name of the code, by its number.
pub fn name(number: u64) -> NameId {
    NameId { number }
}

/// The name of the method.
pub const METHOD: NameId = NameId { number: 6 };

/// The type that a text says, whose parts are known.
pub fn term_of(alloc: Global, text: &[u8], known: &[TypeId]) -> Result<TypeTerm, NoMemory> {
    let parts = text.get(1..).unwrap_or(&[]);
    match text.first() {
        Some(b'S') => Ok(TypeTerm::Struct(fields(alloc, parts, known)?)),
        Some(b'{') => Ok(TypeTerm::Interface(methods(alloc, parts, known)?)),
        Some(b'F') => Ok(TypeTerm::Func(signature(alloc, parts, known)?)),
        Some(b'T') => Ok(TypeTerm::Tuple(ids(alloc, parts, known)?)),
        Some(form) => Ok(plain(*form, parts, known)),
        None => Err(NoMemory),
    }
}

/// The types of letters.
pub fn ids(alloc: Global, letters: &[u8], known: &[TypeId]) -> Result<TypeIds, NoMemory> {
    let mut ids = TypeIds::new(alloc);
    for letter in letters {
        ids.push(type_at(known, &[], *letter))?;
    }
    Ok(ids)
}

/// Fields named `x`, `y`, of types by letters; a `t` behind them gives the first a tag.
fn fields(alloc: Global, letters: &[u8], known: &[TypeId]) -> Result<Fields, NoMemory> {
    let tag: &[u8] = if letters.ends_with(b"t") { b"t" } else { b"" };
    let mut fields = Fields::new(alloc);
    for (number, letter) in letters.iter().take(2).enumerate() {
        fields.push(Field {
            name: name(4 + number as u64),
            package: 0,
            of: type_at(known, &[], *letter),
            embedded: false,
            tag: Bytes::new(Vec::from_slice(alloc, if number == 0 { tag } else { b"" })?),
        })?;
    }
    Ok(fields)
}

/// At most one method, of a type by its letter.
fn methods(alloc: Global, letters: &[u8], known: &[TypeId]) -> Result<MethodTypes, NoMemory> {
    let mut methods = MethodTypes::new(alloc);
    for letter in letters {
        methods.push(MethodType {
            name: METHOD,
            package: EXPORTED,
            of: type_at(known, &[], *letter),
        })?;
    }
    Ok(methods)
}

fn signature(alloc: Global, letters: &[u8], known: &[TypeId]) -> Result<Signature, NoMemory> {
    let behind = letters.iter().position(|x| *x == b':').unwrap_or(0);
    let params = ids(alloc, letters.get(..behind).unwrap_or(&[]), known)?;
    let results = ids(alloc, letters.get(behind + 1..).unwrap_or(&[]), known)?;
    Ok(Signature {
        params,
        results,
        variadic: false,
    })
}

fn basic_of(letter: u8) -> Basic {
    match letter {
        b'b' => Basic::Bool,
        b's' => Basic::Text,
        b'u' => Basic::Uint8,
        b'r' => Basic::Int32,
        _ => Basic::Int,
    }
}

/// A type of one or two parts.
fn plain(form: u8, parts: &[u8], known: &[TypeId]) -> TypeTerm {
    let first = parts.first().copied().unwrap_or(b'a');
    let elem = type_at(known, &[], first);
    match form {
        b'P' => TypeTerm::Basic(basic_of(first)),
        b'*' => TypeTerm::Pointer(elem),
        b'[' => TypeTerm::Slice(elem),
        b']' => TypeTerm::Array { len: 2, elem },
        b'M' => TypeTerm::Map {
            key: elem,
            elem: type_at(known, &[], parts.get(1).copied().unwrap_or(b'a')),
        },
        b'J' => TypeTerm::Iter(elem),
        _ => TypeTerm::Chan {
            dir: dir_of(form),
            elem,
        },
    }
}

fn dir_of(form: u8) -> Dir {
    match form {
        b'<' => Dir::Receive,
        b'>' => Dir::Send,
        _ => Dir::Both,
    }
}
