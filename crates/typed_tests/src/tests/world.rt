//! The types of the tests. Each has a letter, in order, and is the type of a parameter of that letter; those of registers
//! alone have digits. A text says what a type is: `P` a basic type, `D` a declared one, `S` a struct of its fields, `*` a
//! pointer, `[` a slice, `]` an array of two, `M` a map, `C`, `<` and `>` a channel, `{` an interface, `F` a function with
//! parameters before `:` and results behind it, `T` a tuple and `J` the state of a range.

use crate::tests::terms::{METHOD, name, term_of};
use go_base::{FuncId, NoMemory, TypeId};
use go_type::{EXPORTED, MethodEntry, Path, SelectionKind, TypeIds, TypeName, TypeTerm, Types};
use std::alloc::Global;

const LETTERS: [&str; 26] = [
    "Pi", // a
    "Pb", // b
    "Ps", // c
    "Pu", // d
    "Pr", // e
    "D2", // f
    "Sab", // g
    "D3", // h
    "*h", // i
    "[a", // j
    "[d", // k
    "[e", // l
    "]a", // m
    "*m", // n
    "Mac", // o
    "Ca", // p
    "<a", // q
    ">a", // r
    "F:a", // s
    "{", // t
    "{s", // u
    "Fa:ab", // v
    "*a", // w
    "*b", // x
    "Sabt", // y
    "*g", // z
];

const DIGITS: [&str; 7] = [
    "Tab", // 0
    "Jc", // 1
    "Jo", // 2
    "Tbae", // 3
    "Tbac", // 4
    "Taba", // 5
    "Tcb", // 6
];

/// The types by their letters and digits.
#[derive(Drop)]
pub struct World {
    pub letters: TypeIds,
    pub digits: TypeIds,
}

impl World {
    /// The type of a letter or digit; that of `a` where there is none.
    pub fn of(&self, letter: u8) -> TypeId {
        type_at(self.letters.as_slice(), self.digits.as_slice(), letter)
    }
}

/// The type of a letter or digit, of those that are held.
pub fn type_at(letters: &[TypeId], digits: &[TypeId], letter: u8) -> TypeId {
    let (list, first) = if letter.is_ascii_digit() {
        (digits, b'0')
    } else {
        (letters, b'a')
    };
    let place = usize::from(letter.wrapping_sub(first));
    list.get(place).copied().unwrap_or(TypeId { number: 0 })
}

/// Holds the types, and gives the declared ones their underlying types and a method.
pub fn make_world(alloc: Global, types: &mut Types) -> Result<World, NoMemory> {
    let letters = hold_all(alloc, types, &LETTERS, &[])?;
    let digits = hold_all(alloc, types, &DIGITS, letters.as_slice())?;
    define(alloc, types, letters.as_slice())?;
    Ok(World { letters, digits })
}

/// Holds the types of a list; their parts are letters of it, or of what was held.
fn hold_all(
    alloc: Global,
    types: &mut Types,
    list: &[&str],
    letters: &[TypeId],
) -> Result<TypeIds, NoMemory> {
    let mut ids = TypeIds::new(alloc);
    for text in list {
        let known = if letters.is_empty() {
            ids.as_slice()
        } else {
            letters
        };
        let id = hold_text(alloc, types, text.as_bytes(), known)?;
        ids.push(id)?;
    }
    Ok(ids)
}

fn hold_text(
    alloc: Global,
    types: &mut Types,
    text: &[u8],
    known: &[TypeId],
) -> Result<TypeId, NoMemory> {
    match text {
        [b'D', number] => declare(types, u64::from(number.wrapping_sub(b'0'))),
        _ => hold(types, term_of(alloc, text, known)?),
    }
}

fn declare(types: &mut Types, number: u64) -> Result<TypeId, NoMemory> {
    let name = TypeName {
        name: name(number),
        package: 0,
        number: 0,
    };
    if types.is_declared(name) {
        return Err(NoMemory);
    }
    types.declare(name)
}

fn hold(types: &mut Types, term: TypeTerm) -> Result<TypeId, NoMemory> {
    if types.can_hold(&term) {
        types.hold(term)
    } else {
        Err(NoMemory)
    }
}

/// `type num int`, `type point struct { x int; y bool }` and `func (point) m() int`.
fn define(alloc: Global, types: &mut Types, letters: &[TypeId]) -> Result<(), NoMemory> {
    for (declared, underlying) in [(b'f', b'a'), (b'h', b'g')] {
        let (id, of) = (
            type_at(letters, &[], declared),
            type_at(letters, &[], underlying),
        );
        if types.can_define(id, of) {
            types.define(id, of);
        }
    }
    add_method(
        types,
        type_at(letters, &[], b'h'),
        method(alloc, type_at(letters, &[], b's')),
    )
}

fn method(alloc: Global, of: TypeId) -> MethodEntry {
    MethodEntry {
        name: METHOD,
        package: EXPORTED,
        path: Path::new(alloc),
        kind: SelectionKind::Method(FuncId { number: 0 }),
        of,
        pointer: false,
    }
}

fn add_method(types: &mut Types, id: TypeId, method: MethodEntry) -> Result<(), NoMemory> {
    if types.can_add_method(id, &method) {
        types.add_method(id, method)
    } else {
        Err(NoMemory)
    }
}
