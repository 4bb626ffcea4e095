//! Composite literals. Go specification, "Composite literals".

ghost use Rattle.std.specs.Prelude.{◌≡◌, not};
ghost use Rattle.std.specs.Option.{option_map};
ghost use Rattle.typed_parts.specs.Joining.{sound};
ghost use Rattle.typed_parts.specs.Judged.{reported};
ghost use Rattle.typed_parts.specs.Turning.{Turns};
ghost use Rattle.typed_literals.specs.Composing.{IsNode, broken_where, elided, key_hint, literal_kind, open_array, value_hint, values_broken, written};

use go_base::{NameId, NoMemory, Pos, Rule, TypeId};
use go_tree::{Elements, ExprKind, TypedExpr};
use go_type::{TypeTerm, Types};
use typed_parts::{Ground, Seen, beside, boxed, made, node, one_value, pointed};

/// What the type of an elided literal is known to be.
#[derive(Clone, Copy, PartialEq, Eq)]
pub enum Hint {
    /// The literal around it is unsound.
    Unsound,
    /// It stands where no type may be left out: a value of a struct, or a key of an array or slice.
    Nothing,
    Of(TypeId),
}

/// What a composite literal is of.
#[derive(Clone, Copy, PartialEq, Eq)]
pub enum LiteralKind {
    Struct,
    Array { len: u64, elem: TypeId },
    /// `[...]E`
    OpenArray { elem: TypeId },
    Slice { elem: TypeId },
    Map { key: TypeId, elem: TypeId },
}

/// A composite literal without its elements.
#[derive(Clone, Copy, PartialEq, Eq)]
pub struct Literal {
    /// The first byte: of its type, or its `{` where that is left out.
    pub at: Pos,
    /// Its `{`.
    pub brace: Pos,
    /// The type of the literal itself; the element type of an open array.
    pub of: TypeId,
    pub kind: LiteralKind,
    /// The pointer type whose address is taken, where the type that is left out is one.
    pub pointer: Option<TypeId>,
}

/// An element of a literal of an array, a slice or a map.
#[derive(Drop)]
pub struct Entry {
    /// The first byte: of its key, where it has one.
    pub at: Pos,
    pub key: Option<Seen>,
    pub value: Seen,
}

/// An element of a literal of a struct.
#[derive(Drop)]
pub struct FieldEntry {
    /// The first byte: of its key, where it has one.
    pub at: Pos,
    pub has_key: bool,
    /// The name of the key where it is a name alone, not `_`, and its package, or `EXPORTED`.
    pub name: Option<NameId>,
    pub package: u32,
    pub value: Seen,
}

impl Literal {
    /// The hint for values that are elided literals.
    pub fn value_hint(&self) -> Hint
        ensures { result ≡ value_hint self.now.kind }
    {
        match self.kind {
            LiteralKind::Struct => Hint::Nothing,
            LiteralKind::Array { elem, .. }
            | LiteralKind::OpenArray { elem }
            | LiteralKind::Slice { elem }
            | LiteralKind::Map { elem, .. } => Hint::Of(elem),
        }
    }

    /// The hint for keys that are elided literals.
    pub fn key_hint(&self) -> Hint
        ensures { result ≡ key_hint self.now.kind }
    {
        match self.kind {
            LiteralKind::Map { key, .. } => Hint::Of(key),
            _ => Hint::Nothing,
        }
    }
}

/// What a composite literal of a type is, by its underlying type. None where it has none.
pub fn literal_kind(types: &Types, of: TypeId) -> Option<LiteralKind>
    ensures { result ≡ literal_kind types.now of }
{
    match types.underlying_term(of) {
        Some(TypeTerm::Struct(_)) => Some(LiteralKind::Struct),
        Some(TypeTerm::Array { len, elem }) => Some(LiteralKind::Array {
            len: *len,
            elem: *elem,
        }),
        Some(TypeTerm::Slice(elem)) => Some(LiteralKind::Slice { elem: *elem }),
        Some(TypeTerm::Map { key, elem }) => Some(LiteralKind::Map {
            key: *key,
            elem: *elem,
        }),
        _ => None,
    }
}

/// A literal whose type is written. `BadCompositeLiteral` at it where that is no struct, array, slice or map.
pub fn written_literal(
    ground: &mut Ground,
    at: Pos,
    brace: Pos,
    of: Option<TypeId>,
) -> Option<Literal>
    ensures answer { result ≡ (written ground.old.types at brace of).sound }
    ensures broken { ground.new ≡ reported ground.old (written ground.old.types at brace of).broken }
{
    let of = of?;
    let Some(kind) = literal_kind(&ground.types, of) else {
        ground.report(at, Rule::BadCompositeLiteral);
        return None;
    };
    Some(Literal {
        at,
        brace,
        of,
        kind,
        pointer: None,
    })
}

/// A literal of `[...]E`.
pub fn open_array_literal(at: Pos, brace: Pos, elem: Option<TypeId>) -> Option<Literal>
    ensures { result ≡ option_map (open_array at brace) elem }
{
    let elem = elem?;
    Some(Literal {
        at,
        brace,
        of: elem,
        kind: LiteralKind::OpenArray { elem },
        pointer: None,
    })
}

/// A literal whose type is left out. `BadCompositeLiteral` at its `{` where there is no type, or it is none of a
/// literal, nor a pointer to such.
pub fn elided_literal(ground: &mut Ground, brace: Pos, hint: Hint) -> Option<Literal>
    ensures answer { result ≡ (elided ground.old.types brace hint).sound }
    ensures broken { ground.new ≡ reported ground.old (elided ground.old.types brace hint).broken }
{
    let of = match hint {
        Hint::Unsound => return None,
        Hint::Nothing => {
            ground.report(brace, Rule::BadCompositeLiteral);
            return None;
        }
        Hint::Of(of) => of,
    };
    let (base, pointer) = match pointed(ground, of) {
        Some(base) => (base, Some(of)),
        None => (of, None),
    };
    let Some(kind) = literal_kind(&ground.types, base) else {
        ground.report(brace, Rule::BadCompositeLiteral);
        return None;
    };
    Some(Literal {
        at: brace,
        brace,
        of: base,
        kind,
        pointer,
    })
}

/// The node of a literal: where its type was left out and is that of a pointer, its address.
pub fn literal_node(
    ground: &mut Ground,
    literal: Literal,
    of: TypeId,
    elements: Elements,
) -> Result<TypedExpr, NoMemory>
    ensures { Turns ground.old ground.new (sound result) (IsNode literal of elements) }
{
    let composite = node(literal.brace, of, ExprKind::CompositeOf(elements));
    let Some(to) = literal.pointer else {
        return Ok(composite);
    };
    let (pointer, composite) = beside(ground.hold(TypeTerm::Pointer(of)), composite)?;
    let operand = boxed(ground, composite)?;
    made(
        ground,
        node(literal.brace, pointer, ExprKind::AddressOf(operand)),
        to,
    )
}

/// Whether what is asked of an element holds. `BadCompositeLiteral` at it where it does not.
pub fn ask_at(ground: &mut Ground, at: Pos, holds: bool) -> bool
    ensures told { result ≡ holds }
    ensures broken { ground.new ≡ reported ground.old (broken_where at (not holds)) }
{
    if !holds {
        ground.report(at, Rule::BadCompositeLiteral);
    }
    holds
}

/// Asks values alone, of a literal whose type is unsound.
pub fn ask_values(ground: &mut Ground, elements: Vec<Entry>)
    ensures { ground.new ≡ reported ground.old (values_broken ground.old.types elements.items) }
{
    for element in elements {
        let Entry { at: _, key, value } = element;
        drop(key);
        drop(one_value(ground, value));
    }
}
