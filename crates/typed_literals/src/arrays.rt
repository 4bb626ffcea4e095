//! Literals of arrays and slices. Go specification, "Composite literals".

ghost use Rattle.std.specs.Prelude.{◌≡◌, ℕ, ◌++◌, ◌∷◌, [], List, Option, IfOk};
ghost use Rattle.typed_parts.specs.Judged.{Comes, and_then, reported};
ghost use Rattle.typed_parts.specs.Meanings.{one_value};
ghost use Rattle.typed_parts.specs.Turning.{Turns};
ghost use Rattle.typed_literals.specs.Arrays.{AreItems, Frees, HasMet, IsFinished, IsIndexKey, IsIndexOf, IsIndexedLiteral, IsItem, IsLonger, IsOpenArray, IsRow, IsTypeAs, constant_given, counted, following, index_in, is_past, row_kind, row_literal};
ghost use Rattle.typed_literals.specs.InOrder.{Teaches};

use crate::composing::{Entry, Literal, LiteralKind, ask_values, literal_node};
use go_base::{NoMemory, Pos, Rule, TypeId};
use go_tree::{Elements, ItemInit, TypedExpr};
use go_type::TypeTerm;
use indexmap::IndexSet;
use std::alloc::Global;
use typed_parts::{
    Given, Ground, Seen, asked, assigned, beside, both, integer_of, is_constant, lost, one_value,
    sound, whole_index, with_last,
};

/// What is known of the elements that were seen so far.
#[derive(Drop)]
struct Row {
    /// The length of an array type that is written.
    limit: Option<u64>,
    /// The index of the next element without a key; None where it is not known.
    next: Option<u64>,
    /// One more than the greatest index.
    len: u64,
    taken: IndexSet<u64>,
}

/// A literal of an array or slice. `BadCompositeLiteral` at a key that is no constant, and at an element whose index is taken;
/// `BadIndex` at a key that is no index, and at an element past the end; `TypeTooLarge` at the literal.
pub fn indexed_literal(
    ground: &mut Ground,
    literal: Option<Literal>,
    elements: Vec<Entry>,
) -> Result<Option<TypedExpr>, NoMemory>
    ensures { Turns ground.old ground.new result (IsIndexedLiteral literal elements.items) }
{
    match row_literal(literal) {
        Some((literal, row)) => of_row(ground, literal, row, elements),
        None => {
            ask_values(ground, elements);
            Ok(None)
        }
    }
}

/// A literal of an array or slice, with the type of its elements and the length that is written.
fn row_literal(literal: Option<Literal>) -> Option<(Literal, (TypeId, Option<u64>))>
    ensures { result ≡ row_literal literal }
{
    let literal = literal?;
    let row = row_kind(literal.kind)?;
    Some((literal, row))
}

const fn row_kind(kind: LiteralKind) -> Option<(TypeId, Option<u64>)>
    ensures { result ≡ row_kind kind }
{
    match kind {
        LiteralKind::Array { len, elem } => Some((elem, Some(len))),
        LiteralKind::OpenArray { elem } | LiteralKind::Slice { elem } => Some((elem, None)),
        LiteralKind::Struct | LiteralKind::Map { .. } => None,
    }
}

fn of_row(
    ground: &mut Ground,
    literal: Literal,
    row: (TypeId, Option<u64>),
    elements: Vec<Entry>,
) -> Result<Option<TypedExpr>, NoMemory>
    ensures { Turns ground.old ground.new result (IsRow literal row elements.items) }
{
    let (elem, limit) = row;
    match each_item(ground, elem, limit, elements)? {
        Some((items, len)) => finished(ground, literal, elem, items, len),
        None => Ok(None),
    }
}

/// The elements, and the length of the literal.
fn each_item(
    ground: &mut Ground,
    elem: TypeId,
    limit: Option<u64>,
    elements: Vec<Entry>,
) -> Result<Option<(Vec<ItemInit>, u64)>, NoMemory>
    ensures { Comes ground.old ground.new (counted result) (AreItems elem limit elements.items ground.old.types) }
{
    let mut row = Row::new(ground.alloc, limit);
    let mut items = Some(Vec::new(ground.alloc));
    for element in elements {
        let item = item_in(ground, &mut row, elem, element)?;
        items = with_last(items, item)?;
    }
    let len = row.limit.unwrap_or(row.len);
    Ok(items.zip(Some(len)))
}

impl Row {
    fn new(alloc: Global, limit: Option<u64>) -> Row
        ensures met { HasMet limit [] result }
        ensures len { result.len ≡ 0 }
    {
        Row {
            limit,
            next: Some(0),
            len: 0,
            taken: IndexSet::new(alloc),
        }
    }
}

/// An element behind others. The length is known where all are sound.
fn item_in(
    ground: &mut Ground,
    row: &mut Row,
    elem: TypeId,
    element: Entry,
) -> Result<Option<ItemInit>, NoMemory>
    ensures { (limit : Option ℕ) (before : List (Option ℕ)) → HasMet limit before row.old → Teaches ground.old ground.new result (IsItem ground.old.types elem limit before element) (λ known. HasMet limit (before ++ known ∷ []) row.new × IsLonger known result row.old.len row.new.len) }
{
    let Entry { at, key, value } = element;
    let index = element_index(ground, row.next, key);
    let (index, value) = beside(index, value)?;
    let value = one_value(ground, value);
    let index = free_index(ground, row, at, index);
    let (index, value) = beside(index, value)?;
    let value = assigned(ground, value, Some(elem));
    match both(Ok(index), value)? {
        Some((index, value)) => Ok(Some(ItemInit { index, value })),
        None => Ok(None),
    }
}

/// The index of an element: that of its key, and without one the next.
fn element_index(
    ground: &mut Ground,
    next: Option<u64>,
    key: Option<Seen>,
) -> Result<Option<u64>, NoMemory>
    ensures { Comes ground.old ground.new result (IsIndexOf ground.old.types key next) }
{
    let Some(key) = key else {
        return Ok(next);
    };
    match index_key(ground, key)? {
        Some(key) => {
            let index = index_of(&key);
            drop(key);
            index
        }
        None => Ok(None),
    }
}

/// The key of an element, as a whole number.
fn index_key(ground: &mut Ground, key: Seen) -> Result<Option<TypedExpr>, NoMemory>
    ensures { Comes ground.old ground.new result (IsIndexKey ground.old.types key) }
{
    let key = constant_key(ground, key);
    whole_index(ground, key, Rule::BadIndex)
}

/// A key that is a constant. `BadCompositeLiteral` at any other.
fn constant_key(ground: &mut Ground, key: Seen) -> Option<Given>
    ensures answer { result ≡ (and_then (one_value ground.old.types key) constant_given).sound }
    ensures broken { ground.new ≡ reported ground.old (and_then (one_value ground.old.types key) constant_given).broken }
{
    let key = one_value(ground, key)?;
    let is_one = is_constant(&key.expr);
    asked(ground, key, is_one, Rule::BadCompositeLiteral)
}

const fn following(index: Option<u64>) -> Option<u64>
    ensures { result ≡ following index }
{
    match index {
        Some(index) => index.checked_add(1),
        None => None,
    }
}

/// The index that a constant key is.
fn index_of(key: &TypedExpr) -> Result<Option<u64>, NoMemory>
    ensures { IfOk result (λ index. index ≡ index_in key.now) }
{
    let Some(number) = integer_of(key) else {
        return Err(lost());
    };
    match u64::try_from(number) {
        Ok(index) => Ok(Some(index)),
        Err(_) => Err(lost()),
    }
}

/// An index that no element before has, below the length of a written array type.
fn free_index(
    ground: &mut Ground,
    row: &mut Row,
    at: Pos,
    index: Option<u64>,
) -> Result<Option<u64>, NoMemory>
    ensures { (limit : Option ℕ) (before : List (Option ℕ)) → HasMet limit before row.old → Frees ground.old ground.new at limit before index row.old.len row.new result }
{
    row.next = following(index);
    let Some(index) = index else {
        return Ok(None);
    };
    if is_past(index, row.limit) {
        ground.report(at, Rule::BadIndex);
        return Ok(None);
    }
    if !row.taken.insert(index)? {
        ground.report(at, Rule::BadCompositeLiteral);
        return Ok(None);
    }
    row.len = row.len.max(row.next.unwrap_or(0));
    Ok(Some(index))
}

fn is_past(index: u64, limit: Option<u64>) -> bool
    ensures { result ≡ is_past index limit }
{
    match limit {
        Some(limit) => index >= limit,
        None => false,
    }
}

/// The literal of sound items. `TypeTooLarge` at it where its array is too large.
fn finished(
    ground: &mut Ground,
    literal: Literal,
    elem: TypeId,
    items: Vec<ItemInit>,
    len: u64,
) -> Result<Option<TypedExpr>, NoMemory>
    ensures { Turns ground.old ground.new result (IsFinished literal elem (items.items, len)) }
{
    let of = finished_type(ground, literal, elem, len);
    match both(of, Ok(Some(items)))? {
        Some((of, items)) => {
            let expr = literal_node(ground, literal, of, Elements::Items { items, len });
            sound(expr)
        }
        None => Ok(None),
    }
}

/// The type of a literal of so many elements. `TypeTooLarge` at it where its array is too large.
fn finished_type(
    ground: &mut Ground,
    literal: Literal,
    elem: TypeId,
    len: u64,
) -> Result<Option<TypeId>, NoMemory>
    ensures { Turns ground.old ground.new result (IsTypeAs literal.kind literal elem len) }
{
    match literal.kind {
        LiteralKind::OpenArray { .. } => open_array(ground, literal.at, elem, len),
        LiteralKind::Slice { .. } => {
            let fits = ground.fit_many(literal.at, elem, len)?;
            Ok(fits.then_some(literal.of))
        }
        LiteralKind::Struct | LiteralKind::Array { .. } | LiteralKind::Map { .. } => {
            Ok(Some(literal.of))
        }
    }
}

/// The array type of so many elements. `TypeTooLarge` at the place where it is too large.
fn open_array(
    ground: &mut Ground,
    at: Pos,
    elem: TypeId,
    len: u64,
) -> Result<Option<TypeId>, NoMemory>
    ensures { Turns ground.old ground.new result (IsOpenArray at elem len) }
{
    let array = ground.hold(TypeTerm::Array { len, elem })?;
    let fits = ground.within_limits(at, array)?;
    Ok(fits.then_some(array))
}
