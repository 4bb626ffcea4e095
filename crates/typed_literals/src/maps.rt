//! Literals of maps. Go specification, "Composite literals".

ghost use Rattle.std.specs.Prelude.{◌≡◌, ◌++◌, ◌∷◌, [], List, None, Option, Some, if◌then◌else◌};
ghost use Rattle.go_type.specs.declared.constants.Const.TheVariants as constant;
ghost use Rattle.typed_parts.specs.Joining.{listed};
ghost use Rattle.typed_parts.specs.Judged.{Comes};
ghost use Rattle.typed_parts.specs.Turning.{Turns};
ghost use Rattle.typed_literals.specs.InOrder.{Teaches};
ghost use Rattle.typed_literals.specs.Maps.{Adds, AreEntries, AreKeys, IsEntry, IsMap, IsMapLiteral, IsNewKey, IsPart, TypedConst, constant_in, known_in, map_of, plain};

use crate::composing::{Entry, Literal, LiteralKind, ask_at, ask_values, literal_node};
use go_base::{Bytes, NoMemory, Pos, Rule, TypeId};
use go_tree::{Elements, EntryInit, ExprKind, TypedExpr};
use go_type::Const;
use indexmap::IndexSet;
use std::alloc::Global;
use typed_parts::{Ground, Seen, assigned, beside, both, one_value, only, sound, with_last};

/// A constant key of a type, which is a number or a truth value.
#[derive(Clone, Copy, PartialEq, Eq, Hash)]
struct NumberKey {
    of: TypeId,
    number: i128,
}

/// A constant key of a type, which is a text.
#[derive(Drop, PartialEq, Eq, Hash)]
struct TextKey {
    of: TypeId,
    text: Bytes,
}

/// The constant keys so far.
#[derive(Drop)]
struct Keys {
    numbers: IndexSet<NumberKey>,
    texts: IndexSet<TextKey>,
}

/// A literal of a map. `BadCompositeLiteral` at an element without a key, and at a constant key that comes again.
pub fn map_literal(
    ground: &mut Ground,
    literal: Option<Literal>,
    elements: Vec<Entry>,
) -> Result<Option<TypedExpr>, NoMemory>
    ensures { Turns ground.old ground.new result (IsMapLiteral literal elements.items) }
{
    match map_of(literal) {
        Some(map) => of_entries(ground, map, elements),
        None => {
            ask_values(ground, elements);
            Ok(None)
        }
    }
}

/// A literal of a map, with the types of its keys and of its elements.
#[derive(Clone, Copy)]
struct MapLiteral {
    literal: Literal,
    key: TypeId,
    elem: TypeId,
}

fn map_of(literal: Option<Literal>) -> Option<MapLiteral>
    ensures { result ≡ map_of literal }
{
    let literal = literal?;
    match literal.kind {
        LiteralKind::Map { key, elem } => Some(MapLiteral { literal, key, elem }),
        _ => None,
    }
}

fn of_entries(
    ground: &mut Ground,
    map: MapLiteral,
    elements: Vec<Entry>,
) -> Result<Option<TypedExpr>, NoMemory>
    ensures { Turns ground.old ground.new result (IsMap map elements.items) }
{
    let entries = each_entry(ground, map.key, map.elem, elements)?;
    let literal = map.literal;
    match entries {
        Some(entries) => {
            let expr = literal_node(ground, literal, literal.of, Elements::Entries(entries));
            sound(expr)
        }
        None => Ok(None),
    }
}

fn each_entry(
    ground: &mut Ground,
    key: TypeId,
    elem: TypeId,
    elements: Vec<Entry>,
) -> Result<Option<Vec<EntryInit>>, NoMemory>
    ensures { Comes ground.old ground.new (listed result) (AreEntries key elem elements.items ground.old.types) }
{
    let mut keys = Keys::new(ground.alloc);
    let mut entries = Some(Vec::new(ground.alloc));
    for element in elements {
        let entry = entry_of(ground, &mut keys, key, elem, element)?;
        entries = with_last(entries, entry)?;
    }
    Ok(entries)
}

fn entry_of(
    ground: &mut Ground,
    keys: &mut Keys,
    key_type: TypeId,
    elem: TypeId,
    element: Entry,
) -> Result<Option<EntryInit>, NoMemory>
    ensures { (before : List (Option TypedConst)) → AreKeys before keys.old → Teaches ground.old ground.new result (IsEntry ground.old.types key_type elem before element) (λ known. AreKeys (before ++ known ∷ []) keys.new) }
{
    let Entry { at, key, value } = element;
    let key = entry_key(ground, keys, at, key_type, key);
    let value = part_value(ground, value, elem);
    match both(key, value)? {
        Some((key, value)) => Ok(Some(EntryInit { key, value })),
        None => Ok(None),
    }
}

/// A part of an entry as a value of a type.
fn part_value(ground: &mut Ground, part: Seen, to: TypeId) -> Result<Option<TypedExpr>, NoMemory>
    ensures { Comes ground.old ground.new result (IsPart ground.old.types part to) }
{
    let part = one_value(ground, part);
    assigned(ground, part, Some(to))
}

/// The key of an entry. `BadCompositeLiteral` where there is none, and at a constant that comes again.
fn entry_key(
    ground: &mut Ground,
    keys: &mut Keys,
    at: Pos,
    of: TypeId,
    key: Option<Seen>,
) -> Result<Option<TypedExpr>, NoMemory>
    ensures { (before : List (Option TypedConst)) → AreKeys before keys.old → Teaches ground.old ground.new result (IsNewKey ground.old.types at key of before) (λ known. AreKeys (before ++ known ∷ []) keys.new) }
{
    let Some(key) = key else {
        ground.report(at, Rule::BadCompositeLiteral);
        return Ok(None);
    };
    let is_constant = key.is_constant();
    let key = part_value(ground, key, of)?;
    let (is_new, key) = beside(keys.add_written(ground.alloc, is_constant, &key), key)?;
    let is_new = ask_at(ground, at, is_new);
    Ok(only(key, is_new))
}

impl Keys {
    /// No key is known.
    fn new(alloc: Global) -> Keys
        ensures { AreKeys [] result }
    {
        Keys {
            numbers: IndexSet::new(alloc),
            texts: IndexSet::new(alloc),
        }
    }

    /// Adds the constant that a key is which is written as one. False where that has come.
    fn add_written(
        &mut self,
        alloc: Global,
        is_constant: bool,
        key: &Option<TypedExpr>,
    ) -> Result<bool, NoMemory>
        ensures { (before : List (Option TypedConst)) → AreKeys before self.old → Adds before (if is_constant then known_in key.now else None) self.new result }
    {
        match key {
            Some(key) if is_constant => self.add(alloc, key),
            _ => Ok(true),
        }
    }

    fn add(&mut self, alloc: Global, key: &TypedExpr) -> Result<bool, NoMemory>
        ensures { (before : List (Option TypedConst)) → AreKeys before self.old → Adds before (constant_in key.now) self.new result }
    {
        match &key.kind {
            ExprKind::ConstOf(value) => self.add_constant(alloc, key.of, value),
            ExprKind::ToInterface(operand) => match &operand.kind {
                ExprKind::ConstOf(value) => self.add_constant(alloc, operand.of, value),
                _ => Ok(true),
            },
            _ => Ok(true),
        }
    }

    fn add_constant(&mut self, alloc: Global, of: TypeId, value: &Const) -> Result<bool, NoMemory>
        ensures { (before : List (Option TypedConst)) → AreKeys before self.old → Adds before (Some (of, plain value.now)) self.new result }
    {
        match value {
            Const::Int(number) | Const::Rune(number) => self.add_number(of, *number),
            Const::Truth(truth) => self.add_number(of, i128::from(*truth)),
            Const::Text(text) => self.add_text(of, text.copy(alloc)?),
        }
    }

    fn add_number(&mut self, of: TypeId, number: i128) -> Result<bool, NoMemory>
        ensures { (before : List (Option TypedConst)) → AreKeys before self.old → Adds before (Some (of, constant.Int number)) self.new result }
    {
        Ok(self.numbers.insert(NumberKey { of, number })?)
    }

    fn add_text(&mut self, of: TypeId, text: Bytes) -> Result<bool, NoMemory>
        ensures { (before : List (Option TypedConst)) → AreKeys before self.old → Adds before (Some (of, constant.Text text)) self.new result }
    {
        Ok(self.texts.insert(TextKey { of, text })?)
    }
}
