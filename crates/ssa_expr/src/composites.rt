//! Composite literals. Go specification, "Composite literals".

use crate::builder::{Builder, integer, zero};
use crate::error::lost;
use crate::exprs::{int_type, lower_expr};
use crate::joining::beside;
use crate::places::{field_address, index_address};
use go_base::{NoMemory, Pos, TypeId};
use go_tree::{Elements, EntryInit, FieldInit, ItemInit};
use go_type::TypeTerm;
use ssa_ir::{Op, Operand};

/// A part of a struct, an array or a slice.
#[derive(Clone, Copy)]
enum Slot {
    Field(u32),
    Item(u64),
}

/// A value of a literal, and where it goes.
#[derive(Drop)]
enum Element {
    Part {
        slot: Slot,
        of: TypeId,
        value: Operand,
    },
    Entry {
        key: Operand,
        value: Operand,
    },
}

/// The value of a literal.
#[cycle(lower)]
pub(crate) fn composite_value(
    builder: &mut Builder<'_>,
    elements: &Elements,
    of: TypeId,
    at: Pos,
) -> Result<Operand, NoMemory> {
    let values = lower_elements(builder, elements)?;
    make_value(builder, values, elements, of, at)
}

/// The pointer to a new variable that holds a literal.
#[cycle(lower)]
pub(crate) fn composite_address(
    builder: &mut Builder<'_>,
    elements: &Elements,
    of: TypeId,
    pointer: TypeId,
    at: Pos,
) -> Result<Operand, NoMemory> {
    let values = lower_elements(builder, elements)?;
    make_address(builder, values, elements, of, pointer, at)
}

/// The values of a literal, in the order written.
#[cycle(lower)]
fn lower_elements(
    builder: &mut Builder<'_>,
    elements: &Elements,
) -> Result<Vec<Element>, NoMemory> {
    match elements {
        Elements::Fields(fields) => lower_fields(builder, fields.as_slice()),
        Elements::Items { items, .. } => lower_items(builder, items.as_slice()),
        Elements::Entries(entries) => lower_entries(builder, entries.as_slice()),
    }
}

#[cycle(lower)]
fn lower_fields(builder: &mut Builder<'_>, fields: &[FieldInit]) -> Result<Vec<Element>, NoMemory> {
    let mut values = Vec::new(builder.allocator());
    for field in fields {
        let value = lower_expr(builder, &field.value)?;
        values.push(Element::Part {
            slot: Slot::Field(field.field),
            of: field.value.of,
            value,
        })?;
    }
    Ok(values)
}

#[cycle(lower)]
fn lower_items(builder: &mut Builder<'_>, items: &[ItemInit]) -> Result<Vec<Element>, NoMemory> {
    let mut values = Vec::new(builder.allocator());
    for item in items {
        let value = lower_expr(builder, &item.value)?;
        values.push(Element::Part {
            slot: Slot::Item(item.index),
            of: item.value.of,
            value,
        })?;
    }
    Ok(values)
}

#[cycle(lower)]
fn lower_entries(
    builder: &mut Builder<'_>,
    entries: &[EntryInit],
) -> Result<Vec<Element>, NoMemory> {
    let mut values = Vec::new(builder.allocator());
    for entry in entries {
        let key = lower_expr(builder, &entry.key)?;
        let (value, key) = beside(lower_expr(builder, &entry.value), key)?;
        values.push(Element::Entry { key, value })?;
    }
    Ok(values)
}

/// Whether a literal is one of a struct or an array, and not of a slice or a map.
fn is_inline(builder: &Builder<'_>, of: TypeId) -> Result<bool, NoMemory> {
    Ok(matches!(
        builder.under(of)?,
        TypeTerm::Struct(_) | TypeTerm::Array { .. }
    ))
}

fn make_value(
    builder: &mut Builder<'_>,
    values: Vec<Element>,
    elements: &Elements,
    of: TypeId,
    at: Pos,
) -> Result<Operand, NoMemory> {
    if !is_inline(builder, of)? {
        let made = make_reference(builder, values, elements, of, at)?;
        return Ok(Operand::Register(made));
    }
    if values.is_empty() {
        return Ok(zero(of));
    }
    let pointer = builder.pointer_to(of)?;
    let cell = builder.register(Op::New(of), pointer, at)?;
    put_all(builder, cell, values, at)?;
    builder.value(Op::Load(Operand::Register(cell)), of, at)
}

fn make_address(
    builder: &mut Builder<'_>,
    values: Vec<Element>,
    elements: &Elements,
    of: TypeId,
    pointer: TypeId,
    at: Pos,
) -> Result<Operand, NoMemory> {
    if is_inline(builder, of)? {
        let cell = builder.register(Op::New(of), pointer, at)?;
        put_all(builder, cell, values, at)?;
        return Ok(Operand::Register(cell));
    }
    let made = make_reference(builder, values, elements, of, at)?;
    let cell = builder.register(Op::New(of), pointer, at)?;
    let store = Op::Store {
        at: Operand::Register(cell),
        value: Operand::Register(made),
    };
    builder.effect(store, at)?;
    Ok(Operand::Register(cell))
}

/// A literal of a slice or a map, and the number of its register.
fn make_reference(
    builder: &mut Builder<'_>,
    values: Vec<Element>,
    elements: &Elements,
    of: TypeId,
    at: Pos,
) -> Result<u64, NoMemory> {
    let made = match elements {
        Elements::Items { len, .. } => {
            let len = i128::from(*len);
            let op = Op::MakeSlice {
                of,
                len: integer(len, int_type()),
                cap: integer(len, int_type()),
            };
            builder.register(op, of, at)?
        }
        Elements::Entries(_) => builder.register(Op::MakeMap(of), of, at)?,
        Elements::Fields(_) => return Err(lost()),
    };
    put_all(builder, made, values, at)?;
    Ok(made)
}

/// The values are put into what the register holds.
fn put_all(
    builder: &mut Builder<'_>,
    made: u64,
    values: Vec<Element>,
    at: Pos,
) -> Result<(), NoMemory> {
    for element in values {
        put(builder, made, element, at)?;
    }
    Ok(())
}

fn put(builder: &mut Builder<'_>, made: u64, element: Element, at: Pos) -> Result<(), NoMemory> {
    match element {
        Element::Part { slot, of, value } => {
            let address = slot_address(builder, made, slot, of, at);
            builder.store(address, value, at)
        }
        Element::Entry { key, value } => {
            let map = Operand::Register(made);
            builder.effect(Op::Update { map, key, value }, at)
        }
    }
}

fn slot_address(
    builder: &mut Builder<'_>,
    made: u64,
    slot: Slot,
    of: TypeId,
    at: Pos,
) -> Result<Operand, NoMemory> {
    let made = Operand::Register(made);
    match slot {
        Slot::Field(field) => field_address(builder, made, field, of, at),
        Slot::Item(index) => {
            let index = integer(i128::from(index), int_type());
            index_address(builder, made, index, of, at)
        }
    }
}
