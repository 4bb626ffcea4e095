//! Places: their addresses, reading them and assigning to them. Go specification, "Address operators" and "Assignment
//! statements".

use crate::builder::{Builder, integer};
use crate::error::lost;
use crate::exprs::{int_type, lower_expr};
use crate::joining::{add, beside, is_there, kept, refused};
use go_base::{NoMemory, Pos, TypeId, VarId};
use go_tree::{ExprKind, IndexBase, TypedExpr};
use go_type::TypeTerm;
use ssa_ir::{Op, Operand};
use std::alloc::Global;
use tree_facts::is_calm;

/// Where a place begins.
#[derive(Drop)]
enum Root {
    Variable(VarId),
    Pointer(Operand),
    Element { slice: Operand, index: Operand },
    Entry { map: Operand, key: Operand },
}

/// From a place to a part of it, which has the type and the first byte given.
#[derive(Drop)]
struct PlaceStep {
    part: Part,
    of: TypeId,
    at: Pos,
}

#[derive(Drop)]
enum Part {
    Field(u32),
    Index(Operand),
}

/// A left side whose operands are evaluated.
#[derive(Drop)]
pub struct PlaceOperand {
    root: Root,
    root_of: TypeId,
    root_at: Pos,
    steps: Vec<PlaceStep>,
    of: TypeId,
}

/// The address of a place.
#[cycle(lower)]
pub(crate) fn address(builder: &mut Builder<'_>, place: &TypedExpr) -> Result<Operand, NoMemory> {
    match &place.kind {
        ExprKind::VarOf(var) => match builder.cell(*var)? {
            Some(cell) => Ok(cell),
            None => Err(lost()),
        },
        ExprKind::Deref(pointer) => lower_expr(builder, pointer),
        ExprKind::FieldOf { operand, field } => {
            let operand = address(builder, operand)?;
            field_address(builder, operand, *field, place.of, place.at)
        }
        ExprKind::IndexOf {
            base: IndexBase::Slice,
            operand,
            index,
        } => {
            let operand = lower_expr(builder, operand)?;
            let (index, operand) = beside(lower_expr(builder, index), operand)?;
            index_address(builder, operand, index, place.of, place.at)
        }
        ExprKind::IndexOf {
            base: IndexBase::Array,
            operand,
            index,
        } => {
            let array = address(builder, operand)?;
            let checked = check_before_index(builder, operand, index, &array);
            let array = kept(array, checked)?;
            let (index, array) = beside(lower_expr(builder, index), array)?;
            index_address(builder, array, index, place.of, place.at)
        }
        _ => Err(lost()),
    }
}

/// What a field, an element or what a pointer points to holds.
#[cycle(lower)]
pub(crate) fn read_place(
    builder: &mut Builder<'_>,
    place: &TypedExpr,
) -> Result<Operand, NoMemory> {
    if is_near(builder, place) {
        let at = address(builder, place)?;
        return builder.value(Op::Load(at), place.of, place.at);
    }
    match &place.kind {
        ExprKind::FieldOf { operand, field } => {
            let operand = lower_expr(builder, operand)?;
            let field = *field;
            builder.value(Op::Field { operand, field }, place.of, place.at)
        }
        ExprKind::IndexOf { operand, index, .. } => {
            let operand = lower_expr(builder, operand)?;
            let (index, operand) = beside(lower_expr(builder, index), operand)?;
            builder.value(Op::Index { operand, index }, place.of, place.at)
        }
        _ => Err(lost()),
    }
}

/// Whether a place is read through its address: nothing that is evaluated between can change it.
fn is_near(builder: &Builder<'_>, place: &TypedExpr) -> bool {
    match &place.kind {
        ExprKind::VarOf(var) => is_there(builder.cell(*var)),
        ExprKind::Deref(_) => true,
        ExprKind::IndexOf {
            base: IndexBase::Slice,
            ..
        } => true,
        ExprKind::FieldOf { operand, .. } => is_near(builder, operand),
        ExprKind::IndexOf {
            base: IndexBase::Array,
            operand,
            index,
        } => is_calm(index) && is_near(builder, operand),
        _ => false,
    }
}

/// A nil pointer to an array is met before the index is evaluated.
fn check_before_index(
    builder: &mut Builder<'_>,
    array: &TypedExpr,
    index: &TypedExpr,
    pointer: &Operand,
) -> Result<(), NoMemory> {
    if !matches!(array.kind, ExprKind::Deref(_))
        || matches!(index.kind, ExprKind::ConstOf(_) | ExprKind::VarOf(_))
    {
        return Ok(());
    }
    let (len, elem) = match builder.under(array.of)? {
        TypeTerm::Array { len, elem } => (*len, *elem),
        _ => return Err(lost()),
    };
    if len == 0 {
        return check_pointer(builder, pointer, array);
    }
    let of = builder.pointer_to(elem)?;
    let op = Op::IndexAddress {
        operand: pointer.copy(builder.allocator())?,
        index: integer(0, int_type()),
    };
    builder.register(op, of, array.at)?;
    Ok(())
}

/// A nil pointer is met: the place that it points to is read.
pub(crate) fn check_pointer(
    builder: &mut Builder<'_>,
    pointer: &Operand,
    place: &TypedExpr,
) -> Result<(), NoMemory> {
    let checked = pointer.copy(builder.allocator())?;
    builder.register(Op::Load(checked), place.of, place.at)?;
    Ok(())
}

pub(crate) fn field_address(
    builder: &mut Builder<'_>,
    operand: Operand,
    field: u32,
    of: TypeId,
    at: Pos,
) -> Result<Operand, NoMemory> {
    let (pointer, operand) = beside(builder.pointer_to(of), operand)?;
    builder.value(Op::FieldAddress { operand, field }, pointer, at)
}

pub(crate) fn index_address(
    builder: &mut Builder<'_>,
    operand: Operand,
    index: Operand,
    of: TypeId,
    at: Pos,
) -> Result<Operand, NoMemory> {
    let (pointer, (operand, index)) = beside(builder.pointer_to(of), (operand, index))?;
    builder.value(Op::IndexAddress { operand, index }, pointer, at)
}

/// Evaluates the operands of a left side.
pub fn lower_place(builder: &mut Builder<'_>, place: &TypedExpr) -> Result<PlaceOperand, NoMemory> {
    match &place.kind {
        ExprKind::FieldOf { operand, field } => {
            let outer = lower_place(builder, operand)?;
            deeper(outer, Part::Field(*field), place)
        }
        ExprKind::IndexOf {
            base: IndexBase::Array,
            operand,
            index,
        } => {
            let outer = lower_place(builder, operand)?;
            let (index, outer) = beside(lower_expr(builder, index), outer)?;
            deeper(outer, Part::Index(index), place)
        }
        _ => {
            let root = lower_root(builder, place)?;
            Ok(PlaceOperand {
                root,
                root_of: place.of,
                root_at: place.at,
                steps: Vec::new(builder.allocator()),
                of: place.of,
            })
        }
    }
}

fn deeper(outer: PlaceOperand, part: Part, place: &TypedExpr) -> Result<PlaceOperand, NoMemory> {
    let mut deeper = outer;
    deeper.of = place.of;
    let step = PlaceStep {
        part,
        of: place.of,
        at: place.at,
    };
    let added = add(&mut deeper.steps, step);
    kept(deeper, added)
}

fn lower_root(builder: &mut Builder<'_>, place: &TypedExpr) -> Result<Root, NoMemory> {
    match &place.kind {
        ExprKind::VarOf(var) => Ok(Root::Variable(*var)),
        ExprKind::Deref(pointer) => Ok(Root::Pointer(lower_expr(builder, pointer)?)),
        ExprKind::IndexOf { operand, index, .. } => {
            let slice = lower_expr(builder, operand)?;
            let (index, slice) = beside(lower_expr(builder, index), slice)?;
            Ok(Root::Element { slice, index })
        }
        ExprKind::MapIndex { map, key, .. } => {
            let map = lower_expr(builder, map)?;
            let (key, map) = beside(lower_expr(builder, key), map)?;
            Ok(Root::Entry { map, key })
        }
        _ => Err(lost()),
    }
}

/// Assigns a value to a left side whose operands are evaluated.
pub fn store_place(
    builder: &mut Builder<'_>,
    place: PlaceOperand,
    value: Operand,
    at: Pos,
) -> Result<(), NoMemory> {
    if let Some(var) = whole_variable(&place) {
        drop(place);
        return builder.write_var(var, value, at);
    }
    let address = place_address(builder, &place);
    let (address, (place, value)) = beside(address, (place, value))?;
    match address {
        Some(address) => {
            drop(place);
            builder.effect(Op::Store { at: address, value }, at)
        }
        None => store_entry(builder, place, value, at),
    }
}

/// The variable that a left side is. None where it is another place.
fn whole_variable(place: &PlaceOperand) -> Option<VarId> {
    match &place.root {
        Root::Variable(var) if place.steps.is_empty() => Some(*var),
        _ => None,
    }
}

/// Assigns a value to an entry of a map.
fn store_entry(
    builder: &mut Builder<'_>,
    place: PlaceOperand,
    value: Operand,
    at: Pos,
) -> Result<(), NoMemory> {
    let PlaceOperand { root, .. } = place;
    match root {
        Root::Entry { map, key } => builder.effect(Op::Update { map, key, value }, at),
        other => refused((other, value)),
    }
}

/// What a left side holds whose operands are evaluated.
pub fn load_place(
    builder: &mut Builder<'_>,
    place: &PlaceOperand,
    at: Pos,
) -> Result<Operand, NoMemory> {
    let alloc = builder.allocator();
    if let Root::Entry { map, key } = &place.root {
        let (map, key) = copies(alloc, map, key)?;
        let comma_ok = false;
        return builder.value(Op::Lookup { map, key, comma_ok }, place.of, at);
    }
    match place_address(builder, place)? {
        Some(address) => builder.value(Op::Load(address), place.of, at),
        None => Err(lost()),
    }
}

/// The address of a left side. None where it is an entry of a map, or a variable without a cell.
fn place_address(
    builder: &mut Builder<'_>,
    place: &PlaceOperand,
) -> Result<Option<Operand>, NoMemory> {
    let Some(mut address) = root_address(builder, place)? else {
        return Ok(None);
    };
    for step in place.steps.as_slice() {
        address = part_address(builder, address, step)?;
    }
    Ok(Some(address))
}

fn part_address(
    builder: &mut Builder<'_>,
    address: Operand,
    step: &PlaceStep,
) -> Result<Operand, NoMemory> {
    match &step.part {
        Part::Field(field) => field_address(builder, address, *field, step.of, step.at),
        Part::Index(index) => {
            let (index, address) = beside(index.copy(builder.allocator()), address)?;
            index_address(builder, address, index, step.of, step.at)
        }
    }
}

fn root_address(
    builder: &mut Builder<'_>,
    place: &PlaceOperand,
) -> Result<Option<Operand>, NoMemory> {
    let alloc = builder.allocator();
    match &place.root {
        Root::Variable(var) => builder.cell(*var),
        Root::Pointer(pointer) => Ok(Some(pointer.copy(alloc)?)),
        Root::Element { slice, index } => {
            let (slice, index) = copies(alloc, slice, index)?;
            let address = index_address(builder, slice, index, place.root_of, place.root_at)?;
            Ok(Some(address))
        }
        Root::Entry { .. } => Ok(None),
    }
}

/// Two operands once more.
fn copies(
    alloc: Global,
    first: &Operand,
    second: &Operand,
) -> Result<(Operand, Operand), NoMemory> {
    let first = first.copy(alloc)?;
    let (second, first) = beside(second.copy(alloc), first)?;
    Ok((first, second))
}
