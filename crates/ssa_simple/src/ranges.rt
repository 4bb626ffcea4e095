//! The heads of `for` over a range: what is done once, and what each turn begins with. Go specification, "For statements
//! with range clause".

use crate::error::lost;
use crate::flow::{Exit, Flow};
use crate::storing::{Side, lower_target, store};
use go_base::{BlockId, NoMemory, Pos, TypeId, VarId};
use go_tree::{RangeOver, RangeTargets, Target, TypedExpr};
use go_type::{Basic, BinaryOp, Builtin, CompareOp, TypeTerm, basic};
use ssa_expr::{Parts, integer, lower_expr, zero};
use ssa_ir::{Call, Infix, Op, Operand, Operands};

/// What a range goes over, once its operand is evaluated.
#[derive(Drop)]
struct Ranged {
    over: RangeOver,
    /// The operand; absent where only a constant length counts.
    operand: Option<Operand>,
    of: TypeId,
    /// The number of turns, where an index is counted up to it.
    count: Option<Operand>,
    /// The cell of the hidden index.
    index: Option<Operand>,
    /// The iterator of a text or a map.
    iterator: Option<Operand>,
    at: Pos,
}

/// What a turn has: the index of this turn, or the tuple of what came.
#[derive(Drop)]
enum Turn {
    Index(Operand),
    Tuple(Operand),
}

/// The left sides of a range, where there are such and they are not `_`.
#[derive(Drop)]
struct Sides {
    key: Option<Side>,
    value: Option<Side>,
}

/// What the left sides of a range get.
#[derive(Drop)]
struct PartValues {
    key: Option<Operand>,
    value: Option<Operand>,
}

/// The type `bool`.
pub fn bool_type() -> TypeId {
    basic(Basic::Bool)
}

fn int_type() -> TypeId {
    basic(Basic::Int)
}

/// The head of a range, up to its body. The answer is the block where each turn begins.
pub fn lower_range_head(
    flow: &mut Flow<'_>,
    over: RangeOver,
    operand: &TypedExpr,
    targets: &RangeTargets,
    at: Pos,
) -> Result<BlockId, NoMemory> {
    let ranged = begin(flow, over, operand, targets, at)?;
    let head = enter_loop(flow, at)?;
    begin_turn(flow, &ranged, targets)?;
    flow.tick(at)?;
    Ok(head)
}

/// The block where each turn begins is the current one.
fn enter_loop(flow: &mut Flow<'_>, at: Pos) -> Result<BlockId, NoMemory> {
    let head = flow.builder.add_block()?;
    flow.builder.jump(head, at)?;
    flow.builder.enter(head);
    flow.push_exit(Exit::of_loop(Some(head)))?;
    Ok(head)
}

/// Where there is a turn, its key and value go where they belong.
fn begin_turn(
    flow: &mut Flow<'_>,
    ranged: &Ranged,
    targets: &RangeTargets,
) -> Result<(), NoMemory> {
    let turn = lower_turn(flow, ranged)?;
    lower_targets(flow, ranged, &turn, targets)
}

/// What is done once: the operand, the number of turns, the variables, and the hidden index.
fn begin(
    flow: &mut Flow<'_>,
    over: RangeOver,
    operand: &TypedExpr,
    targets: &RangeTargets,
    at: Pos,
) -> Result<Ranged, NoMemory> {
    let value = range_operand(flow, over, operand)?;
    let of = operand.of;
    let count = count(flow, over, of, &value, at)?;
    let iterator = iterator(flow, over, of, &value, at)?;
    begin_variables(flow, targets)?;
    let index = index_cell(flow, over, of, count.is_some(), at)?;
    Ok(Ranged {
        over,
        operand: value,
        of,
        count,
        index,
        iterator,
        at,
    })
}

/// The operand, where not only a constant length counts.
fn range_operand(
    flow: &mut Flow<'_>,
    over: RangeOver,
    operand: &TypedExpr,
) -> Result<Option<Operand>, NoMemory> {
    match over {
        RangeOver::Constant(_) => Ok(None),
        _ => Ok(Some(lower_expr(&mut flow.builder, operand)?)),
    }
}

/// The cell of the hidden index, where there is one.
fn index_cell(
    flow: &mut Flow<'_>,
    over: RangeOver,
    of: TypeId,
    is_counted: bool,
    at: Pos,
) -> Result<Option<Operand>, NoMemory> {
    if !is_counted {
        return Ok(None);
    }
    let of = index_type(over, of);
    let pointer = flow.builder.pointer_to(of)?;
    Ok(Some(flow.builder.value(Op::New(of), pointer, at)?))
}

fn begin_variables(flow: &mut Flow<'_>, targets: &RangeTargets) -> Result<(), NoMemory> {
    match targets {
        RangeTargets::Define { key, value } => {
            begin_variable(flow, *key)?;
            begin_variable(flow, *value)
        }
        _ => Ok(()),
    }
}

fn begin_variable(flow: &mut Flow<'_>, var: Option<VarId>) -> Result<(), NoMemory> {
    match var {
        Some(var) => flow.builder.begin_var(var),
        None => Ok(()),
    }
}

/// The type of the hidden index.
fn index_type(over: RangeOver, of: TypeId) -> TypeId {
    match over {
        RangeOver::Integer => of,
        _ => int_type(),
    }
}

fn copy_of(flow: &Flow<'_>, operand: &Option<Operand>) -> Result<Operand, NoMemory> {
    match operand {
        Some(operand) => operand.copy(flow.builder.allocator()),
        None => Err(lost()),
    }
}

/// The number of turns, where an index is counted up to it.
fn count(
    flow: &mut Flow<'_>,
    over: RangeOver,
    of: TypeId,
    operand: &Option<Operand>,
    at: Pos,
) -> Result<Option<Operand>, NoMemory> {
    match over {
        RangeOver::Array | RangeOver::ArrayPointer => {
            let len = array_len(flow, of)?;
            Ok(Some(integer(i128::from(len), int_type())))
        }
        RangeOver::Constant(len) => Ok(Some(integer(i128::from(len), int_type()))),
        RangeOver::Integer => Ok(Some(copy_of(flow, operand)?)),
        RangeOver::Slice => Ok(Some(slice_len(flow, operand, at)?)),
        RangeOver::Text | RangeOver::Map | RangeOver::Channel => Ok(None),
    }
}

fn slice_len(flow: &mut Flow<'_>, operand: &Option<Operand>, at: Pos) -> Result<Operand, NoMemory> {
    let mut arguments = Operands::new(flow.builder.allocator());
    arguments.push(copy_of(flow, operand)?)?;
    let builtin = Builtin::Len;
    let op = Op::Call(Call::Builtin { builtin, arguments });
    flow.builder.value(op, int_type(), at)
}

fn array_len(flow: &Flow<'_>, of: TypeId) -> Result<u64, NoMemory> {
    let base = match flow.builder.under(of)? {
        TypeTerm::Pointer(base) => *base,
        _ => of,
    };
    match flow.builder.under(base)? {
        TypeTerm::Array { len, .. } => Ok(*len),
        _ => Err(lost()),
    }
}

fn iterator(
    flow: &mut Flow<'_>,
    over: RangeOver,
    of: TypeId,
    operand: &Option<Operand>,
    at: Pos,
) -> Result<Option<Operand>, NoMemory> {
    match over {
        RangeOver::Text | RangeOver::Map => {
            let operand = copy_of(flow, operand)?;
            let of = flow.builder.hold(TypeTerm::Iter(of))?;
            Ok(Some(flow.builder.value(Op::Range(operand), of, at)?))
        }
        _ => Ok(None),
    }
}

/// Finds out whether there is a turn; the builder then stands in the body.
fn lower_turn(flow: &mut Flow<'_>, ranged: &Ranged) -> Result<Turn, NoMemory> {
    match ranged.over {
        RangeOver::Text | RangeOver::Map => lower_next(flow, ranged),
        RangeOver::Channel => lower_receive(flow, ranged),
        _ => lower_index(flow, ranged),
    }
}

fn lower_index(flow: &mut Flow<'_>, ranged: &Ranged) -> Result<Turn, NoMemory> {
    let of = index_type(ranged.over, ranged.of);
    let cell = copy_of(flow, &ranged.index)?;
    let index = flow.builder.value(Op::Load(cell), of, ranged.at)?;
    let left = index.copy(flow.builder.allocator())?;
    let right = copy_of(flow, &ranged.count)?;
    let op = Infix::Compare(CompareOp::Less);
    let test = flow
        .builder
        .value(Op::Binary { op, left, right }, bool_type(), ranged.at)?;
    flow.branch_into(test, ranged.at)?;
    let left = index.copy(flow.builder.allocator())?;
    let right = integer(1, of);
    let op = Infix::Operate(BinaryOp::Add);
    let value = flow
        .builder
        .value(Op::Binary { op, left, right }, of, ranged.at)?;
    let at = copy_of(flow, &ranged.index)?;
    flow.builder.effect(Op::Store { at, value }, ranged.at)?;
    Ok(Turn::Index(index))
}

/// The types of the key and the value of a turn.
fn turn_types(flow: &Flow<'_>, ranged: &Ranged) -> Result<(TypeId, TypeId), NoMemory> {
    match flow.builder.under(ranged.of)? {
        TypeTerm::Map { key, elem } => Ok((*key, *elem)),
        TypeTerm::Chan { elem, .. } => Ok((*elem, bool_type())),
        TypeTerm::Basic(_) => Ok((int_type(), basic(Basic::Int32))),
        TypeTerm::Array { elem, .. } | TypeTerm::Slice(elem) => Ok((int_type(), *elem)),
        TypeTerm::Pointer(base) => match flow.builder.under(*base)? {
            TypeTerm::Array { elem, .. } => Ok((int_type(), *elem)),
            _ => Err(lost()),
        },
        _ => Err(lost()),
    }
}

fn extract(
    flow: &mut Flow<'_>,
    tuple: &Operand,
    part: u32,
    of: TypeId,
    at: Pos,
) -> Result<Operand, NoMemory> {
    let operand = tuple.copy(flow.builder.allocator())?;
    flow.builder.value(Op::Extract { operand, part }, of, at)
}

fn lower_next(flow: &mut Flow<'_>, ranged: &Ranged) -> Result<Turn, NoMemory> {
    let (key, value) = turn_types(flow, ranged)?;
    let of = flow.builder.tuple_of(&[bool_type(), key, value])?;
    let iterator = copy_of(flow, &ranged.iterator)?;
    let tuple = flow.builder.value(Op::Next(iterator), of, ranged.at)?;
    let test = extract(flow, &tuple, 0, bool_type(), ranged.at)?;
    flow.branch_into(test, ranged.at)?;
    Ok(Turn::Tuple(tuple))
}

fn lower_receive(flow: &mut Flow<'_>, ranged: &Ranged) -> Result<Turn, NoMemory> {
    let (elem, ok) = turn_types(flow, ranged)?;
    let of = flow.builder.tuple_of(&[elem, ok])?;
    let op = Op::Receive {
        channel: copy_of(flow, &ranged.operand)?,
        comma_ok: true,
    };
    let tuple = flow.builder.value(op, of, ranged.at)?;
    let test = extract(flow, &tuple, 1, bool_type(), ranged.at)?;
    flow.branch_into(test, ranged.at)?;
    Ok(Turn::Tuple(tuple))
}

/// The key of a turn, or what a channel gave.
fn key_of(flow: &mut Flow<'_>, ranged: &Ranged, turn: &Turn) -> Result<Operand, NoMemory> {
    match turn {
        Turn::Index(index) => index.copy(flow.builder.allocator()),
        Turn::Tuple(tuple) => {
            let (key, _) = turn_types(flow, ranged)?;
            let part = match ranged.over {
                RangeOver::Channel => 0,
                _ => 1,
            };
            extract(flow, tuple, part, key, ranged.at)
        }
    }
}

/// The value of a turn: what is asked for is read, and nothing else.
fn value_of(flow: &mut Flow<'_>, ranged: &Ranged, turn: &Turn) -> Result<Operand, NoMemory> {
    let (_, elem) = turn_types(flow, ranged)?;
    match turn {
        Turn::Tuple(tuple) => extract(flow, tuple, 2, elem, ranged.at),
        Turn::Index(index) => {
            let operand = copy_of(flow, &ranged.operand)?;
            let index = index.copy(flow.builder.allocator())?;
            if let RangeOver::Array = ranged.over {
                let op = Op::Index { operand, index };
                return flow.builder.value(op, elem, ranged.at);
            }
            let pointer = flow.builder.pointer_to(elem)?;
            let op = Op::IndexAddress { operand, index };
            let address = flow.builder.value(op, pointer, ranged.at)?;
            flow.builder.value(Op::Load(address), elem, ranged.at)
        }
    }
}

/// The key and the value of a turn go where they belong.
fn lower_targets(
    flow: &mut Flow<'_>,
    ranged: &Ranged,
    turn: &Turn,
    targets: &RangeTargets,
) -> Result<(), NoMemory> {
    match targets {
        RangeTargets::None => Ok(()),
        RangeTargets::Define { key, value } => define(flow, ranged, turn, *key, *value),
        RangeTargets::Assign { key, value, parts } => {
            assign(flow, ranged, turn, key, value, parts.as_slice())
        }
    }
}

fn define(
    flow: &mut Flow<'_>,
    ranged: &Ranged,
    turn: &Turn,
    key: Option<VarId>,
    value: Option<VarId>,
) -> Result<(), NoMemory> {
    let first = match key {
        Some(_) => Some(key_of(flow, ranged, turn)?),
        None => None,
    };
    let second = match value {
        Some(_) => Some(value_of(flow, ranged, turn)?),
        None => None,
    };
    write(flow, key, first)?;
    write(flow, value, second)
}

fn write(flow: &mut Flow<'_>, var: Option<VarId>, value: Option<Operand>) -> Result<(), NoMemory> {
    let Some(var) = var else {
        return Ok(());
    };
    let Some(value) = value else {
        return Ok(());
    };
    let at = flow.builder.variable(var)?.at;
    flow.builder.write_var(var, value, at)
}

fn lower_side(flow: &mut Flow<'_>, target: &Option<Target>) -> Result<Option<Side>, NoMemory> {
    let Some(target) = target else {
        return Ok(None);
    };
    match target {
        Target::Place(_) => Ok(Some(lower_target(flow, target)?)),
        Target::Blank => Ok(None),
    }
}

/// The operands of the left sides, the key's first.
fn lower_sides(
    flow: &mut Flow<'_>,
    key: &Option<Target>,
    value: &Option<Target>,
) -> Result<Sides, NoMemory> {
    let key = lower_side(flow, key)?;
    let value = lower_side(flow, value)?;
    Ok(Sides { key, value })
}

/// The key of a turn, where it goes anywhere.
fn key_for(
    flow: &mut Flow<'_>,
    ranged: &Ranged,
    turn: &Turn,
    side: &Option<Side>,
) -> Result<Operand, NoMemory> {
    match side {
        Some(_) => key_of(flow, ranged, turn),
        None => Ok(zero(int_type())),
    }
}

/// The value of a turn, where it goes anywhere.
fn value_for(
    flow: &mut Flow<'_>,
    ranged: &Ranged,
    turn: &Turn,
    side: &Option<Side>,
) -> Result<Operand, NoMemory> {
    match side {
        Some(_) => value_of(flow, ranged, turn),
        None => Ok(zero(int_type())),
    }
}

fn assign(
    flow: &mut Flow<'_>,
    ranged: &Ranged,
    turn: &Turn,
    key: &Option<Target>,
    value: &Option<Target>,
    parts: &[TypedExpr],
) -> Result<(), NoMemory> {
    let sides = lower_sides(flow, key, value)?;
    let operands = turn_operands(flow, ranged, turn, &sides)?;
    let values = lower_part_values(flow, &sides, operands, parts)?;
    store_parts(flow, sides, values)
}

/// The key and the value of a turn.
fn turn_operands(
    flow: &mut Flow<'_>,
    ranged: &Ranged,
    turn: &Turn,
    sides: &Sides,
) -> Result<Vec<Operand>, NoMemory> {
    let mut operands = Vec::new(flow.builder.allocator());
    operands.push(key_for(flow, ranged, turn, &sides.key)?)?;
    operands.push(value_for(flow, ranged, turn, &sides.value)?)?;
    Ok(operands)
}

/// What the left sides get, which is read from the key and the value of a turn.
fn lower_part_values(
    flow: &mut Flow<'_>,
    sides: &Sides,
    operands: Vec<Operand>,
    parts: &[TypedExpr],
) -> Result<PartValues, NoMemory> {
    let outer = flow.builder.set_parts(Parts::List(operands));
    let values = lower_parts(flow, sides, parts);
    flow.builder.set_parts(outer);
    values
}

fn lower_parts(
    flow: &mut Flow<'_>,
    sides: &Sides,
    parts: &[TypedExpr],
) -> Result<PartValues, NoMemory> {
    let key = lower_part(flow, &sides.key, parts.first())?;
    let value = lower_part(flow, &sides.value, parts.get(1))?;
    Ok(PartValues { key, value })
}

fn lower_part(
    flow: &mut Flow<'_>,
    side: &Option<Side>,
    part: Option<&TypedExpr>,
) -> Result<Option<Operand>, NoMemory> {
    if side.is_none() {
        return Ok(None);
    }
    match part {
        Some(part) => Ok(Some(lower_expr(&mut flow.builder, part)?)),
        None => Err(lost()),
    }
}

fn store_parts(flow: &mut Flow<'_>, sides: Sides, values: PartValues) -> Result<(), NoMemory> {
    store_part(flow, sides.key, values.key)?;
    store_part(flow, sides.value, values.value)
}

fn store_part(
    flow: &mut Flow<'_>,
    side: Option<Side>,
    value: Option<Operand>,
) -> Result<(), NoMemory> {
    let Some(side) = side else {
        return Ok(());
    };
    match value {
        Some(value) => store(flow, side, value),
        None => Ok(()),
    }
}
