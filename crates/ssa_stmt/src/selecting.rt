//! `select`. Go specification, "Select statements".

use crate::choosing::leave_clause;
use crate::error::lost;
use crate::statements::lower_block;
use go_base::{BlockId, NoMemory, Pos, TypeId};
use go_tree::{Comm, DefineTarget, ReceiveInto, SelectClause, Target, TypedExpr};
use go_type::{Basic, CompareOp, MethodTypes, TypeIds, TypeTerm, basic};
use ssa_expr::{Parts, integer, lower_expr};
use ssa_ir::{ConstValue, Infix, Op, Operand, SelectCase, SelectCases};
use ssa_simple::{Exit, Flow, bool_type, lower_targets, put, store_all};

/// What a `select` gives, and where the tests of its cases stand.
#[derive(Drop)]
struct Chosen {
    /// The tuple: the index, whether a value was received, and a value for each case that receives.
    tuple: Operand,
    index: Option<Operand>,
    /// How many cases are left to be tested.
    left: usize,
    has_default: bool,
    /// The number of the next case, and that of the next one that receives.
    case: u32,
    received: u32,
}

#[cycle(statements)]
pub(crate) fn lower_select(
    flow: &mut Flow<'_>,
    clauses: &[SelectClause],
    at: Pos,
) -> Result<(), NoMemory> {
    let chosen = lower_cases(flow, clauses, at)?;
    if clauses.is_empty() {
        return wait_for_ever(flow, at);
    }
    flow.push_exit(Exit::of_choice())?;
    lower_chosen(flow, clauses, chosen)?;
    lower_default(flow, clauses)?;
    let exit = flow.pop_exit()?;
    if flow.builder.is_ended() {
        flow.enter_if_filled(exit.behind)?;
    }
    Ok(())
}

/// Behind `select {}` nothing is reached.
fn wait_for_ever(flow: &mut Flow<'_>, at: Pos) -> Result<(), NoMemory> {
    let methods = MethodTypes::new(flow.builder.allocator());
    let of = flow.builder.hold(TypeTerm::Interface(methods))?;
    let value = ConstValue::Nil;
    flow.builder
        .effect(Op::Panic(Operand::Constant { value, of }), at)
}

/// All channels and values, in source order, and the choice.
fn lower_cases(flow: &mut Flow<'_>, clauses: &[SelectClause], at: Pos) -> Result<Chosen, NoMemory> {
    let mut cases = SelectCases::new(flow.builder.allocator());
    let mut types = TypeIds::new(flow.builder.allocator());
    types.push(basic(Basic::Int))?;
    types.push(bool_type())?;
    let mut has_default = false;
    for clause in clauses {
        match &clause.comm {
            Comm::Default => has_default = true,
            Comm::Send { channel, value } => cases.push(lower_send(flow, channel, value)?)?,
            Comm::Receive { channel, .. } => {
                types.push(elem_of(flow, channel.of)?)?;
                cases.push(lower_received(flow, channel)?)?;
            }
        }
    }
    let left = cases.len();
    let of = flow.builder.hold(TypeTerm::Tuple(types))?;
    let op = Op::Select {
        blocking: !has_default,
        cases,
    };
    let tuple = flow.builder.value(op, of, at)?;
    let index = index_of(flow, &tuple, left, has_default, at)?;
    Ok(Chosen {
        tuple,
        index,
        left,
        has_default,
        case: 0,
        received: 0,
    })
}

/// The index of the case chosen, where it has to be tested.
fn index_of(
    flow: &mut Flow<'_>,
    tuple: &Operand,
    cases: usize,
    has_default: bool,
    at: Pos,
) -> Result<Option<Operand>, NoMemory> {
    if cases == 0 || (cases == 1 && !has_default) {
        return Ok(None);
    }
    let operand = tuple.copy(flow.builder.allocator())?;
    let op = Op::Extract { operand, part: 0 };
    Ok(Some(flow.builder.value(op, basic(Basic::Int), at)?))
}

fn lower_send(
    flow: &mut Flow<'_>,
    channel: &TypedExpr,
    value: &TypedExpr,
) -> Result<SelectCase, NoMemory> {
    let channel = lower_expr(&mut flow.builder, channel)?;
    let value = lower_expr(&mut flow.builder, value)?;
    Ok(SelectCase::Send { channel, value })
}

fn lower_received(flow: &mut Flow<'_>, channel: &TypedExpr) -> Result<SelectCase, NoMemory> {
    let channel = lower_expr(&mut flow.builder, channel)?;
    Ok(SelectCase::Receive { channel })
}

fn elem_of(flow: &Flow<'_>, channel: TypeId) -> Result<TypeId, NoMemory> {
    match flow.builder.under(channel)? {
        TypeTerm::Chan { elem, .. } => Ok(*elem),
        _ => Err(lost()),
    }
}

/// The cases in source order, each behind its test; the last of those that block needs none. The default stands behind all
/// tests.
#[cycle(statements)]
fn lower_chosen(
    flow: &mut Flow<'_>,
    clauses: &[SelectClause],
    chosen: Chosen,
) -> Result<(), NoMemory> {
    let mut chosen = chosen;
    for clause in clauses {
        if let Comm::Default = clause.comm {
            continue;
        }
        let otherwise = test(flow, &mut chosen, clause.at)?;
        lower_into(flow, &mut chosen, clause)?;
        lower_block(flow, &clause.body)?;
        leave_clause(flow, clause.body.end)?;
        if let Some(block) = otherwise {
            flow.enter(block)?;
        }
    }
    Ok(())
}

#[cycle(statements)]
fn lower_default(flow: &mut Flow<'_>, clauses: &[SelectClause]) -> Result<(), NoMemory> {
    for clause in clauses {
        if let Comm::Default = clause.comm {
            lower_block(flow, &clause.body)?;
            leave_clause(flow, clause.body.end)?;
        }
    }
    Ok(())
}

/// The test of the next case; the builder then stands where it holds. The answer is the block where it does not.
fn test(flow: &mut Flow<'_>, chosen: &mut Chosen, at: Pos) -> Result<Option<BlockId>, NoMemory> {
    chosen.left = chosen.left.saturating_sub(1);
    let Some(index) = &chosen.index else {
        return Ok(None);
    };
    if chosen.left == 0 && !chosen.has_default {
        return Ok(None);
    }
    let left = index.copy(flow.builder.allocator())?;
    let right = integer(i128::from(chosen.case), basic(Basic::Int));
    let op = Infix::Compare(CompareOp::Equal);
    let test = flow
        .builder
        .value(Op::Binary { op, left, right }, bool_type(), at)?;
    let then_to = flow.builder.add_block()?;
    let else_to = flow.builder.add_block()?;
    let op = Op::If {
        test,
        then_to,
        else_to,
    };
    flow.builder.effect(op, at)?;
    flow.enter(then_to)?;
    Ok(Some(else_to))
}

/// What is received goes where it belongs.
fn lower_into(
    flow: &mut Flow<'_>,
    chosen: &mut Chosen,
    clause: &SelectClause,
) -> Result<(), NoMemory> {
    chosen.case = chosen.case.saturating_add(1);
    let Comm::Receive { channel, into } = &clause.comm else {
        return Ok(());
    };
    let part = chosen.received.saturating_add(2);
    chosen.received = chosen.received.saturating_add(1);
    let elem = elem_of(flow, channel.of)?;
    match into {
        ReceiveInto::Nothing => Ok(()),
        ReceiveInto::Define { targets } => {
            define(flow, chosen, targets.as_slice(), part, elem, clause.at)
        }
        ReceiveInto::Assign { targets, parts } => assign(
            flow,
            chosen,
            targets.as_slice(),
            parts.as_slice(),
            part,
            elem,
            clause.at,
        ),
    }
}

fn extract(
    flow: &mut Flow<'_>,
    chosen: &Chosen,
    part: u32,
    of: TypeId,
    at: Pos,
) -> Result<Operand, NoMemory> {
    let operand = chosen.tuple.copy(flow.builder.allocator())?;
    flow.builder.value(Op::Extract { operand, part }, of, at)
}

fn define(
    flow: &mut Flow<'_>,
    chosen: &Chosen,
    targets: &[DefineTarget],
    part: u32,
    elem: TypeId,
    at: Pos,
) -> Result<(), NoMemory> {
    let mut is_first = true;
    for target in targets {
        if *target != DefineTarget::Blank {
            let of = if is_first { elem } else { bool_type() };
            let from = if is_first { part } else { 1 };
            let value = extract(flow, chosen, from, of, at)?;
            put(flow, *target, value, at)?;
        }
        is_first = false;
    }
    Ok(())
}

fn assign(
    flow: &mut Flow<'_>,
    chosen: &Chosen,
    targets: &[Target],
    parts: &[TypedExpr],
    part: u32,
    elem: TypeId,
    at: Pos,
) -> Result<(), NoMemory> {
    let sides = lower_targets(flow, targets)?;
    let operands = received_operands(flow, chosen, part, elem, at)?;
    let values = lower_parts_from(flow, operands, parts)?;
    store_all(flow, sides, values)
}

/// What is received, and whether it is.
fn received_operands(
    flow: &mut Flow<'_>,
    chosen: &Chosen,
    part: u32,
    elem: TypeId,
    at: Pos,
) -> Result<Vec<Operand>, NoMemory> {
    let mut operands = Vec::new(flow.builder.allocator());
    operands.push(extract(flow, chosen, part, elem, at)?)?;
    operands.push(extract(flow, chosen, 1, bool_type(), at)?)?;
    Ok(operands)
}

/// The values of parts that are read from operands.
fn lower_parts_from(
    flow: &mut Flow<'_>,
    operands: Vec<Operand>,
    parts: &[TypedExpr],
) -> Result<Vec<Operand>, NoMemory> {
    let outer = flow.builder.set_parts(Parts::List(operands));
    let values = lower_parts(flow, parts);
    flow.builder.set_parts(outer);
    values
}

fn lower_parts(flow: &mut Flow<'_>, parts: &[TypedExpr]) -> Result<Vec<Operand>, NoMemory> {
    let mut values = Vec::new(flow.builder.allocator());
    for part in parts {
        values.push(lower_expr(&mut flow.builder, part)?)?;
    }
    Ok(values)
}
