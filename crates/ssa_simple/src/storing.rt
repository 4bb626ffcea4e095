//! Assignments and declarations of variables. Go specification, "Assignment statements" and "Variable declarations".

use crate::error::lost;
use crate::flow::Flow;
use go_base::{NoMemory, Pos, VarId};
use go_tree::{DefineTarget, Target, TypedExpr, Values};
use go_type::BinaryOp;
use ssa_expr::{PlaceOperand, load_place, lower_expr, lower_place, lower_values, store_place};
use ssa_ir::{Infix, Op, Operand};

/// A left side whose operands are evaluated, and its first byte. None for `_`.
#[derive(Drop)]
pub struct Side {
    /// Its place.
    pub place: Option<PlaceOperand>,
    /// Its first byte.
    pub at: Pos,
}

/// Evaluates the operands of a left side.
pub(crate) fn lower_target(flow: &mut Flow<'_>, target: &Target) -> Result<Side, NoMemory> {
    match target {
        Target::Place(place) => Ok(Side {
            place: Some(lower_place(&mut flow.builder, place)?),
            at: place.at,
        }),
        Target::Blank => Ok(Side {
            place: None,
            at: Pos { file: 0, offset: 0 },
        }),
    }
}

/// Evaluates the operands of left sides.
pub fn lower_targets(flow: &mut Flow<'_>, targets: &[Target]) -> Result<Vec<Side>, NoMemory> {
    let mut sides = Vec::new(flow.builder.allocator());
    for target in targets {
        sides.push(lower_target(flow, target)?)?;
    }
    Ok(sides)
}

/// Assigns a value to a left side.
pub(crate) fn store(flow: &mut Flow<'_>, side: Side, value: Operand) -> Result<(), NoMemory> {
    let Side { place, at } = side;
    match place {
        Some(place) => store_place(&mut flow.builder, place, value, at),
        None => Ok(()),
    }
}

/// Assigns values to left sides, from left to right.
pub fn store_all(
    flow: &mut Flow<'_>,
    sides: Vec<Side>,
    values: Vec<Operand>,
) -> Result<(), NoMemory> {
    let mut values = values.into_iter();
    for side in sides {
        match values.next() {
            Some(value) => store(flow, side, value)?,
            None => return Err(lost()),
        }
    }
    Ok(())
}

/// `a, b = ..`: the operands of the left sides, then the values, then the stores from left to right.
pub fn assign(flow: &mut Flow<'_>, targets: &[Target], values: &Values) -> Result<(), NoMemory> {
    let sides = lower_targets(flow, targets)?;
    let values = lower_values(&mut flow.builder, values)?;
    store_all(flow, sides, values)
}

/// `a op= b` and `a++`: the operands of `a` are evaluated once.
pub fn assign_operated(
    flow: &mut Flow<'_>,
    target: &TypedExpr,
    op: BinaryOp,
    value: &TypedExpr,
    at: Pos,
) -> Result<(), NoMemory> {
    let place = lower_place(&mut flow.builder, target)?;
    let left = load_place(&mut flow.builder, &place, target.at)?;
    let right = lower_expr(&mut flow.builder, value)?;
    let op = Infix::Operate(op);
    let result_of = flow
        .builder
        .value(Op::Binary { op, left, right }, target.of, at)?;
    store_place(&mut flow.builder, place, result_of, target.at)
}

/// `a, b := ..`.
pub fn define(
    flow: &mut Flow<'_>,
    targets: &[DefineTarget],
    values: &Values,
    at: Pos,
) -> Result<(), NoMemory> {
    let values = lower_values(&mut flow.builder, values)?;
    let mut values = values.into_iter();
    for target in targets {
        match values.next() {
            Some(value) => put(flow, *target, value, at)?,
            None => return Err(lost()),
        }
    }
    Ok(())
}

/// One side of `:=`.
pub fn put(
    flow: &mut Flow<'_>,
    target: DefineTarget,
    value: Operand,
    at: Pos,
) -> Result<(), NoMemory> {
    match target {
        DefineTarget::New(var) => begin_with(flow, var, value),
        DefineTarget::Old(var) => flow.builder.write_var(var, value, at),
        DefineTarget::Blank => Ok(()),
    }
}

/// A variable begins with a value.
pub fn begin_with(flow: &mut Flow<'_>, var: VarId, value: Operand) -> Result<(), NoMemory> {
    let at = flow.builder.variable(var)?.at;
    flow.builder.begin_var(var)?;
    flow.builder.write_var(var, value, at)
}

/// `var a, b = ..`.
pub fn declare(flow: &mut Flow<'_>, variables: &[VarId], values: &Values) -> Result<(), NoMemory> {
    let values = lower_values(&mut flow.builder, values)?;
    let mut values = values.into_iter();
    for var in variables {
        match values.next() {
            Some(value) => begin_with(flow, *var, value)?,
            None => return Err(lost()),
        }
    }
    Ok(())
}

/// `var a, b T`: the cells hold zero values.
pub fn define_without_values(flow: &mut Flow<'_>, variables: &[VarId]) -> Result<(), NoMemory> {
    for var in variables {
        flow.builder.begin_var(*var)?;
    }
    Ok(())
}
