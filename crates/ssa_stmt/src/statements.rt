//! Code of statements. Go specification, "Statements".

use crate::choosing::{lower_if, lower_switch, lower_type_switch};
use crate::loops::lower_for;
use crate::ranges::lower_range;
use crate::selecting::lower_select;
use go_base::{NoMemory, Pos};
use go_tree::{TypedBlock, TypedExpr, TypedStmt};
use ssa_expr::{later_call, lower_expr, panic_argument};
use ssa_ir::Op;
use ssa_simple::{
    Flow, assign, assign_operated, declare, define, define_without_values, lower_return,
};

/// The statements of a block, up to one behind which nothing is reached.
#[cycle(statements)]
pub fn lower_block(flow: &mut Flow<'_>, block: &TypedBlock) -> Result<(), NoMemory> {
    for stmt in block.statements.as_slice() {
        if flow.builder.is_ended() {
            return Ok(());
        }
        lower_stmt(flow, stmt)?;
    }
    Ok(())
}

/// The statement before a header.
#[cycle(statements)]
pub(crate) fn lower_init(
    flow: &mut Flow<'_>,
    init: &Option<Box<TypedStmt>>,
) -> Result<(), NoMemory> {
    match init {
        Some(stmt) => lower_stmt(flow, stmt),
        None => Ok(()),
    }
}

#[cycle(statements)]
pub(crate) fn lower_stmt(flow: &mut Flow<'_>, stmt: &TypedStmt) -> Result<(), NoMemory> {
    match stmt {
        TypedStmt::Const { .. } | TypedStmt::TypeDecl { .. } => Ok(()),
        TypedStmt::Var {
            variables,
            values: None,
            ..
        } => define_without_values(flow, variables.as_slice()),
        TypedStmt::Var {
            variables,
            values: Some(values),
            ..
        } => declare(flow, variables.as_slice(), values),
        TypedStmt::Labeled { stmt, .. } => lower_init(flow, stmt),
        TypedStmt::Expr { expr, .. } => lower_effect(flow, expr),
        TypedStmt::Send { at, channel, value } => lower_send(flow, channel, value, *at),
        TypedStmt::Step {
            at,
            target,
            op,
            one,
        } => assign_operated(flow, target, *op, one, *at),
        TypedStmt::Assign {
            targets,
            values,
            ..
        } => assign(flow, targets.as_slice(), values),
        TypedStmt::AssignOp {
            at,
            target,
            op,
            value,
        } => assign_operated(flow, target, *op, value, *at),
        TypedStmt::Define {
            at,
            targets,
            values,
        } => define(flow, targets.as_slice(), values, *at),
        TypedStmt::Go { call, .. } => lower_go(flow, call),
        TypedStmt::Defer { call, .. } => lower_defer(flow, call),
        TypedStmt::Return { at, values } => lower_return(flow, values, *at),
        TypedStmt::Break { at, levels } => flow.leave(*levels, *at),
        TypedStmt::Continue { at, levels } => flow.go_on(*levels, *at),
        TypedStmt::Fallthrough { at } => flow.fall_through(*at),
        TypedStmt::Block(block) => lower_block(flow, block),
        TypedStmt::If { .. } => lower_if(flow, stmt),
        TypedStmt::Switch { .. } => lower_switch(flow, stmt),
        TypedStmt::TypeSwitch { .. } => lower_type_switch(flow, stmt),
        TypedStmt::Select { at, clauses, .. } => lower_select(flow, clauses.as_slice(), *at),
        TypedStmt::For { .. } => lower_for(flow, stmt),
        TypedStmt::Range { .. } => lower_range(flow, stmt),
    }
}

/// An expression as a statement. A call of `panic` ends its block.
fn lower_effect(flow: &mut Flow<'_>, expr: &TypedExpr) -> Result<(), NoMemory> {
    match panic_argument(expr) {
        Some(argument) => {
            let value = lower_expr(&mut flow.builder, argument)?;
            flow.builder.effect(Op::Panic(value), expr.at)
        }
        None => {
            lower_expr(&mut flow.builder, expr)?;
            Ok(())
        }
    }
}

fn lower_send(
    flow: &mut Flow<'_>,
    channel: &TypedExpr,
    value: &TypedExpr,
    at: Pos,
) -> Result<(), NoMemory> {
    let channel = lower_expr(&mut flow.builder, channel)?;
    let value = lower_expr(&mut flow.builder, value)?;
    flow.builder.effect(Op::Send { channel, value }, at)
}

fn lower_go(flow: &mut Flow<'_>, expr: &TypedExpr) -> Result<(), NoMemory> {
    let call = later_call(&mut flow.builder, expr)?;
    flow.builder.effect(Op::Go(call), expr.at)
}

fn lower_defer(flow: &mut Flow<'_>, expr: &TypedExpr) -> Result<(), NoMemory> {
    let call = later_call(&mut flow.builder, expr)?;
    flow.builder.effect(Op::Defer(call), expr.at)
}
