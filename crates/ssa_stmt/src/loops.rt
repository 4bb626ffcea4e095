//! `for` with a condition, or without. Go specification, "For statements".

use crate::error::lost;
use crate::statements::{lower_block, lower_init};
use go_base::{BlockId, NoMemory, Pos};
use go_tree::{TypedExpr, TypedStmt};
use ssa_expr::lower_expr;
use ssa_simple::{Exit, Flow};

#[cycle(statements)]
pub(crate) fn lower_for(flow: &mut Flow<'_>, stmt: &TypedStmt) -> Result<(), NoMemory> {
    let TypedStmt::For {
        at,
        init,
        condition,
        post,
        body,
        ..
    } = stmt
    else {
        return Err(lost());
    };
    let at = *at;
    lower_init(flow, init)?;
    if flow.builder.is_ended() {
        return Ok(());
    }
    let head = flow.builder.add_block()?;
    flow.builder.jump(head, at)?;
    flow.builder.enter(head);
    flow.push_exit(Exit::of_loop(first_next(post, head)))?;
    lower_condition(flow, condition)?;
    flow.tick(at)?;
    lower_block(flow, body)?;
    end_turn(flow, body.end)?;
    lower_post(flow, post, head, at)?;
    leave_loop(flow, head)
}

/// Where the next turn begins: at the head, where nothing is done between two turns.
fn first_next(post: &Option<Box<TypedStmt>>, head: BlockId) -> Option<BlockId> {
    match post {
        Some(_) => None,
        None => Some(head),
    }
}

/// Where a condition does not hold, the loop is left.
fn lower_condition(flow: &mut Flow<'_>, condition: &Option<TypedExpr>) -> Result<(), NoMemory> {
    let Some(condition) = condition else {
        return Ok(());
    };
    let test = lower_expr(&mut flow.builder, condition)?;
    flow.branch_into(test, condition.at)
}

/// A body that comes to its end leads to the next turn.
fn end_turn(flow: &mut Flow<'_>, at: Pos) -> Result<(), NoMemory> {
    if flow.builder.is_ended() {
        return Ok(());
    }
    flow.go_on(0, at)
}

/// What is done between two turns.
#[cycle(statements)]
fn lower_post(
    flow: &mut Flow<'_>,
    post: &Option<Box<TypedStmt>>,
    head: BlockId,
    at: Pos,
) -> Result<(), NoMemory> {
    if post.is_none() {
        return Ok(());
    }
    let Some(next) = flow.next() else {
        return Ok(());
    };
    flow.enter(next)?;
    lower_init(flow, post)?;
    flow.jump_to(head, at)
}

/// The loop is built: its head has all predecessors, and what follows it is next.
pub(crate) fn leave_loop(flow: &mut Flow<'_>, head: BlockId) -> Result<(), NoMemory> {
    flow.builder.seal(head)?;
    let exit = flow.pop_exit()?;
    flow.enter_if_filled(exit.behind)
}
