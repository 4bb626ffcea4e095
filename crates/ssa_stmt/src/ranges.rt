//! `for` over a range. Go specification, "For statements with range clause".

use crate::error::lost;
use crate::loops::leave_loop;
use crate::statements::lower_block;
use go_base::NoMemory;
use go_tree::TypedStmt;
use ssa_simple::{Flow, lower_range_head};

#[cycle(statements)]
pub(crate) fn lower_range(flow: &mut Flow<'_>, stmt: &TypedStmt) -> Result<(), NoMemory> {
    let TypedStmt::Range {
        at,
        over,
        operand,
        targets,
        body,
        ..
    } = stmt
    else {
        return Err(lost());
    };
    let head = lower_range_head(flow, *over, operand, targets, *at)?;
    lower_block(flow, body)?;
    flow.jump_to(head, body.end)?;
    leave_loop(flow, head)
}
