//! The test of statements. Go specification, "Statements".

ghost use Rattle.std.specs.Prelude.{◌≡◌};
ghost use Rattle.program_typing.specs.Placing.{within_of};
ghost use Rattle.program_typing.specs.Telling.{Tells};
ghost use Rattle.program_typing.specs.Walk as walk;
ghost use Rattle.typed_trees.specs.Statements as statement;

use crate::clauses::{
    communicate, has_one_default, has_one_default_comm, has_one_type_default, have_cases,
    have_type_cases, see_tag,
};
use crate::expressions::{
    declares, fits_expr, is_call_of, is_condition, is_condition_if, operates_on, returns, sends,
};
use crate::ranges::fits_range;
use crate::targets::{assigns, define};
use crate::within::{Within, in_block, in_clause, in_loop, in_turn, is_within};
use expr_typing::{Around, see};
use go_base::NoMemory;
use go_tree::{SelectClause, TypeClause, TypedArm, TypedBlock, TypedClause, TypedStmt};
use type_shapes::is_interface;

/// Whether the statements of a block fit.
#[cycle(fitting)]
pub fn fits_block(
    around: Around<'_>,
    block: &TypedBlock,
    within: Within<'_>,
) -> Result<bool, NoMemory>
    ensures { Tells around.entry result (λ a. statement.fits_block a block.now (within_of within.entry)) }
{
    fit_in_turn(around, &block.statements, within)
}

#[cycle(fitting)]
fn fit_in_turn(
    around: Around<'_>,
    statements: &[TypedStmt],
    within: Within<'_>,
) -> Result<bool, NoMemory>
    ensures { Tells around.entry result (λ a. walk.fit_in_turn a statements.now (within_of within.entry)) }
{
    for (index, stmt) in statements.iter().enumerate() {
        let here = in_turn(within, index + 1 < statements.len());
        if !fits_statement(around, stmt, here)? {
            return Ok(false);
        }
    }
    Ok(true)
}

#[cycle(fitting)]
fn fits_optional(
    around: Around<'_>,
    stmt: &Option<Box<TypedStmt>>,
    within: Within<'_>,
) -> Result<bool, NoMemory>
    ensures { Tells around.entry result (λ a. walk.optional_fits a stmt.now (within_of within.entry)) }
{
    match stmt {
        Some(stmt) => fits_statement(around, stmt, within),
        None => Ok(true),
    }
}

#[cycle(fitting)]
fn fits_statement(
    around: Around<'_>,
    stmt: &TypedStmt,
    within: Within<'_>,
) -> Result<bool, NoMemory>
    ensures { Tells around.entry result (λ a. walk.fits_stmt a stmt.now (within_of within.entry)) }
{
    match stmt {
        TypedStmt::Const { .. } => Ok(true),
        TypedStmt::TypeDecl { .. } => Ok(true),
        TypedStmt::Var {
            variables,
            values,
            ..
        } => declares(around, variables, values),
        TypedStmt::Labeled { stmt, .. } => fits_optional(around, stmt, within),
        TypedStmt::Expr { expr, .. } => fits_expr(around, expr),
        TypedStmt::Send { channel, value, .. } => sends(around, channel, value),
        TypedStmt::Step {
            target,
            op,
            one,
            ..
        } => operates_on(around, *op, target, one),
        TypedStmt::Assign {
            targets,
            values,
            ..
        } => assigns(around, targets, values),
        TypedStmt::AssignOp {
            target,
            op,
            value,
            ..
        } => operates_on(around, *op, target, value),
        TypedStmt::Define {
            targets,
            values,
            ..
        } => define(around, targets, values),
        TypedStmt::Go { call, .. } => is_call_of(around, call),
        TypedStmt::Defer { call, .. } => is_call_of(around, call),
        TypedStmt::Return { values, .. } => returns(around, values, within.results),
        TypedStmt::Break { levels, .. } => Ok(is_within(*levels, within.breaks)),
        TypedStmt::Continue { levels, .. } => Ok(is_within(*levels, within.continues)),
        TypedStmt::Fallthrough { .. } => Ok(within.falls),
        TypedStmt::Block(block) => fits_block(around, block, in_block(within)),
        TypedStmt::If {
            arms,
            otherwise,
            ..
        } => {
            let arms = arms_fit(around, arms, within)?;
            let otherwise = fits_otherwise(around, otherwise, within)?;
            Ok(arms & otherwise)
        }
        TypedStmt::Switch {
            init,
            tag,
            clauses,
            ..
        } => {
            let init = fits_optional(around, init, in_block(within))?;
            let tag = see_tag(around, tag)?;
            let cases = have_cases(around, clauses, tag.of)?;
            let bodies = fall_in_turn(around, clauses, within)?;
            Ok(init & (tag.fits & (cases & (has_one_default(clauses) & bodies))))
        }
        TypedStmt::TypeSwitch {
            init,
            operand,
            clauses,
            ..
        } => {
            let init = fits_optional(around, init, in_block(within))?;
            let operand = see(around, operand)?;
            let cases = have_type_cases(around, clauses, operand.of);
            let bodies = type_bodies_fit(around, clauses, within)?;
            let fit = cases & (has_one_type_default(clauses) & bodies);
            Ok(init & (operand.fits & (is_interface(&around.program.types, operand.of) & fit)))
        }
        TypedStmt::Select { clauses, .. } => {
            let cases = communicate(around, clauses)?;
            let bodies = select_bodies_fit(around, clauses, within)?;
            Ok(cases & (has_one_default_comm(clauses) & bodies))
        }
        TypedStmt::For {
            init,
            condition,
            post,
            body,
            ..
        } => {
            let init = fits_optional(around, init, in_block(within))?;
            let condition = is_condition_if(around, condition)?;
            let post = fits_optional(around, post, in_block(within))?;
            let body = fits_loop(around, body, within)?;
            Ok(init & (condition & (post & body)))
        }
        TypedStmt::Range {
            over,
            operand,
            targets,
            body,
            ..
        } => {
            let ranges = fits_range(around, *over, operand, targets)?;
            let body = fits_loop(around, body, within)?;
            Ok(ranges & body)
        }
    }
}

/// Whether the body of a loop fits.
#[cycle(fitting)]
fn fits_loop(around: Around<'_>, body: &TypedBlock, within: Within<'_>) -> Result<bool, NoMemory>
    ensures { Tells around.entry result (λ a. statement.fits_block a body.now (statement.in_loop (within_of within.entry))) }
{
    let inner = in_loop(within)?;
    fits_block(around, body, inner)
}

/// Whether the last block of an `if` is left out, or fits.
#[cycle(fitting)]
fn fits_otherwise(
    around: Around<'_>,
    block: &Option<TypedBlock>,
    within: Within<'_>,
) -> Result<bool, NoMemory>
    ensures { Tells around.entry result (λ a. walk.otherwise_fits a block.now (within_of within.entry)) }
{
    match block {
        Some(block) => fits_block(around, block, in_block(within)),
        None => Ok(true),
    }
}

#[cycle(fitting)]
fn arms_fit(around: Around<'_>, arms: &[TypedArm], within: Within<'_>) -> Result<bool, NoMemory>
    ensures { Tells around.entry result (λ a. walk.arms_fit a arms.now (within_of within.entry)) }
{
    for arm in arms {
        if !fits_arm(around, arm, within)? {
            return Ok(false);
        }
    }
    Ok(true)
}

#[cycle(fitting)]
fn fits_arm(around: Around<'_>, arm: &TypedArm, within: Within<'_>) -> Result<bool, NoMemory>
    ensures { Tells around.entry result (λ a. walk.fits_arm a arm.now (within_of within.entry)) }
{
    let init = fits_optional(around, &arm.init, in_block(within))?;
    let condition = is_condition(around, &arm.condition)?;
    let body = fits_block(around, &arm.body, in_block(within))?;
    Ok(init & (condition & body))
}

/// Whether the bodies of the clauses of a switch fit, of which each but the last may fall through.
#[cycle(fitting)]
fn fall_in_turn(
    around: Around<'_>,
    clauses: &[TypedClause],
    within: Within<'_>,
) -> Result<bool, NoMemory>
    ensures { Tells around.entry result (λ a. walk.fall_in_turn a clauses.now (within_of within.entry)) }
{
    for (index, clause) in clauses.iter().enumerate() {
        if !fits_body(around, &clause.body, within, index + 1 < clauses.len())? {
            return Ok(false);
        }
    }
    Ok(true)
}

/// Whether the body of a clause fits.
#[cycle(fitting)]
fn fits_body(
    around: Around<'_>,
    body: &TypedBlock,
    within: Within<'_>,
    falls: bool,
) -> Result<bool, NoMemory>
    ensures { Tells around.entry result (λ a. statement.fits_block a body.now (statement.in_clause falls (within_of within.entry))) }
{
    let inner = in_clause(within, falls)?;
    fits_block(around, body, inner)
}

#[cycle(fitting)]
fn type_bodies_fit(
    around: Around<'_>,
    clauses: &[TypeClause],
    within: Within<'_>,
) -> Result<bool, NoMemory>
    ensures { Tells around.entry result (λ a. walk.type_bodies_fit a clauses.now (within_of within.entry)) }
{
    for clause in clauses {
        if !fits_body(around, &clause.body, within, false)? {
            return Ok(false);
        }
    }
    Ok(true)
}

#[cycle(fitting)]
fn select_bodies_fit(
    around: Around<'_>,
    clauses: &[SelectClause],
    within: Within<'_>,
) -> Result<bool, NoMemory>
    ensures { Tells around.entry result (λ a. walk.select_bodies_fit a clauses.now (within_of within.entry)) }
{
    for clause in clauses {
        if !fits_body(around, &clause.body, within, false)? {
            return Ok(false);
        }
    }
    Ok(true)
}
