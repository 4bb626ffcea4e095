//! The walk over statements. Go specification, "Statements".

ghost use Rattle.std.specs.Prelude.{◌≡◌, ◌++◌, OnOk, flat_map};
ghost use Rattle.cg_uses.specs.Settings.{setting_of};
ghost use Rattle.cg_uses.specs.Statements as statement;

use crate::clauses::{bind_clause, in_cases, in_comm};
use crate::settings::Around;
use crate::targets::{
    in_assign, in_define, in_range_targets, in_return, in_send, in_var, store_to,
};
use cg_nodes::{Mention, Parts, in_expr};
use go_base::NoMemory;
use go_tree::{SelectClause, TypeClause, TypedArm, TypedBlock, TypedClause, TypedExpr, TypedStmt};

/// What stands in a block.
#[cycle(statement_uses)]
#[tactic(auto, using(crate::proofs::StmtForms::block_forms))]
pub fn in_block(around: &Around, block: &TypedBlock, out: &mut Vec<Mention>) -> Result<(), NoMemory>
    ensures { OnOk result (out.new.items ≡ out.old.items ++ statement.uses_in_block (setting_of around.now) block.now) }
{
    in_statements(around, &block.statements, out)
}

#[cycle(statement_uses)]
fn in_statements(
    around: &Around,
    statements: &[TypedStmt],
    out: &mut Vec<Mention>,
) -> Result<(), NoMemory>
    ensures { OnOk result (out.new.items ≡ out.old.items ++ flat_map (statement.uses_in_stmt (setting_of around.now)) statements.now) }
{
    for stmt in statements {
        in_statement(around, stmt, out)?;
    }
    Ok(())
}

#[cycle(statement_uses)]
#[tactic(auto, using(cg_nodes::proofs::Forms::types_of))]
fn in_optional(
    around: &Around,
    stmt: &Option<Box<TypedStmt>>,
    out: &mut Vec<Mention>,
) -> Result<(), NoMemory>
    ensures { OnOk result (out.new.items ≡ out.old.items ++ statement.uses_in_optional (setting_of around.now) stmt.now) }
{
    match stmt {
        Some(stmt) => in_statement(around, stmt, out),
        None => Ok(()),
    }
}

#[cycle(statement_uses)]
#[tactic(auto, using(crate::proofs::StmtForms::statement_forms))]
fn in_statement(around: &Around, stmt: &TypedStmt, out: &mut Vec<Mention>) -> Result<(), NoMemory>
    ensures { OnOk result (out.new.items ≡ out.old.items ++ statement.uses_in_stmt (setting_of around.now) stmt.now) }
{
    match stmt {
        TypedStmt::Const { .. }
        | TypedStmt::TypeDecl { .. }
        | TypedStmt::Break { .. }
        | TypedStmt::Continue { .. }
        | TypedStmt::Fallthrough { .. } => Ok(()),
        TypedStmt::Var {
            variables,
            values,
            ..
        } => in_var(around, variables, values, out),
        TypedStmt::Return { values, .. } => in_return(around, values, out),
        TypedStmt::Labeled { stmt, .. } => in_optional(around, stmt, out),
        TypedStmt::Expr { expr, .. } => in_expr(around.types, Parts::Nothing, expr, out),
        TypedStmt::Send { channel, value, .. } => in_send(around, channel, value, out),
        TypedStmt::Step { target, one, .. } => {
            store_to(around, target, out)?;
            in_expr(around.types, Parts::Nothing, one, out)
        }
        TypedStmt::Assign {
            targets,
            values,
            ..
        } => in_assign(around, targets, values, out),
        TypedStmt::AssignOp { target, value, .. } => {
            store_to(around, target, out)?;
            in_expr(around.types, Parts::Nothing, value, out)
        }
        TypedStmt::Define {
            targets,
            values,
            ..
        } => in_define(around, targets, values, out),
        TypedStmt::Go { call, .. } | TypedStmt::Defer { call, .. } => {
            in_expr(around.types, Parts::Nothing, call, out)
        }
        TypedStmt::Block(block) => in_block(around, block, out),
        TypedStmt::If {
            arms,
            otherwise,
            ..
        } => {
            in_arms(around, arms, out)?;
            in_otherwise(around, otherwise, out)
        }
        TypedStmt::Switch {
            init,
            tag,
            clauses,
            ..
        } => {
            in_optional(around, init, out)?;
            in_optional_expr(around, tag, out)?;
            in_clauses(around, clauses, tag, out)
        }
        TypedStmt::TypeSwitch {
            init,
            operand,
            clauses,
            ..
        } => {
            in_optional(around, init, out)?;
            in_expr(around.types, Parts::Nothing, operand, out)?;
            in_type_clauses(around, clauses, operand, out)
        }
        TypedStmt::Select { clauses, .. } => in_select(around, clauses, out),
        TypedStmt::For {
            init,
            condition,
            post,
            body,
            ..
        } => {
            in_optional(around, init, out)?;
            in_optional_expr(around, condition, out)?;
            in_optional(around, post, out)?;
            in_block(around, body, out)
        }
        TypedStmt::Range {
            over,
            operand,
            targets,
            body,
            ..
        } => {
            in_expr(around.types, Parts::Nothing, operand, out)?;
            in_range_targets(around, *over, targets, out)?;
            in_block(around, body, out)
        }
    }
}

#[tactic(auto, using(cg_nodes::proofs::Forms::types_of))]
fn in_optional_expr(
    around: &Around,
    expr: &Option<TypedExpr>,
    out: &mut Vec<Mention>,
) -> Result<(), NoMemory>
    ensures { OnOk result (out.new.items ≡ out.old.items ++ statement.uses_if_given (setting_of around.now) expr.now) }
{
    match expr {
        Some(expr) => in_expr(around.types, Parts::Nothing, expr, out),
        None => Ok(()),
    }
}

#[cycle(statement_uses)]
#[tactic(auto, using(cg_nodes::proofs::Forms::types_of))]
fn in_otherwise(
    around: &Around,
    block: &Option<TypedBlock>,
    out: &mut Vec<Mention>,
) -> Result<(), NoMemory>
    ensures { OnOk result (out.new.items ≡ out.old.items ++ statement.uses_otherwise (setting_of around.now) block.now) }
{
    match block {
        Some(block) => in_block(around, block, out),
        None => Ok(()),
    }
}

#[cycle(statement_uses)]
fn in_arms(around: &Around, arms: &[TypedArm], out: &mut Vec<Mention>) -> Result<(), NoMemory>
    ensures { OnOk result (out.new.items ≡ out.old.items ++ flat_map (statement.uses_in_arm (setting_of around.now)) arms.now) }
{
    for arm in arms {
        in_arm(around, arm, out)?;
    }
    Ok(())
}

#[cycle(statement_uses)]
#[tactic(auto, using(crate::proofs::StmtForms::arm_forms))]
fn in_arm(around: &Around, arm: &TypedArm, out: &mut Vec<Mention>) -> Result<(), NoMemory>
    ensures { OnOk result (out.new.items ≡ out.old.items ++ statement.uses_in_arm (setting_of around.now) arm.now) }
{
    in_optional(around, &arm.init, out)?;
    in_expr(around.types, Parts::Nothing, &arm.condition, out)?;
    in_block(around, &arm.body, out)
}

#[cycle(statement_uses)]
fn in_clauses(
    around: &Around,
    clauses: &[TypedClause],
    tag: &Option<TypedExpr>,
    out: &mut Vec<Mention>,
) -> Result<(), NoMemory>
    ensures { OnOk result (out.new.items ≡ out.old.items ++ flat_map (statement.clause_uses (setting_of around.now) tag.now) clauses.now) }
{
    for clause in clauses {
        in_clause(around, clause, tag, out)?;
    }
    Ok(())
}

#[cycle(statement_uses)]
#[tactic(auto, using(crate::proofs::StmtForms::arm_forms))]
fn in_clause(
    around: &Around,
    clause: &TypedClause,
    tag: &Option<TypedExpr>,
    out: &mut Vec<Mention>,
) -> Result<(), NoMemory>
    ensures { OnOk result (out.new.items ≡ out.old.items ++ statement.clause_uses (setting_of around.now) tag.now clause.now) }
{
    in_cases(around, &clause.cases, tag, out)?;
    in_block(around, &clause.body, out)
}

#[cycle(statement_uses)]
fn in_type_clauses(
    around: &Around,
    clauses: &[TypeClause],
    operand: &TypedExpr,
    out: &mut Vec<Mention>,
) -> Result<(), NoMemory>
    ensures { OnOk result (out.new.items ≡ out.old.items ++ flat_map (statement.type_clause_uses (setting_of around.now) operand.now) clauses.now) }
{
    for clause in clauses {
        in_type_clause(around, clause, operand, out)?;
    }
    Ok(())
}

#[cycle(statement_uses)]
#[tactic(auto, using(crate::proofs::StmtForms::arm_forms))]
fn in_type_clause(
    around: &Around,
    clause: &TypeClause,
    operand: &TypedExpr,
    out: &mut Vec<Mention>,
) -> Result<(), NoMemory>
    ensures { OnOk result (out.new.items ≡ out.old.items ++ statement.type_clause_uses (setting_of around.now) operand.now clause.now) }
{
    bind_clause(around, operand, clause.variable, &clause.cases, out)?;
    in_block(around, &clause.body, out)
}

#[cycle(statement_uses)]
fn in_select(
    around: &Around,
    clauses: &[SelectClause],
    out: &mut Vec<Mention>,
) -> Result<(), NoMemory>
    ensures { OnOk result (out.new.items ≡ out.old.items ++ flat_map (statement.uses_in_select_clause (setting_of around.now)) clauses.now) }
{
    for clause in clauses {
        in_select_clause(around, clause, out)?;
    }
    Ok(())
}

#[cycle(statement_uses)]
#[tactic(auto, using(crate::proofs::StmtForms::arm_forms))]
fn in_select_clause(
    around: &Around,
    clause: &SelectClause,
    out: &mut Vec<Mention>,
) -> Result<(), NoMemory>
    ensures { OnOk result (out.new.items ≡ out.old.items ++ statement.uses_in_select_clause (setting_of around.now) clause.now) }
{
    in_comm(around, &clause.comm, out)?;
    in_block(around, &clause.body, out)
}
