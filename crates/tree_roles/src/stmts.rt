//! Statements. Go specification, "Statements".

ghost use Rattle.std.specs.Prelude.{◌≡◌, map};
ghost use Rattle.tree_roles.specs.Roles.{roles_of_block, roles_of_case_clause, roles_of_comm_clause, roles_of_for_stmt, roles_of_if_arm, roles_of_range_stmt, roles_of_stmt, roles_of_stmt_line, roles_of_switch_stmt, roles_of_type_switch_stmt};
ghost use Rattle.tree_roles.specs.Tokens.{every, given_by, held_by, in_turn};

use crate::decls::has_decl_roles;
use crate::exprs::{has_expr_roles, has_expr_roles_if, have_expr_roles};
use crate::tokens::{
    are_braces, are_labels, begins_clause, ends_line, is, is_assign, is_binding_if, is_guard,
    is_if, is_range_operator_if, is_semicolon, is_semicolon_if, is_step,
};
use go_ast::Kind;
use go_syntax::{
    Block, CaseClause, CommClause, ForStmt, IfArm, RangeStmt, Stmt, StmtLine, SwitchStmt,
    TypeSwitchStmt,
};
use std::alloc::Global;

#[cycle(roles)]
#[tactic(auto, using(crate::proofs::Forms::stmt_forms))]
pub fn has_stmt_roles(stmt: &Stmt) -> bool
    ensures { result ≡ roles_of_stmt stmt.now }
{
    match stmt {
        Stmt::Decl(decl) => has_decl_roles(decl),
        Stmt::Labeled { labels, stmt } => are_labels(labels) & has_stmt_roles_if(stmt),
        Stmt::Expr(expr) => has_expr_roles(expr),
        Stmt::Send {
            channel,
            arrow,
            value,
        } => { has_expr_roles(channel) & is(*arrow, Kind::Arrow) & has_expr_roles(value) }
        Stmt::Step { operand, operator } => has_expr_roles(operand) & is_step(*operator),
        Stmt::Assign {
            targets,
            operator,
            values,
        } => { have_expr_roles(targets) & is_assign(*operator) & have_expr_roles(values) }
        Stmt::Define {
            targets,
            operator,
            values,
        } => { have_expr_roles(targets) & is(*operator, Kind::Define) & have_expr_roles(values) }
        Stmt::Go { word, call } => is(*word, Kind::GoWord) & has_expr_roles(call),
        Stmt::Defer { word, call } => is(*word, Kind::DeferWord) & has_expr_roles(call),
        Stmt::Return { word, results } => is(*word, Kind::ReturnWord) & have_expr_roles(results),
        Stmt::Break { word, label } => is(*word, Kind::BreakWord) & is_if(*label, Kind::Name),
        Stmt::Continue { word, label } => is(*word, Kind::ContinueWord) & is_if(*label, Kind::Name),
        Stmt::Fallthrough(token) => is(*token, Kind::FallthroughWord),
        Stmt::Block(block) => has_block_roles(block),
        Stmt::If {
            arms,
            else_word,
            otherwise,
        } => {
            have_arm_roles(arms) & is_if(*else_word, Kind::ElseWord) & has_block_roles_if(otherwise)
        }
        Stmt::Switch(stmt) => has_switch_roles(stmt),
        Stmt::TypeSwitch(stmt) => has_type_switch_roles(stmt),
        Stmt::Select {
            word,
            open,
            clauses,
            close,
        } => { is(*word, Kind::SelectWord) & are_braces(*open, *close) & have_comm_roles(clauses) }
        Stmt::While {
            word,
            condition,
            body,
        } => { is(*word, Kind::ForWord) & has_expr_roles_if(condition) & has_block_roles(body) }
        Stmt::For(stmt) => has_for_roles(stmt),
        Stmt::Range(stmt) => has_range_roles(stmt),
    }
}

/// Whether a statement is left out, or its tokens have their roles.
#[cycle(roles)]
fn has_stmt_roles_if(stmt: &Option<Box<Stmt>>) -> bool
    ensures { result ≡ held_by roles_of_stmt stmt.now }
{
    match stmt {
        Some(stmt) => has_stmt_roles(stmt),
        None => true,
    }
}

#[cycle(roles)]
#[tactic(auto, using(crate::proofs::Forms::stmt_forms))]
pub fn has_block_roles(block: &Block) -> bool
    ensures { result ≡ roles_of_block block.now }
{
    are_braces(block.open, block.close) & have_line_roles(&block.statements)
}

/// Whether the last block of an `if` is left out, or its tokens have their roles.
#[cycle(roles)]
fn has_block_roles_if(block: &Option<Box<Block>>) -> bool
    ensures { result ≡ held_by roles_of_block block.now }
{
    match block {
        Some(block) => has_block_roles(block),
        None => true,
    }
}

/// Whether a body is left out, or its tokens have their roles.
#[cycle(roles)]
pub fn has_body_roles(body: &Option<Block>) -> bool
    ensures { result ≡ given_by roles_of_block body.now }
{
    match body {
        Some(block) => has_block_roles(block),
        None => true,
    }
}

#[cycle(roles)]
fn have_line_roles(lines: &[StmtLine]) -> bool
    ensures { result ≡ in_turn (map roles_of_stmt_line lines.now) }
{
    for (index, line) in lines.iter().enumerate() {
        if !has_line_roles(line, index + 1 < lines.len()) {
            return false;
        }
    }
    true
}

#[cycle(roles)]
#[tactic(auto, using(crate::proofs::Forms::stmt_forms))]
fn has_line_roles(line: &StmtLine, more: bool) -> bool
    ensures { result ≡ roles_of_stmt_line line.now more }
{
    has_stmt_roles_if(&line.stmt) & ends_line(line.semicolon, more)
}

#[cycle(roles)]
fn have_arm_roles(arms: &[IfArm]) -> bool
    ensures { result ≡ every (map roles_of_if_arm arms.now) }
{
    for arm in arms {
        if !has_arm_roles(arm) {
            return false;
        }
    }
    true
}

#[cycle(roles)]
#[tactic(auto, using(crate::proofs::Forms::stmt_forms))]
fn has_arm_roles(arm: &IfArm) -> bool
    ensures { result ≡ roles_of_if_arm arm.now }
{
    is_if(arm.else_word, Kind::ElseWord)
        & is(arm.word, Kind::IfWord)
        & has_stmt_roles_if(&arm.init)
        & is_semicolon_if(arm.semicolon)
        & has_expr_roles(&arm.condition)
        & has_block_roles(&arm.body)
}

#[cycle(roles)]
#[tactic(auto, using(crate::proofs::Forms::stmt_forms))]
fn has_switch_roles(stmt: &SwitchStmt) -> bool
    ensures { result ≡ roles_of_switch_stmt stmt.now }
{
    is(stmt.word, Kind::SwitchWord)
        & has_stmt_roles_if(&stmt.init)
        & is_semicolon_if(stmt.semicolon)
        & has_expr_roles_if(&stmt.tag)
        & are_braces(stmt.open, stmt.close)
        & have_clause_roles(&stmt.clauses)
}

#[cycle(roles)]
#[tactic(auto, using(crate::proofs::Forms::stmt_forms))]
fn has_type_switch_roles(stmt: &TypeSwitchStmt) -> bool
    ensures { result ≡ roles_of_type_switch_stmt stmt.now }
{
    is(stmt.word, Kind::SwitchWord)
        & has_stmt_roles_if(&stmt.init)
        & is_semicolon_if(stmt.semicolon)
        & is_binding_if(stmt.binding)
        & has_expr_roles(&stmt.operand)
        & is_guard(stmt.dot, stmt.open_paren, stmt.type_word, stmt.close_paren)
        & are_braces(stmt.open, stmt.close)
        & have_clause_roles(&stmt.clauses)
}

#[cycle(roles)]
fn have_clause_roles(clauses: &[CaseClause]) -> bool
    ensures { result ≡ every (map roles_of_case_clause clauses.now) }
{
    for clause in clauses {
        if !has_clause_roles(clause) {
            return false;
        }
    }
    true
}

#[cycle(roles)]
#[tactic(auto, using(crate::proofs::Forms::stmt_forms))]
fn has_clause_roles(clause: &CaseClause) -> bool
    ensures { result ≡ roles_of_case_clause clause.now }
{
    begins_clause(clause.word)
        & have_expr_roles(&clause.items)
        & is(clause.colon, Kind::Colon)
        & have_line_roles(&clause.statements)
}

#[cycle(roles)]
fn have_comm_roles(clauses: &[CommClause]) -> bool
    ensures { result ≡ every (map roles_of_comm_clause clauses.now) }
{
    for clause in clauses {
        if !has_comm_roles(clause) {
            return false;
        }
    }
    true
}

#[cycle(roles)]
#[tactic(auto, using(crate::proofs::Forms::stmt_forms))]
fn has_comm_roles(clause: &CommClause) -> bool
    ensures { result ≡ roles_of_comm_clause clause.now }
{
    begins_clause(clause.word)
        & has_stmt_roles_if(&clause.comm)
        & is(clause.colon, Kind::Colon)
        & have_line_roles(&clause.statements)
}

#[cycle(roles)]
#[tactic(auto, using(crate::proofs::Forms::stmt_forms))]
fn has_for_roles(stmt: &ForStmt) -> bool
    ensures { result ≡ roles_of_for_stmt stmt.now }
{
    is(stmt.word, Kind::ForWord)
        & has_stmt_roles_if(&stmt.init)
        & is_semicolon(stmt.first)
        & is_semicolon(stmt.second)
        & has_expr_roles_if(&stmt.condition)
        & has_stmt_roles_if(&stmt.post)
        & has_block_roles(&stmt.body)
}

#[cycle(roles)]
#[tactic(auto, using(crate::proofs::Forms::stmt_forms))]
fn has_range_roles(stmt: &RangeStmt) -> bool
    ensures { result ≡ roles_of_range_stmt stmt.now }
{
    is(stmt.word, Kind::ForWord)
        & have_expr_roles(&stmt.targets)
        & is_range_operator_if(stmt.operator)
        & is(stmt.range, Kind::RangeWord)
        & has_expr_roles(&stmt.operand)
        & has_block_roles(&stmt.body)
}
