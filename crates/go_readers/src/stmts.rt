//! Statements. Go specification, "Statements".

ghost use Rattle.std.specs.Prelude.{◌≡◌, false, IfOk};
ghost use Rattle.go_grammar.specs.ExprReading.{block_in, context_of, is_item};
ghost use Rattle.go_grammar.specs.FileReading.{parsers};
ghost use Rattle.go_grammar.specs.Grammar.{Plain};
ghost use Rattle.go_grammar.specs.StmtReading.{simple_rest_in, simple_in, optional_simple_in, header_in, switch_in, unlabeled_in, lines_in, decl_in};
ghost use Rattle.go_grammar.specs.View.{view_block, view_stmt_line, view_listed_expr, view_if_arm, view_case_clause, view_comm_clause, each, if_some, token_if};
ghost use Rattle.go_fragments.specs.Expressions.{view_context};
ghost use Rattle.go_fragments.specs.Giving.{Gives};
ghost use Rattle.go_fragments.specs.Statements.{boxed_stmt, view_simple, view_header, view_body, IsSplit};
ghost use Rattle.go_readers.specs.Statements.{statement_in, line_in, return_in, if_in, arm_in, clause_in, clauses_in, clause_list_in, comm_list_in, arms_in, else_arm_in, go_in, defer_in, compound_in, comm_clause_in, select_in, IsList};

use crate::decls::decl;
use crate::exprs::{LOOSE, expr, expr_list};
use crate::loops::for_stmt;
use go_ast::{Kind, Token};
use go_fragments::boxes::boxed;
use go_fragments::operands::{Context, begins_with_braces, single};
use go_fragments::parts::alone;
use go_fragments::simples::{
    HeaderParts, Init, Simple, SwitchBody, begins_with_branch, begins_with_decl, branch,
    condition_of, ends_statements, guard_of, guard_suffix, is_comm, labels, optional_stmt_of,
    stmt_of, tag_of, type_switch, value_switch, with_else, without_else,
};
use go_fragments::stop::Stop;
use go_fragments::tokens::{
    assignment, begins_with, begins_with_both, begins_with_semicolon, ends_statement, line_end,
    next_if, semicolon_if, skip, step,
};
use go_syntax::{Block, CaseClause, CommClause, IfArm, ListedExpr, Stmt, StmtLine};
use std::alloc::Global;

/// Statements in braces. Go specification, "Blocks".
#[cycle(parser)]
#[tactic(auto, using(go_grammar::proofs::Views::view_block_made))]
pub(crate) fn block(
    alloc: Global,
    depth: usize,
    tokens: &[Token],
) -> Result<(Block, &[Token]), Stop>
    ensures { Gives (λ x. (view_block x.0, x.1.now)) result (block_in (parsers depth) tokens.now) }
{
    let Some((open, rest)) = skip(tokens, Kind::OpenBrace) else {
        return Err(Stop::Unexpected);
    };
    let (statements, rest) = statements(alloc, depth, rest)?;
    let Some((close, rest)) = skip(rest, Kind::CloseBrace) else {
        return Err(Stop::Unexpected);
    };
    let block = Block {
        open,
        statements,
        close,
    };
    Ok((block, rest))
}

/// Statements up to a closing brace, `case` or `default`.
#[cycle(parser)]
#[tactic(auto, using(crate::proofs::Depth::by_depth))]
fn statements(
    alloc: Global,
    depth: usize,
    tokens: &[Token],
) -> Result<(Vec<StmtLine>, &[Token]), Stop>
    ensures { Gives (λ x. (each view_stmt_line x.0.items, x.1.now)) result ((parsers depth).statements tokens.now) }
{
    if depth == 0 {
        return Err(Stop::Unexpected);
    }
    statement_lines(alloc, depth - 1, tokens)
}

/// Statements with the semicolons behind them.
#[cycle(parser)]
#[tactic(auto, using(go_fragments::proofs::Loops::manies))]
fn statement_lines(
    alloc: Global,
    depth: usize,
    tokens: &[Token],
) -> Result<(Vec<StmtLine>, &[Token]), Stop>
    ensures { Gives (λ x. (each view_stmt_line x.0.items, x.1.now)) result (lines_in (parsers depth) tokens.now) }
{
    let mut lines = Vec::with_capacity(alloc, 1)?;
    let mut rest = tokens;
    for _ in 0..tokens.len() {
        if ends_statements(rest) {
            return Ok((lines, rest));
        }
        let (line, after) = statement_line(alloc, depth, rest)?;
        lines.push(line)?;
        rest = after;
    }
    Ok((lines, rest))
}

/// A statement, or the empty one, and the semicolon behind it.
#[cycle(parser)]
fn statement_line(
    alloc: Global,
    depth: usize,
    tokens: &[Token],
) -> Result<(StmtLine, &[Token]), Stop>
    ensures { Gives (λ x. (view_stmt_line x.0, x.1.now)) result (line_in (parsers depth) tokens.now) }
{
    if let Some((semicolon, rest)) = semicolon_if(tokens) {
        let line = StmtLine {
            stmt: None,
            semicolon: Some(semicolon),
        };
        return Ok((line, rest));
    }
    let (stmt, rest) = statement(alloc, depth, tokens)?;
    let Some((semicolon, rest)) = line_end(rest, Kind::CloseBrace) else {
        return Err(Stop::Unexpected);
    };
    let line = StmtLine {
        stmt: Some(stmt),
        semicolon,
    };
    Ok((line, rest))
}

/// A statement with its labels. Go specification, "Labeled statements".
#[cycle(parser)]
fn statement(alloc: Global, depth: usize, tokens: &[Token]) -> Result<(Box<Stmt>, &[Token]), Stop>
    ensures { Gives (λ x. (boxed_stmt x.0, x.1.now)) result (statement_in (parsers depth) tokens.now) }
{
    if !begins_with_both(tokens, Kind::Name, Kind::Colon) {
        return stmt(alloc, depth, tokens);
    }
    let (labels, rest) = labels(alloc, tokens)?;
    if ends_statement(rest) {
        let stmt = None;
        return Ok((boxed(alloc, Stmt::Labeled { labels, stmt })?, rest));
    }
    let (stmt, rest) = stmt(alloc, depth, rest)?;
    let stmt = Some(stmt);
    Ok((boxed(alloc, Stmt::Labeled { labels, stmt })?, rest))
}

/// A statement without labels that is not empty.
#[cycle(parser)]
fn stmt(alloc: Global, depth: usize, tokens: &[Token]) -> Result<(Box<Stmt>, &[Token]), Stop>
    ensures { Gives (λ x. (boxed_stmt x.0, x.1.now)) result (unlabeled_in (parsers depth) tokens.now) }
{
    if begins_with_decl(tokens) {
        return decl_stmt(alloc, depth, tokens);
    }
    let is_go = begins_with(tokens, Kind::GoWord);
    if is_go {
        return go_stmt(alloc, depth, tokens);
    }
    let is_defer = begins_with(tokens, Kind::DeferWord);
    if is_defer {
        return defer_stmt(alloc, depth, tokens);
    }
    let is_return = begins_with(tokens, Kind::ReturnWord);
    if is_return {
        return return_stmt(alloc, depth, tokens);
    }
    if begins_with_branch(tokens) {
        return branch(alloc, tokens);
    }
    compound_stmt(alloc, depth, tokens)
}

/// A declaration in a function's body.
#[cycle(parser)]
#[tactic(auto, using(go_grammar::proofs::Views::view_stmt_decl))]
fn decl_stmt(alloc: Global, depth: usize, tokens: &[Token]) -> Result<(Box<Stmt>, &[Token]), Stop>
    ensures { Gives (λ x. (boxed_stmt x.0, x.1.now)) result (decl_in (parsers depth) tokens.now) }
{
    let (decl, rest) = decl(alloc, depth, tokens)?;
    let decl = boxed(alloc, decl)?;
    Ok((boxed(alloc, Stmt::Decl(decl))?, rest))
}

/// A statement with statements in it, or a simple one.
#[cycle(parser)]
fn compound_stmt(
    alloc: Global,
    depth: usize,
    tokens: &[Token],
) -> Result<(Box<Stmt>, &[Token]), Stop>
    ensures { Gives (λ x. (boxed_stmt x.0, x.1.now)) result (compound_in (parsers depth) tokens.now) }
{
    let is_block = begins_with(tokens, Kind::OpenBrace);
    if is_block {
        return block_stmt(alloc, depth, tokens);
    }
    let is_if = begins_with(tokens, Kind::IfWord);
    if is_if {
        return if_stmt(alloc, depth, tokens);
    }
    let is_switch = begins_with(tokens, Kind::SwitchWord);
    if is_switch {
        return switch_stmt(alloc, depth, tokens);
    }
    let is_select = begins_with(tokens, Kind::SelectWord);
    if is_select {
        return select_stmt(alloc, depth, tokens);
    }
    let is_for = begins_with(tokens, Kind::ForWord);
    if is_for {
        return for_stmt(alloc, depth, tokens);
    }
    simple_stmt(alloc, depth, tokens)
}

/// A block that is a statement.
#[cycle(parser)]
#[tactic(auto, using(go_grammar::proofs::Views::view_stmt_block))]
fn block_stmt(alloc: Global, depth: usize, tokens: &[Token]) -> Result<(Box<Stmt>, &[Token]), Stop>
    ensures { Gives (λ x. (boxed_stmt x.0, x.1.now)) result (block_in (parsers depth) tokens.now) }
{
    let (block, rest) = block(alloc, depth, tokens)?;
    Ok((boxed(alloc, Stmt::Block(block))?, rest))
}

/// A simple statement that is not empty, as a statement.
#[cycle(parser)]
fn simple_stmt(alloc: Global, depth: usize, tokens: &[Token]) -> Result<(Box<Stmt>, &[Token]), Stop>
    ensures { Gives (λ x. (boxed_stmt x.0, x.1.now)) result (simple_in (parsers depth) Plain tokens.now) }
{
    let (simple, rest) = simple(alloc, depth, Context::Plain, tokens)?;
    Ok((stmt_of(alloc, simple)?, rest))
}

/// Go specification, "Go statements".
#[cycle(parser)]
#[tactic(auto, using(go_grammar::proofs::Views::view_stmt_go))]
fn go_stmt(alloc: Global, depth: usize, tokens: &[Token]) -> Result<(Box<Stmt>, &[Token]), Stop>
    ensures { Gives (λ x. (boxed_stmt x.0, x.1.now)) result (go_in (parsers depth) tokens.now) }
{
    let Some((word, rest)) = skip(tokens, Kind::GoWord) else {
        return Err(Stop::Unexpected);
    };
    let (call, rest) = expr(alloc, depth, Context::Plain, LOOSE, rest)?;
    Ok((boxed(alloc, Stmt::Go { word, call })?, rest))
}

/// Go specification, "Defer statements".
#[cycle(parser)]
#[tactic(auto, using(go_grammar::proofs::Views::view_stmt_defer))]
fn defer_stmt(alloc: Global, depth: usize, tokens: &[Token]) -> Result<(Box<Stmt>, &[Token]), Stop>
    ensures { Gives (λ x. (boxed_stmt x.0, x.1.now)) result (defer_in (parsers depth) tokens.now) }
{
    let Some((word, rest)) = skip(tokens, Kind::DeferWord) else {
        return Err(Stop::Unexpected);
    };
    let (call, rest) = expr(alloc, depth, Context::Plain, LOOSE, rest)?;
    Ok((boxed(alloc, Stmt::Defer { word, call })?, rest))
}

/// Go specification, "Return statements".
#[cycle(parser)]
#[tactic(auto, using(crate::proofs::Statements::returned))]
fn return_stmt(alloc: Global, depth: usize, tokens: &[Token]) -> Result<(Box<Stmt>, &[Token]), Stop>
    ensures { Gives (λ x. (boxed_stmt x.0, x.1.now)) result (return_in (parsers depth) tokens.now) }
{
    let Some((word, rest)) = skip(tokens, Kind::ReturnWord) else {
        return Err(Stop::Unexpected);
    };
    if ends_statement(rest) {
        let results = Vec::new(alloc);
        return Ok((boxed(alloc, Stmt::Return { word, results })?, rest));
    }
    let (results, rest) = expr_list(alloc, depth, Context::Plain, rest)?;
    Ok((boxed(alloc, Stmt::Return { word, results })?, rest))
}

/// A simple statement that is not empty.
#[cycle(parser)]
#[tactic(auto, using(crate::proofs::Statements::listed))]
fn simple(
    alloc: Global,
    depth: usize,
    context: Context,
    tokens: &[Token],
) -> Result<(Simple, &[Token]), Stop>
    requires { is_item (view_context context) ≡ false }
    ensures read { Gives (λ x. (view_simple x.0, x.1.now)) result (simple_in (parsers depth) (context_of (view_context context)) tokens.now) }
    ensures split { IfOk result (λ x. IsSplit x.0) }
{
    let (targets, rest) = expr_list(alloc, depth, context, tokens)?;
    simple_rest(alloc, depth, context, targets, rest)
}

/// What follows the first expressions of a simple statement. Go specification, "Expression statements", "Send
/// statements", "IncDec statements", "Assignment statements", "Short variable declarations".
#[cycle(parser)]
#[tactic(auto, using(crate::proofs::SimpleStmts::rests))]
pub(crate) fn simple_rest(
    alloc: Global,
    depth: usize,
    context: Context,
    targets: Vec<ListedExpr>,
    tokens: &[Token],
) -> Result<(Simple, &[Token]), Stop>
    requires { is_item (view_context context) ≡ false }
    ensures read { Gives (λ x. (view_simple x.0, x.1.now)) result (simple_rest_in (parsers depth) (context_of (view_context context)) (each view_listed_expr targets.items) tokens.now) }
    ensures split { IsList (each view_listed_expr targets.items) → IfOk result (λ x. IsSplit x.0) }
{
    if let Some((operator, rest)) = assignment(tokens) {
        let (values, rest) = expr_list(alloc, depth, context, rest)?;
        let simple = Simple::Assign {
            targets,
            operator,
            values,
        };
        return Ok((simple, rest));
    }
    if let Some((operator, rest)) = next_if(tokens, Kind::Define) {
        let (values, rest) = expr_list(alloc, depth, context, rest)?;
        let simple = Simple::Define {
            targets,
            operator,
            values,
        };
        return Ok((simple, rest));
    }
    let Some(first) = single(targets) else {
        return Err(Stop::Unexpected);
    };
    if let Some((arrow, rest)) = next_if(tokens, Kind::Arrow) {
        let channel = first;
        let (value, rest) = expr(alloc, depth, context, LOOSE, rest)?;
        let simple = Simple::Send {
            channel,
            arrow,
            value,
        };
        return Ok((simple, rest));
    }
    if let Some((operator, rest)) = step(tokens) {
        let operand = first;
        return Ok((Simple::Step { operand, operator }, rest));
    }
    Ok((Simple::Expr(first), tokens))
}

/// A simple statement of a header, or nothing before a semicolon or a brace.
#[cycle(parser)]
pub(crate) fn optional_simple(
    alloc: Global,
    depth: usize,
    tokens: &[Token],
) -> Result<(Option<Simple>, &[Token]), Stop>
    ensures { Gives (λ x. (if_some view_simple x.0, x.1.now)) result (optional_simple_in (parsers depth) tokens.now) }
{
    if begins_with_semicolon(tokens) || begins_with_braces(tokens) {
        return Ok((None, tokens));
    }
    let (simple, rest) = simple(alloc, depth, Context::Header, tokens)?;
    Ok((Some(simple), rest))
}

/// The header of an `if` or a `switch`.
#[cycle(parser)]
fn header(alloc: Global, depth: usize, tokens: &[Token]) -> Result<(HeaderParts, &[Token]), Stop>
    ensures { Gives (λ x. (view_header x.0, x.1.now)) result (header_in (parsers depth) tokens.now) }
{
    let (first, rest) = optional_simple(alloc, depth, tokens)?;
    let Some((semicolon, rest)) = semicolon_if(rest) else {
        let init = Init {
            stmt: None,
            semicolon: None,
        };
        return Ok((HeaderParts { init, last: first }, rest));
    };
    let (last, rest) = optional_simple(alloc, depth, rest)?;
    let init = Init {
        stmt: optional_stmt_of(alloc, first)?,
        semicolon: Some(semicolon),
    };
    Ok((HeaderParts { init, last }, rest))
}

/// Go specification, "If statements".
#[cycle(parser)]
#[tactic(auto, using(crate::proofs::Statements::if_by_arms))]
fn if_stmt(alloc: Global, depth: usize, tokens: &[Token]) -> Result<(Box<Stmt>, &[Token]), Stop>
    ensures { Gives (λ x. (boxed_stmt x.0, x.1.now)) result (if_in (parsers depth) tokens.now) }
{
    let (arms, rest) = if_arms(alloc, depth, tokens)?;
    let Some((else_word, rest)) = next_if(rest, Kind::ElseWord) else {
        return Ok((without_else(alloc, arms)?, rest));
    };
    let (otherwise, rest) = block(alloc, depth, rest)?;
    Ok((with_else(alloc, arms, else_word, otherwise)?, rest))
}

/// The first arm of an `if`, and each `else if`.
#[cycle(parser)]
#[tactic(auto, using(go_fragments::proofs::Loops::manies))]
fn if_arms(alloc: Global, depth: usize, tokens: &[Token]) -> Result<(Vec<IfArm>, &[Token]), Stop>
    ensures { Gives (λ x. (each view_if_arm x.0.items, x.1.now)) result (arms_in (parsers depth) tokens.now) }
{
    let (first, mut rest) = if_arm(alloc, depth, None, tokens)?;
    let mut arms = alone(alloc, first)?;
    for _ in 0..rest.len() {
        if !begins_with_both(rest, Kind::ElseWord, Kind::IfWord) {
            return Ok((arms, rest));
        }
        let (arm, after) = else_arm(alloc, depth, rest)?;
        arms.push(arm)?;
        rest = after;
    }
    Ok((arms, rest))
}

/// An `else` and the arm behind it.
#[cycle(parser)]
#[tactic(auto, using(crate::proofs::Statements::else_arm_by))]
fn else_arm(alloc: Global, depth: usize, tokens: &[Token]) -> Result<(IfArm, &[Token]), Stop>
    ensures { Gives (λ x. (view_if_arm x.0, x.1.now)) result (else_arm_in (parsers depth) tokens.now) }
{
    let Some((else_word, rest)) = skip(tokens, Kind::ElseWord) else {
        return Err(Stop::Unexpected);
    };
    if_arm(alloc, depth, Some(else_word), rest)
}

/// An arm of an `if`, behind the `else` before it.
#[cycle(parser)]
#[tactic(auto, using(crate::proofs::Statements::arms))]
fn if_arm(
    alloc: Global,
    depth: usize,
    else_word: Option<Token>,
    tokens: &[Token],
) -> Result<(IfArm, &[Token]), Stop>
    ensures { Gives (λ x. (view_if_arm x.0, x.1.now)) result (arm_in (parsers depth) (token_if else_word) tokens.now) }
{
    let Some((word, rest)) = skip(tokens, Kind::IfWord) else {
        return Err(Stop::Unexpected);
    };
    let (parts, rest) = header(alloc, depth, rest)?;
    let Some(condition) = condition_of(parts.last) else {
        return Err(Stop::Unexpected);
    };
    let (body, rest) = block(alloc, depth, rest)?;
    let arm = IfArm {
        else_word,
        word,
        init: parts.init.stmt,
        semicolon: parts.init.semicolon,
        condition,
        body,
    };
    Ok((arm, rest))
}

/// Go specification, "Switch statements".
#[cycle(parser)]
fn switch_stmt(alloc: Global, depth: usize, tokens: &[Token]) -> Result<(Box<Stmt>, &[Token]), Stop>
    ensures { Gives (λ x. (boxed_stmt x.0, x.1.now)) result (switch_in (parsers depth) tokens.now) }
{
    let Some((word, rest)) = skip(tokens, Kind::SwitchWord) else {
        return Err(Stop::Unexpected);
    };
    let (parts, rest) = header(alloc, depth, rest)?;
    if begins_with(rest, Kind::Dot) {
        let Some(guard) = guard_of(parts.last) else {
            return Err(Stop::Unexpected);
        };
        let Some((suffix, rest)) = guard_suffix(rest) else {
            return Err(Stop::Unexpected);
        };
        let (body, rest) = switch_body(alloc, depth, rest)?;
        let stmt = type_switch(alloc, word, parts.init, guard, suffix, body)?;
        return Ok((stmt, rest));
    }
    let Some(tag) = tag_of(parts.last) else {
        return Err(Stop::Unexpected);
    };
    let (body, rest) = switch_body(alloc, depth, rest)?;
    Ok((value_switch(alloc, word, parts.init, tag, body)?, rest))
}

/// The clauses of a `switch` in their braces.
#[cycle(parser)]
fn switch_body(
    alloc: Global,
    depth: usize,
    tokens: &[Token],
) -> Result<(SwitchBody, &[Token]), Stop>
    ensures { Gives (λ x. (view_body x.0, x.1.now)) result (clauses_in (parsers depth) tokens.now) }
{
    let Some((open, rest)) = skip(tokens, Kind::OpenBrace) else {
        return Err(Stop::Unexpected);
    };
    let (clauses, rest) = clauses(alloc, depth, rest)?;
    let Some((close, rest)) = skip(rest, Kind::CloseBrace) else {
        return Err(Stop::Unexpected);
    };
    let body = SwitchBody {
        open,
        clauses,
        close,
    };
    Ok((body, rest))
}

/// Clauses of a `switch` up to a closing brace.
#[cycle(parser)]
#[tactic(auto, using(go_fragments::proofs::Loops::manies))]
fn clauses(
    alloc: Global,
    depth: usize,
    tokens: &[Token],
) -> Result<(Vec<CaseClause>, &[Token]), Stop>
    ensures { Gives (λ x. (each view_case_clause x.0.items, x.1.now)) result (clause_list_in (parsers depth) tokens.now) }
{
    let mut clauses = Vec::new(alloc);
    let mut rest = tokens;
    for _ in 0..tokens.len() {
        if begins_with(rest, Kind::CloseBrace) {
            return Ok((clauses, rest));
        }
        let (clause, after) = clause(alloc, depth, rest)?;
        clauses.push(clause)?;
        rest = after;
    }
    Ok((clauses, rest))
}

/// A clause of a `switch`.
#[cycle(parser)]
#[tactic(auto, using(crate::proofs::Statements::cases))]
fn clause(alloc: Global, depth: usize, tokens: &[Token]) -> Result<(CaseClause, &[Token]), Stop>
    ensures { Gives (λ x. (view_case_clause x.0, x.1.now)) result (clause_in (parsers depth) tokens.now) }
{
    if let Some((word, rest)) = next_if(tokens, Kind::DefaultWord) {
        let Some((colon, rest)) = skip(rest, Kind::Colon) else {
            return Err(Stop::Unexpected);
        };
        let (statements, rest) = statements(alloc, depth, rest)?;
        let clause = CaseClause {
            word,
            items: Vec::new(alloc),
            colon,
            statements,
        };
        return Ok((clause, rest));
    }
    let Some((word, rest)) = skip(tokens, Kind::CaseWord) else {
        return Err(Stop::Unexpected);
    };
    let (items, rest) = expr_list(alloc, depth, Context::Item, rest)?;
    let Some((colon, rest)) = skip(rest, Kind::Colon) else {
        return Err(Stop::Unexpected);
    };
    let (statements, rest) = statements(alloc, depth, rest)?;
    let clause = CaseClause {
        word,
        items,
        colon,
        statements,
    };
    Ok((clause, rest))
}

/// Go specification, "Select statements".
#[cycle(parser)]
#[tactic(auto, using(go_grammar::proofs::Views::view_stmt_select))]
fn select_stmt(alloc: Global, depth: usize, tokens: &[Token]) -> Result<(Box<Stmt>, &[Token]), Stop>
    ensures { Gives (λ x. (boxed_stmt x.0, x.1.now)) result (select_in (parsers depth) tokens.now) }
{
    let Some((word, rest)) = skip(tokens, Kind::SelectWord) else {
        return Err(Stop::Unexpected);
    };
    let Some((open, rest)) = skip(rest, Kind::OpenBrace) else {
        return Err(Stop::Unexpected);
    };
    let (clauses, rest) = comm_clauses(alloc, depth, rest)?;
    let Some((close, rest)) = skip(rest, Kind::CloseBrace) else {
        return Err(Stop::Unexpected);
    };
    let stmt = Stmt::Select {
        word,
        open,
        clauses,
        close,
    };
    Ok((boxed(alloc, stmt)?, rest))
}

/// Clauses of a `select` up to a closing brace.
#[cycle(parser)]
#[tactic(auto, using(go_fragments::proofs::Loops::manies))]
fn comm_clauses(
    alloc: Global,
    depth: usize,
    tokens: &[Token],
) -> Result<(Vec<CommClause>, &[Token]), Stop>
    ensures { Gives (λ x. (each view_comm_clause x.0.items, x.1.now)) result (comm_list_in (parsers depth) tokens.now) }
{
    let mut clauses = Vec::new(alloc);
    let mut rest = tokens;
    for _ in 0..tokens.len() {
        if begins_with(rest, Kind::CloseBrace) {
            return Ok((clauses, rest));
        }
        let (clause, after) = comm_clause(alloc, depth, rest)?;
        clauses.push(clause)?;
        rest = after;
    }
    Ok((clauses, rest))
}

/// A clause of a `select`.
#[cycle(parser)]
#[tactic(auto, using(go_grammar::proofs::Views::view_comm_clause_made))]
fn comm_clause(
    alloc: Global,
    depth: usize,
    tokens: &[Token],
) -> Result<(CommClause, &[Token]), Stop>
    ensures { Gives (λ x. (view_comm_clause x.0, x.1.now)) result (comm_clause_in (parsers depth) tokens.now) }
{
    if let Some((word, rest)) = next_if(tokens, Kind::DefaultWord) {
        let Some((colon, rest)) = skip(rest, Kind::Colon) else {
            return Err(Stop::Unexpected);
        };
        let (statements, rest) = statements(alloc, depth, rest)?;
        let clause = CommClause {
            word,
            comm: None,
            colon,
            statements,
        };
        return Ok((clause, rest));
    }
    let Some((word, rest)) = skip(tokens, Kind::CaseWord) else {
        return Err(Stop::Unexpected);
    };
    let (simple, rest) = simple(alloc, depth, Context::Plain, rest)?;
    if !is_comm(&simple) {
        return Err(Stop::Unexpected);
    }
    let comm = Some(stmt_of(alloc, simple)?);
    let Some((colon, rest)) = skip(rest, Kind::Colon) else {
        return Err(Stop::Unexpected);
    };
    let (statements, rest) = statements(alloc, depth, rest)?;
    let clause = CommClause {
        word,
        comm,
        colon,
        statements,
    };
    Ok((clause, rest))
}
