//! Statements with `for`. Go specification, "For statements".

ghost use Rattle.go_grammar.specs.FileReading.{parsers};
ghost use Rattle.go_grammar.specs.StmtReading.{for_in, for_clauses_in, range_in, while_in, for_rest_in};
ghost use Rattle.go_grammar.specs.View.{view_listed_expr, ◌⊕◌, one, each, if_some, token_if};
ghost use Rattle.go_fragments.specs.Giving.{Gives};
ghost use Rattle.go_fragments.specs.Statements.{boxed_stmt, boxed_expr};
ghost use Rattle.go_readers.specs.Statements.{for_condition_in};

use crate::exprs::{LOOSE, expr, expr_list};
use crate::stmts::{block, optional_simple, simple_rest};
use go_ast::{Kind, Token};
use go_fragments::boxes::boxed;
use go_fragments::operands::{Context, begins_with_braces};
use go_fragments::simples::{condition_of, is_post, optional_stmt_of, stmt_of};
use go_fragments::stop::Stop;
use go_fragments::tokens::{begins_with, begins_with_semicolon, range_assignment, semicolon, skip};
use go_syntax::{Expr, ForStmt, ListedExpr, RangeStmt, Stmt};
use std::alloc::Global;

/// Go specification, "For statements".
#[cycle(parser)]
pub(crate) fn for_stmt(
    alloc: Global,
    depth: usize,
    tokens: &[Token],
) -> Result<(Box<Stmt>, &[Token]), Stop>
    ensures { Gives (λ x. (boxed_stmt x.0, x.1.now)) result (for_in (parsers depth) tokens.now) }
{
    let Some((word, rest)) = skip(tokens, Kind::ForWord) else {
        return Err(Stop::Unexpected);
    };
    let is_range = begins_with(rest, Kind::RangeWord);
    if is_range {
        return range_stmt(alloc, depth, word, Vec::new(alloc), None, rest);
    }
    if begins_with_semicolon(rest) {
        return for_clauses(alloc, depth, word, None, rest);
    }
    if begins_with_braces(rest) {
        return while_stmt(alloc, depth, word, None, rest);
    }
    let (targets, rest) = expr_list(alloc, depth, Context::Header, rest)?;
    for_rest(alloc, depth, word, targets, rest)
}

/// The rest of a `for` whose first statement begins with these expressions.
#[cycle(parser)]
fn for_rest(
    alloc: Global,
    depth: usize,
    word: Token,
    targets: Vec<ListedExpr>,
    tokens: &[Token],
) -> Result<(Box<Stmt>, &[Token]), Stop>
    ensures { Gives (λ x. (boxed_stmt x.0, x.1.now)) result (for_rest_in (parsers depth) (one word) (each view_listed_expr targets.items) tokens.now) }
{
    if let Some((operator, rest)) = range_assignment(tokens) {
        return range_stmt(alloc, depth, word, targets, Some(operator), rest);
    }
    let (simple, rest) = simple_rest(alloc, depth, Context::Header, targets, tokens)?;
    if begins_with_semicolon(rest) {
        let init = stmt_of(alloc, simple)?;
        return for_clauses(alloc, depth, word, Some(init), rest);
    }
    let Some(condition) = condition_of(Some(simple)) else {
        return Err(Stop::Unexpected);
    };
    while_stmt(alloc, depth, word, Some(condition), rest)
}

/// The body of a `for` with at most a condition. Go specification, "For statements with single condition".
#[cycle(parser)]
#[tactic(auto, using(go_grammar::proofs::Views::view_stmt_while))]
fn while_stmt(
    alloc: Global,
    depth: usize,
    word: Token,
    condition: Option<Box<Expr>>,
    tokens: &[Token],
) -> Result<(Box<Stmt>, &[Token]), Stop>
    ensures { Gives (λ x. (boxed_stmt x.0, x.1.now)) result (while_in (parsers depth) (one word) (if_some boxed_expr condition) tokens.now) }
{
    let (body, rest) = block(alloc, depth, tokens)?;
    let body = boxed(alloc, body)?;
    let stmt = Stmt::While {
        word,
        condition,
        body,
    };
    Ok((boxed(alloc, stmt)?, rest))
}

/// The clauses of a `for` from the first semicolon on, and its body. Go specification, "For statements with for clause".
#[cycle(parser)]
#[tactic(auto, using(crate::proofs::Statements::fors))]
fn for_clauses(
    alloc: Global,
    depth: usize,
    word: Token,
    init: Option<Box<Stmt>>,
    tokens: &[Token],
) -> Result<(Box<Stmt>, &[Token]), Stop>
    ensures { Gives (λ x. (boxed_stmt x.0, x.1.now)) result (for_clauses_in (parsers depth) (one word) (if_some boxed_stmt init) tokens.now) }
{
    let Some((first, rest)) = semicolon(tokens) else {
        return Err(Stop::Unexpected);
    };
    let (condition, rest) = for_condition(alloc, depth, rest)?;
    let Some((second, rest)) = semicolon(rest) else {
        return Err(Stop::Unexpected);
    };
    let (post, rest) = optional_simple(alloc, depth, rest)?;
    if !is_post(&post) {
        return Err(Stop::Unexpected);
    }
    let post = optional_stmt_of(alloc, post)?;
    let (body, rest) = block(alloc, depth, rest)?;
    let stmt = ForStmt {
        word,
        init,
        first,
        condition,
        second,
        post,
        body,
    };
    let stmt = boxed(alloc, stmt)?;
    Ok((boxed(alloc, Stmt::For(stmt))?, rest))
}

/// The condition between the semicolons of a `for`, or nothing.
#[cycle(parser)]
fn for_condition(
    alloc: Global,
    depth: usize,
    tokens: &[Token],
) -> Result<(Option<Box<Expr>>, &[Token]), Stop>
    ensures { Gives (λ x. (if_some boxed_expr x.0, x.1.now)) result (for_condition_in (parsers depth) tokens.now) }
{
    if begins_with_semicolon(tokens) {
        return Ok((None, tokens));
    }
    let (condition, rest) = expr(alloc, depth, Context::Header, LOOSE, tokens)?;
    Ok((Some(condition), rest))
}

/// The rest of a `for` from `range` on. Go specification, "For statements with range clause".
#[cycle(parser)]
#[tactic(auto, using(crate::proofs::Statements::ranges))]
fn range_stmt(
    alloc: Global,
    depth: usize,
    word: Token,
    targets: Vec<ListedExpr>,
    operator: Option<Token>,
    tokens: &[Token],
) -> Result<(Box<Stmt>, &[Token]), Stop>
    ensures { Gives (λ x. (boxed_stmt x.0, x.1.now)) result (range_in (parsers depth) (one word) (each view_listed_expr targets.items ⊕ token_if operator) tokens.now) }
{
    let Some((range, rest)) = skip(tokens, Kind::RangeWord) else {
        return Err(Stop::Unexpected);
    };
    let (operand, rest) = expr(alloc, depth, Context::Header, LOOSE, rest)?;
    let (body, rest) = block(alloc, depth, rest)?;
    let stmt = RangeStmt {
        word,
        targets,
        operator,
        range,
        operand,
        body,
    };
    let stmt = boxed(alloc, stmt)?;
    Ok((boxed(alloc, Stmt::Range(stmt))?, rest))
}
