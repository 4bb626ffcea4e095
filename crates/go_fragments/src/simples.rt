//! What statements are made of once their expressions were read.

ghost use Rattle.std.specs.Prelude.{◌≡◌, Some, not};
ghost use Rattle.go_grammar.specs.Forests.{node, empty};
ghost use Rattle.go_grammar.specs.Forests.{IfForm, SwitchForm, TypeSwitchForm};
ghost use Rattle.go_grammar.specs.StmtReading as readings;
ghost use Rattle.go_grammar.specs.View.{view_block, view_if_arm, view_label, view_listed_expr, ◌⊕◌, one, each, if_some};
ghost use Rattle.go_fragments.specs.Giving.{Gives, Reads};
ghost use Rattle.go_fragments.specs.Statements.{boxed_expr, boxed_stmt, view_simple, view_init, view_guard, view_suffix, view_body, label_in, labels_in, suffix_in, branch_in, begins_branch, begins_decl_at, IsSplit};

use crate::boxes::boxed;
use crate::operands::{name_of, primary_of, single};
use crate::stop::Stop;
use crate::tokens::{begins_with, begins_with_both, next_if, optional, skip};
use go_ast::{Kind, Token};
use go_syntax::{
    Binding, Block, CaseClause, Expr, IfArm, Label, ListedExpr, Stmt, SwitchStmt, TypeSwitchStmt,
};
use std::alloc::Global;

/// A statement and the semicolon behind it, each of which may be left out.
#[derive(Drop)]
pub struct Init {
    pub stmt: Option<Box<Stmt>>,
    pub semicolon: Option<Token>,
}

/// What stands in the header of an `if` or a `switch`: a first statement, and then the condition, the tag or the front
/// of a guard, where there is one.
#[derive(Drop)]
pub struct HeaderParts {
    pub init: Init,
    pub last: Option<Simple>,
}

/// A simple statement that is not empty. Go specification, "Simple statements".
#[derive(Drop)]
pub enum Simple {
    Expr(Box<Expr>),
    Send {
        channel: Box<Expr>,
        arrow: Token,
        value: Box<Expr>,
    },
    Step {
        operand: Box<Expr>,
        operator: Token,
    },
    Assign {
        targets: Vec<ListedExpr>,
        operator: Token,
        values: Vec<ListedExpr>,
    },
    Define {
        targets: Vec<ListedExpr>,
        operator: Token,
        values: Vec<ListedExpr>,
    },
}

/// `.(type)`
#[derive(Clone, Copy)]
pub struct GuardSuffix {
    pub dot: Token,
    pub open_paren: Token,
    pub type_word: Token,
    pub close_paren: Token,
}

/// The operand of a type switch, with the name that is bound to it.
#[derive(Drop)]
pub struct Guard {
    pub binding: Option<Binding>,
    pub operand: Box<Expr>,
}

/// The clauses of a `switch` in their braces.
#[derive(Drop)]
pub struct SwitchBody {
    pub open: Token,
    pub clauses: Vec<CaseClause>,
    pub close: Token,
}

/// Whether the statements of a block or a clause end here.
pub fn ends_statements(tokens: &[Token]) -> bool
    ensures { result ≡ readings.ends_statements tokens.now }
{
    begins_with(tokens, Kind::CloseBrace)
        || begins_with(tokens, Kind::CaseWord)
        || begins_with(tokens, Kind::DefaultWord)
}

/// One label. Go specification, "Labeled statements".
fn label(tokens: &[Token]) -> Option<(Label, &[Token])>
    ensures { Reads (λ x. (view_label x.0, x.1.now)) result (label_in tokens.now) }
{
    let (name, rest) = skip(tokens, Kind::Name)?;
    let (colon, rest) = skip(rest, Kind::Colon)?;
    Some((Label { name, colon }, rest))
}

/// One label or more.
#[tactic(auto, using(crate::proofs::Loops::manies))]
pub fn labels(alloc: Global, tokens: &[Token]) -> Result<(Vec<Label>, &[Token]), Stop>
    ensures { Gives (λ x. (each view_label x.0.items, x.1.now)) result (labels_in tokens.now) }
{
    let mut labels = Vec::new(alloc);
    let Some((first, mut rest)) = label(tokens) else {
        return Err(Stop::Unexpected);
    };
    labels.push(first)?;
    for _ in 0..rest.len() {
        if !begins_with_both(rest, Kind::Name, Kind::Colon) {
            return Ok((labels, rest));
        }
        let Some((next, after)) = label(rest) else {
            return Err(Stop::Unexpected);
        };
        labels.push(next)?;
        rest = after;
    }
    Ok((labels, rest))
}

/// Whether a declaration begins here.
pub fn begins_with_decl(tokens: &[Token]) -> bool
    ensures { result ≡ begins_decl_at tokens.now }
{
    begins_with(tokens, Kind::ConstWord)
        || begins_with(tokens, Kind::TypeWord)
        || begins_with(tokens, Kind::VarWord)
}

/// Whether a `break`, `continue` or `fallthrough` statement begins here.
pub fn begins_with_branch(tokens: &[Token]) -> bool
    ensures { result ≡ begins_branch tokens.now }
{
    begins_with(tokens, Kind::BreakWord)
        || begins_with(tokens, Kind::ContinueWord)
        || begins_with(tokens, Kind::FallthroughWord)
}

/// A `break`, `continue` or `fallthrough` statement.
#[tactic(auto, using(crate::proofs::Statements::branches))]
pub fn branch(alloc: Global, tokens: &[Token]) -> Result<(Box<Stmt>, &[Token]), Stop>
    ensures { Gives (λ x. (boxed_stmt x.0, x.1.now)) result (branch_in tokens.now) }
{
    if let Some((word, rest)) = next_if(tokens, Kind::BreakWord) {
        let (label, rest) = optional(rest, Kind::Name);
        return Ok((boxed(alloc, Stmt::Break { word, label })?, rest));
    }
    if let Some((word, rest)) = next_if(tokens, Kind::ContinueWord) {
        let (label, rest) = optional(rest, Kind::Name);
        return Ok((boxed(alloc, Stmt::Continue { word, label })?, rest));
    }
    let Some((word, rest)) = skip(tokens, Kind::FallthroughWord) else {
        return Err(Stop::Unexpected);
    };
    Ok((boxed(alloc, Stmt::Fallthrough(word))?, rest))
}

/// A simple statement, as a statement.
#[tactic(auto, using(crate::proofs::SimpleStmts::simples))]
pub fn stmt_of(alloc: Global, simple: Simple) -> Result<Box<Stmt>, Stop>
    ensures { Gives boxed_stmt result (Some (view_simple simple)) }
{
    let stmt = match simple {
        Simple::Expr(expr) => Stmt::Expr(expr),
        Simple::Send {
            channel,
            arrow,
            value,
        } => Stmt::Send {
            channel,
            arrow,
            value,
        },
        Simple::Step { operand, operator } => Stmt::Step { operand, operator },
        Simple::Assign {
            targets,
            operator,
            values,
        } => Stmt::Assign {
            targets,
            operator,
            values,
        },
        Simple::Define {
            targets,
            operator,
            values,
        } => Stmt::Define {
            targets,
            operator,
            values,
        },
    };
    Ok(boxed(alloc, stmt)?)
}

/// A simple statement, where there is one, as a statement.
pub fn optional_stmt_of(alloc: Global, simple: Option<Simple>) -> Result<Option<Box<Stmt>>, Stop>
    ensures { Gives (λ x. if_some boxed_stmt x) result (Some (if_some view_simple simple)) }
{
    match simple {
        Some(simple) => {
            let stmt = stmt_of(alloc, simple)?;
            Ok(Some(stmt))
        }
        None => Ok(None),
    }
}

/// A condition that was read as a statement.
pub fn condition_of(simple: Option<Simple>) -> Option<Box<Expr>>
    ensures { Reads boxed_expr result (readings.expr_of (if_some view_simple simple)) }
{
    match simple {
        Some(Simple::Expr(expr)) => Some(expr),
        _ => None,
    }
}

/// A tag that was read as a statement, where there is one.
pub fn tag_of(simple: Option<Simple>) -> Option<Option<Box<Expr>>>
    ensures { Reads (λ x. if_some boxed_expr x) result (readings.tag_of (if_some view_simple simple)) }
{
    match simple {
        Some(Simple::Expr(expr)) => Some(Some(expr)),
        Some(_) => None,
        None => Some(None),
    }
}

/// `.(type)`
pub fn guard_suffix(tokens: &[Token]) -> Option<(GuardSuffix, &[Token])>
    ensures { Reads (λ x. (view_suffix x.0, x.1.now)) result (suffix_in tokens.now) }
{
    let (dot, rest) = skip(tokens, Kind::Dot)?;
    let (open_paren, rest) = skip(rest, Kind::OpenParen)?;
    let (type_word, rest) = skip(rest, Kind::TypeWord)?;
    let (close_paren, rest) = skip(rest, Kind::CloseParen)?;
    let suffix = GuardSuffix {
        dot,
        open_paren,
        type_word,
        close_paren,
    };
    Some((suffix, rest))
}

/// The front of a guard that was read as a statement.
pub fn guard_of(simple: Option<Simple>) -> Option<Guard>
    ensures { Reads view_guard result (readings.guard_of (if_some view_simple simple)) }
{
    match simple {
        Some(Simple::Expr(expr)) => {
            let operand = primary_of(expr)?;
            let binding = None;
            Some(Guard { binding, operand })
        }
        Some(
            Simple::Define {
                targets,
                operator,
                values,
            },
        ) => bound_of(targets, operator, values),
        _ => None,
    }
}

/// The front of a guard with a name that is bound.
#[tactic(auto, using(crate::proofs::Guards::bounds))]
fn bound_of(targets: Vec<ListedExpr>, define: Token, values: Vec<ListedExpr>) -> Option<Guard>
    ensures { Reads view_guard result (readings.bound_of (each view_listed_expr targets.items ⊕ one define ⊕ each view_listed_expr values.items)) }
{
    let name = name_of(single(targets)?)?;
    let operand = primary_of(single(values)?)?;
    let binding = Some(Binding { name, define });
    Some(Guard { binding, operand })
}

/// An `if` without a last `else`.
#[tactic(auto, using(crate::proofs::Statements::if_alone))]
pub fn without_else(alloc: Global, arms: Vec<IfArm>) -> Result<Box<Stmt>, Stop>
    ensures { Gives boxed_stmt result (Some (node IfForm (each view_if_arm arms.items) empty)) }
{
    let stmt = Stmt::If {
        arms,
        else_word: None,
        otherwise: None,
    };
    Ok(boxed(alloc, stmt)?)
}

/// An `if` with a last `else`.
pub fn with_else(
    alloc: Global,
    arms: Vec<IfArm>,
    else_word: Token,
    otherwise: Block,
) -> Result<Box<Stmt>, Stop>
    ensures { Gives boxed_stmt result (Some (node IfForm (each view_if_arm arms.items ⊕ one else_word ⊕ view_block otherwise) empty)) }
{
    let stmt = Stmt::If {
        arms,
        else_word: Some(else_word),
        otherwise: Some(boxed(alloc, otherwise)?),
    };
    Ok(boxed(alloc, stmt)?)
}

/// Go specification, "Expression switches".
#[tactic(auto, using(crate::proofs::Statements::switches))]
pub fn value_switch(
    alloc: Global,
    word: Token,
    init: Init,
    tag: Option<Box<Expr>>,
    body: SwitchBody,
) -> Result<Box<Stmt>, Stop>
    ensures { Gives boxed_stmt result (Some (node SwitchForm (one word ⊕ view_init init ⊕ if_some boxed_expr tag ⊕ view_body body) empty)) }
{
    let stmt = SwitchStmt {
        word,
        init: init.stmt,
        semicolon: init.semicolon,
        tag,
        open: body.open,
        clauses: body.clauses,
        close: body.close,
    };
    let stmt = boxed(alloc, stmt)?;
    Ok(boxed(alloc, Stmt::Switch(stmt))?)
}

/// Go specification, "Type switches".
#[tactic(auto, using(crate::proofs::Statements::type_switches))]
pub fn type_switch(
    alloc: Global,
    word: Token,
    init: Init,
    guard: Guard,
    suffix: GuardSuffix,
    body: SwitchBody,
) -> Result<Box<Stmt>, Stop>
    ensures { Gives boxed_stmt result (Some (node TypeSwitchForm (one word ⊕ view_init init ⊕ view_guard guard ⊕ view_suffix suffix ⊕ view_body body) empty)) }
{
    let stmt = TypeSwitchStmt {
        word,
        init: init.stmt,
        semicolon: init.semicolon,
        binding: guard.binding,
        operand: guard.operand,
        dot: suffix.dot,
        open_paren: suffix.open_paren,
        type_word: suffix.type_word,
        close_paren: suffix.close_paren,
        open: body.open,
        clauses: body.clauses,
        close: body.close,
    };
    let stmt = boxed(alloc, stmt)?;
    Ok(boxed(alloc, Stmt::TypeSwitch(stmt))?)
}

/// Whether this is a list of one.
fn is_single(list: &Vec<ListedExpr>) -> bool
    ensures { result ≡ readings.is_single (each view_listed_expr list.now.items) }
{
    match list.as_slice() {
        [item] => item.comma.is_none(),
        _ => false,
    }
}

/// Whether this may stand behind `case` in a `select`: a send, a receive, or an assignment or definition of what one
/// expression receives.
pub fn is_comm(simple: &Simple) -> bool
    requires { IsSplit simple.now }
    ensures { result ≡ readings.is_comm (view_simple simple.now) }
{
    match simple {
        Simple::Expr(_) | Simple::Send { .. } => true,
        Simple::Step { .. } => false,
        Simple::Assign {
            operator,
            values,
            ..
        } => operator.kind == Kind::Assign && is_single(values),
        Simple::Define { values, .. } => is_single(values),
    }
}

/// Whether this may stand behind the second semicolon of a `for`.
pub fn is_post(simple: &Option<Simple>) -> bool
    ensures { result ≡ not (readings.is_define (if_some view_simple simple.now)) }
{
    match simple {
        Some(Simple::Define { .. }) => false,
        _ => true,
    }
}
