//! What an expression that was read may be used as, and where it stands.

ghost use Rattle.std.specs.Prelude.{◌≡◌, Some};
ghost use Rattle.go_ast.specs.declared.token.Kind.TheVariants.{OpenBrace, OpenBracket, Ellipsis};
ghost use Rattle.go_grammar.specs.ExprReading as exprs;
ghost use Rattle.go_grammar.specs.ExprReading.{begins_suffix};
ghost use Rattle.go_grammar.specs.StmtReading as stmts;
ghost use Rattle.go_grammar.specs.Tests.{begins, begins_both, word_in};
ghost use Rattle.go_grammar.specs.View.{each, one, view_expr, view_listed_expr, view_named, view_type_expr};
ghost use Rattle.go_fragments.specs.Expressions.{name_token, single_of, type_named, view_context};
ghost use Rattle.go_fragments.specs.Giving.{Gives, Reads};
ghost use Rattle.go_fragments.specs.Words.{begins_operand_type};
ghost use Rattle.go_fragments.specs.Operands.{star_at, sign_at};
ghost use Rattle.go_ast.specs.declared.token.Kind.TheVariants as kinds;
ghost use Rattle.go_grammar.specs.Forests as forms;
ghost use Rattle.go_grammar.specs.Reading.{node_in};

use crate::boxes::boxed;
use crate::stop::Stop;
use crate::tokens::{begins_with, begins_with_bare_type, begins_with_both, begins_with_sign, skip};
use go_ast::{Kind, Token};
use go_syntax::{Expr, ListedExpr, NamedType, TypeExpr};
use std::alloc::Global;

/// Where an expression stands.
#[derive(Clone, Copy)]
pub enum Context {
    Plain,
    /// In the header of an `if`, `for` or `switch`, outside brackets: there the braces behind the name of a type are no
    /// literal's.
    Header,
    /// Where a type may stand too.
    Item,
}

impl Context {
    /// Where an operand stands that is no type.
    pub fn of_operand(self) -> Context
        ensures { view_context result ≡ exprs.of_operand (view_context self) }
    {
        match self {
            Context::Item => Context::Plain,
            context => context,
        }
    }

    /// Whether a type may stand here too.
    pub fn is_item(self) -> bool
        ensures { result ≡ exprs.is_item (view_context self) }
    {
        matches!(self, Context::Item)
    }

    /// Whether braces behind the name of a type are no literal's here.
    pub fn is_header(self) -> bool
        ensures { result ≡ exprs.is_header (view_context self) }
    {
        matches!(self, Context::Header)
    }
}

/// Whether this is a type that is no expression.
#[tactic(auto, using(go_grammar::proofs::Views::view_expr_type_form))]
pub fn is_type_only(expr: &Expr) -> bool
    ensures { result ≡ exprs.is_type_only (view_expr expr.now) }
{
    match expr {
        Expr::TypeForm(form) => is_only_a_type(form),
        _ => false,
    }
}

/// Whether a type of this form is no operand.
#[tactic(auto, using(go_grammar::proofs::Views::view_type_expr_pointer, go_grammar::proofs::Views::view_type_expr_chan, go_grammar::proofs::Views::view_type_expr_receive_chan, go_grammar::proofs::Views::view_type_expr_function))]
fn is_only_a_type(form: &TypeExpr) -> bool
    ensures { result ≡ exprs.is_only_a_type (view_type_expr form.now) }
{
    matches!(
        form,
        TypeExpr::Pointer { .. }
            | TypeExpr::Chan { .. }
            | TypeExpr::ReceiveChan { .. }
            | TypeExpr::Function { .. }
    )
}

/// Whether this is a name.
#[tactic(auto, using(go_grammar::proofs::Views::view_expr_name))]
fn is_name(expr: &Expr) -> bool
    ensures { result ≡ exprs.is_name (view_expr expr.now) }
{
    matches!(expr, Expr::Name(_))
}

/// Whether braces behind this are those of a literal.
#[tactic(auto, using(go_grammar::proofs::Views::view_expr_type_form, go_grammar::proofs::Views::view_expr_name, go_grammar::proofs::Views::view_expr_selector, crate::proofs::Variants::name_before))]
fn is_literal_type(context: Context, expr: &Expr) -> bool
    ensures { result ≡ exprs.is_literal_type (view_context context) (view_expr expr.now) }
{
    match expr {
        Expr::TypeForm(_) => true,
        Expr::Name(_) => !context.is_header(),
        Expr::Selector { operand, .. } => !context.is_header() && is_name(operand),
        _ => false,
    }
}

/// Whether an operand goes on here. `.(type)` is no part of it.
pub fn begins_with_suffix(context: Context, left: &Expr, tokens: &[Token]) -> bool
    ensures { result ≡ begins_suffix (view_context context) (view_expr left.now) tokens.now }
{
    match tokens {
        [] => false,
        [first, rest @ ..] => match first.kind {
            Kind::Dot => !begins_with_both(rest, Kind::OpenParen, Kind::TypeWord),
            Kind::OpenBracket | Kind::OpenParen => true,
            Kind::OpenBrace => is_literal_type(context, left),
            _ => false,
        },
    }
}

/// Whether a type begins here that may stand as an operand.
pub fn begins_with_operand_type(context: Context, tokens: &[Token]) -> bool
    ensures { result ≡ begins_operand_type (view_context context) tokens.now }
{
    begins_with_bare_type(tokens)
        || context.is_item()
            && (begins_with(tokens, Kind::ChanWord) || begins_with(tokens, Kind::Arrow))
}

/// The type of a literal, whose braces follow.
#[tactic(auto, using(go_grammar::proofs::Views::view_expr_type_form, go_grammar::proofs::Views::view_type_expr_name, crate::proofs::Variants::literal_named))]
pub fn literal_type(alloc: Global, left: Box<Expr>) -> Result<Box<TypeExpr>, Stop>
    ensures { Gives (λ x. view_type_expr x.value) result (exprs.literal_type (view_expr left.value)) }
{
    match Box::into_inner(left).into_type() {
        Ok(form) => Ok(form),
        Err(other) => {
            let Some(name) = type_name_of(&other) else {
                return Err(Stop::Unexpected);
            };
            Ok(boxed(alloc, TypeExpr::Name(name))?)
        }
    }
}

/// The name of a type, of what was read as an expression.
#[tactic(auto, using(go_grammar::proofs::Views::view_expr_name, go_grammar::proofs::Views::view_expr_selector, crate::proofs::Variants::imported_none, crate::proofs::Variants::imported_some))]
fn type_name_of(expr: &Expr) -> Option<NamedType>
    ensures { Reads view_named result (type_named (view_expr expr.now)) }
{
    match expr {
        Expr::Name(name) => Some(NamedType::Local(*name)),
        Expr::Selector { operand, dot, name } => {
            let package = token_of_name(operand)?;
            Some(NamedType::Imported {
                package,
                dot: *dot,
                name: *name,
            })
        }
        _ => None,
    }
}

/// `*` before an expression, or before a type that is none.
#[tactic(auto, using(go_grammar::proofs::Views::view_expr_type_form, go_grammar::proofs::Views::view_type_expr_pointer, crate::proofs::Variants::starred_plain, crate::proofs::Variants::starred_type))]
pub fn starred(alloc: Global, star: Token, operand: Box<Expr>) -> Result<Box<Expr>, Stop>
    ensures { Gives (λ x. view_expr x.value) result (Some (exprs.starred star (view_expr operand.value))) }
{
    if !is_type_only(&operand) {
        return with_sign(alloc, star, operand);
    }
    match Box::into_inner(operand).into_type() {
        Ok(base) => {
            let form = boxed(alloc, TypeExpr::Pointer { star, base })?;
            Ok(boxed(alloc, Expr::TypeForm(form))?)
        }
        Err(_other) => Err(Stop::Unexpected),
    }
}

/// An operand with a sign before the whole of it.
#[tactic(auto, using(go_grammar::proofs::Views::view_expr_unary))]
fn with_sign(alloc: Global, operator: Token, operand: Box<Expr>) -> Result<Box<Expr>, Stop>
    ensures { Gives (λ x. view_expr x.value) result (Some (exprs.unary_of operator (view_expr operand.value))) }
{
    Ok(boxed(alloc, Expr::Unary { operator, operand })?)
}

/// The expression of a list of one, which no comma follows.
pub fn single(list: Vec<ListedExpr>) -> Option<Box<Expr>>
    ensures { Reads (λ x. view_expr x.value) result (single_of (each view_listed_expr list.items)) }
{
    let mut list = list;
    let last = list.pop()?;
    if !list.is_empty() {
        return None;
    }
    let (expr, comma) = last.into_parts();
    if comma.is_some() {
        return None;
    }
    Some(expr)
}

/// The token of a name.
pub fn name_of(expr: Box<Expr>) -> Option<Token>
    ensures { Reads one result (name_token (view_expr expr.value)) }
{
    token_of_name(&expr)
}

/// The token of a name.
#[tactic(auto, using(go_grammar::proofs::Views::view_expr_name))]
fn token_of_name(expr: &Expr) -> Option<Token>
    ensures { Reads one result (name_token (view_expr expr.now)) }
{
    match expr {
        Expr::Name(name) => Some(*name),
        _ => None,
    }
}

/// An operand and what follows it, as against one with operators.
pub fn primary_of(expr: Box<Expr>) -> Option<Box<Expr>>
    ensures { Reads (λ x. view_expr x.value) result (stmts.primary_of (view_expr expr.value)) }
{
    if is_primary(&expr) {
        return Some(expr);
    }
    None
}

/// Whether this is no operator with its operands.
#[tactic(auto, using(go_grammar::proofs::Views::view_expr_unary, go_grammar::proofs::Views::view_expr_binary))]
fn is_primary(expr: &Expr) -> bool
    ensures { result ≡ stmts.is_primary (view_expr expr.now) }
{
    match expr {
        Expr::Unary { .. } | Expr::Binary { .. } => false,
        _ => true,
    }
}

/// Whether `[...]` begins here, the front of an array type in a literal.
pub fn begins_with_open_array(tokens: &[Token]) -> bool
    ensures { result ≡ begins_both OpenBracket Ellipsis tokens.now }
{
    begins_with_both(tokens, Kind::OpenBracket, Kind::Ellipsis)
}

/// Whether the braces of a literal or a body begin here.
pub fn begins_with_braces(tokens: &[Token]) -> bool
    ensures { result ≡ begins OpenBrace tokens.now }
{
    begins_with(tokens, Kind::OpenBrace)
}

/// An integer literal. Go specification, "Integer literals".
#[tactic(auto, using(go_grammar::proofs::Views::view_expr_int))]
pub fn int_literal(alloc: Global, tokens: &[Token]) -> Result<(Box<Expr>, &[Token]), Stop>
    ensures { Gives (λ x. (view_expr x.0.value, x.1.now)) result (node_in forms.IntForm (word_in kinds.Int) tokens.now) }
{
    let Some((token, rest)) = skip(tokens, Kind::Int) else {
        return Err(Stop::Unexpected);
    };
    Ok((boxed(alloc, Expr::Int(token))?, rest))
}

/// A rune literal. Go specification, "Rune literals".
#[tactic(auto, using(go_grammar::proofs::Views::view_expr_rune))]
pub fn rune_literal(alloc: Global, tokens: &[Token]) -> Result<(Box<Expr>, &[Token]), Stop>
    ensures { Gives (λ x. (view_expr x.0.value, x.1.now)) result (node_in forms.RuneForm (word_in kinds.Rune) tokens.now) }
{
    let Some((token, rest)) = skip(tokens, Kind::Rune) else {
        return Err(Stop::Unexpected);
    };
    Ok((boxed(alloc, Expr::Rune(token))?, rest))
}

/// A string literal. Go specification, "String literals".
#[tactic(auto, using(go_grammar::proofs::Views::view_expr_text))]
pub fn text_literal(alloc: Global, tokens: &[Token]) -> Result<(Box<Expr>, &[Token]), Stop>
    ensures { Gives (λ x. (view_expr x.0.value, x.1.now)) result (node_in forms.TextForm (word_in kinds.Text) tokens.now) }
{
    let Some((token, rest)) = skip(tokens, Kind::Text) else {
        return Err(Stop::Unexpected);
    };
    Ok((boxed(alloc, Expr::Text(token))?, rest))
}

/// A name as an operand. Go specification, "Operands".
#[tactic(auto, using(go_grammar::proofs::Views::view_expr_name))]
pub fn name(alloc: Global, tokens: &[Token]) -> Result<(Box<Expr>, &[Token]), Stop>
    ensures { Gives (λ x. (view_expr x.0.value, x.1.now)) result (node_in forms.NameForm (word_in kinds.Name) tokens.now) }
{
    let Some((token, rest)) = skip(tokens, Kind::Name) else {
        return Err(Stop::Unexpected);
    };
    Ok((boxed(alloc, Expr::Name(token))?, rest))
}

/// A star, and the tokens behind it.
pub fn star(tokens: &[Token]) -> Option<(Token, &[Token])>
    ensures { Reads (λ x. (x.0, x.1.now)) result (star_at tokens.now) }
{
    match tokens {
        [first, rest @ ..] if first.kind == Kind::Star => Some((*first, rest)),
        _ => None,
    }
}

/// A sign, and the tokens behind it. Before `chan`, `<-` is none.
pub fn sign(tokens: &[Token]) -> Option<(Token, &[Token])>
    ensures { Reads (λ x. (x.0, x.1.now)) result (sign_at tokens.now) }
{
    match tokens {
        [first, rest @ ..] if begins_with_sign(tokens) => Some((*first, rest)),
        _ => None,
    }
}
