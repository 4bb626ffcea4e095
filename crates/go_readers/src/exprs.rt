//! Expressions. Go specification, "Expressions".

ghost use Rattle.std.specs.Prelude.{length};
ghost use Rattle.go_ast.specs.declared.token.Kind.TheVariants.{CloseBrace, Comma};
ghost use Rattle.go_grammar.specs.Forests.{append};
ghost use Rattle.go_grammar.specs.Reading.{many_in, then_in};
ghost use Rattle.go_grammar.specs.Tests.{not_closed, word_in};
ghost use Rattle.go_grammar.specs.ExprReading.{binary_in, unary_in, primary_in, operand_in, type_operand_in, open_array_in, function_in, suffix_in, selector_in, index_in, slice_in, call_in, literal_in, element_in, separated_in};
ghost use Rattle.go_grammar.specs.FileReading.{parsers};
ghost use Rattle.go_grammar.specs.View.{each, if_some, one, view_element, view_expr, view_listed_expr, view_type_expr};
ghost use Rattle.go_fragments.specs.Expressions.{view_context};
ghost use Rattle.go_readers.specs.Expressions.{list_in, operation_in};
ghost use Rattle.go_fragments.specs.Giving.{Gives};
ghost use Rattle.go_readers.specs.Operands.{paren_in};

use crate::stmts::block;
use crate::types::{signature, type_expr, type_form};
use go_ast::{Kind, Token};
use go_fragments::boxes::boxed;
use go_fragments::operands::{
    Context, begins_with_braces, begins_with_open_array, begins_with_operand_type,
    begins_with_suffix, int_literal, is_type_only, literal_type, name, rune_literal, sign, star,
    starred, text_literal,
};
use go_fragments::stop::Stop;
use go_fragments::tokens::{
    begins_with, list_goes_on, next_if, operator, optional, separator, skip, tighter_than,
};
use go_syntax::{Element, Expr, ListedExpr, TypeExpr};
use std::alloc::Global;

/// The least precedence of an expression: any binary operator may stand in it.
pub(crate) const LOOSE: u8 = 1;

/// Above the precedence of every binary operator: none may stand in it.
const TIGHT: u8 = 6;

/// An expression whose binary operators bind at least so tightly.
#[cycle(parser)]
#[tactic(auto, using(crate::proofs::Depth::by_depth))]
pub(crate) fn expr(
    alloc: Global,
    depth: usize,
    context: Context,
    min: u8,
    tokens: &[Token],
) -> Result<(Box<Expr>, &[Token]), Stop>
    ensures { Gives (λ x. (view_expr x.0.value, x.1.now)) result ((parsers depth).expr (view_context context) min tokens.now) }
{
    if depth == 0 {
        return Err(Stop::Unexpected);
    }
    binary(alloc, depth - 1, context, min, tokens)
}

/// An operand, and binary operators behind it. Go specification, "Operators".
#[cycle(parser)]
fn binary(
    alloc: Global,
    depth: usize,
    context: Context,
    min: u8,
    tokens: &[Token],
) -> Result<(Box<Expr>, &[Token]), Stop>
    ensures { Gives (λ x. (view_expr x.0.value, x.1.now)) result (binary_in (parsers depth) (view_context context) min tokens.now) }
{
    let (mut left, mut rest) = unary(alloc, depth, context, tokens)?;
    if is_type_only(&left) {
        return Ok((left, rest));
    }
    for _ in 0..rest.len() {
        let Some((operator, after)) = operator(min, rest) else {
            return Ok((left, rest));
        };
        let (longer, next) = operation(alloc, depth, context, left, operator, after)?;
        left = longer;
        rest = next;
    }
    Ok((left, rest))
}

/// An operand behind an operator, with the one before it.
#[cycle(parser)]
#[tactic(auto, using(go_grammar::proofs::Views::view_expr_binary))]
fn operation(
    alloc: Global,
    depth: usize,
    context: Context,
    left: Box<Expr>,
    operator: Token,
    tokens: &[Token],
) -> Result<(Box<Expr>, &[Token]), Stop>
    ensures { Gives (λ x. (view_expr x.0.value, x.1.now)) result (operation_in (parsers depth) (view_context context) (view_expr left.value) operator tokens.now) }
{
    let tighter = tighter_than(operator);
    let (right, rest) = expr(alloc, depth, context.of_operand(), tighter, tokens)?;
    let both = Expr::Binary {
        left,
        operator,
        right,
    };
    Ok((boxed(alloc, both)?, rest))
}

/// A sign and its operand, or an operand without a sign.
#[cycle(parser)]
fn unary(
    alloc: Global,
    depth: usize,
    context: Context,
    tokens: &[Token],
) -> Result<(Box<Expr>, &[Token]), Stop>
    ensures { Gives (λ x. (view_expr x.0.value, x.1.now)) result (unary_in (parsers depth) (view_context context) tokens.now) }
{
    if let Some((operator, rest)) = star(tokens) {
        let (operand, rest) = expr(alloc, depth, context, TIGHT, rest)?;
        return Ok((starred(alloc, operator, operand)?, rest));
    }
    if let Some((operator, rest)) = sign(tokens) {
        let (operand, rest) = expr(alloc, depth, context.of_operand(), TIGHT, rest)?;
        return Ok((boxed(alloc, Expr::Unary { operator, operand })?, rest));
    }
    primary(alloc, depth, context, tokens)
}

/// An operand, and selectors, indexes, calls and braces behind it. Go specification, "Primary expressions".
#[cycle(parser)]
fn primary(
    alloc: Global,
    depth: usize,
    context: Context,
    tokens: &[Token],
) -> Result<(Box<Expr>, &[Token]), Stop>
    ensures { Gives (λ x. (view_expr x.0.value, x.1.now)) result (primary_in (parsers depth) (view_context context) tokens.now) }
{
    let (mut left, mut rest) = operand(alloc, depth, context, tokens)?;
    if is_type_only(&left) {
        return Ok((left, rest));
    }
    for _ in 0..rest.len() {
        if !begins_with_suffix(context, &left, rest) {
            return Ok((left, rest));
        }
        let (longer, after) = suffix(alloc, depth, left, rest)?;
        left = longer;
        rest = after;
    }
    Ok((left, rest))
}

/// An operand. Go specification, "Operands".
#[cycle(parser)]
fn operand(
    alloc: Global,
    depth: usize,
    context: Context,
    tokens: &[Token],
) -> Result<(Box<Expr>, &[Token]), Stop>
    ensures { Gives (λ x. (view_expr x.0.value, x.1.now)) result (operand_in (parsers depth) (view_context context) tokens.now) }
{
    let is_int = begins_with(tokens, Kind::Int);
    if is_int {
        return int_literal(alloc, tokens);
    }
    let is_rune = begins_with(tokens, Kind::Rune);
    if is_rune {
        return rune_literal(alloc, tokens);
    }
    let is_text = begins_with(tokens, Kind::Text);
    if is_text {
        return text_literal(alloc, tokens);
    }
    let is_named = begins_with(tokens, Kind::Name);
    if is_named {
        return name(alloc, tokens);
    }
    let is_paren = begins_with(tokens, Kind::OpenParen);
    if is_paren {
        return paren(alloc, depth, tokens);
    }
    let is_function = begins_with(tokens, Kind::FuncWord);
    if is_function {
        return function(alloc, depth, context, tokens);
    }
    type_operand(alloc, depth, context, tokens)
}

/// An expression or a type in parentheses.
#[cycle(parser)]
#[tactic(auto, using(go_grammar::proofs::Views::view_expr_paren))]
fn paren(alloc: Global, depth: usize, tokens: &[Token]) -> Result<(Box<Expr>, &[Token]), Stop>
    ensures { Gives (λ x. (view_expr x.0.value, x.1.now)) result (paren_in (parsers depth) tokens.now) }
{
    let Some((open, rest)) = skip(tokens, Kind::OpenParen) else {
        return Err(Stop::Unexpected);
    };
    let (inner, rest) = expr(alloc, depth, Context::Item, LOOSE, rest)?;
    let Some((close, rest)) = skip(rest, Kind::CloseParen) else {
        return Err(Stop::Unexpected);
    };
    let paren = Expr::Paren { open, inner, close };
    Ok((boxed(alloc, paren)?, rest))
}

/// A type that is an operand, or where types may stand any that begins with `chan` or `<-`.
#[cycle(parser)]
#[tactic(auto, using(crate::proofs::OperandTypes::operand_types, go_grammar::proofs::Views::view_expr_type_form))]
fn type_operand(
    alloc: Global,
    depth: usize,
    context: Context,
    tokens: &[Token],
) -> Result<(Box<Expr>, &[Token]), Stop>
    ensures { Gives (λ x. (view_expr x.0.value, x.1.now)) result (type_operand_in (parsers depth) (view_context context) tokens.now) }
{
    if begins_with_open_array(tokens) {
        let (form, rest) = open_array(alloc, depth, tokens)?;
        return Ok((boxed(alloc, Expr::TypeForm(form))?, rest));
    }
    if !begins_with_operand_type(context, tokens) {
        return Err(Stop::Unexpected);
    }
    let (form, rest) = type_form(alloc, depth, tokens)?;
    Ok((boxed(alloc, Expr::TypeForm(form))?, rest))
}

/// `[...]T` before the braces of a literal. Go specification, "Composite literals".
#[cycle(parser)]
#[tactic(auto, using(go_grammar::proofs::Views::view_type_expr_open_array))]
fn open_array(
    alloc: Global,
    depth: usize,
    tokens: &[Token],
) -> Result<(Box<TypeExpr>, &[Token]), Stop>
    ensures { Gives (λ x. (view_type_expr x.0.value, x.1.now)) result (open_array_in (parsers depth) tokens.now) }
{
    let Some((open, rest)) = skip(tokens, Kind::OpenBracket) else {
        return Err(Stop::Unexpected);
    };
    let Some((ellipsis, rest)) = skip(rest, Kind::Ellipsis) else {
        return Err(Stop::Unexpected);
    };
    let Some((close, rest)) = skip(rest, Kind::CloseBracket) else {
        return Err(Stop::Unexpected);
    };
    let (element, rest) = type_expr(alloc, depth, rest)?;
    if !begins_with_braces(rest) {
        return Err(Stop::Unexpected);
    }
    let form = TypeExpr::OpenArray {
        open,
        ellipsis,
        close,
        element,
    };
    Ok((boxed(alloc, form)?, rest))
}

/// A function literal, or where types may stand a function type. Go specification, "Function literals".
#[cycle(parser)]
#[tactic(auto, using(go_grammar::proofs::Views::view_expr_function, go_grammar::proofs::Views::view_expr_type_form, go_grammar::proofs::Views::view_type_expr_function))]
fn function(
    alloc: Global,
    depth: usize,
    context: Context,
    tokens: &[Token],
) -> Result<(Box<Expr>, &[Token]), Stop>
    ensures { Gives (λ x. (view_expr x.0.value, x.1.now)) result (function_in (parsers depth) (view_context context) tokens.now) }
{
    let Some((word, rest)) = skip(tokens, Kind::FuncWord) else {
        return Err(Stop::Unexpected);
    };
    let (signature, rest) = signature(alloc, depth, rest)?;
    let signature = boxed(alloc, signature)?;
    if begins_with_braces(rest) {
        let (body, rest) = block(alloc, depth, rest)?;
        let body = boxed(alloc, body)?;
        let function = Expr::Function {
            word,
            signature,
            body,
        };
        return Ok((boxed(alloc, function)?, rest));
    }
    if !context.is_item() {
        return Err(Stop::Unexpected);
    }
    let form = boxed(alloc, TypeExpr::Function { word, signature })?;
    Ok((boxed(alloc, Expr::TypeForm(form))?, rest))
}

/// An operand with a selector, a type assertion, an index, a slice, a call or the braces of a literal behind it.
#[cycle(parser)]
fn suffix(
    alloc: Global,
    depth: usize,
    left: Box<Expr>,
    tokens: &[Token],
) -> Result<(Box<Expr>, &[Token]), Stop>
    ensures { Gives (λ x. (view_expr x.0.value, x.1.now)) result (suffix_in (parsers depth) (view_expr left.value) tokens.now) }
{
    match tokens {
        [] => Err(Stop::Unexpected),
        [first, ..] => match first.kind {
            Kind::Dot => selector(alloc, depth, left, tokens),
            Kind::OpenBracket => index(alloc, depth, left, tokens),
            Kind::OpenParen => call(alloc, depth, left, tokens),
            Kind::OpenBrace => {
                let form = literal_type(alloc, left)?;
                literal(alloc, depth, Some(form), tokens)
            }
            _ => Err(Stop::Unexpected),
        },
    }
}

/// A selector, or a type assertion. Go specification, "Selectors", "Type assertions".
#[cycle(parser)]
#[tactic(auto, using(go_grammar::proofs::Views::view_expr_selector, go_grammar::proofs::Views::view_expr_assertion))]
fn selector(
    alloc: Global,
    depth: usize,
    operand: Box<Expr>,
    tokens: &[Token],
) -> Result<(Box<Expr>, &[Token]), Stop>
    ensures { Gives (λ x. (view_expr x.0.value, x.1.now)) result (selector_in (parsers depth) (view_expr operand.value) tokens.now) }
{
    let Some((dot, rest)) = skip(tokens, Kind::Dot) else {
        return Err(Stop::Unexpected);
    };
    if let Some((open, rest)) = next_if(rest, Kind::OpenParen) {
        let (form, rest) = type_expr(alloc, depth, rest)?;
        let Some((close, rest)) = skip(rest, Kind::CloseParen) else {
            return Err(Stop::Unexpected);
        };
        let assertion = Expr::Assertion {
            operand,
            dot,
            open,
            form,
            close,
        };
        return Ok((boxed(alloc, assertion)?, rest));
    }
    let Some((name, rest)) = skip(rest, Kind::Name) else {
        return Err(Stop::Unexpected);
    };
    Ok((boxed(alloc, Expr::Selector { operand, dot, name })?, rest))
}

/// An index, or a slice. Go specification, "Index expressions".
#[cycle(parser)]
#[tactic(auto, using(go_grammar::proofs::Views::view_expr_index))]
fn index(
    alloc: Global,
    depth: usize,
    operand: Box<Expr>,
    tokens: &[Token],
) -> Result<(Box<Expr>, &[Token]), Stop>
    ensures { Gives (λ x. (view_expr x.0.value, x.1.now)) result (index_in (parsers depth) (view_expr operand.value) tokens.now) }
{
    let Some((open, rest)) = skip(tokens, Kind::OpenBracket) else {
        return Err(Stop::Unexpected);
    };
    if begins_with(rest, Kind::Colon) {
        return slice(alloc, depth, operand, open, None, rest);
    }
    let (index, rest) = expr(alloc, depth, Context::Plain, LOOSE, rest)?;
    if begins_with(rest, Kind::Colon) {
        return slice(alloc, depth, operand, open, Some(index), rest);
    }
    let Some((close, rest)) = skip(rest, Kind::CloseBracket) else {
        return Err(Stop::Unexpected);
    };
    let indexed = Expr::Index {
        operand,
        open,
        index,
        close,
    };
    Ok((boxed(alloc, indexed)?, rest))
}

/// The rest of a slice from its first colon on. Go specification, "Slice expressions".
#[cycle(parser)]
#[tactic(auto, using(crate::proofs::Groupings::slices, go_grammar::proofs::Views::view_expr_full_slice))]
fn slice(
    alloc: Global,
    depth: usize,
    operand: Box<Expr>,
    bracket: Token,
    low: Option<Box<Expr>>,
    tokens: &[Token],
) -> Result<(Box<Expr>, &[Token]), Stop>
    ensures { Gives (λ x. (view_expr x.0.value, x.1.now)) result (slice_in (parsers depth) (view_expr operand.value) (one bracket) (if_some (λ x. view_expr x.value) low) tokens.now) }
{
    let Some((colon, rest)) = skip(tokens, Kind::Colon) else {
        return Err(Stop::Unexpected);
    };
    if let Some((close, rest)) = next_if(rest, Kind::CloseBracket) {
        let high = None;
        let sliced = Expr::Slice {
            operand,
            open: bracket,
            low,
            colon,
            high,
            close,
        };
        return Ok((boxed(alloc, sliced)?, rest));
    }
    let (high, rest) = expr(alloc, depth, Context::Plain, LOOSE, rest)?;
    if let Some((close, rest)) = next_if(rest, Kind::CloseBracket) {
        let high = Some(high);
        let sliced = Expr::Slice {
            operand,
            open: bracket,
            low,
            colon,
            high,
            close,
        };
        return Ok((boxed(alloc, sliced)?, rest));
    }
    let Some((second_colon, rest)) = skip(rest, Kind::Colon) else {
        return Err(Stop::Unexpected);
    };
    let (max, rest) = expr(alloc, depth, Context::Plain, LOOSE, rest)?;
    let Some((close, rest)) = skip(rest, Kind::CloseBracket) else {
        return Err(Stop::Unexpected);
    };
    let sliced = Expr::FullSlice {
        operand,
        open: bracket,
        low,
        colon,
        high,
        second_colon,
        max,
        close,
    };
    Ok((boxed(alloc, sliced)?, rest))
}

/// A call, or a conversion. Go specification, "Calls".
#[cycle(parser)]
#[tactic(auto, using(go_grammar::proofs::Views::view_expr_call, crate::proofs::Groupings::regroup))]
fn call(
    alloc: Global,
    depth: usize,
    callee: Box<Expr>,
    tokens: &[Token],
) -> Result<(Box<Expr>, &[Token]), Stop>
    ensures { Gives (λ x. (view_expr x.0.value, x.1.now)) result (call_in (parsers depth) (view_expr callee.value) tokens.now) }
{
    let Some((open, rest)) = skip(tokens, Kind::OpenParen) else {
        return Err(Stop::Unexpected);
    };
    if let Some((close, rest)) = next_if(rest, Kind::CloseParen) {
        let call = Expr::Call {
            callee,
            open,
            arguments: Vec::new(alloc),
            ellipsis: None,
            comma: None,
            close,
        };
        return Ok((boxed(alloc, call)?, rest));
    }
    let (arguments, rest) = expr_list(alloc, depth, Context::Item, rest)?;
    let (ellipsis, rest) = optional(rest, Kind::Ellipsis);
    let (comma, rest) = optional(rest, Kind::Comma);
    let Some((close, rest)) = skip(rest, Kind::CloseParen) else {
        return Err(Stop::Unexpected);
    };
    let call = Expr::Call {
        callee,
        open,
        arguments,
        ellipsis,
        comma,
        close,
    };
    Ok((boxed(alloc, call)?, rest))
}

/// The elements of a literal in their braces. Go specification, "Composite literals".
#[cycle(parser)]
#[tactic(auto, using(go_grammar::proofs::Views::view_expr_composite))]
fn literal(
    alloc: Global,
    depth: usize,
    form: Option<Box<TypeExpr>>,
    tokens: &[Token],
) -> Result<(Box<Expr>, &[Token]), Stop>
    ensures { Gives (λ x. (view_expr x.0.value, x.1.now)) result (literal_in (parsers depth) (if_some (λ x. view_type_expr x.value) form) tokens.now) }
{
    let Some((open, rest)) = skip(tokens, Kind::OpenBrace) else {
        return Err(Stop::Unexpected);
    };
    let (elements, rest) = elements(alloc, depth, rest)?;
    let Some((close, rest)) = skip(rest, Kind::CloseBrace) else {
        return Err(Stop::Unexpected);
    };
    let literal = Expr::Composite {
        form,
        open,
        elements,
        close,
    };
    Ok((boxed(alloc, literal)?, rest))
}

/// Elements up to a closing brace.
#[cycle(parser)]
#[tactic(auto, using(go_fragments::proofs::Loops::manies))]
fn elements(alloc: Global, depth: usize, tokens: &[Token]) -> Result<(Vec<Element>, &[Token]), Stop>
    ensures { Gives (λ x. (each view_element x.0.items, x.1.now)) result (many_in (not_closed CloseBrace) (separated_in (element_in (parsers depth))) (length tokens.now) tokens.now) }
{
    let mut elements = Vec::new(alloc);
    let mut rest = tokens;
    for _ in 0..tokens.len() {
        if begins_with(rest, Kind::CloseBrace) {
            return Ok((elements, rest));
        }
        let (element, after) = element(alloc, depth, rest)?;
        elements.push(element)?;
        rest = after;
    }
    Ok((elements, rest))
}

/// An element, with its key where it has one, and the comma behind it.
#[cycle(parser)]
fn element(alloc: Global, depth: usize, tokens: &[Token]) -> Result<(Element, &[Token]), Stop>
    ensures { Gives (λ x. (view_element x.0, x.1.now)) result (separated_in (element_in (parsers depth)) tokens.now) }
{
    let (first, rest) = value(alloc, depth, tokens)?;
    if let Some((colon, rest)) = next_if(rest, Kind::Colon) {
        let (value, rest) = value(alloc, depth, rest)?;
        let Some((comma, rest)) = separator(rest, Kind::CloseBrace) else {
            return Err(Stop::Unexpected);
        };
        let element = Element {
            key: Some(first),
            colon: Some(colon),
            value,
            comma,
        };
        return Ok((element, rest));
    }
    let Some((comma, rest)) = separator(rest, Kind::CloseBrace) else {
        return Err(Stop::Unexpected);
    };
    let element = Element {
        key: None,
        colon: None,
        value: first,
        comma,
    };
    Ok((element, rest))
}

/// A key or a value: an expression, or a literal without its type.
#[cycle(parser)]
#[tactic(auto, using(crate::proofs::Depth::by_depth))]
fn value(alloc: Global, depth: usize, tokens: &[Token]) -> Result<(Box<Expr>, &[Token]), Stop>
    ensures { Gives (λ x. (view_expr x.0.value, x.1.now)) result ((parsers depth).value tokens.now) }
{
    if depth == 0 {
        return Err(Stop::Unexpected);
    }
    if begins_with_braces(tokens) {
        return literal(alloc, depth - 1, None, tokens);
    }
    binary(alloc, depth - 1, Context::Plain, LOOSE, tokens)
}

/// Expressions with commas between them.
#[cycle(parser)]
#[tactic(auto, using(go_fragments::proofs::Loops::manies))]
pub(crate) fn expr_list(
    alloc: Global,
    depth: usize,
    context: Context,
    tokens: &[Token],
) -> Result<(Vec<ListedExpr>, &[Token]), Stop>
    ensures { Gives (λ x. (each view_listed_expr x.0.items, x.1.now)) result (list_in (parsers depth) (view_context context) tokens.now) }
{
    let mut list = Vec::with_capacity(alloc, 1)?;
    let (mut expr, mut rest) = expr(alloc, depth, context, LOOSE, tokens)?;
    for _ in 0..rest.len() {
        if !list_goes_on(rest) {
            list.push(ListedExpr { expr, comma: None })?;
            return Ok((list, rest));
        }
        let (comma, next, after) = next_expr(alloc, depth, context, rest)?;
        let comma = Some(comma);
        list.push(ListedExpr { expr, comma })?;
        expr = next;
        rest = after;
    }
    list.push(ListedExpr { expr, comma: None })?;
    Ok((list, rest))
}

/// A comma, and an expression behind it.
#[cycle(parser)]
fn next_expr(
    alloc: Global,
    depth: usize,
    context: Context,
    tokens: &[Token],
) -> Result<(Token, Box<Expr>, &[Token]), Stop>
    ensures { Gives (λ x. (append (one x.0) (view_expr x.1.value), x.2.now)) result (then_in (word_in Comma) ((parsers depth).expr (view_context context) 1) tokens.now) }
{
    let Some((comma, rest)) = skip(tokens, Kind::Comma) else {
        return Err(Stop::Unexpected);
    };
    let (next, rest) = expr(alloc, depth, context, LOOSE, rest)?;
    Ok((comma, next, rest))
}
