//! Types. Go specification, "Types".

ghost use Rattle.std.specs.Prelude.{◌≡◌, ◌∷◌, Option, Some, length};
ghost use Rattle.std.specs.Global.{Box};
ghost use Rattle.go_syntax.specs.declared.type_exprs.TypeExpr.{TypeExpr};
ghost use Rattle.go_ast.specs.declared.token.Kind.TheVariants as kinds;
ghost use Rattle.go_grammar.specs.Forests.{empty};
ghost use Rattle.go_grammar.specs.Reading.{either_in};
ghost use Rattle.go_grammar.specs.Tests.{begins_type_at};
ghost use Rattle.go_grammar.specs.TypeReading.{type_in, long_in, bare_in, signature_in, params_in, entry_in, entries_in, at_type};
ghost use Rattle.go_grammar.specs.View.{view_type_expr, view_params, view_signature, view_field_line, view_element_line, each, if_some};
ghost use Rattle.go_grammar.specs.FileReading.{parsers};
ghost use Rattle.go_fragments.specs.Giving.{Gives};
ghost use Rattle.go_fragments.specs.Entries.{view_entry, entries};
ghost use Rattle.go_readers.specs.Lines.{field_line_in, field_lines_in, element_line_in, element_lines_in, paren_type_in, pointer_type_in, function_type_in};
ghost use Rattle.go_grammar.specs.TypeReading.{chan_plan};
ghost use Rattle.go_grammar.specs.Reading.{run};

use crate::exprs::{LOOSE, expr};
use go_ast::{Kind, Token};
use go_fragments::boxes::boxed;
use go_fragments::groups::{
    Entry, begins_with_embedded_field, embedded_field, grouped, param_name,
};
use go_fragments::operands::Context;
use go_fragments::parts::{named_type, params_of, signature_of};
use go_fragments::stop::Stop;
use go_fragments::tokens::{
    begins_with, begins_with_bare_type, begins_with_both, begins_with_type, direction, line_end,
    names, next_if, optional, semicolon_if, separator, skip, type_name,
};
use go_syntax::{ElementLine, FieldLine, Params, ResultForm, Signature, TypeExpr};
use std::alloc::Global;

/// A type.
#[cycle(parser)]
#[tactic(auto, using(crate::proofs::Depth::by_depth))]
pub(crate) fn type_expr(
    alloc: Global,
    depth: usize,
    tokens: &[Token],
) -> Result<(Box<TypeExpr>, &[Token]), Stop>
    ensures { Gives (λ x. (view_type_expr x.0.value, x.1.now)) result ((parsers depth).type_expr tokens.now) }
{
    if depth == 0 {
        return Err(Stop::Unexpected);
    }
    type_form(alloc, depth - 1, tokens)
}

/// A type.
#[cycle(parser)]
pub(crate) fn type_form(
    alloc: Global,
    depth: usize,
    tokens: &[Token],
) -> Result<(Box<TypeExpr>, &[Token]), Stop>
    ensures { Gives (λ x. (view_type_expr x.0.value, x.1.now)) result (type_in (parsers depth) tokens.now) }
{
    if begins_with(tokens, Kind::OpenParen) {
        return paren_type(alloc, depth, tokens);
    }
    long_type(alloc, depth, tokens)
}

/// A type in parentheses.
#[cycle(parser)]
#[tactic(auto, using(go_grammar::proofs::Views::view_type_expr_paren))]
fn paren_type(
    alloc: Global,
    depth: usize,
    tokens: &[Token],
) -> Result<(Box<TypeExpr>, &[Token]), Stop>
    ensures { Gives (λ x. (view_type_expr x.0.value, x.1.now)) result (paren_type_in (parsers depth) tokens.now) }
{
    let Some((open, rest)) = skip(tokens, Kind::OpenParen) else {
        return Err(Stop::Unexpected);
    };
    let (inner, rest) = type_expr(alloc, depth, rest)?;
    let Some((close, rest)) = skip(rest, Kind::CloseParen) else {
        return Err(Stop::Unexpected);
    };
    let form = TypeExpr::Paren { open, inner, close };
    Ok((boxed(alloc, form)?, rest))
}

/// A type without parentheses around it.
#[cycle(parser)]
fn long_type(
    alloc: Global,
    depth: usize,
    tokens: &[Token],
) -> Result<(Box<TypeExpr>, &[Token]), Stop>
    ensures { Gives (λ x. (view_type_expr x.0.value, x.1.now)) result (long_in (parsers depth) tokens.now) }
{
    let is_name = begins_with(tokens, Kind::Name);
    if is_name {
        return named_type(alloc, tokens);
    }
    let is_pointer = begins_with(tokens, Kind::Star);
    if is_pointer {
        return pointer_type(alloc, depth, tokens);
    }
    let is_bare = begins_with_bare_type(tokens);
    if is_bare {
        return bare_type(alloc, depth, tokens);
    }
    let is_function = begins_with(tokens, Kind::FuncWord);
    if is_function {
        return function_type(alloc, depth, tokens);
    }
    chan_type(alloc, depth, tokens)
}

/// A pointer type. Go specification, "Pointer types".
#[cycle(parser)]
#[tactic(auto, using(go_grammar::proofs::Views::view_type_expr_pointer))]
fn pointer_type(
    alloc: Global,
    depth: usize,
    tokens: &[Token],
) -> Result<(Box<TypeExpr>, &[Token]), Stop>
    ensures { Gives (λ x. (view_type_expr x.0.value, x.1.now)) result (pointer_type_in (parsers depth) tokens.now) }
{
    let Some((star, rest)) = skip(tokens, Kind::Star) else {
        return Err(Stop::Unexpected);
    };
    let (base, rest) = type_expr(alloc, depth, rest)?;
    Ok((boxed(alloc, TypeExpr::Pointer { star, base })?, rest))
}

/// A function type. Go specification, "Function types".
#[cycle(parser)]
#[tactic(auto, using(go_grammar::proofs::Views::view_type_expr_function))]
fn function_type(
    alloc: Global,
    depth: usize,
    tokens: &[Token],
) -> Result<(Box<TypeExpr>, &[Token]), Stop>
    ensures { Gives (λ x. (view_type_expr x.0.value, x.1.now)) result (function_type_in (parsers depth) tokens.now) }
{
    let Some((word, rest)) = skip(tokens, Kind::FuncWord) else {
        return Err(Stop::Unexpected);
    };
    let (signature, rest) = signature(alloc, depth, rest)?;
    let signature = boxed(alloc, signature)?;
    let form = TypeExpr::Function { word, signature };
    Ok((boxed(alloc, form)?, rest))
}

/// A slice, array, map, struct or interface type.
#[cycle(parser)]
fn bare_type(
    alloc: Global,
    depth: usize,
    tokens: &[Token],
) -> Result<(Box<TypeExpr>, &[Token]), Stop>
    ensures { Gives (λ x. (view_type_expr x.0.value, x.1.now)) result (bare_in (parsers depth) tokens.now) }
{
    match tokens {
        [] => Err(Stop::Unexpected),
        [first, rest @ ..] => match first.kind {
            Kind::OpenBracket => bracket_type(alloc, depth, *first, rest),
            Kind::MapWord => map_type(alloc, depth, *first, rest),
            Kind::StructWord => struct_type(alloc, depth, *first, rest),
            Kind::InterfaceWord => interface_type(alloc, depth, *first, rest),
            _ => Err(Stop::Unexpected),
        },
    }
}

/// A slice type, or an array type. Go specification, "Slice types", "Array types".
#[cycle(parser)]
#[tactic(auto, using(go_grammar::proofs::Views::view_type_expr_slice, go_grammar::proofs::Views::view_type_expr_array))]
fn bracket_type(
    alloc: Global,
    depth: usize,
    bracket: Token,
    tokens: &[Token],
) -> Result<(Box<TypeExpr>, &[Token]), Stop>
    requires { bracket.kind ≡ kinds.OpenBracket }
    ensures { Gives (λ x. (view_type_expr x.0.value, x.1.now)) result (bare_in (parsers depth) (bracket ∷ tokens.now)) }
{
    if let Some((close, rest)) = next_if(tokens, Kind::CloseBracket) {
        let (element, rest) = type_expr(alloc, depth, rest)?;
        let form = TypeExpr::Slice {
            open: bracket,
            close,
            element,
        };
        return Ok((boxed(alloc, form)?, rest));
    }
    let (length, rest) = expr(alloc, depth, Context::Plain, LOOSE, tokens)?;
    let Some((close, rest)) = skip(rest, Kind::CloseBracket) else {
        return Err(Stop::Unexpected);
    };
    let (element, rest) = type_expr(alloc, depth, rest)?;
    let form = TypeExpr::Array {
        open: bracket,
        length,
        close,
        element,
    };
    Ok((boxed(alloc, form)?, rest))
}

/// A map type. Go specification, "Map types".
#[cycle(parser)]
#[tactic(auto, using(go_grammar::proofs::Views::view_type_expr_map))]
fn map_type(
    alloc: Global,
    depth: usize,
    word: Token,
    tokens: &[Token],
) -> Result<(Box<TypeExpr>, &[Token]), Stop>
    requires { word.kind ≡ kinds.MapWord }
    ensures { Gives (λ x. (view_type_expr x.0.value, x.1.now)) result (bare_in (parsers depth) (word ∷ tokens.now)) }
{
    let Some((open, rest)) = skip(tokens, Kind::OpenBracket) else {
        return Err(Stop::Unexpected);
    };
    let (key, rest) = type_expr(alloc, depth, rest)?;
    let Some((close, rest)) = skip(rest, Kind::CloseBracket) else {
        return Err(Stop::Unexpected);
    };
    let (element, rest) = type_expr(alloc, depth, rest)?;
    let form = TypeExpr::Map {
        word,
        open,
        key,
        close,
        element,
    };
    Ok((boxed(alloc, form)?, rest))
}

/// A channel type. Go specification, "Channel types".
#[cycle(parser)]
#[tactic(auto, using(go_grammar::proofs::Views::view_type_expr_chan, go_grammar::proofs::Views::view_type_expr_receive_chan, go_fragments::proofs::Lines::maybe_arrow))]
fn chan_type(
    alloc: Global,
    depth: usize,
    tokens: &[Token],
) -> Result<(Box<TypeExpr>, &[Token]), Stop>
    ensures { Gives (λ x. (view_type_expr x.0.value, x.1.now)) result (run (at_type (parsers depth)) chan_plan tokens.now) }
{
    if let Some((word, rest)) = next_if(tokens, Kind::ChanWord) {
        let (arrow, rest) = direction(rest);
        let (element, rest) = type_expr(alloc, depth, rest)?;
        let form = TypeExpr::Chan {
            word,
            arrow,
            element,
        };
        return Ok((boxed(alloc, form)?, rest));
    }
    let Some((arrow, rest)) = skip(tokens, Kind::Arrow) else {
        return Err(Stop::Unexpected);
    };
    let Some((word, rest)) = skip(rest, Kind::ChanWord) else {
        return Err(Stop::Unexpected);
    };
    let (element, rest) = type_expr(alloc, depth, rest)?;
    let form = TypeExpr::ReceiveChan {
        arrow,
        word,
        element,
    };
    Ok((boxed(alloc, form)?, rest))
}

/// Parameters and results. Go specification, "Function types".
#[cycle(parser)]
#[tactic(auto, using(go_grammar::proofs::Views::view_result_form_none, go_grammar::proofs::Views::view_result_form_params, go_grammar::proofs::Views::view_result_form_type_form))]
pub(crate) fn signature(
    alloc: Global,
    depth: usize,
    tokens: &[Token],
) -> Result<(Signature, &[Token]), Stop>
    ensures { Gives (λ x. (view_signature x.0, x.1.now)) result (signature_in (parsers depth) tokens.now) }
{
    let (inputs, rest) = params(alloc, depth, true, tokens)?;
    if begins_with(rest, Kind::OpenParen) {
        let (results, rest) = params(alloc, depth, false, rest)?;
        let result = ResultForm::Params(results);
        return Ok((signature_of(inputs, result), rest));
    }
    let (form, rest) = optional_type(alloc, depth, rest)?;
    let result = match form {
        Some(form) => ResultForm::TypeForm(form),
        None => ResultForm::None,
    };
    Ok((signature_of(inputs, result), rest))
}

/// A type, or nothing where none begins.
#[cycle(parser)]
pub(crate) fn optional_type(
    alloc: Global,
    depth: usize,
    tokens: &[Token],
) -> Result<(Option<Box<TypeExpr>>, &[Token]), Stop>
    ensures { Gives (λ x. (if_some (λ (y : Box TypeExpr). view_type_expr y.value) x.0, x.1.now)) result (either_in begins_type_at (parsers depth).type_expr (λ tokens. Some (empty, tokens)) tokens.now) }
{
    if !begins_with_type(tokens) {
        return Ok((None, tokens));
    }
    let (form, rest) = type_expr(alloc, depth, tokens)?;
    Ok((Some(form), rest))
}

/// Parameters, results or a receiver in parentheses; variadic ones may have `...` before their last type.
#[cycle(parser)]
pub(crate) fn params(
    alloc: Global,
    depth: usize,
    variadic: bool,
    tokens: &[Token],
) -> Result<(Params, &[Token]), Stop>
    ensures { Gives (λ x. (view_params x.0, x.1.now)) result (params_in (parsers depth) variadic tokens.now) }
{
    let Some((open, rest)) = skip(tokens, Kind::OpenParen) else {
        return Err(Stop::Unexpected);
    };
    let (list, rest) = param_entries(alloc, depth, rest)?;
    let Some((close, rest)) = skip(rest, Kind::CloseParen) else {
        return Err(Stop::Unexpected);
    };
    let params = grouped(alloc, variadic, list)?;
    Ok((params_of(open, params, close), rest))
}

/// A struct type. Go specification, "Struct types".
#[cycle(parser)]
#[tactic(auto, using(go_grammar::proofs::Views::view_type_expr_struct))]
fn struct_type(
    alloc: Global,
    depth: usize,
    word: Token,
    tokens: &[Token],
) -> Result<(Box<TypeExpr>, &[Token]), Stop>
    requires { word.kind ≡ kinds.StructWord }
    ensures { Gives (λ x. (view_type_expr x.0.value, x.1.now)) result (bare_in (parsers depth) (word ∷ tokens.now)) }
{
    let Some((open, rest)) = skip(tokens, Kind::OpenBrace) else {
        return Err(Stop::Unexpected);
    };
    let (fields, rest) = field_lines(alloc, depth, rest)?;
    let Some((close, rest)) = skip(rest, Kind::CloseBrace) else {
        return Err(Stop::Unexpected);
    };
    let form = TypeExpr::Struct {
        word,
        open,
        fields,
        close,
    };
    Ok((boxed(alloc, form)?, rest))
}

/// Fields up to a closing brace.
#[cycle(parser)]
fn field_lines(
    alloc: Global,
    depth: usize,
    tokens: &[Token],
) -> Result<(Vec<FieldLine>, &[Token]), Stop>
    ensures { Gives (λ x. (each view_field_line x.0.items, x.1.now)) result (field_lines_in (parsers depth) tokens.now) }
{
    let mut lines = Vec::new(alloc);
    let mut rest = tokens;
    for _ in 0..tokens.len() {
        if begins_with(rest, Kind::CloseBrace) {
            return Ok((lines, rest));
        }
        let (line, after) = field_line(alloc, depth, rest)?;
        lines.push(line)?;
        rest = after;
    }
    Ok((lines, rest))
}

/// A field declaration, or nothing, and the semicolon behind it.
#[cycle(parser)]
#[tactic(auto, using(go_grammar::proofs::Views::view_field_line_empty, go_grammar::proofs::Views::view_field_line_named, go_fragments::proofs::Lines::braces_end))]
fn field_line(alloc: Global, depth: usize, tokens: &[Token]) -> Result<(FieldLine, &[Token]), Stop>
    ensures { Gives (λ x. (view_field_line x.0, x.1.now)) result (field_line_in (parsers depth) tokens.now) }
{
    if let Some((semicolon, rest)) = semicolon_if(tokens) {
        return Ok((FieldLine::Empty(semicolon), rest));
    }
    if begins_with_embedded_field(tokens) {
        let Some((line, rest)) = embedded_field(tokens) else {
            return Err(Stop::Unexpected);
        };
        return Ok((line, rest));
    }
    let (names, rest) = names(alloc, tokens)?;
    let (form, rest) = type_expr(alloc, depth, rest)?;
    let (tag, rest) = optional(rest, Kind::Text);
    let Some((semicolon, rest)) = line_end(rest, Kind::CloseBrace) else {
        return Err(Stop::Unexpected);
    };
    let line = FieldLine::Named {
        names,
        form,
        tag,
        semicolon,
    };
    Ok((line, rest))
}

/// An interface type. Go specification, "Interface types".
#[cycle(parser)]
#[tactic(auto, using(go_grammar::proofs::Views::view_type_expr_interface))]
fn interface_type(
    alloc: Global,
    depth: usize,
    word: Token,
    tokens: &[Token],
) -> Result<(Box<TypeExpr>, &[Token]), Stop>
    requires { word.kind ≡ kinds.InterfaceWord }
    ensures { Gives (λ x. (view_type_expr x.0.value, x.1.now)) result (bare_in (parsers depth) (word ∷ tokens.now)) }
{
    let Some((open, rest)) = skip(tokens, Kind::OpenBrace) else {
        return Err(Stop::Unexpected);
    };
    let (elements, rest) = element_lines(alloc, depth, rest)?;
    let Some((close, rest)) = skip(rest, Kind::CloseBrace) else {
        return Err(Stop::Unexpected);
    };
    let form = TypeExpr::Interface {
        word,
        open,
        elements,
        close,
    };
    Ok((boxed(alloc, form)?, rest))
}

/// Elements of an interface up to a closing brace.
#[cycle(parser)]
fn element_lines(
    alloc: Global,
    depth: usize,
    tokens: &[Token],
) -> Result<(Vec<ElementLine>, &[Token]), Stop>
    ensures { Gives (λ x. (each view_element_line x.0.items, x.1.now)) result (element_lines_in (parsers depth) tokens.now) }
{
    let mut lines = Vec::new(alloc);
    let mut rest = tokens;
    for _ in 0..tokens.len() {
        if begins_with(rest, Kind::CloseBrace) {
            return Ok((lines, rest));
        }
        let (line, after) = element_line(alloc, depth, rest)?;
        lines.push(line)?;
        rest = after;
    }
    Ok((lines, rest))
}

/// A method or an embedded interface, or nothing, and the semicolon behind it.
#[cycle(parser)]
#[tactic(auto, using(go_grammar::proofs::Views::view_element_line_empty, go_grammar::proofs::Views::view_element_line_method, go_grammar::proofs::Views::view_element_line_embedded, go_fragments::proofs::Lines::braces_end))]
fn element_line(
    alloc: Global,
    depth: usize,
    tokens: &[Token],
) -> Result<(ElementLine, &[Token]), Stop>
    ensures { Gives (λ x. (view_element_line x.0, x.1.now)) result (element_line_in (parsers depth) tokens.now) }
{
    if let Some((semicolon, rest)) = semicolon_if(tokens) {
        return Ok((ElementLine::Empty(semicolon), rest));
    }
    if begins_with_both(tokens, Kind::Name, Kind::OpenParen) {
        let Some((name, rest)) = skip(tokens, Kind::Name) else {
            return Err(Stop::Unexpected);
        };
        let (signature, rest) = signature(alloc, depth, rest)?;
        let signature = boxed(alloc, signature)?;
        let Some((semicolon, rest)) = line_end(rest, Kind::CloseBrace) else {
            return Err(Stop::Unexpected);
        };
        let line = ElementLine::Method {
            name,
            signature,
            semicolon,
        };
        return Ok((line, rest));
    }
    let Some((name, rest)) = type_name(tokens) else {
        return Err(Stop::Unexpected);
    };
    let Some((semicolon, rest)) = line_end(rest, Kind::CloseBrace) else {
        return Err(Stop::Unexpected);
    };
    Ok((ElementLine::Embedded { name, semicolon }, rest))
}

/// Parameters as they are read, up to a closing parenthesis.
#[cycle(parser)]
fn param_entries(
    alloc: Global,
    depth: usize,
    tokens: &[Token],
) -> Result<(Vec<Entry>, &[Token]), Stop>
    ensures { Gives (λ x. (entries x.0.items, x.1.now)) result (entries_in (parsers depth) (length tokens.now) tokens.now) }
{
    let mut list = Vec::new(alloc);
    let mut rest = tokens;
    for _ in 0..tokens.len() {
        if begins_with(rest, Kind::CloseParen) {
            return Ok((list, rest));
        }
        let (entry, after) = param_entry(alloc, depth, rest)?;
        list.push(entry)?;
        rest = after;
    }
    Ok((list, rest))
}

/// A parameter as it is read: its type, a name that stands before it, and the comma behind it.
#[cycle(parser)]
fn param_entry(alloc: Global, depth: usize, tokens: &[Token]) -> Result<(Entry, &[Token]), Stop>
    ensures { Gives (λ x. (view_entry x.0, x.1.now)) result (entry_in (parsers depth) tokens.now) }
{
    let (name, rest) = param_name(tokens);
    let (ellipsis, rest) = optional(rest, Kind::Ellipsis);
    let (form, rest) = type_expr(alloc, depth, rest)?;
    let Some((comma, rest)) = separator(rest, Kind::CloseParen) else {
        return Err(Stop::Unexpected);
    };
    let entry = Entry {
        name,
        ellipsis,
        form,
        comma,
    };
    Ok((entry, rest))
}
