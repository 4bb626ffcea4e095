//! Declarations. Go specification, "Declarations and scope".

ghost use Rattle.std.specs.Prelude.{Some};
ghost use Rattle.go_ast.specs.declared.token.Kind.TheVariants as kinds;
ghost use Rattle.go_grammar.specs.Forests.{append};
ghost use Rattle.go_grammar.specs.Forests as forms;
ghost use Rattle.go_grammar.specs.Grammar as sorts;
ghost use Rattle.go_grammar.specs.StmtReading.{decl_in, at_spec};
ghost use Rattle.go_grammar.specs.View.{view_decl, view_func_decl, view_type_spec, view_value_spec, view_listed_expr, view_params, view_block, each, if_some, token_if};
ghost use Rattle.go_grammar.specs.FileReading.{parsers};
ghost use Rattle.go_fragments.specs.Giving.{Gives};
ghost use Rattle.go_readers.specs.Funcs.{func_in};
ghost use Rattle.go_fragments.specs.Specs.{view_values, view_named_form};
ghost use Rattle.go_readers.specs.Specs.{view_group, optional_values_in, value_sort, group_in, spec_line_in, spec_lines_in, parens_in, declaration_in, receiver_in, optional_receiver_in, optional_body_in};

use crate::exprs::expr_list;
use crate::stmts::block;
use crate::types::{optional_type, signature, type_expr};
use go_ast::{Kind, Token};
use go_fragments::operands::Context;
use go_fragments::parts::{
    NamedForm, ValueParts, alone, func_of, listed_names, params_of, receiver_name, receiver_param,
    type_spec_of, value_spec_of,
};
use go_fragments::stop::Stop;
use go_fragments::tokens::{
    begins_with, begins_with_type, line_end, names, next_if, optional, skip,
};
use go_syntax::{Block, Decl, FuncDecl, ListedExpr, Params, TypeSpec, ValueSpec};
use std::alloc::Global;

/// A declaration of constants, types or variables.
#[cycle(parser)]
pub fn decl(alloc: Global, depth: usize, tokens: &[Token]) -> Result<(Decl, &[Token]), Stop>
    ensures { Gives (λ x. (view_decl x.0, x.1.now)) result (decl_in (parsers depth) tokens.now) }
{
    let is_const = begins_with(tokens, Kind::ConstWord);
    if is_const {
        return const_decl(alloc, depth, tokens);
    }
    let is_type = begins_with(tokens, Kind::TypeWord);
    if is_type {
        return type_decl(alloc, depth, tokens);
    }
    var_decl(alloc, depth, tokens)
}

/// A declaration of constants. Go specification, "Constant declarations".
#[cycle(parser)]
#[tactic(auto, using(go_grammar::proofs::Views::view_decl_const))]
fn const_decl(alloc: Global, depth: usize, tokens: &[Token]) -> Result<(Decl, &[Token]), Stop>
    ensures { Gives (λ x. (view_decl x.0, x.1.now)) result (declaration_in (parsers depth) forms.ConstForm kinds.ConstWord sorts.ConstSpec tokens.now) }
{
    let Some((word, rest)) = skip(tokens, Kind::ConstWord) else {
        return Err(Stop::Unexpected);
    };
    let (group, rest) = value_specs(alloc, depth, true, rest)?;
    let decl = Decl::Const {
        word,
        open: group.opening,
        specs: group.specs,
        close: group.closing,
    };
    Ok((decl, rest))
}

/// A declaration of types. Go specification, "Type declarations".
#[cycle(parser)]
#[tactic(auto, using(go_grammar::proofs::Views::view_decl_type_decl))]
fn type_decl(alloc: Global, depth: usize, tokens: &[Token]) -> Result<(Decl, &[Token]), Stop>
    ensures { Gives (λ x. (view_decl x.0, x.1.now)) result (declaration_in (parsers depth) forms.TypeDeclForm kinds.TypeWord sorts.TypeSpec tokens.now) }
{
    let Some((word, rest)) = skip(tokens, Kind::TypeWord) else {
        return Err(Stop::Unexpected);
    };
    let (group, rest) = type_specs(alloc, depth, rest)?;
    let decl = Decl::TypeDecl {
        word,
        open: group.opening,
        specs: group.specs,
        close: group.closing,
    };
    Ok((decl, rest))
}

/// A declaration of variables. Go specification, "Variable declarations".
#[cycle(parser)]
#[tactic(auto, using(go_grammar::proofs::Views::view_decl_var))]
fn var_decl(alloc: Global, depth: usize, tokens: &[Token]) -> Result<(Decl, &[Token]), Stop>
    ensures { Gives (λ x. (view_decl x.0, x.1.now)) result (declaration_in (parsers depth) forms.VarForm kinds.VarWord sorts.VarSpec tokens.now) }
{
    let Some((word, rest)) = skip(tokens, Kind::VarWord) else {
        return Err(Stop::Unexpected);
    };
    let (group, rest) = value_specs(alloc, depth, false, rest)?;
    let decl = Decl::Var {
        word,
        open: group.opening,
        specs: group.specs,
        close: group.closing,
    };
    Ok((decl, rest))
}

/// Specifications: one, or any number of them in parentheses.
#[derive(Drop)]
struct Group<T> {
    opening: Option<Token>,
    specs: Vec<T>,
    closing: Option<Token>,
}

/// What a declaration of constants or variables declares.
#[cycle(parser)]
fn value_specs(
    alloc: Global,
    depth: usize,
    constant: bool,
    tokens: &[Token],
) -> Result<(Group<ValueSpec>, &[Token]), Stop>
    ensures { Gives (λ x. (view_group view_value_spec x.0.opening x.0.specs.items x.0.closing, x.1.now)) result (group_in (parsers depth) (value_sort constant) tokens.now) }
{
    let has_parens = begins_with(tokens, Kind::OpenParen);
    if has_parens {
        return value_group(alloc, depth, constant, tokens);
    }
    lone_value(alloc, depth, constant, tokens)
}

/// Constants or variables in parentheses.
#[cycle(parser)]
fn value_group(
    alloc: Global,
    depth: usize,
    constant: bool,
    tokens: &[Token],
) -> Result<(Group<ValueSpec>, &[Token]), Stop>
    ensures { Gives (λ x. (view_group view_value_spec x.0.opening x.0.specs.items x.0.closing, x.1.now)) result (parens_in (parsers depth) (value_sort constant) tokens.now) }
{
    let Some((opening, rest)) = skip(tokens, Kind::OpenParen) else {
        return Err(Stop::Unexpected);
    };
    let (specs, rest) = value_lines(alloc, depth, constant, rest)?;
    let Some((closing, rest)) = skip(rest, Kind::CloseParen) else {
        return Err(Stop::Unexpected);
    };
    let group = Group {
        opening: Some(opening),
        specs,
        closing: Some(closing),
    };
    Ok((group, rest))
}

/// Constants or variables of one line.
#[cycle(parser)]
#[tactic(auto, using(go_fragments::proofs::Receivers::each_alone))]
fn lone_value(
    alloc: Global,
    depth: usize,
    constant: bool,
    tokens: &[Token],
) -> Result<(Group<ValueSpec>, &[Token]), Stop>
    ensures { Gives (λ x. (view_group view_value_spec x.0.opening x.0.specs.items x.0.closing, x.1.now)) result (at_spec (parsers depth) (value_sort constant) tokens.now) }
{
    let (spec, rest) = values(alloc, depth, constant, tokens)?;
    let specs = alone(alloc, value_spec_of(spec, None))?;
    let group = Group {
        opening: None,
        specs,
        closing: None,
    };
    Ok((group, rest))
}

/// What a declaration of types declares.
#[cycle(parser)]
fn type_specs(
    alloc: Global,
    depth: usize,
    tokens: &[Token],
) -> Result<(Group<TypeSpec>, &[Token]), Stop>
    ensures { Gives (λ x. (view_group view_type_spec x.0.opening x.0.specs.items x.0.closing, x.1.now)) result (group_in (parsers depth) sorts.TypeSpec tokens.now) }
{
    let has_parens = begins_with(tokens, Kind::OpenParen);
    if has_parens {
        return type_group(alloc, depth, tokens);
    }
    lone_type(alloc, depth, tokens)
}

/// Types in parentheses.
#[cycle(parser)]
fn type_group(
    alloc: Global,
    depth: usize,
    tokens: &[Token],
) -> Result<(Group<TypeSpec>, &[Token]), Stop>
    ensures { Gives (λ x. (view_group view_type_spec x.0.opening x.0.specs.items x.0.closing, x.1.now)) result (parens_in (parsers depth) sorts.TypeSpec tokens.now) }
{
    let Some((opening, rest)) = skip(tokens, Kind::OpenParen) else {
        return Err(Stop::Unexpected);
    };
    let (specs, rest) = type_lines(alloc, depth, rest)?;
    let Some((closing, rest)) = skip(rest, Kind::CloseParen) else {
        return Err(Stop::Unexpected);
    };
    let group = Group {
        opening: Some(opening),
        specs,
        closing: Some(closing),
    };
    Ok((group, rest))
}

/// One type.
#[cycle(parser)]
#[tactic(auto, using(go_fragments::proofs::Receivers::each_alone))]
fn lone_type(
    alloc: Global,
    depth: usize,
    tokens: &[Token],
) -> Result<(Group<TypeSpec>, &[Token]), Stop>
    ensures { Gives (λ x. (view_group view_type_spec x.0.opening x.0.specs.items x.0.closing, x.1.now)) result (at_spec (parsers depth) sorts.TypeSpec tokens.now) }
{
    let (spec, rest) = named_form(alloc, depth, tokens)?;
    let specs = alone(alloc, type_spec_of(spec, None))?;
    let group = Group {
        opening: None,
        specs,
        closing: None,
    };
    Ok((group, rest))
}

/// A function or a method. Go specification, "Function declarations", "Method declarations".
pub fn func_decl(
    alloc: Global,
    depth: usize,
    tokens: &[Token],
) -> Result<(FuncDecl, &[Token]), Stop>
    ensures { Gives (λ x. (view_func_decl x.0, x.1.now)) result (func_in (parsers depth) tokens.now) }
{
    let Some((word, rest)) = skip(tokens, Kind::FuncWord) else {
        return Err(Stop::Unexpected);
    };
    let (receiver, rest) = optional_receiver(alloc, depth, rest)?;
    let Some((name, rest)) = skip(rest, Kind::Name) else {
        return Err(Stop::Unexpected);
    };
    let (signature, rest) = signature(alloc, depth, rest)?;
    let (body, rest) = optional_block(alloc, depth, rest)?;
    let func = func_of(word, receiver, name, signature, body);
    Ok((func, rest))
}

/// The body of a function, where it has one.
fn optional_block(
    alloc: Global,
    depth: usize,
    tokens: &[Token],
) -> Result<(Option<Block>, &[Token]), Stop>
    ensures { Gives (λ x. (if_some view_block x.0, x.1.now)) result (optional_body_in (parsers depth) tokens.now) }
{
    if !begins_with(tokens, Kind::OpenBrace) {
        return Ok((None, tokens));
    }
    let (body, rest) = block(alloc, depth, tokens)?;
    Ok((Some(body), rest))
}

/// The receiver of a method, where there is one.
fn optional_receiver(
    alloc: Global,
    depth: usize,
    tokens: &[Token],
) -> Result<(Option<Params>, &[Token]), Stop>
    ensures { Gives (λ x. (if_some view_params x.0, x.1.now)) result (optional_receiver_in (parsers depth) tokens.now) }
{
    if !begins_with(tokens, Kind::OpenParen) {
        return Ok((None, tokens));
    }
    let (receiver, rest) = receiver(alloc, depth, tokens)?;
    Ok((Some(receiver), rest))
}

/// One parameter in parentheses, with a name or without one.
#[tactic(auto, using(go_fragments::proofs::Receivers::each_alone))]
fn receiver(alloc: Global, depth: usize, tokens: &[Token]) -> Result<(Params, &[Token]), Stop>
    ensures { Gives (λ x. (view_params x.0, x.1.now)) result (receiver_in (parsers depth) tokens.now) }
{
    let Some((open, rest)) = skip(tokens, Kind::OpenParen) else {
        return Err(Stop::Unexpected);
    };
    let (name, rest) = receiver_name(rest);
    let (form, rest) = type_expr(alloc, depth, rest)?;
    let (comma, rest) = optional(rest, Kind::Comma);
    let Some((close, rest)) = skip(rest, Kind::CloseParen) else {
        return Err(Stop::Unexpected);
    };
    let names = listed_names(alloc, name)?;
    let params = alone(alloc, receiver_param(names, form, comma))?;
    Ok((params_of(open, params, close), rest))
}

/// Names of constants, or of variables, with their type and values.
#[cycle(parser)]
fn values(
    alloc: Global,
    depth: usize,
    constant: bool,
    tokens: &[Token],
) -> Result<(ValueParts, &[Token]), Stop>
    ensures { Gives (λ x. (view_values x.0, x.1.now)) result (at_spec (parsers depth) (value_sort constant) tokens.now) }
{
    if constant {
        let (spec, rest) = const_values(alloc, depth, tokens)?;
        return Ok((spec, rest));
    }
    let (spec, rest) = var_values(alloc, depth, tokens)?;
    Ok((spec, rest))
}

/// Names of constants with their type and values.
#[cycle(parser)]
fn const_values(
    alloc: Global,
    depth: usize,
    tokens: &[Token],
) -> Result<(ValueParts, &[Token]), Stop>
    ensures { Gives (λ x. (view_values x.0, x.1.now)) result (at_spec (parsers depth) sorts.ConstSpec tokens.now) }
{
    let (names, rest) = names(alloc, tokens)?;
    if !begins_with_type(rest) && !begins_with(rest, Kind::Assign) {
        let spec = ValueParts {
            names,
            form: None,
            assign: None,
            values: Vec::new(alloc),
        };
        return Ok((spec, rest));
    }
    let (form, rest) = optional_type(alloc, depth, rest)?;
    let Some((assign, rest)) = skip(rest, Kind::Assign) else {
        return Err(Stop::Unexpected);
    };
    let (values, rest) = expr_list(alloc, depth, Context::Plain, rest)?;
    let spec = ValueParts {
        names,
        form,
        assign: Some(assign),
        values,
    };
    Ok((spec, rest))
}

/// Names of variables with their type, their values or both.
#[cycle(parser)]
fn var_values(alloc: Global, depth: usize, tokens: &[Token]) -> Result<(ValueParts, &[Token]), Stop>
    ensures { Gives (λ x. (view_values x.0, x.1.now)) result (at_spec (parsers depth) sorts.VarSpec tokens.now) }
{
    let (names, rest) = names(alloc, tokens)?;
    if !begins_with_type(rest) {
        let Some((assign, rest)) = skip(rest, Kind::Assign) else {
            return Err(Stop::Unexpected);
        };
        let (values, rest) = expr_list(alloc, depth, Context::Plain, rest)?;
        let spec = ValueParts {
            names,
            form: None,
            assign: Some(assign),
            values,
        };
        return Ok((spec, rest));
    }
    let (form, rest) = type_expr(alloc, depth, rest)?;
    let (assign, values, rest) = optional_values(alloc, depth, rest)?;
    let spec = ValueParts {
        names,
        form: Some(form),
        assign,
        values,
    };
    Ok((spec, rest))
}

/// `=` and values, or nothing.
#[cycle(parser)]
fn optional_values(
    alloc: Global,
    depth: usize,
    tokens: &[Token],
) -> Result<(Option<Token>, Vec<ListedExpr>, &[Token]), Stop>
    ensures { Gives (λ x. (append (token_if x.0) (each view_listed_expr x.1.items), x.2.now)) result (optional_values_in (parsers depth) tokens.now) }
{
    let Some((assign, rest)) = next_if(tokens, Kind::Assign) else {
        return Ok((None, Vec::new(alloc), tokens));
    };
    let (values, rest) = expr_list(alloc, depth, Context::Plain, rest)?;
    Ok((Some(assign), values, rest))
}

/// A name and its type.
#[cycle(parser)]
fn named_form(alloc: Global, depth: usize, tokens: &[Token]) -> Result<(NamedForm, &[Token]), Stop>
    ensures { Gives (λ x. (view_named_form x.0, x.1.now)) result (at_spec (parsers depth) sorts.TypeSpec tokens.now) }
{
    let Some((name, rest)) = skip(tokens, Kind::Name) else {
        return Err(Stop::Unexpected);
    };
    let (assign, rest) = optional(rest, Kind::Assign);
    let (form, rest) = type_expr(alloc, depth, rest)?;
    let spec = NamedForm { name, assign, form };
    Ok((spec, rest))
}

/// Constants or variables, and the semicolon behind them.
#[cycle(parser)]
#[tactic(auto, using(go_fragments::proofs::Lines::parens_end))]
fn value_line(
    alloc: Global,
    depth: usize,
    constant: bool,
    tokens: &[Token],
) -> Result<(ValueSpec, &[Token]), Stop>
    ensures { Gives (λ x. (view_value_spec x.0, x.1.now)) result (spec_line_in (parsers depth) (value_sort constant) tokens.now) }
{
    let (spec, rest) = values(alloc, depth, constant, tokens)?;
    let Some((semicolon, rest)) = line_end(rest, Kind::CloseParen) else {
        return Err(Stop::Unexpected);
    };
    Ok((value_spec_of(spec, semicolon), rest))
}

/// Constants or variables up to a closing parenthesis.
#[cycle(parser)]
fn value_lines(
    alloc: Global,
    depth: usize,
    constant: bool,
    tokens: &[Token],
) -> Result<(Vec<ValueSpec>, &[Token]), Stop>
    ensures { Gives (λ x. (each view_value_spec x.0.items, x.1.now)) result (spec_lines_in (parsers depth) (value_sort constant) tokens.now) }
{
    let mut lines = Vec::new(alloc);
    let mut rest = tokens;
    for _ in 0..tokens.len() {
        if begins_with(rest, Kind::CloseParen) {
            return Ok((lines, rest));
        }
        let (line, after) = value_line(alloc, depth, constant, rest)?;
        lines.push(line)?;
        rest = after;
    }
    Ok((lines, rest))
}

/// A type, and the semicolon behind it.
#[cycle(parser)]
#[tactic(auto, using(go_fragments::proofs::Lines::parens_end))]
fn type_line(alloc: Global, depth: usize, tokens: &[Token]) -> Result<(TypeSpec, &[Token]), Stop>
    ensures { Gives (λ x. (view_type_spec x.0, x.1.now)) result (spec_line_in (parsers depth) sorts.TypeSpec tokens.now) }
{
    let (spec, rest) = named_form(alloc, depth, tokens)?;
    let Some((semicolon, rest)) = line_end(rest, Kind::CloseParen) else {
        return Err(Stop::Unexpected);
    };
    Ok((type_spec_of(spec, semicolon), rest))
}

/// Types up to a closing parenthesis.
#[cycle(parser)]
fn type_lines(
    alloc: Global,
    depth: usize,
    tokens: &[Token],
) -> Result<(Vec<TypeSpec>, &[Token]), Stop>
    ensures { Gives (λ x. (each view_type_spec x.0.items, x.1.now)) result (spec_lines_in (parsers depth) sorts.TypeSpec tokens.now) }
{
    let mut lines = Vec::new(alloc);
    let mut rest = tokens;
    for _ in 0..tokens.len() {
        if begins_with(rest, Kind::CloseParen) {
            return Ok((lines, rest));
        }
        let (line, after) = type_line(alloc, depth, rest)?;
        lines.push(line)?;
        rest = after;
    }
    Ok((lines, rest))
}
