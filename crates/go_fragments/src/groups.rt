//! Parameters put together with their names, and fields without names of their own.

ghost use Rattle.std.specs.Prelude.{◌≡◌, Some, None};
ghost use Rattle.go_grammar.specs.Forests.{empty};
ghost use Rattle.go_grammar.specs.TypeReading.{begins_embedded, embedded_behind, begins_named_param, param_name_in, has_names, param_of, is_none, name_of_type, groups_of, types_of, params_of};
ghost use Rattle.go_grammar.specs.View.{view_field_line, view_param, view_listed_name, view_type_expr, view_named, each};
ghost use Rattle.go_grammar.specs.FileReading.{parsers};
ghost use Rattle.go_fragments.specs.Giving.{Gives, Reads};
ghost use Rattle.go_fragments.specs.Entries.{view_entry, entries, are_dots_allowed, closed_groups, group_turn, local_name, type_turn};
ghost use Rattle.go_fragments.specs.Lines.{embedded_line_in};

use crate::stop::Stop;
use crate::tokens::{
    begins_with, begins_with_semicolon, begins_with_type, line_end, optional, type_name,
};
use go_ast::{Kind, Token};
use go_syntax::{FieldLine, ListedName, NamedType, Param, TypeExpr};
use std::alloc::Global;

/// What was read of a parameter: its type, and a name that stands before it. A name that has its type further behind is
/// read as a type.
#[derive(Drop)]
pub struct Entry {
    pub name: Option<Token>,
    pub ellipsis: Option<Token>,
    pub form: Box<TypeExpr>,
    pub comma: Option<Token>,
}

/// Whether `T` or `*T` stands here in place of fields with names.
pub fn begins_with_embedded_field(tokens: &[Token]) -> bool
    ensures { result ≡ begins_embedded tokens.now }
{
    match tokens {
        [] => false,
        [first, rest @ ..] => {
            first.kind == Kind::Star || (first.kind == Kind::Name && ends_embedded_field(rest))
        }
    }
}

/// Whether what stands here ends a field without names of its own.
fn ends_embedded_field(tokens: &[Token]) -> bool
    ensures { result ≡ embedded_behind tokens.now }
{
    begins_with(tokens, Kind::Dot)
        || begins_with(tokens, Kind::Text)
        || begins_with_semicolon(tokens)
        || begins_with(tokens, Kind::CloseBrace)
}

/// `T` or `*T` as a field, and the semicolon behind it.
#[tactic(auto, using(go_grammar::proofs::Views::view_field_line_embedded, crate::proofs::Lines::braces_end))]
pub fn embedded_field(tokens: &[Token]) -> Option<(FieldLine, &[Token])>
    ensures { Reads (λ x. (view_field_line x.0, x.1.now)) result (embedded_line_in (parsers 0) tokens.now) }
{
    let (star, rest) = optional(tokens, Kind::Star);
    let (name, rest) = type_name(rest)?;
    let (tag, rest) = optional(rest, Kind::Text);
    let (semicolon, rest) = line_end(rest, Kind::CloseBrace)?;
    let line = FieldLine::Embedded {
        star,
        name,
        tag,
        semicolon,
    };
    Some((line, rest))
}

/// Whether a name stands here before its type.
fn begins_with_named_param(tokens: &[Token]) -> bool
    ensures { result ≡ begins_named_param tokens.now }
{
    match tokens {
        [] => false,
        [first, rest @ ..] => {
            first.kind == Kind::Name
                && (begins_with_type(rest) || begins_with(rest, Kind::Ellipsis))
        }
    }
}

/// The name of a parameter that stands before its type, where there is one.
pub fn param_name(tokens: &[Token]) -> (Option<Token>, &[Token])
    ensures { param_name_in tokens.now ≡ (result.0, result.1.now) }
{
    match tokens {
        [first, rest @ ..] if begins_with_named_param(tokens) => (Some(*first), rest),
        _ => (None, tokens),
    }
}

/// Whether any of these has a name.
fn has_names(list: &[Entry]) -> bool
    ensures { result ≡ has_names (entries list.now) }
{
    let mut rest = list;
    while let [first, after @ ..] = rest {
        if first.name.is_some() {
            return true;
        }
        rest = after;
    }
    false
}

/// Parameters with their names, and the names of the next.
#[derive(Drop)]
struct Groups {
    params: Vec<Param>,
    names: Vec<ListedName>,
}

/// Whether `...` may stand before this type, or does not.
fn is_ellipsis_allowed(ellipsis: Option<Token>, allowed: bool) -> bool
    ensures { result ≡ are_dots_allowed allowed ellipsis }
{
    match ellipsis {
        None => true,
        Some(_) => allowed,
    }
}

/// Whether no name is left.
fn has_no_name(names: &[ListedName]) -> bool
    ensures { result ≡ is_none (each view_listed_name names.now) }
{
    match names {
        [] => true,
        [_, ..] => false,
    }
}

/// A parameter of what was read.
#[tactic(auto, using(go_grammar::proofs::Views::view_param_made))]
fn param_of(names: Vec<ListedName>, entry: Entry) -> Param
    ensures { view_param result ≡ param_of (each view_listed_name names.items) (view_entry entry) }
{
    Param {
        names,
        ellipsis: entry.ellipsis,
        form: entry.form,
        comma: entry.comma,
    }
}

/// The name that alone was read as a type.
#[tactic(auto, using(go_grammar::proofs::Views::view_type_expr_name))]
fn local_name(form: &TypeExpr) -> Option<Token>
    ensures { result ≡ local_name (view_type_expr form.now) }
{
    match form {
        TypeExpr::Name(name) => name_of_this_package(*name),
        _ => None,
    }
}

/// A name that stands without a package before it.
fn name_of_this_package(name: NamedType) -> Option<Token>
    ensures { result ≡ local_name (view_named name) }
{
    match name {
        NamedType::Local(name) => Some(name),
        NamedType::Imported { .. } => None,
    }
}

/// A name that was read as a type, and the comma behind it.
#[tactic(auto, using(crate::proofs::Grouping::name_by_parts))]
fn name_read_as_type(entry: &Entry) -> Option<ListedName>
    ensures { Reads view_listed_name result (name_of_type entry.now.ellipsis (view_type_expr entry.now.form.value) entry.now.comma) }
{
    match (entry.ellipsis, local_name(&entry.form), entry.comma) {
        (None, Some(name), Some(comma)) => Some(ListedName {
            name,
            comma: Some(comma),
        }),
        _ => None,
    }
}

/// One more entry: a name of a later parameter, or a parameter with its last name.
fn with_entry(alloc: Global, groups: Groups, allowed: bool, entry: Entry) -> Result<Groups, Stop>
    ensures { Gives (λ x. (each view_param x.params.items, each view_listed_name x.names.items)) result (group_turn allowed (each view_param groups.params.items) (each view_listed_name groups.names.items) (view_entry entry)) }
{
    match entry.name {
        None => with_name(groups, allowed, &entry),
        Some(name) => with_param(alloc, groups, allowed, name, entry),
    }
}

/// A name of a later parameter.
#[tactic(auto, using(crate::proofs::Grouping::name_turn, crate::proofs::Grouping::name_turn_fails))]
fn with_name(groups: Groups, allowed: bool, entry: &Entry) -> Result<Groups, Stop>
    requires { entry.now.name ≡ None }
    ensures { Gives (λ x. (each view_param x.params.items, each view_listed_name x.names.items)) result (group_turn allowed (each view_param groups.params.items) (each view_listed_name groups.names.items) (view_entry entry.now)) }
{
    let Some(name) = name_read_as_type(entry) else {
        return Err(Stop::Unexpected);
    };
    let params = groups.params;
    let mut names = groups.names;
    names.push(name)?;
    Ok(Groups { params, names })
}

/// A parameter with its last name.
#[tactic(auto, using(crate::proofs::Grouping::param_turn, crate::proofs::Grouping::param_turn_stops))]
fn with_param(
    alloc: Global,
    groups: Groups,
    allowed: bool,
    name: Token,
    entry: Entry,
) -> Result<Groups, Stop>
    requires { entry.name ≡ Some name }
    ensures { Gives (λ x. (each view_param x.params.items, each view_listed_name x.names.items)) result (group_turn allowed (each view_param groups.params.items) (each view_listed_name groups.names.items) (view_entry entry)) }
{
    let mut params = groups.params;
    let mut names = groups.names;
    let is_first = has_no_name(&names);
    let is_allowed = is_ellipsis_allowed(entry.ellipsis, allowed && is_first);
    if !is_allowed {
        return Err(Stop::Unexpected);
    }
    names.push(ListedName { name, comma: None })?;
    params.push(param_of(names, entry))?;
    let names = Vec::new(alloc);
    Ok(Groups { params, names })
}

/// The parameters, where no name is left.
fn closed(groups: Groups) -> Option<Vec<Param>>
    ensures { Reads (λ x. each view_param x.items) result (closed_groups (each view_param groups.params.items) (each view_listed_name groups.names.items)) }
{
    if has_no_name(&groups.names) {
        return Some(groups.params);
    }
    None
}

/// Parameters that have names: those read as types are names of the next parameter.
#[tactic(auto, using(crate::proofs::Grouping::groups_start, crate::proofs::Grouping::groups_go_on, crate::proofs::Grouping::groups_fail, crate::proofs::Grouping::groups_end, crate::proofs::Grouping::groups_end_fails))]
fn with_names(alloc: Global, variadic: bool, list: Vec<Entry>) -> Result<Vec<Param>, Stop>
    ensures { Gives (λ x. each view_param x.items) result (groups_of variadic empty (entries list.items)) }
{
    let mut front = list;
    let params = Vec::new(alloc);
    let names = Vec::new(alloc);
    let mut groups = Groups { params, names };
    let Some(last) = front.pop() else {
        return Ok(groups.params);
    };
    for entry in front {
        groups = with_entry(alloc, groups, false, entry)?;
    }
    let whole = with_entry(alloc, groups, variadic, last)?;
    let Some(params) = closed(whole) else {
        return Err(Stop::Unexpected);
    };
    Ok(params)
}

/// A parameter without a name.
fn without_name(alloc: Global, allowed: bool, entry: Entry) -> Option<Param>
    ensures { Reads view_param result (type_turn allowed (view_entry entry)) }
{
    if is_ellipsis_allowed(entry.ellipsis, allowed) {
        return Some(param_of(Vec::new(alloc), entry));
    }
    None
}

/// Parameters without names.
#[tactic(auto, using(crate::proofs::Grouping::types_start, crate::proofs::Grouping::types_go_on, crate::proofs::Grouping::types_fail, crate::proofs::Grouping::types_end, crate::proofs::Grouping::types_end_none))]
fn without_names(alloc: Global, variadic: bool, list: Vec<Entry>) -> Result<Vec<Param>, Stop>
    ensures { Gives (λ x. each view_param x.items) result (types_of variadic (entries list.items)) }
{
    let mut front = list;
    let mut params = Vec::with_capacity(alloc, front.len())?;
    let Some(last) = front.pop() else {
        return Ok(params);
    };
    for entry in front {
        let Some(param) = without_name(alloc, false, entry) else {
            return Err(Stop::Unexpected);
        };
        params.push(param)?;
    }
    let Some(final_param) = without_name(alloc, variadic, last) else {
        return Err(Stop::Unexpected);
    };
    params.push(final_param)?;
    Ok(params)
}

/// The parameters of what was read. Go specification, "Function types".
pub fn grouped(alloc: Global, variadic: bool, list: Vec<Entry>) -> Result<Vec<Param>, Stop>
    ensures { Gives (λ x. each view_param x.items) result (params_of variadic (entries list.items)) }
{
    if has_names(&list) {
        return with_names(alloc, variadic, list);
    }
    without_names(alloc, variadic, list)
}
