//! Clauses of switches and selects, but for their bodies. Go specification, "Switch statements" and "Select statements".

ghost use Rattle.std.specs.Prelude.{◌≡◌, ◌&&◌, IfOk, count_by, nat_le, Some, is_none};
ghost use Rattle.std.specs.List.{list_all};
ghost use Rattle.expr_typing.specs.Telling.{Told, at_tests};
ghost use Rattle.program_typing.specs.Telling.{Gives, Tells};
ghost use Rattle.program_typing.specs.Walk as walk;
ghost use Rattle.go_type.specs.Assignable.{underlying_term_of};
ghost use Rattle.typed_trees.specs.Around.{Around as Near};
ghost use Rattle.typed_trees.specs.Conversions.{loses_direction};
ghost use Rattle.typed_trees.specs.Statements as statement;

use crate::expressions::is_condition;
use crate::receiving::communicates;
use expr_typing::{Around, comparable, implements, is_nothing, is_own_variable, see};
use go_base::{NoMemory, TypeId, VarId};
use go_tree::{Comm, SelectClause, TypeCase, TypeClause, TypedCase, TypedClause, TypedExpr};
use go_type::{Dir, TypeTerm, Types};
use type_shapes::{is_id, is_interface};

/// What is seen of the tag of a switch: its type where there is one, and whether the types in it fit.
#[derive(Clone, Copy)]
pub struct Tag {
    pub of: Option<TypeId>,
    pub fits: bool,
}

/// The tag of a switch.
pub fn see_tag(around: Around<'_>, tag: &Option<TypedExpr>) -> Result<Tag, NoMemory>
    ensures of { (told : Told around.entry.program.now.types) → IfOk result (λ it. it.of ≡ statement.tag_of (at_tests around.entry told.tests) tag.now) }
    ensures fits { (told : Told around.entry.program.now.types) → IfOk result (λ it. it.fits ≡ statement.fits_optional (at_tests around.entry told.tests) tag.now) }
{
    match tag {
        Some(tag) => {
            let seen = see(around, tag)?;
            Ok(Tag {
                of: Some(seen.of),
                fits: seen.fits,
            })
        }
        None => Ok(Tag {
            of: None,
            fits: true,
        }),
    }
}

/// Whether the cases of clauses fit a tag of a type, or none.
pub fn have_cases(
    around: Around<'_>,
    clauses: &[TypedClause],
    tag: Option<TypeId>,
) -> Result<bool, NoMemory>
    ensures { Tells around.entry result (λ a. list_all (walk.has_cases a tag) clauses.now) }
{
    for clause in clauses {
        if !has_cases(around, clause, tag)? {
            return Ok(false);
        }
    }
    Ok(true)
}

fn has_cases(
    around: Around<'_>,
    clause: &TypedClause,
    tag: Option<TypeId>,
) -> Result<bool, NoMemory>
    ensures { Tells around.entry result (λ a. walk.has_cases a tag clause.now) }
{
    are_cases_of(around, &clause.cases, tag)
}

fn are_cases_of(
    around: Around<'_>,
    cases: &[TypedCase],
    tag: Option<TypeId>,
) -> Result<bool, NoMemory>
    ensures { Tells around.entry result (λ a. list_all (statement.is_case_of a tag) cases.now) }
{
    for case in cases {
        if !is_case_of(around, case, tag)? {
            return Ok(false);
        }
    }
    Ok(true)
}

/// Whether a case is compared with the tag, or is a condition where there is none.
fn is_case_of(around: Around<'_>, case: &TypedCase, tag: Option<TypeId>) -> Result<bool, NoMemory>
    ensures { Tells around.entry result (λ a. statement.is_case_of a tag case.now) }
{
    match tag {
        Some(tag) => is_compared(around, case, tag),
        None => is_condition_of(around, case),
    }
}

fn is_condition_of(around: Around<'_>, case: &TypedCase) -> Result<bool, NoMemory>
    ensures { Tells around.entry result (λ a. is_none case.now.tag_to && statement.is_condition a case.now.value) }
{
    let holds = is_condition(around, &case.value)?;
    Ok(lacks(case.tag_to) & holds)
}

fn lacks(to: Option<TypeId>) -> bool
    ensures { result ≡ is_none to }
{
    match to {
        Some(_) => false,
        None => true,
    }
}

fn is_compared(around: Around<'_>, case: &TypedCase, tag: TypeId) -> Result<bool, NoMemory>
    ensures { Tells around.entry result (λ a. statement.is_case_of a (Some tag) case.now) }
{
    let seen = see(around, &case.value)?;
    let tag = tag_type(around, tag, case.tag_to);
    let compares = comparable(around, seen.of) | is_nothing(seen.form);
    Ok((seen.fits & compares) & is_id(tag, seen.of))
}

/// The type of the tag, made one of an interface, or a channel of one direction, where that is told.
fn tag_type(around: Around<'_>, tag: TypeId, to: Option<TypeId>) -> Option<TypeId>
    ensures { Gives around.entry result (λ a. statement.tag_type a tag to) }
{
    match to {
        Some(to) => widened(around, tag, to),
        None => Some(tag),
    }
}

fn widened(around: Around<'_>, tag: TypeId, to: TypeId) -> Option<TypeId>
    ensures { Gives around.entry result (λ a. statement.tag_type a tag (Some to)) }
{
    if becomes(around, tag, to) {
        return Some(to);
    }
    None
}

fn becomes(around: Around<'_>, tag: TypeId, to: TypeId) -> bool
    ensures { Gives around.entry result (λ a. statement.becomes a tag to) }
{
    let types = &around.program.types;
    (is_interface(types, to) & implements(around, tag, to)) | loses_direction(types, tag, to)
}

/// Whether a channel of both directions becomes one of the same elements.
fn loses_direction(types: &Types, from: TypeId, to: TypeId) -> bool
    ensures { result ≡ loses_direction (underlying_term_of types.now from) (underlying_term_of types.now to) }
{
    match (types.underlying_term(from), types.underlying_term(to)) {
        (
            Some(
                TypeTerm::Chan {
                    dir: Dir::Both,
                    elem,
                },
            ),
            Some(TypeTerm::Chan { elem: other, .. }),
        ) => elem == other,
        _ => false,
    }
}

/// Whether the cases of the clauses of a switch over types fit an operand of a type.
pub fn have_type_cases(around: Around<'_>, clauses: &[TypeClause], operand: TypeId) -> bool
    ensures { Gives around.entry result (λ a. list_all (walk.has_type_cases a operand) clauses.now) }
{
    for clause in clauses {
        if !has_type_cases(around, clause, operand) {
            return false;
        }
    }
    true
}

fn has_type_cases(around: Around<'_>, clause: &TypeClause, operand: TypeId) -> bool
    ensures { Gives around.entry result (λ a. walk.has_type_cases a operand clause.now) }
{
    are_type_cases(around, &clause.cases, operand)
        & binds(around, &clause.cases, operand, clause.variable)
}

fn are_type_cases(around: Around<'_>, cases: &[TypeCase], operand: TypeId) -> bool
    ensures { Gives around.entry result (λ a. list_all (statement.is_type_case a operand) cases.now) }
{
    for case in cases {
        if !is_type_case(around, *case, operand) {
            return false;
        }
    }
    true
}

fn is_type_case(around: Around<'_>, case: TypeCase, operand: TypeId) -> bool
    ensures { Gives around.entry result (λ a. statement.is_type_case a operand case) }
{
    match case {
        TypeCase::Nil => true,
        TypeCase::Of(of) => {
            is_interface(&around.program.types, of) | implements(around, of, operand)
        }
    }
}

/// Whether the variable of a clause has the type of its one case, and else that of the operand.
fn binds(around: Around<'_>, cases: &[TypeCase], operand: TypeId, variable: Option<VarId>) -> bool
    ensures { Gives around.entry result (λ a. statement.binds a operand cases.now variable) }
{
    match variable {
        Some(variable) => is_own_variable(around, variable, clause_type(cases, operand)),
        None => true,
    }
}

fn clause_type(cases: &[TypeCase], operand: TypeId) -> TypeId
    ensures { (a : Near) → result ≡ statement.clause_type a operand cases.now }
{
    match cases {
        [TypeCase::Of(of)] => *of,
        _ => operand,
    }
}

/// Whether what each clause of a select waits for fits.
pub fn communicate(around: Around<'_>, clauses: &[SelectClause]) -> Result<bool, NoMemory>
    ensures { Tells around.entry result (λ a. list_all (λ it. statement.communicates a it.comm) clauses.now) }
{
    for clause in clauses {
        if !communicates(around, &clause.comm)? {
            return Ok(false);
        }
    }
    Ok(true)
}

/// Whether at most one clause of a switch is the default.
pub fn has_one_default(clauses: &[TypedClause]) -> bool
    ensures { result ≡ nat_le (count_by (λ it. it.is_default) clauses.now) 1 }
{
    clauses.iter().filter(|it| it.is_default).count() <= 1
}

/// Whether at most one clause of a switch over types is the default.
pub fn has_one_type_default(clauses: &[TypeClause]) -> bool
    ensures { result ≡ nat_le (count_by (λ it. it.is_default) clauses.now) 1 }
{
    clauses.iter().filter(|it| it.is_default).count() <= 1
}

/// Whether at most one clause of a select is the default.
pub fn has_one_default_comm(clauses: &[SelectClause]) -> bool
    ensures { (a : Near) → result ≡ nat_le (count_by (λ it. statement.is_default_comm a it.comm) clauses.now) 1 }
{
    clauses
        .iter()
        .filter(|it| matches!(it.comm, Comm::Default))
        .count()
        <= 1
}
