//! Expressions in statements. Go specification, "Statements".

ghost use Rattle.std.specs.Prelude.{◌≡◌, ◌++◌, ◌∷◌, [], IfOk, OnOk};
ghost use Rattle.expr_typing.specs.Telling.{at_tests};
ghost use Rattle.go_type.specs.Assignable.{underlying_term_of};
ghost use Rattle.go_type.specs.Same.{same_ids};
ghost use Rattle.program_typing.specs.Telling.{Gives, Tells};
ghost use Rattle.type_shapes.specs.Shapes as shape;
ghost use Rattle.program_typing.specs.Walk.{is_one_of_own};
ghost use Rattle.typed_trees.specs.Expressions as tree;
ghost use Rattle.typed_trees.specs.Statements as statement;
ghost use Rattle.typed_trees.specs.Tests.{Tests};

use expr_typing::{
    Around, can_be_set, fits_binary, is_call, is_own_variable, see, see_values, variable_at,
};
use go_base::{NoMemory, TypeId, VarId};
use go_tree::{TypedExpr, Values};
use go_type::{BinaryOp, TypeTerm, Types};
use type_shapes::{is_id, is_truth, may_receive, may_send};

/// Whether the types in an expression fit.
pub fn fits_expr(around: Around<'_>, expr: &TypedExpr) -> Result<bool, NoMemory>
    ensures { Tells around.entry result (λ a. statement.fits_expr a expr.now) }
{
    let seen = see(around, expr)?;
    Ok(seen.fits)
}

/// Whether an expression is a condition. Go specification, "If statements" and "For statements".
pub fn is_condition(around: Around<'_>, expr: &TypedExpr) -> Result<bool, NoMemory>
    ensures { Tells around.entry result (λ a. statement.is_condition a expr.now) }
{
    let seen = see(around, expr)?;
    Ok(seen.fits & is_truth(&around.program.types, seen.of))
}

/// Whether a condition is left out, or is one.
pub fn is_condition_if(around: Around<'_>, expr: &Option<TypedExpr>) -> Result<bool, NoMemory>
    ensures { Tells around.entry result (λ a. statement.is_condition_if a expr.now) }
{
    match expr {
        Some(expr) => is_condition(around, expr),
        None => Ok(true),
    }
}

/// Whether a value may be sent on a channel. Go specification, "Send statements".
pub fn sends(around: Around<'_>, channel: &TypedExpr, value: &TypedExpr) -> Result<bool, NoMemory>
    ensures { Tells around.entry result (λ a. statement.sends a channel.now value.now) }
{
    let channel = see(around, channel)?;
    let value = see(around, value)?;
    let elem = sent_elem(&around.program.types, channel.of);
    Ok(channel.fits & (value.fits & is_id(elem, value.of)))
}

/// The elements of a channel that may be sent to.
fn sent_elem(types: &Types, channel: TypeId) -> Option<TypeId>
    ensures { result ≡ shape.sent_elem (underlying_term_of types.now channel) }
{
    match types.underlying_term(channel) {
        Some(TypeTerm::Chan { dir, elem }) if may_send(*dir) => Some(*elem),
        _ => None,
    }
}

/// The elements of a channel that may be received from.
pub fn received_elem(types: &Types, channel: TypeId) -> Option<TypeId>
    ensures { result ≡ shape.received_elem (underlying_term_of types.now channel) }
{
    match types.underlying_term(channel) {
        Some(TypeTerm::Chan { dir, elem }) if may_receive(*dir) => Some(*elem),
        _ => None,
    }
}

/// Whether variables are declared with values of their types, or with none. Go specification, "Variable declarations".
pub fn declares(
    around: Around<'_>,
    ids: &[VarId],
    values: &Option<Values>,
) -> Result<bool, NoMemory>
    ensures { Tells around.entry result (λ a. statement.declares a ids.now values.now) }
{
    match values {
        Some(values) => declares_with(around, ids, values),
        None => Ok(own_variables(around, ids)),
    }
}

fn declares_with(around: Around<'_>, ids: &[VarId], values: &Values) -> Result<bool, NoMemory>
    ensures { Tells around.entry result (λ a. statement.declares a ids.now (Some values.now)) }
{
    let types = variable_types(around, ids)?;
    let are = values_are(around, values, types.as_slice())?;
    Ok(own_variables(around, ids) & are)
}

/// Whether each is a variable of the function itself.
fn own_variables(around: Around<'_>, ids: &[VarId]) -> bool
    ensures { Gives around.entry result (λ a. statement.own_variables a ids.now) }
{
    for id in ids {
        if !is_one_of_own(around, *id) {
            return false;
        }
    }
    true
}

fn is_one_of_own(around: Around<'_>, id: VarId) -> bool
    ensures { Gives around.entry result (λ a. is_one_of_own a id) }
{
    match variable_at(around, id) {
        Some(it) => is_own_variable(around, id, it.of),
        None => false,
    }
}

/// The types of variables.
pub fn variable_types(around: Around<'_>, ids: &[VarId]) -> Result<Vec<TypeId>, NoMemory>
    ensures { (tests : Tests) → IfOk result (λ types. types.items ≡ statement.variable_types (at_tests around.entry tests) ids.now) }
{
    let mut types = Vec::new(around.alloc);
    for id in ids {
        push_type(around, *id, &mut types)?;
    }
    Ok(types)
}

fn push_type(around: Around<'_>, id: VarId, types: &mut Vec<TypeId>) -> Result<(), NoMemory>
    ensures { (tests : Tests) → OnOk result (types.new.items ≡ types.old.items ++ statement.variable_types (at_tests around.entry tests) (id ∷ [])) }
{
    match variable_at(around, id) {
        Some(it) => {
            types.push(it.of)?;
            Ok(())
        }
        None => Ok(()),
    }
}

/// Whether values have these types.
pub fn values_are(around: Around<'_>, values: &Values, types: &[TypeId]) -> Result<bool, NoMemory>
    ensures { Tells around.entry result (λ a. statement.values_are a (tree.seen_values a values.now) types.now) }
{
    let seen = see_values(around, values)?;
    Ok(seen.fits & are_same(seen.types.as_slice(), types))
}

fn are_same(types: &[TypeId], others: &[TypeId]) -> bool
    ensures { result ≡ same_ids types.now others.now }
{
    types == others
}

/// Whether an operator may change a place by a value. Go specification, "IncDec statements" and "Assignment statements".
pub fn operates_on(
    around: Around<'_>,
    op: BinaryOp,
    place: &TypedExpr,
    value: &TypedExpr,
) -> Result<bool, NoMemory>
    ensures { Tells around.entry result (λ a. statement.operates_on a op place.now value.now) }
{
    let place = see(around, place)?;
    let value = see(around, value)?;
    let fits = fits_binary(around, op, place.of, value.of, place.of);
    Ok(can_be_set(place.form) & (place.fits & (value.fits & fits)))
}

/// Whether an expression is a call. Go specification, "Go statements" and "Defer statements".
pub fn is_call_of(around: Around<'_>, call: &TypedExpr) -> Result<bool, NoMemory>
    ensures { Tells around.entry result (λ a. statement.is_call_of a call.now) }
{
    let seen = see(around, call)?;
    Ok(is_call(seen.form) & seen.fits)
}

/// Whether values are returned for results of these types, or none. Go specification, "Return statements".
pub fn returns(
    around: Around<'_>,
    values: &Option<Values>,
    results: &[TypeId],
) -> Result<bool, NoMemory>
    ensures { Tells around.entry result (λ a. statement.returns a values.now results.now) }
{
    match values {
        Some(values) => values_are(around, values, results),
        None => Ok(true),
    }
}
