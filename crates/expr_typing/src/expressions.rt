//! Whether the types in an expression fit. Go specification, "Expressions".

ghost use Rattle.std.specs.Prelude.{◌≡◌, slice_get, IfOk};
ghost use Rattle.std.specs.List.{list_all};
ghost use Rattle.go_type.specs.Assignable.{underlying_term_of};
ghost use Rattle.go_type.specs.Table.{term_at};
ghost use Rattle.expr_typing.specs.Parts.{item_fits, entry_fits};
ghost use Rattle.expr_typing.specs.Telling.{Told, at_tests};
ghost use Rattle.expr_typing.specs.Trees as tree;
ghost use Rattle.type_shapes.specs.Shapes as shape;
ghost use Rattle.typed_trees.specs.Expressions.{seen, seen_values};
ghost use Rattle.typed_trees.specs.Nodes.{fits_set_field, fits_comparison};

use crate::around::{Around, function_type, is_variable, literal_type};
use crate::builtins::fits_built_in;
use crate::calls::{callee_signature, fits_call};
use crate::conversions::fits_conversion;
use crate::forms::{form_of, is_nothing};
use crate::literals::{are_fields, are_items, is_of, item_type, key_type, value_type};
use crate::nodes::{
    fits_constant, fits_deref, fits_field, fits_index, fits_map_index, fits_method,
    fits_method_expression, fits_nil, fits_sliced, has_integers, takes_max,
};
use crate::operators::{
    fits_address, fits_assertion, fits_binary, fits_boxing, fits_comparison, fits_logic,
    fits_receive, fits_unary,
};
use go_base::{NoMemory, TypeId};
use go_tree::{Callee, Elements, EntryInit, ExprKind, FieldInit, ItemInit, TypedExpr, Values};
use go_type::{CompareOp, Types};
use type_shapes::{field_of, is_id, is_map, is_slice, parts};

/// What is asked of the values of a composite literal: whether they fit, or whether they do where they are made of the
/// parts of several values of types.
#[derive(Clone, Copy)]
pub enum Asked<'a> {
    Whole,
    Part(&'a [TypeId]),
}

/// Whether the types in an expression fit.
#[cycle(fits)]
#[tactic(auto, using(crate::proofs::Layers::fits_rules))]
pub fn fits(around: Around<'_>, expr: &TypedExpr) -> Result<bool, NoMemory>
    ensures { (told : Told around.entry.program.now.types) → IfOk result (λ r. r ≡ (seen (at_tests around.entry told.tests) expr.now).fits) }
{
    let of = expr.of;
    match &expr.kind {
        ExprKind::ConstOf(value) => Ok(fits_constant(around, value, of)),
        ExprKind::NilOf => Ok(fits_nil(around, of)),
        ExprKind::VarOf(variable) => Ok(is_variable(around, *variable, of)),
        ExprKind::FunctionOf(function) => Ok(is_id(function_type(around, *function), of)),
        ExprKind::LiteralOf(function) => Ok(is_id(literal_type(around, *function), of)),
        ExprKind::MethodValue { receiver, method } => {
            Ok(fits_method(around, *method, receiver.of, of) & fits(around, receiver)?)
        }
        ExprKind::MethodExpr {
            receiver,
            name,
            package,
        } => fits_method_expression(around, *receiver, *name, *package, of),
        ExprKind::FieldOf { operand, field } => {
            Ok(fits_field(around, *field, operand.of, of) & fits(around, operand)?)
        }
        ExprKind::IndexOf {
            base,
            operand,
            index,
        } => Ok(
            fits_index(around, *base, operand.of, index.of, of)
                & (fits(around, operand)? & fits(around, index)?),
        ),
        ExprKind::MapIndex { map, key, comma_ok } => {
            Ok(
                fits_map_index(around, map.of, key.of, *comma_ok, of)
                    & (fits(around, map)? & fits(around, key)?),
            )
        }
        ExprKind::SliceOf {
            base,
            operand,
            low,
            high,
            max,
        } => Ok(
            fits_sliced(around, *base, operand.of, of)
                & (fits(around, operand)?
                    & (fits_bound(around, low)?
                        & (fits_bound(around, high)?
                            & (fits_bound(around, max)? & takes_max(*base, max.is_some()))))),
        ),
        ExprKind::Deref(operand) => {
            Ok(fits_deref(around, operand.of, of) & fits(around, operand)?)
        }
        ExprKind::AddressOf(operand) => {
            Ok(fits_address(around, form_of(operand), operand.of, of) & fits(around, operand)?)
        }
        ExprKind::UnaryOf { op, operand } => {
            Ok(fits_unary(around, *op, operand.of, of) & fits(around, operand)?)
        }
        ExprKind::BinaryOf { op, left, right } => {
            Ok(
                fits_binary(around, *op, left.of, right.of, of)
                    & (fits(around, left)? & fits(around, right)?),
            )
        }
        ExprKind::CompareOf { op, left, right } => Ok(
            may_compare(around, *op, left, right, of)
                & (fits(around, left)? & fits(around, right)?),
        ),
        ExprKind::AndAlso { left, right } => Ok(
            fits_logic(around, left.of, right.of, of)
                & (fits(around, left)? & fits(around, right)?),
        ),
        ExprKind::OrElse { left, right } => Ok(
            fits_logic(around, left.of, right.of, of)
                & (fits(around, left)? & fits(around, right)?),
        ),
        ExprKind::Receive { channel, comma_ok } => {
            Ok(fits_receive(around, channel.of, *comma_ok, of) & fits(around, channel)?)
        }
        ExprKind::CallOf { callee, arguments } => Ok(
            fits_call(around, callee_signature(around, callee), arguments, of)
                & (fits_callee(around, callee)? & fits_values(around, arguments)?),
        ),
        ExprKind::BuiltinOf {
            builtin,
            form,
            arguments,
            spread,
        } => Ok(
            fits_built_in(around, *builtin, *form, *spread, arguments, of)
                & fits_all(around, arguments)?,
        ),
        ExprKind::ConvertTo(operand) => {
            Ok(fits_conversion(around, operand.of, of) & fits(around, operand)?)
        }
        ExprKind::ToInterface(operand) => {
            Ok(fits_boxing(around, operand.of, of) & fits(around, operand)?)
        }
        ExprKind::AssertTo {
            operand,
            to,
            comma_ok,
        } => Ok(fits_assertion(around, operand.of, *to, *comma_ok, of) & fits(around, operand)?),
        ExprKind::CompositeOf(elements) => fits_elements(around, Asked::Whole, elements, of),
        ExprKind::PartOf(_) => Ok(false),
    }
}

/// Whether the types in an expression fit where it is made of the parts of several values of types.
#[cycle(fits)]
#[tactic(auto, using(crate::proofs::Layers::part_rules))]
pub fn fits_part_of(
    around: Around<'_>,
    expr: &TypedExpr,
    types: &[TypeId],
) -> Result<bool, NoMemory>
    ensures { (told : Told around.entry.program.now.types) → IfOk result (λ r. r ≡ (seen (at_tests around.entry told.tests) expr.now).fits_part types.now) }
{
    let of = expr.of;
    match &expr.kind {
        ExprKind::NilOf => Ok(fits_nil(around, of)),
        ExprKind::PartOf(part) => Ok(is_part(types, *part, of)),
        ExprKind::ConvertTo(operand) => {
            Ok(fits_conversion(around, operand.of, of) & fits_part_of(around, operand, types)?)
        }
        ExprKind::ToInterface(operand) => {
            Ok(fits_boxing(around, operand.of, of) & fits_part_of(around, operand, types)?)
        }
        ExprKind::CompositeOf(elements) => Ok(
            is_slice(&around.program.types, of)
                & fits_elements(around, Asked::Part(types), elements, of)?,
        ),
        ExprKind::ConstOf(_)
        | ExprKind::VarOf(_)
        | ExprKind::FunctionOf(_)
        | ExprKind::LiteralOf(_)
        | ExprKind::MethodValue { .. }
        | ExprKind::MethodExpr { .. }
        | ExprKind::FieldOf { .. }
        | ExprKind::IndexOf { .. }
        | ExprKind::MapIndex { .. }
        | ExprKind::SliceOf { .. }
        | ExprKind::Deref(_)
        | ExprKind::AddressOf(_)
        | ExprKind::UnaryOf { .. }
        | ExprKind::BinaryOf { .. }
        | ExprKind::CompareOf { .. }
        | ExprKind::AndAlso { .. }
        | ExprKind::OrElse { .. }
        | ExprKind::Receive { .. }
        | ExprKind::CallOf { .. }
        | ExprKind::BuiltinOf { .. }
        | ExprKind::AssertTo { .. } => Ok(false),
    }
}

/// Whether the part of a number has a type.
fn is_part(types: &[TypeId], part: u32, of: TypeId) -> bool
    ensures { result ≡ shape.is_id (slice_get types.now part) of }
{
    match types.get(part as usize) {
        Some(at) => *at == of,
        None => false,
    }
}

/// Whether two operands may be compared.
#[tactic(auto, using(crate::proofs::Layers::of_is, crate::proofs::Lists::comparison_rules))]
fn may_compare(
    around: Around<'_>,
    op: CompareOp,
    left: &TypedExpr,
    right: &TypedExpr,
    of: TypeId,
) -> bool
    ensures { (told : Told around.entry.program.now.types) → result ≡ fits_comparison (at_tests around.entry told.tests) op (seen (at_tests around.entry told.tests) left.now) (seen (at_tests around.entry told.tests) right.now) of }
{
    let is_nil = is_nothing(form_of(left)) | is_nothing(form_of(right));
    fits_comparison(around, op, left.of, right.of, is_nil, of)
}

/// A place in a slice expression, where it is not left out.
#[cycle(fits)]
#[tactic(auto, using(crate::proofs::Layers::of_is))]
fn fits_bound(around: Around<'_>, expr: &Option<Box<TypedExpr>>) -> Result<bool, NoMemory>
    ensures { (told : Told around.entry.program.now.types) → IfOk result (λ r. r ≡ tree.bound_fits (at_tests around.entry told.tests) expr.now) }
{
    match expr {
        Some(expr) => Ok(has_integers(around, expr.of) & fits(around, expr)?),
        None => Ok(true),
    }
}

#[cycle(fits)]
fn fits_all(around: Around<'_>, exprs: &[TypedExpr]) -> Result<bool, NoMemory>
    ensures { (told : Told around.entry.program.now.types) → IfOk result (λ r. r ≡ list_all (λ x. (seen (at_tests around.entry told.tests) x).fits) exprs.now) }
{
    for expr in exprs {
        if !fits(around, expr)? {
            return Ok(false);
        }
    }
    Ok(true)
}

#[cycle(fits)]
fn fit_parts(around: Around<'_>, exprs: &[TypedExpr], types: &[TypeId]) -> Result<bool, NoMemory>
    ensures { (told : Told around.entry.program.now.types) → IfOk result (λ r. r ≡ list_all (λ x. (seen (at_tests around.entry told.tests) x).fits_part types.now) exprs.now) }
{
    for expr in exprs {
        if !fits_part_of(around, expr, types)? {
            return Ok(false);
        }
    }
    Ok(true)
}

#[cycle(fits)]
#[tactic(auto, using(crate::proofs::Layers::callee_fits))]
fn fits_callee(around: Around<'_>, callee: &Callee) -> Result<bool, NoMemory>
    ensures { (told : Told around.entry.program.now.types) → IfOk result (λ r. r ≡ (tree.seen_callee (at_tests around.entry told.tests) callee.now).fits) }
{
    match callee {
        Callee::Function(_) | Callee::Literal(_) => Ok(true),
        Callee::Method { receiver, .. } => fits(around, receiver),
        Callee::Interface { receiver, .. } => fits(around, receiver),
        Callee::Value(value) => fits(around, value),
    }
}

/// Whether the types in the values of a list fit.
#[cycle(fits)]
#[tactic(auto, using(crate::proofs::Layers::values_fit))]
pub fn fits_values(around: Around<'_>, values: &Values) -> Result<bool, NoMemory>
    ensures { (told : Told around.entry.program.now.types) → IfOk result (λ r. r ≡ (seen_values (at_tests around.entry told.tests) values.now).fits) }
{
    match values {
        Values::Each(exprs) => fits_all(around, exprs),
        Values::Spread {
            tuple,
            parts: exprs,
        } => {
            let types = &around.program.types;
            Ok(
                fits(around, tuple)?
                    & (are_several(types, tuple.of)
                        & fit_parts(around, exprs, part_types(types, tuple.of))?),
            )
        }
    }
}

/// The types of several values, where a type is that of several.
fn part_types(types: &Types, of: TypeId) -> &[TypeId]
    ensures { result.now ≡ tree.part_types (shape.parts_of (term_at types.now of)) }
{
    match parts(types, of) {
        Some(parts) => parts,
        None => &[],
    }
}

fn are_several(types: &Types, of: TypeId) -> bool
    ensures { result ≡ tree.are_several (shape.parts_of (term_at types.now of)) }
{
    match parts(types, of) {
        Some(parts) => 1 < parts.len(),
        None => false,
    }
}

#[cycle(fits)]
#[tactic(auto, using(crate::proofs::Layers::element_rules))]
fn fits_elements(
    around: Around<'_>,
    asked: Asked<'_>,
    elements: &Elements,
    of: TypeId,
) -> Result<bool, NoMemory>
    ensures { (told : Told around.entry.program.now.types) → IfOk result (λ r. r ≡ (tree.seen_elements (at_tests around.entry told.tests) elements.now).fit (tree.asks asked.entry) of) }
{
    let types = &around.program.types;
    match elements {
        Elements::Fields(fields) => {
            Ok(fit_fields(around, asked, fields, of)? & are_fields(around, fields, of)?)
        }
        Elements::Items { items, len } => {
            Ok(
                fit_items(around, asked, items, *len, item_type(types, of))?
                    & are_items(around, items, *len, of)?,
            )
        }
        Elements::Entries(entries) => Ok(
            fit_entries(
                around,
                asked,
                entries,
                key_type(types, of),
                value_type(types, of),
            )? & is_map(types, of),
        ),
    }
}

#[cycle(fits)]
fn fit_fields(
    around: Around<'_>,
    asked: Asked<'_>,
    fields: &[FieldInit],
    of: TypeId,
) -> Result<bool, NoMemory>
    ensures { (told : Told around.entry.program.now.types) → IfOk result (λ r. r ≡ list_all (λ x. fits_set_field (tree.asks asked.entry) (underlying_term_of around.entry.program.now.types of) (tree.seen_field (at_tests around.entry told.tests) x)) fields.now) }
{
    for field in fields {
        if !fits_in_field(around, asked, field, of)? {
            return Ok(false);
        }
    }
    Ok(true)
}

#[cycle(fits)]
#[tactic(auto, using(crate::proofs::Layers::field_rules))]
fn fits_in_field(
    around: Around<'_>,
    asked: Asked<'_>,
    field: &FieldInit,
    of: TypeId,
) -> Result<bool, NoMemory>
    ensures { (told : Told around.entry.program.now.types) → IfOk result (λ r. r ≡ fits_set_field (tree.asks asked.entry) (underlying_term_of around.entry.program.now.types of) (tree.seen_field (at_tests around.entry told.tests) field.now)) }
{
    let fits_type = is_id(
        field_of(&around.program.types, of, field.field),
        field.value.of,
    );
    match asked {
        Asked::Whole => Ok(fits_type & fits(around, &field.value)?),
        Asked::Part(types) => Ok(fits_type & fits_part_of(around, &field.value, types)?),
    }
}

#[cycle(fits)]
fn fit_items(
    around: Around<'_>,
    asked: Asked<'_>,
    items: &[ItemInit],
    len: u64,
    elem: Option<TypeId>,
) -> Result<bool, NoMemory>
    ensures { (told : Told around.entry.program.now.types) → IfOk result (λ r. r ≡ list_all (λ x. item_fits (tree.asks asked.entry) len elem (tree.seen_item (at_tests around.entry told.tests) x)) items.now) }
{
    for item in items {
        if !fits_as_item(around, asked, item, len, elem)? {
            return Ok(false);
        }
    }
    Ok(true)
}

#[cycle(fits)]
#[tactic(auto, using(crate::proofs::Layers::field_rules))]
fn fits_as_item(
    around: Around<'_>,
    asked: Asked<'_>,
    item: &ItemInit,
    len: u64,
    elem: Option<TypeId>,
) -> Result<bool, NoMemory>
    ensures { (told : Told around.entry.program.now.types) → IfOk result (λ r. r ≡ item_fits (tree.asks asked.entry) len elem (tree.seen_item (at_tests around.entry told.tests) item.now)) }
{
    let is_within = item.index < len;
    let fits_type = is_of(item.value.of, elem);
    match asked {
        Asked::Whole => Ok(is_within & (fits_type & fits(around, &item.value)?)),
        Asked::Part(types) => {
            Ok(is_within & (fits_type & fits_part_of(around, &item.value, types)?))
        }
    }
}

#[cycle(fits)]
fn fit_entries(
    around: Around<'_>,
    asked: Asked<'_>,
    entries: &[EntryInit],
    key: Option<TypeId>,
    elem: Option<TypeId>,
) -> Result<bool, NoMemory>
    ensures { (told : Told around.entry.program.now.types) → IfOk result (λ r. r ≡ list_all (λ x. entry_fits (tree.asks asked.entry) key elem (tree.seen_entry (at_tests around.entry told.tests) x)) entries.now) }
{
    for entry in entries {
        if !fits_as_entry(around, asked, entry, key, elem)? {
            return Ok(false);
        }
    }
    Ok(true)
}

#[cycle(fits)]
#[tactic(auto, using(crate::proofs::Layers::field_rules))]
fn fits_as_entry(
    around: Around<'_>,
    asked: Asked<'_>,
    entry: &EntryInit,
    key: Option<TypeId>,
    elem: Option<TypeId>,
) -> Result<bool, NoMemory>
    ensures { (told : Told around.entry.program.now.types) → IfOk result (λ r. r ≡ entry_fits (tree.asks asked.entry) key elem (tree.seen_entry (at_tests around.entry told.tests) entry.now)) }
{
    let fits_key = is_of(entry.key.of, key);
    let fits_value = is_of(entry.value.of, elem);
    match asked {
        Asked::Whole => Ok(
            fits_key & (fits_value & (fits(around, &entry.key)? & fits(around, &entry.value)?)),
        ),
        Asked::Part(types) => Ok(
            fits_key
                & (fits_value
                    & (fits_part_of(around, &entry.key, types)?
                        & fits_part_of(around, &entry.value, types)?)),
        ),
    }
}
