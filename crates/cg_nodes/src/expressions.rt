//! The walk over expressions. Go specification, "Expressions".

ghost use Rattle.std.specs.Prelude.{◌≡◌, ◌++◌, OnOk, flat_map, map};
ghost use Rattle.cg_nodes.specs.Uses as use_of;

use crate::calls::call;
use crate::flows::{
    bind, box_value, call_built_in, put, store_element, store_field, store_key, store_value,
    take_address,
};
use crate::nodes::{Mention, Parts, Value};
use crate::places::{method_expression, method_value, parts_of};
use go_base::{NoMemory, TypeId};
use go_tree::{Callee, Elements, EntryInit, ExprKind, FieldInit, ItemInit, TypedExpr, Values};
use go_type::Types;

/// What stands in an expression.
#[cycle(uses)]
#[tactic(auto, using(crate::proofs::Forms::use_forms))]
pub fn in_expr(
    types: &Types,
    parts: Parts,
    expr: &TypedExpr,
    out: &mut Vec<Mention>,
) -> Result<(), NoMemory>
    ensures { OnOk result (out.new.items ≡ out.old.items ++ (use_of.seen_expr types.now expr.now).uses parts) }
{
    match &expr.kind {
        ExprKind::ConstOf(_) | ExprKind::NilOf | ExprKind::VarOf(_) | ExprKind::PartOf(_) => Ok(()),
        ExprKind::FunctionOf(function) | ExprKind::LiteralOf(function) => {
            put(Mention::Seed(Value::Function(*function)), out)
        }
        ExprKind::MethodExpr {
            receiver,
            name,
            package,
        } => {
            let value = method_expression(expr.of, *receiver, *name, *package);
            put(Mention::Seed(value), out)
        }
        ExprKind::MethodValue { receiver, method } => {
            in_expr(types, parts, receiver, out)?;
            let value = method_value(expr.at, expr.of, receiver.of, *method);
            put(Mention::Seed(value), out)?;
            bind(types, parts, expr.at, receiver, *method, out)
        }
        ExprKind::FieldOf { operand, .. }
        | ExprKind::UnaryOf { operand, .. }
        | ExprKind::AssertTo { operand, .. } => in_expr(types, parts, operand, out),
        ExprKind::Deref(operand) | ExprKind::ConvertTo(operand) => {
            in_expr(types, parts, operand, out)
        }
        ExprKind::AddressOf(operand) => {
            in_expr(types, parts, operand, out)?;
            take_address(types, parts, operand, out)
        }
        ExprKind::ToInterface(operand) => {
            in_expr(types, parts, operand, out)?;
            box_value(types, parts, operand, out)
        }
        ExprKind::Receive { channel, .. } => in_expr(types, parts, channel, out),
        ExprKind::IndexOf { operand, index, .. } => {
            in_expr(types, parts, operand, out)?;
            in_expr(types, parts, index, out)
        }
        ExprKind::MapIndex { map, key, .. } => {
            in_expr(types, parts, map, out)?;
            in_expr(types, parts, key, out)
        }
        ExprKind::SliceOf {
            operand,
            low,
            high,
            max,
            ..
        } => {
            in_expr(types, parts, operand, out)?;
            in_option(types, parts, low, out)?;
            in_option(types, parts, high, out)?;
            in_option(types, parts, max, out)
        }
        ExprKind::BinaryOf { left, right, .. }
        | ExprKind::CompareOf { left, right, .. }
        | ExprKind::AndAlso { left, right }
        | ExprKind::OrElse { left, right } => {
            in_expr(types, parts, left, out)?;
            in_expr(types, parts, right, out)
        }
        ExprKind::CallOf { callee, arguments } => {
            in_callee(types, parts, callee, out)?;
            in_values(types, parts, arguments, out)?;
            call(types, parts, expr.at, callee, arguments, out)
        }
        ExprKind::BuiltinOf {
            builtin,
            arguments,
            ..
        } => {
            in_list(types, parts, arguments, out)?;
            call_built_in(types, parts, *builtin, arguments, out)
        }
        ExprKind::CompositeOf(elements) => in_elements(types, parts, elements, expr.of, out),
    }
}

#[cycle(uses)]
fn in_option(
    types: &Types,
    parts: Parts,
    expr: &Option<Box<TypedExpr>>,
    out: &mut Vec<Mention>,
) -> Result<(), NoMemory>
    ensures { OnOk result (out.new.items ≡ out.old.items ++ use_of.seen_if types.now expr.now parts) }
{
    match expr {
        Some(expr) => in_expr(types, parts, expr, out),
        None => Ok(()),
    }
}

/// What stands in expressions.
#[cycle(uses)]
pub fn in_list(
    types: &Types,
    parts: Parts,
    exprs: &[TypedExpr],
    out: &mut Vec<Mention>,
) -> Result<(), NoMemory>
    ensures { OnOk result (out.new.items ≡ out.old.items ++ use_of.uses_of parts (use_of.seen_all types.now exprs.now)) }
{
    for expr in exprs {
        in_expr(types, parts, expr, out)?;
    }
    Ok(())
}

#[cycle(uses)]
#[tactic(auto, using(crate::proofs::Forms::callee_forms))]
fn in_callee(
    types: &Types,
    parts: Parts,
    callee: &Callee,
    out: &mut Vec<Mention>,
) -> Result<(), NoMemory>
    ensures { OnOk result (out.new.items ≡ out.old.items ++ (use_of.seen_callee types.now callee.now).uses parts) }
{
    match callee {
        Callee::Function(_) | Callee::Literal(_) => Ok(()),
        Callee::Method { receiver, .. } | Callee::Interface { receiver, .. } => {
            in_expr(types, parts, receiver, out)
        }
        Callee::Value(value) => in_expr(types, parts, value, out),
    }
}

/// What stands in the values of a list.
#[cycle(uses)]
#[tactic(auto, using(crate::proofs::Forms::values_seen))]
pub fn in_values(
    types: &Types,
    parts: Parts,
    values: &Values,
    out: &mut Vec<Mention>,
) -> Result<(), NoMemory>
    ensures { OnOk result (out.new.items ≡ out.old.items ++ (use_of.seen_values types.now values.now).uses parts) }
{
    match values {
        Values::Each(exprs) => in_list(types, parts, exprs, out),
        Values::Spread {
            tuple,
            parts: exprs,
        } => {
            in_expr(types, parts, tuple, out)?;
            in_list(types, parts_of(types, parts, tuple), exprs, out)
        }
    }
}

/// What stands in a composite literal of a type.
#[cycle(uses)]
#[tactic(auto, using(crate::proofs::Forms::composites))]
fn in_elements(
    types: &Types,
    parts: Parts,
    elements: &Elements,
    of: TypeId,
    out: &mut Vec<Mention>,
) -> Result<(), NoMemory>
    ensures { OnOk result (out.new.items ≡ out.old.items ++ use_of.seen_elements types.now elements.now of parts) }
{
    match elements {
        Elements::Fields(fields) => in_fields(types, parts, fields, of, out),
        Elements::Items { items, .. } => in_items(types, parts, items, out),
        Elements::Entries(entries) => in_entries(types, parts, entries, out),
    }
}

#[cycle(uses)]
fn in_fields(
    types: &Types,
    parts: Parts,
    fields: &[FieldInit],
    of: TypeId,
    out: &mut Vec<Mention>,
) -> Result<(), NoMemory>
    ensures { OnOk result (out.new.items ≡ out.old.items ++ flat_map (use_of.set_field of parts) (map (use_of.seen_field types.now) fields.now)) }
{
    for field in fields {
        in_field(types, parts, field, of, out)?;
    }
    Ok(())
}

#[cycle(uses)]
#[tactic(auto, using(crate::proofs::Forms::fields), unfolding(crate::specs::Uses::set_field))]
fn in_field(
    types: &Types,
    parts: Parts,
    field: &FieldInit,
    of: TypeId,
    out: &mut Vec<Mention>,
) -> Result<(), NoMemory>
    ensures { OnOk result (out.new.items ≡ out.old.items ++ use_of.set_field of parts (use_of.seen_field types.now field.now)) }
{
    in_expr(types, parts, &field.value, out)?;
    store_field(types, parts, of, field.field, &field.value, out)
}

#[cycle(uses)]
fn in_items(
    types: &Types,
    parts: Parts,
    items: &[ItemInit],
    out: &mut Vec<Mention>,
) -> Result<(), NoMemory>
    ensures { OnOk result (out.new.items ≡ out.old.items ++ flat_map (use_of.set_item parts) (map (use_of.seen_item types.now) items.now)) }
{
    for item in items {
        in_item(types, parts, item, out)?;
    }
    Ok(())
}

#[cycle(uses)]
#[tactic(auto, using(crate::proofs::Forms::fields), unfolding(crate::specs::Uses::set_item))]
fn in_item(
    types: &Types,
    parts: Parts,
    item: &ItemInit,
    out: &mut Vec<Mention>,
) -> Result<(), NoMemory>
    ensures { OnOk result (out.new.items ≡ out.old.items ++ use_of.set_item parts (use_of.seen_item types.now item.now)) }
{
    in_expr(types, parts, &item.value, out)?;
    store_element(types, parts, &item.value, out)
}

#[cycle(uses)]
fn in_entries(
    types: &Types,
    parts: Parts,
    entries: &[EntryInit],
    out: &mut Vec<Mention>,
) -> Result<(), NoMemory>
    ensures { OnOk result (out.new.items ≡ out.old.items ++ flat_map (use_of.set_entry parts) (map (use_of.seen_entry types.now) entries.now)) }
{
    for entry in entries {
        in_entry(types, parts, entry, out)?;
    }
    Ok(())
}

#[cycle(uses)]
#[tactic(auto, using(crate::proofs::Forms::fields), unfolding(crate::specs::Uses::set_entry))]
fn in_entry(
    types: &Types,
    parts: Parts,
    entry: &EntryInit,
    out: &mut Vec<Mention>,
) -> Result<(), NoMemory>
    ensures { OnOk result (out.new.items ≡ out.old.items ++ use_of.set_entry parts (use_of.seen_entry types.now entry.now)) }
{
    in_expr(types, parts, &entry.key, out)?;
    in_expr(types, parts, &entry.value, out)?;
    store_key(types, parts, &entry.key, out)?;
    store_value(types, parts, &entry.value, out)
}
