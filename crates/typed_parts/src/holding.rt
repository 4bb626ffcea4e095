//! Whether a call stands in an expression. Go specification, "Length and capacity".

ghost use Rattle.std.specs.Prelude.{◌≡◌, ◌||◌};
ghost use Rattle.std.specs.List.{list_any};
ghost use Rattle.typed_parts.specs.Looks.{bound_holds_call, holds_call, holds_elements};

use go_tree::{Elements, EntryInit, ExprKind, FieldInit, ItemInit, TypedExpr};

/// Whether a call, a receive or a call of a built-in function stands in an expression, outside of function literals.
#[cycle(calls)]
#[tactic(auto, using(crate::proofs::Forms::expr_is, crate::proofs::Forms::kind_forms))]
pub fn holds_call(expr: &TypedExpr) -> bool
    ensures { result ≡ holds_call expr.now }
{
    match &expr.kind {
        ExprKind::ConstOf(_)
        | ExprKind::NilOf
        | ExprKind::VarOf(_)
        | ExprKind::FunctionOf(_)
        | ExprKind::LiteralOf(_)
        | ExprKind::MethodExpr { .. }
        | ExprKind::PartOf(_) => false,
        ExprKind::CallOf { .. } | ExprKind::Receive { .. } | ExprKind::BuiltinOf { .. } => true,
        ExprKind::MethodValue { receiver, .. } => holds_call(receiver),
        ExprKind::FieldOf { operand, .. }
        | ExprKind::UnaryOf { operand, .. }
        | ExprKind::AssertTo { operand, .. } => holds_call(operand),
        ExprKind::Deref(operand)
        | ExprKind::AddressOf(operand)
        | ExprKind::ConvertTo(operand)
        | ExprKind::ToInterface(operand) => holds_call(operand),
        ExprKind::IndexOf { operand, index, .. } => holds_call(operand) || holds_call(index),
        ExprKind::MapIndex { map, key, .. } => holds_call(map) || holds_call(key),
        ExprKind::BinaryOf { left, right, .. }
        | ExprKind::CompareOf { left, right, .. }
        | ExprKind::AndAlso { left, right }
        | ExprKind::OrElse { left, right } => holds_call(left) || holds_call(right),
        ExprKind::SliceOf {
            operand,
            low,
            high,
            max,
            ..
        } => {
            holds_call(operand)
                || (bound_holds_call(low) || (bound_holds_call(high) || bound_holds_call(max)))
        }
        ExprKind::CompositeOf(elements) => elements_hold_call(elements),
    }
}

#[cycle(calls)]
fn bound_holds_call(bound: &Option<Box<TypedExpr>>) -> bool
    ensures { result ≡ bound_holds_call bound.now }
{
    match bound {
        Some(bound) => holds_call(bound),
        None => false,
    }
}

#[cycle(calls)]
#[tactic(auto, using(crate::proofs::Forms::elements_forms))]
fn elements_hold_call(elements: &Elements) -> bool
    ensures { result ≡ holds_elements elements.now }
{
    match elements {
        Elements::Fields(fields) => fields_hold_call(fields.as_slice()),
        Elements::Items { items, .. } => items_hold_call(items.as_slice()),
        Elements::Entries(entries) => entries_hold_call(entries.as_slice()),
    }
}

#[cycle(calls)]
fn fields_hold_call(fields: &[FieldInit]) -> bool
    ensures { result ≡ list_any (λ field. holds_call field.value) fields.now }
{
    for field in fields {
        if holds_call(&field.value) {
            return true;
        }
    }
    false
}

#[cycle(calls)]
fn items_hold_call(items: &[ItemInit]) -> bool
    ensures { result ≡ list_any (λ item. holds_call item.value) items.now }
{
    for item in items {
        if holds_call(&item.value) {
            return true;
        }
    }
    false
}

#[cycle(calls)]
fn entries_hold_call(entries: &[EntryInit]) -> bool
    ensures { result ≡ list_any (λ entry. holds_call entry.key || holds_call entry.value) entries.now }
{
    for entry in entries {
        if holds_call(&entry.key) || holds_call(&entry.value) {
            return true;
        }
    }
    false
}
