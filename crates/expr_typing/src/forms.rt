//! What an expression is for the one above it. Go specification, "Address operators" and "Assignment statements".

ghost use Rattle.std.specs.Prelude.{◌≡◌};
ghost use Rattle.expr_typing.specs.Parts as part;
ghost use Rattle.typed_trees.specs.Around.{Around};
ghost use Rattle.typed_trees.specs.Expressions.{seen};
ghost use Rattle.typed_trees.specs.Nodes as node;

use go_tree::{ExprKind, IndexBase, TypedExpr};
use typed_trees::Form;

/// What an expression is.
#[tactic(auto, using(crate::proofs::Layers::form_rules))]
pub fn form_of(expr: &TypedExpr) -> Form
    ensures { (around : Around) → result ≡ (seen around expr.now).form }
{
    match &expr.kind {
        ExprKind::NilOf => Form::Nothing,
        ExprKind::VarOf(_) | ExprKind::Deref(_) => Form::Place,
        ExprKind::FieldOf { operand, .. } => place_if(is_place(form_of(operand))),
        ExprKind::IndexOf { base, operand, .. } => index_form(*base, form_of(operand)),
        ExprKind::MapIndex { comma_ok, .. } => entry_form(*comma_ok),
        ExprKind::CallOf { .. } | ExprKind::BuiltinOf { .. } => Form::Call,
        ExprKind::CompositeOf(_) => Form::Composite,
        ExprKind::ConstOf(_)
        | ExprKind::FunctionOf(_)
        | ExprKind::LiteralOf(_)
        | ExprKind::MethodValue { .. }
        | ExprKind::MethodExpr { .. }
        | ExprKind::SliceOf { .. }
        | ExprKind::AddressOf(_)
        | ExprKind::UnaryOf { .. }
        | ExprKind::BinaryOf { .. }
        | ExprKind::CompareOf { .. }
        | ExprKind::AndAlso { .. }
        | ExprKind::OrElse { .. }
        | ExprKind::Receive { .. }
        | ExprKind::ConvertTo(_)
        | ExprKind::ToInterface(_)
        | ExprKind::AssertTo { .. }
        | ExprKind::PartOf(_) => Form::Other,
    }
}

fn is_place(form: Form) -> bool
    ensures { result ≡ node.is_place form }
{
    matches!(form, Form::Place)
}

fn place_if(is_place: bool) -> Form
    ensures { result ≡ node.place_if is_place }
{
    if is_place { Form::Place } else { Form::Other }
}

/// An element of a slice is a place, and one of an array that is one.
fn index_form(base: IndexBase, operand: Form) -> Form
    ensures { result ≡ part.element_form base operand }
{
    match base {
        IndexBase::Slice => Form::Place,
        IndexBase::Array => place_if(is_place(operand)),
        IndexBase::Text => Form::Other,
    }
}

fn entry_form(comma_ok: bool) -> Form
    ensures { result ≡ part.entry_form comma_ok }
{
    if comma_ok { Form::Other } else { Form::Entry }
}

/// Whether it has an address: a place or a composite literal.
pub fn has_address(form: Form) -> bool
    ensures { result ≡ node.has_address form }
{
    matches!(form, Form::Place | Form::Composite)
}

/// Whether it is `nil`.
pub fn is_nothing(form: Form) -> bool
    ensures { result ≡ node.is_nothing form }
{
    matches!(form, Form::Nothing)
}

/// Whether it is a call.
pub fn is_call(form: Form) -> bool
    ensures { result ≡ node.is_call form }
{
    matches!(form, Form::Call)
}

/// Whether it can be assigned to.
pub fn can_be_set(form: Form) -> bool
    ensures { result ≡ node.can_be_set form }
{
    matches!(form, Form::Place | Form::Entry)
}
