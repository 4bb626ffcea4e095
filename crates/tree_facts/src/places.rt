//! The variable in which a place lies.

ghost use Rattle.std.specs.Prelude.{◌≡◌};
ghost use Rattle.tree_facts.specs.Roots.{rooted};

use go_base::VarId;
use go_tree::{ExprKind, IndexBase, TypedExpr};

/// The variable that a place is, or of which it is a part. None for what lies behind a pointer or in a slice.
#[tactic(auto, using(crate::proofs::Forms::expr_is, crate::proofs::Forms::kind_forms), unfolding(crate::specs::Roots::element_of))]
pub fn root_of(place: &TypedExpr) -> Option<VarId>
    ensures { result ≡ (rooted place.now).root }
{
    match &place.kind {
        ExprKind::VarOf(variable) => Some(*variable),
        ExprKind::FieldOf { operand, .. } => root_of(operand),
        ExprKind::IndexOf { base, operand, .. } => match base {
            IndexBase::Array => root_of(operand),
            IndexBase::Slice | IndexBase::Text => None,
        },
        ExprKind::ConstOf(_)
        | ExprKind::NilOf
        | ExprKind::FunctionOf(_)
        | ExprKind::LiteralOf(_)
        | ExprKind::MethodValue { .. }
        | ExprKind::MethodExpr { .. }
        | ExprKind::MapIndex { .. }
        | ExprKind::SliceOf { .. }
        | ExprKind::Deref(_)
        | ExprKind::AddressOf(_)
        | ExprKind::UnaryOf { .. }
        | ExprKind::BinaryOf { .. }
        | ExprKind::CompareOf { .. }
        | ExprKind::AndAlso { .. }
        | ExprKind::OrElse { .. }
        | ExprKind::Receive { .. }
        | ExprKind::CallOf { .. }
        | ExprKind::BuiltinOf { .. }
        | ExprKind::ConvertTo(_)
        | ExprKind::ToInterface(_)
        | ExprKind::AssertTo { .. }
        | ExprKind::CompositeOf(_)
        | ExprKind::PartOf(_) => None,
    }
}

/// The variable of which a place is a part, and not the whole.
#[tactic(auto, using(crate::proofs::Forms::expr_is, crate::proofs::Forms::kind_forms), unfolding(crate::specs::Roots::element_of))]
pub fn part_root(place: &TypedExpr) -> Option<VarId>
    ensures { result ≡ (rooted place.now).part }
{
    match &place.kind {
        ExprKind::FieldOf { operand, .. } => root_of(operand),
        ExprKind::IndexOf { base, operand, .. } => match base {
            IndexBase::Array => root_of(operand),
            IndexBase::Slice | IndexBase::Text => None,
        },
        ExprKind::ConstOf(_)
        | ExprKind::NilOf
        | ExprKind::VarOf(_)
        | ExprKind::FunctionOf(_)
        | ExprKind::LiteralOf(_)
        | ExprKind::MethodValue { .. }
        | ExprKind::MethodExpr { .. }
        | ExprKind::MapIndex { .. }
        | ExprKind::SliceOf { .. }
        | ExprKind::Deref(_)
        | ExprKind::AddressOf(_)
        | ExprKind::UnaryOf { .. }
        | ExprKind::BinaryOf { .. }
        | ExprKind::CompareOf { .. }
        | ExprKind::AndAlso { .. }
        | ExprKind::OrElse { .. }
        | ExprKind::Receive { .. }
        | ExprKind::CallOf { .. }
        | ExprKind::BuiltinOf { .. }
        | ExprKind::ConvertTo(_)
        | ExprKind::ToInterface(_)
        | ExprKind::AssertTo { .. }
        | ExprKind::CompositeOf(_)
        | ExprKind::PartOf(_) => None,
    }
}
