//! Whether operands have types.

ghost use Rattle.std.specs.Prelude.{◌≡◌};
ghost use Rattle.std.specs.Cmp.Lexicographic.{pointwise};
ghost use Rattle.std.specs.List.{list_all};
ghost use Rattle.ssa_typed.specs.Operands.{is_operand};

use crate::known::Frame;
use go_base::TypeId;
use ssa_ir::{Operand, PhiEdge};

/// Whether operands have types, one each.
pub fn are(frame: Frame, operands: &[Operand], types: &[TypeId]) -> bool
    ensures { result ≡ pointwise (is_operand frame.entry.code.now frame.entry.function.now) operands.now types.now }
{
    if operands.len() != types.len() {
        return false;
    }
    for (index, operand) in operands.iter().enumerate() {
        if !frame.is(operand, types[index]) {
            return false;
        }
    }
    true
}

/// Whether operands have one type.
pub fn are_of(frame: Frame, operands: &[Operand], of: TypeId) -> bool
    ensures { result ≡ list_all (λ operand. is_operand frame.entry.code.now frame.entry.function.now operand of) operands.now }
{
    for operand in operands {
        if !frame.is(operand, of) {
            return false;
        }
    }
    true
}

/// Whether the values of a phi have one type.
pub fn are_all(frame: Frame, edges: &[PhiEdge], of: TypeId) -> bool
    ensures { result ≡ list_all (λ edge. is_operand frame.entry.code.now frame.entry.function.now edge.value of) edges.now }
{
    for edge in edges {
        if !frame.is(&edge.value, of) {
            return false;
        }
    }
    true
}
