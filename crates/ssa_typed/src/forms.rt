//! Which types the operands and the register of an instruction need.

ghost use Rattle.std.specs.Prelude.{◌≡◌, ◌↔◌, IsTrue};
ghost use Rattle.ssa_typed.specs.Forms.{FitsOp, fits_alone, FitsGiving, fits_giving, closes};
ghost use Rattle.ssa_typed.specs.Operands.{function_at};

use crate::calls::{fits_call, fits_deferred};
use crate::conversions::{fits_change, fits_conversion};
use crate::elements::{
    are_bounds, fits_field, fits_field_address, fits_index, fits_index_address, fits_lookup,
    fits_slice, fits_update, gives,
};
use crate::interfaces::{fits_assertion, fits_boxing, fits_interface};
use crate::known::Frame;
use crate::operators::{fits_binary, has_unary};
use crate::pairs::{are, are_all};
use crate::ranges::{fits_extract, fits_next, fits_range};
use crate::selects::{fits_receive, fits_select, fits_send};
use go_base::{FuncId, TypeId};
use ssa_ir::{Op, Operand};
use type_shapes::{is_chan, is_id, is_map, is_pointer_to, is_slice};

/// Whether an instruction is typed that gives a register of a type, or none.
pub fn fits(frame: Frame, op: &Op, register: Option<TypeId>) -> bool
    ensures { IsTrue result ↔ FitsOp frame.entry.code.now frame.entry.function.now op.now register }
{
    match register {
        Some(of) => fits_register(frame, op, of),
        None => fits_alone(frame, op),
    }
}

/// Whether an instruction that gives no register is typed.
#[tactic(auto, unfolding(crate::specs::Forms::fits_alone))]
fn fits_alone(frame: Frame, op: &Op) -> bool
    ensures { result ≡ fits_alone frame.entry.code.now frame.entry.function.now op.now }
{
    match op {
        Op::Store { at, value } => frame.is_where(value, frame.pointee(at)),
        Op::Update { map, key, value } => fits_update(frame, map, key, value),
        Op::Call(call) => fits_call(frame, call, None),
        Op::Go(call) | Op::Defer(call) => fits_deferred(frame, call),
        Op::RunDefers | Op::Tick | Op::Jump(_) => true,
        Op::Send { channel, value } => fits_send(frame, channel, value),
        Op::If { test, .. } => frame.is_truth_operand(test),
        Op::Return(results) => are(frame, results.as_slice(), frame.function.results.as_slice()),
        Op::Panic(value) => frame.is_any_operand(value),
        _ => false,
    }
}

/// Whether an instruction that gives a register of a type is typed.
#[tactic(auto, unfolding(crate::specs::Forms::FitsGiving))]
fn fits_register(frame: Frame, op: &Op, of: TypeId) -> bool
    ensures { IsTrue result ↔ FitsGiving frame.entry.code.now frame.entry.function.now op.now of }
{
    match op {
        Op::Binary { op, left, right } => fits_binary(frame, *op, left, right, of),
        Op::MakeInterface { to, operand } => *to == of && fits_boxing(frame, operand, of),
        Op::ChangeInterface { to, operand } => *to == of && fits_interface(frame, operand, of),
        Op::TypeAssert {
            operand,
            to,
            comma_ok,
        } => { fits_assertion(frame, operand, *to) && gives(&frame.code.types, of, *to, *comma_ok) }
        _ => fits_giving(frame, op, of),
    }
}

/// Whether an instruction that gives a register of a type is typed, but for those that compare or ask for methods.
#[tactic(auto, unfolding(crate::specs::Forms::fits_giving))]
fn fits_giving(frame: Frame, op: &Op, of: TypeId) -> bool
    ensures { result ≡ fits_giving frame.entry.code.now frame.entry.function.now op.now of }
{
    let types = &frame.code.types;
    match op {
        Op::New(base) => is_pointer_to(types, of, *base),
        Op::Phi(edges) => are_all(frame, edges.as_slice(), of),
        Op::Unary { op, operand } => frame.is(operand, of) && has_unary(types, *op, of),
        Op::Load(at) => is_id(frame.pointee(at), of),
        Op::Field { operand, field } => fits_field(frame, operand, *field, of),
        Op::FieldAddress { operand, field } => fits_field_address(frame, operand, *field, of),
        Op::Index { operand, index } => fits_index(frame, operand, index, of),
        Op::IndexAddress { operand, index } => fits_index_address(frame, operand, index, of),
        Op::Lookup { map, key, comma_ok } => fits_lookup(frame, map, key, *comma_ok, of),
        Op::Slice {
            operand,
            low,
            high,
            max,
        } => { are_bounds(frame, low, high, max) && fits_slice(frame, operand, max.is_some(), of) }
        Op::Convert { to, operand } => *to == of && fits_conversion(frame, operand, of),
        Op::ChangeType { to, operand } => *to == of && fits_change(frame, operand, of),
        Op::MakeClosure { function, captured } => {
            fits_closure(frame, *function, captured.as_slice(), of)
        }
        Op::MakeMap(made) => *made == of && is_map(types, of),
        Op::MakeChan { of: made, size } => {
            *made == of && is_chan(types, of) && frame.is_integer_operand(size)
        }
        Op::MakeSlice { of: made, len, cap } => {
            *made == of
                && is_slice(types, of)
                && frame.is_integer_operand(len)
                && frame.is_integer_operand(cap)
        }
        Op::Call(call) => fits_call(frame, call, Some(of)),
        Op::Receive { channel, comma_ok } => fits_receive(frame, channel, *comma_ok, of),
        Op::Select { cases, .. } => fits_select(frame, cases.as_slice(), of),
        Op::Range(operand) => fits_range(frame, operand, of),
        Op::Next(operand) => fits_next(frame, operand, of),
        Op::Extract { operand, part } => fits_extract(frame, operand, *part, of),
        _ => false,
    }
}

/// Whether a closure captures something, and has the type of its function without what is captured.
fn fits_closure(frame: Frame, id: FuncId, captured: &[Operand], of: TypeId) -> bool
    ensures { result ≡ closes frame.entry.code.now frame.entry.function.now (function_at frame.entry.code.now id) captured.now of }
{
    match frame.function_at(id) {
        Some(function) => {
            !captured.is_empty()
                && are(frame, captured, function.free.as_slice())
                && frame.is_type_of(of, id)
        }
        None => false,
    }
}
