//! The values that instructions on integers give.

ghost use Rattle.std.specs.Prelude.{◌≡◌, Some};
ghost use Rattle.go_store.specs.Stores.{stored};
ghost use Rattle.go_type.specs.Kinds as kinds;
ghost use Rattle.go_value.specs.Values.{number, value_of};
ghost use Rattle.go_value.specs.declared.faults.ValueError.TheVariants.{OutOfMemory};
ghost use Rattle.interp_state.specs.Frames.{frames_of};
ghost use Rattle.int_steps.specs.Steps as meant;
ghost use Rattle.int_steps.specs.Steps.{GivesAs, int_given, int_loaded, integer_of, kind_at, on_two, pointer_of, state_of};
ghost use Rattle.ssa_mean.specs.Arithmetic.{negated, negated_in, on_integers};
ghost use Rattle.ssa_mean.specs.Comes.{of_result, then_to, where_some};

use crate::arithmetic::{compare, negative, operate, turned};
use crate::operands::{address, integer, kind_of};
use go_base::TypeId;
use go_store::Store;
use go_type::{BinaryOp, IntKind, Types, UnaryOp, int_kind};
use go_value::{Address, Fault, Value, ValueError, convert_int, shift_op};
use interp_state::RegStack;
use ssa_ir::{Function, Infix, Op, Operand};

/// What an instruction of another form answers, or one on what is no integer.
pub fn lost() -> ValueError
    ensures { result ≡ OutOfMemory }
{
    ValueError::OutOfMemory
}

/// The value that an instruction gives its register.
pub fn given(
    types: &Types,
    regs: &RegStack,
    store: &Store,
    function: &Function,
    op: &Op,
) -> Result<Value, ValueError>
    ensures { GivesAs value_of result (int_given types.now function.now (state_of regs.now store.now) op.now) }
{
    match op {
        Op::Binary { op, left, right } => binary(types, regs, function, *op, left, right),
        Op::Unary { op, operand } => unary(types, regs, function, *op, operand),
        Op::Convert { to, operand } => conversion(types, regs, function, *to, operand),
        Op::Load(at) => load(regs, store, function, at),
        _ => Err(lost()),
    }
}

fn binary(
    types: &Types,
    regs: &RegStack,
    function: &Function,
    op: Infix,
    left: &Operand,
    right: &Operand,
) -> Result<Value, ValueError>
    ensures { GivesAs value_of result (where_some (λ a. where_some (on_two (kind_at types.now function.now left.now) op a) (integer_of function.now (frames_of regs.now) right.now)) (integer_of function.now (frames_of regs.now) left.now)) }
{
    let Some(a) = integer(regs, function, left) else {
        return Err(lost());
    };
    let Some(b) = integer(regs, function, right) else {
        return Err(lost());
    };
    on_two(kind_of(types, function, left), op, a, b)
}

/// An operator at two integers, or whether they meet a comparison.
fn on_two(kind: Option<IntKind>, op: Infix, a: i128, b: i128) -> Result<Value, ValueError>
    ensures { GivesAs value_of result (on_two kind op a b) }
{
    match op {
        Infix::Operate(op) => match kind {
            Some(kind) => calculated(kind, op, a, b),
            None => Err(lost()),
        },
        Infix::Compare(op) => Ok(Value::Truth(compare(op, a, b))),
    }
}

fn calculated(kind: IntKind, op: BinaryOp, a: i128, b: i128) -> Result<Value, ValueError>
    ensures { GivesAs value_of result (on_integers (Some kind) op a b) }
{
    match op.shift() {
        Some(left) => from_outcome(shift_op(kind, left, a, b)),
        None => match op.int_op() {
            Some(op) => from_outcome(operate(kind, op, a, b)),
            None => Err(lost()),
        },
    }
}

fn from_outcome(outcome: Result<i128, Fault>) -> Result<Value, ValueError>
    ensures { GivesAs value_of result (then_to number (of_result outcome)) }
{
    match outcome {
        Ok(number) => Ok(Value::Int(number)),
        Err(fault) => Err(ValueError::Fault(fault)),
    }
}

fn unary(
    types: &Types,
    regs: &RegStack,
    function: &Function,
    op: UnaryOp,
    operand: &Operand,
) -> Result<Value, ValueError>
    ensures { GivesAs value_of result (where_some (negated_in (kind_at types.now function.now operand.now) op) (integer_of function.now (frames_of regs.now) operand.now)) }
{
    let Some(a) = integer(regs, function, operand) else {
        return Err(lost());
    };
    match kind_of(types, function, operand) {
        Some(kind) => on_one(kind, op, a),
        None => Err(lost()),
    }
}

fn on_one(kind: IntKind, op: UnaryOp, a: i128) -> Result<Value, ValueError>
    ensures { GivesAs value_of result (negated op kind a) }
{
    match op {
        UnaryOp::Negate => Ok(Value::Int(negative(kind, a))),
        UnaryOp::Complement => Ok(Value::Int(turned(kind, a))),
        UnaryOp::Not => Err(lost()),
    }
}

fn conversion(
    types: &Types,
    regs: &RegStack,
    function: &Function,
    to: TypeId,
    operand: &Operand,
) -> Result<Value, ValueError>
    ensures { GivesAs value_of result (where_some (meant.converted (kinds.kind_of types.now to)) (integer_of function.now (frames_of regs.now) operand.now)) }
{
    let Some(a) = integer(regs, function, operand) else {
        return Err(lost());
    };
    match int_kind(types, to) {
        Some(kind) => Ok(Value::Int(convert_int(kind, a))),
        None => Err(lost()),
    }
}

fn load(
    regs: &RegStack,
    store: &Store,
    function: &Function,
    at: &Operand,
) -> Result<Value, ValueError>
    ensures { GivesAs value_of result (where_some (int_loaded (stored store.now)) (pointer_of function.now (frames_of regs.now) at.now)) }
{
    match address(regs, function, at) {
        Some(at) => loaded(store, at),
        None => Err(lost()),
    }
}

/// The integer that an address leads to.
fn loaded(store: &Store, at: &Address) -> Result<Value, ValueError>
    ensures { GivesAs value_of result (int_loaded (stored store.now) at.now) }
{
    if at.is_nil() {
        return Err(ValueError::Fault(Fault::NilPointer));
    }
    match store.int_at(at) {
        Some(number) => Ok(Value::Int(number)),
        None => Err(lost()),
    }
}
