//! Operators. Go specification, "Operators".

ghost use Rattle.std.specs.Prelude.{◌≡◌, Bool, IfOk};
ghost use Rattle.std.specs.Bool.{beq};
ghost use Rattle.code_plan.specs.declared.steps.Step.TheVariants as act;
ghost use Rattle.go_type.specs.declared.operators.CompareOp.{CompareOp as Comparison};
ghost use Rattle.go_value.specs.Values.{number, truth};
ghost use Rattle.interp_state.specs.Machines.{machine_of};
ghost use Rattle.interp_state.specs.States.{looked};
ghost use Rattle.interp_state.specs.Turns.{IsGiven, IsIn, Steps};
ghost use Rattle.interp_values.specs.Given.{IsGivenAs};
ghost use Rattle.plan_mean.specs.State.{World};
ghost use Rattle.plan_mean.specs.Step as steps;
ghost use Rattle.plan_mean.specs.Step.{acts};
ghost use Rattle.ssa_mean.specs.Arithmetic.{holds};
ghost use Rattle.ssa_mean.specs.Comes.{to};

use code_plan::Arg;
use go_base::NoMemory;
use go_type::{CompareOp, ConstOp, IntKind};
use go_value::{Fault, Value, ValueError, concat, shift_op};
use int_steps::{compare, negative, operate, turned};
use interp_state::{Machine, Met, Turn};
use std::cmp::Ordering;

/// Whether two values that compare so meet a comparison.
fn holds(op: CompareOp, order: Ordering) -> bool
    ensures { result ≡ holds op order }
{
    match op {
        CompareOp::Equal => order.is_eq(),
        CompareOp::NotEqual => order.is_ne(),
        CompareOp::Less => order.is_lt(),
        CompareOp::LessEqual => order.is_le(),
        CompareOp::Greater => order.is_gt(),
        CompareOp::GreaterEqual => order.is_ge(),
    }
}

/// Two integers.
fn ints(machine: &Machine<'_>, left: &Arg, right: &Arg) -> Result<(i128, i128), NoMemory>
    ensures first { IfOk result (λ it. looked machine.now left.now ≡ Some (number it.0)) }
    ensures second { IfOk result (λ it. looked machine.now right.now ≡ Some (number it.1)) }
{
    Ok((machine.int(left)?, machine.int(right)?))
}

/// An operation on two integers.
pub fn calculate(
    machine: &mut Machine<'_>,
    op: ConstOp,
    kind: IntKind,
    left: &Arg,
    right: &Arg,
    to: u32,
) -> Turn
    ensures { Steps result machine.old machine.new (λ w. acts w (machine_of machine.old) (act.Arithmetic op kind left.now right.now to)) }
{
    let Ok((a, b)) = ints(machine, left, right) else {
        return Turn::WantsMemory;
    };
    match operate(kind, op, a, b) {
        Ok(number) => machine.set_int(to, number),
        Err(fault) => machine.meet(Met::Fault(fault)),
    }
}

/// Two integers are compared.
pub fn compare_ints(
    machine: &mut Machine<'_>,
    op: CompareOp,
    left: &Arg,
    right: &Arg,
    to: u32,
) -> Turn
    ensures { Steps result machine.old machine.new (λ w. acts w (machine_of machine.old) (act.CompareInts op left.now right.now to)) }
{
    match ints(machine, left, right) {
        Ok((a, b)) => machine.set_truth(to, compare(op, a, b)),
        Err(_) => Turn::WantsMemory,
    }
}

/// An integer is shifted.
pub fn shift(
    machine: &mut Machine<'_>,
    left: bool,
    kind: IntKind,
    value: &Arg,
    count: &Arg,
    to: u32,
) -> Turn
    ensures { Steps result machine.old machine.new (λ w. acts w (machine_of machine.old) (act.Shift left kind value.now count.now to)) }
{
    let Ok((a, count)) = ints(machine, value, count) else {
        return Turn::WantsMemory;
    };
    match shift_op(kind, left, a, count) {
        Ok(number) => machine.set_int(to, number),
        Err(fault) => machine.meet(Met::Fault(fault)),
    }
}

/// Two texts become one.
pub fn join(machine: &mut Machine<'_>, left: &Arg, right: &Arg, to: u32) -> Turn
    ensures { Steps result machine.old machine.new (λ w. acts w (machine_of machine.old) (act.Join left.now right.now to)) }
{
    let joined = joined(machine, left, right);
    machine.give(to, joined)
}

fn joined(machine: &Machine<'_>, left: &Arg, right: &Arg) -> Result<Value, Met>
    ensures { IsGiven result (steps.join (machine_of machine.now) left.now right.now) }
{
    match concat(machine.alloc, machine.text(left)?, machine.text(right)?) {
        Ok(text) => Ok(Value::text(machine.alloc, text)?),
        Err(ValueError::Fault(Fault::TextTooLong)) => Err(Met::Fault(Fault::TextTooLong)),
        Err(_) => Err(Met::Memory),
    }
}

/// Two texts are compared.
pub fn compare_texts(
    machine: &mut Machine<'_>,
    op: CompareOp,
    left: &Arg,
    right: &Arg,
    to: u32,
) -> Turn
    ensures { Steps result machine.old machine.new (λ w. acts w (machine_of machine.old) (act.CompareTexts op left.now right.now to)) }
{
    match text_order(machine, left, right) {
        Ok(order) => machine.set_truth(to, holds(op, order)),
        Err(_) => Turn::WantsMemory,
    }
}

fn text_order(machine: &Machine<'_>, left: &Arg, right: &Arg) -> Result<Ordering, NoMemory>
    ensures { IfOk result (λ order. (op : Comparison) → steps.compare_texts (machine_of machine.now) op left.now right.now ≡ to (truth (holds op order))) }
{
    Ok(
        machine
            .text(left)?
            .as_slice()
            .cmp(machine.text(right)?.as_slice()),
    )
}

/// Whether two values of any type are equal, or are not.
pub fn equal(machine: &mut Machine<'_>, wanted: bool, left: &Arg, right: &Arg, to: u32) -> Turn
    ensures { Steps result machine.old machine.new (λ w. acts w (machine_of machine.old) (act.Equal wanted left.now right.now to)) }
{
    match are_equal(machine, left, right) {
        Ok(equal) => machine.set_truth(to, equal == wanted),
        Err(met) => machine.meet(met),
    }
}

fn are_equal(machine: &Machine<'_>, left: &Arg, right: &Arg) -> Result<bool, Met>
    ensures { (wanted : Bool) (w : World) → IsIn w machine.now → IsGivenAs (λ same. truth (beq same wanted)) result (steps.are_equal w (machine_of machine.now) wanted left.now right.now) }
{
    let (a, b) = (machine.look(left)?, machine.look(right)?);
    Ok(go_maps::equal(machine.alloc, &machine.code.types, a, b)?)
}

/// An integer becomes its negative.
pub fn negate(machine: &mut Machine<'_>, kind: IntKind, operand: &Arg, to: u32) -> Turn
    ensures { Steps result machine.old machine.new (λ w. acts w (machine_of machine.old) (act.Negate kind operand.now to)) }
{
    match machine.int(operand) {
        Ok(number) => machine.set_int(to, negative(kind, number)),
        Err(_) => Turn::WantsMemory,
    }
}

/// Each bit of an integer turns.
pub fn complement(machine: &mut Machine<'_>, kind: IntKind, operand: &Arg, to: u32) -> Turn
    ensures { Steps result machine.old machine.new (λ w. acts w (machine_of machine.old) (act.Complement kind operand.now to)) }
{
    match machine.int(operand) {
        Ok(number) => machine.set_int(to, turned(kind, number)),
        Err(_) => Turn::WantsMemory,
    }
}

/// A truth value turns.
pub fn not(machine: &mut Machine<'_>, operand: &Arg, to: u32) -> Turn
    ensures { Steps result machine.old machine.new (λ w. acts w (machine_of machine.old) (act.Not operand.now to)) }
{
    match machine.truth(operand) {
        Ok(truth) => machine.set_truth(to, !truth),
        Err(_) => Turn::WantsMemory,
    }
}
