//! The registers that instructions use and give.

ghost use Rattle.std.specs.Prelude.{◌≡◌, ◌++◌, OnOk};
ghost use Rattle.ssa_ir.specs.Uses.{registers_in, registers_in_all, registers_in_option, registers_in_call, registers_in_case, registers_in_cases, used_registers};

use go_base::NoMemory;
use ssa_ir::{Call, Op, Operand, SelectCase};

/// Adds the registers among the operands of an instruction, but for those of a phi, which are read elsewhere.
pub fn push_used(used: &mut Vec<u64>, op: &Op) -> Result<(), NoMemory>
    ensures { OnOk result (used.new.items ≡ used.old.items ++ used_registers op.now) }
{
    match op {
        Op::New(_) | Op::Phi(_) | Op::MakeMap(_) | Op::RunDefers | Op::Tick | Op::Jump(_) => Ok(()),
        Op::Binary { left, right, .. } => push_two(used, left, right),
        Op::Unary { operand, .. }
        | Op::Load(operand)
        | Op::Field { operand, .. }
        | Op::FieldAddress { operand, .. }
        | Op::Convert { operand, .. }
        | Op::ChangeType { operand, .. }
        | Op::MakeInterface { operand, .. }
        | Op::ChangeInterface { operand, .. }
        | Op::TypeAssert { operand, .. }
        | Op::Range(operand)
        | Op::Next(operand)
        | Op::Extract { operand, .. }
        | Op::Panic(operand) => push_one(used, operand),
        Op::MakeChan { size, .. } => push_one(used, size),
        Op::Receive { channel, .. } => push_one(used, channel),
        Op::If { test, .. } => push_one(used, test),
        Op::Store { at, value } => push_two(used, at, value),
        Op::Index { operand, index } | Op::IndexAddress { operand, index } => {
            push_two(used, operand, index)
        }
        Op::Lookup { map, key, .. } => push_two(used, map, key),
        Op::Update { map, key, value } => push_three(used, map, key, value),
        Op::Slice {
            operand,
            low,
            high,
            max,
        } => push_bounds(used, operand, low, high, max),
        Op::MakeClosure { captured, .. } => push_all(used, captured.as_slice()),
        Op::MakeSlice { len, cap, .. } => push_two(used, len, cap),
        Op::Call(call) | Op::Go(call) | Op::Defer(call) => push_call(used, call),
        Op::Send { channel, value } => push_two(used, channel, value),
        Op::Select { cases, .. } => push_cases(used, cases.as_slice()),
        Op::Return(results) => push_all(used, results.as_slice()),
    }
}

fn push_one(used: &mut Vec<u64>, operand: &Operand) -> Result<(), NoMemory>
    ensures { OnOk result (used.new.items ≡ used.old.items ++ registers_in operand.now) }
{
    if let Operand::Register(register) = operand {
        used.push(*register)?;
    }
    Ok(())
}

fn push_two(used: &mut Vec<u64>, first: &Operand, second: &Operand) -> Result<(), NoMemory>
    ensures { OnOk result (used.new.items ≡ used.old.items ++ (registers_in first.now ++ registers_in second.now)) }
{
    push_one(used, first)?;
    push_one(used, second)
}

fn push_three(
    used: &mut Vec<u64>,
    first: &Operand,
    second: &Operand,
    third: &Operand,
) -> Result<(), NoMemory>
    ensures { OnOk result (used.new.items ≡ used.old.items ++ (registers_in first.now ++ (registers_in second.now ++ registers_in third.now))) }
{
    push_one(used, first)?;
    push_two(used, second, third)
}

fn push_option(used: &mut Vec<u64>, operand: &Option<Operand>) -> Result<(), NoMemory>
    ensures { OnOk result (used.new.items ≡ used.old.items ++ registers_in_option operand.now) }
{
    match operand {
        Some(operand) => push_one(used, operand),
        None => Ok(()),
    }
}

fn push_bounds(
    used: &mut Vec<u64>,
    operand: &Operand,
    low: &Option<Operand>,
    high: &Option<Operand>,
    max: &Option<Operand>,
) -> Result<(), NoMemory>
    ensures { OnOk result (used.new.items ≡ used.old.items ++ (registers_in operand.now ++ (registers_in_option low.now ++ (registers_in_option high.now ++ registers_in_option max.now)))) }
{
    push_one(used, operand)?;
    push_option(used, low)?;
    push_option(used, high)?;
    push_option(used, max)
}

fn push_all(used: &mut Vec<u64>, operands: &[Operand]) -> Result<(), NoMemory>
    ensures { OnOk result (used.new.items ≡ used.old.items ++ registers_in_all operands.now) }
{
    for operand in operands {
        push_one(used, operand)?;
    }
    Ok(())
}

fn push_call(used: &mut Vec<u64>, call: &Call) -> Result<(), NoMemory>
    ensures { OnOk result (used.new.items ≡ used.old.items ++ registers_in_call call.now) }
{
    match call {
        Call::Static { arguments, .. } | Call::Builtin { arguments, .. } => {
            push_all(used, arguments.as_slice())
        }
        Call::Dynamic { callee, arguments } => {
            push_one(used, callee)?;
            push_all(used, arguments.as_slice())
        }
        Call::Invoke {
            receiver,
            arguments,
            ..
        } => {
            push_one(used, receiver)?;
            push_all(used, arguments.as_slice())
        }
    }
}

fn push_cases(used: &mut Vec<u64>, cases: &[SelectCase]) -> Result<(), NoMemory>
    ensures { OnOk result (used.new.items ≡ used.old.items ++ registers_in_cases cases.now) }
{
    for case in cases {
        push_case(used, case)?;
    }
    Ok(())
}

fn push_case(used: &mut Vec<u64>, case: &SelectCase) -> Result<(), NoMemory>
    ensures { OnOk result (used.new.items ≡ used.old.items ++ registers_in_case case.now) }
{
    match case {
        SelectCase::Send { channel, value } => push_two(used, channel, value),
        SelectCase::Receive { channel } => push_one(used, channel),
    }
}
