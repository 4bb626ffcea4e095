//! A function of integers, and the slots of a frame of it.

use go_base::{NameId, NoMemory, Pos, Text};
use go_store::Store;
use go_type::{Basic, TypeIds, Types, basic};
use go_value::{Value, ValueError};
use int_steps::int_step;
use interp_state::RegStack;
use ssa_ir::{Blocks, Function, FunctionKind, Instr, Op, Operand};
use std::alloc::Global;

/// What a step answers, and what the slots hold then.
pub type Outcome = (Result<(), ValueError>, [Option<i128>; 3]);

/// A function with two parameters or fewer, free variables, and one register.
pub fn function(
    alloc: Global,
    params: &[Basic],
    free: &[Basic],
    register: Basic,
) -> Result<Function, NoMemory> {
    Ok(Function {
        name: Text::new(alloc, "main.f")?,
        kind: FunctionKind::Source,
        params: types(alloc, params)?,
        variadic: false,
        free: types(alloc, free)?,
        results: TypeIds::new(alloc),
        registers: types(alloc, &[register])?,
        blocks: Blocks::new(alloc),
        recover: None,
    })
}

fn types(alloc: Global, kinds: &[Basic]) -> Result<TypeIds, NoMemory> {
    let mut ids = TypeIds::new(alloc);
    for kind in kinds {
        ids.push(basic(*kind))?;
    }
    Ok(ids)
}

/// A frame of three slots, the first of which hold values.
pub fn frame(alloc: Global, first: Value, second: Value) -> Result<RegStack, NoMemory> {
    let mut regs = RegStack::new(alloc);
    match regs.reserve(1, 3) {
        Ok(()) => {
            regs.enter(3);
            regs.set(0, first);
            regs.set(1, second);
            Ok(regs)
        }
        Err(NoMemory) => {
            drop((first, second));
            Err(NoMemory)
        }
    }
}

/// What a step of a function on a frame answers and leaves. Its register is the first.
pub fn step(
    alloc: Global,
    function: &Function,
    regs: &mut RegStack,
    store: &mut Store,
    op: Op,
) -> Result<Outcome, NoMemory> {
    let (error, method) = (NameId { number: 100 }, NameId { number: 101 });
    let types = Types::new(alloc, error, method)?;
    let instr = Instr {
        op,
        register: Some(0),
        at: Pos { file: 0, offset: 0 },
    };
    let answer = int_step(&types, regs, store, function, &instr);
    Ok((answer, [int_at(regs, 0), int_at(regs, 1), int_at(regs, 2)]))
}

/// The integer in a slot.
pub fn int_at(regs: &RegStack, slot: u64) -> Option<i128> {
    match regs.get(slot) {
        Some(Value::Int(number)) => Some(*number),
        Some(Value::Truth(truth)) => Some(i128::from(*truth)),
        _ => None,
    }
}

pub fn param(number: u64) -> Operand {
    Operand::Param(number)
}
