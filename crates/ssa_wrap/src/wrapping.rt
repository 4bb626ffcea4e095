//! The wrapper of a need.

use crate::walking::{Held, Straight, hold, lost, selection_of, start_of};
use go_base::{NameId, NoMemory, Text, TypeId};
use go_text::{Labels, push_method, push_type};
use go_tree::Program;
use go_type::{Selection, SelectionKind, Signature, TypeIds, TypeTerm, Types};
use ssa_ir::{
    Block, BlockIds, Blocks, Call, Function, FunctionKind, Op, Operand, Operands, WrapNeed,
};
use std::alloc::Global;

/// A need taken apart.
#[derive(Clone, Copy)]
struct Wanted {
    receiver: TypeId,
    name: NameId,
    package: u32,
    /// Whether the receiver is bound.
    is_bound: bool,
    word: &'static str,
}

fn taken_apart(need: &WrapNeed) -> Wanted {
    match need {
        WrapNeed::Promotion {
            receiver,
            name,
            package,
        } => Wanted {
            receiver: *receiver,
            name: *name,
            package: *package,
            is_bound: false,
            word: "promote (",
        },
        WrapNeed::Bound {
            receiver,
            name,
            package,
        } => Wanted {
            receiver: *receiver,
            name: *name,
            package: *package,
            is_bound: true,
            word: "bound (",
        },
        WrapNeed::Expression {
            receiver,
            name,
            package,
        } => Wanted {
            receiver: *receiver,
            name: *name,
            package: *package,
            is_bound: false,
            word: "expr (",
        },
    }
}

/// The function that a need asks for: it goes from a value to the method, calls it and gives its results. Function numbers
/// are those of the program. `types` has the program's types under their ids; it may hold more afterwards.
pub fn wrapper(
    alloc: Global,
    program: &Program,
    labels: &Labels,
    types: &mut Types,
    need: &WrapNeed,
) -> Result<Function, NoMemory> {
    let wanted = taken_apart(need);
    let name = wrapper_name(alloc, program, labels, types, wanted)?;
    let selection = selection_of(alloc, types, wanted.receiver, wanted.name, wanted.package)?;
    let signature = signature_of(alloc, types, wanted, &selection)?;
    let mut straight = Straight::new(alloc);
    let call = call_of(
        &mut straight,
        program,
        types,
        wanted,
        &selection,
        &signature,
    )?;
    give(&mut straight, types, call, signature.results.as_slice())?;
    function(alloc, straight, name, wanted, signature)
}

/// The name of a wrapper.
fn wrapper_name(
    alloc: Global,
    program: &Program,
    labels: &Labels,
    types: &Types,
    wanted: Wanted,
) -> Result<Text, NoMemory> {
    let mut bytes = Vec::new(alloc);
    bytes.extend_from_slice(wanted.word.as_bytes())?;
    push_type(&mut bytes, &program.names, labels, types, wanted.receiver)?;
    bytes.extend_from_slice(b").")?;
    push_method(
        &mut bytes,
        &program.names,
        labels,
        wanted.name,
        wanted.package,
    )?;
    match std::str::from_utf8(bytes.as_slice()) {
        Ok(text) => Text::new(alloc, text),
        Err(_) => Err(lost()),
    }
}

/// The signature of the method.
fn signature_of(
    alloc: Global,
    types: &Types,
    wanted: Wanted,
    selection: &Option<Selection>,
) -> Result<Signature, NoMemory> {
    let of = match selection {
        Some(selection) => selection.result,
        None => interface_method(types, wanted)?,
    };
    match types.underlying_term(of) {
        Some(TypeTerm::Func(signature)) => signature.copy(alloc),
        _ => Err(lost()),
    }
}

fn interface_method(types: &Types, wanted: Wanted) -> Result<TypeId, NoMemory> {
    let Some(TypeTerm::Interface(methods)) = types.underlying_term(wanted.receiver) else {
        return Err(lost());
    };
    for method in methods.as_slice() {
        if method.name == wanted.name && method.package == wanted.package {
            return Ok(method.of);
        }
    }
    Err(lost())
}

/// The parameters that are passed on.
fn passed_on(alloc: Global, wanted: Wanted, count: usize) -> Result<Operands, NoMemory> {
    let mut arguments = Operands::new(alloc);
    let first = if wanted.is_bound { 0u64 } else { 1 };
    for number in 0..count as u64 {
        arguments.push(Operand::Param(number.saturating_add(first)))?;
    }
    Ok(arguments)
}

fn call_of(
    straight: &mut Straight,
    program: &Program,
    types: &mut Types,
    wanted: Wanted,
    selection: &Option<Selection>,
    signature: &Signature,
) -> Result<Call, NoMemory> {
    let arguments = passed_on(straight.alloc, wanted, signature.params.as_slice().len())?;
    let from = if wanted.is_bound {
        Operand::Free(0)
    } else {
        Operand::Param(0)
    };
    let (name, package) = (wanted.name, wanted.package);
    match selection {
        None => {
            let held = Held {
                operand: from,
                of: wanted.receiver,
                by_address: false,
            };
            let kind = SelectionKind::InterfaceMethod;
            straight.call(program, held, kind, name, package, arguments)
        }
        Some(selection) => {
            let start = start_of(types, from, wanted.receiver);
            let end = straight.walk(types, start, selection.path.as_slice())?;
            straight.call(program, end, selection.kind, name, package, arguments)
        }
    }
}

/// Calls, and gives what the method gives.
fn give(
    straight: &mut Straight,
    types: &mut Types,
    call: Call,
    results: &[TypeId],
) -> Result<(), NoMemory> {
    let mut given = Operands::new(straight.alloc);
    match results {
        [] => straight.effect(Op::Call(call))?,
        [of] => given.push(straight.value(Op::Call(call), *of)?)?,
        _ => {
            let mut parts = TypeIds::new(straight.alloc);
            push_ids(&mut parts, results)?;
            let tuple = hold(types, TypeTerm::Tuple(parts))?;
            let tuple = straight.value(Op::Call(call), tuple)?;
            push_parts(straight, &mut given, &tuple, results)?;
        }
    }
    straight.effect(Op::Return(given))
}

fn push_ids(ids: &mut TypeIds, more: &[TypeId]) -> Result<(), NoMemory> {
    for id in more {
        ids.push(*id)?;
    }
    Ok(())
}

fn push_parts(
    straight: &mut Straight,
    given: &mut Operands,
    tuple: &Operand,
    results: &[TypeId],
) -> Result<(), NoMemory> {
    let mut part = 0u32;
    for of in results {
        let operand = tuple.copy(straight.alloc)?;
        given.push(straight.value(Op::Extract { operand, part }, *of)?)?;
        part = part.saturating_add(1);
    }
    Ok(())
}

fn function(
    alloc: Global,
    straight: Straight,
    name: Text,
    wanted: Wanted,
    signature: Signature,
) -> Result<Function, NoMemory> {
    let mut params = TypeIds::new(alloc);
    let mut free = TypeIds::new(alloc);
    if wanted.is_bound {
        free.push(wanted.receiver)?;
    } else {
        params.push(wanted.receiver)?;
    }
    push_ids(&mut params, signature.params.as_slice())?;
    let mut blocks = Blocks::new(alloc);
    blocks.push(Block {
        preds: BlockIds::new(alloc),
        instrs: straight.instrs,
    })?;
    Ok(Function {
        name,
        kind: FunctionKind::Wrapper,
        params,
        variadic: signature.variadic,
        free,
        results: signature.results,
        registers: straight.registers,
        blocks,
        recover: None,
    })
}
