//! What functions give. Go specification, "Return statements".

use crate::error::lost;
use crate::flow::Flow;
use go_base::{NoMemory, Pos};
use go_tree::{Body, Values};
use ssa_expr::{Builder, lower_values};
use ssa_ir::{Op, Operand, Operands};
use std::alloc::Global;

/// `return`, with values or without.
pub fn lower_return(flow: &mut Flow<'_>, values: &Option<Values>, at: Pos) -> Result<(), NoMemory> {
    let operands = match values {
        Some(values) => lower_values(&mut flow.builder, values)?,
        None => Vec::new(flow.builder.allocator()),
    };
    match flow.builder.body() {
        Some(body) => give(flow, body, operands, values.is_none(), at),
        None => Err(lost()),
    }
}

/// The values become the results; then deferred calls are made, and the function gives its results.
pub fn give(
    flow: &mut Flow<'_>,
    body: &Body,
    values: Vec<Operand>,
    is_bare: bool,
    at: Pos,
) -> Result<(), NoMemory> {
    if !is_bare {
        store_results(&mut flow.builder, body, values.as_slice(), at)?;
    }
    if body.has_defer {
        flow.builder.effect(Op::RunDefers, at)?;
    }
    if body.has_defer || is_bare {
        return give_loaded(&mut flow.builder, body, at);
    }
    let given = operands_of(flow.builder.allocator(), values)?;
    flow.builder.effect(Op::Return(given), at)
}

fn operands_of(alloc: Global, values: Vec<Operand>) -> Result<Operands, NoMemory> {
    let mut operands = Operands::new(alloc);
    for value in values {
        operands.push(value)?;
    }
    Ok(operands)
}

fn store_results(
    builder: &mut Builder<'_>,
    body: &Body,
    values: &[Operand],
    at: Pos,
) -> Result<(), NoMemory> {
    let mut values = values.iter();
    for var in body.results.as_slice() {
        match values.next() {
            Some(value) => {
                let value = value.copy(builder.allocator())?;
                builder.write_var(*var, value, at)?;
            }
            None => return Err(lost()),
        }
    }
    Ok(())
}

/// The function gives what its results hold.
pub fn give_loaded(builder: &mut Builder<'_>, body: &Body, at: Pos) -> Result<(), NoMemory> {
    let mut given = Operands::new(builder.allocator());
    for var in body.results.as_slice() {
        given.push(builder.read_var(*var, at)?)?;
    }
    builder.effect(Op::Return(given), at)
}
