//! A function when it is built.

use crate::builder::{Builder, OpenBlock};
use crate::joining::beside;
use go_base::{BlockId, NoMemory, Text};
use go_type::{TypeIds, Types};
use ssa_ir::{Block, Blocks, Function, FunctionKind, Needs};
use std::alloc::Global;

/// What a function is but its blocks.
#[derive(Drop)]
pub struct Header {
    pub name: Text,
    pub kind: FunctionKind,
    pub params: TypeIds,
    pub variadic: bool,
    pub free: TypeIds,
    pub results: TypeIds,
}

/// A function, the wrappers that its code needs, and the types with those that were met. A function number at or past the
/// number of functions of the program is that of a need.
#[derive(Drop)]
pub struct Built {
    pub function: Function,
    pub needs: Needs,
    pub types: Types,
}

impl Builder<'_> {
    /// The function with its blocks.
    pub fn finish(self, header: Header) -> Result<Built, NoMemory> {
        let Builder {
            alloc,
            program: _,
            types,
            function: _,
            blank: _,
            blocks,
            current: _,
            registers,
            homes,
            needs,
            recover,
            parts,
        } = self;
        drop((homes, parts));
        let others = (header, registers, needs, types);
        let (blocks, others) = beside(closed(alloc, blocks), others)?;
        let (header, registers, needs, types) = others;
        Ok(Built {
            function: function_of(header, registers, blocks, recover),
            needs,
            types,
        })
    }
}

/// The blocks, to which no code is added any more.
fn closed(alloc: Global, blocks: Vec<OpenBlock>) -> Result<Blocks, NoMemory> {
    let mut closed = Blocks::new(alloc);
    for block in blocks {
        let OpenBlock { preds, instrs, .. } = block;
        closed.push(Block { preds, instrs })?;
    }
    Ok(closed)
}

fn function_of(
    header: Header,
    registers: TypeIds,
    blocks: Blocks,
    recover: Option<BlockId>,
) -> Function {
    Function {
        name: header.name,
        kind: header.kind,
        params: header.params,
        variadic: header.variadic,
        free: header.free,
        results: header.results,
        registers,
        blocks,
        recover,
    }
}
