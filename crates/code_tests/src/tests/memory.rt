//! Calls that take memory and that no other test makes succeed where there is some.

use crate::tests::kinds::kept;
use crate::tests::rows::{block_id, register, some_type};
use go_base::{Bytes, FuncId, NameId, NoMemory};
use ssa_ir::{
    BlockIds, CodeVariable, CodeVariables, ConstValue, MethodLine, MethodLines, Needs, Op, Operand,
    PhiEdge, WrapNeed,
};
use ssa_sane::push_used;
use std::alloc::Global;
use std::test::Fail;

const NAME: NameId = NameId { number: 3 };

/// How many items lists of one have once more.
fn copied_lists(alloc: Global) -> Result<[usize; 4], NoMemory> {
    let (name, package, of) = (NAME, 1, some_type());
    let mut blocks = BlockIds::new(alloc);
    blocks.push(block_id(1))?;
    let mut variables = CodeVariables::new(alloc);
    variables.push(CodeVariable { name, package, of })?;
    let mut methods = MethodLines::new(alloc);
    methods.push(MethodLine {
        receiver: of,
        name,
        package,
        function: FuncId { number: 2 },
    })?;
    let mut needs = Needs::new(alloc);
    needs.push(WrapNeed::Bound {
        receiver: of,
        name,
        package,
    })?;
    Ok([
        blocks.copy(alloc)?.len(),
        variables.copy(alloc)?.len(),
        methods.copy(alloc)?.len(),
        needs.copy(alloc)?.len(),
    ])
}

/// The block of an edge with a text, once more.
fn copied_edge(alloc: Global) -> Result<u64, NoMemory> {
    let value = ConstValue::Text(Bytes::new(Vec::from_slice(alloc, b"ab")?));
    let of = some_type();
    let edge = PhiEdge {
        from: block_id(1),
        value: Operand::Constant { value, of },
    };
    let copy = edge.copy(alloc);
    drop(edge);
    Ok(copy?.from.number)
}

/// The registers that a load uses.
fn used(alloc: Global) -> Result<Vec<u64>, NoMemory> {
    let mut used = Vec::new(alloc);
    let op = Op::Load(register(4));
    let done = push_used(&mut used, &op);
    drop(op);
    kept(used, done)
}

#[test]
fn calls_with_memory(rt: HostRuntime) -> Result<(), Fail> {
    assert_eq!(rt; copied_lists(rt.alloc())?, [1, 1, 1, 1]);
    assert_eq!(rt; copied_edge(rt.alloc())?, 1);
    assert_eq!(rt; used(rt.alloc())?.first(), Some(&4));
    Ok(())
}
