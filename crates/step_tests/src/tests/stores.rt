//! Loads and stores.

use crate::tests::rigs::{Outcome, frame, function, param, step};
use go_base::{CellId, NoMemory};
use go_store::Store;
use go_type::Basic;
use go_value::{Address, Fault, Value, ValueError};
use ssa_ir::Op;
use std::alloc::Global;
use std::test::Fail;

/// A step on a pointer and an integer, and what the pointer points to then. The cell held 5.
fn through(alloc: Global, at: Address, op: Op) -> Result<(Outcome, Option<i128>), NoMemory> {
    let function = function(alloc, &[Basic::Int, Basic::Int], &[], Basic::Int)?;
    let mut store = Store::new(alloc);
    let cell = store.make_cell(Value::Int(5))?;
    let mut regs = frame(alloc, Value::Pointer(at), Value::Int(9))?;
    let outcome = step(alloc, &function, &mut regs, &mut store, op)?;
    let held = store.int_at(&Address::whole(cell));
    Ok((outcome, held))
}

fn put() -> Op {
    let (at, value) = (param(0), param(1));
    Op::Store { at, value }
}

#[test]
fn pointers_are_followed(rt: HostRuntime) -> Result<(), Fail> {
    let there = || Address::whole(CellId { number: 0 });
    let (outcome, held) = through(rt.alloc(), there(), Op::Load(param(0)))?;
    assert!(rt; outcome.0 == Ok(()));
    assert_eq!(rt; outcome.1, [None, Some(9), Some(5)]);
    assert_eq!(rt; held, Some(5));
    let (outcome, held) = through(rt.alloc(), there(), put())?;
    assert!(rt; outcome.0 == Ok(()));
    assert_eq!(rt; outcome.1, [None, Some(9), None]);
    assert_eq!(rt; held, Some(9));
    Ok(())
}

#[test]
fn nil_is_not_followed(rt: HostRuntime) -> Result<(), Fail> {
    let met = Err(ValueError::Fault(Fault::NilPointer));
    for op in [Op::Load(param(0)), put()] {
        let (outcome, held) = through(rt.alloc(), Address::nil(), op)?;
        assert!(rt; outcome.0 == met);
        assert_eq!(rt; outcome.1, [None, Some(9), None]);
        assert_eq!(rt; held, Some(5));
    }
    Ok(())
}
