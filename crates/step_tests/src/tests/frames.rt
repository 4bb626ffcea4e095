//! The slots of frames, as they come and go.

use crate::tests::rigs::int_at;
use go_value::Value;
use interp_state::RegStack;
use std::test::Fail;

#[test]
fn a_frame_comes_and_goes(rt: HostRuntime) -> Result<(), Fail> {
    let mut regs = RegStack::new(rt.alloc());
    regs.reserve(2, 5)?;
    regs.enter(2);
    regs.set(0, Value::Int(4));
    regs.enter(3);
    assert_eq!(rt; int_at(&regs, 0), None);
    assert_eq!(rt; regs.depth(), 2);
    regs.leave();
    assert_eq!(rt; int_at(&regs, 0), Some(4));
    assert_eq!(rt; regs.depth(), 1);
    Ok(())
}

#[test]
fn slots_are_taken(rt: HostRuntime) -> Result<(), Fail> {
    let mut regs = RegStack::new(rt.alloc());
    regs.reserve(1, 2)?;
    regs.enter(2);
    regs.set_int(1, 7);
    regs.set_int(1, 8);
    assert_eq!(rt; int_at(&regs, 1), Some(8));
    drop(regs.take_slot(1));
    assert_eq!(rt; int_at(&regs, 1), None);
    regs.leave();
    regs.leave();
    assert_eq!(rt; regs.depth(), 0);
    Ok(())
}
