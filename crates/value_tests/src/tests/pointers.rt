//! Pointers, how addresses stand for them, nil slices, and the states of ranges.

use go_base::{CellId, NoMemory};
use go_value::{Address, Fault, Form, Pointer, RangeState, SliceValue, Value, pointer_to};
use std::alloc::Global;
use std::rc::Rc;
use std::test::Fail;
use value_fixtures::{bytes, settled, sound};

const CELL: CellId = CellId { number: 3 };

/// A cell whose number takes more than 32 bits.
const FAR_CELL: CellId = CellId {
    number: 0x1_0000_0003,
};

/// A cell, and the parts that a path leads through.
const PATHS: &[(CellId, &[u32])] = &[
    (CELL, &[]),
    (CELL, &[5]),
    (CELL, &[u32::MAX]),
    (CELL, &[5, 0]),
    (FAR_CELL, &[]),
    (FAR_CELL, &[5]),
    (FAR_CELL, &[5, 0, 7]),
];

/// The pointer and the address that a path leads to.
fn led(alloc: Global, cell: CellId, path: &[u32]) -> Result<(Pointer, Address), NoMemory> {
    let mut address = Address::whole(cell);
    let mut pointer = Address::whole(cell).pointer(alloc)?;
    for step in path {
        address = sound(address.part(alloc, *step))?;
        pointer = sound(pointer.part(alloc, *step))?;
    }
    Ok((pointer, address))
}

#[test]
fn addresses_stand_for_pointers(rt: HostRuntime) -> Result<(), Fail> {
    for (cell, path) in PATHS {
        let (pointer, address) = led(rt.alloc(), *cell, path)?;
        assert_eq!(rt; address.cell(), Some(*cell));
        assert!(rt; pointer.is_same(&address.pointer(rt.alloc())?), "{path:?}");
        assert!(rt; pointer.is_same(&pointer.copy(rt.alloc())?));
        let other = Address::of(rt.alloc(), pointer)?;
        assert!(rt; address.is_same(&other) && address.is_same(&address.copy()?));
        let deeper = sound(address.part(rt.alloc(), 0))?;
        assert!(rt; !address.is_same(&deeper), "{path:?}");
    }
    Ok(())
}

#[test]
fn addresses_have_forms(rt: HostRuntime) -> Result<(), Fail> {
    let near = Address::near(rt.alloc(), CELL, 5)?;
    assert!(rt; matches!(near.form(), Form::Near { cell: 3, part: 5 }));
    assert!(rt; near.is_same(&Address::of(rt.alloc(), pointer_to(rt.alloc(), CELL, 5)?)?));
    assert!(rt; !near.is_same(&Address::near(rt.alloc(), CELL, 6)?));
    let far = Address::near(rt.alloc(), FAR_CELL, 5)?;
    assert!(rt; matches!(far.form(), Form::Far(_)));
    assert!(rt; !far.is_same(&near));
    assert!(rt; matches!(Address::whole(CELL).form(), Form::Whole(CELL)));
    assert!(rt; matches!(Address::nil().form(), Form::Nil));
    Ok(())
}

#[test]
fn nil_has_no_parts(rt: HostRuntime) -> Result<(), Fail> {
    let fault = Some(Fault::NilPointer);
    let pointer = Pointer::nil(rt.alloc());
    assert!(rt; settled(pointer.part(rt.alloc(), 0))?.err() == fault);
    assert!(rt; settled(Address::nil().part(rt.alloc(), 0))?.err() == fault);
    let address = Address::of(rt.alloc(), pointer)?;
    assert!(rt; address.is_nil() && address.is_same(&Address::nil()));
    assert_eq!(rt; address.cell(), None);
    assert!(rt; !Address::whole(CELL).is_nil());
    let slice = SliceValue::nil(rt.alloc());
    assert!(rt; slice.is_nil() && slice.copy(rt.alloc())?.is_nil());
    assert_eq!(rt; (slice.len, slice.cap), (0, 0));
    Ok(())
}

#[test]
fn ranges_are_copied(rt: HostRuntime) -> Result<(), Fail> {
    let bytes = Rc::new(rt.alloc(), bytes(rt.alloc(), b"abc")?)?;
    let text = RangeState::Text { bytes, next: 2 };
    let copy = text.copy(rt.alloc())?;
    assert!(rt; matches!(&copy, RangeState::Text { next: 2, .. }));
    let left = Vec::from_slice(rt.alloc(), &[4, 1])?;
    let map = RangeState::Map { map: None, left };
    let value = Value::Iter(Box::new(rt.alloc(), map)?).copy(rt.alloc())?;
    let left = match &value {
        Value::Iter(state) => match &**state {
            RangeState::Map { left, .. } => left.as_slice(),
            RangeState::Text { .. } => &[],
        },
        _ => &[],
    };
    assert_eq!(rt; left, [4u64, 1].as_slice());
    Ok(())
}
