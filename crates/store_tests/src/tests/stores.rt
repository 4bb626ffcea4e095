//! Cells, and what is loaded from them and put in them. Go specification, "Variables".

use go_base::{CellId, NoMemory};
use go_store::Store;
use go_value::{Address, Fault, Pointer, Value, pointer_to};
use std::alloc::Global;
use std::test::Fail;
use value_fixtures::{parts, settled, shown, sound};

/// A store of a cell that holds 5, and of one that holds the parts 6 and 7.
fn two_cells(alloc: Global) -> Result<(Store, CellId, CellId), NoMemory> {
    let mut store = Store::new(alloc);
    let first = store.make_cell(Value::Int(5))?;
    let both = parts(alloc, Some(Value::Int(6)), Some(Value::Int(7)), false)?;
    let second = store.make_cell(both)?;
    Ok((store, first, second))
}

#[test]
fn cells_are_loaded(rt: HostRuntime) -> Result<(), Fail> {
    let (store, first, second) = two_cells(rt.alloc())?;
    assert_eq!(rt;
        (store.cell_count(), first.number, second.number),
        (2, 0, 1)
    );
    let whole = Address::whole(first);
    let value = sound(store.load_at(rt.alloc(), &whole))?;
    assert_eq!(rt; shown(rt.alloc(), &value)?.as_slice(), b"5".as_slice());
    let value = store.value_at(&whole).ok_or("none")?;
    assert_eq!(rt; shown(rt.alloc(), value)?.as_slice(), b"5".as_slice());
    let base = Address::whole(second).pointer(rt.alloc())?;
    let value = sound(store.load(rt.alloc(), &base))?;
    assert_eq!(rt; shown(rt.alloc(), &value)?.as_slice(), b" 6 7".as_slice());
    assert!(rt; store.value_at(&Address::whole(second)).is_none());
    let part = sound(store.address(rt.alloc(), &base, 1))?;
    assert!(rt; part.is_same(&pointer_to(rt.alloc(), second, 1)?));
    assert!(rt; store.load_int(&part) == Ok(7));
    let near = Address::near(rt.alloc(), second, 0)?;
    assert!(rt; store.load_int_at(&near) == Ok(6));
    assert_eq!(rt;
        (store.int_at(&near), store.int_at(&whole)),
        (Some(6), Some(5))
    );
    assert!(rt; store.load_int(&base) == Ok(0));
    assert_eq!(rt; store.int_at(&Address::whole(second)), None);
    Ok(())
}

#[test]
fn cells_are_changed(rt: HostRuntime) -> Result<(), Fail> {
    let (store, first, second) = two_cells(rt.alloc())?;
    let mut store = store;
    let whole = Address::whole(first);
    sound(store.put_at(&whole, Value::Truth(true)))?;
    let value = sound(store.load_at(rt.alloc(), &whole))?;
    assert_eq!(rt; shown(rt.alloc(), &value)?.as_slice(), b"true".as_slice());
    sound(store.put_int_at(&whole, 256))?;
    assert_eq!(rt; store.int_at(&whole), Some(256));
    let part = pointer_to(rt.alloc(), second, 1)?;
    sound(store.put_int(&part, 300))?;
    sound(store.put(&pointer_to(rt.alloc(), second, 0)?, Value::Int(-1)))?;
    let value = sound(store.load_at(rt.alloc(), &Address::whole(second)))?;
    assert_eq!(rt;
        shown(rt.alloc(), &value)?.as_slice(),
        b" -1 300".as_slice()
    );
    let both = parts(rt.alloc(), Some(Value::Int(1)), Some(Value::Int(2)), true)?;
    sound(store.put_at(&Address::whole(second), both))?;
    let value = sound(store.load_at(rt.alloc(), &Address::whole(second)))?;
    assert_eq!(rt; shown(rt.alloc(), &value)?.as_slice(), b" 1 _2".as_slice());
    Ok(())
}

#[test]
fn nil_is_not_followed(rt: HostRuntime) -> Result<(), Fail> {
    let (store, _, _) = two_cells(rt.alloc())?;
    let mut store = store;
    let (nil, at) = (Pointer::nil(rt.alloc()), Address::nil());
    let fault = Some(Fault::NilPointer);
    assert!(rt; settled(store.load(rt.alloc(), &nil))?.err() == fault);
    assert!(rt; settled(store.load_at(rt.alloc(), &at))?.err() == fault);
    assert!(rt; settled(store.put(&nil, Value::Int(1)))?.err() == fault);
    assert!(rt; settled(store.put_at(&at, Value::Int(1)))?.err() == fault);
    assert!(rt; settled(store.put_int(&nil, 1))?.err() == fault);
    assert!(rt; settled(store.put_int_at(&at, 1))?.err() == fault);
    assert!(rt; settled(store.address(rt.alloc(), &nil, 0))?.err() == fault);
    assert!(rt; store.load_int(&nil).err() == fault);
    assert!(rt; store.load_int_at(&at).err() == fault);
    assert_eq!(rt; store.int_at(&at), None);
    assert!(rt; store.value_at(&at).is_none());
    Ok(())
}
