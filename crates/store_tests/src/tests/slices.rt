//! Slices. Go specification, "Slice expressions", "Appending to and copying slices" and "Making slices".

use go_base::NoMemory;
use go_store::{
    MAX_SLICE_LEAVES, Store, array_slice, bytes_of_text, element, runes_of_text, slice_of,
    text_of_bytes, text_of_runes,
};
use go_value::{Address, Fault, Pointer, SliceValue, Value};
use std::alloc::Global;
use std::test::Fail;
use value_fixtures::{bytes, parts, settled, shown, sound};

const MOST: i128 = MAX_SLICE_LEAVES as i128;

/// The leaves of an element, a length and a capacity, and the fault that they meet.
const SIZES: &[(u32, i128, i128, Option<Fault>)] = &[
    (1, 0, 0, None),
    (1, 2, 4, None),
    (1, -1, 4, Some(Fault::MakeSliceLen)),
    (1, -1, -1, Some(Fault::MakeSliceLen)),
    (1, MOST + 1, MOST + 1, Some(Fault::MakeSliceLen)),
    (1, 2, 1, Some(Fault::MakeSliceCap)),
    (1, 0, -1, Some(Fault::MakeSliceCap)),
    (1, 0, MOST + 1, Some(Fault::MakeSliceCap)),
    (MAX_SLICE_LEAVES, 1, 1, None),
    (MAX_SLICE_LEAVES, 2, 2, Some(Fault::MakeSliceLen)),
    (MAX_SLICE_LEAVES, 1, 2, Some(Fault::MakeSliceCap)),
    (MAX_SLICE_LEAVES + 1, 1, 1, Some(Fault::MakeSliceLen)),
    (MAX_SLICE_LEAVES + 1, 0, 0, None),
];

#[test]
fn slices_have_sizes(rt: HostRuntime) -> Result<(), Fail> {
    let mut store = Store::new(rt.alloc());
    for (leaves, len, cap, fault) in SIZES {
        let found = settled(store.make_slice(&Value::Int(0), *leaves, *len, *cap))?;
        match (found, fault) {
            (Ok(slice), None) => {
                let sizes = (i128::from(slice.len), i128::from(slice.cap));
                assert_eq!(rt; sizes, (*len, *cap));
                assert!(rt; !slice.is_nil());
            }
            (found, fault) => assert!(rt; found.err() == *fault, "{leaves} {len} {cap}"),
        }
    }
    Ok(())
}

/// A slice of so many elements, of which each is its number.
fn counted(store: &mut Store, alloc: Global, len: u32, cap: u32) -> Result<SliceValue, NoMemory> {
    let (len, cap) = (i128::from(len), i128::from(cap));
    let slice = sound(store.make_slice(&Value::Int(0), 1, len, cap))?;
    for index in 0..len {
        let at = sound(element(alloc, &slice, index))?;
        sound(store.put_int_at(&at, index))?;
    }
    Ok(slice)
}

/// The first integers of a slice.
fn held(store: &Store, alloc: Global, slice: &SliceValue) -> Result<[Option<i128>; 5], NoMemory> {
    let mut held = [None; 5];
    for (index, place) in (0i128..).zip(held.iter_mut()) {
        if let Ok(at) = element(alloc, slice, index) {
            *place = store.int_at(&at);
        }
    }
    Ok(held)
}

/// A length, a capacity, how many elements are appended, the length and the capacity then, and whether the array is
/// shared. The capacity is the larger of the length needed and twice the old one.
const APPENDED: &[(u32, u32, usize, u64, u64, bool)] = &[
    (2, 4, 1, 3, 4, true),
    (2, 4, 2, 4, 4, true),
    (2, 4, 3, 5, 8, false),
    (2, 2, 1, 3, 4, false),
    (2, 2, 3, 5, 5, false),
    (1, 1, 1, 2, 2, false),
    (0, 1, 1, 1, 1, true),
    (2, 2, 0, 2, 2, true),
];

#[test]
fn slices_grow(rt: HostRuntime) -> Result<(), Fail> {
    let mut store = Store::new(rt.alloc());
    let items = [Value::Int(7), Value::Int(7), Value::Int(7)];
    for (len, cap, times, new_len, new_cap, shared) in APPENDED {
        let old = counted(&mut store, rt.alloc(), *len, *cap)?;
        let items = items.get(..*times).unwrap_or(&[]);
        let new = sound(store.append(1, &old, items))?;
        assert_eq!(rt;
            (new.len, new.cap),
            (*new_len, *new_cap),
            "{len} {cap} {times}"
        );
        assert_eq!(rt; new.at.is_same(&old.at), *shared, "{len} {cap} {times}");
        sound(store.put_int_at(&sound(element(rt.alloc(), &new, 0))?, 99))?;
        let seen = held(&store, rt.alloc(), &old)?.contains(&Some(99));
        assert_eq!(rt; seen, *shared && *len > 0, "{len} {cap} {times}");
    }
    Ok(())
}

#[test]
fn appended_elements_stand_behind(rt: HostRuntime) -> Result<(), Fail> {
    let mut store = Store::new(rt.alloc());
    let items = [Value::Int(7), Value::Int(8)];
    let nil = SliceValue::nil(rt.alloc());
    let first = sound(store.append(1, &nil, &items))?;
    assert_eq!(rt; (first.len, first.cap), (2, 2));
    let second = sound(store.append(1, &first, &items))?;
    let wanted = [Some(7), Some(8), Some(7), Some(8), None];
    assert_eq!(rt; held(&store, rt.alloc(), &second)?, wanted);
    let none = sound(store.append(1, &nil, &[]))?;
    assert!(rt; none.is_nil());
    // The capacity is cut to the limit of leaves, and no more is appended.
    let third = MAX_SLICE_LEAVES / 3;
    let most = sound(store.append(third, &first, &[Value::Int(9)]))?;
    assert_eq!(rt; (most.len, most.cap), (3, 3));
    let more = settled(store.append(third, &most, &[Value::Int(9)]))?;
    assert!(rt; more.err() == Some(Fault::GrowSlice));
    Ok(())
}

/// The bounds of a part of a slice of 2 elements with a capacity of 4, and the length and the capacity of the part.
const PARTS: &[(i128, i128, i128, Option<(u64, u64)>)] = &[
    (0, 2, 4, Some((2, 4))),
    (1, 3, 4, Some((2, 3))),
    (1, 1, 2, Some((0, 1))),
    (4, 4, 4, Some((0, 0))),
    (0, 5, 5, None),
    (-1, 2, 4, None),
    (2, 1, 4, None),
    (0, 3, 2, None),
];

#[test]
fn slices_have_parts(rt: HostRuntime) -> Result<(), Fail> {
    let mut store = Store::new(rt.alloc());
    for (low, high, max, given) in PARTS {
        let slice = counted(&mut store, rt.alloc(), 2, 4)?;
        match (slice_of(slice, *low, *high, *max), given) {
            (Ok(part), Some(given)) => assert_eq!(rt; (part.len, part.cap), *given),
            (found, given) => {
                assert!(rt; found.err() == Some(Fault::SliceBounds) && given.is_none());
            }
        }
    }
    assert!(rt; slice_of(SliceValue::nil(rt.alloc()), 0, 0, 0).is_ok_and(|part| part.is_nil()));
    let slice = counted(&mut store, rt.alloc(), 4, 4)?;
    let part = slice_of(slice, 2, 3, 4).ok().ok_or("no part")?;
    let wanted = [Some(2), None, None, None, None];
    assert_eq!(rt; held(&store, rt.alloc(), &part)?, wanted);
    let index = settled(element(rt.alloc(), &part, 1))?;
    let (fault, len) = (1, 1);
    assert!(rt; index.err() == Some(Fault::Index { index: fault, len }));
    Ok(())
}

#[test]
fn arrays_are_sliced(rt: HostRuntime) -> Result<(), Fail> {
    let mut store = Store::new(rt.alloc());
    let both = parts(rt.alloc(), Some(Value::Int(6)), Some(Value::Int(7)), false)?;
    let array = Address::whole(store.make_cell(both)?).pointer(rt.alloc())?;
    let slice = sound(array_slice(rt.alloc(), &array, 2))?;
    assert_eq!(rt; (slice.len, slice.cap), (2, 2));
    sound(store.put_int_at(&sound(element(rt.alloc(), &slice, 1))?, 9))?;
    let value = sound(store.load(rt.alloc(), &array))?;
    assert_eq!(rt; shown(rt.alloc(), &value)?.as_slice(), b" 6 9".as_slice());
    let nil = settled(array_slice(rt.alloc(), &Pointer::nil(rt.alloc()), 2))?;
    assert!(rt; nil.err() == Some(Fault::NilPointer));
    Ok(())
}

/// Where the target and the source of a copy begin in a slice of 0, 1, 2, 3 and 4, how many are copied, and what
/// stands there then.
const COPIED: &[(i128, i128, u64, [i128; 5])] = &[
    (1, 0, 4, [0, 0, 1, 2, 3]),
    (0, 1, 4, [1, 2, 3, 4, 4]),
    (0, 0, 5, [0, 1, 2, 3, 4]),
    (5, 0, 0, [0, 1, 2, 3, 4]),
    (3, 0, 2, [0, 1, 2, 0, 1]),
];

#[test]
fn elements_are_copied(rt: HostRuntime) -> Result<(), Fail> {
    for (to, from, count, given) in COPIED {
        let mut store = Store::new(rt.alloc());
        let slice = counted(&mut store, rt.alloc(), 5, 5)?;
        let source = slice_of(slice.copy(rt.alloc())?, *from, 5, 5)
            .ok()
            .ok_or("no part")?;
        let target = slice_of(slice.copy(rt.alloc())?, *to, 5, 5)
            .ok()
            .ok_or("no part")?;
        assert_eq!(rt; sound(store.copy_items(&target, &source))?, *count);
        let wanted = given.map(Some);
        assert_eq!(rt; held(&store, rt.alloc(), &slice)?, wanted, "{to} {from}");
    }
    Ok(())
}

/// A text, its code points (none where there are more than five), and the text of these.
const CONVERTED: &[(&[u8], &[i128], &[u8])] = &[
    (b"", &[], b""),
    (b"abc", &[97, 98, 99], b"abc"),
    (
        b"a\xff\xc3\xa9",
        &[97, 0xfffd, 233],
        b"a\xef\xbf\xbd\xc3\xa9",
    ),
    (b"\xf0\x9f\x99\x82", &[0x1f642], b"\xf0\x9f\x99\x82"),
];

#[test]
fn texts_are_converted(rt: HostRuntime) -> Result<(), Fail> {
    let mut store = Store::new(rt.alloc());
    for (text, runes, given) in CONVERTED {
        let text = bytes(rt.alloc(), text)?;
        let slice = sound(bytes_of_text(rt.alloc(), &mut store, &text))?;
        assert_eq!(rt;
            (slice.len, slice.cap),
            (text.len() as u64, text.len() as u64)
        );
        let back = sound(text_of_bytes(rt.alloc(), &store, &slice))?;
        assert_eq!(rt; back.as_slice(), text.as_slice());
        let slice = sound(runes_of_text(rt.alloc(), &mut store, &text))?;
        assert_eq!(rt; slice.len, runes.len() as u64);
        let found = held(&store, rt.alloc(), &slice)?;
        for (rune, found) in runes.iter().zip(found.iter()) {
            assert_eq!(rt; *found, Some(*rune));
        }
        let back = sound(text_of_runes(rt.alloc(), &store, &slice))?;
        assert_eq!(rt; back.as_slice(), *given);
    }
    // An element of bytes that is no byte any more, and is no code point.
    let text = bytes(rt.alloc(), b"abc")?;
    let slice = sound(bytes_of_text(rt.alloc(), &mut store, &text))?;
    sound(store.put_int_at(&sound(element(rt.alloc(), &slice, 1))?, 0x110000))?;
    let wanted = [Some(97), Some(0x110000), Some(99), None, None];
    assert_eq!(rt; held(&store, rt.alloc(), &slice)?, wanted);
    let back = sound(text_of_runes(rt.alloc(), &store, &slice))?;
    assert_eq!(rt; back.as_slice(), b"a\xef\xbf\xbdc".as_slice());
    Ok(())
}
