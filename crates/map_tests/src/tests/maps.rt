//! Maps. Go specification, "Map types" and "For statements with range clause".

use go_base::{MapId, NoMemory};
use go_maps::{Entries, Entry, Maps};
use go_store::Store;
use go_type::Types;
use go_value::{Fault, Value};
use std::alloc::Global;
use std::test::Fail;
use value_fixtures::{BAG, INTS, made, push_shown, settled, shown, sound, types};

/// What is done with a map. Keys are words.
#[derive(Clone, Copy)]
enum Act {
    Put(&'static str, i128),
    Remove(&'static str),
    Clear,
}

/// What is done, and the entries then: the number of each, its key and its value.
const ACTS: &[(Act, &str)] = &[
    (Act::Put("1 int", 10), "0 [1] 10;"),
    (Act::Put("2 int", 20), "0 [1] 10;1 [2] 20;"),
    (Act::Put("1 int", 11), "0 [1] 11;1 [2] 20;"),
    (Act::Put("1 int8", 12), "0 [1] 11;1 [2] 20;2 [1] 12;"),
    (Act::Remove("1 int"), "1 [2] 20;2 [1] 12;"),
    (Act::Remove("1 int"), "1 [2] 20;2 [1] 12;"),
    (Act::Put("1 int", 13), "1 [2] 20;2 [1] 12;3 [1] 13;"),
    (Act::Put("nil", 14), "1 [2] 20;2 [1] 12;3 [1] 13;4 0 14;"),
    (Act::Clear, ""),
    (Act::Put("1 int", 15), "5 [1] 15;"),
    (Act::Put("1 2 blank pair", 16), "5 [1] 15;6 [] 16;"),
    (Act::Put("1 3 blank pair", 17), "5 [1] 15;6 [] 17;"),
    (
        Act::Put("'a string one holder", 18),
        "5 [1] 15;6 [] 17;7 [] 18;",
    ),
    (
        Act::Put("'a string one holder", 19),
        "5 [1] 15;6 [] 17;7 [] 19;",
    ),
];

fn make_act(
    alloc: Global,
    types: &Types,
    store: &mut Store,
    map: MapId,
    act: Act,
) -> Result<(), NoMemory> {
    match act {
        Act::Put(key, value) => {
            let key = made(alloc, types, key)?;
            sound(store.map_put(types, Some(map), key, Value::Int(value)))
        }
        Act::Remove(key) => {
            let key = made(alloc, types, key)?;
            sound(store.map_remove(types, Some(map), &key))
        }
        Act::Clear => {
            store.clear_map(Some(map));
            Ok(())
        }
    }
}

/// What is shown of entries.
fn listed(alloc: Global, entries: &Entries) -> Result<Vec<u8>, NoMemory> {
    let mut text = Vec::new(alloc);
    for entry in entries.as_slice() {
        push_shown(&mut text, &Value::Int(i128::from(entry.number)))?;
        text.push(b' ')?;
        push_shown(&mut text, &entry.key)?;
        text.push(b' ')?;
        push_shown(&mut text, &entry.value)?;
        text.push(b';')?;
    }
    Ok(text)
}

#[test]
fn entries_stand_in_order(rt: HostRuntime) -> Result<(), Fail> {
    let types = types(rt.alloc())?;
    let mut store = Store::new(rt.alloc());
    let map = store.make_map()?;
    for (done, given) in ACTS {
        make_act(rt.alloc(), &types, &mut store, map, *done)?;
        let entries = store.entries(rt.alloc(), Some(map))?;
        assert_eq!(rt; store.map_len(Some(map)), entries.len() as u64);
        let text = listed(rt.alloc(), &entries)?;
        assert_eq!(rt; text.as_slice(), given.as_bytes());
    }
    Ok(())
}

/// The entry that stands at a number is looked up, then 2 is removed and put anew, and 4 is put.
fn turn(
    alloc: Global,
    types: &Types,
    store: &mut Store,
    map: MapId,
    number: u64,
) -> Result<Option<Value>, NoMemory> {
    let Some(entry) = store.entry(alloc, Some(map), number)? else {
        return Ok(None);
    };
    for done in [Act::Remove("2"), Act::Put("2", 9), Act::Put("4", 4)] {
        make_act(alloc, types, store, map, done)?;
    }
    Ok(Some(entry.key))
}

/// A map of 1, 2 and 3.
fn filled(alloc: Global, types: &Types, store: &mut Store) -> Result<MapId, NoMemory> {
    let map = store.make_map()?;
    for done in [Act::Put("1", 1), Act::Put("2", 2), Act::Put("3", 3)] {
        make_act(alloc, types, store, map, done)?;
    }
    Ok(map)
}

/// The keys that a range over 1, 2 and 3 meets, where each turn changes the map.
fn ranged(alloc: Global, types: &Types, store: &mut Store) -> Result<Vec<u8>, NoMemory> {
    let map = filled(alloc, types, store)?;
    let mut text = Vec::new(alloc);
    let mut left = store.entry_numbers(alloc, Some(map))?;
    for _ in 0..left.len() {
        let Some(number) = left.pop() else {
            return Ok(text);
        };
        if let Some(key) = turn(alloc, types, store, map, number)? {
            push_shown(&mut text, &key)?;
        }
    }
    Ok(text)
}

#[test]
fn removed_entries_are_not_met(rt: HostRuntime) -> Result<(), Fail> {
    let types = types(rt.alloc())?;
    let mut store = Store::new(rt.alloc());
    let met = ranged(rt.alloc(), &types, &mut store)?;
    assert_eq!(rt; met.as_slice(), b"13".as_slice());
    let map = Some(MapId { number: 0 });
    assert_eq!(rt; store.map_len(map), 4);
    assert!(rt; store.has_entry(map, 0) && !store.has_entry(map, 1));
    assert!(rt; store.has_entry(map, 2) && !store.has_entry(map, 99));
    let key = Value::Int(2);
    let found = sound(store.map_get(rt.alloc(), &types, map, &key))?.ok_or("none")?;
    assert_eq!(rt; shown(rt.alloc(), &found)?.as_slice(), b"9".as_slice());
    Ok(())
}

/// The words of a key, whether the map is nil, the fault that the key meets, and the one that it meets where it is put.
const KEYS: &[(&str, bool, Option<Fault>, Option<Fault>)] = &[
    ("1 int", false, None, None),
    ("slice ints", false, UNHASHABLE, UNHASHABLE),
    ("slice ints one holder", false, UNHASHABLE, UNHASHABLE),
    (
        "slice one bag",
        false,
        Some(Fault::Unhashable(BAG)),
        Some(Fault::Unhashable(BAG)),
    ),
    ("1 int", true, None, Some(Fault::NilMap)),
    ("slice ints", true, UNHASHABLE, Some(Fault::NilMap)),
];

const UNHASHABLE: Option<Fault> = Some(Fault::Unhashable(INTS));

#[test]
fn keys_can_be_compared(rt: HostRuntime) -> Result<(), Fail> {
    let types = types(rt.alloc())?;
    let mut store = Store::new(rt.alloc());
    let made_map = Some(store.make_map()?);
    for (words, is_nil, fault, put_fault) in KEYS {
        let map = if *is_nil { None } else { made_map };
        let key = made(rt.alloc(), &types, words)?;
        let found = settled(store.map_get(rt.alloc(), &types, map, &key))?;
        assert!(rt; found.err() == *fault, "{words}");
        let removed = settled(store.map_remove(&types, map, &key))?;
        assert!(rt; removed.err() == *fault, "{words}");
        let put = settled(store.map_put(&types, map, key, Value::Int(1)))?;
        assert!(rt; put.err() == *put_fault, "{words}");
    }
    assert_eq!(rt; store.map_len(made_map), 1);
    Ok(())
}

#[test]
fn nil_maps_are_empty(rt: HostRuntime) -> Result<(), Fail> {
    let mut store = Store::new(rt.alloc());
    store.clear_map(None);
    assert_eq!(rt; store.map_len(None), 0);
    assert!(rt; !store.has_entry(None, 0));
    assert!(rt; store.entry(rt.alloc(), None, 0)?.is_none());
    assert!(rt; store.entries(rt.alloc(), None)?.is_empty());
    assert!(rt; store.entry_numbers(rt.alloc(), None)?.is_empty());
    let mut entries = Entries::new(rt.alloc());
    entries.push(Entry {
        number: 4,
        key: Value::Int(1),
        value: Value::Int(2),
    })?;
    assert_eq!(rt;
        listed(rt.alloc(), &entries)?.as_slice(),
        b"4 1 2;".as_slice()
    );
    Ok(())
}

#[test]
fn maps_alone(rt: HostRuntime) -> Result<(), Fail> {
    let types = types(rt.alloc())?;
    let mut maps = Maps::new(rt.alloc());
    let (first, second) = (Some(maps.make()?), Some(maps.make()?));
    for (key, value) in [(5, 50), (6, 60), (7, 70)] {
        sound(maps.put(&types, second, Value::Int(key), Value::Int(value)))?;
    }
    sound(maps.remove(&types, second, &Value::Int(5)))?;
    let found = sound(maps.get(rt.alloc(), &types, second, &Value::Int(6)))?;
    assert_eq!(rt;
        shown(rt.alloc(), &found.ok_or("none")?)?.as_slice(),
        b"60".as_slice()
    );
    assert!(rt; sound(maps.get(rt.alloc(), &types, first, &Value::Int(6)))?.is_none());
    assert_eq!(rt; (maps.len(first), maps.len(second)), (0, 2));
    assert!(rt; maps.has_entry(second, 1) && !maps.has_entry(second, 0));
    assert_eq!(rt; maps.entry(rt.alloc(), second, 2)?.ok_or("none")?.number, 2);
    assert_eq!(rt; maps.entries(rt.alloc(), second)?.len(), 2);
    let numbers = maps.entry_numbers(rt.alloc(), second)?;
    assert_eq!(rt; numbers.as_slice(), [2u64, 1].as_slice());
    maps.clear(second);
    assert_eq!(rt; maps.len(second), 0);
    Ok(())
}
