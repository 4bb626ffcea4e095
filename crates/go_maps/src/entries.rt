//! The entries of one map.

ghost use Rattle.std.specs.Prelude.{◌≡◌, ◌++◌, ◌∷◌, [], IfOk, OnErr, OnOk, option_map, option_copied, map, reverse, Some, None};
ghost use Rattle.go_value.specs.Values.{value_of};
ghost use Rattle.go_maps.specs.Keys.{key_code};
ghost use Rattle.go_maps.specs.Places.{looked_up};
ghost use Rattle.go_maps.specs.Entries.{pair_of, pair_made, numbered, entries_of, entries_in, entry_at, numbers_in, count_in, place_of_code, with_value_at, with_value, with_pair_at, with_pair, without_at, cleared};

use crate::listed::{Entries, Entry};
use crate::places::{Look, Places};
use go_base::NoMemory;
use go_value::Value;
use std::alloc::Global;
use std::marker::Model;

/// The entries by their numbers, the removed ones left open, and where each key stands.
#[derive(Drop)]
pub(crate) struct MapEntries {
    slots: Vec<Option<Slot>>,
    live: u64,
    places: Places,
}

#[derive(Drop)]
pub(crate) struct Slot {
    key: Value,
    value: Value,
}

impl Model for MapEntries {
    ghost use Rattle.std.specs.Prelude.{List, Option};
    ghost use Rattle.go_maps.specs.declared.entries.Slot.{Slot};

    ghost Value = { List (Option Slot) };

    ghost use Rattle.go_value.specs.contracts.values.Value as e;
    ghost use Rattle.std.specs.Coded.{codes};

    ghost coded = { Prim.hlevel (codes, e.the_row.coded) };

    ghost use Rattle.go_maps.specs.Found.{IsKept};

    ghost view = { λ e. e.slots.items };

    ghost invariant = { IsKept };
}

impl MapEntries {
    pub(crate) fn new(alloc: Global) -> MapEntries
        ensures { result ≡ [] }
    {
        MapEntries {
            slots: Vec::new(alloc),
            live: 0,
            places: Places::new(alloc),
        }
    }

    /// How many entries stand.
    pub(crate) fn len(&self) -> u64
        ensures { result ≡ count_in (entries_of self.now) }
    {
        self.live
    }

    /// The number of the entry of a key.
    pub(crate) fn find(&self, look: &Look) -> Option<u64>
        ensures { result ≡ place_of_code (looked_up look.now) (entries_of self.now) }
    {
        self.places.find(look)
    }

    pub(crate) fn slot(&self, number: u64) -> Option<&Slot>
        ensures { option_map pair_of (option_copied result) ≡ entry_at (entries_of self.now) number }
    {
        slot_at(self.slots.as_slice(), number)
    }

    /// Gives a key a value: in its entry where it has one, and else in a new entry, which is the last. After `NoMemory`
    /// the entries are as before.
    pub(crate) fn put(&mut self, look: Look, key: Value, value: Value) -> Result<(), NoMemory>
        requires { looked_up look ≡ key_code (value_of key) }
        ensures ok { OnOk result (entries_of self.new ≡ with_pair (value_of key) (value_of value) (entries_of self.old)) }
        ensures err { OnErr result (self.new ≡ self.old) }
    {
        match self.find(&look) {
            Some(number) => {
                self.replace(number, value);
                Ok(())
            }
            None => self.add(look, key, value),
        }
    }

    /// Gives the entry of a number a value.
    fn replace(&mut self, number: u64, new: Value)
        ensures { entries_of self.new ≡ with_value_at number (value_of new) (entries_of self.old) }
    {
        let Some(place) = self.slots.get_mut(number as usize) else {
            return drop(new);
        };
        replace_value(place, new);
    }

    /// A new entry, of a key that has none.
    fn add(&mut self, look: Look, key: Value, value: Value) -> Result<(), NoMemory>
        requires code { looked_up look ≡ key_code (value_of key) }
        requires absent { place_of_code (looked_up look) (entries_of self.old) ≡ None }
        ensures ok { OnOk result (entries_of self.new ≡ with_pair_at None (value_of key) (value_of value) (entries_of self.old)) }
        ensures err { OnErr result (self.new ≡ self.old) }
    {
        let number = self.slots.len() as u64;
        self.slots.push(Some(Slot { key, value }))?;
        match self.places.insert(look, number) {
            Ok(()) => {
                self.live = self.live.saturating_add(1);
                Ok(())
            }
            Err(error) => {
                let _ = self.slots.pop();
                Err(error)
            }
        }
    }

    /// Removes the entry of a key, where it has one.
    pub(crate) fn remove(&mut self, look: &Look)
        ensures { entries_of self.new ≡ without_at (place_of_code (looked_up look.now) (entries_of self.old)) (entries_of self.old) }
    {
        let Some(number) = self.places.remove(look) else {
            return;
        };
        self.live = self.live.saturating_sub(1);
        let Some(place) = self.slots.get_mut(number as usize) else {
            return;
        };
        open(place);
    }

    pub(crate) fn clear(&mut self)
        ensures { entries_of self.new ≡ cleared (entries_of self.old) }
    {
        open_all(self.slots.as_mut_slice());
        self.live = 0;
        self.places.clear();
    }

    /// The entries, in order of insertion.
    pub(crate) fn list(&self, alloc: Global) -> Result<Entries, NoMemory>
        ensures { IfOk result (λ all. map pair_made all ≡ entries_in (entries_of self.now)) }
    {
        let mut all = Entries::new(alloc);
        push_entries(alloc, &mut all, self.slots.as_slice())?;
        Ok(all)
    }

    /// The numbers of the entries, the last first.
    pub(crate) fn numbers(&self, alloc: Global) -> Result<Vec<u64>, NoMemory>
        ensures { IfOk result (λ all. all.items ≡ reverse (numbers_in (entries_of self.now))) }
    {
        let mut numbers = Vec::new(alloc);
        push_numbers(&mut numbers, self.slots.as_slice())?;
        numbers.as_mut_slice().reverse();
        Ok(numbers)
    }
}

impl Slot {
    /// A copy of the value.
    pub(crate) fn copy_value(&self, alloc: Global) -> Result<Value, NoMemory>
        ensures { IfOk result (λ copy. value_of copy ≡ (pair_of self.now).value) }
    {
        Ok(self.value.copy(alloc)?)
    }

    /// A copy, as the entry of a number.
    pub(crate) fn copy(&self, alloc: Global, number: u64) -> Result<Entry, NoMemory>
        ensures { IfOk result (λ entry. pair_made entry ≡ numbered number (pair_of self.now)) }
    {
        Ok(Entry {
            number,
            key: self.key.copy(alloc)?,
            value: self.value.copy(alloc)?,
        })
    }
}

fn slot_at(slots: &[Option<Slot>], number: u64) -> Option<&Slot>
    ensures { option_map pair_of (option_copied result) ≡ entry_at (entries_of slots.now) number }
{
    match slots.get(number as usize) {
        Some(Some(slot)) => Some(slot),
        _ => None,
    }
}

fn open(place: &mut Option<Slot>)
    ensures { place.new ≡ None }
{
    *place = None;
}

fn replace_value(place: &mut Option<Slot>, new: Value)
    ensures { option_map pair_of place.new ≡ with_value (value_of new) (option_map pair_of place.old) }
{
    if let Some(slot) = place {
        slot.value = new;
    }
}

fn open_all(slots: &mut [Option<Slot>])
    ensures { entries_of slots.new ≡ cleared (entries_of slots.old) }
{
    for slot in slots.iter_mut() {
        open(slot);
    }
}

fn push_entries(alloc: Global, all: &mut Entries, slots: &[Option<Slot>]) -> Result<(), NoMemory>
    requires { all.old ≡ [] }
    ensures { OnOk result (map pair_made all.new ≡ entries_in (entries_of slots.now)) }
{
    for (number, slot) in slots.iter().enumerate() {
        if let Some(slot) = slot {
            all.push(slot.copy(alloc, number as u64)?)?;
        }
    }
    Ok(())
}

fn push_numbers(numbers: &mut Vec<u64>, slots: &[Option<Slot>]) -> Result<(), NoMemory>
    requires { numbers.old.items ≡ [] }
    ensures { OnOk result (numbers.new.items ≡ numbers_in (entries_of slots.now)) }
{
    for (number, slot) in slots.iter().enumerate() {
        if slot.is_some() {
            numbers.push(number as u64)?;
        }
    }
    Ok(())
}
