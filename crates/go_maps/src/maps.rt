//! Maps. Go specification, "Map types", "Index expressions" and "Deletion of map elements".

ghost use Rattle.std.specs.Prelude.{◌≡◌, ◌++◌, ◌∷◌, [], IfOk, OnOk, OnErr, map, option_map, is_some, length, reverse, slice_get, Some};
ghost use Rattle.go_value.specs.Values.{value_of};
ghost use Rattle.go_maps.specs.Entries.{cleared, count_in, entries_in, entries_of, numbered, numbers_in, pair_made, value_of_key, with_pair, without_key};
ghost use Rattle.go_maps.specs.Keys.{Hashes};
ghost use Rattle.go_maps.specs.Maps.{maps_of, map_in, entry_in, with_map, FaultsPut};

use crate::entries::MapEntries;
use crate::listed::{Entries, Entry};
use crate::memory::lost;
use crate::places::look_of;
use go_base::{MapId, NoMemory};
use go_type::Types;
use go_value::{Fault, Value, ValueError};
use std::alloc::Global;

/// Maps, numbered from 0 in the order in which they were made.
#[derive(Drop)]
pub struct Maps {
    alloc: Global,
    maps: Vec<MapEntries>,
}

impl Maps {
    /// No maps.
    pub fn new(alloc: Global) -> Maps
        ensures { maps_of result ≡ [] }
    {
        Maps {
            alloc,
            maps: Vec::new(alloc),
        }
    }

    /// A new map without entries. After `NoMemory` the maps are as before.
    #[tactic(auto, using(crate::proofs::LookedUp::appending))]
    pub fn make(&mut self) -> Result<MapId, NoMemory>
        ensures number { IfOk result (λ made. made.number ≡ length (maps_of self.old)) }
        ensures ok { IfOk result (λ _. maps_of self.new ≡ maps_of self.old ++ [] ∷ []) }
        ensures err { OnErr result (maps_of self.new ≡ maps_of self.old) }
    {
        let number = self.maps.len() as u64;
        self.maps.push(MapEntries::new(self.alloc))?;
        Ok(MapId { number })
    }

    #[tactic(auto, using(crate::proofs::LookedUp::mapped))]
    fn map(&self, map: MapId) -> Result<&MapEntries, NoMemory>
        ensures { IfOk result (λ entries. slice_get (maps_of self.now) map.number ≡ Some (entries_of entries.now)) }
    {
        match self.maps.get(map.number as usize) {
            Some(entries) => Ok(entries),
            None => Err(lost()),
        }
    }

    /// The value of a key. None where no entry has the key; a nil map has none. `Unhashable` exactly where the key is.
    pub fn get(
        &self,
        alloc: Global,
        types: &Types,
        map: Option<MapId>,
        key: &Value,
    ) -> Result<Option<Value>, ValueError>
        ensures fault { Hashes types.now (value_of key.now) result }
        ensures value { IfOk result (λ found. option_map value_of found ≡ value_of_key (value_of key.now) (map_in (maps_of self.now) map)) }
    {
        let look = look_of(alloc, types, key)?;
        let Some(map) = map else {
            return Ok(None);
        };
        let entries = self.map(map)?;
        let Some(number) = entries.find(&look) else {
            return Ok(None);
        };
        match entries.slot(number) {
            Some(slot) => Ok(Some(slot.copy_value(alloc)?)),
            None => Err(ValueError::from(lost())),
        }
    }

    /// Gives a key a value: in its entry where it has one, and else in a new entry, which is the last. `NilMap` exactly
    /// where the map is nil, and else `Unhashable` exactly where the key is. After an error the maps are
    /// as before.
    pub fn put(
        &mut self,
        types: &Types,
        map: Option<MapId>,
        key: Value,
        value: Value,
    ) -> Result<(), ValueError>
        ensures fault { FaultsPut types.now map (value_of key) result }
        ensures ok { OnOk result (maps_of self.new ≡ with_map (with_pair (value_of key) (value_of value)) (maps_of self.old) map) }
        ensures err { OnErr result (maps_of self.new ≡ maps_of self.old) }
    {
        let Some(map) = map else {
            return Err(ValueError::Fault(Fault::NilMap));
        };
        let look = look_of(self.alloc, types, &key)?;
        match self.maps.get_mut(map.number as usize) {
            Some(entries) => Ok(entries.put(look, key, value)?),
            None => Err(ValueError::from(lost())),
        }
    }

    /// Removes the entry of a key, where it has one. `Unhashable` exactly where the key is. After an error the maps are
    /// as before.
    pub fn remove(
        &mut self,
        types: &Types,
        map: Option<MapId>,
        key: &Value,
    ) -> Result<(), ValueError>
        ensures fault { Hashes types.now (value_of key.now) result }
        ensures ok { OnOk result (maps_of self.new ≡ with_map (without_key (value_of key.now)) (maps_of self.old) map) }
        ensures err { OnErr result (maps_of self.new ≡ maps_of self.old) }
    {
        let look = look_of(self.alloc, types, key)?;
        let Some(map) = map else {
            return Ok(());
        };
        match self.maps.get_mut(map.number as usize) {
            Some(entries) => {
                entries.remove(&look);
                Ok(())
            }
            None => Err(ValueError::from(lost())),
        }
    }

    /// Removes every entry of a map.
    pub fn clear(&mut self, map: Option<MapId>)
        ensures { maps_of self.new ≡ with_map cleared (maps_of self.old) map }
    {
        if let Some(map) = map {
            if let Some(entries) = self.maps.get_mut(map.number as usize) {
                entries.clear();
            }
        }
    }

    /// How many entries a map has.
    pub fn len(&self, map: Option<MapId>) -> u64
        ensures { result ≡ count_in (map_in (maps_of self.now) map) }
    {
        match map {
            Some(map) => match self.maps.get(map.number as usize) {
                Some(entries) => entries.len(),
                None => 0,
            },
            None => 0,
        }
    }

    /// Whether the entry of a number stands in a map.
    pub fn has_entry(&self, map: Option<MapId>, entry: u64) -> bool
        ensures { result ≡ is_some (entry_in (maps_of self.now) map entry) }
    {
        match map {
            Some(map) => match self.maps.get(map.number as usize) {
                Some(entries) => entries.slot(entry).is_some(),
                None => false,
            },
            None => false,
        }
    }

    /// The entry of a number. None where it does not stand in the map.
    pub fn entry(
        &self,
        alloc: Global,
        map: Option<MapId>,
        number: u64,
    ) -> Result<Option<Entry>, NoMemory>
        ensures { IfOk result (λ found. option_map pair_made found ≡ option_map (numbered number) (entry_in (maps_of self.now) map number)) }
    {
        let Some(map) = map else {
            return Ok(None);
        };
        match self.map(map)?.slot(number) {
            Some(slot) => Ok(Some(slot.copy(alloc, number)?)),
            None => Ok(None),
        }
    }

    /// The entries of a map, in order of insertion.
    pub fn entries(&self, alloc: Global, id: Option<MapId>) -> Result<Entries, NoMemory>
        ensures { IfOk result (λ all. map pair_made all ≡ entries_in (map_in (maps_of self.now) id)) }
    {
        match id {
            Some(id) => self.map(id)?.list(alloc),
            None => Ok(Entries::new(alloc)),
        }
    }

    /// The numbers of the entries of a map, the last first.
    pub fn entry_numbers(&self, alloc: Global, map: Option<MapId>) -> Result<Vec<u64>, NoMemory>
        ensures { IfOk result (λ all. all.items ≡ reverse (numbers_in (map_in (maps_of self.now) map))) }
    {
        match map {
            Some(map) => self.map(map)?.numbers(alloc),
            None => Ok(Vec::new(alloc)),
        }
    }
}
