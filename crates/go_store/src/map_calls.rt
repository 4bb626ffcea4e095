//! The maps of a store. Go specification, "Map types".

ghost use Rattle.std.specs.Prelude.{◌≡◌, ◌++◌, ◌∷◌, [], IfOk, OnOk, OnErr, map, option_map, is_some, length, reverse};
ghost use Rattle.go_value.specs.Values.{value_of};
ghost use Rattle.go_maps.specs.Entries.{cleared, count_in, entries_in, numbered, numbers_in, pair_made, value_of_key, with_pair, without_key};
ghost use Rattle.go_maps.specs.Keys.{Hashes};
ghost use Rattle.go_maps.specs.Maps.{map_in, entry_in, FaultsPut};
ghost use Rattle.go_store.specs.MapCalls.{made_map, map_changed};
ghost use Rattle.go_store.specs.Stores.{stored};

use crate::store::Store;
use go_base::{MapId, NoMemory};
use go_maps::{Entries, Entry};
use go_type::Types;
use go_value::{Value, ValueError};
use std::alloc::Global;

impl Store {
    /// A new map without entries. After `NoMemory` the store is as before.
    pub fn make_map(&mut self) -> Result<MapId, NoMemory>
        ensures number { IfOk result (λ made. made.number ≡ length (stored self.old).maps) }
        ensures ok { IfOk result (λ _. stored self.new ≡ made_map (stored self.old)) }
        ensures err { OnErr result (stored self.new ≡ stored self.old) }
    {
        self.maps.make()
    }

    /// The value of a key. None where no entry has the key; a nil map has none. `Unhashable` exactly where the key is.
    pub fn map_get(
        &self,
        alloc: Global,
        types: &Types,
        map: Option<MapId>,
        key: &Value,
    ) -> Result<Option<Value>, ValueError>
        ensures fault { Hashes types.now (value_of key.now) result }
        ensures value { IfOk result (λ found. option_map value_of found ≡ value_of_key (value_of key.now) (map_in (stored self.now).maps map)) }
    {
        self.maps.get(alloc, types, map, key)
    }

    /// Gives a key a value: in its entry where it has one, and else in a new entry, which is the last. `NilMap` exactly
    /// where the map is nil, and else `Unhashable` exactly where the key is. After an error the store is as before.
    pub fn map_put(
        &mut self,
        types: &Types,
        map: Option<MapId>,
        key: Value,
        value: Value,
    ) -> Result<(), ValueError>
        ensures fault { FaultsPut types.now map (value_of key) result }
        ensures ok { OnOk result (stored self.new ≡ map_changed (with_pair (value_of key) (value_of value)) (stored self.old) map) }
        ensures err { OnErr result (stored self.new ≡ stored self.old) }
    {
        self.maps.put(types, map, key, value)
    }

    /// Removes the entry of a key, where it has one. `Unhashable` exactly where the key is. After an error the store is
    /// as before.
    pub fn map_remove(
        &mut self,
        types: &Types,
        map: Option<MapId>,
        key: &Value,
    ) -> Result<(), ValueError>
        ensures fault { Hashes types.now (value_of key.now) result }
        ensures ok { OnOk result (stored self.new ≡ map_changed (without_key (value_of key.now)) (stored self.old) map) }
        ensures err { OnErr result (stored self.new ≡ stored self.old) }
    {
        self.maps.remove(types, map, key)
    }

    /// Removes every entry of a map.
    pub fn clear_map(&mut self, map: Option<MapId>)
        ensures { stored self.new ≡ map_changed cleared (stored self.old) map }
    {
        self.maps.clear(map);
    }

    /// How many entries a map has.
    pub fn map_len(&self, map: Option<MapId>) -> u64
        ensures { result ≡ count_in (map_in (stored self.now).maps map) }
    {
        self.maps.len(map)
    }

    /// Whether the entry of a number stands in a map.
    pub fn has_entry(&self, map: Option<MapId>, entry: u64) -> bool
        ensures { result ≡ is_some (entry_in (stored self.now).maps map entry) }
    {
        self.maps.has_entry(map, entry)
    }

    /// The entry of a number. None where it does not stand in the map.
    pub fn entry(
        &self,
        alloc: Global,
        map: Option<MapId>,
        number: u64,
    ) -> Result<Option<Entry>, NoMemory>
        ensures { IfOk result (λ found. option_map pair_made found ≡ option_map (numbered number) (entry_in (stored self.now).maps map number)) }
    {
        self.maps.entry(alloc, map, number)
    }

    /// The entries of a map, in order of insertion.
    pub fn entries(&self, alloc: Global, id: Option<MapId>) -> Result<Entries, NoMemory>
        ensures { IfOk result (λ all. map pair_made all ≡ entries_in (map_in (stored self.now).maps id)) }
    {
        self.maps.entries(alloc, id)
    }

    /// The numbers of the entries of a map, the last first.
    pub fn entry_numbers(&self, alloc: Global, map: Option<MapId>) -> Result<Vec<u64>, NoMemory>
        ensures { IfOk result (λ all. all.items ≡ reverse (numbers_in (map_in (stored self.now).maps map))) }
    {
        self.maps.entry_numbers(alloc, map)
    }
}
