//! Where the keys of a map stand: the numbers of their entries.

ghost use Rattle.std.specs.Prelude.{◌≡◌, Some, None, IfOk, OnOk, OnErr};
ghost use Rattle.go_value.specs.Values.{value_of};
ghost use Rattle.go_maps.specs.Keys.{Hashes, KeyCode, key_code};
ghost use Rattle.go_maps.specs.Places.{place_in, looked_up, Changes};

use crate::keys::key_bytes;
use go_base::{Bytes, NoMemory};
use go_type::Types;
use go_value::{Value, ValueError};
use indexmap::IndexMap;
use std::alloc::Global;

/// A key in the form in which it is looked up.
#[derive(Drop)]
pub(crate) enum Look {
    Int(i128),
    Other(Bytes),
}

pub(crate) fn look_of(alloc: Global, types: &Types, key: &Value) -> Result<Look, ValueError>
    ensures code { IfOk result (λ look. looked_up look ≡ key_code (value_of key.now)) }
    ensures fault { Hashes types.now (value_of key.now) result }
{
    match key {
        Value::Int(number) => Ok(Look::Int(*number)),
        _ => Ok(Look::Other(Bytes::new(key_bytes(alloc, types, key)?))),
    }
}

/// The numbers of the entries of keys.
#[derive(Drop)]
pub(crate) struct Places {
    ints: IndexMap<i128, u64>,
    others: IndexMap<Bytes, u64>,
}

impl Places {
    pub(crate) fn new(alloc: Global) -> Places
        ensures { (code : KeyCode) → place_in result code ≡ None }
    {
        Places {
            ints: IndexMap::new(alloc),
            others: IndexMap::new(alloc),
        }
    }

    pub(crate) fn find(&self, look: &Look) -> Option<u64>
        ensures { result ≡ place_in self.now (looked_up look.now) }
    {
        match look {
            Look::Int(number) => self.ints.get(number).copied(),
            Look::Other(bytes) => self.others.get(bytes).copied(),
        }
    }

    /// After `NoMemory` each key stands where it stood.
    pub(crate) fn insert(&mut self, look: Look, number: u64) -> Result<(), NoMemory>
        ensures ok { OnOk result (Changes (place_in self.old) (looked_up look) (Some number) (place_in self.new)) }
        ensures err { OnErr result ((code : KeyCode) → place_in self.new code ≡ place_in self.old code) }
    {
        match look {
            Look::Int(key) => match self.ints.insert(key, number) {
                Ok(_) => Ok(()),
                Err(_) => Err(NoMemory),
            },
            Look::Other(key) => match self.others.insert(key, number) {
                Ok(_) => Ok(()),
                Err(_) => Err(NoMemory),
            },
        }
    }

    pub(crate) fn remove(&mut self, look: &Look) -> Option<u64>
        ensures number { result ≡ place_in self.old (looked_up look.now) }
        ensures places { Changes (place_in self.old) (looked_up look.now) None (place_in self.new) }
    {
        match look {
            Look::Int(key) => self.ints.swap_remove(key),
            Look::Other(key) => self.others.swap_remove(key),
        }
    }

    pub(crate) fn clear(&mut self)
        ensures { (code : KeyCode) → place_in self.new code ≡ None }
    {
        self.ints.clear();
        self.others.clear();
    }
}
