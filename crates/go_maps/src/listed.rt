//! Entries of a map, as they are handed out.

ghost use Rattle.std.specs.Prelude.{◌≡◌, ◌++◌, ◌∷◌, [], ◌==◌, OnOk, OnErr, length};

use go_base::NoMemory;
use go_value::Value;
use std::alloc::Global;
use std::marker::Model;

/// An entry of a map.
#[derive(Drop)]
pub struct Entry {
    /// How many entries were made in the map before it, removed ones counted.
    pub number: u64,
    pub key: Value,
    pub value: Value,
}

/// Entries, in order.
#[derive(Drop)]
pub struct Entries {
    entries: Vec<Entry>,
}

impl Model for Entries {
    ghost use Rattle.std.specs.Prelude.{List};
    ghost use Rattle.go_maps.specs.declared.listed.Entry.{Entry};

    ghost Value = { List Entry };

    ghost view = { λ e. e.entries.items };

    ghost use Rattle.go_value.specs.contracts.values.Value as e;
    ghost use Rattle.std.specs.Coded.{codes};

    ghost coded = { Prim.hlevel (codes, e.the_row.coded) };
}

impl Entries {
    /// No entries.
    pub fn new(alloc: Global) -> Entries
        ensures { result ≡ [] }
    {
        Entries {
            entries: Vec::new(alloc),
        }
    }

    /// Adds an entry at the end. After `NoMemory` the list is as before.
    pub fn push(&mut self, entry: Entry) -> Result<(), NoMemory>
        ensures ok { OnOk result (self.new ≡ self.old ++ entry ∷ []) }
        ensures err { OnErr result (self.new ≡ self.old) }
    {
        self.entries.push(entry)?;
        Ok(())
    }

    /// The entries themselves.
    pub fn as_slice(&self) -> &[Entry]
        ensures { result.now ≡ self.now }
    {
        self.entries.as_slice()
    }

    /// How many entries there are.
    pub fn len(&self) -> usize
        ensures { result ≡ length self.now }
    {
        self.entries.len()
    }

    /// Whether there are none.
    pub fn is_empty(&self) -> bool
        ensures { result ≡ (length self.now == 0) }
    {
        self.entries.len() == 0
    }
}
