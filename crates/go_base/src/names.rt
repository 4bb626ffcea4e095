//! The names of a program, each held once.

ghost use Rattle.std.specs.Prelude.{◌≡◌, ◌==◌, [], ◌++◌, ◌∷◌, List, ℕ, Some, IfOk, OnErr, OnOk, slice_get, option_map, length, map, position, string_bytes};
ghost use Rattle.std.specs.Str.{bytes_eq};
ghost use Rattle.go_base.specs.NameTable.{with_text, place_of, AreDistinct};

use crate::ids::NameId;
use crate::memory::NoMemory;
use indexmap::IndexSet;
use std::alloc::Global;
use std::marker::Model;

/// Names, numbered from 0 in the order in which they came. A contract sees the list of their texts, which are distinct;
/// the number of an id is an index into it.
#[derive(Drop)]
pub struct Names {
    alloc: Global,
    texts: IndexSet<String>,
}

impl Model for Names {
    ghost use Rattle.std.specs.Prelude.{ℕ, List, map, string_bytes};

    ghost Value = { List (List ℕ) };

    ghost view = { λ n. map string_bytes n.texts.keys };

    ghost use Rattle.go_base.specs.NameTable.{AreDistinct};

    ghost invariant = { λ n. AreDistinct (map string_bytes n.texts.keys) };
}

impl Names {
    /// No names.
    pub fn new(alloc: Global) -> Names
        ensures { result ≡ [] }
    {
        Names {
            alloc,
            texts: IndexSet::new(alloc),
        }
    }

    /// The id of a text: that which it has, or else the next. Names that are held keep their ids. After `NoMemory`
    /// the names are as before.
    pub fn intern(&mut self, text: &str) -> Result<NameId, NoMemory>
        ensures ok { IfOk result (λ id. id.number ≡ place_of text.now self.old) }
        ensures named { IfOk result (λ id. slice_get self.new id.number ≡ Some text.now) }
        ensures held { OnOk result (self.new ≡ with_text text.now self.old) }
        ensures distinct { AreDistinct self.new }
        ensures err { OnErr result (self.new ≡ self.old) }
    {
        if let Some(index) = self.texts.get_index_of(text) {
            return Ok(NameId {
                number: index as u64,
            });
        }
        let owned = String::from_str(self.alloc, text)?;
        let (index, _) = self.texts.insert_full(owned)?;
        Ok(NameId {
            number: index as u64,
        })
    }

    /// The text of a name. None exactly where no name has the id.
    pub fn text(&self, id: NameId) -> Option<&str>
        ensures text { option_map (λ text. text.now) result ≡ slice_get self.now id.number }
        ensures distinct { AreDistinct self.now }
    {
        let text = self.texts.get_index(id.number as usize)?;
        Some(text.as_str())
    }

    /// How many names there are.
    pub fn len(&self) -> usize
        ensures { result ≡ length self.now }
    {
        self.texts.len()
    }

    /// Whether there are none.
    pub fn is_empty(&self) -> bool
        ensures { result ≡ (length self.now == 0) }
    {
        self.texts.len() == 0
    }

    /// The id of a text. None exactly where it is not held.
    pub fn find(&self, text: &str) -> Option<NameId>
        ensures { option_map (λ id. id.number) result ≡ position (bytes_eq text.now) self.now }
    {
        match self.texts.get_index_of(text) {
            Some(index) => Some(NameId {
                number: index as u64,
            }),
            None => None,
        }
    }

    /// The same names, with the same ids.
    pub fn copy(&self, alloc: Global) -> Result<Names, NoMemory>
        ensures { IfOk result (λ copy. copy ≡ self.now) }
    {
        Ok(Names {
            alloc,
            texts: copy_texts(alloc, self.texts.as_slice())?,
        })
    }
}

fn copy_texts(alloc: Global, texts: &[String]) -> Result<IndexSet<String>, NoMemory>
    requires { AreDistinct (map string_bytes texts.now) }
    ensures { IfOk result (λ copy. map string_bytes copy.keys ≡ map string_bytes texts.now) }
{
    let mut copy = IndexSet::new(alloc);
    for text in texts {
        copy.insert(String::from_str(alloc, text.as_str())?)?;
    }
    Ok(copy)
}
