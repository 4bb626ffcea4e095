//! The constants of a program. Go specification, "Constant declarations".

ghost use Rattle.std.specs.Prelude.{◌≡◌, ◌==◌, ◌++◌, ◌∷◌, [], length, OnOk, OnErr};

use go_base::{NameId, NoMemory, Pos, TypeId};
use go_type::Const;
use std::alloc::Global;
use std::marker::Model;

/// A constant of a program.
#[derive(Drop)]
pub struct Constant {
    pub name: NameId,
    /// Its name.
    pub at: Pos,
    /// Its type; the kind of it where it is untyped.
    pub of: TypeId,
    pub value: Const,
}

/// Constants, by their numbers.
#[derive(Drop)]
pub struct Constants {
    items: Vec<Constant>,
}

impl Model for Constants {
    ghost use Rattle.std.specs.Prelude.{List};
    ghost use Rattle.go_names.specs.declared.constants.Constant.{Constant};

    ghost Value = { List Constant };

    ghost view = { λ l. l.items.items };
}

impl Constants {
    /// No constants.
    pub fn new(alloc: Global) -> Constants
        ensures { result ≡ [] }
    {
        Constants {
            items: Vec::new(alloc),
        }
    }

    /// Adds a constant at the end. After `NoMemory` the list is as before.
    pub fn push(&mut self, item: Constant) -> Result<(), NoMemory>
        ensures ok { OnOk result (self.new ≡ self.old ++ item ∷ []) }
        ensures err { OnErr result (self.new ≡ self.old) }
    {
        self.items.push(item)?;
        Ok(())
    }

    /// The constants themselves.
    pub fn as_slice(&self) -> &[Constant]
        ensures { result.now ≡ self.now }
    {
        self.items.as_slice()
    }

    /// The constant of a number. None where there is none.
    pub fn get(&self, number: u64) -> Option<&Constant> {
        self.items.as_slice().get(number as usize)
    }

    /// How many constants there are.
    pub fn len(&self) -> usize
        ensures { result ≡ length self.now }
    {
        self.items.len()
    }

    /// Whether there are none.
    pub fn is_empty(&self) -> bool
        ensures { result ≡ (length self.now == 0) }
    {
        self.items.is_empty()
    }
}
