//! The names that were read. Go specification, "Uses of identifiers" in "Declarations and scope".

ghost use Rattle.std.specs.Prelude.{◌≡◌, ◌==◌, ◌++◌, ◌∷◌, [], length, OnOk, OnErr};

use go_base::{FuncId, NoMemory, Pos, VarId};
use std::alloc::Global;
use std::marker::Model;

/// What a name that was read stands for.
#[derive(Clone, Copy)]
pub enum Mentioned {
    Variable(VarId),
    Function(FuncId),
    /// An import, by its index in the file.
    Import { file: u32, index: u32 },
}

/// A name that was read.
#[derive(Clone, Copy)]
pub struct Mention {
    /// Its first byte.
    pub at: Pos,
    pub what: Mentioned,
    /// Whether it is the whole target of a plain assignment, which is no use of a variable.
    pub assigned: bool,
}

/// Names that were read, in the order in which they were.
#[derive(Drop)]
pub struct Mentions {
    items: Vec<Mention>,
}

impl Model for Mentions {
    ghost use Rattle.std.specs.Prelude.{List};
    ghost use Rattle.go_names.specs.declared.mentions.Mention.{Mention};

    ghost Value = { List Mention };

    ghost view = { λ l. l.items.items };
}

impl Mentions {
    /// No names.
    pub fn new(alloc: Global) -> Mentions
        ensures { result ≡ [] }
    {
        Mentions {
            items: Vec::new(alloc),
        }
    }

    /// Adds a name at the end. After `NoMemory` the list is as before.
    pub fn push(&mut self, item: Mention) -> Result<(), NoMemory>
        ensures ok { OnOk result (self.new ≡ self.old ++ item ∷ []) }
        ensures err { OnErr result (self.new ≡ self.old) }
    {
        self.items.push(item)?;
        Ok(())
    }

    /// Marks the name with an index as the whole target of a plain assignment.
    pub fn mark_assigned(&mut self, index: usize) {
        if let Some(mention) = self.items.as_mut_slice().get_mut(index) {
            mention.assigned = true;
        }
    }

    /// The names themselves.
    pub fn as_slice(&self) -> &[Mention]
        ensures { result.now ≡ self.now }
    {
        self.items.as_slice()
    }

    /// How many names there are.
    pub fn len(&self) -> usize
        ensures { result ≡ length self.now }
    {
        self.items.len()
    }

    /// Whether there are none.
    pub fn is_empty(&self) -> bool
        ensures { result ≡ (length self.now == 0) }
    {
        self.items.is_empty()
    }
}
