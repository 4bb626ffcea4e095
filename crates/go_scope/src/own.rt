//! The type declaration of a body that is read: where its own name stands in its type, and what can be asked only once the
//! type is defined. Go specification, "Type declarations".

use go_base::{NameId, NoMemory, Pos, Rule, TypeId};
use std::alloc::Global;

/// Where a type stands in the declaration that is read.
#[derive(Clone, Copy, PartialEq, Eq)]
pub enum Position {
    /// It is the whole type, but for parentheses.
    Whole,
    /// It is an element of an array or the type of a field, of what is so in turn.
    Inline,
    /// Anywhere else.
    Apart,
}

impl Position {
    /// Where an element of an array or a field stands.
    pub fn inside(self) -> Position {
        match self {
            Position::Whole | Position::Inline => Position::Inline,
            Position::Apart => Position::Apart,
        }
    }
}

/// What is asked of a part once the type is defined.
#[derive(Clone, Copy)]
pub enum Asking {
    /// That it is comparable.
    Key,
    /// That it is within the limits.
    Size,
    /// That it may be embedded.
    Embedded,
    /// That its pointer may be embedded.
    EmbeddedPointer,
    /// Nothing: a rule is broken.
    Broken(Rule),
}

/// What is asked of a part in which the name of the type stands.
#[derive(Clone, Copy)]
pub(crate) struct Later {
    pub(crate) at: Pos,
    pub(crate) asking: Asking,
    pub(crate) of: TypeId,
}

/// The type declaration that is read.
#[derive(Drop)]
pub struct Own {
    pub(crate) name: NameId,
    /// None for an alias.
    id: Option<TypeId>,
    /// Whether the length of an array is read.
    pub(crate) in_length: bool,
    /// How often its name was met where it may stand.
    pub(crate) mentions: u64,
    /// Whether its name stands where it makes the type recursive without end.
    pub(crate) is_recursive: bool,
    /// Whether its name stands in the length of an array.
    pub(crate) is_in_length: bool,
    pub(crate) later: Vec<Later>,
}

impl Own {
    /// The declaration of a type, or of an alias.
    pub fn new(alloc: Global, name: NameId, id: Option<TypeId>) -> Own {
        Own {
            name,
            id,
            in_length: false,
            mentions: 0,
            is_recursive: false,
            is_in_length: false,
            later: Vec::new(alloc),
        }
    }

    /// The type where its name stands; None where that may not stand there.
    pub(crate) fn mention(&mut self, position: Position) -> Option<TypeId> {
        if self.in_length {
            self.is_in_length = true;
        }
        if self.id.is_none() || position != Position::Apart {
            self.is_recursive = true;
        }
        if self.in_length || position != Position::Apart {
            return None;
        }
        if self.id.is_some() {
            self.mentions = self.mentions.saturating_add(1);
        }
        self.id
    }

    /// The type where its name is embedded in an interface, where it may not stand.
    pub(crate) fn mention_embedded(&mut self) {
        self.is_recursive = true;
        if self.in_length {
            self.is_in_length = true;
        }
    }

    pub(crate) fn ask(&mut self, later: Later) -> Result<(), NoMemory> {
        self.later.push(later)?;
        Ok(())
    }
}
