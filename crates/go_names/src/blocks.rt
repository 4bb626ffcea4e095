//! The blocks that are open, and the names in them. Go specification, "Blocks", "Declarations and scope".

use crate::entities::Entity;
use go_base::{NameId, NoMemory};
use indexmap::IndexMap;
use std::alloc::Global;

/// A name in an open block.
#[derive(Clone, Copy)]
struct Binding {
    name: NameId,
    entity: Entity,
    /// The number of the block, from 1 for the outermost.
    block: usize,
    /// The place of the binding of the same name that it hides.
    hidden: Option<usize>,
}

/// The blocks that are open, the innermost last.
#[derive(Drop)]
pub struct Blocks {
    bindings: Vec<Binding>,
    /// For each open block how many bindings stand outside of it.
    marks: Vec<usize>,
    /// The place of the innermost binding of a name; None where no open block has it.
    innermost: IndexMap<NameId, Option<usize>>,
}

impl Blocks {
    /// No block is open.
    pub fn new(alloc: Global) -> Blocks {
        Blocks {
            bindings: Vec::new(alloc),
            marks: Vec::new(alloc),
            innermost: IndexMap::new(alloc),
        }
    }

    /// Opens a block in the innermost one.
    pub fn open(&mut self) -> Result<(), NoMemory> {
        self.marks.push(self.bindings.len())?;
        Ok(())
    }

    /// Drops the innermost block and its names. Without an open block nothing happens.
    pub fn close(&mut self) {
        let Some(mark) = self.marks.pop() else {
            return;
        };
        for _ in mark..self.bindings.len() {
            if let Some(binding) = self.bindings.pop() {
                if let Some(place) = self.innermost.get_mut(&binding.name) {
                    *place = binding.hidden;
                }
            }
        }
    }

    /// How many blocks are open.
    pub fn depth(&self) -> usize {
        self.marks.len()
    }

    /// Puts a name into the innermost block, also where it has it already.
    pub fn put(&mut self, name: NameId, entity: Entity) -> Result<(), NoMemory> {
        let place = self.bindings.len();
        let hidden = self.place_of(name);
        self.bindings.push(Binding {
            name,
            entity,
            block: self.marks.len(),
            hidden,
        })?;
        self.innermost.insert(name, Some(place))?;
        Ok(())
    }

    /// What a name stands for in the innermost block that has it.
    pub fn find(&self, name: NameId) -> Option<Entity> {
        let binding = self.bindings.as_slice().get(self.place_of(name)?)?;
        Some(binding.entity)
    }

    /// What a name stands for in the innermost block. None where that block does not have it.
    pub fn find_innermost(&self, name: NameId) -> Option<Entity> {
        let binding = self.bindings.as_slice().get(self.place_of(name)?)?;
        if binding.block == self.marks.len() {
            Some(binding.entity)
        } else {
            None
        }
    }

    fn place_of(&self, name: NameId) -> Option<usize> {
        match self.innermost.get(&name) {
            Some(place) => *place,
            None => None,
        }
    }
}
