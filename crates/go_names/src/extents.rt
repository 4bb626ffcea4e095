//! Where functions reach in the sources.

use go_base::{FuncId, NoMemory, Pos};
use indexmap::IndexMap;
use std::alloc::Global;
use std::collections::BTreeMap;

/// Where a declared function or a literal reaches.
#[derive(Clone, Copy)]
pub struct Extent {
    pub function: FuncId,
    pub file: u32,
    /// The offset of its first byte.
    pub first: u32,
    /// The offset of its last byte.
    pub last: u32,
    /// The function in which a literal stands; None for a declared function.
    pub within: Option<FuncId>,
}

impl Extent {
    fn holds(self, at: Pos) -> bool {
        self.file == at.file && self.first <= at.offset && at.offset <= self.last
    }
}

/// Where the functions reach. Two of them are apart, or one is in the other.
#[derive(Drop)]
pub struct Extents {
    by_place: BTreeMap<Pos, Extent>,
    by_function: IndexMap<FuncId, Extent>,
}

impl Extents {
    /// No functions.
    pub fn new(alloc: Global) -> Extents {
        Extents {
            by_place: BTreeMap::new(alloc),
            by_function: IndexMap::new(alloc),
        }
    }

    /// Adds a function. After `NoMemory` its extents are spent.
    pub fn put(&mut self, extent: Extent) -> Result<(), NoMemory> {
        let at = Pos {
            file: extent.file,
            offset: extent.first,
        };
        self.by_place.insert(at, extent)?;
        self.by_function.insert(extent.function, extent)?;
        Ok(())
    }

    /// Where a function reaches. None for what is no declared function and no literal that was met.
    pub fn of(&self, function: FuncId) -> Option<Extent> {
        self.by_function.get(&function).copied()
    }

    /// The function that begins at a place.
    pub fn beginning_at(&self, at: Pos) -> Option<FuncId> {
        match self.by_place.get(&at) {
            Some(extent) => Some(extent.function),
            None => None,
        }
    }

    /// The innermost function in which a place stands. None where it stands in none.
    pub fn innermost(&self, at: Pos) -> Option<FuncId> {
        let (_, last) = self.by_place.range(..=at).next_back()?;
        let mut extent = *last;
        for _ in 0..self.by_function.len() {
            if extent.holds(at) {
                return Some(extent.function);
            }
            extent = *self.by_function.get(&extent.within?)?;
        }
        None
    }
}
