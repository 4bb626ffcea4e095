//! The blocks of packages. Go specification, "Declarations and scope".

use crate::entities::Entity;
use go_base::{NameId, NoMemory};
use indexmap::IndexMap;
use std::alloc::Global;

/// A name in the block of a package.
#[derive(Clone, Copy, PartialEq, Eq, Hash)]
struct InPackage {
    package: u32,
    name: NameId,
}

/// What each package declares. Packages have the numbers of the program.
#[derive(Drop)]
pub struct PackageBlocks {
    entities: IndexMap<InPackage, Entity>,
}

impl PackageBlocks {
    /// No names.
    pub fn new(alloc: Global) -> PackageBlocks {
        PackageBlocks {
            entities: IndexMap::new(alloc),
        }
    }

    /// Says what a name of a package stands for, in place of what it stood for. After `NoMemory` all is as before.
    pub fn put(&mut self, package: u32, name: NameId, entity: Entity) -> Result<(), NoMemory> {
        self.entities.insert(InPackage { package, name }, entity)?;
        Ok(())
    }

    /// What a name of a package stands for. None where the package does not declare it.
    pub fn find(&self, package: u32, name: NameId) -> Option<Entity> {
        self.entities.get(&InPackage { package, name }).copied()
    }
}
