//! Names and what they stand for: entities, the universe, the scopes of packages, files and blocks, where functions
//! reach, and the names that were read. Go specification, "Declarations and scope".
#![tactic(auto)]

mod blocks;
mod constants;
mod entities;
mod extents;
mod files;
mod mentions;
mod packages;
mod universe;

pub use blocks::Blocks;
pub use constants::{Constant, Constants};
pub use entities::Entity;
pub use extents::{Extent, Extents};
pub use files::{FileScope, FileScopes, ImportOf};
pub use mentions::{Mention, Mentioned, Mentions};
pub use packages::PackageBlocks;
pub use universe::Universe;
