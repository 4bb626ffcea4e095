//! One file, from its bytes.

ghost use Rattle.std.specs.Prelude.{[], ◌∷◌, Some};

use go_base::{FileError, Files};
use std::alloc::Global;

/// A tree of one file.
#[derive(Drop)]
pub struct OneFile<'a> {
    pub path: &'a str,
    pub bytes: &'a [u8],
}

impl Files for OneFile<'_> {
    ghost tree = { λ file. Some ((file.path.now, file.bytes.now) ∷ []) };

    ghost faults = { λ _. 0 };

    /// No directory is listed: the file lies in no module.
    fn list(&mut self, _alloc: Global, _dir: &str) -> Result<Vec<String>, FileError> {
        Err(FileError::OutOfMemory)
    }

    fn read(&mut self, alloc: Global, path: &str, limit: usize) -> Result<Vec<u8>, FileError> {
        if path != self.path {
            return Err(FileError::Absent);
        }
        if self.bytes.len() > limit {
            return Err(FileError::TooLarge);
        }
        let copy = Vec::from_slice(alloc, self.bytes)?;
        Ok(copy)
    }
}
