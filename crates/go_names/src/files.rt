//! The blocks of files. Go specification, "Import declarations".

use go_base::{NameId, NoMemory, Pos};
use indexmap::IndexMap;
use std::alloc::Global;

/// What is known of a file.
#[derive(Clone, Copy)]
pub struct FileScope {
    /// The package that it is of, by its number in the program.
    pub package: u32,
    /// How many imports it has, those named `_` too.
    pub imports: u32,
}

/// An import of a file.
#[derive(Clone, Copy)]
pub struct ImportOf {
    /// Which import of its file it is, from 0, those named `_` too.
    pub index: u32,
    /// Its name if it has one, else its path literal.
    pub at: Pos,
    /// The package that it imports, by its number in the program.
    pub package: u32,
}

/// A name in the block of a file.
#[derive(Clone, Copy, PartialEq, Eq, Hash)]
struct InFile {
    file: u32,
    name: NameId,
}

/// What the files import.
#[derive(Drop)]
pub struct FileScopes {
    files: Vec<FileScope>,
    imports: IndexMap<InFile, ImportOf>,
}

impl FileScopes {
    /// No files.
    pub fn new(alloc: Global) -> FileScopes {
        FileScopes {
            files: Vec::new(alloc),
            imports: IndexMap::new(alloc),
        }
    }

    /// Adds the next file of the sources. After `NoMemory` all is as before.
    pub fn push(&mut self, file: FileScope) -> Result<(), NoMemory> {
        self.files.push(file)?;
        Ok(())
    }

    /// Says which import of a file a name stands for. Imports named `_` have no name. After `NoMemory` all is as before.
    pub fn put(&mut self, file: u32, name: NameId, import: ImportOf) -> Result<(), NoMemory> {
        self.imports.insert(InFile { file, name }, import)?;
        Ok(())
    }

    /// What is known of a file. None where there is no such file.
    pub fn file(&self, file: u32) -> Option<FileScope> {
        self.files.as_slice().get(file as usize).copied()
    }

    /// The import that a name stands for in a file. None where it stands for none.
    pub fn find(&self, file: u32, name: NameId) -> Option<ImportOf> {
        self.imports.get(&InFile { file, name }).copied()
    }

    /// How many files there are.
    pub fn len(&self) -> usize {
        self.files.len()
    }

    /// Whether there are none.
    pub fn is_empty(&self) -> bool {
        self.files.is_empty()
    }
}
