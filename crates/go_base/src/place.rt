//! Places in source files.

use crate::text::Text;

/// A place in a file that has been loaded.
#[derive(Clone, Copy, Debug, PartialEq, Eq, PartialOrd, Ord)]
pub struct Pos {
    /// The number of the file, from 0, in the order of loading.
    pub file: u32,
    /// Bytes from the start of the file.
    pub offset: u32,
}

/// A place as users see it.
#[derive(Debug, Drop)]
pub struct Place {
    pub path: Text,
    /// Bytes from the start of the file.
    pub offset: u32,
    /// The number of the line, from 1.
    pub line: u32,
    /// The number of the byte on its line, from 1.
    pub column: u32,
}
