//! What a command line asks to load.

use crate::text::Text;

/// What is to be loaded. A path has components joined by `/`, without a leading `./` and a trailing `/`, and `.` is the
/// directory of the paths themselves.
#[derive(Debug, Drop)]
pub enum Target {
    /// One file, whose path ends in `.go`.
    File(Text),
    /// The files of a directory.
    Dir(Text),
}
