//! Cases that cannot come.

use go_base::NoMemory;

/// What a case answers that cannot come for the typed tree of a program.
pub(crate) fn lost() -> NoMemory {
    NoMemory
}
