//! Want of memory.

use go_base::NoMemory;

/// What a case answers that cannot come for values of the types that the program gives them.
pub(crate) fn lost() -> NoMemory {
    NoMemory
}
