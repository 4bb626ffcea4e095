//! What stands where a case cannot come.

use go_base::NoMemory;

/// What stands where a case cannot come.
pub(crate) fn lost() -> NoMemory {
    NoMemory
}
