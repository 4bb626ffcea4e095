//! Cases that cannot come.

use go_base::NoMemory;

/// What a case answers that cannot come for a typed program.
pub fn lost() -> NoMemory {
    NoMemory
}
