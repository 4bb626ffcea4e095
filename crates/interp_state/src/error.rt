//! What cannot come for code that is sane and typed.

use go_base::NoMemory;

/// What a case answers that cannot come for code that is sane and typed.
pub fn lost() -> NoMemory {
    NoMemory
}
