//! Values that are given back, or given up, in one place for all their types.

use crate::error::lost;
use go_base::NoMemory;

/// A value, once what was done with it came to its end.
pub(crate) fn kept<T: Drop>(value: T, done: Result<(), NoMemory>) -> Result<T, NoMemory> {
    match done {
        Ok(()) => Ok(value),
        Err(NoMemory) => Err(NoMemory),
    }
}

/// A value is given up where a case cannot come.
pub(crate) fn given_up<T: Drop, U: Drop>(value: T) -> Result<U, NoMemory> {
    drop(value);
    Err(lost())
}
