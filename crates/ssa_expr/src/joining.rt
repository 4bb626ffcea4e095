//! Values that are put together, kept or given up, in one place for all their types.

use crate::error::lost;
use go_base::NoMemory;
use std::alloc::Global;

/// A first value that came, and a second beside it.
pub(crate) fn beside<A: Drop, B: Drop>(
    first: Result<A, NoMemory>,
    second: B,
) -> Result<(A, B), NoMemory> {
    match first {
        Ok(first) => Ok((first, second)),
        Err(NoMemory) => Err(NoMemory),
    }
}

/// A first value that is there, and a second beside it.
pub(crate) fn beside_some<A: Drop, B: Drop>(
    first: Result<Option<A>, NoMemory>,
    second: B,
) -> Result<Option<(A, B)>, NoMemory> {
    match first {
        Ok(first) => Ok(first.zip(Some(second))),
        Err(NoMemory) => Err(NoMemory),
    }
}

/// A value, once what was done with it came to its end.
pub(crate) fn kept<T: Drop>(value: T, done: Result<(), NoMemory>) -> Result<T, NoMemory> {
    match done {
        Ok(()) => Ok(value),
        Err(NoMemory) => Err(NoMemory),
    }
}

/// What a case answers that cannot come, in place of a value.
pub(crate) fn refused<T: Drop, U: Drop>(value: T) -> Result<U, NoMemory> {
    drop(value);
    Err(lost())
}

/// Whether a value came and is there.
pub(crate) fn is_there<T: Drop>(value: Result<Option<T>, NoMemory>) -> bool {
    matches!(value, Ok(Some(_)))
}

/// One more item.
pub(crate) fn add<T: Drop>(items: &mut Vec<T>, item: T) -> Result<(), NoMemory> {
    items.push(item)?;
    Ok(())
}

/// Two items.
pub(crate) fn two<T: Drop>(alloc: Global, first: T, second: T) -> Result<Vec<T>, NoMemory> {
    let mut both = Vec::new(alloc);
    both.push(first)?;
    both.push(second)?;
    Ok(both)
}
