//! Values that are given back, or not used, in one place for all their types.

use go_base::NoMemory;

/// A value, once what was done with it came to its end.
pub fn kept<T: Drop>(value: T, done: Result<(), NoMemory>) -> Result<T, NoMemory> {
    match done {
        Ok(()) => Ok(value),
        Err(NoMemory) => Err(NoMemory),
    }
}

/// One more item at the end of a list, where it came.
pub fn push_come<T: Drop>(items: &mut Vec<T>, item: Result<T, NoMemory>) -> Result<(), NoMemory> {
    items.push(item?)?;
    Ok(())
}

/// Puts an item at a place of a list, in place of what stands there. Places before it that the list has not yet are empty.
pub fn put_at<T: Drop>(items: &mut Vec<Option<T>>, place: usize, item: T) -> Result<(), NoMemory> {
    for _ in items.len()..place.saturating_add(1) {
        items.push(None)?;
    }
    match items.get_mut(place) {
        Some(held) => drop(std::mem::replace(held, Some(item))),
        None => drop(item),
    }
    Ok(())
}

/// Nothing, in place of a value that is not used.
pub fn nothing<T: Drop, U: Drop>(value: T) -> Option<U> {
    drop(value);
    None
}
