//! Answers with faults, where memory is ample.

use go_base::NoMemory;
use go_value::{Fault, ValueError};

/// A fault is an answer, and want of memory is none.
pub fn settled<T: Drop>(answer: Result<T, ValueError>) -> Result<Result<T, Fault>, NoMemory> {
    match answer {
        Ok(value) => Ok(Ok(value)),
        Err(ValueError::Fault(fault)) => Ok(Err(fault)),
        Err(ValueError::OutOfMemory) => Err(NoMemory),
    }
}

/// What is there, and want of memory for a fault, where none is due.
pub fn sound<T: Drop>(answer: Result<T, ValueError>) -> Result<T, NoMemory> {
    match answer {
        Ok(value) => Ok(value),
        Err(_) => Err(NoMemory),
    }
}
