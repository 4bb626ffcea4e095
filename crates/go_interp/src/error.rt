//! Why a run has no ending.

use go_base::NoMemory;
use std::alloc::{AllocError, AllocFailed};
use thiserror::Error;

/// Why a run has no ending.
#[derive(Clone, Copy, Debug, PartialEq, Eq, Error)]
pub enum RunError {
    /// The output could not be written.
    #[error("write fault")]
    WriteFault,
    #[error("out of memory")]
    OutOfMemory,
}

impl From<NoMemory> for RunError {
    fn from(_: NoMemory) -> RunError {
        RunError::OutOfMemory
    }
}

impl From<AllocError> for RunError {
    fn from(_: AllocError) -> RunError {
        RunError::OutOfMemory
    }
}

impl<T: Drop> From<AllocFailed<T>> for RunError {
    fn from(_: AllocFailed<T>) -> RunError {
        RunError::OutOfMemory
    }
}
