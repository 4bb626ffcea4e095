//! Why a program is not loaded.

ghost use Rattle.std.specs.Prelude.{◌≡◌};
ghost use Rattle.go_finding.specs.declared.error.LoadError.TheVariants.{OutOfMemory};

use go_base::{NoMemory, Place, Rule};
use std::alloc::{AllocError, AllocFailed};
use thiserror::Error;

/// Why a program is not loaded.
#[derive(Debug, Drop, Error)]
pub enum LoadError {
    /// The files break this rule here, and none before.
    #[error("{}", rule.text())]
    Refused { place: Place, rule: Rule },
    /// A file or a directory could not be read.
    #[error("read fault")]
    ReadFault,
    #[error("out of memory")]
    OutOfMemory,
}

impl From<NoMemory> for LoadError {
    ghost from_gives = { λ _ e. e ≡ OutOfMemory };

    fn from(_: NoMemory) -> LoadError {
        LoadError::OutOfMemory
    }
}

impl From<AllocError> for LoadError {
    ghost from_gives = { λ _ e. e ≡ OutOfMemory };

    fn from(_: AllocError) -> LoadError {
        LoadError::OutOfMemory
    }
}

impl<T: Drop> From<AllocFailed<T>> for LoadError {
    ghost from_gives = { λ _ e. e ≡ OutOfMemory };

    fn from(_: AllocFailed<T>) -> LoadError {
        LoadError::OutOfMemory
    }
}
