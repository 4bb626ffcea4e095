//! Why a program is not accepted.

ghost use Rattle.std.specs.Prelude.{◌≡◌};
ghost use Rattle.go_declared.specs.declared.error.CheckError.TheVariants.{OutOfMemory};

use go_base::{NoMemory, Pos, Rule};
use std::alloc::{AllocError, AllocFailed};

/// Why a program is not accepted.
#[derive(Clone, Copy, PartialEq, Eq)]
pub enum CheckError {
    /// The first rule that is broken, and where.
    Refused { pos: Pos, rule: Rule },
    OutOfMemory,
}

impl From<NoMemory> for CheckError {
    ghost from_gives = { λ _ e. e ≡ OutOfMemory };

    fn from(_: NoMemory) -> CheckError {
        CheckError::OutOfMemory
    }
}

impl From<AllocError> for CheckError {
    ghost from_gives = { λ _ e. e ≡ OutOfMemory };

    fn from(_: AllocError) -> CheckError {
        CheckError::OutOfMemory
    }
}

impl<T: Drop> From<AllocFailed<T>> for CheckError {
    ghost from_gives = { λ _ e. e ≡ OutOfMemory };

    fn from(_: AllocFailed<T>) -> CheckError {
        CheckError::OutOfMemory
    }
}
