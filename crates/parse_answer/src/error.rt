//! Why tokens have no tree.

ghost use Rattle.std.specs.Prelude.{◌≡◌};
ghost use Rattle.parse_answer.specs.declared.error.ParseError.TheVariants.{OutOfMemory};

use std::alloc::{AllocError, AllocFailed};
use thiserror::Error;

/// Why tokens have no tree.
#[derive(Debug, Drop, Error)]
pub enum ParseError {
    /// At this token, from 0, a statement or an expression reaches too far.
    #[error("nested too deeply at token {index}")]
    TooDeep { index: usize },
    /// What begins at this token, from 0, is no package clause, import or declaration that may stand there.
    #[error("unexpected tokens from token {index} on")]
    Unexpected { index: usize },
    #[error("out of memory")]
    OutOfMemory,
}

impl From<AllocError> for ParseError {
    ghost from_gives = { λ _ e. e ≡ OutOfMemory };

    fn from(_e: AllocError) -> ParseError {
        ParseError::OutOfMemory
    }
}

impl<T: Drop> From<AllocFailed<T>> for ParseError {
    ghost from_gives = { λ _ e. e ≡ OutOfMemory };

    fn from(_e: AllocFailed<T>) -> ParseError {
        ParseError::OutOfMemory
    }
}
