//! Why work that was begun does not come to its end.

ghost use Rattle.std.specs.Prelude.{◌≡◌};
ghost use Rattle.program_work.specs.declared.stop.Stop.TheVariants.{OutOfMemory};
ghost use Rattle.program_work.specs.Stopping.{outcome_at, stop_of_run, stop_of_sanity, stop_of_sink, stop_of_types};

use crate::outcome::Outcome;
use go_base::{NoMemory, SinkError};
use go_interp::RunError;
use ssa_sane::SanityError;
use ssa_typed::TypedError;

/// Why work that was begun does not come to its end.
#[derive(Clone, Copy)]
pub enum Stop {
    /// Standard output could not be written.
    WriteFault,
    OutOfMemory,
    /// What was made of the program is not what it has to be.
    Internal,
}

impl Stop {
    /// What a call comes to that stops so.
    pub fn outcome(self) -> Outcome
        ensures { result ≡ outcome_at self }
    {
        match self {
            Stop::WriteFault => Outcome::WriteFault,
            Stop::OutOfMemory => Outcome::OutOfMemory,
            Stop::Internal => Outcome::InternalError,
        }
    }
}

impl From<NoMemory> for Stop {
    ghost from_gives = { λ _ stop. stop ≡ OutOfMemory };

    fn from(_: NoMemory) -> Stop {
        Stop::OutOfMemory
    }
}

impl From<SinkError> for Stop {
    ghost from_gives = { λ error stop. stop ≡ stop_of_sink error };

    fn from(error: SinkError) -> Stop {
        match error {
            SinkError::Failed => Stop::WriteFault,
            SinkError::OutOfMemory => Stop::OutOfMemory,
        }
    }
}

impl From<RunError> for Stop {
    ghost from_gives = { λ error stop. stop ≡ stop_of_run error };

    fn from(error: RunError) -> Stop {
        match error {
            RunError::WriteFault => Stop::WriteFault,
            RunError::OutOfMemory => Stop::OutOfMemory,
        }
    }
}

impl From<SanityError> for Stop {
    ghost from_gives = { λ error stop. stop ≡ stop_of_sanity error };

    fn from(error: SanityError) -> Stop {
        match error {
            SanityError::Insane { .. } => Stop::Internal,
            SanityError::OutOfMemory => Stop::OutOfMemory,
        }
    }
}

impl From<TypedError> for Stop {
    ghost from_gives = { λ error stop. stop ≡ stop_of_types error };

    fn from(error: TypedError) -> Stop {
        match error {
            TypedError::IllTyped { .. } => Stop::Internal,
            TypedError::OutOfMemory => Stop::OutOfMemory,
        }
    }
}
