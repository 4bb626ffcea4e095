//! Exit statuses.

ghost use Rattle.std.specs.Prelude.{◌≡◌};
ghost use Rattle.driver.specs.Status.{status_of, status_of_ending};

use go_base::Ending;
use program_work::Outcome;

/// The exit status for an outcome.
pub fn status(outcome: &Outcome) -> u8
    ensures { result ≡ status_of outcome.now }
{
    match outcome {
        Outcome::Done => 0,
        Outcome::Ended(ending) => ending_status(ending),
        Outcome::Refused { .. } => 1,
        Outcome::Usage { .. } => 2,
        Outcome::ReadFault => 4,
        Outcome::WriteFault => 5,
        Outcome::OutOfMemory => 6,
        Outcome::InternalError => 7,
    }
}

fn ending_status(ending: &Ending) -> u8
    ensures { result ≡ status_of_ending ending.now }
{
    match ending {
        Ending::Exited(status) => *status,
        Ending::Panicked(_) | Ending::Deadlock | Ending::StackOverflow => 2,
        Ending::Bound => 3,
    }
}
