//! The call of the program: words and files in, an outcome, standard output and standard error out, and the exit status
//! of an outcome. It meets `WholeAnswer`.
#![tactic(auto)]

mod call;
mod checking;
mod generating;
mod perform;
mod report;
mod statuses;

pub use call::ssadump;
pub use program_work::Outcome;
pub use statuses::status;
