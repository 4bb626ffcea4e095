//! Goroutines, channels and choices.
#![tactic(auto)]

mod channels;
mod choices;
mod lists;
mod operations;
mod scheduling;
mod selecting;
mod serving;

pub use lists::{Cases, ChanOp, Wake, WakeResult, Wakes};
pub use operations::{Received, Selected, Sent};
pub use scheduling::{Point, Sched, SchedError};
