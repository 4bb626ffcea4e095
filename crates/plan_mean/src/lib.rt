//! What a run of planned code is: the machine that runs it, as definitions, and the laws that it has one outcome, and that
//! what was written before changes nothing. The crate has no code that runs.
#![tactic(auto)]

mod laws;

pub use laws::{fronts_stand, one_outcome, steps_follow};
