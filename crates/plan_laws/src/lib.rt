//! A run of a code and the run of its plan are one. The crate has no code that runs.
#![tactic(auto)]

mod laws;

pub use laws::one_run;
