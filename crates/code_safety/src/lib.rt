//! Code that is sane, typed and runnable is never stuck. The crate has no code that runs.
#![tactic(auto)]

mod laws;

pub use laws::never_stuck;
