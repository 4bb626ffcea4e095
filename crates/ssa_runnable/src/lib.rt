//! Runnable code: sane, typed code each of whose instructions has a meaning wherever a run comes to it.
#![tactic(auto)]

mod boxed;
mod checking;
mod errors;
mod externals;
mod implementing;
mod meanings;
mod methods;
mod running;
mod sites;
mod zeros;

pub use checking::is_runnable;
