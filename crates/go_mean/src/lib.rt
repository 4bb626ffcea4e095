//! What a program means: the machine that goes over its typed trees, as definitions, and the laws about them. The crate
//! has no code that runs.
#![tactic(auto)]

mod laws;

pub use laws::{fronts_stand, one_meaning, one_record};
