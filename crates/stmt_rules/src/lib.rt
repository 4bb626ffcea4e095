//! What the rules ask of the parts of simple statements, declarations and functions, and what a walk over bodies keeps. Go
//! specification, "Statements".
//!
//! The rules of statements with statements in them, and the walk itself, stand in libraries above this one: they call what is
//! here in the order in which the parts stand.
#![tactic(auto)]

mod defining;
mod entering;
mod frames;
mod joining;
mod simple;
mod steps;
mod uses;
mod walker;

pub use defining::{Defining, Left, Lefts, Specified};
pub use entering::Entered;
pub use frames::{Frame, ResultOf};
pub use joining::{kept, nothing, push_come};
pub use simple::{Side, intos_of, is_panic, target_of, targets_of};
pub use steps::{First, Gathered, Spot, Steps, WalkedArm, WalkedBlock};
pub use uses::{Holder, Reading, mentions_from};
pub use walker::{Walker, all_bodies, are_values, bare_name};
