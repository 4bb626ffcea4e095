//! What stands in a program by numbers: places, values and what calls choose from, each by one number for all that are alike.
#![tactic(auto)]

mod error;
mod likeness;
mod numbers;
mod sites;

pub use likeness::Likeness;
pub use numbers::Numbers;
pub use sites::{Call, Flow, Seed, Site, Sites, sites_of};
