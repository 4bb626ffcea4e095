//! The declarations of packages: sources to what they declare, or the first broken rule. Their types and constants are read
//! into nodes, the rules are asked, and what sound declarations give is gathered. Go specification, "Declarations and scope".
#![tactic(auto)]

mod declaring;
mod error;
mod finishing;
mod forms;
mod literals;
mod local_types;
mod reading;
mod specifications;

pub use declaring::declare;
