//! The text of codes.
#![tactic(auto)]

mod codes;
mod functions;
mod instructions;
mod operands;
mod phis;
mod printing;
mod variables;

pub use printing::{Show, print};
