//! The test of typed programs: whether each node of a program has parts of the types that it needs, and whether each name,
//! field and method that it selects exists. This is the half for statements, functions and whole programs.
#![tactic(auto)]

mod clauses;
mod expressions;
mod functions;
mod initialisers;
mod programs;
mod ranges;
mod receiving;
mod statements;
mod targets;
mod turns;
mod within;

pub use programs::is_program;
