//! Tests of the call of the program, over files and sinks in memory, and of the checker through it: each rule broken and kept.
#![tactic(auto)]

#[cfg(test)]
mod calls;
#[cfg(test)]
mod checks;
#[cfg(test)]
mod rows;
#[cfg(test)]
mod works;
