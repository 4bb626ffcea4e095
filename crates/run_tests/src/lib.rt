//! Tests of runs of code that was made by hand.
#![tactic(auto)]

#[cfg(test)]
mod tests;
