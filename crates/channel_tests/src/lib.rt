//! Tests of goroutines, channels and choices.
#![tactic(auto)]

#[cfg(test)]
mod tests;
