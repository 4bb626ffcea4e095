//! Tests of maps, and of which values are equal.
#![tactic(auto)]

#[cfg(test)]
mod tests;
