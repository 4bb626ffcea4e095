//! Tests of values, pointers and texts, and of the texts of faults and panics.
#![tactic(auto)]

#[cfg(test)]
mod tests;
