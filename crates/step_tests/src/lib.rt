//! Tests of the slots of frames and of single instructions on integers.
#![tactic(auto)]

#[cfg(test)]
mod tests;
