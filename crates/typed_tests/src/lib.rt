//! Tests of typed code: each form of instruction, right and wrong, and its text.
#![tactic(auto)]

#[cfg(test)]
mod tests;
