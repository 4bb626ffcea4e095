//! Tests of cells, slices and arrays.
#![tactic(auto)]

#[cfg(test)]
mod tests;
