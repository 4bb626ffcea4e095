//! Tests of loading. They stand in a crate of their own, so that loading is proved once and not again with them.
#![tactic(auto)]

#[cfg(test)]
mod tests;
