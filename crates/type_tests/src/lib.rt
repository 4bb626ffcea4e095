//! Tests of the types. They stand in a crate of their own, so that the types are proved once and not again with them.
#![tactic(auto)]

#[cfg(test)]
mod shapes;
#[cfg(test)]
mod tests;
