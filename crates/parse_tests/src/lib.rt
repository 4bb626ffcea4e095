//! Tests of the parser. They stand in a crate of their own, so that the parser is proved once and not again with them.
#![tactic(auto)]

#[cfg(test)]
mod roles;
#[cfg(test)]
mod tables;
#[cfg(test)]
mod tests;
