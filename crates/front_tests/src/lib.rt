//! Tests of what stands below the parser: devices and places, command lines, the scanner, and cycles of imports. They stand
//! in a crate of their own, so that those crates are proved once and not again with them.
#![tactic(auto)]

#[cfg(test)]
mod base;
#[cfg(test)]
mod cycles;
#[cfg(test)]
mod scanning;
#[cfg(test)]
mod words;
