//! Tests of codes: which functions are sane, and the text of a code.
#![tactic(auto)]

#[cfg(test)]
mod tests;
