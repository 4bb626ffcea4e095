//! Functions that stand for methods under other signatures: promoted methods, method values and method expressions. Go
//! specification, "Selectors", "Method values" and "Method expressions".
#![tactic(auto)]

mod walking;
mod wrapping;

pub use wrapping::wrapper;
