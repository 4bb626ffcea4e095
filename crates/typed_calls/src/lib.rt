//! The rules of Go for calls over sound parts: of functions, with their arguments as values of the parameters, and
//! conversions. Go specification, "Calls" and "Conversions".
#![tactic(auto)]

mod calling;
mod converting;
mod packing;

pub use calling::call;
