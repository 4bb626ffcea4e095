//! What names stand for in initialisers and bodies, and the types that are written there. Go specification, "Declarations and
//! scope", "Types".
//!
//! A `Scope` holds what was declared and the blocks that are open. What a struct, an interface or a function type is made of
//! is gathered part by part (`FieldTypes`, `Elements`, `ParamTypes`) by who reads it.
#![tactic(auto)]

mod asking;
mod declaring;
mod error;
mod interfaces;
mod literals;
mod naming;
mod own;
mod params;
mod placing;
mod scope;
mod structs;
mod text;

pub use interfaces::Elements;
pub use own::{Asking, Own, Position};
pub use params::ParamTypes;
pub use scope::Scope;
pub use structs::FieldTypes;
