//! Whether the types in expressions fit: the answers that the definitions of typed programs give.
#![tactic(auto)]

mod alike;
mod around;
mod asking;
mod builtins;
mod calls;
mod conversions;
mod distinct;
mod expressions;
mod forms;
mod literals;
mod nodes;
mod operators;
mod seeing;

pub use around::{Around, is_own_variable, is_variable, variable_at};
pub use asking::{comparable, implements};
pub use forms::{can_be_set, is_call, is_nothing};
pub use operators::fits_binary;
pub use seeing::{Seen, SeenValues, fits_part, see, see_values};
