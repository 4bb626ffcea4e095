//! What the tests of values share: a table of types, values from words, and what is shown of values.
#![tactic(auto)]

mod answers;
mod showing;
mod table;
mod words;

pub use answers::{settled, sound};
pub use showing::{push_shown, shown};
pub use table::{
    ANY, ARRAY, BAG, BLANK, CHAN, COUNT, ERROR_STRING, FUNC, HOLDER, INTS, LABEL, MAP, NAMES, PAIR,
    POINTER, types,
};
pub use words::{bytes, made, parts};
