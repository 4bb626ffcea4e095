//! The store of a run: cells and maps, and what is done with them.
#![tactic(auto)]

mod cells;
mod conversions;
mod forms;
mod leaves;
mod map_calls;
mod memory;
mod parts;
mod runs;
mod slices;
mod store;
mod whole;

pub use conversions::{bytes_of_text, runes_of_text, text_of_bytes, text_of_runes};
pub use slices::{MAX_SLICE_LEAVES, array_slice, element, slice_of};
pub use store::Store;
