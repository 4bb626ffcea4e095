//! Values of Go, and what operations on them give.
#![tactic(auto)]

mod address;
mod depths;
mod faults;
mod interfaces;
mod ints;
mod memory;
mod runes;
mod texts;
mod values;
mod zeros;

pub use address::{Address, Form, Pointer, SliceValue, pointer_to};
pub use depths::MAX_DEPTH;
pub use faults::{Fault, ValueError};
pub use go_type::{ConstOp as IntOp, IntKind, int_kind};
pub use interfaces::{assert_to, assertion_fault, bind, to_interface};
pub use ints::{convert_int, int_op, shift_op};
pub use runes::{decode_rune, push_rune, text_of_int};
pub use texts::{MAX_TEXT, check_index, concat, text_slice};
pub use values::{BoundTarget, Dynamic, FuncValue, Part, RangeState, Receiver, Value};
pub use zeros::{zero_like, zero_value};
