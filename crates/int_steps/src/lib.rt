//! One instruction on integers, over the slots of a frame: the same as the machine that runs code does with it, and the
//! operations on integers that the interpreter of plans makes too.
#![tactic(auto)]

mod arithmetic;
mod laws;
mod operands;
mod steps;
mod values;

pub use arithmetic::{compare, negative, operate, turned};
pub use laws::ints_act;
pub use steps::int_step;
