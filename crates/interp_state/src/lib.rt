//! The state of a run: the machine, its goroutines with their frames and slots, how operands are read and registers
//! written, and how a fault or a panic is met.
#![tactic(auto)]

mod error;
mod frames;
mod machine;
mod stack;
mod throwing;

pub use error::lost;
pub use frames::{Bound, Frame, FrameState, Goroutine, Later, Left, Ready, Thrown};
pub use machine::{Machine, Met, Turn, TypePair};
pub use stack::RegStack;
