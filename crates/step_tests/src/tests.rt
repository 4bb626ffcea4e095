//! Slots, and instructions, written as tables.

mod frames;
mod operators;
mod rigs;
mod stores;
