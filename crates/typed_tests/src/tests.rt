//! Codes of one instruction, written as tables.

mod calls;
mod codes;
mod heads;
mod lines;
mod operands;
mod rows;
mod terms;
mod typing;
mod world;
