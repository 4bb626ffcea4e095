//! Codes, written as tables.

mod graphs;
mod kinds;
mod lists;
mod memory;
mod rows;
mod texts;
mod typed;
