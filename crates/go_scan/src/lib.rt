//! The scanner: Go source text cut into tokens, and the values of literals. Go specification, "Lexical elements".
//!
//! `scan` finds the longest piece at each place, refuses the first one with a fault, and puts in semicolons.
#![tactic(auto)]

mod characters;
mod endings;
mod faults;
mod integers;
mod items;
mod marks;
mod pieces;
mod runes;
mod scanner;
mod words;

pub use characters::is_exported;
pub use integers::int_value;
pub use pieces::is_literal;
pub use runes::{rune_value, string_value};
pub use scanner::{ScanError, scan};
