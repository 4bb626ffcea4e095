//! The command line of `ssadump`: from the words to a command, or to the word that is to be named. Go package `flag`,
//! "Command line flag syntax".
#![tactic(auto)]

mod command;
mod flags;
mod packages;
mod reader;
mod settings;
mod values;

pub use command::{Choices, Command, CommandError, Graph, Letters, LoadCommand};
pub use reader::read_words;
