//! What a call of the program comes to.

use go_base::{Ending, Place, Rule, Text};

/// What a call came to.
#[derive(Drop)]
pub enum Outcome {
    /// All that was asked was done.
    Done,
    /// A run was asked, and ended so.
    Ended(Ending),
    /// The program breaks this rule at this place, and no rule before.
    Refused { place: Place, rule: Rule },
    /// The command line is bad at this word, which is empty where one is missing.
    Usage { word: Text },
    /// Files could not be read.
    ReadFault,
    /// Standard output or standard error could not be written.
    WriteFault,
    OutOfMemory,
    /// What was made of a program that breaks no rule is not what it has to be. That no program shows this is not proved
    /// yet.
    InternalError,
}
