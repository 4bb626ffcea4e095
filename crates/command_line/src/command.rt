//! What a command line asks for.

ghost use Rattle.std.specs.Prelude.{◌≡◌};
ghost use Rattle.command_line.specs.declared.command.CommandError.TheVariants.{OutOfMemory};

use go_base::{NoMemory, Target};
use std::marker::Model;
use thiserror::Error;

/// What a command line asks for.
#[derive(Drop)]
pub enum Command {
    /// `-gen`: make, check, list and run the generated program of this many types.
    Generate(u32),
    /// Load and check a target, and do what is asked with it.
    Load(LoadCommand),
}

/// What is asked with a target.
#[derive(Drop)]
pub struct LoadCommand {
    pub target: Target,
    /// `-build`: print the code as these letters say.
    pub build: Option<Letters>,
    /// `-callgraph`: list this graph.
    pub callgraph: Option<Graph>,
    /// `-run`: run the program.
    pub run: bool,
    /// `-bound`: how many ticks a run may take.
    pub bound: u64,
    /// `-choices`: what the choices of a run take, in turn.
    pub choices: Choices,
}

/// The letters of `-build`.
#[derive(Clone, Copy, PartialEq, Eq)]
pub struct Letters {
    /// `C`: show the counts of the sanity check.
    pub counts: bool,
    /// `F`: print the functions.
    pub functions: bool,
    /// `N`: build in naive form.
    pub naive: bool,
}

/// A call graph that can be listed.
#[derive(Clone, Copy, PartialEq, Eq)]
pub enum Graph {
    Cha,
    Rta,
    Vta,
}

/// The numbers of `-choices`. A contract sees them as a list.
#[derive(Drop)]
pub struct Choices {
    numbers: Vec<u32>,
}

impl Model for Choices {
    ghost use Rattle.std.specs.Prelude.{ℕ, List};

    ghost Value = { List ℕ };

    ghost view = { λ c. c.numbers.items };
}

impl Choices {
    /// The numbers of a vector.
    pub fn new(numbers: Vec<u32>) -> Choices
        ensures { result ≡ numbers.items }
    {
        Choices { numbers }
    }

    /// The numbers themselves.
    pub fn as_slice(&self) -> &[u32]
        ensures { result.now ≡ self.now }
    {
        self.numbers.as_slice()
    }
}

/// Why words are no command.
#[derive(Debug, Drop, Error)]
pub enum CommandError<'a> {
    /// The command line is bad at this word, which is empty where one is missing.
    #[error("bad command line at {0:?}")]
    BadWord(&'a str),
    #[error("out of memory")]
    OutOfMemory,
}

impl From<NoMemory> for CommandError<'_> {
    ghost from_gives = { λ _ e. e ≡ OutOfMemory };

    fn from(_: NoMemory) -> Self {
        CommandError::OutOfMemory
    }
}
