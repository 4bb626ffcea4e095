//! What the flags read so far have set.

ghost use Rattle.std.specs.Prelude.{◌≡◌, List, [], ◌∷◌, ◌++◌, map, filter_map, option_copied, option_to_list, string_bytes, IfOk, IfErr, Ok, Err};
ghost use Rattle.command_line.specs.CommandLine.{Item, Given, Package, bad_in, command_from, alone, package_word};
ghost use Rattle.command_line.specs.declared.command.Command.TheVariants.{Load};
ghost use Rattle.command_line.specs.Errors.{NamesWord};
ghost use Rattle.command_line.specs.Reading.{continued, load_with};

use crate::command::{Choices, Command, CommandError, Graph, Letters, LoadCommand};
use crate::packages::{is_bad_package, target_of};
use crate::values::Setting;
use go_base::NoMemory;
use std::alloc::Global;

/// How many ticks a run may take where `-bound` is not given.
const DEFAULT_TICKS: u64 = 10_000_000;

/// What the flags read so far have set: the last value of each.
#[derive(Drop)]
pub struct Settings<'a> {
    pub build: Option<Letters>,
    pub callgraph: Option<Graph>,
    pub run: Option<bool>,
    pub bound: Option<u64>,
    pub choices: Option<Choices>,
    pub generate: Option<u32>,
    /// The first flag word of a name other than `-gen`.
    pub other: Option<&'a str>,
}

impl<'a> Settings<'a> {
    /// No flag is set.
    pub fn new() -> Settings<'a>
        ensures { (items : List Item) → continued result items ≡ command_from (filter_map bad_in items) items }
    {
        Settings {
            build: None,
            callgraph: None,
            run: None,
            bound: None,
            choices: None,
            generate: None,
            other: None,
        }
    }

    /// Sets a flag, which came in this word.
    pub fn set(&mut self, word: &'a str, setting: Setting)
        ensures { (items : List Item) → continued self.new items ≡ continued self.old (Given word.now setting ∷ items) }
    {
        let generates = matches!(setting, Setting::Generate(_));
        if !generates && self.other.is_none() {
            self.other = Some(word);
        }
        match setting {
            Setting::Build(letters) => self.build = Some(letters),
            Setting::Callgraph(graph) => self.callgraph = Some(graph),
            Setting::Run(run) => self.run = Some(run),
            Setting::Bound(bound) => self.bound = Some(bound),
            Setting::Choices(choices) => self.choices = Some(choices),
            Setting::Generate(count) => self.generate = Some(count),
        }
    }

    /// The command of the flags, once all are read, with the words behind them.
    pub fn finish(self, alloc: Global, words: &'a [String]) -> Result<Command, CommandError<'a>>
        ensures command { IfOk result (λ command. continued self.entry (map Package (map string_bytes words.now)) ≡ Ok command) }
        ensures bad_word { IfErr result (λ error. NamesWord error (λ word. continued self.entry (map Package (map string_bytes words.now)) ≡ Err word)) }
    {
        match self.generate {
            Some(count) => alone(count, self.other, words),
            None => {
                let word = package_word(words)?;
                Ok(Command::Load(self.load(alloc, word)?))
            }
        }
    }

    // The command of a package word.
    fn load(self, alloc: Global, word: &str) -> Result<LoadCommand, NoMemory>
        ensures { IfOk result (λ command. Load command ≡ load_with self.entry [] word.now) }
    {
        let no_choices = Choices::new(Vec::new(alloc));
        Ok(LoadCommand {
            target: target_of(alloc, word)?,
            build: self.build,
            callgraph: self.callgraph,
            run: self.run.unwrap_or(false),
            bound: self.bound.unwrap_or(DEFAULT_TICKS),
            choices: self.choices.unwrap_or(no_choices),
        })
    }
}

// The command of `-gen`, beside which no other flag and no package word stands.
fn alone<'a>(
    count: u32,
    other: Option<&'a str>,
    words: &'a [String],
) -> Result<Command, CommandError<'a>>
    ensures command { IfOk result (λ command. alone count (option_to_list (option_copied other.entry) ++ map string_bytes words.now) ≡ Ok command) }
    ensures bad_word { IfErr result (λ error. NamesWord error (λ word. alone count (option_to_list (option_copied other.entry) ++ map string_bytes words.now) ≡ Err word)) }
{
    if let Some(word) = other {
        return Err(CommandError::BadWord(word));
    }
    match words {
        [] => Ok(Command::Generate(count)),
        [word, ..] => Err(CommandError::BadWord(word.as_str())),
    }
}

// The one package word.
fn package_word(words: &[String]) -> Result<&str, CommandError<'_>>
    ensures word { IfOk result (λ word. package_word (map string_bytes words.now) ≡ Ok word.now) }
    ensures bad_word { IfErr result (λ error. NamesWord error (λ word. package_word (map string_bytes words.now) ≡ Err word)) }
{
    match words {
        [] => Err(CommandError::BadWord("")),
        [word, rest @ ..] => {
            let word = word.as_str();
            if is_bad_package(word) {
                return Err(CommandError::BadWord(word));
            }
            match rest {
                [] => Ok(word),
                [second, ..] => Err(CommandError::BadWord(second.as_str())),
            }
        }
    }
}
