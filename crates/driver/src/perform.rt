//! The work that the words ask for, without the line on standard error.

ghost use Rattle.std.specs.Prelude.{◌≡◌, ◌≤◌, ℕ, List, Ok, map, string_bytes};
ghost use Rattle.command_line.specs.CommandLine.{command_of};
ghost use Rattle.command_line.specs.declared.command.Command.TheVariants as commands;
ghost use Rattle.go_base.specs.Devices.{HasFaulted};
ghost use Rattle.driver.specs.Performing.{IsUsage, outcome_of};
ghost use Rattle.driver.specs.WholeAnswer.{Answers, AsksToLoad};

use crate::checking::check_and_work;
use crate::generating::generate;
use command_line::{Command, CommandError, LoadCommand, read_words};
use go_base::{Files, Sink, Text};
use go_load::{LoadError, load};
use program_work::Outcome;
use std::alloc::Global;

/// Does what the words ask for.
pub fn perform<F: Files, O: Sink>(
    alloc: Global,
    words: &[String],
    files: &mut F,
    out: &mut O,
) -> Outcome
    ensures answers { Answers (map string_bytes words.now) (F.tree files.old) result (O.written out.old) (O.written out.new) }
    ensures read_fault { result ≡ Outcome.ReadFault → HasFaulted (F.faults files.old) (F.faults files.new) }
    ensures write_fault { result ≡ Outcome.WriteFault → HasFaulted (O.faults out.old) (O.faults out.new) }
    ensures files_later { F.faults files.old ≤ F.faults files.new }
    ensures out_later { O.faults out.old ≤ O.faults out.new }
    ensures same { F.tree files.new ≡ F.tree files.old }
    ensures untouched { (AsksToLoad (map string_bytes words.now) → ⊥) → files.new ≡ files.old }
{
    match read_words(alloc, words) {
        Err(CommandError::BadWord(word)) => bad_word(alloc, word),
        Err(CommandError::OutOfMemory) => Outcome::OutOfMemory,
        Ok(Command::Generate(count)) => generate(alloc, count, out),
        Ok(Command::Load(command)) => perform_load(alloc, &command, files, out),
    }
}

fn bad_word(alloc: Global, word: &str) -> Outcome
    ensures { IsUsage word.now result }
{
    match Text::new(alloc, word) {
        Ok(word) => Outcome::Usage { word },
        Err(_) => Outcome::OutOfMemory,
    }
}

// Loads the target, and does what is asked with it.
fn perform_load<F: Files, O: Sink>(
    alloc: Global,
    command: &LoadCommand,
    files: &mut F,
    out: &mut O,
) -> Outcome
    ensures answers { (words : List (List ℕ)) → command_of words ≡ Ok (commands.Load command.now) → Answers words (F.tree files.old) result (O.written out.old) (O.written out.new) }
    ensures read_fault { result ≡ Outcome.ReadFault → HasFaulted (F.faults files.old) (F.faults files.new) }
    ensures write_fault { result ≡ Outcome.WriteFault → HasFaulted (O.faults out.old) (O.faults out.new) }
    ensures files_later { F.faults files.old ≤ F.faults files.new }
    ensures out_later { O.faults out.old ≤ O.faults out.new }
    ensures same { F.tree files.new ≡ F.tree files.old }
{
    match load(alloc, files, &command.target) {
        Ok(sources) => check_and_work(alloc, command, &sources, out),
        Err(error) => stopped(error),
    }
}

fn stopped(error: LoadError) -> Outcome
    ensures { result ≡ outcome_of error }
{
    match error {
        LoadError::Refused { place, rule } => Outcome::Refused { place, rule },
        LoadError::ReadFault => Outcome::ReadFault,
        LoadError::OutOfMemory => Outcome::OutOfMemory,
    }
}
