//! Reading of the words, one after another.

ghost use Rattle.std.specs.Prelude.{◌≡◌, List, map, string_bytes, IfOk, IfErr, Ok, Err};
ghost use Rattle.command_line.specs.CommandLine.{Item, items_of, items_with_value, given, command_of};
ghost use Rattle.command_line.specs.Errors.{NamesWord};
ghost use Rattle.command_line.specs.Reading.{continued, items_left, IsShorter};
ghost use Rattle.command_line.specs.Values.{setting_of};

use crate::command::{Command, CommandError};
use crate::flags::{Flag, Shape, shape_of};
use crate::settings::Settings;
use crate::values::setting_of;
use std::alloc::Global;

/// The words that are left.
pub enum Step<'a> {
    /// Flags may follow.
    Flags(&'a [String]),
    /// No flag follows.
    Packages(&'a [String]),
}

/// Reads the words of a command line, without the program's name: flags, and then one package word.
///
/// A flag is one or two dashes and a name, and has its value behind `=` or in the next word; of flags of one name the last
/// counts. The first word that cannot be read is named. `-gen` stands alone: where all flags are read, the first flag word
/// of another name is named, and then the first package word.
pub fn read_words(alloc: Global, words: &[String]) -> Result<Command, CommandError<'_>>
    ensures command { IfOk result (λ command. command_of (map string_bytes words.now) ≡ Ok command) }
    ensures bad_word { IfErr result (λ error. NamesWord error (λ word. command_of (map string_bytes words.now) ≡ Err word)) }
{
    let mut settings = Settings::new();
    let mut rest = words;
    loop {
        match read_word(alloc, &mut settings, rest)? {
            Step::Flags(left) => rest = left,
            Step::Packages(left) => return settings.finish(alloc, left),
        }
    }
}

// Reads the first of the words where flags may stand, and the one behind it where that is its value.
fn read_word<'a>(
    alloc: Global,
    settings: &mut Settings<'a>,
    words: &'a [String],
) -> Result<Step<'a>, CommandError<'a>>
    ensures step { IfOk result (λ step. continued settings.new (items_left step) ≡ continued settings.old (items_of (map string_bytes words.now))) }
    ensures bad_word { IfErr result (λ error. NamesWord error (λ word. continued settings.old (items_of (map string_bytes words.now)) ≡ Err word)) }
    ensures shorter { IfOk result (λ step. IsShorter step words.now) }
{
    let [word, behind @ ..] = words else {
        return Ok(Step::Packages(words));
    };
    let word = word.as_str();
    match shape_of(word) {
        Shape::Operand => Ok(Step::Packages(words)),
        Shape::Terminator => Ok(Step::Packages(behind)),
        Shape::Unknown => Err(CommandError::BadWord(word)),
        Shape::Whole(flag, value) => {
            read_value(alloc, settings, flag, value, word, word)?;
            Ok(Step::Flags(behind))
        }
        Shape::Needs(flag) => read_next(alloc, settings, flag, word, behind),
    }
}

// Reads the value of a flag from the first of the words behind it.
fn read_next<'a>(
    alloc: Global,
    settings: &mut Settings<'a>,
    flag: Flag,
    word: &'a str,
    behind: &'a [String],
) -> Result<Step<'a>, CommandError<'a>>
    ensures step { IfOk result (λ step. continued settings.new (items_left step) ≡ continued settings.old (items_with_value word.now flag (map string_bytes behind.now))) }
    ensures bad_word { IfErr result (λ error. NamesWord error (λ named. continued settings.old (items_with_value word.now flag (map string_bytes behind.now)) ≡ Err named)) }
    ensures shorter { IfOk result (λ step. IsShorter step behind.now) }
{
    let [value, left @ ..] = behind else {
        return Err(CommandError::BadWord(word));
    };
    let value = value.as_str();
    read_value(alloc, settings, flag, value, word, value)?;
    Ok(Step::Flags(left))
}

// Sets a flag that came in `word` to the value of a text, which `holder` holds.
fn read_value<'a>(
    alloc: Global,
    settings: &mut Settings<'a>,
    flag: Flag,
    text: &str,
    word: &'a str,
    holder: &'a str,
) -> Result<(), CommandError<'a>>
    ensures set { IfOk result (λ _. (items : List Item) → continued settings.new items ≡ continued settings.old (given word.now holder.now (setting_of flag text.now) items)) }
    ensures bad_word { IfErr result (λ error. NamesWord error (λ named. (items : List Item) → continued settings.old (given word.now holder.now (setting_of flag text.now) items) ≡ Err named)) }
{
    let Some(setting) = setting_of(alloc, flag, text)? else {
        return Err(CommandError::BadWord(holder));
    };
    settings.set(word, setting);
    Ok(())
}
