//! The values of flags.

ghost use Rattle.std.specs.Prelude.{◌≡◌, ◌<◌, ◌^◌, IfOk};
ghost use Rattle.std.specs.List.{list_all};
ghost use Rattle.command_line.specs.Values.{is_letter, number, up_to, letters_of, graph_of, boolean_of, choices_of, count_of, setting_of};

use crate::command::{Choices, Graph, Letters};
use crate::flags::Flag;
use go_base::NoMemory;
use std::alloc::Global;

/// The most ticks that `-bound` may give.
const MOST_TICKS: u64 = 1_000_000_000;

/// The greatest number of `-choices`.
const MOST_CHOICE: u64 = 4_294_967_295;

/// The greatest number of `-gen`.
const MOST_TYPES: u64 = 1000;

/// A flag with its value.
#[derive(Drop)]
pub enum Setting {
    Build(Letters),
    Callgraph(Graph),
    Run(bool),
    Bound(u64),
    Choices(Choices),
    Generate(u32),
}

/// A flag with the value that a text is to it. None where it is a bad one.
pub fn setting_of(alloc: Global, flag: Flag, text: &str) -> Result<Option<Setting>, NoMemory>
    ensures { IfOk result (λ setting. setting ≡ setting_of flag text.now) }
{
    match flag {
        Flag::Build => Ok(letters_of(text.as_bytes()).map(Setting::Build)),
        Flag::Callgraph => Ok(graph_of(text).map(Setting::Callgraph)),
        Flag::Run => Ok(boolean_of(text).map(Setting::Run)),
        Flag::Bound => Ok(number_up_to(MOST_TICKS, text.as_bytes()).map(Setting::Bound)),
        Flag::Choices => Ok(choices_of(alloc, text)?.map(Setting::Choices)),
        Flag::Generate => Ok(count_of(text.as_bytes()).map(Setting::Generate)),
    }
}

// Whether a text is of letters of `-build`.
fn are_letters(text: &[u8]) -> bool
    ensures { result ≡ list_all is_letter text.now }
{
    text.iter().all(|byte| matches!(*byte, b'C' | b'F' | b'N'))
}

// The letters that a text holds. None where it holds any other.
fn letters_of(text: &[u8]) -> Option<Letters>
    ensures { result ≡ letters_of text.now }
{
    if !are_letters(text) {
        return None;
    }
    Some(Letters {
        counts: text.contains(&b'C'),
        functions: text.contains(&b'F'),
        naive: text.contains(&b'N'),
    })
}

// The graph of a name.
fn graph_of(text: &str) -> Option<Graph>
    ensures { result ≡ graph_of text.now }
{
    match text {
        "cha" => Some(Graph::Cha),
        "rta" => Some(Graph::Rta),
        "vta" => Some(Graph::Vta),
        _ => None,
    }
}

// What a text says as a boolean.
fn boolean_of(text: &str) -> Option<bool>
    ensures { result ≡ boolean_of text.now }
{
    match text {
        "1" | "t" | "T" | "TRUE" | "true" | "True" => Some(true),
        "0" | "f" | "F" | "FALSE" | "false" | "False" => Some(false),
        _ => None,
    }
}

// The number that a text writes, where it is one and at most `most`.
fn number_up_to(most: u64, text: &[u8]) -> Option<u64>
    requires { most < 2 ^ 32 }
    ensures { result ≡ up_to most (number text.now) }
{
    if text.is_empty() {
        return None;
    }
    let mut value = 0;
    for digit in text {
        if !digit.is_ascii_digit() {
            return None;
        }
        value = value * 10 + u64::from(*digit - b'0');
        if value > most {
            return None;
        }
    }
    Some(value)
}

// The number of types that a text gives.
fn count_of(text: &[u8]) -> Option<u32>
    ensures { result ≡ count_of text.now }
{
    let count = number_up_to(MOST_TYPES, text)?;
    if count == 0 { None } else { Some(count as u32) }
}

// The numbers that a text writes with commas between them. None where a part is no number.
fn choices_of(alloc: Global, text: &str) -> Result<Option<Choices>, NoMemory>
    ensures { IfOk result (λ choices. choices ≡ choices_of text.now) }
{
    let mut numbers = Vec::new(alloc);
    if text.is_empty() {
        return Ok(Some(Choices::new(numbers)));
    }
    for part in text.split(',') {
        let Some(number) = number_up_to(MOST_CHOICE, part.as_bytes()) else {
            return Ok(None);
        };
        numbers.push(number as u32)?;
    }
    Ok(Some(Choices::new(numbers)))
}
