//! The line on standard error.

ghost use Rattle.std.specs.Prelude.{◌≡◌, ◌≤◌, IfOk, string_bytes};
ghost use Rattle.go_base.specs.Devices.{HasFaulted};
ghost use Rattle.driver.specs.Lines.{line_for, ending_line as line_for_ending, panic_line as line_for_panic, refused_line, usage_line};
ghost use Rattle.driver.specs.Reporting.{Reports, Becomes, IsSaidOf};

use go_base::{Ending, Place, Rule, Sink, SinkError};
use program_work::Outcome;
use std::alloc::{AllocError, Global};

/// Writes the outcome's line to standard error, and says what the call has come to then.
pub fn report<E: Sink>(alloc: Global, outcome: Outcome, err: &mut E) -> Outcome
    ensures becomes { Becomes (E.faults err.old) (E.faults err.new) outcome result }
    ensures reports { Reports (IsSaidOf outcome) result (E.faults err.old) (E.faults err.new) (E.written err.old) (E.written err.new) }
    ensures later { E.faults err.old ≤ E.faults err.new }
{
    match line(alloc, &outcome) {
        Err(_) => write_line(Outcome::OutOfMemory, "ssadump: out of memory\n", err),
        Ok(text) => write_line(outcome, text.as_str(), err),
    }
}

// Writes the line of an outcome; nothing where it has none.
fn write_line<E: Sink>(outcome: Outcome, line: &str, err: &mut E) -> Outcome
    requires { line.now ≡ line_for outcome }
    ensures becomes { Becomes (E.faults err.old) (E.faults err.new) outcome result }
    ensures reports { Reports (λ said. said ≡ outcome) result (E.faults err.old) (E.faults err.new) (E.written err.old) (E.written err.new) }
    ensures later { E.faults err.old ≤ E.faults err.new }
{
    if line.is_empty() {
        return outcome;
    }
    match err.write(line.as_bytes()) {
        Ok(()) => outcome,
        Err(SinkError::Failed) => Outcome::WriteFault,
        Err(SinkError::OutOfMemory) => Outcome::OutOfMemory,
    }
}

// The line of an outcome, which is empty where it has none.
fn line(alloc: Global, outcome: &Outcome) -> Result<String, AllocError>
    ensures { IfOk result (λ text. string_bytes text ≡ line_for outcome.now) }
{
    match outcome {
        Outcome::Done => String::from_str(alloc, ""),
        Outcome::Ended(ending) => ending_line(alloc, ending),
        Outcome::Refused { place, rule } => refusal(alloc, place, *rule),
        Outcome::Usage { word } => bad_word(alloc, word.as_str()),
        Outcome::ReadFault => String::from_str(alloc, "ssadump: read fault\n"),
        Outcome::WriteFault => String::from_str(alloc, "ssadump: write fault\n"),
        Outcome::OutOfMemory => String::from_str(alloc, "ssadump: out of memory\n"),
        Outcome::InternalError => String::from_str(alloc, "ssadump: internal error\n"),
    }
}

fn ending_line(alloc: Global, ending: &Ending) -> Result<String, AllocError>
    ensures { IfOk result (λ text. string_bytes text ≡ line_for_ending ending.now) }
{
    match ending {
        Ending::Exited(_) => String::from_str(alloc, ""),
        Ending::Panicked(value) => panic_line(alloc, value.as_str()),
        Ending::Deadlock => String::from_str(
            alloc,
            "fatal error: all goroutines are asleep - deadlock!\n",
        ),
        Ending::StackOverflow => String::from_str(alloc, "fatal error: stack overflow\n"),
        Ending::Bound => String::from_str(alloc, "bound reached\n"),
    }
}

fn panic_line(alloc: Global, value: &str) -> Result<String, AllocError>
    ensures { IfOk result (λ text. string_bytes text ≡ line_for_panic value.now) }
{
    format!(in alloc; "panic: {value}\n")
}

fn refusal(alloc: Global, place: &Place, rule: Rule) -> Result<String, AllocError>
    ensures { IfOk result (λ text. string_bytes text ≡ refused_line place.now rule) }
{
    let path = place.path.as_str();
    let line = place.line;
    let column = place.column;
    let text = rule.text();
    let code = rule.code();
    format!(in alloc; "{path}:{line}:{column}: {text} ({code})\n")
}

fn bad_word(alloc: Global, word: &str) -> Result<String, AllocError>
    ensures { IfOk result (λ text. string_bytes text ≡ usage_line word.now) }
{
    format!(in alloc; "ssadump: bad command line at \"{word}\"\n")
}
