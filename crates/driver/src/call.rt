//! The call of the program.

ghost use Rattle.std.specs.Prelude.{◌≡◌, ◌≤◌, ◌⊎◌, map, string_bytes};
ghost use Rattle.go_base.specs.Devices.{HasFaulted};
ghost use Rattle.driver.specs.Reporting.{Reports};
ghost use Rattle.driver.specs.WholeAnswer.{Answers, AsksToLoad};

use crate::perform::perform;
use crate::report::report;
use go_base::{Files, Sink};
use program_work::Outcome;
use std::alloc::Global;

/// Does what the words of a command line ask for. What a program prints goes to `out`, and a line for each outcome but
/// `Done` and `Exited` to `err`. `words` are without the program's name.
pub fn ssadump<F: Files, O: Sink, E: Sink>(
    alloc: Global,
    words: &[String],
    files: &mut F,
    out: &mut O,
    err: &mut E,
) -> Outcome
    // The outcome is the right one for the words and the files, and what is on standard output is what goes with it.
    ensures answers { Answers (map string_bytes words.now) (F.tree files.old) result (O.written out.old) (O.written out.new) }

    // What is on standard error is the outcome's line; where that could not be written whole, or memory is wanted, a front
    // of the line of an outcome that answers.
    ensures reports { Reports
        (λ said. Answers (map string_bytes words.now) (F.tree files.old) said (O.written out.old) (O.written out.new))
        result (E.faults err.old) (E.faults err.new) (E.written err.old) (E.written err.new) }

    // A fault is told only where a device has had one.
    ensures read_fault { result ≡ Outcome.ReadFault → HasFaulted (F.faults files.old) (F.faults files.new) }
    ensures write_fault { result ≡ Outcome.WriteFault →
        HasFaulted (O.faults out.old) (O.faults out.new) ⊎ HasFaulted (E.faults err.old) (E.faults err.new) }
    ensures files_later { F.faults files.old ≤ F.faults files.new }
    ensures out_later { O.faults out.old ≤ O.faults out.new }
    ensures err_later { E.faults err.old ≤ E.faults err.new }

    // The tree stays; files are not touched at all where nothing is loaded.
    ensures same { F.tree files.new ≡ F.tree files.old }
    ensures untouched { (AsksToLoad (map string_bytes words.now) → ⊥) → files.new ≡ files.old }
{
    let outcome = perform(alloc, words, files, out);
    report(alloc, outcome, err)
}
