//! Laws of runs. Each is a function that does nothing, and says what holds of all codes, or of one that is written by
//! hand.

ghost use Rattle.std.specs.Prelude.{[], ◌∷◌, codes};
ghost use Rattle.go_base.specs.declared.ending.Ending.TheVariants.{Exited, Panicked, Bound, Deadlock};
ghost use Rattle.ssa_mean.specs.Examples.{swap_code, recover_code, go_code, send_code, map_code};
ghost use Rattle.ssa_mean.specs.Runs.{OneOutcome, FrontsStand, IsRunOf};
ghost use Rattle.ssa_mean.specs.Samples.{RunsTo, range_code, append_code, select_code, invoke_code, fault_code};
ghost use Rattle.ssa_mean.specs.Samples.{exit_code, index_text};
ghost use Rattle.ssa_mean.specs.Slots.{SlotsTell};
ghost use Rattle.ssa_mean.specs.Ties.{AppendsOne, FirstRuneOne, RunesOne};
ghost use Rattle.ssa_mean.specs.Ties.{LookupsOne, UpdatesOne, DeletesOne, TextsOne, SlicesOne};

/// Two runs of one code with one list of choices and one bound have one output and one ending.
pub fn one_outcome()
    ensures { OneOutcome }
{}

/// What a run has written on its way stands first in what it writes in all.
pub fn fronts_stand()
    ensures { FrontsStand }
{}

/// A loop whose two phis swap 1 and 2 three times prints `2 1`. With no ticks the run ends before it.
pub fn phis_swap()
    ensures swapped { IsRunOf swap_code [] 4 (codes "2 1\n") (Exited 0) }
    ensures bound { IsRunOf swap_code [] 0 [] Bound }
{}

/// A function whose deferred call recovers gives the results that it has then.
pub fn recovery_gives_results()
    ensures { IsRunOf recover_code [] 3 (codes "7\n") (Exited 0) }
{}

/// A choice decides whether a new goroutine goes first; the run ends with `main.main`.
pub fn choices_decide()
    ensures none { IsRunOf go_code [] 10 (codes "m\n") (Exited 0) }
    ensures one { IsRunOf go_code (1 ∷ []) 10 (codes "g\nm\n") (Exited 0) }
{}

/// A send that nobody receives is a deadlock.
pub fn lone_send_blocks()
    ensures { IsRunOf send_code [] 10 [] Deadlock }
{}

/// A range over a map produces each entry that is still there, by choices.
pub fn ranges_choose()
    ensures { IsRunOf map_code (2 ∷ 0 ∷ []) 10 (codes "3\n1\n") (Exited 0) }
{}

/// What `append` makes of a store is the one store that the contract of the store allows.
pub fn appends_are_one()
    ensures { AppendsOne }
{}

/// The first code point of a text, and the list of all, are the ones that are allowed of its bytes.
pub fn runes_are_one()
    ensures first { FirstRuneOne }
    ensures all { RunesOne }
{}

/// What is done with a map, by keys that one type can have, is what the calls on the maps of a store promise. The
/// machine finds an entry by an equal key, and they by the code of the key.
pub fn map_calls_are_one()
    ensures lookups { LookupsOne }
    ensures updates { UpdatesOne }
    ensures deletes { DeletesOne }
{}

/// Conversions between strings and slices give what the calls on a store promise of them.
pub fn conversions_are_one()
    ensures texts { TextsOne }
    ensures slices { SlicesOne }
{}

/// A range over a string decodes it; a byte that begins no code point is U+FFFD.
pub fn strings_are_decoded()
    ensures { RunsTo range_code [] 10 (codes "0 97\n1 65533\n2 233\n") (Exited 0) }
{}

/// A slice that is full grows into a new array of twice its capacity; an index that is out of range is a fault, and its
/// panic ends the run.
pub fn slices_grow()
    ensures { RunsTo append_code [] 10 (codes "3 4 1 9 3\n") (Panicked index_text) }
{}

/// A `select` takes the ready case that the choice tells, modulo their number.
pub fn selects_choose()
    ensures first { RunsTo select_code (0 ∷ []) 10 (codes "0 1 0\n") (Exited 0) }
    ensures second { RunsTo select_code (3 ∷ []) 10 (codes "1 0 2\n") (Exited 0) }
{}

/// A method of an interface value is that of its dynamic type, with the value in it as the receiver.
pub fn invokes_find_methods()
    ensures { RunsTo invoke_code [] 10 (codes "M 5\n") (Exited 0) }
{}

/// A fault runs the deferred calls, and then ends the run with its text.
pub fn faults_unwind()
    ensures { RunsTo fault_code [] 10 (codes "d\n") (Panicked (codes "runtime error: integer divide by zero")) }
{}

/// The most negative integer divided by -1 is itself, with remainder 0; `os.Exit` takes its argument modulo 256.
pub fn exits_are_bytes()
    ensures { RunsTo exit_code [] 10 (codes "-9223372036854775808 0\n") (Exited 255) }
{}

/// The slots of a frame hold its parameters, its free variables and its registers, one behind another.
pub fn slots_tell()
    ensures { SlotsTell }
{}
