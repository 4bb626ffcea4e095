//! Laws of runs. Each is a function that does nothing, and says what holds of all programs.

ghost use Rattle.go_mean.specs.Runs.{FrontsStand, OneMeaning, OneRecord};

/// Two runs of one program with one list of choices and one bound have one output and one ending.
pub fn one_meaning()
    ensures { OneMeaning }
{}

/// Their choices take the same numbers, and they make the same calls.
pub fn one_record()
    ensures { OneRecord }
{}

/// What a run has written on its way stands first in what it writes in all.
pub fn fronts_stand()
    ensures { FrontsStand }
{}
