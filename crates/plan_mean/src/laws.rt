//! Laws of runs of planned code. Each is a function that does nothing.

ghost use Rattle.plan_mean.specs.Runs.{FrontsStand, OneOutcome, StepsFollow};

/// Two runs of one plan with one list of choices and one bound have one output and one ending.
pub fn one_outcome()
    ensures { OneOutcome }
{}

/// What was written before stands in front of what steps write, and changes nothing of what they do.
pub fn fronts_stand()
    ensures { FrontsStand }
{}

/// Some steps and then more are all of them at once.
pub fn steps_follow()
    ensures { StepsFollow }
{}
