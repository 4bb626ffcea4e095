//! Laws of plans. Each is a function that does nothing.

ghost use Rattle.plan_laws.specs.Runs.{OneRun};

/// The run of a plan is one of its code, but where the code is stuck.
pub fn one_run()
    ensures { OneRun }
{}
