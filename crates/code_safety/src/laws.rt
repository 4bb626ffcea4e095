//! Laws of code. Each is a function that does nothing.

ghost use Rattle.code_safety.specs.Safety.{NeverStuck};

/// Sane, typed and runnable code is never stuck.
pub fn never_stuck()
    ensures { NeverStuck }
{}
