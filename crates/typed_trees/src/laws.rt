//! Laws of typed programs. Each is a function that does nothing.

ghost use Rattle.typed_trees.specs.Programs.{OneTests};

/// The tests that tell what is true of the types of a program are one, so that it does not matter by which of them a
/// program is told to be typed.
pub fn tests_are_one()
    ensures { OneTests }
{}
