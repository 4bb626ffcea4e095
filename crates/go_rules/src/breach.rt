//! Which rule an operation breaks, and at which part of it.

ghost use Rattle.std.specs.Prelude.{◌≡◌};
ghost use Rattle.go_rules.specs.Breaches.{whole, first, second};

use go_base::Rule;

/// A part of an operation, where a rule is broken.
#[derive(Clone, Copy, PartialEq, Eq)]
pub enum Part {
    /// The whole operation, at its first byte.
    Whole,
    /// The only operand, or the left one.
    First,
    /// The right operand.
    Second,
}

/// A rule that an operation breaks at a part of it.
#[derive(Clone, Copy, PartialEq, Eq)]
pub struct Breach {
    pub rule: Rule,
    pub part: Part,
}

impl Breach {
    /// A rule that the whole breaks.
    pub const fn whole(rule: Rule) -> Breach
        ensures { result ≡ whole rule }
    {
        Breach {
            rule,
            part: Part::Whole,
        }
    }

    /// A rule that the only operand or the left one breaks.
    pub const fn first(rule: Rule) -> Breach
        ensures { result ≡ first rule }
    {
        Breach {
            rule,
            part: Part::First,
        }
    }

    /// A rule that the right operand breaks.
    pub const fn second(rule: Rule) -> Breach
        ensures { result ≡ second rule }
    {
        Breach {
            rule,
            part: Part::Second,
        }
    }
}

/// Why an operation on constants has no value.
#[derive(Clone, Copy, PartialEq, Eq)]
pub enum FoldError {
    Broken(Breach),
    OutOfMemory,
}
