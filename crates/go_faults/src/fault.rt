//! A broken rule, and which of two counts.

ghost use Rattle.std.specs.Prelude.{◌≡◌};
ghost use Rattle.go_faults.specs.Faults.{comes_before, in_order};

use go_base::{Pos, Rule};

/// A rule that is broken at a place.
#[derive(Clone, Copy, Debug, PartialEq, Eq)]
pub struct Fault {
    /// When the rule is asked: one of a later phase counts only where all before it are kept.
    pub phase: u8,
    /// The number of the package in which the place is.
    pub package: u32,
    pub pos: Pos,
    pub rule: Rule,
}

impl Fault {
    /// Whether this fault is named rather than the other: by phase, then package, file, offset, and the row of the rule.
    #[tactic(auto, unfolding(crate::specs::Faults::comes_before))]
    pub fn comes_before(self, other: Fault) -> bool
        ensures { result ≡ comes_before self other }
    {
        let by_rule = self.rule.row() < other.rule.row();
        let by_offset = in_order(self.pos.offset, other.pos.offset, by_rule);
        let by_file = in_order(self.pos.file, other.pos.file, by_offset);
        let by_package = in_order(self.package, other.package, by_file);
        in_order(u32::from(self.phase), u32::from(other.phase), by_package)
    }
}

/// Whether a number is less than another, or the same and what is asked next holds.
fn in_order(one: u32, other: u32, next: bool) -> bool
    ensures { result ≡ in_order one other next }
{
    one < other || (one == other && next)
}
