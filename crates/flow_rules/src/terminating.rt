//! Which statements are terminating, by what is known of their parts. Go specification, "Terminating statements".

ghost use Rattle.std.specs.Prelude.{◌≡◌};
ghost use Rattle.flow_rules.specs.Terminating.{choice_ends, loop_ends, select_ends, switch_ends};

/// Whether an `if` is terminating: `arms` says whether all its arms end in a terminating statement, and `otherwise` whether
/// the block of its `else` does, where it has one.
pub fn choice_ends(arms: bool, otherwise: Option<bool>) -> bool
    ensures { result ≡ choice_ends arms otherwise }
{
    match otherwise {
        Some(otherwise) => arms && otherwise,
        None => false,
    }
}

/// Whether a `for` without a range is terminating: one without a condition that no `break` leaves.
pub fn loop_ends(has_condition: bool, is_left: bool) -> bool
    ensures { result ≡ loop_ends has_condition is_left }
{
    !has_condition && !is_left
}

/// Whether a `switch` is terminating: `clauses` says whether the statements of each of its clauses end in a terminating
/// statement or in a `fallthrough`.
pub fn switch_ends(has_default: bool, clauses: bool, is_left: bool) -> bool
    ensures { result ≡ switch_ends has_default clauses is_left }
{
    has_default && clauses && !is_left
}

/// Whether a `select` is terminating: `clauses` says whether the statements of each of its clauses end in a terminating
/// statement.
pub fn select_ends(clauses: bool, is_left: bool) -> bool
    ensures { result ≡ select_ends clauses is_left }
{
    clauses && !is_left
}
