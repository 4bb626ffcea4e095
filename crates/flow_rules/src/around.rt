//! What stands around a place of a body, the innermost last.

ghost use Rattle.std.specs.Prelude.{◌≡◌, ◌<◌, Bool, true, Some, IfSome, reverse, map, length};
ghost use Rattle.flow_rules.specs.declared.around.Around.{Around};
ghost use Rattle.flow_rules.specs.Surroundings.{has_label, is_meant, levels_to, loops, held, left, named};

use go_base::{NameId, Pos};

/// A `for`, `switch` or `select` around the place that is looked at.
#[derive(Clone, Copy)]
pub struct Around {
    /// The last of its labels.
    pub label: Option<NameId>,
    pub is_loop: bool,
    /// Whether a `break` leaves it.
    pub is_left: bool,
}

/// A label of a statement around the place that is looked at.
#[derive(Clone, Copy)]
pub struct Label {
    pub name: NameId,
    pub at: Pos,
    /// Whether a branch in its statement names it.
    pub is_named: bool,
}

/// Whether there is a label, and it has the name.
fn has_label(name: NameId, label: Option<NameId>) -> bool
    ensures { result ≡ has_label name label }
{
    match label {
        Some(label) => label.number == name.number,
        None => false,
    }
}

/// Whether a branch means a statement: that with its label, or any where it has none.
fn is_meant(around: Around, label: Option<NameId>) -> bool
    ensures { result ≡ is_meant label around }
{
    match label {
        Some(name) => has_label(name, around.label),
        None => true,
    }
}

/// How many statements lie within the innermost that a branch means.
pub fn levels_among_all(around: &[Around], label: Option<NameId>) -> Option<usize>
    ensures levels { result ≡ levels_to (is_meant label) (reverse around.now) }
    ensures within { IfSome result (λ n. n < length around.now) }
{
    let mut levels: usize = 0;
    let mut rest = around;
    while let Some((last, outer)) = rest.split_last() {
        if is_meant(*last, label) {
            return Some(levels);
        }
        levels += 1;
        rest = outer;
    }
    None
}

/// How many loops lie within the innermost loop that a branch means.
pub fn levels_among_loops(around: &[Around], label: Option<NameId>) -> Option<usize>
    ensures { result ≡ levels_to (is_meant label) (loops (reverse around.now)) }
{
    let mut levels: usize = 0;
    let mut rest = around;
    while let Some((last, outer)) = rest.split_last() {
        rest = outer;
        if !last.is_loop {
            continue;
        }
        if is_meant(*last, label) {
            return Some(levels);
        }
        levels += 1;
    }
    None
}

/// Levels as a `u32` holds them.
pub fn held(levels: usize) -> u32
    ensures { result ≡ held levels }
{
    u32::try_from(levels).unwrap_or(u32::MAX)
}

/// A break leaves the statement with so many within it.
pub fn leave_at(around: &mut [Around], levels: usize)
    requires { levels < length around.old }
    ensures { (test : Around → Bool) → levels_to test (reverse around.old) ≡ Some levels → reverse around.new ≡ left test (reverse around.old) }
{
    let place = around.len() - 1 - levels;
    around[place].is_left = true;
}

/// The labels of a name in whose statements a branch stands are named by it.
pub fn name_labels(labels: &mut [Label], name: Option<NameId>)
    ensures { labels.new ≡ map (named name) labels.old }
{
    for label in labels.iter_mut() {
        *label = named(*label, name);
    }
}

/// A label behind a branch with a label in its statement.
fn named(label: Label, name: Option<NameId>) -> Label
    ensures { result ≡ named name label }
{
    if has_label(label.name, name) {
        Label {
            is_named: true,
            ..label
        }
    } else {
        label
    }
}
