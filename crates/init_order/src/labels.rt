//! Which groups are steps.

ghost use Rattle.std.specs.Prelude.{◌≡◌, ◌<◌, ◌++◌, ℕ, None, OnOk, IfOk, IfSome, MatchOption, length, slice_index, slice_index_or, vec_len};
ghost use Rattle.std.specs.Option.{option_to_list};
ghost use Rattle.init_order.specs.Taking.{AreLabels, HaveOneGroup, steps_of};

use go_base::NoMemory;
use std::alloc::Global;

/// For each group its step. None where two steps have one group. `groups` gives each step its group.
pub fn labels_of(
    alloc: Global,
    count: usize,
    groups: &[usize],
) -> Result<Option<Vec<Option<usize>>>, NoMemory>
    requires { (s : ℕ) → s < length groups.now → slice_index groups.now s < count }
    ensures size { IfOk result (λ o. IfSome o (λ v. vec_len v ≡ count)) }
    ensures labels { IfOk result (λ o. MatchOption o (HaveOneGroup groups.now) (λ v. AreLabels groups.now (length groups.now) v.items)) }
{
    let mut labels = vec![in alloc; None; count]?;
    for step in 0..groups.len() {
        let group = groups[step];
        if labels[group].is_some() {
            return Ok(None);
        }
        labels[group] = Some(step);
    }
    Ok(Some(labels))
}

/// The steps of groups, in their order.
pub fn steps_of(
    alloc: Global,
    labels: &[Option<usize>],
    taken: &[usize],
) -> Result<Vec<usize>, NoMemory>
    ensures { IfOk result (λ v. v.items ≡ steps_of (λ g. slice_index_or labels.now g None) taken.now) }
{
    let mut steps = Vec::new(alloc);
    for group in taken {
        push_step(&mut steps, labels, *group)?;
    }
    Ok(steps)
}

/// The step of a group, if it has one.
fn push_step(steps: &mut Vec<usize>, labels: &[Option<usize>], group: usize) -> Result<(), NoMemory>
    ensures { OnOk result (steps.new.items ≡ steps.old.items ++ option_to_list (slice_index_or labels.now group None)) }
{
    if let Some(Some(step)) = labels.get(group) {
        steps.push(*step)?;
    }
    Ok(())
}
