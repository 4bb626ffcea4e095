//! Groups are taken one by one, as soon as nothing is left that they stand on: those without a step at once, and else the
//! first of the steps.

ghost use Rattle.std.specs.Prelude.{◌≡◌, ◌<◌, ◌+◌, ◌⊎◌, ◌++◌, ◌∷◌, ℕ, [], All, OnOk, IfOk, IfSome, IfNone, MatchOption, length, slice_index, vec_len};
ghost use Rattle.go_graph.specs.Graph.{IsAmong};
ghost use Rattle.init_order.specs.Groups.{passed, released, told};
ghost use Rattle.init_order.specs.Taking.{state, Takes};

use go_base::NoMemory;
use std::alloc::Global;
use std::collections::BTreeSet;

/// Groups, of which some are taken.
#[derive(Drop)]
pub struct Taking {
    /// By group: for how much it waits.
    pub waiting: Vec<usize>,
    /// Groups without a step that wait for nothing.
    pub free: Vec<usize>,
    /// Steps whose groups wait for nothing.
    pub ready: BTreeSet<usize>,
    /// Groups that are taken, in their order.
    pub taken: Vec<usize>,
}

impl Taking {
    /// Nothing is taken.
    pub fn new(alloc: Global, waiting: Vec<usize>) -> Taking
        ensures { state result ≡ record { waiting = waiting.items; free = []; ready = []; taken = [] } }
    {
        Taking {
            waiting,
            free: Vec::new(alloc),
            ready: BTreeSet::new(alloc),
            taken: Vec::new(alloc),
        }
    }

    /// Each of the groups waits for one thing less.
    pub fn tell_all(&mut self, labels: &[Option<usize>], groups: &[usize]) -> Result<(), NoMemory>
        requires within { All (λ g. g < vec_len self.old.waiting) groups.now }
        requires labels { length labels.now ≡ vec_len self.old.waiting }
        ensures told { OnOk result (state self.new ≡ told labels.now groups.now (state self.old)) }
        ensures size { OnOk result (vec_len self.new.waiting ≡ vec_len self.old.waiting) }
    {
        for group in groups {
            self.tell(labels, *group)?;
        }
        Ok(())
    }

    /// A group waits for one thing less.
    fn tell(&mut self, labels: &[Option<usize>], group: usize) -> Result<(), NoMemory>
        requires within { group < vec_len self.old.waiting }
        requires labels { length labels.now ≡ vec_len self.old.waiting }
        ensures passed { OnOk result (state self.new ≡ passed labels.now group (state self.old)) }
        ensures size { OnOk result (vec_len self.new.waiting ≡ vec_len self.old.waiting) }
    {
        let left = self.waiting[group].saturating_sub(1);
        self.waiting[group] = left;
        if left == 0 {
            return self.release(labels[group], group);
        }
        Ok(())
    }

    /// A group waits for nothing more.
    fn release(&mut self, label: Option<usize>, group: usize) -> Result<(), NoMemory>
        ensures released { OnOk result (state self.new ≡ released label group (state self.old)) }
        ensures size { OnOk result (vec_len self.new.waiting ≡ vec_len self.old.waiting) }
    {
        match label {
            Some(step) => {
                self.ready.insert(step)?;
            }
            None => self.free.push(group)?,
        }
        Ok(())
    }

    /// Takes the next group. None where none waits for nothing. `groups` gives each step its group.
    pub fn next(&mut self, groups: &[usize]) -> Result<Option<usize>, NoMemory>
        requires { (s : ℕ) → IsAmong s self.old.ready.keys → s < length groups.now }
        ensures taken { IfOk result (λ o. MatchOption o ((self.old.free.items ≡ []) × (self.old.ready.keys ≡ [])) (λ g. self.new.taken.items ≡ self.old.taken.items ++ g ∷ [])) }
        ensures next { IfOk result (λ o. IfSome o (λ g. Takes groups.now g (state self.old) (state self.new))) }
        ensures same { OnOk result (self.new.waiting ≡ self.old.waiting) }
        ensures over { IfOk result (λ o. IfNone o (self.new.taken.items ≡ self.old.taken.items)) }
    {
        let Some(group) = self.pick(groups) else {
            return Ok(None);
        };
        self.taken.push(group)?;
        Ok(Some(group))
    }

    /// The next group is no longer free or ready.
    fn pick(&mut self, groups: &[usize]) -> Option<usize>
        requires { (s : ℕ) → IsAmong s self.old.ready.keys → s < length groups.now }
        ensures next { MatchOption result ((self.old.free.items ≡ []) × (self.old.ready.keys ≡ [])) (λ g. Takes groups.now g (state self.old) (state self.new)) }
        ensures waiting { self.new.waiting ≡ self.old.waiting }
        ensures taken { self.new.taken ≡ self.old.taken }
    {
        if let Some(group) = self.free.pop() {
            return Some(group);
        }
        let step = self.ready.pop_first()?;
        Some(groups[step])
    }
}
