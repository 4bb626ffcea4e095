//! The least of the faults that were seen.

ghost use Rattle.std.specs.Prelude.{◌≡◌, ◌∷◌, [], None};
ghost use Rattle.go_faults.specs.Faults.{least_with};

use crate::fault::Fault;

/// The least of the faults that were reported so far; None where there was none.
#[derive(Clone, Copy)]
pub struct Least {
    pub fault: Option<Fault>,
}

impl Least {
    /// Nothing is reported yet.
    pub fn new() -> Least
        ensures { result.fault ≡ None }
    {
        Least { fault: None }
    }

    /// Takes one more fault into account. Of two that are alike in their order the first stays.
    #[tactic(auto, unfolding(crate::specs::Faults::lesser))]
    pub fn report(&mut self, fault: Fault)
        ensures { self.new.fault ≡ least_with self.old.fault (fault ∷ []) }
    {
        match self.fault {
            Some(least) if !fault.comes_before(least) => {}
            _ => self.fault = Some(fault),
        }
    }
}
