//! Laws of the least fault.

ghost use Rattle.std.specs.Prelude.{◌≡◌, [], ◌++◌, List, Option, None, MatchOption};
ghost use Rattle.go_faults.specs.declared.fault.Fault.{Fault as TheFault};
ghost use Rattle.go_faults.specs.Faults.{least_with, IsLeast};

/// The least of faults is one of them that none of them comes before; there is none exactly where there are no faults.
#[tactic(auto, using(crate::proofs::Order::least_is))]
pub fn least_of_all()
    ensures { (faults : List TheFault) → MatchOption (least_with None faults) (faults ≡ []) (λ fault. IsLeast fault faults) }
{}

/// What is reported in two goes is reported in one.
#[tactic(auto, using(crate::proofs::Leasts::reported_after))]
pub fn in_two_goes()
    ensures { (least : Option TheFault) (first second : List TheFault) → least_with least (first ++ second) ≡ least_with (least_with least first) second }
{}
