//! Laws of values: each is a function that does nothing, and says what holds of all types.
#![tactic(auto)]

ghost use Rattle.std.specs.Prelude.{◌≡◌, ◌≤◌, ℕ, Option, Some};
ghost use Rattle.go_base.specs.declared.ids.NameId.{NameId};
ghost use Rattle.go_base.specs.declared.ids.TypeId.{TypeId};
ghost use Rattle.go_type.specs.Table.{Table};
ghost use Rattle.go_value.specs.Values.{Val};
ghost use Rattle.go_value.specs.Zeros.{zero_to};

/// A type that has a zero value to a depth has it to each greater depth too; so it has the same to every depth at which
/// it has one.
pub fn one_zero()
    ensures kept { (types : Table) (blank : Option NameId) (of : TypeId) (m n : ℕ) (v : Val) → m ≤ n → zero_to m types blank of ≡ Some v → zero_to n types blank of ≡ Some v }
    ensures one { (types : Table) (blank : Option NameId) (of : TypeId) (m n : ℕ) (v w : Val) → zero_to m types blank of ≡ Some v → zero_to n types blank of ≡ Some w → v ≡ w }
{}
