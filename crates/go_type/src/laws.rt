//! What stays true of types while others are held, declared, defined and given methods.

ghost use Rattle.std.specs.Prelude.{◌≡◌, ℕ, Bool, true, Result, ◌↔◌};
ghost use Rattle.go_base.specs.declared.ids.TypeId.{TypeId};
ghost use Rattle.go_type.specs.declared.methods.MethodEntry.{MethodEntry};
ghost use Rattle.go_type.specs.declared.term.TypeTerm.{TypeTerm};
ghost use Rattle.go_type.specs.Assignable.{Assignable, Implements};
ghost use Rattle.go_type.specs.Comparable.{Comparable};
ghost use Rattle.go_type.specs.Conditions.{CanDefine, takes_method};
ghost use Rattle.go_type.specs.declared.members.Member.{Member};
ghost use Rattle.go_type.specs.declared.members.Wanted.{Wanted};
ghost use Rattle.go_type.specs.declared.methods.SelectError.{SelectError};
ghost use Rattle.go_type.specs.Grows.{Grows, AreSettled, KeepsMethods};
ghost use Rattle.go_type.specs.Identity.{Identical};
ghost use Rattle.go_type.specs.MethodSets.{HasMember};
ghost use Rattle.go_type.specs.Selector.{Finds};
ghost use Rattle.go_type.specs.Sizes.{leaves_to, nests_within};
ghost use Rattle.go_type.specs.Table.{Table, term_at, underlying_of, with_term, with_next, with_underlying, with_method};

use crate::types::Types;

/// Types that are settled in a table keep their terms, their underlying types, whether they are comparable, and their
/// sizes in all that the table grows to.
pub fn settled_types_stay(old: &Types, later: &Types)
    requires { Grows old.now later.now }
    ensures terms { (p : TypeId → Bool) (a : TypeId) → AreSettled old.now p → p a ≡ true → term_at later.now a ≡ term_at old.now a }
    ensures underlying { (p : TypeId → Bool) (a : TypeId) → AreSettled old.now p → p a ≡ true → underlying_of later.now a ≡ underlying_of old.now a }
    ensures comparable { (p : TypeId → Bool) (a : TypeId) → AreSettled old.now p → p a ≡ true → Comparable old.now a ↔ Comparable later.now a }
    ensures leaves { (p : TypeId → Bool) (a : TypeId) (n : ℕ) → AreSettled old.now p → p a ≡ true → leaves_to n later.now a ≡ leaves_to n old.now a }
    ensures nesting { (p : TypeId → Bool) (a : TypeId) (n : ℕ) → AreSettled old.now p → p a ≡ true → nests_within n later.now a ≡ nests_within n old.now a }
{
    old.laws();
    later.laws();
}

/// Settled types of which no more methods were declared keep what selectors find in them and their method sets, and
/// types that are identical stay so.
pub fn settled_selectors_stay(old: &Types, later: &Types)
    requires { Grows old.now later.now }
    ensures identity { (a b : TypeId) → Identical old.now a b ↔ Identical later.now a b }
    ensures finds { (p : TypeId → Bool) (a : TypeId) (wanted : Wanted) (r : Result Member SelectError) → AreSettled old.now p → KeepsMethods old.now later.now p → p a ≡ true → Finds old.now wanted a r ↔ Finds later.now wanted a r }
    ensures members { (p : TypeId → Bool) (a : TypeId) (wanted : Wanted) (member : Member) → AreSettled old.now p → KeepsMethods old.now later.now p → p a ≡ true → HasMember old.now a wanted member ↔ HasMember later.now a wanted member }
    ensures implements { (p : TypeId → Bool) (a interface : TypeId) → AreSettled old.now p → KeepsMethods old.now later.now p → p a ≡ true → p interface ≡ true → Implements old.now a interface ↔ Implements later.now a interface }
    ensures assignable { (p : TypeId → Bool) (from to : TypeId) → AreSettled old.now p → KeepsMethods old.now later.now p → p from ≡ true → p to ≡ true → Assignable old.now from to ↔ Assignable later.now from to }
{
    old.laws();
    later.laws();
}

/// A table grows where a type is held, declared, defined or given a method.
pub fn types_grow(types: &Types)
    ensures held { (term : TypeTerm) → Grows types.now (with_term term types.now) }
    ensures declared { (term : TypeTerm) → Grows types.now (with_next term types.now) }
    ensures defined { (id underlying : TypeId) → CanDefine types.now id underlying → Grows types.now (with_underlying id underlying types.now) }
    ensures methods { (id : TypeId) (method : MethodEntry) → takes_method types.now id method ≡ true → Grows types.now (with_method id method types.now) }
    ensures on { (later last : Table) → Grows types.now later → Grows later last → Grows types.now last }
{
    types.laws();
}
