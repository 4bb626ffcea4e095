//! Laws of what rules report, and of what is told of the limits of types.

ghost use Rattle.std.specs.Prelude.{◌≡◌, ◌++◌, ℕ, Bool, true, List, Option, Some, None};
ghost use Rattle.go_base.specs.declared.ids.TypeId.{TypeId};
ghost use Rattle.go_type.specs.Grows.{AreSettled, Grows};
ghost use Rattle.go_type.specs.Table.{Table};
ghost use Rattle.typed_parts.specs.declared.ground.Ground.{Ground as TheGround};
ghost use Rattle.typed_parts.specs.Judged.{Broken, reported};
ghost use Rattle.typed_parts.specs.Limits.{Basis, IsRight, IsTold, IsTooLarge, IsWithinLimits, known};

use go_type::{Types, settled_types_stay};

/// What is reported in two goes is reported in one.
pub fn reported_in_two_goes()
    ensures { (base : TheGround) (one other : List Broken) → reported (reported base one) other ≡ reported base (one ++ other) }
{}

/// Where all that is known is right of the types as they are, so is what is told, and all that is known then. No type is
/// within the limits and too large.
pub fn told_limits_are_right()
    ensures within { (before after : Basis) (id : TypeId) (leaves : ℕ) → IsTold before id (Some leaves) after → IsRight before → IsWithinLimits before.types id leaves }
    ensures too_large { (before after : Basis) (id : TypeId) → IsTold before id None after → IsTooLarge before.types id }
    ensures apart { (types : Table) (id : TypeId) (leaves : ℕ) → IsWithinLimits types id leaves → IsTooLarge types id → ⊥ }
    ensures stays { (before after : Basis) (id : TypeId) (told : Option ℕ) → IsTold before id told after → IsRight before → IsRight after }
{}

/// What is known of settled types is right in all that the types grow to.
pub fn settled_limits_stay(old: &Types, later: &Types)
    requires { Grows old.now later.now }
    ensures { (base : Basis) (p : TypeId → Bool) → AreSettled old.now p → ((id : TypeId) (leaves : ℕ) → known base id ≡ Some leaves → p id ≡ true) → IsRight (record base { types = old.now }) → IsRight (record base { types = later.now }) }
{
    settled_types_stay(old, later);
}
