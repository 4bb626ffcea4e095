//! What bare types tell, and what stays true of them while others are held, declared, defined and given methods.

ghost use Rattle.std.specs.Prelude.{◌≡◌, ◌<◌, ◌↔◌, List, length};
ghost use Rattle.go_base.specs.declared.ids.TypeId.{TypeId};
ghost use Rattle.go_type.specs.Grows.{Grows};
ghost use Rattle.go_type.specs.Table.{Table};
ghost use Rattle.type_bare.specs.Same.{SameButTags};
ghost use Rattle.type_bare.specs.Stripped.{AreBare, bare_of};

use crate::bare::Bare;
use go_type::Types;

/// Bare types stay so in all that their table grows to.
pub fn bare_stays()
    ensures { (bares : List TypeId) (old later : Table) → AreBare bares old → Grows old later → AreBare bares later }
{}

/// Two types have one bare type where they are identical but for tags, and only there.
pub fn bare_tells(bare: &Bare, types: &Types)
    ensures { AreBare bare.now types.now → (a b : TypeId) → a.number < length bare.now → b.number < length bare.now → (bare_of bare.now a ≡ bare_of bare.now b) ↔ SameButTags types.now a b }
{
    types.laws();
}
