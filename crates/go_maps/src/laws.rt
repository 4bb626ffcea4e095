//! Laws of equality and of keys: each says what holds of all values.

ghost use Rattle.std.specs.Prelude.{Bool};
ghost use Rattle.go_base.specs.declared.ids.TypeId.{TypeId};
ghost use Rattle.go_maps.specs.Equality.{TellsComparable};
ghost use Rattle.go_maps.specs.Finds.{FindsLaw};
ghost use Rattle.go_maps.specs.Keys.{KeysLaw};

use go_type::Types;

/// Some test tells which types are comparable.
pub fn comparable_is_told(types: &Types)
    ensures { (test : TypeId → Bool) × TellsComparable types.now test }
{
    let _ = types.len();
}

/// Two keys that one type can have, have one code exactly where they are equal.
pub fn codes_tell_equality()
    ensures { KeysLaw }
{}

/// The entry of a key is the first whose key is equal to it, where the keys are such as one type can have.
pub fn entries_have_equal_keys()
    ensures { FindsLaw }
{}
