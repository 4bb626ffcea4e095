//! Values that stand in cells one by one.

ghost use Rattle.std.specs.Prelude.{◌≡◌, false, IfOk};
ghost use Rattle.go_value.specs.Kinds.{integer, has_parts};
ghost use Rattle.go_value.specs.Values.{value_of};

use go_base::NoMemory;
use go_value::Value;
use std::alloc::Global;

/// A value that is no array and no struct.
#[derive(Drop)]
pub(crate) struct Leaf {
    pub(crate) value: Value,
    ghost whole: { has_parts (value_of value) ≡ false },
}

impl Leaf {
    /// The same value once more.
    pub(crate) fn copy(&self, alloc: Global) -> Result<Leaf, NoMemory>
        ensures { IfOk result (λ copy. value_of copy.value ≡ value_of self.now.value) }
    {
        Ok(Leaf {
            value: self.value.copy(alloc)?,
        })
    }
}

/// The integer that a value is. None where it is none.
pub(crate) fn integer(value: &Value) -> Option<i128>
    ensures { result ≡ integer (value_of value.now) }
{
    match value {
        Value::Int(number) => Some(*number),
        _ => None,
    }
}
