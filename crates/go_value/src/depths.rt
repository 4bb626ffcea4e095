//! How deep values are.

ghost use Rattle.std.specs.Prelude.{◌≡◌, ◌+◌};
ghost use Rattle.go_value.specs.Depths.{depth, deepest, capped};
ghost use Rattle.go_value.specs.Values.{value_of, function_of, parts_of, range_of};

use crate::values::{Dynamic, FuncValue, Part, RangeState, Receiver, Value};
use go_base::TypeId;

/// The greatest depth of a value in an interface or of a method value.
pub const MAX_DEPTH: u64 = 10_000;

impl Value {
    /// One more than the greatest depth among its parts, the value in its interface and its bound receiver, and 1 where
    /// it has none of these. It looks at parts alone: what lies in an interface or is bound was counted when it was put
    /// there.
    #[cycle(depth)]
    pub fn depth(&self) -> u64
        ensures { result ≡ capped (depth (value_of self.now)) }
    {
        match self {
            Value::Parts(parts) => deepest(parts.as_slice()).saturating_add(1),
            Value::Interface(dynamic) => dynamic.depth(),
            Value::Func(function) => function.depth(),
            Value::Iter(state) => depth_of_range(state),
            Value::Truth(_)
            | Value::Int(_)
            | Value::Text(_)
            | Value::Pointer(_)
            | Value::Slice(_)
            | Value::Map(_)
            | Value::Chan(_)
            | Value::NilInterface => 1,
        }
    }
}

fn depth_of_range(state: &RangeState) -> u64
    ensures { result ≡ depth (range_of state.now) }
{
    match state {
        RangeState::Text { .. } | RangeState::Map { .. } => 1,
    }
}

impl FuncValue {
    /// One more than the depth of its bound receiver, and 1 where it has none.
    fn depth(&self) -> u64
        ensures { result ≡ capped (depth (function_of self.now)) }
    {
        match self {
            FuncValue::Bound { receiver, .. } => receiver.depth(),
            FuncValue::Nil | FuncValue::Closure { .. } | FuncValue::Expression { .. } => 1,
        }
    }
}

impl Dynamic {
    /// A value of a type.
    pub fn new(of: TypeId, value: Value) -> Dynamic
        ensures { result ≡ record { of = of; value = value_of value } }
    {
        let inner_depth = value.depth();
        Dynamic {
            of,
            value,
            inner_depth,
        }
    }

    /// The type of the value.
    pub fn of(&self) -> TypeId
        ensures { result ≡ self.now.of }
    {
        self.of
    }

    /// The value.
    pub fn value(&self) -> &Value
        ensures { value_of result.now ≡ self.now.value }
    {
        &self.value
    }

    /// The depth of an interface that holds it.
    fn depth(&self) -> u64
        ensures { result ≡ capped (depth self.now.value + 1) }
    {
        self.inner_depth.saturating_add(1)
    }
}

impl Receiver {
    /// The value that is bound.
    pub fn value(&self) -> &Value
        ensures { value_of result.now ≡ self.now }
    {
        &self.value
    }

    /// The depth of a method value that it is bound to.
    fn depth(&self) -> u64
        ensures { result ≡ capped (depth self.now + 1) }
    {
        self.inner_depth.saturating_add(1)
    }
}

#[cycle(depth)]
fn deepest(parts: &[Part]) -> u64
    ensures { result ≡ capped (deepest (parts_of parts.now)) }
{
    let mut most = 0;
    for part in parts {
        let depth = part.value.depth();
        if depth > most {
            most = depth;
        }
    }
    most
}
