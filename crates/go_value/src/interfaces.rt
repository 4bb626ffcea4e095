//! Values in interfaces. Go specification, "Interface types" and "Type assertions".

ghost use Rattle.std.specs.Prelude.{◌≡◌, IfOk, IfSome};
ghost use Rattle.go_value.specs.Gives.{Gives};
ghost use Rattle.go_value.specs.Interfaces.{is_interface_type, converted, bound_to, asserted, dynamic_type};
ghost use Rattle.go_value.specs.Values.{value_of};

use crate::depths::MAX_DEPTH;
use crate::faults::{Fault, ValueError};
use crate::memory::{lost, shared};
use crate::values::{BoundTarget, Dynamic, FuncValue, Receiver, Value};
use go_base::{NoMemory, TypeId};
use go_type::{TypeTerm, Types, implements};
use std::alloc::Global;

/// Whether a type is one of interfaces.
fn is_interface(types: &Types, of: TypeId) -> bool
    ensures { result ≡ is_interface_type types.now of }
{
    matches!(types.underlying_term(of), Some(TypeTerm::Interface(_)))
}

/// A value of a type, converted to an interface type. A value of an interface type stays as it is. `TooDeep` exactly
/// where the result would have a depth above 10,000.
pub fn to_interface(
    alloc: Global,
    types: &Types,
    of: TypeId,
    value: Value,
) -> Result<Value, ValueError>
    ensures { Gives value_of result (converted types.now of (value_of value)) }
{
    if is_interface(types, of) {
        return Ok(value);
    }
    let inner_depth = value.depth();
    if inner_depth >= MAX_DEPTH {
        return Err(ValueError::Fault(Fault::TooDeep));
    }
    let dynamic = Dynamic {
        of,
        value,
        inner_depth,
    };
    Ok(Value::Interface(shared(alloc, dynamic)?))
}

/// The value of a method with its receiver. `TooDeep` exactly where it would have a depth above 10,000.
pub fn bind(alloc: Global, target: BoundTarget, receiver: Value) -> Result<Value, ValueError>
    ensures { Gives value_of result (bound_to target (value_of receiver)) }
{
    let inner_depth = receiver.depth();
    if inner_depth >= MAX_DEPTH {
        return Err(ValueError::Fault(Fault::TooDeep));
    }
    let receiver = Receiver {
        value: receiver,
        inner_depth,
    };
    let receiver = Box::new(alloc, receiver)?;
    Ok(Value::function(alloc, FuncValue::Bound { target, receiver })?)
}

/// What an assertion of a type makes of a value in an interface: an interface of the same value where the type is one of
/// interfaces and the dynamic type implements it, and else the value itself where that is its type. None where the
/// assertion does not hold.
pub fn assert_to(
    alloc: Global,
    types: &Types,
    value: Value,
    to: TypeId,
) -> Result<Option<Value>, NoMemory>
    ensures { IfOk result (λ made. IfSome made (λ it. value_of it ≡ asserted types.now (value_of value) to)) }
{
    match &value {
        Value::NilInterface => Ok(None),
        Value::Interface(dynamic) => {
            if is_interface(types, to) {
                if !implements(types, dynamic.of(), to) {
                    return Ok(None);
                }
                return Ok(Some(value));
            }
            if dynamic.of() != to {
                return Ok(None);
            }
            Ok(Some(dynamic.value().copy(alloc)?))
        }
        _ => Err(lost()),
    }
}

/// The fault of an assertion that does not hold.
pub fn assertion_fault(value: &Value, wanted: TypeId) -> Fault
    ensures { result ≡ Fault.Assertion (dynamic_type (value_of value.now)) wanted }
{
    Fault::Assertion {
        dynamic: dynamic_type(value),
        wanted,
    }
}

/// The type of what an interface holds.
fn dynamic_type(value: &Value) -> Option<TypeId>
    ensures { result ≡ dynamic_type (value_of value.now) }
{
    match value {
        Value::Interface(dynamic) => Some(dynamic.of()),
        Value::Truth(_)
        | Value::Int(_)
        | Value::Text(_)
        | Value::Pointer(_)
        | Value::Slice(_)
        | Value::Map(_)
        | Value::Chan(_)
        | Value::Func(_)
        | Value::NilInterface
        | Value::Parts(_)
        | Value::Iter(_) => None,
    }
}
