//! What function values call. Go specification, "Calls" and "Method values".

ghost use Rattle.std.specs.Prelude.{◌≡◌, Some, IfOk, map};
ghost use Rattle.go_value.specs.Values.{bound, function_of, pointer, value_of};
ghost use Rattle.interp_calls.specs.Ways.{called_as};
ghost use Rattle.interp_state.specs.Machines.{free_of};
ghost use Rattle.plan_mean.specs.Calls.{called_value};

use go_base::{FuncId, NoMemory};
use go_value::{Address, BoundTarget, FuncValue, Value};
use interp_state::{Bound, Machine, lost};

/// The number of a function, as a plan has it.
fn function_number(function: FuncId) -> Result<u32, NoMemory>
    ensures { IfOk result (λ it. it ≡ function.number) }
{
    match u32::try_from(function.number) {
        Ok(number) => Ok(number),
        Err(_) => Err(lost()),
    }
}

/// The function and what is bound to it of a function value. None where it is nil.
pub fn called_by(machine: &Machine<'_>, value: &Value) -> Result<Option<(u32, Bound)>, NoMemory>
    ensures { IfOk result (λ it. called_value (value_of value.now) ≡ Some (called_as it)) }
{
    match value {
        Value::Func(function) => called_by_function(machine, function),
        _ => Err(lost()),
    }
}

fn called_by_function(
    machine: &Machine<'_>,
    function: &FuncValue,
) -> Result<Option<(u32, Bound)>, NoMemory>
    ensures { IfOk result (λ it. called_value (function_of function.now) ≡ Some (called_as it)) }
{
    match function {
        FuncValue::Nil => Ok(None),
        FuncValue::Closure { function, captured } => {
            let bound = bound_to(machine, captured.as_slice())?;
            Ok(Some((function_number(*function)?, bound)))
        }
        FuncValue::Bound { target, receiver } => called_bound(machine, target, receiver.value()),
        _ => Err(lost()),
    }
}

/// A method of a type, with its receiver.
fn called_bound(
    machine: &Machine<'_>,
    target: &BoundTarget,
    receiver: &Value,
) -> Result<Option<(u32, Bound)>, NoMemory>
    ensures { IfOk result (λ it. called_value (bound target.now (value_of receiver.now)) ≡ Some (called_as it)) }
{
    match target {
        BoundTarget::Function(function) => {
            let receiver = Bound::Receiver(receiver.copy(machine.alloc)?);
            Ok(Some((function_number(*function)?, receiver)))
        }
        _ => Err(lost()),
    }
}

/// Variables are bound to a function, each by its address.
fn bound_to(machine: &Machine<'_>, captured: &[Address]) -> Result<Bound, NoMemory>
    ensures { IfOk result (λ it. free_of it ≡ map pointer captured.now) }
{
    if captured.is_empty() {
        return Ok(Bound::Nothing);
    }
    let mut copies = Vec::new(machine.alloc);
    for address in captured {
        copies.push(address.copy()?)?;
    }
    Ok(Bound::Captured(copies))
}
