//! Built-in functions. Go specification, "Built-in functions".

ghost use Rattle.std.specs.Prelude.{◌≡◌, ◌∷◌, ◌++◌, [], Some, IfOk, IfSome, OnOk, map, option_map, pos, if◌then◌else◌};
ghost use Rattle.go_sched.specs.Goroutines.{state_of};
ghost use Rattle.go_store.specs.Stores.{stored};
ghost use Rattle.go_value.specs.Values.{value_of};
ghost use Rattle.go_value.specs.Values as vals;
ghost use Rattle.interp_builtins.specs.Done.{Finishes, IsDone, IsDoneIn};
ghost use Rattle.interp_state.specs.Machines.{machine_of};
ghost use Rattle.interp_state.specs.Turns.{IsIn, Steps};
ghost use Rattle.plan_mean.specs.BuiltIns as meant;
ghost use Rattle.plan_mean.specs.BuiltIns.{built_in_call};
ghost use Rattle.plan_mean.specs.Operands.{look_at_all};
ghost use Rattle.plan_mean.specs.State.{World, where_there};
ghost use Rattle.plan_mean.specs.Step.{alone, calls_built_in, close_of, finishes, panic_of, recovers_in};
ghost use Rattle.ssa_mean.specs.BuiltIns as calls;
ghost use Rattle.ssa_mean.specs.BuiltIns.{append_items, capacity_of, counted, greatest_of, least_of, length_of, writes};
ghost use Rattle.ssa_mean.specs.Comes.{to};
ghost use Rattle.ssa_mean.specs.Texts.{printed_all, printed_behind, printed_line};

use crate::channels::completed;
use crate::elements::{append_more, append_values, clear_value, copy_values, delete_in};
use crate::recovering::recover;
use code_plan::{Arg, BuiltinForm};
use go_base::{ChanId, MapId, NoMemory};
use go_sched::SchedError;
use go_value::Value;
use interp_state::{Machine, Met, Turn, lost};
use value_texts::push_printed;

/// A call of a built-in function in an expression or a statement.
pub fn call_builtin<'a>(
    machine: &mut Machine<'a>,
    form: &'a BuiltinForm,
    args: &'a [Arg],
    to: Option<u32>,
) -> Turn
    ensures { Steps result machine.old machine.new (λ w. where_there (calls_built_in w (machine_of machine.old) to form.now) (look_at_all (machine_of machine.old) args.now)) }
{
    if let (BuiltinForm::Len, [arg], Some(to)) = (form, args, to) {
        return len(machine, arg, to);
    }
    call_with_all(machine, form, args, to)
}

/// A call whose arguments are put on their way.
fn call_with_all<'a>(
    machine: &mut Machine<'a>,
    form: &'a BuiltinForm,
    args: &'a [Arg],
    to: Option<u32>,
) -> Turn
    ensures { Steps result machine.old machine.new (λ w. where_there (calls_built_in w (machine_of machine.old) to form.now) (look_at_all (machine_of machine.old) args.now)) }
{
    machine.waiting.clear();
    match machine.push_args(args) {
        Ok(()) => builtin_to(machine, form, to),
        Err(_) => Turn::WantsMemory,
    }
}

/// `len` of one operand, for a register.
fn len(machine: &mut Machine<'_>, arg: &Arg, to: u32) -> Turn
    ensures { Steps result machine.old machine.new (λ w. where_there (calls_built_in w (machine_of machine.old) (Some to) BuiltinForm.Len) (look_at_all (machine_of machine.old) (arg.now ∷ []))) }
{
    match machine.look(arg) {
        Ok(value) => match length(machine, value) {
            Ok(len) => machine.set_int(to, len),
            Err(_) => Turn::WantsMemory,
        },
        Err(_) => Turn::WantsMemory,
    }
}

fn length(machine: &Machine<'_>, value: &Value) -> Result<i128, NoMemory>
    ensures { IfOk result (λ it. option_map pos (length_of (stored machine.now.store) (state_of machine.now.sched) (value_of value.now)) ≡ Some it) }
{
    match value {
        Value::Slice(slice) => Ok(i128::from(slice.len)),
        Value::Text(bytes) => Ok(bytes.len() as i128),
        Value::Map(map) => Ok(i128::from(machine.store.map_len(*map))),
        Value::Chan(chan) => Ok(i128::from(machine.sched.len(*chan))),
        _ => Err(lost()),
    }
}

fn capacity(machine: &Machine<'_>, value: &Value) -> Result<i128, NoMemory>
    ensures { IfOk result (λ it. option_map pos (capacity_of (state_of machine.now.sched) (value_of value.now)) ≡ Some it) }
{
    match value {
        Value::Slice(slice) => Ok(i128::from(slice.cap)),
        Value::Chan(chan) => Ok(i128::from(machine.sched.cap(*chan))),
        _ => Err(lost()),
    }
}

/// A built-in function in a frame of its own, as `go` and `defer` call it.
pub fn run_builtin<'a>(machine: &mut Machine<'a>, form: &'a BuiltinForm) -> Turn
    ensures { Steps result machine.old machine.new (λ w. alone w (machine_of machine.old) form.now (map value_of machine.old.waiting.items)) }
{
    match form {
        BuiltinForm::Recover => Turn::Goes,
        _ => builtin_to(machine, form, None),
    }
}

#[inline(never)]
fn builtin_to<'a>(machine: &mut Machine<'a>, form: &'a BuiltinForm, to: Option<u32>) -> Turn
    ensures { Steps result machine.old machine.new (λ w. calls_built_in w (machine_of machine.old) to form.now (map value_of machine.old.waiting.items)) }
{
    match form {
        BuiltinForm::Close => close(machine),
        BuiltinForm::Panic => panic(machine),
        BuiltinForm::Recover => recover_to(machine, to),
        _ => finish_builtin(machine, form, to),
    }
}

/// A built-in function that neither switches nor panics nor recovers.
fn finish_builtin<'a>(machine: &mut Machine<'a>, form: &'a BuiltinForm, to: Option<u32>) -> Turn
    ensures { Steps result machine.old machine.new (λ w. finishes w (machine_of machine.old) to (built_in_call w.answers (stored machine.old.store) (state_of machine.old.sched) form.now (map value_of machine.old.waiting.items))) }
{
    let given = builtin(machine, form);
    machine.waiting.clear();
    finish(machine, given, to)
}

/// A register gets what a built-in function gives, where it gives a value and a register wants it.
fn finish(machine: &mut Machine<'_>, given: Result<Option<Value>, Met>, to: Option<u32>) -> Turn
    ensures { Finishes to given result machine.old machine.new }
{
    match given {
        Ok(Some(value)) => {
            match to {
                Some(to) => machine.set(to, value),
                None => drop(value),
            }
            Turn::Goes
        }
        Ok(None) => Turn::Goes,
        Err(met) => machine.meet(met),
    }
}

/// A register gets what `recover` gives, where a register wants it.
fn recover_to(machine: &mut Machine<'_>, to: Option<u32>) -> Turn
    ensures { Steps result machine.old machine.new (λ w. recovers_in (machine_of machine.old) to (machine_of machine.old).current.frames) }
{
    match recover(machine) {
        Ok(value) => finish(machine, Ok(Some(value)), to),
        Err(_) => Turn::WantsMemory,
    }
}

/// The one value that is on its way, handed over.
fn only_one(machine: &mut Machine<'_>) -> Option<Value>
    ensures value { IfSome result (λ it. map value_of machine.old.waiting.items ≡ value_of it ∷ []) }
    ensures others { machine.new ≡ record machine.old { waiting = machine.new.waiting } }
{
    if machine.waiting.len() == 1 {
        machine.waiting.pop()
    } else {
        None
    }
}

fn panic(machine: &mut Machine<'_>) -> Turn
    ensures { Steps result machine.old machine.new (λ w. panic_of w (machine_of machine.old) (map value_of machine.old.waiting.items)) }
{
    match only_one(machine) {
        Some(value) => machine.panic_with(value),
        None => Turn::WantsMemory,
    }
}

fn close(machine: &mut Machine<'_>) -> Turn
    ensures { Steps result machine.old machine.new (λ w. close_of w (machine_of machine.old) (map value_of machine.old.waiting.items)) }
{
    match only_chan(machine) {
        Some(chan) => close_chan(machine, chan),
        None => Turn::WantsMemory,
    }
}

/// The one channel that is on its way.
fn only_chan(machine: &Machine<'_>) -> Option<Option<ChanId>>
    ensures { IfSome result (λ it. map value_of machine.now.waiting.items ≡ vals.chan_number it ∷ []) }
{
    match given(machine) {
        Ok(Value::Chan(chan)) => Some(*chan),
        _ => None,
    }
}

fn close_chan(machine: &mut Machine<'_>, chan: Option<ChanId>) -> Turn
    ensures { Steps result machine.old machine.new (λ w. close_of w (machine_of machine.old) (vals.chan_number chan ∷ [])) }
{
    match machine.sched.close(chan) {
        Ok(wakes) => completed(machine, wakes),
        Err(SchedError::Fault(fault)) => machine.meet(Met::Fault(fault)),
        Err(SchedError::OutOfMemory) => Turn::WantsMemory,
    }
}

/// What a built-in function gives for the values that are on their way.
fn builtin<'a>(machine: &mut Machine<'a>, form: &'a BuiltinForm) -> Result<Option<Value>, Met>
    ensures done { (w : World) → IsIn w machine.old → IsDone result machine.old machine.new (built_in_call w.answers (stored machine.old.store) (state_of machine.old.sched) form.now (map value_of machine.old.waiting.items)) }
    ensures others { machine.new ≡ record machine.old { store = machine.new.store; output = machine.new.output } }
{
    match form {
        BuiltinForm::Append { leaves } => append(machine, *leaves),
        BuiltinForm::AppendSlice { leaves } => append_all(machine, *leaves),
        BuiltinForm::AppendText { leaves } => append_all(machine, *leaves),
        BuiltinForm::Copy => copy(machine),
        BuiltinForm::CopyText => copy(machine),
        BuiltinForm::ClearMap => clear_map(machine),
        BuiltinForm::ClearSlice { zero } => clear_slice(machine, zero),
        BuiltinForm::Delete => delete(machine),
        BuiltinForm::Print => print(machine),
        BuiltinForm::Println => print_line(machine),
        BuiltinForm::Max => extreme(machine, true),
        BuiltinForm::Min => extreme(machine, false),
        BuiltinForm::Cap => given_capacity(machine),
        BuiltinForm::Len => given_length(machine),
        BuiltinForm::Close | BuiltinForm::Panic | BuiltinForm::Recover => Err(Met::Memory),
    }
}

/// The one value that is on its way.
fn given<'b>(machine: &'b Machine<'_>) -> Result<&'b Value, NoMemory>
    ensures { IfOk result (λ it. map value_of machine.now.waiting.items ≡ value_of it.now ∷ []) }
{
    match machine.waiting.as_slice() {
        [value] => Ok(value),
        _ => Err(lost()),
    }
}

fn given_length(machine: &Machine<'_>) -> Result<Option<Value>, Met>
    ensures { IsDoneIn result (stored machine.now.store) (stored machine.now.store) (counted (stored machine.now.store) (length_of (stored machine.now.store) (state_of machine.now.sched)) (map value_of machine.now.waiting.items)) }
{
    let len = length(machine, given(machine)?)?;
    Ok(Some(Value::Int(len)))
}

fn given_capacity(machine: &Machine<'_>) -> Result<Option<Value>, Met>
    ensures { IsDoneIn result (stored machine.now.store) (stored machine.now.store) (counted (stored machine.now.store) (capacity_of (state_of machine.now.sched)) (map value_of machine.now.waiting.items)) }
{
    let cap = capacity(machine, given(machine)?)?;
    Ok(Some(Value::Int(cap)))
}

fn append(machine: &mut Machine<'_>, leaves: u32) -> Result<Option<Value>, Met>
    ensures done { IsDoneIn result (stored machine.old.store) (stored machine.new.store) (append_items leaves (stored machine.old.store) (map value_of machine.old.waiting.items)) }
    ensures others { machine.new ≡ record machine.old { store = machine.new.store } }
{
    match machine.waiting.split_first() {
        Some((slice, items)) => {
            append_values(machine.alloc, &mut machine.store, leaves, slice, items)
        }
        None => Err(Met::Memory),
    }
}

fn append_all(machine: &mut Machine<'_>, leaves: u32) -> Result<Option<Value>, Met>
    ensures done { IsDoneIn result (stored machine.old.store) (stored machine.new.store) (calls.append_elements leaves (stored machine.old.store) (map value_of machine.old.waiting.items)) }
    ensures others { machine.new ≡ record machine.old { store = machine.new.store } }
{
    match two(machine.waiting.as_slice()) {
        Some((slice, more)) => append_more(machine.alloc, &mut machine.store, leaves, slice, more),
        None => Err(Met::Memory),
    }
}

fn copy(machine: &mut Machine<'_>) -> Result<Option<Value>, Met>
    ensures done { IsDoneIn result (stored machine.old.store) (stored machine.new.store) (calls.copy (stored machine.old.store) (map value_of machine.old.waiting.items)) }
    ensures others { machine.new ≡ record machine.old { store = machine.new.store } }
{
    match two(machine.waiting.as_slice()) {
        Some((to, from)) => copy_values(machine.alloc, &mut machine.store, to, from),
        None => Err(Met::Memory),
    }
}

fn clear_map(machine: &mut Machine<'_>) -> Result<Option<Value>, Met>
    ensures done { IsDoneIn result (stored machine.old.store) (stored machine.new.store) (calls.clear_map (stored machine.old.store) (map value_of machine.old.waiting.items)) }
    ensures others { machine.new ≡ record machine.old { store = machine.new.store } }
{
    match only_map(machine) {
        Some(map) => {
            machine.store.clear_map(map);
            Ok(None)
        }
        None => Err(Met::Memory),
    }
}

fn clear_slice(machine: &mut Machine<'_>, zero: &Value) -> Result<Option<Value>, Met>
    ensures done { IsDoneIn result (stored machine.old.store) (stored machine.new.store) (calls.clear_slice (stored machine.old.store) (value_of zero.now) (map value_of machine.old.waiting.items)) }
    ensures others { machine.new ≡ record machine.old { store = machine.new.store } }
{
    match one(machine.waiting.as_slice()) {
        Some(slice) => clear_value(machine.alloc, &mut machine.store, slice, zero),
        None => Err(Met::Memory),
    }
}

fn delete(machine: &mut Machine<'_>) -> Result<Option<Value>, Met>
    ensures done { (w : World) → IsIn w machine.old → IsDoneIn result (stored machine.old.store) (stored machine.new.store) (meant.delete w.answers (stored machine.old.store) (map value_of machine.old.waiting.items)) }
    ensures others { machine.new ≡ record machine.old { store = machine.new.store } }
{
    match two(machine.waiting.as_slice()) {
        Some((map, key)) => delete_in(&machine.code.types, &mut machine.store, map, key),
        None => Err(Met::Memory),
    }
}

/// The one value of a list.
fn one(values: &[Value]) -> Option<&Value>
    ensures { IfSome result (λ it. map value_of values.now ≡ value_of it.now ∷ []) }
{
    match values {
        [value] => Some(value),
        _ => None,
    }
}

/// The two values of a list.
fn two(values: &[Value]) -> Option<(&Value, &Value)>
    ensures { IfSome result (λ it. map value_of values.now ≡ value_of it.0.now ∷ value_of it.1.now ∷ []) }
{
    match values {
        [first, second] => Some((first, second)),
        _ => None,
    }
}

/// The one map that is on its way.
fn only_map(machine: &Machine<'_>) -> Option<Option<MapId>>
    ensures { IfSome result (λ it. map value_of machine.now.waiting.items ≡ vals.map_number it ∷ []) }
{
    match given(machine) {
        Ok(Value::Map(map)) => Some(*map),
        _ => None,
    }
}

fn print(machine: &mut Machine<'_>) -> Result<Option<Value>, Met>
    ensures done { IsDone result machine.old machine.new (to (writes (stored machine.old.store) (printed_all (map value_of machine.old.waiting.items)))) }
    ensures others { machine.new ≡ record machine.old { output = machine.new.output } }
{
    match push_all(&mut machine.output, machine.waiting.as_slice()) {
        Ok(()) => Ok(None),
        Err(_) => Err(Met::Memory),
    }
}

fn print_line(machine: &mut Machine<'_>) -> Result<Option<Value>, Met>
    ensures done { IsDone result machine.old machine.new (to (writes (stored machine.old.store) (printed_line (map value_of machine.old.waiting.items)))) }
    ensures others { machine.new ≡ record machine.old { output = machine.new.output } }
{
    match push_line(&mut machine.output, machine.waiting.as_slice()) {
        Ok(()) => Ok(None),
        Err(_) => Err(Met::Memory),
    }
}

/// What `print` writes of values.
fn push_all(text: &mut Vec<u8>, values: &[Value]) -> Result<(), NoMemory>
    ensures { OnOk result (text.new.items ≡ text.old.items ++ printed_all (map value_of values.now)) }
{
    for value in values {
        push_printed(text, value)?;
    }
    Ok(())
}

/// What `println` writes of values.
fn push_line(text: &mut Vec<u8>, values: &[Value]) -> Result<(), NoMemory>
    ensures { OnOk result (text.new.items ≡ text.old.items ++ printed_line (map value_of values.now)) }
{
    match values.split_first() {
        Some((first, others)) => {
            push_printed(text, first)?;
            push_behind(text, others)
        }
        None => push_behind(text, values),
    }
}

/// What `println` writes of the values behind the first.
fn push_behind(text: &mut Vec<u8>, values: &[Value]) -> Result<(), NoMemory>
    ensures { OnOk result (text.new.items ≡ text.old.items ++ printed_behind (map value_of values.now)) }
{
    for value in values {
        text.push(b' ')?;
        push_printed(text, value)?;
    }
    text.push(b'\n')?;
    Ok(())
}

/// The greatest or the least of the values that are on their way: integers or texts.
fn extreme(machine: &Machine<'_>, greatest: bool) -> Result<Option<Value>, Met>
    ensures { IsDoneIn result (stored machine.now.store) (stored machine.now.store) (calls.extreme (stored machine.now.store) (if greatest then greatest_of else least_of) (map value_of machine.now.waiting.items)) }
{
    match machine.waiting.split_first() {
        Some((first, others)) => {
            let best = best_of(first, others, greatest)?;
            Ok(Some(best.copy(machine.alloc)?))
        }
        None => Err(Met::Memory),
    }
}

fn best_of<'b>(first: &'b Value, others: &'b [Value], greatest: bool) -> Result<&'b Value, NoMemory>
    ensures { IfOk result (λ it. value_of it.now ≡ (if greatest then greatest_of else least_of) (value_of first.now) (map value_of others.now)) }
{
    let mut best = first;
    for other in others {
        if is_better(other, best, greatest)? {
            best = other;
        }
    }
    Ok(best)
}

/// Whether a value is greater than another, or less.
fn is_better(value: &Value, best: &Value, greatest: bool) -> Result<bool, NoMemory>
    ensures { IfOk result (λ it. it ≡ (if greatest then calls.is_less (value_of best.now) (value_of value.now) else calls.is_less (value_of value.now) (value_of best.now))) }
{
    if greatest {
        is_less(best, value)
    } else {
        is_less(value, best)
    }
}

fn is_less(a: &Value, b: &Value) -> Result<bool, NoMemory>
    ensures { IfOk result (λ it. it ≡ calls.is_less (value_of a.now) (value_of b.now)) }
{
    match (a, b) {
        (Value::Int(a), Value::Int(b)) => Ok(*a < *b),
        (Value::Text(a), Value::Text(b)) => Ok(a.as_slice().cmp(b.as_slice()).is_lt()),
        _ => Err(lost()),
    }
}
