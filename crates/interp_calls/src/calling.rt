//! Calls, and how functions are entered and left. Go specification, "Calls" and "Return statements".

ghost use Rattle.std.specs.Prelude.{◌≡◌, ◌<◌, ◌∷◌, ◌||◌, [], ℕ, List, Some, IfErr, IfOk, OnOk, false, length, map, option_map, pos, unsigned_abs};
ghost use Rattle.std.specs.Int.{int_rem_euclid};
ghost use Rattle.std.specs.Option.{option_and_then};
ghost use Rattle.code_plan.specs.declared.steps.Callee.TheVariants as callees;
ghost use Rattle.go_store.specs.Arrays.{array_of};
ghost use Rattle.go_value.specs.Values.{Val, pointer, value_of};
ghost use Rattle.interp_calls.specs.Ways.{HasRoom, IsAdmitted, IsFramed, IsLater, IsMethod, IsReadied};
ghost use Rattle.interp_calls.specs.Ways.{entry_with, gives_back, goes_to_call, on_way};
ghost use Rattle.interp_state.specs.Machines.{called_of, frame_of, free_of, later_of, machine_of};
ghost use Rattle.interp_state.specs.States.{frames_in, looked, slots_of};
ghost use Rattle.interp_state.specs.Turns.{IsIn, Steps};
ghost use Rattle.plan_mean.specs.Calls.{Entry, called_value, enters, enters_role, enters_source, exits, invoked};
ghost use Rattle.plan_mean.specs.Calls.{later, passed_by_invoke, passed_on, passes_deferral, pushed, readied, returned};
ghost use Rattle.plan_mean.specs.Calls.{with_new};
ghost use Rattle.plan_mean.specs.Operands.{look_at_all};
ghost use Rattle.plan_mean.specs.Slots.{with_frame, with_slots_from};
ghost use Rattle.plan_mean.specs.State.{World, goes, of_function, where_there, with_result};
ghost use Rattle.plan_mean.specs.Step.{begins, calls, ends_or_starts, makes, puts_off, starts_call, starts_next};
ghost use Rattle.plan_mean.specs.Step.{with_later};
ghost use Rattle.ssa_mean.specs.Calls.{results_of};
ghost use Rattle.ssa_mean.specs.Comes.{to, where_some};

use crate::function_values::called_by;
use code_plan::{Arg, Callee, MethodName, PlannedCall, PlannedFunction, Role};
use go_base::{Ending, NoMemory};
use go_sched::Point;
use go_value::{Address, Fault, Part, Value};
use interp_builtins::built_ins::{call_builtin, run_builtin};
use interp_builtins::channels::switch;
use interp_state::{Bound, Frame, FrameState, Goroutine, Later, Machine, Met, Ready, Turn, lost};

/// The most frames of source functions that a goroutine has.
const MAX_FRAMES: u32 = 100_000;
/// The most embedded interfaces that a selection passes.
const MAX_CHAIN: u64 = 100_000;

/// How a function is called.
#[derive(Clone, Copy)]
pub struct Manner {
    deferred: bool,
    to: Option<u32>,
    chain: u64,
}

/// A call in an expression or a statement.
pub fn call<'a>(machine: &mut Machine<'a>, call: &'a PlannedCall, to: Option<u32>) -> Turn
    ensures { Steps result machine.old machine.new (λ w. with_later w (machine_of machine.old) call.now (λ it. calls w (machine_of machine.old) to it it.called)) }
{
    match &call.callee {
        Callee::Builtin(form) => call_builtin(machine, form, call.arguments.as_slice(), to),
        _ => call_function(machine, call, to),
    }
}

/// A call of what is no built-in function.
fn call_function<'a>(machine: &mut Machine<'a>, call: &'a PlannedCall, to: Option<u32>) -> Turn
    ensures { Steps result machine.old machine.new (λ w. with_later w (machine_of machine.old) call.now (λ it. goes_to_call w (machine_of machine.old) to it false it.called)) }
{
    match ready(machine, call) {
        Ok((ready, chain)) => call_ready(machine, ready, chain, false, to),
        Err(met) => machine.meet(met),
    }
}

/// What a call calls; its arguments are then on their way.
fn ready<'a>(machine: &mut Machine<'a>, call: &'a PlannedCall) -> Result<(Ready<'a>, u64), Met>
    ensures readied { (w : World) → IsIn w machine.old → IsReadied result machine.new (readied w (machine_of machine.old) call.now.callee call.now.arguments.items) }
    ensures others { machine.new ≡ record machine.old { waiting = machine.new.waiting } }
{
    let args = call.arguments.as_slice();
    match &call.callee {
        Callee::Function(function) => ready_function(machine, *function, args),
        Callee::Value(value) => ready_value(machine, value, args),
        Callee::Method { receiver, method } => ready_method(machine, receiver, *method, args),
        Callee::Builtin(form) => {
            put_on_way(machine, args)?;
            Ok((Ready::Builtin(form), 0))
        }
    }
}

/// The arguments alone are on their way.
fn put_on_way(machine: &mut Machine<'_>, args: &[Arg]) -> Result<(), NoMemory>
    ensures read { OnOk result (look_at_all (machine_of machine.old) args.now ≡ Some (on_way machine.new)) }
    ensures others { machine.new ≡ record machine.old { waiting = machine.new.waiting } }
{
    machine.waiting.clear();
    machine.push_args(args)
}

fn ready_function<'a>(
    machine: &mut Machine<'a>,
    function: u32,
    args: &[Arg],
) -> Result<(Ready<'a>, u64), Met>
    ensures readied { (w : World) → IsReadied result machine.new (readied w (machine_of machine.old) (callees.Function function) args.now) }
    ensures others { machine.new ≡ record machine.old { waiting = machine.new.waiting } }
{
    put_on_way(machine, args)?;
    let bound = Bound::Nothing;
    Ok((
        Ready::Function { function, bound },
        chain_passed_on(machine),
    ))
}

fn ready_value<'a>(
    machine: &mut Machine<'a>,
    callee: &Arg,
    args: &[Arg],
) -> Result<(Ready<'a>, u64), Met>
    ensures readied { (w : World) → IsReadied result machine.new (readied w (machine_of machine.old) (callees.Value callee.now) args.now) }
    ensures others { machine.new ≡ record machine.old { waiting = machine.new.waiting } }
{
    put_on_way(machine, args)?;
    Ok((value_called(machine, callee)?, 0))
}

/// What a function value calls.
fn value_called<'a>(machine: &Machine<'a>, callee: &Arg) -> Result<Ready<'a>, NoMemory>
    ensures { IfOk result (λ it. option_and_then called_value (looked machine.now callee.now) ≡ Some (called_of it)) }
{
    let value = machine.look(callee)?;
    match called_by(machine, value)? {
        Some((function, bound)) => Ok(Ready::Function { function, bound }),
        None => Ok(Ready::Nil),
    }
}

/// How many embedded interfaces a wrapper on top has passed; a source function begins anew.
fn chain_passed_on(machine: &Machine<'_>) -> u64
    ensures { result ≡ passed_on (map frame_of (frames_in machine.now.current)) }
{
    match &machine.current.top {
        Some(top) if top.function.role == Role::Wrapper => top.chain,
        _ => 0,
    }
}

fn ready_method<'a>(
    machine: &mut Machine<'a>,
    receiver: &Arg,
    method: MethodName,
    args: &[Arg],
) -> Result<(Ready<'a>, u64), Met>
    ensures readied { (w : World) → IsIn w machine.old → IsReadied result machine.new (readied w (machine_of machine.old) (callees.Method receiver.now method) args.now) }
    ensures others { machine.new ≡ record machine.old { waiting = machine.new.waiting } }
{
    match method_of(machine, receiver, method) {
        Ok((function, held)) => ready_with(machine, function, held, args),
        Err(met) => {
            put_on_way(machine, args)?;
            Err(met)
        }
    }
}

/// A method whose function and receiver are known.
fn ready_with<'a>(
    machine: &mut Machine<'a>,
    function: u32,
    held: Value,
    args: &[Arg],
) -> Result<(Ready<'a>, u64), Met>
    ensures readied { IsReadied result machine.new (where_some (λ arguments. to (later (of_function function []) (passed_by_invoke (map frame_of (frames_in machine.old.current))) (value_of held ∷ arguments))) (look_at_all (machine_of machine.old) args.now)) }
    ensures others { machine.new ≡ record machine.old { waiting = machine.new.waiting } }
{
    machine.waiting.clear();
    machine.waiting.push(held)?;
    machine.push_args(args)?;
    let bound = Bound::Nothing;
    Ok((
        Ready::Function { function, bound },
        chain_of_invoke(machine),
    ))
}

/// The function that a method is of what an interface holds, and what it holds.
fn method_of(machine: &Machine<'_>, receiver: &Arg, method: MethodName) -> Result<(u32, Value), Met>
    ensures { (w : World) → IsIn w machine.now → (chain : ℕ) (arguments : List Val) → IsMethod result chain arguments (where_some (invoked w chain method arguments) (looked machine.now receiver.now)) }
{
    match machine.look(receiver)? {
        Value::Interface(dynamic) => {
            let function = machine.method(dynamic.of(), method)?;
            Ok((function, dynamic.value().copy(machine.alloc)?))
        }
        Value::NilInterface => Err(Met::Fault(Fault::NilPointer)),
        _ => Err(Met::Memory),
    }
}

/// How many embedded interfaces an invoke has passed: in the wrapper of a promoted method one more than that.
fn chain_of_invoke(machine: &Machine<'_>) -> u64
    ensures { result ≡ passed_by_invoke (map frame_of (frames_in machine.now.current)) }
{
    match &machine.current.top {
        Some(top) if top.function.promotes => top.chain.min(MAX_CHAIN).saturating_add(1),
        _ => chain_passed_on(machine),
    }
}

/// Calls what is readied, and its arguments are on their way.
fn call_ready<'a>(
    machine: &mut Machine<'a>,
    ready: Ready<'a>,
    chain: u64,
    deferred: bool,
    to: Option<u32>,
) -> Turn
    ensures { Steps result machine.old machine.new (λ w. goes_to_call w (machine_of machine.old) to (later (called_of ready.entry) chain (on_way machine.old)) deferred (called_of ready.entry)) }
{
    match ready {
        Ready::Function { function, bound } => {
            let manner = Manner {
                deferred: is_deferred(machine, deferred),
                to,
                chain,
            };
            enter(machine, function, bound, manner)
        }
        Ready::Builtin(form) => run_builtin(machine, form),
        Ready::Nil => machine.meet(Met::Fault(Fault::NilPointer)),
    }
}

/// Whether a call is a deferred one: it is made so, or a wrapper on top was.
fn is_deferred(machine: &Machine<'_>, deferred: bool) -> bool
    ensures { result ≡ (deferred || passes_deferral (map frame_of (frames_in machine.now.current))) }
{
    deferred || passes_on_deferral(machine)
}

/// Whether a wrapper on top was started as a deferred call.
fn passes_on_deferral(machine: &Machine<'_>) -> bool
    ensures { result ≡ passes_deferral (map frame_of (frames_in machine.now.current)) }
{
    match &machine.current.top {
        Some(top) => top.deferred && top.function.role == Role::Wrapper,
        None => false,
    }
}

/// Enters a function whose arguments are on their way.
fn enter(machine: &mut Machine<'_>, number: u32, bound: Bound, manner: Manner) -> Turn
    ensures { Steps result machine.old machine.new (λ w. enters w (entry_with number (free_of bound) (on_way machine.old) manner) (machine_of machine.old)) }
{
    match admitted(machine, number, manner.chain) {
        Ok(function) => Turn::after(make_frame(machine, function, bound, manner)),
        Err(turn) => {
            drop(bound);
            turn
        }
    }
}

/// A function that is to have a frame; or what its call comes to without one.
fn admitted<'a>(
    machine: &mut Machine<'a>,
    number: u32,
    chain: u64,
) -> Result<&'a PlannedFunction, Turn>
    ensures admitted { (entry : Entry) → entry.function ≡ number → entry.chain ≡ chain → entry.arguments ≡ on_way machine.old → IfOk result (λ it. IsAdmitted it.now entry machine.old machine.new (λ w. enters w entry (machine_of machine.old))) }
    ensures done { (entry : Entry) → entry.function ≡ number → entry.chain ≡ chain → entry.arguments ≡ on_way machine.old → IfErr result (λ turn. Steps turn machine.old machine.new (λ w. enters w entry (machine_of machine.old))) }
{
    let Ok(function) = machine.function(number) else {
        return Err(Turn::WantsMemory);
    };
    if chain > MAX_CHAIN {
        return Err(machine.end(Ending::StackOverflow));
    }
    admitted_by_role(machine, function)
}

/// The same, where no limit of embedded interfaces is passed.
fn admitted_by_role<'a>(
    machine: &mut Machine<'a>,
    function: &'a PlannedFunction,
) -> Result<&'a PlannedFunction, Turn>
    ensures admitted { (entry : Entry) → entry.arguments ≡ on_way machine.old → IfOk result (λ it. IsAdmitted it.now entry machine.old machine.new (λ w. enters_role w function.now function.now.role entry (machine_of machine.old))) }
    ensures done { (entry : Entry) → entry.arguments ≡ on_way machine.old → IfErr result (λ turn. Steps turn machine.old machine.new (λ w. enters_role w function.now function.now.role entry (machine_of machine.old))) }
{
    match function.role {
        Role::Exit => Err(exit(machine)),
        Role::Gosched => Err(switch(machine, Point::Yield)),
        Role::Source => admitted_source(machine, function),
        Role::Wrapper => Ok(function),
        Role::Init => Ok(function),
    }
}

/// The entry of a source function spends a tick, where there may be one more frame.
fn admitted_source<'a>(
    machine: &mut Machine<'a>,
    function: &'a PlannedFunction,
) -> Result<&'a PlannedFunction, Turn>
    ensures admitted { (entry : Entry) → IfOk result (λ it. IsAdmitted it.now entry machine.old machine.new (λ w. enters_source function.now entry (machine_of machine.old))) }
    ensures done { (entry : Entry) → IfErr result (λ turn. Steps turn machine.old machine.new (λ w. enters_source function.now entry (machine_of machine.old))) }
{
    if machine.current.sources >= MAX_FRAMES {
        return Err(machine.end(Ending::StackOverflow));
    }
    match machine.spend() {
        Turn::Goes => Ok(function),
        turn => Err(turn),
    }
}

/// `os.Exit`.
fn exit(machine: &mut Machine<'_>) -> Turn
    ensures { Steps result machine.old machine.new (λ w. exits (machine_of machine.old) (on_way machine.old)) }
{
    match machine.waiting.first() {
        Some(Value::Int(status)) => {
            let status = exit_status(*status);
            machine.end(Ending::Exited(status))
        }
        _ => Turn::WantsMemory,
    }
}

/// What a process that exits gives for a status.
fn exit_status(status: i128) -> u8
    ensures { result ≡ unsigned_abs (int_rem_euclid status (pos 256)) }
{
    status.rem_euclid(256) as u8
}

/// A frame for a function, with its arguments and what is bound to it.
fn make_frame<'a>(
    machine: &mut Machine<'a>,
    function: &'a PlannedFunction,
    bound: Bound,
    manner: Manner,
) -> Result<(), NoMemory>
    ensures pushed { HasRoom function.now machine.old → OnOk result (pushed function.now (entry_with 0 (free_of bound) (on_way machine.old) manner) (machine_of machine.old) ≡ goes (machine_of machine.new)) }
    ensures others { machine.new ≡ record machine.old { current = machine.new.current; waiting = machine.new.waiting } }
{
    match put_arguments(machine, function) {
        Ok(()) => put_bound(machine, function.params, bound)?,
        Err(NoMemory) => {
            drop(bound);
            return Err(NoMemory);
        }
    }
    push_frame(machine, function, manner)
}

/// A frame of slots, whose first ones are the arguments.
fn put_arguments(machine: &mut Machine<'_>, function: &PlannedFunction) -> Result<(), NoMemory>
    ensures count { OnOk result (length (on_way machine.old) ≡ function.now.params) }
    ensures slots { OnOk result (slots_of machine.new ≡ with_slots_from 0 (on_way machine.old) (with_frame function.now.slots (slots_of machine.old))) }
    ensures others { machine.new ≡ record machine.old { current = record (machine.old.current) { stack = machine.new.current.stack }; waiting = machine.new.waiting } }
{
    if machine.waiting.len() != function.params as usize {
        return Err(lost());
    }
    machine.current.stack.reserve(1, function.slots as u64)?;
    machine.current.stack.enter(function.slots as u64);
    let mut slot = function.params;
    for _ in 0..machine.waiting.len() {
        slot = slot.saturating_sub(1);
        match machine.waiting.pop() {
            Some(value) => machine.current.stack.set(slot as u64, value),
            None => return Err(lost()),
        }
    }
    Ok(())
}

/// Gives the free variables of the top frame their values.
fn put_bound(machine: &mut Machine<'_>, first: u32, bound: Bound) -> Result<(), NoMemory>
    ensures slots { OnOk result (slots_of machine.new ≡ with_slots_from first (free_of bound) (slots_of machine.old)) }
    ensures others { machine.new ≡ record machine.old { current = record (machine.old.current) { stack = machine.new.current.stack } } }
{
    match bound {
        Bound::Nothing => Ok(()),
        Bound::Receiver(receiver) => {
            machine.current.stack.set(first as u64, receiver);
            Ok(())
        }
        Bound::Captured(captured) => {
            let put = put_captured(machine, first, captured.as_slice());
            drop(captured);
            put
        }
    }
}

fn put_captured(machine: &mut Machine<'_>, first: u32, captured: &[Address]) -> Result<(), NoMemory>
    ensures slots { OnOk result (slots_of machine.new ≡ with_slots_from first (map pointer captured.now) (slots_of machine.old)) }
    ensures others { machine.new ≡ record machine.old { current = record (machine.old.current) { stack = machine.new.current.stack } } }
{
    let mut slot = first;
    for address in captured {
        let address = address.copy()?;
        machine
            .current
            .stack
            .set(slot as u64, Value::Pointer(address));
        let Some(next) = slot.checked_add(1) else {
            return Err(lost());
        };
        slot = next;
    }
    Ok(())
}

fn push_frame<'a>(
    machine: &mut Machine<'a>,
    function: &'a PlannedFunction,
    manner: Manner,
) -> Result<(), NoMemory>
    ensures framed { HasRoom function.now machine.old → OnOk result (IsFramed function.now manner machine.old machine.new) }
    ensures others { machine.new ≡ record machine.old { current = machine.new.current } }
{
    let Some(first) = function.blocks.first() else {
        return Err(lost());
    };
    machine.current.push(Frame {
        function,
        block: 0,
        steps: first.steps.as_slice(),
        step: 0,
        deferred: manner.deferred,
        state: FrameState::Running,
        defers: Vec::new(machine.alloc),
        to: manner.to,
        chain: manner.chain,
    })
}

/// The top frame gives its results.
pub fn give_results<'a>(machine: &mut Machine<'a>, values: &'a [Arg]) -> Turn
    ensures { Steps result machine.old machine.new (λ w. where_there (λ results. returned results (machine_of machine.old).current.frames (machine_of machine.old)) (look_at_all (machine_of machine.old) values.now)) }
{
    match results(machine, values) {
        Ok(value) => leave(machine, value),
        Err(_) => Turn::WantsMemory,
    }
}

/// The results as one value: a tuple where there are several.
fn results<'a>(machine: &Machine<'a>, values: &'a [Arg]) -> Result<Option<Value>, NoMemory>
    ensures { IfOk result (λ it. (its : List Val) × ((look_at_all (machine_of machine.now) values.now ≡ Some its) × (results_of its ≡ option_map value_of it))) }
{
    match values {
        [] => Ok(None),
        [value] => Ok(Some(machine.read(value)?)),
        _ => Ok(Some(tuple(machine, values)?)),
    }
}

/// Values of operands as a tuple.
fn tuple(machine: &Machine<'_>, values: &[Arg]) -> Result<Value, NoMemory>
    ensures { IfOk result (λ it. (its : List Val) × ((look_at_all (machine_of machine.now) values.now ≡ Some its) × (value_of it ≡ array_of its))) }
{
    let mut parts = Vec::new(machine.alloc);
    for value in values {
        parts.push(Part::plain(machine.read(value)?))?;
    }
    Value::parts(machine.alloc, parts)
}

fn leave(machine: &mut Machine<'_>, value: Option<Value>) -> Turn
    ensures { Steps result machine.old machine.new (λ w. gives_back (option_map value_of value) (machine_of machine.old).current.frames (machine_of machine.old)) }
{
    match machine.current.pop() {
        Some(left) => {
            give_result(machine, left.to, value);
            Turn::Goes
        }
        None => Turn::WantsMemory,
    }
}

/// The frame on top gets the result of a call, where there is one and it wants it.
fn give_result(machine: &mut Machine<'_>, to: Option<u32>, value: Option<Value>)
    ensures given { machine_of machine.new ≡ with_result to (option_map value_of value) (machine_of machine.old) }
    ensures others { machine.new ≡ record machine.old { current = record (machine.old.current) { stack = machine.new.current.stack } } }
{
    if let (Some(to), Some(value)) = (to, value) {
        machine.current.stack.set(to as u64, value);
    }
}

/// What the current goroutine does without a frame: it begins, or ends.
#[inline(never)]
pub fn begin_or_end(machine: &mut Machine<'_>) -> Turn
    ensures { Steps result machine.old machine.new (λ w. begins w (machine_of machine.old) (machine_of machine.old).current.begin) }
{
    match machine.current.begin.take() {
        Some(later) => make_later(machine, later, false),
        None => end_or_start(machine),
    }
}

/// Goroutine 0 goes on with what it is to call, and another one ends.
fn end_or_start(machine: &mut Machine<'_>) -> Turn
    ensures { Steps result machine.old machine.new (λ w. ends_or_starts w (machine_of machine.old) (machine_of machine.old).sched.current.number) }
{
    if machine.sched.current().number != 0 {
        return switch(machine, Point::Ended);
    }
    match machine.plan.starts.get(machine.started).copied() {
        Some(function) => start_next(machine, function),
        None => machine.end(Ending::Exited(0)),
    }
}

/// Goroutine 0 calls the next of the functions that it is to call.
fn start_next(machine: &mut Machine<'_>, function: u32) -> Turn
    ensures { machine.old.started < 18446744073709551615 → Steps result machine.old machine.new (λ w. starts_next w (machine_of machine.old) (Some function)) }
{
    machine.started = machine.started.saturating_add(1);
    machine.waiting.clear();
    let manner = Manner {
        deferred: false,
        to: None,
        chain: 0,
    };
    enter(machine, function, Bound::Nothing, manner)
}

/// Makes a call that was put off.
pub fn make_later<'a>(machine: &mut Machine<'a>, later: Later<'a>, deferred: bool) -> Turn
    ensures { Steps result machine.old machine.new (λ w. makes w (machine_of machine.old) (later_of later.entry) deferred (later_of later.entry).called) }
{
    let Later {
        ready,
        arguments,
        chain,
    } = later;
    drop(std::mem::replace(&mut machine.waiting, arguments));
    call_ready(machine, ready, chain, deferred, None)
}

/// A call that is made later, with its operands as they are now. A method of a nil interface is met here.
fn later<'a>(machine: &mut Machine<'a>, call: &'a PlannedCall) -> Result<Later<'a>, Met>
    ensures readied { (w : World) → IsIn w machine.old → IsLater result (readied w (machine_of machine.old) call.now.callee call.now.arguments.items) }
    ensures others { machine.new ≡ record machine.old { waiting = machine.new.waiting } }
{
    match ready(machine, call) {
        Ok((ready, chain)) => {
            let arguments = std::mem::replace(&mut machine.waiting, Vec::new(machine.alloc));
            Ok(Later {
                ready,
                arguments,
                chain,
            })
        }
        Err(met) => Err(met),
    }
}

/// A call is put off until the top frame returns or panics.
#[inline(never)]
pub fn defer<'a>(machine: &mut Machine<'a>, call: &'a PlannedCall) -> Turn
    ensures { Steps result machine.old machine.new (λ w. with_later w (machine_of machine.old) call.now (λ it. puts_off it (machine_of machine.old).current.frames (machine_of machine.old))) }
{
    match later(machine, call) {
        Ok(later) => Turn::after(put_off(machine, later)),
        Err(met) => machine.meet(met),
    }
}

fn put_off<'a>(machine: &mut Machine<'a>, later: Later<'a>) -> Result<(), NoMemory>
    ensures put { OnOk result (puts_off (later_of later.entry) (machine_of machine.old).current.frames (machine_of machine.old) ≡ goes (machine_of machine.new)) }
    ensures others { machine.new ≡ record machine.old { current = machine.new.current } }
{
    match &mut machine.current.top {
        Some(top) => {
            top.defers.push(later)?;
            Ok(())
        }
        None => {
            drop(later);
            Err(lost())
        }
    }
}

/// A call is made by a goroutine of its own.
#[inline(never)]
pub fn go<'a>(machine: &mut Machine<'a>, call: &'a PlannedCall) -> Turn
    ensures { Steps result machine.old machine.new (λ w. with_later w (machine_of machine.old) call.now (starts_call w (machine_of machine.old))) }
{
    match later(machine, call) {
        Ok(later) => start(machine, later),
        Err(met) => machine.meet(met),
    }
}

/// A goroutine that is to make a call, and then a switch point.
fn start<'a>(machine: &mut Machine<'a>, later: Later<'a>) -> Turn
    ensures { Steps result machine.old machine.new (λ w. starts_call w (machine_of machine.old) (later_of later.entry)) }
{
    match add(machine, later) {
        Ok(()) => switch(machine, Point::After),
        Err(_) => Turn::WantsMemory,
    }
}

fn add<'a>(machine: &mut Machine<'a>, later: Later<'a>) -> Result<(), NoMemory>
    ensures added { OnOk result (machine_of machine.new ≡ with_new (later_of later.entry) (machine_of machine.old)) }
    ensures others { machine.new ≡ record machine.old { goroutines = machine.new.goroutines; sched = machine.new.sched } }
{
    let goroutine = Goroutine::new(machine.alloc, Some(later));
    machine.goroutines.push(goroutine)?;
    machine.sched.spawn()?;
    Ok(())
}
