//! Channels and switch points. Go specification, "Send statements", "Receive operator" and "Select statements".

ghost use Rattle.std.specs.Prelude.{◌≡◌, ◌∷◌, ℕ, suc, List, Option, None, Some, IfOk, IfSome, OnOk, false, map, not, option_map, slice_get};
ghost use Rattle.std.specs.Global.{Box, Vec};
ghost use Rattle.std.specs.Option.{option_and_then};
ghost use Rattle.code_plan.specs.declared.steps.PlannedCase.{PlannedCase};
ghost use Rattle.code_plan.specs.declared.steps.Step.TheVariants as act;
ghost use Rattle.go_sched.specs.Channels as chans;
ghost use Rattle.go_sched.specs.Goroutines.{state_of};
ghost use Rattle.go_sched.specs.Operations.{how_of, receives, selects, woken_of};
ghost use Rattle.go_value.specs.Values as vals;
ghost use Rattle.go_value.specs.Values.{parts_of, value_of};
ghost use Rattle.go_value.specs.declared.values.Value.{Value};
ghost use Rattle.interp_builtins.specs.Operations.{Completes, chooses, given_of, gone_at, gone_with, receives_as};
ghost use Rattle.interp_builtins.specs.Received.{behind};
ghost use Rattle.interp_state.specs.Frames.{frames_of};
ghost use Rattle.interp_state.specs.Machines.{goroutine_of, machine_of};
ghost use Rattle.interp_state.specs.Turns.{Steps};
ghost use Rattle.plan_mean.specs.Channels as meant;
ghost use Rattle.plan_mean.specs.Channels.{all_woken, case_of, cases_of, gives_done, received_parts, step_at, with_given};
ghost use Rattle.plan_mean.specs.State.{advanced, change_top, swapped};
ghost use Rattle.plan_mean.specs.Step as steps;
ghost use Rattle.plan_mean.specs.Step.{acts};
ghost use Rattle.plan_mean.specs.Unwinding.{changed, goes_with, switches};
ghost use Rattle.ssa_mean.specs.Channels as operations;
ghost use Rattle.ssa_mean.specs.Channels.{value_if};
ghost use Rattle.ssa_mean.specs.Making.{value_or};

use code_plan::{Arg, PlannedCase, Step};
use go_base::{ChanId, Ending, GoId, NoMemory};
use go_sched::{
    Cases, ChanOp, Point, Received, SchedError, Selected, Sent, Wake, WakeResult, Wakes,
};
use go_value::{Fault, Part, Value};
use interp_state::{Goroutine, Machine, Met, RegStack, Turn, lost};

/// A switch point: a tick is spent, and a goroutine is chosen.
#[inline(never)]
pub fn switch(machine: &mut Machine<'_>, point: Point) -> Turn
    ensures { Steps result machine.old machine.new (λ w. switches w point (machine_of machine.old)) }
{
    match machine.spend() {
        Turn::Goes => choose(machine, point),
        turn => turn,
    }
}

/// A goroutine is chosen, and goes on.
fn choose(machine: &mut Machine<'_>, point: Point) -> Turn
    ensures { Steps result machine.old machine.new (λ w. chooses w point (machine_of machine.old)) }
{
    let before = machine.sched.current();
    match machine.sched.switch(point) {
        None => machine.end(Ending::Deadlock),
        Some(chosen) => {
            change(machine, before, chosen);
            go_on(machine)
        }
    }
}

/// Another goroutine is the current one.
fn change(machine: &mut Machine<'_>, before: GoId, chosen: GoId)
    ensures changed { machine_of machine.new ≡ changed before.number chosen.number (machine_of machine.old) }
    ensures others { machine.new ≡ record machine.old { goroutines = machine.new.goroutines; current = machine.new.current } }
{
    if before.number != chosen.number {
        swap(machine, before.number as usize);
        swap(machine, chosen.number as usize);
    }
}

/// The goroutine that stands at a number among the others changes its place with the current one.
fn swap(machine: &mut Machine<'_>, number: usize)
    ensures swapped { machine_of machine.new ≡ swapped number (machine_of machine.old) }
    ensures others { machine.new ≡ record machine.old { goroutines = machine.new.goroutines; current = machine.new.current } }
{
    if let Some(place) = machine.goroutines.get_mut(number) {
        std::mem::swap(place, &mut machine.current);
    }
}

/// The current goroutine goes on: it meets the fault that waits for it.
fn go_on(machine: &mut Machine<'_>) -> Turn
    ensures { Steps result machine.old machine.new (λ w. goes_with w (machine_of machine.old) machine.old.current.fault) }
{
    match machine.current.fault.take() {
        Some(fault) => machine.meet(Met::Fault(fault)),
        None => Turn::Goes,
    }
}

/// The top frame stays at its instruction.
fn stay(machine: &mut Machine<'_>)
    ensures stays { machine_of machine.new ≡ meant.stays (machine_of machine.old) }
    ensures others { machine.new ≡ record machine.old { current = machine.new.current } }
{
    if let Some(top) = &mut machine.current.top {
        top.step = top.step.saturating_sub(1);
    }
}

/// A value is sent on a channel.
#[inline(never)]
pub fn send(machine: &mut Machine<'_>, channel: &Arg, value: &Arg) -> Turn
    ensures { Steps result machine.old machine.new (λ w. acts w (machine_of machine.old) (act.Send channel.now value.now)) }
{
    match machine.chan(channel) {
        Ok(channel) => match machine.read(value) {
            Ok(value) => send_on(machine, channel, value),
            Err(_) => Turn::WantsMemory,
        },
        Err(_) => Turn::WantsMemory,
    }
}

fn send_on(machine: &mut Machine<'_>, channel: Option<ChanId>, value: Value) -> Turn
    ensures { Steps result machine.old machine.new (λ w. steps.send_on w (machine_of machine.old) (vals.chan_number channel) (value_of value)) }
{
    match machine.sched.send(channel, value) {
        Ok(Sent::Done(wakes)) => completed(machine, wakes),
        Ok(Sent::Blocks) => block(machine),
        Err(SchedError::Fault(fault)) => machine.meet(Met::Fault(fault)),
        Err(SchedError::OutOfMemory) => Turn::WantsMemory,
    }
}

/// The current goroutine waits, at its instruction.
fn block(machine: &mut Machine<'_>) -> Turn
    ensures { Steps result machine.old machine.new (λ w. switches w Point.Blocked (meant.stays (machine_of machine.old))) }
{
    stay(machine);
    switch(machine, Point::Blocked)
}

/// Those that waited go on, and the current goroutine is at a switch point.
pub fn completed(machine: &mut Machine<'_>, wakes: Wakes) -> Turn
    ensures { Steps result machine.old machine.new (λ w. meant.completed w (map woken_of wakes) (machine_of machine.old)) }
{
    match wake_all(machine, wakes) {
        Ok(()) => switch(machine, Point::After),
        Err(_) => Turn::WantsMemory,
    }
}

/// Those that waited go on.
fn wake_all(machine: &mut Machine<'_>, wakes: Wakes) -> Result<(), NoMemory>
    ensures woken { OnOk result (all_woken (map woken_of wakes) (machine_of machine.old) ≡ Some (machine_of machine.new)) }
    ensures others { machine.new ≡ record machine.old { goroutines = machine.new.goroutines } }
{
    for wake in wakes.into_items() {
        wake_up(machine, wake)?;
    }
    Ok(())
}

/// A value is received of a channel.
#[inline(never)]
pub fn receive(
    machine: &mut Machine<'_>,
    channel: &Arg,
    zero: &Value,
    comma_ok: bool,
    to: u32,
) -> Turn
    ensures { (held : Box Value) → held.value ≡ zero.now → Steps result machine.old machine.new (λ w. acts w (machine_of machine.old) (act.Receive channel.now held comma_ok to)) }
{
    match machine.chan(channel) {
        Ok(channel) => receive_from(machine, channel, zero, comma_ok, to),
        Err(_) => Turn::WantsMemory,
    }
}

fn receive_from(
    machine: &mut Machine<'_>,
    channel: Option<ChanId>,
    zero: &Value,
    comma_ok: bool,
    to: u32,
) -> Turn
    ensures { Steps result machine.old machine.new (λ w. receives_as w (machine_of machine.old) to (value_of zero.now) comma_ok (receives 0 (state_of machine.old.sched) channel)) }
{
    match machine.sched.receive(channel) {
        Ok(Received::Done { value, wakes }) => {
            let value = arrived(machine, value, zero, comma_ok);
            complete_with(machine, to, value, wakes)
        }
        Ok(Received::Blocks) => block(machine),
        Err(SchedError::Fault(fault)) => machine.meet(Met::Fault(fault)),
        Err(SchedError::OutOfMemory) => Turn::WantsMemory,
    }
}

/// What a receive gives: the zero value where the channel is closed and empty.
fn arrived(
    machine: &Machine<'_>,
    value: Option<Value>,
    zero: &Value,
    comma_ok: bool,
) -> Result<Value, NoMemory>
    ensures { IfOk result (λ it. value_of it ≡ value_or comma_ok (option_map value_of value) (value_of zero.now)) }
{
    match value {
        Some(value) => machine.with_ok_where(comma_ok, value, true),
        None => machine.with_ok_where(comma_ok, zero.copy(machine.alloc)?, false),
    }
}

/// One of several operations on channels.
#[inline(never)]
pub fn select(machine: &mut Machine<'_>, blocking: bool, cases: &[PlannedCase], to: u32) -> Turn
    ensures { (all : Vec PlannedCase) → all.items ≡ cases.now → Steps result machine.old machine.new (λ w. acts w (machine_of machine.old) (act.Select blocking all to)) }
{
    match operations(machine, cases) {
        Ok(operations) => select_among(machine, blocking, cases, to, &operations),
        Err(_) => Turn::WantsMemory,
    }
}

fn select_among(
    machine: &mut Machine<'_>,
    blocking: bool,
    cases: &[PlannedCase],
    to: u32,
    operations: &Cases,
) -> Turn
    ensures { Steps result machine.old machine.new (λ w. steps.select_among w (machine_of machine.old) to cases.now (selects (state_of machine.old.sched) (map chans.case_of operations.now) (not blocking))) }
{
    match machine.sched.select(operations, !blocking) {
        Ok(
            Selected::Case {
                index,
                value,
                wakes,
            },
        ) => {
            let value = select_value(machine, cases, Some(index), value);
            complete_with(machine, to, value, wakes)
        }
        Ok(Selected::Default) => {
            let value = select_value(machine, cases, None, None);
            let nobody = Wakes::new(machine.alloc);
            complete_with(machine, to, value, nobody)
        }
        Ok(Selected::Blocks) => block(machine),
        Err(SchedError::Fault(fault)) => machine.meet(Met::Fault(fault)),
        Err(SchedError::OutOfMemory) => Turn::WantsMemory,
    }
}

/// A register gets what an operation gave, and those that waited go on.
fn complete_with(
    machine: &mut Machine<'_>,
    to: u32,
    given: Result<Value, NoMemory>,
    wakes: Wakes,
) -> Turn
    ensures { Completes to given (map woken_of wakes) result machine.old machine.new }
{
    match given {
        Ok(value) => {
            machine.set(to, value);
            completed(machine, wakes)
        }
        Err(_) => {
            drop(wakes);
            Turn::WantsMemory
        }
    }
}

/// The operations of the cases of a `select`.
fn operations(machine: &Machine<'_>, cases: &[PlannedCase]) -> Result<Cases, NoMemory>
    ensures { IfOk result (λ all. cases_of (machine_of machine.now) cases.now ≡ Some (map chans.case_of all)) }
{
    let mut operations = Cases::new(machine.alloc);
    for case in cases {
        operations.push(operation(machine, case)?)?;
    }
    Ok(operations)
}

fn operation(machine: &Machine<'_>, case: &PlannedCase) -> Result<ChanOp, NoMemory>
    ensures { IfOk result (λ it. case_of (machine_of machine.now) case.now ≡ Some (chans.case_of it)) }
{
    match case {
        PlannedCase::Send { channel, value } => Ok(ChanOp::Send {
            chan: machine.chan(channel)?,
            value: machine.read(value)?,
        }),
        PlannedCase::Receive { channel, .. } => Ok(ChanOp::Receive {
            chan: machine.chan(channel)?,
        }),
    }
}

/// The tuple of a `select`: the index of the case chosen, -1 where none was ready; whether a value was received; and
/// for each case that receives a value.
fn select_value(
    machine: &Machine<'_>,
    cases: &[PlannedCase],
    chosen: Option<u32>,
    value: Option<Value>,
) -> Result<Value, NoMemory>
    ensures { IfOk result (λ it. value_of it ≡ meant.selected cases.now chosen (option_map value_of value)) }
{
    let ok = value.is_some();
    let mut parts = Vec::new(machine.alloc);
    parts.push(Part::plain(Value::Int(case_number(chosen))))?;
    parts.push(Part::plain(Value::Truth(ok)))?;
    push_received(machine, &mut parts, cases, chosen, value)?;
    Value::parts(machine.alloc, parts)
}

/// The index of the case that was chosen, -1 where none was ready.
fn case_number(chosen: Option<u32>) -> i128
    ensures { result ≡ operations.case_number chosen }
{
    match chosen {
        Some(index) => i128::from(index),
        None => -1,
    }
}

/// The values of the cases that receive, behind other parts.
fn push_received(
    machine: &Machine<'_>,
    parts: &mut Vec<Part>,
    cases: &[PlannedCase],
    chosen: Option<u32>,
    value: Option<Value>,
) -> Result<(), NoMemory>
    ensures { OnOk result (parts_of parts.new.items ≡ behind parts.old.items (received_parts 0 chosen (option_map value_of value) cases.now)) }
{
    let mut value = value;
    for (index, case) in cases.iter().enumerate() {
        push_case(machine, parts, case, is_chosen(index, chosen), &mut value)?;
    }
    Ok(())
}

/// The value of a case, where it receives.
fn push_case(
    machine: &Machine<'_>,
    parts: &mut Vec<Part>,
    case: &PlannedCase,
    chosen: bool,
    value: &mut Option<Value>,
) -> Result<(), NoMemory>
    ensures { (index : ℕ) (picked : Option ℕ) (rest : List PlannedCase) → chosen ≡ operations.is_chosen index picked → OnOk result (behind parts.new.items (received_parts (suc index) picked (option_map value_of value.new) rest) ≡ behind parts.old.items (received_parts index picked (option_map value_of value.old) (case.now ∷ rest))) }
{
    match case {
        PlannedCase::Receive { zero, .. } => {
            let received = received_in(machine, zero, chosen, value)?;
            parts.push(Part::plain(received))?;
            Ok(())
        }
        PlannedCase::Send { .. } => Ok(()),
    }
}

fn is_chosen(index: usize, chosen: Option<u32>) -> bool
    ensures { result ≡ operations.is_chosen index chosen }
{
    match chosen {
        Some(chosen) => index == chosen as usize,
        None => false,
    }
}

/// What a case receives: what was received, where it is chosen, and else its zero value.
fn received_in(
    machine: &Machine<'_>,
    zero: &Value,
    chosen: bool,
    value: &mut Option<Value>,
) -> Result<Value, NoMemory>
    ensures value { IfOk result (λ it. value_of it ≡ value_or false (value_if chosen (option_map value_of value.old)) (value_of zero.now)) }
    ensures kept { chosen ≡ false → value.new ≡ value.old }
{
    if chosen {
        if let Some(received) = value.take() {
            return Ok(received);
        }
    }
    zero.copy(machine.alloc)
}

/// A goroutine that waited goes on with what its operation gave.
fn wake_up(machine: &mut Machine<'_>, wake: Wake) -> Result<(), NoMemory>
    ensures woken { OnOk result (meant.woken (woken_of wake) (machine_of machine.old) ≡ Some (machine_of machine.new)) }
    ensures others { machine.new ≡ record machine.old { goroutines = machine.new.goroutines } }
{
    let Wake {
        goroutine,
        index,
        result: outcome,
    } = wake;
    match waits_at(machine, goroutine.number as usize) {
        Some(step) => wake_from(machine, goroutine, step, index, outcome),
        None => {
            drop(outcome);
            Err(lost())
        }
    }
}

/// A goroutine that waited at an instruction goes on.
fn wake_from<'a>(
    machine: &mut Machine<'a>,
    goroutine: GoId,
    step: &'a Step,
    index: u32,
    outcome: WakeResult,
) -> Result<(), NoMemory>
    ensures woken { OnOk result (gone_at goroutine.number (λ g. meant.gone_behind (record { goroutine = goroutine; index = index; how = how_of outcome }) g step.now) (map goroutine_of machine.old.goroutines.items) ≡ Some (map goroutine_of machine.new.goroutines.items)) }
    ensures others { machine.new ≡ record machine.old { goroutines = machine.new.goroutines } }
{
    let place = goroutine.number as usize;
    match outcome {
        WakeResult::SendOnClosed => go_on_to_fault(machine, place),
        WakeResult::Sent => match woken_value(machine, step, index, None) {
            Ok(given) => go_on_at(machine, place, given),
            Err(_) => Err(lost()),
        },
        WakeResult::Received(value) => match woken_value(machine, step, index, value) {
            Ok(given) => go_on_at(machine, place, given),
            Err(_) => Err(lost()),
        },
    }
}

/// A goroutine whose channel was closed while it sent goes on to its fault.
fn go_on_to_fault(machine: &mut Machine<'_>, place: usize) -> Result<(), NoMemory>
    ensures gone { OnOk result (gone_at place (λ g. record (gone_with (given_of None) g) { fault = Some Fault.SendOnClosed }) (map goroutine_of machine.old.goroutines.items) ≡ Some (map goroutine_of machine.new.goroutines.items)) }
    ensures others { machine.new ≡ record machine.old { goroutines = machine.new.goroutines } }
{
    match machine.goroutines.get_mut(place) {
        Some(goroutine) => {
            goroutine.fault = Some(Fault::SendOnClosed);
            advance(goroutine)
        }
        None => Err(lost()),
    }
}

/// A goroutine goes on behind the instruction at which it waited.
fn go_on_at(
    machine: &mut Machine<'_>,
    place: usize,
    given: Option<(u32, Value)>,
) -> Result<(), NoMemory>
    ensures gone { OnOk result (gone_at place (gone_with (given_of given)) (map goroutine_of machine.old.goroutines.items) ≡ Some (map goroutine_of machine.new.goroutines.items)) }
    ensures others { machine.new ≡ record machine.old { goroutines = machine.new.goroutines } }
{
    match machine.goroutines.get_mut(place) {
        Some(goroutine) => {
            put(&mut goroutine.stack, given);
            advance(goroutine)
        }
        None => {
            drop(given);
            Err(lost())
        }
    }
}

/// A register gets its value, where one gets a value.
fn put(stack: &mut RegStack, given: Option<(u32, Value)>)
    ensures { frames_of stack.new ≡ with_given (given_of given) (frames_of stack.old) }
{
    if let Some((to, value)) = given {
        stack.set(to as u64, value);
    }
}

/// The top frame of a goroutine stands behind its instruction.
fn advance(goroutine: &mut Goroutine<'_>) -> Result<(), NoMemory>
    ensures { OnOk result (goroutine_of goroutine.new ≡ record (goroutine_of goroutine.old) { frames = change_top advanced (goroutine_of goroutine.old).frames }) }
{
    match &mut goroutine.top {
        Some(top) => match top.step.checked_add(1) {
            Some(step) => {
                top.step = step;
                Ok(())
            }
            None => Err(lost()),
        },
        None => Err(lost()),
    }
}

/// The instruction at which a goroutine waits.
fn waits_at<'a>(machine: &Machine<'a>, place: usize) -> Option<&'a Step>
    ensures { IfSome result (λ it. option_and_then (λ g. step_at g.frames) (slice_get (map goroutine_of machine.now.goroutines.items) place) ≡ Some it.now) }
{
    let top = machine.goroutines.get(place)?.top.as_ref()?;
    let steps: &'a [Step] = top.steps;
    steps.get(top.step)
}

/// The register and the value that an instruction gets when what it waited for has happened.
fn woken_value<'a>(
    machine: &Machine<'a>,
    step: &'a Step,
    index: u32,
    value: Option<Value>,
) -> Result<Option<(u32, Value)>, NoMemory>
    ensures { IfOk result (λ it. given_of it ≡ gives_done index (option_map value_of value) step.now) }
{
    match step {
        Step::Receive {
            zero,
            comma_ok,
            to,
            ..
        } => Ok(Some((*to, arrived(machine, value, zero, *comma_ok)?))),
        Step::Select { cases, to, .. } => {
            Ok(Some((*to, select_value(machine, cases, Some(index), value)?)))
        }
        _ => Ok(None),
    }
}
