//! Panics and deferred calls. Go specification, "Handling panics" and "Defer statements".

ghost use Rattle.std.specs.Prelude.{◌≡◌, IfNone, IfSome, OnOk, map, true};
ghost use Rattle.interp_calls.specs.Ways.{goes_back, goes_on, has_wrapper};
ghost use Rattle.interp_state.specs.Machines.{frame_of, goroutine_of, later_of, machine_of, thrown_of};
ghost use Rattle.interp_state.specs.States.{frames_in};
ghost use Rattle.interp_state.specs.Turns.{Steps};
ghost use Rattle.plan_mean.specs.Operands.{look};
ghost use Rattle.plan_mean.specs.State.{World, where_there, with_current};
ghost use Rattle.plan_mean.specs.Step.{makes, runs_defers};
ghost use Rattle.plan_mean.specs.Unwinding.{panics_with, removed, throws};

use crate::calling::make_later;
use code_plan::{Arg, Role};
use go_base::NoMemory;
use interp_state::{FrameState, Later, Machine, Thrown, Turn, lost};

/// `panic`.
#[inline(never)]
pub fn panic(machine: &mut Machine<'_>, value: &Arg) -> Turn
    ensures { Steps result machine.old machine.new (λ w. where_there (panics_with w (machine_of machine.old)) (look (machine_of machine.old) value.now)) }
{
    match machine.read(value) {
        Ok(value) => machine.panic_with(value),
        Err(_) => Turn::WantsMemory,
    }
}

/// The top frame begins to make its deferred calls.
pub fn run_defers(machine: &mut Machine<'_>) -> Turn
    ensures { Steps result machine.old machine.new (λ w. runs_defers (machine_of machine.old).current.frames (machine_of machine.old)) }
{
    match &mut machine.current.top {
        Some(top) => {
            if !top.defers.is_empty() {
                drop(top.change(FrameState::Returning));
            }
            Turn::Goes
        }
        None => Turn::WantsMemory,
    }
}

/// One step of a frame that returns or panics: its last deferred call, or what follows where none is left.
#[inline(never)]
pub fn unwind(machine: &mut Machine<'_>) -> Turn
    ensures { Steps result machine.old machine.new (λ w. goes_back w (machine_of machine.old) (machine_of machine.old).current.frames) }
{
    match last_deferred(machine) {
        Some(later) => make_later(machine, later, true),
        None => go_on(machine),
    }
}

/// The last deferred call of the top frame goes. None where none is left, or there is no frame.
fn last_deferred<'a>(machine: &mut Machine<'a>) -> Option<Later<'a>>
    ensures some { IfSome result (λ it. (w : World) → goes_back w (machine_of machine.old) (machine_of machine.old).current.frames ≡ makes w (machine_of machine.new) (later_of it) true (later_of it).called) }
    ensures none { IfNone result ((w : World) → goes_back w (machine_of machine.old) (machine_of machine.old).current.frames ≡ goes_on w (machine_of machine.new) (machine_of machine.new).current.frames) }
    ensures others { machine.new ≡ record machine.old { current = machine.new.current } }
{
    match &mut machine.current.top {
        Some(top) => top.defers.pop(),
        None => None,
    }
}

/// What follows where a frame has no deferred calls.
fn go_on(machine: &mut Machine<'_>) -> Turn
    ensures { Steps result machine.old machine.new (λ w. goes_on w (machine_of machine.old) (machine_of machine.old).current.frames) }
{
    let Some(top) = &mut machine.current.top else {
        return Turn::WantsMemory;
    };
    match top.change(FrameState::Running) {
        FrameState::Panicking(thrown) => remove(machine, thrown),
        _ => Turn::Goes,
    }
}

/// The top frame goes, and the wrappers below it; the frame below them panics.
fn remove(machine: &mut Machine<'_>, thrown: Thrown) -> Turn
    ensures { Steps result machine.old machine.new (λ w. throws w (thrown_of thrown) (with_current (removed (machine_of machine.old).current) (machine_of machine.old))) }
{
    match pop_with_wrappers(machine) {
        Ok(()) => machine.throw(thrown),
        Err(_) => Turn::WantsMemory,
    }
}

/// The top frame goes, and the wrappers below it.
fn pop_with_wrappers(machine: &mut Machine<'_>) -> Result<(), NoMemory>
    ensures gone { OnOk result (goroutine_of machine.new.current ≡ removed (goroutine_of machine.old.current)) }
    ensures others { machine.new ≡ record machine.old { current = machine.new.current } }
{
    let height = machine.current.below.len().saturating_add(1);
    for _ in 0..height {
        let Some(_) = machine.current.pop() else {
            return Err(lost());
        };
        if !is_wrapper_on_top(machine) {
            return Ok(());
        }
    }
    Err(lost())
}

/// Whether the frame of a wrapper stands on top.
fn is_wrapper_on_top(machine: &Machine<'_>) -> bool
    ensures { result ≡ has_wrapper (map frame_of (frames_in machine.now.current)) }
{
    match &machine.current.top {
        Some(top) => top.function.role == Role::Wrapper,
        None => false,
    }
}
