//! Recovery. Go specification, "Handling panics".

ghost use Rattle.std.specs.Prelude.{◌≡◌, ℕ, suc, false, Some, IfOk, IfSome, IfNone, Option, drop, map, option_map, reverse, slice_get};
ghost use Rattle.go_value.specs.Values.{value_of};
ghost use Rattle.interp_builtins.specs.Recovered.{AreWrappers, is_wrapper_of};
ghost use Rattle.interp_state.specs.Machines.{frame_of, machine_of};
ghost use Rattle.plan_mean.specs.State.{goes, with_result};
ghost use Rattle.plan_mean.specs.Step.{recovers_in};
ghost use Rattle.plan_mean.specs.Unwinding as meant;
ghost use Rattle.plan_mean.specs.Unwinding.{recovered, recovering};
ghost use Rattle.ssa_mean.specs.Unwinding.{recovered_state, recovered_value};

use code_plan::Role;
use go_base::NoMemory;
use go_value::Value;
use interp_state::{Frame, FrameState, Machine, Thrown, lost};

/// `recover`, called by the top frame.
pub fn recover(machine: &mut Machine<'_>) -> Result<Value, NoMemory>
    ensures recovers { IfOk result (λ it. (slot : Option ℕ) → recovers_in (machine_of machine.old) slot (machine_of machine.old).current.frames ≡ goes (with_result slot (Some (value_of it)) (machine_of machine.new))) }
    ensures others { machine.new ≡ record machine.old { current = machine.new.current } }
{
    match top_may_recover(machine) {
        Some(true) => Ok(recover_below(machine)),
        Some(false) => Ok(Value::NilInterface),
        None => Err(lost()),
    }
}

/// Whether `recover` acts in the top frame. None where there is no frame.
fn top_may_recover(machine: &Machine<'_>) -> Option<bool>
    ensures { result ≡ option_map (λ top. meant.may_recover (frame_of top)) machine.now.current.top }
{
    match &machine.current.top {
        Some(top) => Some(may_recover(top)),
        None => None,
    }
}

fn may_recover(top: &Frame<'_>) -> bool
    ensures { result ≡ meant.may_recover (frame_of top.now) }
{
    top.deferred && top.function.role == Role::Source
}

/// What the highest frame below the top one panics with that is no wrapper. It returns then.
fn recover_below(machine: &mut Machine<'_>) -> Value
    ensures value { value_of result ≡ recovered (map frame_of (reverse machine.old.current.below.items)) }
    ensures frames { map frame_of (reverse machine.new.current.below.items) ≡ recovering (map frame_of (reverse machine.old.current.below.items)) }
    ensures others { machine.new ≡ record machine.old { current = record (machine.old.current) { below = machine.new.current.below } } }
{
    match first_below(machine.current.below.as_slice()) {
        Some(place) => match machine.current.below.get_mut(place) {
            Some(frame) => recover_in(frame),
            None => Value::NilInterface,
        },
        None => Value::NilInterface,
    }
}

/// The place of the highest frame that is no wrapper.
fn first_below(frames: &[Frame<'_>]) -> Option<usize>
    ensures some { IfSome result (λ place. AreWrappers (drop (suc place) frames.now)) }
    ensures plain { IfSome result (λ place. option_map is_wrapper_of (slice_get frames.now place) ≡ Some false) }
    ensures none { IfNone result (AreWrappers frames.now) }
{
    let mut place = frames.len();
    while place > 0 {
        place -= 1;
        if let Some(frame) = frames.get(place) {
            if frame.function.role != Role::Wrapper {
                return Some(place);
            }
        }
    }
    None
}

/// What a frame panics with. It returns then.
fn recover_in(frame: &mut Frame<'_>) -> Value
    ensures value { value_of result ≡ recovered_value (frame_of frame.old).state }
    ensures frame { frame_of frame.new ≡ record (frame_of frame.old) { state = recovered_state (frame_of frame.old).state } }
{
    match frame.change(FrameState::Returning) {
        FrameState::Panicking(Thrown::Value(value)) => value,
        FrameState::Panicking(Thrown::Fault(text)) => {
            drop(frame.change(FrameState::Panicking(Thrown::Fault(text))));
            Value::NilInterface
        }
        FrameState::Running => {
            drop(frame.change(FrameState::Running));
            Value::NilInterface
        }
        FrameState::Returning => Value::NilInterface,
    }
}
