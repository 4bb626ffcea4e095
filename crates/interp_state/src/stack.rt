//! The slots of a goroutine's frames, in one stack.

ghost use Rattle.std.specs.Prelude.{◌≡◌, ◌<◌, ◌≤◌, ◌+◌, ◌++◌, length, replicate, None, Some, OnOk, option_map, vec_capacity};
ghost use Rattle.go_value.specs.Values.{value_of};
ghost use Rattle.go_value.specs.Values as vals;

use go_base::NoMemory;
use go_value::Value;
use std::alloc::Global;

/// The slots of the frames of a goroutine, one frame behind another. A slot is unset until it is written. What it has to
/// spare, frames and slots, is added without memory.
#[derive(Drop)]
pub struct RegStack {
    slots: Vec<Option<Value>>,
    /// Where the frames begin, the top one left out.
    bases: Vec<usize>,
    /// Where the top frame begins; past all slots where there is no frame.
    base: usize,
    ghost empty: { length bases.items ≡ 0 → base ≡ 18446744073709551615 },
}

impl RegStack {
    ghost use Rattle.std.specs.Prelude.{[]};
    ghost use Rattle.interp_state.specs.Frames.{frames_of, spare_frames, spare_slots, KeepsSpare, without_slot};
    ghost use Rattle.plan_mean.specs.Slots.{below_top, top_of, with_frame, slot_in, with_slot};

    /// No frames, and none to spare.
    pub fn new(alloc: Global) -> RegStack
        ensures frames { frames_of result ≡ [] }
        ensures spare_frames { spare_frames result ≡ 0 }
        ensures spare_slots { spare_slots result ≡ 0 }
    {
        RegStack {
            slots: Vec::new(alloc),
            bases: Vec::new(alloc),
            base: usize::MAX,
        }
    }

    /// At least so many frames and slots to spare, and never fewer than before. The frames stay.
    pub fn reserve(&mut self, frames: u64, slots: u64) -> Result<(), NoMemory>
        ensures ok_frames { OnOk result (frames ≤ spare_frames self.new) }
        ensures ok_slots { OnOk result (slots ≤ spare_slots self.new) }
        ensures spare_frames { spare_frames self.old ≤ spare_frames self.new }
        ensures spare_slots { spare_slots self.old ≤ spare_slots self.new }
        ensures frames { frames_of self.new ≡ frames_of self.old }
    {
        self.bases.reserve(frames as usize)?;
        self.slots.reserve(slots as usize)?;
        Ok(())
    }

    /// A frame of so many slots on top, all unset. It takes no memory.
    pub fn enter(&mut self, slots: u64)
        requires frame { 0 < spare_frames self.old }
        requires slots { slots ≤ spare_slots self.old }
        ensures frames { frames_of self.new ≡ with_frame slots (frames_of self.old) }
        ensures spare_frames { spare_frames self.new + 1 ≡ spare_frames self.old }
        ensures spare_slots { spare_slots self.new + slots ≡ spare_slots self.old }
    {
        let base = self.slots.len();
        push_unset(&mut self.slots, slots);
        self.bases.push_reserved(self.base);
        self.base = base;
    }

    /// The top frame goes, and what it had is to spare. Where there is no frame nothing changes.
    pub fn leave(&mut self)
        ensures frames { frames_of self.new ≡ below_top (frames_of self.old) }
        ensures spare_frames { spare_frames self.new + length (frames_of self.new) ≡ spare_frames self.old + length (frames_of self.old) }
        ensures spare_slots { spare_slots self.new ≡ spare_slots self.old + length (top_of (frames_of self.old)) }
    {
        self.slots.truncate(self.base);
        let below = self.bases.pop();
        self.base = match below {
            Some(base) if !self.bases.is_empty() => base,
            _ => usize::MAX,
        };
    }

    /// How many frames there are.
    pub fn depth(&self) -> u64
        ensures { result ≡ length (frames_of self.now) }
    {
        self.bases.len() as u64
    }

    /// The value of a slot of the top frame. None where it is unset, or there is no such slot or no frame.
    pub fn get(&self, slot: u64) -> Option<&Value>
        ensures { option_map (λ it. value_of it.now) result ≡ slot_in (frames_of self.now) slot }
    {
        match self.slots.get(self.base.saturating_add(slot as usize)) {
            Some(place) => place.as_ref(),
            None => None,
        }
    }

    /// Takes the value of a slot of the top frame, which is unset then. None where it was, or there is no such slot or no
    /// frame.
    pub fn take_slot(&mut self, slot: u64) -> Option<Value>
        ensures value { option_map value_of result ≡ slot_in (frames_of self.old) slot }
        ensures slots { frames_of self.new ≡ without_slot slot (frames_of self.old) }
        ensures spare { KeepsSpare self.old self.new }
    {
        match self.slots.get_mut(self.base.saturating_add(slot as usize)) {
            Some(place) => place.take(),
            None => None,
        }
    }

    /// Gives a slot of the top frame a value. Where there is no such slot nothing changes.
    pub fn set(&mut self, slot: u64, value: Value)
        ensures slots { frames_of self.new ≡ with_slot slot (value_of value) (frames_of self.old) }
        ensures spare { KeepsSpare self.old self.new }
    {
        if let Some(place) = self.slots.get_mut(self.base.saturating_add(slot as usize)) {
            *place = Some(value);
        }
    }

    /// Gives a slot of the top frame an integer: in place, where it holds one.
    pub fn set_int(&mut self, slot: u64, number: i128)
        ensures slots { frames_of self.new ≡ with_slot slot (vals.number number) (frames_of self.old) }
        ensures spare { KeepsSpare self.old self.new }
    {
        if let Some(place) = self.slots.get_mut(self.base.saturating_add(slot as usize)) {
            put_int(place, number);
        }
    }
}

/// Puts an integer into a slot: in place, where it holds one.
#[inline(always)]
fn put_int(place: &mut Option<Value>, number: i128)
    ensures { option_map value_of place.new ≡ Some (vals.number number) }
{
    match place {
        Some(Value::Int(old)) => *old = number,
        _ => *place = Some(Value::Int(number)),
    }
}

/// So many unset slots behind others.
fn push_unset(slots: &mut Vec<Option<Value>>, count: u64)
    requires { length slots.old.items + count ≤ vec_capacity slots.old }
    ensures items { slots.new.items ≡ slots.old.items ++ replicate count None }
    ensures capacity { vec_capacity slots.new ≡ vec_capacity slots.old }
{
    for _ in 0..count {
        slots.push_reserved(None);
    }
}
