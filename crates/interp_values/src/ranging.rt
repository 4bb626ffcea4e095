//! Ranges over texts and maps. Go specification, "For statements with range clause".

ghost use Rattle.std.specs.Prelude.{◌≡◌, pos, ◌<◌, ◌≤◌, ◌+◌, Some, IfOk, IfSome, IfNone, OnOk, drop, length, reverse};
ghost use Rattle.std.specs.List.{filter};
ghost use Rattle.std.specs.Option.{option_and_then};
ghost use Rattle.code_plan.specs.declared.steps.Step.TheVariants as act;
ghost use Rattle.go_sched.specs.Choices.{picked};
ghost use Rattle.go_sched.specs.Goroutines.{State, state_of};
ghost use Rattle.go_store.specs.Stores.{stored};
ghost use Rattle.go_maps.specs.Entries.{numbers_in};
ghost use Rattle.go_value.specs.Values as vals;
ghost use Rattle.go_value.specs.Values.{value_of, range_of};
ghost use Rattle.interp_state.specs.Machines.{machine_of};
ghost use Rattle.interp_state.specs.Frames.{without_slot};
ghost use Rattle.interp_state.specs.States.{slots_of, Wrote};
ghost use Rattle.interp_state.specs.Turns.{IsGiven, Steps};
ghost use Rattle.interp_values.specs.Made as made;
ghost use Rattle.interp_values.specs.Made.{IsTurn, IsDrawn};
ghost use Rattle.plan_mean.specs.Operands.{with_one};
ghost use Rattle.plan_mean.specs.Ranges as ranges;
ghost use Rattle.plan_mean.specs.Slots.{slot_in};
ghost use Rattle.plan_mean.specs.Step.{acts, gives, turns};
ghost use Rattle.plan_mean.specs.State.{where_there};
ghost use Rattle.ssa_mean.specs.Comes.{of_option, to};
ghost use Rattle.ssa_mean.specs.MapCalls.{entries_of};
ghost use Rattle.ssa_mean.specs.Ranges as meant;
ghost use Rattle.ssa_mean.specs.Runes.{first_rune};

use code_plan::Arg;
use go_base::{Bytes, MapId, NoMemory};
use go_value::{Part, RangeState, Value, decode_rune};
use interp_state::{Machine, Met, Turn, lost};
use std::rc::Rc;

/// A range begins.
pub fn range(machine: &mut Machine<'_>, operand: &Arg, to: u32) -> Turn
    ensures { Steps result machine.old machine.new (λ w. acts w (machine_of machine.old) (act.Range operand.now to)) }
{
    let state = range_state(machine, operand);
    machine.give(to, state)
}

fn range_state(machine: &Machine<'_>, operand: &Arg) -> Result<Value, Met>
    ensures { IsGiven result (with_one (machine_of machine.now) operand.now (λ it. of_option (meant.range_of (stored machine.now.store) it))) }
{
    match machine.look(operand)? {
        Value::Text(bytes) => text_range(machine, bytes),
        Value::Map(map) => map_range(machine, *map),
        _ => Err(Met::Memory),
    }
}

fn text_range(machine: &Machine<'_>, bytes: &Rc<Bytes>) -> Result<Value, Met>
    ensures { IsGiven result (to (vals.text_range bytes.now.value 0)) }
{
    let state = RangeState::Text {
        bytes: bytes.clone()?,
        next: 0,
    };
    Ok(Value::Iter(Box::new(machine.alloc, state)?))
}

fn map_range(machine: &Machine<'_>, map: Option<MapId>) -> Result<Value, Met>
    ensures { IsGiven result (to (vals.map_range map (reverse (numbers_in (entries_of (stored machine.now.store) map))))) }
{
    let left = machine.store.entry_numbers(machine.alloc, map)?;
    let state = RangeState::Map { map, left };
    Ok(Value::Iter(Box::new(machine.alloc, state)?))
}

/// Whether there is a next turn, its key or index, and its value.
fn turn(machine: &Machine<'_>, there: bool, key: Value, value: Value) -> Result<Value, NoMemory>
    ensures { IfOk result (λ it. value_of it ≡ meant.turn_of there (value_of key) (value_of value)) }
{
    let mut parts = Vec::new(machine.alloc);
    parts.push(Part::plain(Value::Truth(there)))?;
    parts.push(Part::plain(key))?;
    parts.push(Part::plain(value))?;
    Value::parts(machine.alloc, parts)
}

/// The next turn of a range over a text.
pub fn next_text(machine: &mut Machine<'_>, range: u32, to: u32) -> Turn
    ensures { Steps result machine.old machine.new (λ w. acts w (machine_of machine.old) (act.NextText range to)) }
{
    match text_turn(machine, range) {
        Ok(turn) => {
            machine.set(to, turn);
            Turn::Goes
        }
        Err(_) => Turn::WantsMemory,
    }
}

fn text_turn(machine: &mut Machine<'_>, range: u32) -> Result<Value, NoMemory>
    ensures { IfOk result (λ it. IsTurn range it machine.old machine.new (option_and_then (ranges.next_of_text (state_of machine.old.sched)) (slot_in (slots_of machine.old) range))) }
{
    let mut state = taken_state(machine, range)?;
    let found = next_character(&mut state)?;
    put_state(machine, range, state)?;
    character_turn(machine, found)
}

/// Takes the state of a range out of its slot.
fn taken_state(machine: &mut Machine<'_>, range: u32) -> Result<RangeState, NoMemory>
    ensures held { IfOk result (λ it. Some (range_of it) ≡ slot_in (slots_of machine.old) range) }
    ensures slots { OnOk result (slots_of machine.new ≡ without_slot range (slots_of machine.old)) }
    ensures others { machine.new ≡ record machine.old { current = record (machine.old.current) { stack = machine.new.current.stack } } }
{
    match machine.current.stack.take_slot(range as u64) {
        Some(mut value) => state_in(machine, &mut value),
        None => Err(lost()),
    }
}

/// Takes the state of a range out of a value, which is of no use then.
fn state_in(machine: &Machine<'_>, value: &mut Value) -> Result<RangeState, NoMemory>
    ensures { IfOk result (λ it. value_of value.old ≡ range_of it) }
{
    match value {
        Value::Iter(state) => Ok(std::mem::replace(&mut **state, no_state(machine))),
        _ => Err(lost()),
    }
}

fn no_state(machine: &Machine<'_>) -> RangeState {
    RangeState::Map {
        map: None,
        left: Vec::new(machine.alloc),
    }
}

/// Puts the state of a range into its slot.
fn put_state(machine: &mut Machine<'_>, range: u32, state: RangeState) -> Result<(), NoMemory>
    ensures { OnOk result (Wrote range (range_of state) machine.old machine.new) }
{
    let state = Box::new(machine.alloc, state)?;
    machine.set(range, Value::Iter(state));
    Ok(())
}

/// The next character of a text that is ranged over, and where it begins. None at the end.
fn next_character(state: &mut RangeState) -> Result<Option<(u64, u32)>, NoMemory>
    ensures { IfOk result (λ found. (sched : State) → ranges.next_of_text sched (range_of state.old) ≡ Some (record { value = made.character_turn found; range = range_of state.new; sched = sched })) }
{
    match state {
        RangeState::Text { bytes, next } => {
            let at = *next;
            match character_at(bytes.as_slice(), at) {
                Some((point, behind)) => {
                    *next = behind;
                    Ok(Some((at, point)))
                }
                None => Ok(None),
            }
        }
        RangeState::Map { .. } => Err(lost()),
    }
}

/// The character at a place of a text, and the place behind it. None at the end.
fn character_at(text: &[u8], at: u64) -> Option<(u32, u64)>
    ensures within { IfSome result (λ _. at < length text.now) }
    ensures point { IfSome result (λ it. it.0 ≡ (first_rune (drop at text.now)).point) }
    ensures behind { IfSome result (λ it. it.1 ≡ at + (first_rune (drop at text.now)).width) }
    ensures end { IfNone result (length text.now ≤ at) }
{
    if at >= text.len() as u64 {
        return None;
    }
    let (point, width) = decode_rune(text, at as usize);
    Some((point, at + u64::from(width)))
}

fn character_turn(machine: &Machine<'_>, found: Option<(u64, u32)>) -> Result<Value, NoMemory>
    ensures { IfOk result (λ it. value_of it ≡ made.character_turn found) }
{
    match found {
        Some((at, point)) => {
            let index = natural(at);
            let character = natural(u64::from(point));
            turn(machine, true, index, character)
        }
        None => {
            let no_index = natural(0);
            let no_character = natural(0);
            turn(machine, false, no_index, no_character)
        }
    }
}

fn natural(number: u64) -> Value
    ensures { value_of result ≡ vals.number (pos number) }
{
    Value::Int(i128::from(number))
}

/// The next turn of a range over a map.
pub fn next_map(machine: &mut Machine<'_>, range: u32, key: &Value, value: &Value, to: u32) -> Turn
    ensures { Steps result machine.old machine.new (λ w. where_there (turns (machine_of machine.old) range to) (option_and_then (ranges.map_turn (stored machine.old.store) (state_of machine.old.sched) (value_of key.now) (value_of value.now)) (slot_in (slots_of machine.old) range))) }
{
    match map_turn(machine, range, key, value) {
        Ok(turn) => {
            machine.set(to, turn);
            Turn::Goes
        }
        Err(_) => Turn::WantsMemory,
    }
}

fn map_turn(
    machine: &mut Machine<'_>,
    range: u32,
    key: &Value,
    value: &Value,
) -> Result<Value, NoMemory>
    ensures { IfOk result (λ it. IsTurn range it machine.old machine.new (option_and_then (ranges.map_turn (stored machine.old.store) (state_of machine.old.sched) (value_of key.now) (value_of value.now)) (slot_in (slots_of machine.old) range))) }
{
    let mut state = taken_state(machine, range)?;
    let (map, entry) = next_entry(machine, &mut state)?;
    put_state(machine, range, state)?;
    entry_turn(machine, map, entry, key, value)
}

/// The turn of an entry of a map. Without an entry the last turn, with a key and a value.
fn entry_turn(
    machine: &Machine<'_>,
    map: Option<MapId>,
    entry: Option<u64>,
    key: &Value,
    value: &Value,
) -> Result<Value, NoMemory>
    ensures { IfOk result (λ it. made.entry_turn (entries_of (stored machine.now.store) map) (value_of key.now) (value_of value.now) entry ≡ Some (value_of it)) }
{
    match entry {
        Some(number) => match machine.store.entry(machine.alloc, map, number)? {
            Some(entry) => turn(machine, true, entry.key, entry.value),
            None => Err(lost()),
        },
        None => {
            let key = key.copy(machine.alloc)?;
            let value = value.copy(machine.alloc)?;
            turn(machine, false, key, value)
        }
    }
}

/// The map that is ranged over, and its entry that is produced next.
fn next_entry(
    machine: &mut Machine<'_>,
    state: &mut RangeState,
) -> Result<(Option<MapId>, Option<u64>), NoMemory>
    ensures drawn { IfOk result (λ it. IsDrawn (stored machine.old.store) (state_of machine.old.sched) (range_of state.old) it.0 it.1 (range_of state.new) (state_of machine.new.sched)) }
    ensures others { machine.new ≡ record machine.old { sched = machine.new.sched } }
{
    match state {
        RangeState::Map { map, left } => {
            let entry = drawn(machine, *map, left)?;
            Ok((*map, entry))
        }
        RangeState::Text { .. } => Err(lost()),
    }
}

/// An entry among those not produced yet that still stand in the map, by a choice. The others are left.
fn drawn(
    machine: &mut Machine<'_>,
    map: Option<MapId>,
    left: &mut Vec<u64>,
) -> Result<Option<u64>, NoMemory>
    ensures drawn { IfOk result (λ it. record { entry = it; left = left.new.items } ≡ ranges.drawn (state_of machine.old.sched) (entries_of (stored machine.old.store) map) left.old.items) }
    ensures sched { OnOk result (state_of machine.new.sched ≡ ranges.sched_after (state_of machine.old.sched) (entries_of (stored machine.old.store) map) left.old.items) }
    ensures others { machine.new ≡ record machine.old { sched = machine.new.sched } }
{
    if machine.sched.is_spent() {
        return Ok(first_entry(machine, map, left));
    }
    let mut standing = standing(machine, map, left.as_slice())?;
    let entry = chosen_entry(machine, &mut standing)?;
    *left = standing;
    Ok(entry)
}

/// The first entry that still stands in the map. The last number is that of the first.
fn first_entry(machine: &Machine<'_>, map: Option<MapId>, left: &mut Vec<u64>) -> Option<u64>
    ensures { record { entry = result; left = left.new.items } ≡ ranges.first_drawn (entries_of (stored machine.now.store) map) (reverse left.old.items) }
{
    while let Some(number) = left.pop() {
        if machine.store.has_entry(map, number) {
            return Some(number);
        }
    }
    None
}

/// The numbers of the entries that still stand in the map.
fn standing(machine: &Machine<'_>, map: Option<MapId>, left: &[u64]) -> Result<Vec<u64>, NoMemory>
    ensures { IfOk result (λ it. it.items ≡ filter (ranges.is_standing (entries_of (stored machine.now.store) map)) left.now) }
{
    let mut standing = Vec::new(machine.alloc);
    for number in left {
        if machine.store.has_entry(map, *number) {
            standing.push(*number)?;
        }
    }
    Ok(standing)
}

/// An entry among those that stand in a map, by a choice. It is taken out.
fn chosen_entry(machine: &mut Machine<'_>, standing: &mut Vec<u64>) -> Result<Option<u64>, NoMemory>
    ensures drawn { IfOk result (λ it. record { entry = it; left = standing.new.items } ≡ ranges.drawn_among (state_of machine.old.sched) standing.old.items) }
    ensures sched { OnOk result (state_of machine.new.sched ≡ picked (length standing.old.items) (state_of machine.old.sched)) }
    ensures others { machine.new ≡ record machine.old { sched = machine.new.sched } }
{
    let count = standing.len();
    if count == 0 {
        return Ok(None);
    }
    let chosen = machine.sched.pick(count as u64) as usize;
    let place = count.saturating_sub(1).saturating_sub(chosen);
    if place >= standing.len() {
        return Err(lost());
    }
    Ok(Some(standing.remove(place)))
}
