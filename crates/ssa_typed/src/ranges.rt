//! Which types ranges and parts of tuples need.

ghost use Rattle.std.specs.Prelude.{◌≡◌, ◌&&◌, option_copied};
ghost use Rattle.go_type.specs.Assignable.{underlying_term_of};
ghost use Rattle.go_type.specs.Table.{term_at};
ghost use Rattle.ssa_typed.specs.Forms.{is_ranged, is_iter_of, has_items, has_steps, steps_over, steps, has_part, extracts};
ghost use Rattle.ssa_typed.specs.Operands.{known, held_type, shape};
ghost use Rattle.type_shapes.specs.Shapes.{parts_of};

use crate::known::Frame;
use go_base::TypeId;
use go_type::{Basic, TypeTerm, Types};
use ssa_ir::Operand;
use type_shapes::{is_plain, parts};

pub fn fits_range(frame: Frame, operand: &Operand, of: TypeId) -> bool
    ensures { result ≡ (is_ranged (shape frame.entry.code.now frame.entry.function.now operand.now) && is_iter_of frame.entry.code.now frame.entry.function.now (term_at frame.entry.code.now.types of) operand.now) }
{
    is_ranged(frame, operand) && is_iter_of(frame, of, operand)
}

/// Whether an operand is a string or a map.
fn is_ranged(frame: Frame, operand: &Operand) -> bool
    ensures { result ≡ is_ranged (shape frame.entry.code.now frame.entry.function.now operand.now) }
{
    matches!(
        frame.shape(operand),
        Some(TypeTerm::Basic(Basic::Text) | TypeTerm::Map { .. })
    )
}

/// Whether a type is that of the state of a range over an operand.
fn is_iter_of(frame: Frame, of: TypeId, operand: &Operand) -> bool
    ensures { result ≡ is_iter_of frame.entry.code.now frame.entry.function.now (term_at frame.entry.code.now.types of) operand.now }
{
    match frame.code.types.get(of) {
        Some(TypeTerm::Iter(over)) => frame.is(operand, *over),
        _ => false,
    }
}

pub fn fits_next(frame: Frame, operand: &Operand, of: TypeId) -> bool
    ensures { result ≡ steps frame.entry.code.now.types (held_type (known frame.entry.code.now frame.entry.function.now operand.now)) of }
{
    match frame.held_type(operand) {
        Some(id) => steps_over(&frame.code.types, id, of),
        None => false,
    }
}

fn steps_over(types: &Types, id: TypeId, of: TypeId) -> bool
    ensures { result ≡ steps_over types.now (term_at types.now id) of }
{
    match types.get(id) {
        Some(TypeTerm::Iter(over)) => has_steps(types, *over, of),
        _ => false,
    }
}

/// Whether a register has the type of what a range over a type gives: whether there is more, the key, and the value.
fn has_steps(types: &Types, over: TypeId, of: TypeId) -> bool
    ensures { result ≡ has_steps (underlying_term_of types.now over) (parts_of (term_at types.now of)) }
{
    match parts(types, of) {
        Some([more, first, second]) => {
            is_plain(*more, Basic::Bool) && has_items(types, over, *first, *second)
        }
        _ => false,
    }
}

/// Whether a range over a type gives a key and a value of types.
fn has_items(types: &Types, over: TypeId, first: TypeId, second: TypeId) -> bool
    ensures { result ≡ has_items (underlying_term_of types.now over) first second }
{
    match types.underlying_term(over) {
        Some(TypeTerm::Map { key, elem }) => *key == first && *elem == second,
        Some(TypeTerm::Basic(Basic::Text)) => {
            is_plain(first, Basic::Int) && is_plain(second, Basic::Int32)
        }
        _ => false,
    }
}

pub fn fits_extract(frame: Frame, operand: &Operand, part: u32, of: TypeId) -> bool
    ensures { result ≡ extracts frame.entry.code.now.types (held_type (known frame.entry.code.now frame.entry.function.now operand.now)) part of }
{
    match frame.held_type(operand) {
        Some(tuple) => has_part(&frame.code.types, tuple, part, of),
        None => false,
    }
}

fn has_part(types: &Types, tuple: TypeId, part: u32, of: TypeId) -> bool
    ensures { result ≡ has_part (parts_of (term_at types.now tuple)) part of }
{
    match parts(types, tuple) {
        Some(parts) => match parts.get(part as usize) {
            Some(id) => *id == of,
            None => false,
        },
        None => false,
    }
}
