//! Which types interfaces need.

ghost use Rattle.std.specs.Prelude.{◌≡◌, ◌↔◌, IsTrue};
ghost use Rattle.go_type.specs.Table.{id_of};
ghost use Rattle.go_type.specs.declared.term.TypeTerm.TheVariants.{Pointer};
ghost use Rattle.ssa_typed.specs.Forms.{Boxes, ImplementsWhere, Widens, Asserts};
ghost use Rattle.ssa_typed.specs.Operands.{known, held_type};

use crate::known::{Frame, Known};
use go_base::TypeId;
use go_type::{TypeTerm, Types, implements};
use ssa_ir::Operand;
use type_shapes::{is_any_below, is_interface, is_state};

/// Whether an operand that is no interface may be made into one. A function has no methods.
pub fn fits_boxing(frame: Frame, operand: &Operand, to: TypeId) -> bool
    ensures { IsTrue result ↔ Boxes frame.entry.code.now.types (known frame.entry.code.now frame.entry.function.now operand.now) to }
{
    let types = &frame.code.types;
    match frame.known(operand) {
        Some(Known::Held(of)) => {
            !is_interface(types, of) && !is_state(types, of) && implements(types, of, to)
        }
        Some(Known::Function(_)) => is_any_below(types, to),
        Some(Known::Address(base)) => is_any_below(types, to) || fits_pointer(types, base, to),
        None => false,
    }
}

/// Whether the type of pointers to a type is held, and has the methods of an interface.
fn fits_pointer(types: &Types, base: TypeId, to: TypeId) -> bool
    ensures { IsTrue result ↔ ImplementsWhere types.now (id_of (Pointer base) types.now) to }
{
    match types.find(&TypeTerm::Pointer(base)) {
        Some(of) => implements(types, of, to),
        None => false,
    }
}

pub fn fits_interface(frame: Frame, operand: &Operand, to: TypeId) -> bool
    ensures { IsTrue result ↔ Widens frame.entry.code.now.types (held_type (known frame.entry.code.now frame.entry.function.now operand.now)) to }
{
    let types = &frame.code.types;
    match frame.held_type(operand) {
        Some(of) => is_interface(types, of) && implements(types, of, to),
        None => false,
    }
}

pub fn fits_assertion(frame: Frame, operand: &Operand, to: TypeId) -> bool
    ensures { IsTrue result ↔ Asserts frame.entry.code.now.types (held_type (known frame.entry.code.now frame.entry.function.now operand.now)) to }
{
    let types = &frame.code.types;
    match frame.held_type(operand) {
        Some(of) => {
            is_interface(types, of) && (is_interface(types, to) || implements(types, to, of))
        }
        None => false,
    }
}
