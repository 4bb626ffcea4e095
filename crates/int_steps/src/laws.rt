//! What ties one instruction on integers to the machine.

ghost use Rattle.int_steps.specs.Laws.{IntsAct};

use ssa_mean::slots_tell;

/// An instruction on integers goes on where the machine goes on, with the same value in the same register and the same
/// store, and meets the fault that the machine meets.
pub fn ints_act()
    ensures { IntsAct }
{
    slots_tell();
}
