//! The text of a code.

ghost use Rattle.std.specs.Prelude.{◌≡◌, ◌≤◌, ◌⊎◌, IsErrOf, OnErr, OnOk};
ghost use Rattle.go_base.specs.Devices.{HasFaulted};
ghost use Rattle.ssa_print.specs.Codes.{Writes, WritesFront};
ghost use Rattle.program_work.specs.declared.stop.Stop.TheVariants.{WriteFault};

use crate::stop::Stop;
use command_line::Letters;
use go_base::{PrintError, Sink};
use ssa_ir::Code;
use ssa_print::{Show, print};
use std::alloc::Global;

/// Writes what letters show of a code.
pub fn print_code<O: Sink>(
    alloc: Global,
    code: &Code,
    letters: Letters,
    out: &mut O,
) -> Result<(), Stop>
    ensures written { OnOk result (Writes code.now letters.functions letters.counts (O.written out.old) (O.written out.new)) }
    ensures front { OnErr result ((out.new ≡ out.old) ⊎ WritesFront code.now letters.functions letters.counts (O.written out.old) (O.written out.new)) }
    ensures fault { IsErrOf result WriteFault → HasFaulted (O.faults out.old) (O.faults out.new) }
    ensures later { O.faults out.old ≤ O.faults out.new }
{
    match print(alloc, code, shown(letters), out) {
        Ok(()) => Ok(()),
        Err(PrintError::WriteFault) => Err(Stop::WriteFault),
        Err(PrintError::OutOfMemory) => Err(Stop::OutOfMemory),
    }
}

// What letters show.
fn shown(letters: Letters) -> Show
    ensures { result ≡ record { functions = letters.functions; available = letters.counts } }
{
    Show {
        functions: letters.functions,
        available: letters.counts,
    }
}
