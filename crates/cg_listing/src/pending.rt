//! Bytes on their way to a sink.

ghost use Rattle.std.specs.Prelude.{◌≡◌, ◌≤◌, [], IsErrOf, OnOk, OnErr};
ghost use Rattle.std.specs.Io.KnownBytes.{Appends};
ghost use Rattle.go_base.specs.Devices.{HasFaulted, AppendsFront};
ghost use Rattle.go_base.specs.declared.devices.PrintError.TheVariants.{WriteFault};
ghost use Rattle.cg_listing.specs.Rows.{Flushes};

use go_base::{PrintError, Sink, SinkError};

/// What waits is written once it is as long as this.
const PIECE: usize = 8192;

/// Writes what waits, if it is long.
pub fn write_if_long<O: Sink>(text: &mut Vec<u8>, out: &mut O) -> Result<(), PrintError>
    ensures written { OnOk result (Flushes (O.written out.old) (O.written out.new) text.old.items text.new.items) }
    ensures front { OnErr result (AppendsFront (O.written out.old) (O.written out.new) text.old.items) }
    ensures later { O.faults out.old ≤ O.faults out.new }
    ensures fault { IsErrOf result WriteFault → HasFaulted (O.faults out.old) (O.faults out.new) }
{
    if text.len() >= PIECE {
        write_all(text, out)?;
    }
    Ok(())
}

/// Writes what waits.
pub fn write_all<O: Sink>(text: &mut Vec<u8>, out: &mut O) -> Result<(), PrintError>
    ensures written { OnOk result (Appends (O.written out.old) (O.written out.new) text.old.items) }
    ensures empty { OnOk result (text.new.items ≡ []) }
    ensures front { OnErr result (AppendsFront (O.written out.old) (O.written out.new) text.old.items) }
    ensures later { O.faults out.old ≤ O.faults out.new }
    ensures fault { IsErrOf result WriteFault → HasFaulted (O.faults out.old) (O.faults out.new) }
{
    write(text.as_slice(), out)?;
    text.clear();
    Ok(())
}

fn write<O: Sink>(bytes: &[u8], out: &mut O) -> Result<(), PrintError>
    ensures written { OnOk result (Appends (O.written out.old) (O.written out.new) bytes.now) }
    ensures front { OnErr result (AppendsFront (O.written out.old) (O.written out.new) bytes.now) }
    ensures later { O.faults out.old ≤ O.faults out.new }
    ensures fault { IsErrOf result WriteFault → HasFaulted (O.faults out.old) (O.faults out.new) }
{
    match out.write(bytes) {
        Ok(()) => Ok(()),
        Err(SinkError::Failed) => Err(PrintError::WriteFault),
        Err(SinkError::OutOfMemory) => Err(PrintError::OutOfMemory),
    }
}
