//! The streams of the system.

ghost use Rattle.std.specs.Prelude.{◌≡◌, ◌+◌, ◌≤◌, min, IsErrOf, OnOk, OnErr};
ghost use Rattle.std.specs.Io.KnownBytes.{Appends, Keeps, WriteAppends};
ghost use Rattle.std.specs.Io.{WritesAtMost};
ghost use Rattle.go_base.specs.Devices.{AppendsFront, HasFaulted, last_count};

use go_base::{Sink, SinkError};
use std::io;
use std::io::{ErrorKind, Write};
use std::marker::Model;

/// A stream of the system, as standard output or standard error. What it holds is told only where its writer tells
/// it, and those of the system do not.
#[derive(Drop)]
pub struct RealSink<W: Write + Drop> {
    writer: W,
    /// The errors of the system so far. It stops at its last value.
    faults: u64,
}

impl<W: Write + Drop> Model for RealSink<W> {
    ghost use Rattle.go_devices.specs.Streams.{StreamState};

    ghost Value = { StreamState };

    ghost view = { λ s. record { contents = W.contents s.writer; faults = s.faults } };
}

impl<W: Write + Drop> RealSink<W> {
    /// A sink over a stream, which has not failed.
    pub fn new(writer: W) -> RealSink<W>
        ensures { result ≡ record { contents = W.contents writer; faults = 0 } }
    {
        RealSink { writer, faults: 0 }
    }
}

impl<W: Write + Drop> Sink for RealSink<W> {
    ghost written = { λ s. s.contents };

    ghost faults = { λ s. s.faults };

    /// Writes all of the bytes, past the writer's buffer if it has one. An error of the system, and a write that takes
    /// nothing, is `Failed` and is counted; a write that was interrupted is tried again.
    fn write(&mut self, bytes: &[u8]) -> Result<(), SinkError>
        ensures ok { OnOk result (Appends self.old.contents self.new.contents bytes.now) }
        ensures err { OnErr result (AppendsFront self.old.contents self.new.contents bytes.now) }
        ensures later { self.old.faults ≤ self.new.faults }
        ensures failed { IsErrOf result SinkError.Failed → HasFaulted self.old.faults self.new.faults }
        ensures counted { IsErrOf result SinkError.Failed → self.new.faults ≡ min (self.old.faults + 1) last_count }
        ensures others { ¬ IsErrOf result SinkError.Failed → self.new.faults ≡ self.old.faults }
    {
        let answer = write_whole(&mut self.writer, bytes);
        if let Err(SinkError::Failed) = &answer {
            self.faults = self.faults.saturating_add(1);
        }
        answer
    }
}

/// Writes all of the bytes.
fn write_whole<W: Write>(writer: &mut W, bytes: &[u8]) -> Result<(), SinkError>
    ensures ok { OnOk result (Appends (W.contents writer.old) (W.contents writer.new) bytes.now) }
    ensures err { OnErr result (AppendsFront (W.contents writer.old) (W.contents writer.new) bytes.now) }
{
    let mut rest = bytes;
    while !rest.is_empty() {
        let count = write_some(writer, rest)?;
        if count == 0 {
            return Err(SinkError::Failed);
        }
        rest = &rest[count..];
    }
    flush(writer)
}

/// Writes once, and again where it is interrupted.
fn write_some<W: Write>(writer: &mut W, bytes: &[u8]) -> Result<usize, SinkError>
    ensures bound { WritesAtMost result bytes.now }
    ensures bytes { WriteAppends (W.contents writer.old) (W.contents writer.new) result bytes.now }
{
    for _ in 0..u64::MAX {
        match writer.write(bytes) {
            Ok(count) => return Ok(count),
            Err(error) if error.kind() == ErrorKind::Interrupted => {}
            Err(error) => return Err(sink_error(&error)),
        }
    }
    Err(SinkError::Failed)
}

/// Passes on what a writer has kept back, and again where it is interrupted.
fn flush<W: Write>(writer: &mut W) -> Result<(), SinkError>
    ensures { Keeps (W.contents writer.old) (W.contents writer.new) }
{
    for _ in 0..u64::MAX {
        match writer.flush() {
            Ok(()) => return Ok(()),
            Err(error) if error.kind() == ErrorKind::Interrupted => {}
            Err(error) => return Err(sink_error(&error)),
        }
    }
    Err(SinkError::Failed)
}

/// What an error of the system means.
fn sink_error(error: &io::Error) -> SinkError {
    match error.kind() {
        ErrorKind::OutOfMemory => SinkError::OutOfMemory,
        _ => SinkError::Failed,
    }
}
