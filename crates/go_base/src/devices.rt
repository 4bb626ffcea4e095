//! What a program of this repository asks of the outside: files to read, and sinks to write to.

ghost use Rattle.std.specs.Prelude.{◌≡◌, ◌≤◌, List, ℕ, Option, OnOk, OnErr, IfSome, IsErrOf};
ghost use Rattle.std.specs.Io.KnownBytes.{Appends};
ghost use Rattle.go_base.specs.declared.devices.FileError.TheVariants.{OutOfMemory};
ghost use Rattle.go_base.specs.declared.devices.SinkError.TheVariants as sink;
ghost use Rattle.go_base.specs.Devices.{HasFaulted, AppendsFront, Tree, ListsTree, ReadsTree};

use crate::memory::NoMemory;
use std::alloc::{AllocError, AllocFailed, Global};
use thiserror::Error;

/// Why a file or a directory was not read.
#[derive(Clone, Copy, Debug, PartialEq, Eq)]
pub enum FileError {
    /// There is no such file; for a directory, no file below it.
    Absent,
    /// The file is longer than the limit.
    TooLarge,
    /// The device has failed.
    Failed,
    OutOfMemory,
}

impl From<AllocError> for FileError {
    ghost from_gives = { λ _ e. e ≡ OutOfMemory };

    fn from(_: AllocError) -> FileError {
        FileError::OutOfMemory
    }
}

impl<T: Drop> From<AllocFailed<T>> for FileError {
    ghost from_gives = { λ _ e. e ≡ OutOfMemory };

    fn from(_: AllocFailed<T>) -> FileError {
        FileError::OutOfMemory
    }
}

impl From<NoMemory> for FileError {
    ghost from_gives = { λ _ e. e ≡ OutOfMemory };

    fn from(_: NoMemory) -> FileError {
        FileError::OutOfMemory
    }
}

/// A tree of files. A path has components joined by `/`, and `.` is the directory of the paths themselves.
pub trait Files {
    /// The files, where they are told.
    ghost tree: { Self → Option Tree };

    /// How often the device has failed.
    ghost faults: { Self → ℕ };

    /// The names of the files in a directory, in any order.
    fn list(&mut self, alloc: Global, dir: &str) -> Result<Vec<String>, FileError>
        ensures answer { IfSome (tree self.old) (λ files. ListsTree files dir.now result) }
        ensures same { tree self.new ≡ tree self.old }
        ensures later { faults self.old ≤ faults self.new }
        ensures failed { IsErrOf result FileError.Failed → HasFaulted (faults self.old) (faults self.new) }
        ensures never_too_large { IsErrOf result FileError.TooLarge → ⊥ };

    /// The bytes of a file that has at most `limit` bytes.
    fn read(&mut self, alloc: Global, path: &str, limit: usize) -> Result<Vec<u8>, FileError>
        ensures answer { IfSome (tree self.old) (λ files. ReadsTree files path.now limit result) }
        ensures same { tree self.new ≡ tree self.old }
        ensures later { faults self.old ≤ faults self.new }
        ensures failed { IsErrOf result FileError.Failed → HasFaulted (faults self.old) (faults self.new) };
}

/// Why a write was refused.
#[derive(Clone, Copy, Debug, PartialEq, Eq)]
pub enum SinkError {
    /// The device has failed.
    Failed,
    OutOfMemory,
}

impl From<AllocError> for SinkError {
    ghost from_gives = { λ _ e. e ≡ sink.OutOfMemory };

    fn from(_: AllocError) -> SinkError {
        SinkError::OutOfMemory
    }
}

/// Where output goes.
pub trait Sink {
    /// The bytes written so far, where they are told.
    ghost written: { Self → Option (List ℕ) };

    /// How often the device has failed.
    ghost faults: { Self → ℕ };

    /// Appends the bytes; where it is refused, a front of them.
    fn write(&mut self, bytes: &[u8]) -> Result<(), SinkError>
        ensures ok { OnOk result (Appends (written self.old) (written self.new) bytes.now) }
        ensures err { OnErr result (AppendsFront (written self.old) (written self.new) bytes.now) }
        ensures later { faults self.old ≤ faults self.new }
        ensures failed { IsErrOf result SinkError.Failed → HasFaulted (faults self.old) (faults self.new) };
}

/// Why a text was not written whole.
#[derive(Clone, Copy, Debug, PartialEq, Eq, Error)]
pub enum PrintError {
    #[error("write fault")]
    WriteFault,
    #[error("out of memory")]
    OutOfMemory,
}
