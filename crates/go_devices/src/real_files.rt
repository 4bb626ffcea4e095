//! The files of the system.

ghost use Rattle.std.specs.Prelude.{◌≡◌, ◌≢◌, ◌+◌, ◌<◌, ◌≤◌, min, length, None, IfOk, IfSome, IsErrOf};
ghost use Rattle.std.specs.Io.{ReadsAtMost};
ghost use Rattle.std.specs.Io.KnownBytes.{ReadConsumes};
ghost use Rattle.go_base.specs.Devices.{HasFaulted, last_count};

use go_base::{FileError, Files};
use std::alloc::Global;
use std::fs::{DirEntry, File};
use std::io::{ErrorKind, Read};
use std::marker::Model;
use std::{fs, io, rt};

/// The most entries that a directory may have.
const MAX_ENTRIES: usize = 1048576;

/// The directories and files of the system. What they hold is not told.
#[derive(Drop)]
pub struct RealFiles<R: rt::Files + AllocGlobal + Clone + Drop> {
    runtime: R,
    /// The errors of the system so far. It stops at its last value.
    faults: u64,
}

impl<R: rt::Files + AllocGlobal + Clone + Drop> Model for RealFiles<R> {
    ghost use Rattle.std.specs.Prelude.{ℕ};

    ghost Value = { ℕ };

    ghost view = { λ f. f.faults };
}

impl<R: rt::Files + AllocGlobal + Clone + Drop> RealFiles<R> {
    /// The files of a runtime, of which none has failed.
    pub fn new(runtime: R) -> RealFiles<R>
        ensures { result ≡ 0 }
    {
        RealFiles { runtime, faults: 0 }
    }

    /// Counts an answer that is an error of the system.
    fn count<T>(&mut self, answer: Result<T, FileError>) -> Result<T, FileError>
        ensures same { result ≡ answer }
        ensures later { self.old ≤ self.new }
        ensures failed { IsErrOf result FileError.Failed → self.new ≡ min (self.old + 1) last_count }
        ensures others { ¬ IsErrOf result FileError.Failed → self.new ≡ self.old }
    {
        if let Err(FileError::Failed) = &answer {
            self.faults = self.faults.saturating_add(1);
        }
        answer
    }
}

/// What an error of the system means. A path that leads through a file, or to a directory where a file is read, has
/// no file.
fn file_error(error: &io::Error) -> FileError
    ensures { result ≢ FileError.TooLarge }
{
    match error.kind() {
        ErrorKind::NotFound | ErrorKind::NotADirectory | ErrorKind::IsADirectory => {
            FileError::Absent
        }
        ErrorKind::OutOfMemory => FileError::OutOfMemory,
        _ => FileError::Failed,
    }
}

impl<R: rt::Files + AllocGlobal + Clone + Drop> Files for RealFiles<R> {
    ghost tree = { λ _. None };

    ghost faults = { λ f. f };

    /// The names of the regular files in a directory, also where a link leads to one. An empty path is the current
    /// directory. An error of the system is `Failed` and is counted, save that a directory that is not found is
    /// `Absent`. Counted too are a directory of more than 1,048,576 entries, and a name that is not text.
    fn list(&mut self, alloc: Global, dir: &str) -> Result<Vec<String>, FileError>
        ensures later { self.old ≤ self.new }
        ensures failed { IsErrOf result FileError.Failed → HasFaulted self.old self.new }
        ensures never_too_large { IsErrOf result FileError.TooLarge → ⊥ }
        ensures counted { IsErrOf result FileError.Failed → self.new ≡ min (self.old + 1) last_count }
        ensures others { ¬ IsErrOf result FileError.Failed → self.new ≡ self.old }
    {
        let names = list_names(&self.runtime, alloc, dir);
        self.count(names)
    }

    /// The bytes of a file, of which no more than one past the limit are read. An error of the system is `Failed` and
    /// is counted, save that a file that is not found is `Absent`; a read that was interrupted is tried again.
    fn read(&mut self, alloc: Global, path: &str, limit: usize) -> Result<Vec<u8>, FileError>
        ensures later { self.old ≤ self.new }
        ensures failed { IsErrOf result FileError.Failed → HasFaulted self.old self.new }
        ensures within { IfOk result (λ bytes. length bytes.items ≤ limit) }
        ensures counted { IsErrOf result FileError.Failed → self.new ≡ min (self.old + 1) last_count }
        ensures others { ¬ IsErrOf result FileError.Failed → self.new ≡ self.old }
    {
        let bytes = read_file(&self.runtime, alloc, path, limit);
        self.count(bytes)
    }
}

/// The names of the files in a directory.
fn list_names<R: rt::Files + AllocGlobal + Clone + Drop>(
    runtime: &R,
    alloc: Global,
    dir: &str,
) -> Result<Vec<String>, FileError>
    ensures { IsErrOf result FileError.TooLarge → ⊥ }
{
    let dir = if dir.is_empty() { "." } else { dir };
    let entries = fs::read_dir(runtime, dir).map_err(|error| file_error(&error))?;
    let mut names = Vec::new(alloc);
    let mut count = 0;
    for entry in entries {
        if count == MAX_ENTRIES {
            return Err(FileError::Failed);
        }
        count += 1;
        let entry = entry.map_err(|error| file_error(&error))?;
        if is_file(runtime, &entry)? {
            let name = String::from_str(alloc, entry.file_name())?;
            names.push(name)?;
        }
    }
    Ok(names)
}

/// Whether an entry of a directory reads as a file. One that is no longer there does not.
fn is_file<R: rt::Files + AllocGlobal>(
    runtime: &R,
    entry: &DirEntry<R, Global>,
) -> Result<bool, FileError>
    ensures { IsErrOf result FileError.TooLarge → ⊥ }
{
    match fs::metadata(runtime, entry.path()) {
        Ok(metadata) => Ok(metadata.is_file()),
        Err(error) => match file_error(&error) {
            FileError::Absent => Ok(false),
            other => Err(other),
        },
    }
}

/// The bytes of a file that has at most `limit` bytes.
fn read_file<R: rt::Files>(
    runtime: &R,
    alloc: Global,
    path: &str,
    limit: usize,
) -> Result<Vec<u8>, FileError>
    ensures { IfOk result (λ bytes. length bytes.items ≤ limit) }
{
    let mut file = File::open(runtime, path).map_err(|error| file_error(&error))?;
    read_within(&mut file, alloc, limit)
}

/// The bytes that a reader has left, of which there are at most `limit`. It reads at most one byte more than that.
fn read_within<F: Read>(reader: &mut F, alloc: Global, limit: usize) -> Result<Vec<u8>, FileError>
    ensures within { IfOk result (λ bytes. length bytes.items ≤ limit) }
    ensures whole { IfOk result (λ bytes. IfSome (F.remaining reader.old) (λ rest. bytes.items ≡ rest)) }
    ensures too_large { IsErrOf result FileError.TooLarge → IfSome (F.remaining reader.old) (λ rest. limit < length rest) }
{
    let mut bytes = Vec::new(alloc);
    loop {
        let mut buffer = [0u8; 4096];
        let room = limit - bytes.len();
        let wanted = room.min(buffer.len() - 1) + 1;
        let piece = &mut buffer[..wanted];
        let count = read_some(reader, piece)?;
        if count == 0 {
            return Ok(bytes);
        }
        if count > room {
            return Err(FileError::TooLarge);
        }
        bytes.extend_from_slice(&piece[..count])?;
    }
}

/// Reads once, and again where it is interrupted.
fn read_some<F: Read>(reader: &mut F, buffer: &mut [u8]) -> Result<usize, FileError>
    ensures bound { ReadsAtMost result buffer.new }
    ensures bytes { ReadConsumes (F.remaining reader.old) (F.remaining reader.new) result buffer.new }
    ensures not_large { ¬ IsErrOf result FileError.TooLarge }
{
    for _ in 0..u64::MAX {
        match reader.read(buffer) {
            Ok(count) => return Ok(count),
            Err(error) if error.kind() == ErrorKind::Interrupted => {}
            Err(error) => return Err(file_error(&error)),
        }
    }
    Err(FileError::Failed)
}
