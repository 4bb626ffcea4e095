//! The bytes of a file, and refusals at a place of it.

ghost use Rattle.std.specs.Prelude.{◌≡◌, ◌≢◌, ◌≤◌, [], length, min, Option, IfOk, IfErr, IfSome, IsErrOf};
ghost use Rattle.go_base.specs.Devices.{HasFaulted, Tree};
ghost use Rattle.go_base.specs.declared.line.TheConstants.{MAX_FILE_BYTES};
ghost use Rattle.go_base.specs.declared.place.Place.{Place};
ghost use Rattle.go_sources.specs.Places.{place_in};
ghost use Rattle.go_sources.specs.Sources.{HasBytes};
ghost use Rattle.go_finding.specs.Places.{IsSmall, Refuses};
ghost use Rattle.go_finding.specs.Modules.{ReadsWhole};
ghost use Rattle.go_finding.specs.Refusals.{Justifies, Stops};

use crate::error::LoadError;
use go_base::{FileError, Files, MAX_FILE_BYTES, NoMemory, Place, Rule, Text};
use go_sources::{SourceFile, place_at};
use std::alloc::Global;

/// The first byte of a file, whatever it holds.
fn first_place(alloc: Global, path: &str) -> Result<Place, NoMemory>
    ensures { IfOk result (λ place. place ≡ place_in path.now [] 0) }
{
    Ok(Place {
        path: Text::new(alloc, path)?,
        offset: 0,
        line: 1,
        column: 1,
    })
}

/// That a file breaks a rule at its first byte.
pub fn refuse_first(alloc: Global, path: &str, rule: Rule) -> LoadError
    ensures { Refuses (place_in path.now [] 0) rule result }
{
    match first_place(alloc, path) {
        Ok(place) => LoadError::Refused { place, rule },
        Err(_) => LoadError::OutOfMemory,
    }
}

/// That a file breaks a rule at a byte.
pub fn refuse_at(alloc: Global, path: &str, bytes: &[u8], offset: usize, rule: Rule) -> LoadError
    requires within { offset ≤ length bytes.now }
    requires is_file { length bytes.now ≤ MAX_FILE_BYTES }
    ensures { Refuses (place_in path.now bytes.now offset) rule result }
{
    match place_at(alloc, path, bytes, offset) {
        Ok(place) => LoadError::Refused { place, rule },
        Err(_) => LoadError::OutOfMemory,
    }
}

/// That a file that was loaded breaks a rule at a byte.
pub fn refuse_in(alloc: Global, file: &SourceFile, offset: u32, rule: Rule) -> LoadError
    ensures no_fault { result ≢ LoadError.ReadFault }
    ensures why { (files : Option Tree) → ((place : Place) → Justifies files place rule) → Stops files result }
    ensures here { Refuses (place_in file.now.path file.now.bytes (min offset (length file.now.bytes))) rule result }
{
    let bytes = file.bytes.as_slice();
    let offset = (offset as usize).min(bytes.len());
    refuse_at(alloc, file.path.as_str(), bytes, offset, rule)
}

/// The bytes of a file, or None where it is absent.
pub fn read_whole<F: Files>(
    alloc: Global,
    files: &mut F,
    path: &str,
) -> Result<Option<Vec<u8>>, LoadError>
    ensures small { IfOk result IsSmall }
    ensures text { IfOk result (HasBytes (F.tree files.old) path.now) }
    ensures fault { IsErrOf result LoadError.ReadFault → HasFaulted (F.faults files.old) (F.faults files.new) }
    ensures later { F.faults files.old ≤ F.faults files.new }
    ensures why { IfErr result (Stops (F.tree files.old)) }
    ensures same { F.tree files.new ≡ F.tree files.old }
    ensures answer { IfSome (F.tree files.old) (λ tree. ReadsWhole tree path.now result) }
{
    match files.read(alloc, path, MAX_FILE_BYTES) {
        Ok(bytes) => {
            if bytes.len() > MAX_FILE_BYTES {
                return Err(refuse_first(alloc, path, Rule::FileTooLarge));
            }
            Ok(Some(bytes))
        }
        Err(FileError::Absent) => Ok(None),
        Err(FileError::TooLarge) => Err(refuse_first(alloc, path, Rule::FileTooLarge)),
        Err(FileError::Failed) => Err(LoadError::ReadFault),
        Err(FileError::OutOfMemory) => Err(LoadError::OutOfMemory),
    }
}
