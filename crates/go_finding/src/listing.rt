//! The Go files of a directory.

ghost use Rattle.std.specs.Prelude.{◌≡◌, ◌≤◌, filter, map, string_bytes, IfOk, IfErr, IfSome, IsErrOf, IsPermutation};
ghost use Rattle.std.specs.List.Sorted.{IsSorted};
ghost use Rattle.std.specs.String.{string_cmp};
ghost use Rattle.go_base.specs.Devices.{HasFaulted};
ghost use Rattle.go_finding.specs.GoPaths.{ListsGoPaths};
ghost use Rattle.go_finding.specs.Listing.{is_go_file, is_hidden};
ghost use Rattle.go_finding.specs.Paths.{path_in};
ghost use Rattle.go_finding.specs.Refusals.{Stops};

use crate::error::LoadError;
use crate::paths::join;
use go_base::{FileError, Files, NoMemory};
use std::alloc::Global;

/// Whether a file of a directory belongs to its package.
pub fn is_go_file(name: &str) -> bool
    ensures { result ≡ is_go_file name.now }
{
    let name = name.as_bytes();
    name.ends_with(b".go") && !name.ends_with(b"_test.go") && !is_hidden(name)
}

/// Whether a name begins with `_` or `.`.
fn is_hidden(name: &[u8]) -> bool
    ensures { result ≡ is_hidden name.now }
{
    name.starts_with(b"_") || name.starts_with(b".")
}

/// The paths of the Go files of a directory, in byte order. There are none where the directory is absent.
pub fn list_go_files<F: Files>(
    alloc: Global,
    files: &mut F,
    dir: &str,
) -> Result<Vec<String>, LoadError>
    ensures fault { IsErrOf result LoadError.ReadFault → HasFaulted (F.faults files.old) (F.faults files.new) }
    ensures later { F.faults files.old ≤ F.faults files.new }
    ensures why { IfErr result (Stops (F.tree files.old)) }
    ensures same { F.tree files.new ≡ F.tree files.old }
    ensures answer { IfSome (F.tree files.old) (λ tree. ListsGoPaths tree dir.now result) }
{
    let names = match files.list(alloc, dir) {
        Ok(names) => names,
        Err(FileError::Absent) => return Ok(Vec::new(alloc)),
        Err(FileError::Failed) => return Err(LoadError::ReadFault),
        // a listing is never too large
        Err(FileError::TooLarge | FileError::OutOfMemory) => return Err(LoadError::OutOfMemory),
    };
    let names = go_file_names(names)?;
    Ok(paths_in(alloc, dir, names.as_slice())?)
}

/// The names of Go files among names, in byte order.
fn go_file_names(names: Vec<String>) -> Result<Vec<String>, NoMemory>
    ensures order { IfOk result (λ kept. IsSorted string_cmp kept.items) }
    ensures all { IfOk result (λ kept. IsPermutation (filter (λ name. is_go_file (string_bytes name)) names.items) kept.items) }
{
    let mut names = names;
    names.retain(|name| is_go_file(name.as_str()));
    names.sort()?;
    Ok(names)
}

/// The paths of names in a directory.
fn paths_in(alloc: Global, dir: &str, names: &[String]) -> Result<Vec<String>, NoMemory>
    ensures { IfOk result (λ paths. map string_bytes paths.items ≡ map (path_in dir.now) (map string_bytes names.now)) }
{
    let mut paths = Vec::new(alloc);
    'names: for name in names {
        paths.push(join(alloc, dir, name.as_str())?)?;
    }
    Ok(paths)
}
