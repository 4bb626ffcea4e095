//! The reading of the files of one package.

ghost use Rattle.std.specs.Prelude.{◌≡◌, ◌≤◌, [], length, Option, IfOk, IfErr, IfSome, IsErrOf};
ghost use Rattle.go_base.specs.Devices.{HasFaulted, Tree};
ghost use Rattle.go_base.specs.declared.line.TheConstants.{MAX_FILE_BYTES};
ghost use Rattle.go_sources.specs.Sources.{AreTold, IsText};
ghost use Rattle.go_load.specs.FileReading.{ReadsText, ReadsPath, ReadsPaths, ReadsBuiltIn, AreOf};
ghost use Rattle.go_finding.specs.Refusals.{Stops};

use crate::read::read_tree;
use go_base::{Bytes, Files, MAX_FILE_BYTES, Rule, Text};
use go_finding::{LoadError, number_after, read_whole, refuse_first};
use go_sources::{BuiltIn, SourceFile};
use std::alloc::Global;

/// The package that files belong to, and how many files were read before.
#[derive(Clone, Copy)]
pub struct Slot {
    pub package: u32,
    pub first: usize,
}

/// The files at these paths, which may have `room` bytes together. One that is absent is passed over.
pub fn read_paths<F: Files>(
    alloc: Global,
    files: &mut F,
    paths: &[String],
    slot: Slot,
    room: usize,
) -> Result<Vec<SourceFile>, LoadError>
    ensures fault { IsErrOf result LoadError.ReadFault → HasFaulted (F.faults files.old) (F.faults files.new) }
    ensures later { F.faults files.old ≤ F.faults files.new }
    ensures why { IfErr result (Stops (F.tree files.old)) }
    ensures told { IfOk result (λ sources. AreTold (F.tree files.old) sources.items) }
    ensures same { F.tree files.new ≡ F.tree files.old }
    ensures answer { IfSome (F.tree files.old) (λ tree. ReadsPaths tree paths.now room result) }
    ensures slot { IfOk result (λ sources. AreOf slot.package sources.items) }
{
    let mut sources = Vec::new(alloc);
    let mut left = room;
    'paths: for path in paths {
        let at = Slot {
            package: slot.package,
            first: slot.first.saturating_add(sources.len()),
        };
        if let Some(source) = read_path(alloc, files, path.as_str(), at, left)? {
            left -= source.bytes.as_slice().len();
            sources.push(source)?;
        }
    }
    Ok(sources)
}

/// The file at a path. None where it is absent.
fn read_path<F: Files>(
    alloc: Global,
    files: &mut F,
    path: &str,
    slot: Slot,
    room: usize,
) -> Result<Option<SourceFile>, LoadError>
    ensures fault { IsErrOf result LoadError.ReadFault → HasFaulted (F.faults files.old) (F.faults files.new) }
    ensures later { F.faults files.old ≤ F.faults files.new }
    ensures why { IfErr result (Stops (F.tree files.old)) }
    ensures told { IfOk result (λ source. IfSome source (λ source. IsText (F.tree files.old) source.path source.bytes)) }
    ensures same { F.tree files.new ≡ F.tree files.old }
    ensures answer { IfSome (F.tree files.old) (λ tree. ReadsPath tree path.now room result) }
    ensures small { IfOk result (λ source. IfSome source (λ source. length source.bytes ≤ room)) }
    ensures slot { IfOk result (λ source. IfSome source (λ source. source.package ≡ slot.package)) }
{
    match read_whole(alloc, files, path)? {
        Some(bytes) => Ok(Some(source_of(alloc, path, bytes, slot, room)?)),
        None => Ok(None),
    }
}

/// The file of a built-in package, whose bytes are not counted.
pub fn read_built_in(
    alloc: Global,
    built_in: BuiltIn,
    slot: Slot,
) -> Result<Vec<SourceFile>, LoadError>
    ensures no_fault { IsErrOf result LoadError.ReadFault → ⊥ }
    ensures why { IfErr result (λ error. (files : Option Tree) → Stops files error) }
    ensures told { IfOk result (λ sources. (files : Option Tree) → AreTold files sources.items) }
    ensures answer { ReadsBuiltIn built_in result }
    ensures slot { IfOk result (λ sources. AreOf slot.package sources.items) }
{
    let bytes = Vec::from_slice(alloc, built_in.text().as_bytes())?;
    let source = source_of(alloc, built_in.path(), bytes, slot, MAX_FILE_BYTES)?;
    let mut sources = Vec::new(alloc);
    sources.push(source)?;
    Ok(sources)
}

/// A file with its tree.
fn source_of(
    alloc: Global,
    path: &str,
    bytes: Vec<u8>,
    slot: Slot,
    room: usize,
) -> Result<SourceFile, LoadError>
    requires { length bytes.items ≤ MAX_FILE_BYTES }
    ensures no_fault { IsErrOf result LoadError.ReadFault → ⊥ }
    ensures why { IfErr result (λ error. (files : Option Tree) → IsText files path.now bytes.items → Stops files error) }
    ensures answer { ReadsText path.now bytes.items room result }
    ensures of { IfOk result (λ source. (source.path ≡ path.now) × (source.bytes ≡ bytes.items) × (source.package ≡ slot.package) × (length source.bytes ≤ room)) }
{
    if bytes.len() > room {
        return Err(refuse_first(alloc, path, Rule::ProgramTooLarge));
    }
    let number = number_after(slot.first)?;
    let tree = read_tree(alloc, path, number, bytes.as_slice())?;
    Ok(SourceFile {
        path: Text::new(alloc, path)?,
        bytes: without_room(bytes),
        tree,
        package: slot.package,
    })
}

/// The bytes of a file. The room behind them, which reading left, is given back.
fn without_room(bytes: Vec<u8>) -> Bytes
    ensures { result ≡ bytes.items }
{
    let mut bytes = bytes;
    bytes.shrink_to_fit();
    Bytes::new(bytes)
}
