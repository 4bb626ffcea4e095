//! The module to which the target belongs.

ghost use Rattle.std.specs.Prelude.{◌≡◌, ◌≤◌, IfOk, IfErr, IfSome, IsErrOf, option_map, string_bytes};
ghost use Rattle.std.specs.Option.{option_copied};
ghost use Rattle.go_base.specs.Devices.{HasFaulted};
ghost use Rattle.go_finding.specs.Imports.{dir_path, import_dir, import_rest};
ghost use Rattle.go_finding.specs.Modules.{view_module, own_module, AnswersModule, Governs};
ghost use Rattle.go_finding.specs.Refusals.{Stops};

use crate::error::LoadError;
use crate::file_bytes::{read_whole, refuse_at};
use crate::go_mod::read_go_mod;
use crate::paths::{is_plain, join, join_with_slash, parent};
use go_base::{Files, NoMemory, rest_below};
use std::alloc::Global;

/// A module, and the directory of its go.mod.
#[derive(Drop)]
pub struct Module {
    pub dir: String,
    pub path: String,
    /// The N of Go 1.N.
    pub minor: u32,
}

impl Module {
    /// The import path of a directory at or below that of the module.
    pub fn path_of(&self, alloc: Global, dir: &str) -> Result<String, NoMemory>
        ensures { IfOk result (λ path. string_bytes path ≡ dir_path (view_module self.now) dir.now) }
    {
        if dir == self.dir.as_str() {
            return Ok(self.path.clone()?);
        }
        let rest = rest_below(self.dir.as_str(), dir).unwrap_or(dir);
        join_with_slash(alloc, self.path.as_str(), rest)
    }

    /// The directory that an import path of this module names.
    pub fn dir_of(&self, alloc: Global, import: &str) -> Result<Option<String>, NoMemory>
        ensures { IfOk result (λ dir. option_map string_bytes dir ≡ import_dir (view_module self.now) import.now) }
    {
        if import == self.path.as_str() {
            return Ok(Some(self.dir.clone()?));
        }
        let Some(rest) = import_rest(self.path.as_str(), import) else {
            return Ok(None);
        };
        if !is_plain(rest) {
            return Ok(None);
        }
        Ok(Some(join(alloc, self.dir.as_str(), rest)?))
    }
}

/// What an import path has after the path of a module and a `/`.
fn import_rest<'a>(front: &str, import: &'a str) -> Option<&'a str>
    ensures { option_copied result ≡ import_rest front.now import.now }
{
    import.strip_prefix(front)?.strip_prefix('/')
}

/// Reads the go.mod of a directory, or of the nearest directory above that has one.
pub fn find_module<F: Files>(
    alloc: Global,
    files: &mut F,
    dir: &str,
) -> Result<Option<Module>, LoadError>
    ensures fault { IsErrOf result LoadError.ReadFault → HasFaulted (F.faults files.old) (F.faults files.new) }
    ensures later { F.faults files.old ≤ F.faults files.new }
    ensures why { IfErr result (Stops (F.tree files.old)) }
    ensures same { F.tree files.new ≡ F.tree files.old }
    ensures found { IfSome (F.tree files.old) (λ tree. AnswersModule result (Governs tree dir.now)) }
{
    let mut nearest = dir;
    'dirs: loop {
        if let Some(module) = read_module(alloc, files, nearest)? {
            return Ok(Some(module));
        }
        let Some(above) = parent(nearest) else {
            return Ok(None);
        };
        nearest = above;
    }
}

/// Reads the go.mod of a directory, where it has one.
fn read_module<F: Files>(
    alloc: Global,
    files: &mut F,
    dir: &str,
) -> Result<Option<Module>, LoadError>
    ensures fault { IsErrOf result LoadError.ReadFault → HasFaulted (F.faults files.old) (F.faults files.new) }
    ensures later { F.faults files.old ≤ F.faults files.new }
    ensures why { IfErr result (Stops (F.tree files.old)) }
    ensures same { F.tree files.new ≡ F.tree files.old }
    ensures own { IfSome (F.tree files.old) (λ tree. AnswersModule result (λ said. own_module tree dir.now ≡ said)) }
{
    let path = join(alloc, dir, "go.mod")?;
    let Some(bytes) = read_whole(alloc, files, path.as_str())? else {
        return Ok(None);
    };
    match read_go_mod(bytes.as_slice()) {
        Ok(said) => Ok(Some(Module {
            dir: String::from_str(alloc, dir)?,
            path: String::from_str(alloc, said.path)?,
            minor: said.minor,
        })),
        Err(fault) => Err(refuse_at(
            alloc,
            path.as_str(),
            bytes.as_slice(),
            fault.offset.min(bytes.len()),
            fault.rule,
        )),
    }
}
