//! Loading of a program.

ghost use Rattle.std.specs.Prelude.{◌≡◌, ◌≤◌, string_bytes, option_map, IfOk, IfErr, IfSome, IsErrOf, OnOk};
ghost use Rattle.go_base.specs.Devices.{HasFaulted};
ghost use Rattle.go_sources.specs.Sources.{files_of, AreTold};
ghost use Rattle.go_finding.specs.Modules.{view_module, RespectsGoMod};
ghost use Rattle.go_load.specs.Answers.{lone_project, max_program_bytes, HasStopped, IsAnswer, IsAnswerIn, IsLoaded};
ghost use Rattle.go_finding.specs.Refusals.{Stops};
ghost use Rattle.go_finding.specs.Projects.{no_import_path, path_of_target};
ghost use Rattle.go_load.specs.Starting.{AnswersProject, FindsTarget, Finishes, ListsTarget, LoadsRuntime};

use crate::loader::{Loader, MAX_PROGRAM_BYTES};
use crate::one_file::OneFile;
use go_base::{Files, NoMemory, Target, Text};
use go_finding::find_module::{Module, find_module};
use go_finding::{Found, LoadError, list_go_files, target_dir, target_path};
use go_sources::Sources;
use std::alloc::Global;

/// Loads the target and all that it imports.
pub fn load<F: Files>(alloc: Global, files: &mut F, target: &Target) -> Result<Sources, LoadError>
    ensures loaded { IfOk result (IsLoaded (F.tree files.old) target.now) }
    ensures stopped { IfErr result (HasStopped (F.tree files.old) target.now) }
    ensures fault { IsErrOf result LoadError.ReadFault → HasFaulted (F.faults files.old) (F.faults files.new) }
    ensures later { F.faults files.old ≤ F.faults files.new }
    ensures same { F.tree files.new ≡ F.tree files.old }
    ensures go_mod { IfSome (F.tree files.old) (λ tree. RespectsGoMod tree target.now result) }
    // Where files are told: the packages of the program in order, or the first rule that is broken.
    ensures exact { IfSome (F.tree files.old) (λ tree. IsAnswer tree target.now max_program_bytes result) }
{
    load_within(alloc, files, target, MAX_PROGRAM_BYTES)
}

/// Loads a program whose Go files have at most `limit` bytes together.
pub(crate) fn load_within<F: Files>(
    alloc: Global,
    files: &mut F,
    target: &Target,
    limit: usize,
) -> Result<Sources, LoadError>
    ensures told { IfOk result (λ sources. AreTold (F.tree files.old) (files_of sources)) }
    ensures why { IfErr result (Stops (F.tree files.old)) }
    ensures fault { IsErrOf result LoadError.ReadFault → HasFaulted (F.faults files.old) (F.faults files.new) }
    ensures later { F.faults files.old ≤ F.faults files.new }
    ensures same { F.tree files.new ≡ F.tree files.old }
    ensures go_mod { IfSome (F.tree files.old) (λ tree. RespectsGoMod tree target.now result) }
    ensures exact { IfSome (F.tree files.old) (λ tree. IsAnswer tree target.now limit result) }
{
    let module = find_module(alloc, files, target_dir(target))?;
    load_project(alloc, files, module, target, limit)
}

/// Loads a program whose target belongs to this module.
fn load_project<F: Files>(
    alloc: Global,
    files: &mut F,
    root: Option<Module>,
    target: &Target,
    limit: usize,
) -> Result<Sources, LoadError>
    ensures told { IfOk result (λ sources. AreTold (F.tree files.old) (files_of sources)) }
    ensures why { IfErr result (Stops (F.tree files.old)) }
    ensures fault { IsErrOf result LoadError.ReadFault → HasFaulted (F.faults files.old) (F.faults files.new) }
    ensures later { F.faults files.old ≤ F.faults files.new }
    ensures same { F.tree files.new ≡ F.tree files.old }
    ensures exact { IfSome (F.tree files.old) (λ tree. AnswersProject tree root target.now limit result) }
{
    let found = find_target(alloc, files, root, target)?;
    let path = Text::new(alloc, target_path(target))?;
    finish(files, Loader::new(alloc, path, found, limit))
}

/// Loads a program of one file, which lies in no module, from its bytes. `name` is the path of the file.
pub fn from_text(alloc: Global, name: &str, bytes: &[u8]) -> Result<Sources, LoadError>
    ensures no_fault { IsErrOf result LoadError.ReadFault → ⊥ }
    // The program that one file makes, or the first rule that it breaks.
    ensures exact { IsAnswerIn (lone_project name.now bytes.now) result }
{
    let target = Target::File(Text::new(alloc, name)?);
    let mut files = OneFile { path: name, bytes };
    load_project(alloc, &mut files, None, &target, MAX_PROGRAM_BYTES)
}

/// The package of the target, which is found first.
fn find_target<F: Files>(
    alloc: Global,
    files: &mut F,
    root: Option<Module>,
    target: &Target,
) -> Result<Found, LoadError>
    ensures exact { IfSome (F.tree files.old) (λ tree. FindsTarget tree root target.now result) }
    ensures why { IfErr result (Stops (F.tree files.old)) }
    ensures fault { IsErrOf result LoadError.ReadFault → HasFaulted (F.faults files.old) (F.faults files.new) }
    ensures later { F.faults files.old ≤ F.faults files.new }
    ensures same { F.tree files.new ≡ F.tree files.old }
{
    let paths = target_files(alloc, files, target)?;
    let path = package_path(alloc, &root, target)?;
    Ok(Found::new(alloc, root, path.as_str(), paths)?)
}

/// The paths of the files of the target.
fn target_files<F: Files>(
    alloc: Global,
    files: &mut F,
    target: &Target,
) -> Result<Vec<String>, LoadError>
    ensures exact { IfSome (F.tree files.old) (λ tree. ListsTarget tree target.now result) }
    ensures why { IfErr result (Stops (F.tree files.old)) }
    ensures fault { IsErrOf result LoadError.ReadFault → HasFaulted (F.faults files.old) (F.faults files.new) }
    ensures later { F.faults files.old ≤ F.faults files.new }
    ensures same { F.tree files.new ≡ F.tree files.old }
{
    match target {
        Target::Dir(dir) => list_go_files(alloc, files, dir.as_str()),
        Target::File(file) => {
            let mut paths = Vec::new(alloc);
            paths.push(String::from_str(alloc, file.as_str())?)?;
            Ok(paths)
        }
    }
}

/// The path of the package of the target.
fn package_path(alloc: Global, root: &Option<Module>, target: &Target) -> Result<String, NoMemory>
    ensures { IfOk result (λ path. string_bytes path ≡ path_of_target (option_map view_module root.now) target.now) }
{
    match target {
        Target::File(_) => no_import_path(alloc),
        Target::Dir(dir) => match root {
            Some(root) => root.path_of(alloc, dir.as_str()),
            None => no_import_path(alloc),
        },
    }
}

/// The path of a package that has no import path.
fn no_import_path(alloc: Global) -> Result<String, NoMemory>
    ensures { IfOk result (λ path. string_bytes path ≡ no_import_path) }
{
    Ok(String::from_str(alloc, "command-line-arguments")?)
}

/// Loads the packages that are found, and `runtime`.
fn finish<F: Files>(files: &mut F, loader: Loader) -> Result<Sources, LoadError>
    ensures exact { IfSome (F.tree files.old) (λ tree. Finishes tree loader result) }
    ensures told { IfOk result (λ sources. AreTold (F.tree files.old) loader.files.items → AreTold (F.tree files.old) (files_of sources)) }
    ensures why { IfErr result (Stops (F.tree files.old)) }
    ensures fault { IsErrOf result LoadError.ReadFault → HasFaulted (F.faults files.old) (F.faults files.new) }
    ensures later { F.faults files.old ≤ F.faults files.new }
    ensures same { F.tree files.new ≡ F.tree files.old }
{
    let mut loader = loader;
    loader.load_queue(files)?;
    loader.check_imports()?;
    load_runtime(files, &mut loader)?;
    Ok(loader.into_sources()?)
}

/// Loads the package `runtime`, unless it was imported.
fn load_runtime<F: Files>(files: &mut F, loader: &mut Loader) -> Result<(), LoadError>
    ensures exact { IfSome (F.tree files.old) (λ tree. LoadsRuntime tree loader.old loader.new result) }
    ensures told { OnOk result (AreTold (F.tree files.old) loader.old.files.items → AreTold (F.tree files.old) loader.new.files.items) }
    ensures why { IfErr result (Stops (F.tree files.old)) }
    ensures fault { IsErrOf result LoadError.ReadFault → HasFaulted (F.faults files.old) (F.faults files.new) }
    ensures later { F.faults files.old ≤ F.faults files.new }
    ensures same { F.tree files.new ≡ F.tree files.old }
{
    if !loader.found.add_runtime()? {
        return Ok(());
    }
    let last = loader.found.entries.len() - 1;
    loader.load_package(files, last)
}
