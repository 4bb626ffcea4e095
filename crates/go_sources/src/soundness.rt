//! What holds of every program that was loaded.

ghost use Rattle.std.specs.Prelude.{◌≡◌, ◌≤◌, ◌<◌, ◌+◌, ◌↔◌, ◌++◌, ℕ, All, IfOk, OnOk, IfSome, IsSomeAnd, IsTrue, slice_get, Some};
ghost use Rattle.std.specs.Option.{option_copied};
ghost use Rattle.import_graph.specs.Cycles.{IsOnCycle};
ghost use Rattle.go_sources.specs.BuiltIns.{built_in_text};
ghost use Rattle.go_sources.specs.declared.built_in.BuiltIn.TheVariants.{Runtime};
ghost use Rattle.go_sources.specs.Soundness.{edges_of_file, import_edges, imports_in, AreFirst, AreInOrder, ArePlaced, AreSources, HaveRuntime, IsPlaced, IsRuntime};

use crate::built_in::BuiltIn;
use crate::sources::{Import, SourceFile, SourcePackage};
use go_base::NoMemory;
use import_graph::{Edge, first_on_cycle};
use std::alloc::Global;

/// Whether files, packages and the imports of files are a program.
pub fn are_sources(
    alloc: Global,
    files: &[SourceFile],
    packages: &[SourcePackage],
    imports: &[Vec<Import>],
) -> Result<bool, NoMemory>
    ensures { IfOk result (λ sound. IsTrue sound → AreSources files.now packages.now imports.now) }
{
    if imports.len() != files.len()
        || !are_in_order(files, packages)
        || !have_runtime(files, packages)
    {
        return Ok(false);
    }
    let edges = import_edges(alloc, files, imports)?;
    if !are_of_packages(edges.as_slice(), packages.len()) {
        return Ok(false);
    }
    has_no_cycle(alloc, edges.as_slice())
}

/// Whether the files of each package stand together, in the order of packages.
fn are_in_order(files: &[SourceFile], packages: &[SourcePackage]) -> bool
    ensures { IsTrue result → AreInOrder files.now packages.now }
{
    are_placed(files, packages) && are_first(files, packages)
}

/// Whether each file stands among those of its package.
fn are_placed(files: &[SourceFile], packages: &[SourcePackage]) -> bool
    ensures { IsTrue result → ArePlaced packages.now files.now }
{
    'files: for (index, file) in files.iter().enumerate() {
        if !is_placed(packages, index, file.package) {
            return false;
        }
    }
    true
}

/// Whether a file stands among those of the package with a number.
fn is_placed(packages: &[SourcePackage], file: usize, number: u32) -> bool
    ensures { IsTrue result → IsPlaced packages.now file number }
{
    let number = number as usize;
    begins_by(packages.get(number), file) && begins_behind(packages.get(number + 1), file)
}

/// Whether there is this package, and a file does not stand before its first.
fn begins_by(one: Option<&SourcePackage>, file: usize) -> bool
    ensures { IsTrue result → IsSomeAnd (option_copied one.entry) (λ one. one.first_file ≤ file) }
{
    match one {
        Some(one) => one.first_file as usize <= file,
        None => false,
    }
}

/// Whether a file stands before the first of this package, if there is one.
fn begins_behind(next: Option<&SourcePackage>, file: usize) -> bool
    ensures { IsTrue result → IfSome (option_copied next.entry) (λ next. file < next.first_file) }
{
    match next {
        Some(next) => file < next.first_file as usize,
        None => true,
    }
}

/// Whether the first file of each package is one of its files.
fn are_first(files: &[SourceFile], packages: &[SourcePackage]) -> bool
    ensures { IsTrue result → AreFirst files.now packages.now }
{
    'packages: for (index, one) in packages.iter().enumerate() {
        if !is_of(files.get(one.first_file as usize), index) {
            return false;
        }
    }
    true
}

/// Whether there is this file, and it is one of the package with a number.
fn is_of(file: Option<&SourceFile>, number: usize) -> bool
    ensures { IsTrue result → IsSomeAnd (option_copied file.entry) (λ file. file.package ≡ number) }
{
    match file {
        Some(file) => file.package as usize == number,
        None => false,
    }
}

/// Whether one of the packages is `runtime`.
fn have_runtime(files: &[SourceFile], packages: &[SourcePackage]) -> bool
    ensures { IsTrue result → HaveRuntime files.now packages.now }
{
    'packages: for one in packages {
        if is_runtime(files, one) {
            return true;
        }
    }
    false
}

/// Whether a package is `runtime`.
fn is_runtime(files: &[SourceFile], one: &SourcePackage) -> bool
    ensures { IsTrue result → IsRuntime files.now one.now }
{
    one.path.as_str() == "runtime" && has_runtime_text(file_at(files, one.first_file))
}

/// The file with a number.
fn file_at(files: &[SourceFile], number: u32) -> Option<&SourceFile>
    ensures { option_copied result ≡ slice_get files.now number }
{
    files.get(number as usize)
}

/// Whether there is this file, and it has the text of `runtime`.
fn has_runtime_text(file: Option<&SourceFile>) -> bool
    ensures { IsTrue result → IsSomeAnd (option_copied file.entry) (λ file. file.bytes ≡ built_in_text Runtime) }
{
    match file {
        Some(file) => file.bytes.as_slice() == BuiltIn::Runtime.text().as_bytes(),
        None => false,
    }
}

/// All imports, each from package to package.
fn import_edges(
    alloc: Global,
    files: &[SourceFile],
    imports: &[Vec<Import>],
) -> Result<Vec<Edge>, NoMemory>
    ensures { IfOk result (λ edges. edges.items ≡ import_edges files.now imports.now) }
{
    let mut edges = Vec::new(alloc);
    'files: for (index, file) in files.iter().enumerate() {
        push_edges(&mut edges, file.package, imports_in(imports, index))?;
    }
    Ok(edges)
}

/// The imports of the file with a number.
pub fn imports_in(imports: &[Vec<Import>], number: usize) -> &[Import]
    ensures { result.now ≡ imports_in imports.now number }
{
    match imports.get(number) {
        Some(imports) => imports.as_slice(),
        None => &[],
    }
}

/// Adds the imports of a file of the package with this number.
fn push_edges(edges: &mut Vec<Edge>, number: u32, imports: &[Import]) -> Result<(), NoMemory>
    ensures { OnOk result (edges.new.items ≡ edges.old.items ++ edges_of_file number imports.now) }
{
    'imports: for import in imports {
        edges.push(Edge {
            from: number,
            to: import.package,
        })?;
    }
    Ok(())
}

/// Whether all ends are numbers of so many packages.
fn are_of_packages(edges: &[Edge], count: usize) -> bool
    ensures { IsTrue result → All (λ edge. edge.to < count) edges.now }
{
    edges.iter().all(|edge| (edge.to as usize) < count)
}

/// Whether no edge is on a cycle.
fn has_no_cycle(alloc: Global, edges: &[Edge]) -> Result<bool, NoMemory>
    ensures { IfOk result (λ none. IsTrue none → All (λ edge. ¬ IsOnCycle edges.now edge) edges.now) }
{
    match first_on_cycle(alloc, edges)? {
        Some(_) => Ok(false),
        None => Ok(true),
    }
}
