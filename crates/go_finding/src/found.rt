//! The packages that a program has, in the order in which they are found.

ghost use Rattle.std.specs.Prelude.{◌≡◌, ◌≤◌, ◌<◌, ◌+◌, [], length, map, option_map, string_bytes, IfOk, IfErr, IfSome, IsErrOf, IsTrue, OnOk};
ghost use Rattle.go_base.specs.Devices.{HasFaulted};
ghost use Rattle.go_finding.specs.Entries.{dir_in, AddsEntry, FindsDirectory, IsNumbered, JoinsBuiltIn, RuntimeFound};
ghost use Rattle.go_finding.specs.Finding.{listed, BeginsWith, FindsPackage, FindsImport, FindsImports, FindsAll};
ghost use Rattle.go_finding.specs.Linking.{FindsImportsOf};
ghost use Rattle.go_finding.specs.Refusals.{Stops};

use crate::error::LoadError;
use crate::file_bytes::refuse_in;
use crate::find_module::Module;
use crate::import_paths::{import_literals, import_path};
use crate::listing::list_go_files;
use go_ast::Token;
use go_base::{Files, Names, NoMemory, Pos, Rule};
use go_sources::{BuiltIn, Import, SourceFile};
use std::alloc::Global;

/// Where the files of a package come from.
#[derive(Drop)]
pub enum Origin {
    /// Files at these paths, in order.
    Paths(Vec<String>),
    BuiltIn(BuiltIn),
}

/// A package that was found.
#[derive(Drop)]
pub struct Entry {
    pub path: String,
    pub origin: Origin,
    /// The path literal of the import that asked for it first. None for the target, and for what is always loaded.
    pub asker: Option<Pos>,
}

impl Entry {
    ghost use Rattle.go_finding.specs.Finding.{view_origin};
    ghost use Rattle.go_finding.specs.Projects.{is_built_in};

    /// Whether the package is built in.
    pub fn is_built_in(&self) -> bool
        ensures { result ≡ is_built_in (view_origin self.now.origin) }
    {
        matches!(&self.origin, Origin::BuiltIn(_))
    }
}

/// The packages that were found: first the target, then each that an import names, in the order in which they are met.
#[derive(Drop)]
pub struct Found {
    pub alloc: Global,
    /// The module to which the target belongs.
    pub root: Option<Module>,
    /// Their paths. The number of a package is that of its path.
    pub paths: Names,
    pub entries: Vec<Entry>,
}

/// The number of what comes behind `count` others. A program has fewer files and packages than bytes, so they have
/// numbers.
pub fn number_after(count: usize) -> Result<u32, NoMemory>
    ensures { IfOk result (λ number. number ≡ count) }
{
    match u32::try_from(count) {
        Ok(number) => Ok(number),
        Err(_) => Err(NoMemory),
    }
}

impl Found {
    /// The target, whose package has this path, and its files.
    pub fn new(
        alloc: Global,
        root: Option<Module>,
        path: &str,
        files: Vec<String>,
    ) -> Result<Found, NoMemory>
        ensures { IfOk result (λ found. BeginsWith root path.now files found) }
    {
        let mut paths = Names::new(alloc);
        paths.intern(path)?;
        let mut entries = Vec::new(alloc);
        entries.push(Entry {
            path: String::from_str(alloc, path)?,
            origin: Origin::Paths(files),
            asker: None,
        })?;
        Ok(Found {
            alloc,
            root,
            paths,
            entries,
        })
    }

    /// The number of the package that has an import path; the next, where it is not among those found.
    pub fn number_of(&mut self, path: &str) -> Result<u32, NoMemory>
        ensures { IfOk result (IsNumbered self.old self.new path.now) }
    {
        let id = self.paths.intern(path)?;
        match u32::try_from(id.number) {
            Ok(number) => Ok(number),
            Err(_) => Err(NoMemory),
        }
    }

    /// Finds the packages that the files of the package with this number import, of which the first has the number `first`:
    /// for each file its imports. A built-in package has none.
    pub fn find_imports_of<F: Files>(
        &mut self,
        files: &mut F,
        number: usize,
        sources: &[SourceFile],
        first: usize,
    ) -> Result<Vec<Vec<Import>>, LoadError>
        requires { number < length self.old.entries.items }
        ensures fault { IsErrOf result LoadError.ReadFault → HasFaulted (F.faults files.old) (F.faults files.new) }
        ensures later { F.faults files.old ≤ F.faults files.new }
        ensures why { IfErr result (Stops (F.tree files.old)) }
        ensures same { F.tree files.new ≡ F.tree files.old }
        ensures told { IfSome (F.tree files.old) (λ tree. FindsImportsOf tree number self.old self.new sources.now result) }
    {
        if self.entries[number].is_built_in() {
            return Ok(no_imports(self.alloc, sources)?);
        }
        self.find_all(files, sources, first)
    }

    /// Finds the packages that the files of a package import, of which the first has the number `first`: for each file its
    /// imports.
    fn find_all<F: Files>(
        &mut self,
        files: &mut F,
        sources: &[SourceFile],
        first: usize,
    ) -> Result<Vec<Vec<Import>>, LoadError>
        ensures fault { IsErrOf result LoadError.ReadFault → HasFaulted (F.faults files.old) (F.faults files.new) }
        ensures later { F.faults files.old ≤ F.faults files.new }
        ensures why { IfErr result (Stops (F.tree files.old)) }
        ensures same { F.tree files.new ≡ F.tree files.old }
        ensures told { IfSome (F.tree files.old) (λ tree. FindsAll tree self.old self.new sources.now result) }
    {
        let mut all = Vec::new(self.alloc);
        'files: for (index, source) in sources.iter().enumerate() {
            let imports = self.find_imports(files, source, first.saturating_add(index))?;
            all.push(imports)?;
        }
        Ok(all)
    }

    /// Finds the packages that a file imports.
    fn find_imports<F: Files>(
        &mut self,
        files: &mut F,
        source: &SourceFile,
        file: usize,
    ) -> Result<Vec<Import>, LoadError>
        ensures fault { IsErrOf result LoadError.ReadFault → HasFaulted (F.faults files.old) (F.faults files.new) }
        ensures later { F.faults files.old ≤ F.faults files.new }
        ensures why { IfErr result (Stops (F.tree files.old)) }
        ensures same { F.tree files.new ≡ F.tree files.old }
        ensures told { IfSome (F.tree files.old) (λ tree. FindsImports tree self.old self.new source.now result) }
    {
        let literals = import_literals(self.alloc, &source.tree)?;
        let mut imports = Vec::new(self.alloc);
        'literals: for literal in literals.as_slice() {
            let package = self.find_import(files, source, file, *literal)?;
            imports.push(Import {
                literal: *literal,
                package,
            })?;
        }
        Ok(imports)
    }

    /// The number of the package that an import of a file names.
    fn find_import<F: Files>(
        &mut self,
        files: &mut F,
        source: &SourceFile,
        file: usize,
        literal: Token,
    ) -> Result<u32, LoadError>
        ensures fault { IsErrOf result LoadError.ReadFault → HasFaulted (F.faults files.old) (F.faults files.new) }
        ensures later { F.faults files.old ≤ F.faults files.new }
        ensures why { IfErr result (Stops (F.tree files.old)) }
        ensures same { F.tree files.new ≡ F.tree files.old }
        ensures told { IfSome (F.tree files.old) (λ tree. FindsImport tree self.old self.new source.now literal result) }
    {
        let asker = Pos {
            file: number_after(file)?,
            offset: literal.start,
        };
        let Some(path) = import_path(self.alloc, source, literal)? else {
            return Err(refuse_in(self.alloc, source, literal.start, Rule::NoSuchPackage));
        };
        match self.find_package(files, path.as_str(), asker)? {
            Some(package) => Ok(package),
            None => Err(refuse_in(self.alloc, source, literal.start, Rule::NoSuchPackage)),
        }
    }

    /// The number of the package that has an import path. None where there is none.
    fn find_package<F: Files>(
        &mut self,
        files: &mut F,
        path: &str,
        asker: Pos,
    ) -> Result<Option<u32>, LoadError>
        ensures fault { IsErrOf result LoadError.ReadFault → HasFaulted (F.faults files.old) (F.faults files.new) }
        ensures later { F.faults files.old ≤ F.faults files.new }
        ensures why { IfErr result (Stops (F.tree files.old)) }
        ensures same { F.tree files.new ≡ F.tree files.old }
        ensures told { IfSome (F.tree files.old) (λ tree. FindsPackage tree self.old self.new path.now result) }
    {
        if let Some(built_in) = BuiltIn::named(path) {
            let number = self.add_built_in(path, built_in, Some(asker))?;
            return Ok(Some(number));
        }
        match self.dir_of(path)? {
            Some(dir) => self.find_directory(files, path, dir.as_str(), asker),
            None => Ok(None),
        }
    }

    /// The number of a built-in package, which is added where it is not among those found.
    fn add_built_in(
        &mut self,
        path: &str,
        built_in: BuiltIn,
        asker: Option<Pos>,
    ) -> Result<u32, NoMemory>
        ensures joins { IfOk result (JoinsBuiltIn built_in self.old self.new path.now) }
        ensures last { IfOk result (λ number. length self.old.entries.items ≤ number → length self.new.entries.items ≡ length self.old.entries.items + 1) }
    {
        let number = self.number_of(path)?;
        if (number as usize) >= self.entries.len() {
            self.push(path, Origin::BuiltIn(built_in), asker)?;
        }
        Ok(number)
    }

    /// Adds the package `runtime` where it is not among those found: whether it was added.
    pub fn add_runtime(&mut self) -> Result<bool, NoMemory>
        ensures last { IfOk result (λ added. IsTrue added → length self.new.entries.items ≡ length self.old.entries.items + 1) }
        ensures exact { IfOk result (RuntimeFound self.old self.new) }
    {
        let count = self.entries.len();
        let number = self.add_built_in("runtime", BuiltIn::Runtime, None)?;
        Ok((number as usize) >= count)
    }

    /// Adds what is found behind the last package.
    fn push(&mut self, path: &str, origin: Origin, asker: Option<Pos>) -> Result<(), NoMemory>
        ensures { OnOk result (AddsEntry self.old self.new path.now origin asker) }
    {
        let path = String::from_str(self.alloc, path)?;
        self.entries.push(Entry {
            path,
            origin,
            asker,
        })?;
        Ok(())
    }

    /// The number of a package of the module, which is added where it is not among those found. None where its directory
    /// has no Go files.
    fn find_directory<F: Files>(
        &mut self,
        files: &mut F,
        path: &str,
        dir: &str,
        asker: Pos,
    ) -> Result<Option<u32>, LoadError>
        ensures fault { IsErrOf result LoadError.ReadFault → HasFaulted (F.faults files.old) (F.faults files.new) }
        ensures later { F.faults files.old ≤ F.faults files.new }
        ensures why { IfErr result (Stops (F.tree files.old)) }
        ensures same { F.tree files.new ≡ F.tree files.old }
        ensures told { IfSome (F.tree files.old) (λ tree. FindsDirectory tree self.old self.new path.now dir.now result) }
    {
        let number = self.number_of(path)?;
        if (number as usize) < self.entries.len() {
            return Ok(Some(number));
        }
        let paths = list_go_files(self.alloc, files, dir)?;
        if paths.is_empty() {
            return Ok(None);
        }
        self.push(path, Origin::Paths(paths), Some(asker))?;
        Ok(Some(number))
    }

    /// The directory that an import path names.
    fn dir_of(&self, path: &str) -> Result<Option<String>, NoMemory>
        ensures { IfOk result (λ dir. option_map string_bytes dir ≡ dir_in self.now.root path.now) }
    {
        match &self.root {
            Some(module) => module.dir_of(self.alloc, path),
            None => Ok(None),
        }
    }
}

/// No imports for each file.
fn no_imports(alloc: Global, files: &[SourceFile]) -> Result<Vec<Vec<Import>>, NoMemory>
    ensures { IfOk result (λ all. listed all.items ≡ map (λ file. []) files.now) }
{
    let mut imports = Vec::new(alloc);
    'files: for _file in files {
        imports.push(Vec::new(alloc))?;
    }
    Ok(imports)
}
