//! The loading of packages, one after another.

ghost use Rattle.std.specs.Prelude.{◌≡◌, ◌≢◌, ◌≤◌, ◌<◌, ◌-◌, ◌==◌, ◌&&◌, codes, [], length, map, min, if◌then◌else◌, slice_get, option_map, Option, IfOk, IfErr, IfSome, OnOk, IsErrOf};
ghost use Rattle.std.specs.List.{sum_by};
ghost use Rattle.go_base.specs.Devices.{HasFaulted, Tree};
ghost use Rattle.go_base.specs.declared.place.Place.{Place};
ghost use Rattle.go_sources.specs.Places.{place_in};
ghost use Rattle.go_sources.specs.Sources.{files_of, packages_of, AreTold};
ghost use Rattle.go_load.specs.Loading.{LoadsFiles, LoadsPackage, LoadsQueue, AddsPackage, Checks, ChecksFiles, minor_of, told_package};
ghost use Rattle.go_finding.specs.Linking.{IfEntry};
ghost use Rattle.go_load.specs.FileReading.{AreOf};
ghost use Rattle.go_finding.specs.Finding.{view_file};
ghost use Rattle.go_finding.specs.Modules.{view_module};
ghost use Rattle.go_finding.specs.Places.{first_place, Refuses};
ghost use Rattle.go_finding.specs.Programs.{are_program, name_of, other_name};
ghost use Rattle.go_finding.specs.Refusals.{Justifies, Stops};

use crate::package_files::{Slot, read_built_in, read_paths};
use go_base::{Files, NoMemory, Pos, Rule, Text};
use go_finding::find_module::Module;
use go_finding::{
    Entry, Found, Link, LoadError, Origin, number_after, push_links, refuse_first, refuse_in,
};
use go_sources::{Import, NEWEST_MINOR, SourceFile, SourcePackage, Sources};
use std::alloc::Global;

/// The most bytes that all Go files together may have.
pub const MAX_PROGRAM_BYTES: usize = 67108864;

/// The most packages that a program can have: each but a built-in one has a file that is not empty.
const MAX_PACKAGES: usize = 67108868;

/// How far a program is loaded.
#[derive(Drop)]
pub struct Loader {
    pub alloc: Global,
    /// The path of the target.
    pub target: Text,
    pub found: Found,
    pub files: Vec<SourceFile>,
    pub packages: Vec<SourcePackage>,
    /// For each file its imports, in order.
    pub imports: Vec<Vec<Import>>,
    /// All imports, in order.
    pub links: Vec<Link>,
    /// For each package whether it is named main.
    pub programs: Vec<bool>,
    /// How many bytes more the Go files may have.
    pub left: usize,
}

impl Loader {
    /// Nothing is loaded yet. All Go files together may have `limit` bytes.
    pub fn new(alloc: Global, target: Text, found: Found, limit: usize) -> Loader
        ensures found { result.found ≡ found }
        ensures target { result.target ≡ target }
        ensures files { result.files.items ≡ [] }
        ensures packages { result.packages.items ≡ [] }
        ensures imports { result.imports.items ≡ [] }
        ensures links { result.links.items ≡ [] }
        ensures programs { result.programs.items ≡ [] }
        ensures left { result.left ≡ limit }
    {
        Loader {
            alloc,
            target,
            found,
            files: Vec::new(alloc),
            packages: Vec::new(alloc),
            imports: Vec::new(alloc),
            links: Vec::new(alloc),
            programs: Vec::new(alloc),
            left: limit,
        }
    }

    /// All that was loaded.
    pub fn into_sources(self) -> Result<Sources, NoMemory>
        ensures files { IfOk result (λ sources. files_of sources ≡ self.files.items) }
        ensures packages { IfOk result (λ sources. packages_of sources ≡ self.packages.items) }
        ensures imports { IfOk result (λ sources. sources.imports.items ≡ self.imports.items) }
        ensures minor { IfOk result (λ sources. sources.minor ≡ minor_of (option_map view_module self.found.root)) }
    {
        let minor = minor_version_of(&self.found.root);
        Sources::new(self.alloc, self.files, self.packages, self.imports, minor)
    }

    /// Loads the packages that were found, and those that they import.
    pub fn load_queue<F: Files>(&mut self, files: &mut F) -> Result<(), LoadError>
        ensures fault { IsErrOf result LoadError.ReadFault → HasFaulted (F.faults files.old) (F.faults files.new) }
        ensures later { F.faults files.old ≤ F.faults files.new }
        ensures why { IfErr result (Stops (F.tree files.old)) }
        ensures told { OnOk result (AreTold (F.tree files.old) self.old.files.items → AreTold (F.tree files.old) self.new.files.items) }
        ensures same { F.tree files.new ≡ F.tree files.old }
        ensures exact { IfSome (F.tree files.old) (λ tree. LoadsQueue tree self.old self.new result) }
    {
        'packages: for _ in 0..MAX_PACKAGES {
            let number = self.packages.len();
            if number >= self.found.entries.len() {
                return Ok(());
            }
            self.load_package(files, number)?;
        }
        Err(LoadError::OutOfMemory)
    }

    /// Loads the package with this number, and finds those that it imports.
    pub fn load_package<F: Files>(&mut self, files: &mut F, number: usize) -> Result<(), LoadError>
        requires { number < length self.old.found.entries.items }
        ensures fault { IsErrOf result LoadError.ReadFault → HasFaulted (F.faults files.old) (F.faults files.new) }
        ensures later { F.faults files.old ≤ F.faults files.new }
        ensures why { IfErr result (Stops (F.tree files.old)) }
        ensures told { OnOk result (AreTold (F.tree files.old) self.old.files.items → AreTold (F.tree files.old) self.new.files.items) }
        ensures same { F.tree files.new ≡ F.tree files.old }
        ensures exact { IfSome (F.tree files.old) (λ tree. LoadsPackage tree number self.old self.new result) }
    {
        let sources = self.read_package(files, number)?;
        self.check_files(number, sources.as_slice())?;
        let package = self.package_of(number, sources.as_slice())?;
        let first = self.files.len();
        let imports = self
            .found
            .find_imports_of(files, number, sources.as_slice(), first)?;
        self.add_package(number, package, sources, imports)?;
        Ok(())
    }

    /// The files of a package.
    fn read_package<F: Files>(
        &self,
        files: &mut F,
        number: usize,
    ) -> Result<Vec<SourceFile>, LoadError>
        requires { number < length self.now.found.entries.items }
        ensures of { IfOk result (λ sources. AreOf number sources.items) }
        ensures fault { IsErrOf result LoadError.ReadFault → HasFaulted (F.faults files.old) (F.faults files.new) }
        ensures later { F.faults files.old ≤ F.faults files.new }
        ensures why { IfErr result (Stops (F.tree files.old)) }
        ensures told { IfOk result (λ sources. AreTold (F.tree files.old) sources.items) }
        ensures same { F.tree files.new ≡ F.tree files.old }
        ensures exact { IfSome (F.tree files.old) (λ tree. LoadsFiles tree number self.now result) }
    {
        let slot = Slot {
            package: number_after(number)?,
            first: self.files.len(),
        };
        match &self.found.entries[number].origin {
            Origin::Paths(paths) => {
                read_paths(self.alloc, files, paths.as_slice(), slot, self.left)
            }
            Origin::BuiltIn(built_in) => read_built_in(self.alloc, *built_in, slot),
        }
    }

    /// That a rule is broken at a place in a file that was loaded.
    pub fn refuse(&self, pos: Pos, rule: Rule) -> LoadError
        ensures no_fault { result ≢ LoadError.ReadFault }
        ensures why { (files : Option Tree) → ((place : Place) → Justifies files place rule) → Stops files result }
        ensures here { IfSome (slice_get self.now.files.items pos.file) (λ file. Refuses (place_in file.path file.bytes (min pos.offset (length file.bytes))) rule result) }
    {
        match self.files.get(pos.file as usize) {
            Some(file) => refuse_in(self.alloc, file, pos.offset, rule),
            None => LoadError::OutOfMemory,
        }
    }

    /// That a package has files, all of one package name.
    fn check_files(&self, number: usize, sources: &[SourceFile]) -> Result<(), LoadError>
        requires { number < length self.now.found.entries.items }
        ensures no_fault { IsErrOf result LoadError.ReadFault → ⊥ }
        ensures why { IfErr result (λ error. (files : Option Tree) → Stops files error) }
        ensures exact { ChecksFiles number self.now sources.now result }
    {
        match sources {
            [] => Err(self.refuse_empty(number)),
            [head, others @ ..] => check_names(self.alloc, head, others),
        }
    }

    /// That a package has no files.
    fn refuse_empty(&self, number: usize) -> LoadError
        requires { number < length self.now.found.entries.items }
        ensures no_fault { result ≢ LoadError.ReadFault }
        ensures why { (files : Option Tree) → Stops files result }
        ensures here { IfEntry self.now.found number (λ entry. entry.asker ≡ None → Refuses (first_place self.now.target) Rule.NoGoFiles result) }
    {
        match self.found.entries[number].asker {
            Some(pos) => self.refuse(pos, Rule::NoSuchPackage),
            None => refuse_first(self.alloc, self.target.as_str(), Rule::NoGoFiles),
        }
    }

    /// Adds a package, with its files and their imports.
    fn add_package(
        &mut self,
        number: usize,
        package: SourcePackage,
        sources: Vec<SourceFile>,
        imports: Vec<Vec<Import>>,
    ) -> Result<(), NoMemory>
        ensures { OnOk result (AddsPackage number «package» self.old self.new sources.items imports.items) }
    {
        let first = self.files.len();
        push_links(
            &mut self.links,
            number_after(number)?,
            first,
            imports.as_slice(),
        )?;
        self.programs.push(is_program(sources.as_slice()))?;
        self.left = left_behind(self.left, package.built_in, sources.as_slice());
        self.packages.push(package)?;
        let (mut sources, mut imports) = (sources, imports);
        self.files.append(&mut sources)?;
        self.imports.append(&mut imports)?;
        Ok(())
    }

    /// A package with these files, which are added next.
    fn package_of(&self, number: usize, sources: &[SourceFile]) -> Result<SourcePackage, NoMemory>
        requires { number < length self.now.found.entries.items }
        ensures { IfOk result (λ told. IfEntry self.now.found number (λ entry. told ≡ told_package number (length self.now.files.items) entry (map view_file sources.now))) }
    {
        let entry = &self.found.entries[number];
        let path = entry.path.as_str();
        let label = label_of(number, sources, path);
        Ok(SourcePackage {
            path: Text::new(self.alloc, path)?,
            label: Text::new(self.alloc, label)?,
            built_in: entry.is_built_in(),
            first_file: number_after(self.files.len())?,
        })
    }
}

/// The N of Go 1.N of a program whose target belongs to this module.
fn minor_version_of(root: &Option<Module>) -> u32
    ensures { result ≡ minor_of (option_map view_module root.now) }
{
    match root {
        Some(module) => module.minor,
        None => NEWEST_MINOR,
    }
}

/// How a package with these files and this path is told to users.
fn label_of<'a>(number: usize, sources: &[SourceFile], path: &'a str) -> &'a str
    ensures { result.now ≡ (if (number == 0) && are_program (map view_file sources.now) then codes "main" else path.now) }
{
    if number == 0 && is_program(sources) {
        return "main";
    }
    path
}

/// Whether files are those of a package named main.
fn is_program(sources: &[SourceFile]) -> bool
    ensures { result ≡ are_program (map view_file sources.now) }
{
    match sources {
        [] => false,
        [first, ..] => first.package_name() == b"main".as_slice(),
    }
}

/// How many bytes more files may have behind those of a package; those of a built-in one are not counted.
fn left_behind(left: usize, built_in: bool, sources: &[SourceFile]) -> usize
    ensures { result ≡ (if built_in then left else left - sum_by (λ file. length file.bytes) (map view_file sources.now)) }
{
    if built_in {
        return left;
    }
    left.saturating_sub(total_size(sources))
}

/// How many bytes files have together.
fn total_size(sources: &[SourceFile]) -> usize
    ensures { min (sum_by (λ file. length file.bytes) (map view_file sources.now)) usize.MAX ≡ result }
{
    let mut total = 0usize;
    'files: for source in sources {
        total = total.saturating_add(source.bytes.as_slice().len());
    }
    total
}

/// That the other files of a package have the package name of the first.
fn check_names(alloc: Global, head: &SourceFile, others: &[SourceFile]) -> Result<(), LoadError>
    ensures no_fault { IsErrOf result LoadError.ReadFault → ⊥ }
    ensures why { IfErr result (λ error. (files : Option Tree) → Stops files error) }
    ensures exact { Checks (other_name (name_of (view_file head.now)) (map view_file others.now)) result }
{
    'files: for file in others {
        if file.package_name() != head.package_name() {
            let at = file.tree.name.start;
            return Err(refuse_in(alloc, file, at, Rule::SecondPackageName));
        }
    }
    Ok(())
}
