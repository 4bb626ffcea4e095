//! A program that was loaded.

ghost use Rattle.std.specs.Prelude.{◌≡◌, length, IfOk, slice_get};
ghost use Rattle.std.specs.Option.{option_copied};
ghost use Rattle.go_sources.specs.Soundness.{AreSources};

use crate::places::place_at;
use crate::soundness::{are_sources, imports_in};
use crate::sources::{Import, SourceFile, SourcePackage};
use crate::versions::version_under;
use go_base::{NoMemory, Place, Pos};
use std::alloc::Global;

/// A program that was loaded: its packages in the order in which they were found, and their files in that order.
#[derive(Drop)]
pub struct Sources {
    files: Vec<SourceFile>,
    packages: Vec<SourcePackage>,
    /// For each file its imports, in order.
    imports: Vec<Vec<Import>>,
    /// The N of Go 1.N.
    minor: u32,
    // Each package has files, which stand together; no import is on a cycle; `runtime` is one of the packages.
    pub ghost sound: { ∥ AreSources files.items packages.items imports.items ∥₁ },
}

impl Sources {
    ghost use Rattle.go_sources.specs.Sources.{files_of, packages_of, imports_at, version_of};
    ghost use Rattle.go_sources.specs.Loaded.{IsWithin, Locates};

    /// The program of these parts, which are sound.
    pub fn new(
        alloc: Global,
        files: Vec<SourceFile>,
        packages: Vec<SourcePackage>,
        imports: Vec<Vec<Import>>,
        minor: u32,
    ) -> Result<Sources, NoMemory>
        ensures files { IfOk result (λ sources. files_of sources ≡ files.items) }
        ensures packages { IfOk result (λ sources. packages_of sources ≡ packages.items) }
        ensures imports { IfOk result (λ sources. sources.imports.items ≡ imports.items) }
        ensures minor { IfOk result (λ sources. sources.minor ≡ minor) }
    {
        let sound = are_sources(
            alloc,
            files.as_slice(),
            packages.as_slice(),
            imports.as_slice(),
        )?;
        if !sound {
            return Err(lost());
        }
        Ok(Sources {
            files,
            packages,
            imports,
            minor,
        })
    }

    /// How many packages there are.
    pub fn package_count(&self) -> usize
        ensures { result ≡ length (packages_of self.now) }
    {
        self.packages.len()
    }

    /// The package with a number, from 0. None exactly where there is no such package.
    pub fn package(&self, number: u32) -> Option<&SourcePackage>
        ensures { option_copied result ≡ slice_get (packages_of self.now) number }
    {
        self.packages.get(number as usize)
    }

    /// How many files there are.
    pub fn file_count(&self) -> usize
        ensures { result ≡ length (files_of self.now) }
    {
        self.files.len()
    }

    /// The file with a number, from 0. None exactly where there is no such file.
    pub fn file(&self, number: u32) -> Option<&SourceFile>
        ensures { option_copied result ≡ slice_get (files_of self.now) number }
    {
        self.files.get(number as usize)
    }

    /// The imports of a file, in order; none where there is no such file.
    pub fn imports(&self, file: u32) -> &[Import]
        ensures { result.now ≡ imports_at self.now file }
    {
        imports_in(self.imports.as_slice(), file as usize)
    }

    /// The N of Go 1.N, whose rules the package with a number follows: a built-in one those of the newest version, any
    /// other those that go.mod names.
    pub fn version(&self, number: u32) -> u32
        ensures { result ≡ version_of self.now number }
    {
        match self.packages.get(number as usize) {
            Some(package) => version_under(package.built_in, self.minor),
            None => self.minor,
        }
    }

    /// A place as users see it.
    pub fn place(&self, alloc: Global, pos: Pos) -> Result<Place, NoMemory>
        requires { IsWithin (files_of self.now) pos }
        ensures { IfOk result (Locates (files_of self.now) pos) }
    {
        let file = &self.files[pos.file as usize];
        place_at(
            alloc,
            file.path.as_str(),
            file.bytes.as_slice(),
            pos.offset as usize,
        )
    }
}

/// What is answered in a case that cannot come, which is not proved yet.
fn lost() -> NoMemory {
    NoMemory
}
