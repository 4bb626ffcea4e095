//! The packages of a program. Go specification, "Packages".

ghost use Rattle.std.specs.Prelude.{◌≡◌, ◌==◌, ◌++◌, ◌∷◌, [], length, OnOk, OnErr};

use go_base::{NoMemory, Text};
use std::alloc::Global;
use std::marker::Model;

/// A package of a program. Its number is its place in the order in which packages are initialised.
#[derive(Drop)]
pub struct Package {
    /// Its import path; `command-line-arguments` for a target that has none.
    pub path: Text,
    /// `main` for a target of that name, else its path.
    pub label: Text,
    pub built_in: bool,
    /// The number of its first file among the sources.
    pub first_file: u32,
}

/// Packages, in the order in which they are initialised.
#[derive(Drop)]
pub struct Packages {
    items: Vec<Package>,
}

impl Model for Packages {
    ghost use Rattle.std.specs.Prelude.{List};
    ghost use Rattle.go_tree.specs.declared.packages.Package.{Package};

    ghost Value = { List Package };

    ghost view = { λ l. l.items.items };
}

impl Packages {
    /// No packages.
    pub fn new(alloc: Global) -> Packages
        ensures { result ≡ [] }
    {
        Packages {
            items: Vec::new(alloc),
        }
    }

    /// Adds a package at the end. After `NoMemory` the list is as before.
    pub fn push(&mut self, item: Package) -> Result<(), NoMemory>
        ensures ok { OnOk result (self.new ≡ self.old ++ item ∷ []) }
        ensures err { OnErr result (self.new ≡ self.old) }
    {
        self.items.push(item)?;
        Ok(())
    }

    /// The packages themselves.
    pub fn as_slice(&self) -> &[Package]
        ensures { result.now ≡ self.now }
    {
        self.items.as_slice()
    }

    /// How many packages there are.
    pub fn len(&self) -> usize
        ensures { result ≡ length self.now }
    {
        self.items.len()
    }

    /// Whether there are none.
    pub fn is_empty(&self) -> bool
        ensures { result ≡ (length self.now == 0) }
    {
        self.items.is_empty()
    }
}
