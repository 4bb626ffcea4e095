//! What the packages of a program declare.

use go_base::{Names, NoMemory, Pos, TypeId};
use go_names::{Constants, Extents, FileScopes, Mentions, PackageBlocks, Universe};
use go_tree::{DeclaredTypes, FunctionDecls, Packages, Variables};
use go_type::Types;
use std::alloc::Global;
use std::collections::BTreeMap;
use type_bare::Bare;
use type_sizes::Sizes;

/// What the packages of a program declare, their bodies and the values of their variables left out.
#[derive(Drop)]
pub struct Declared {
    pub names: Names,
    pub types: Types,
    /// In the order in which they are initialised; package numbers are places in it.
    pub packages: Packages,
    /// By package: first what initialises it, then its functions and methods by place.
    pub functions: FunctionDecls,
    /// The variables of packages, by package and place. The type of one that is declared without a type is that of
    /// `nil` until it is set.
    pub variables: Variables,
    /// The types that are declared at package level, by package and place.
    pub declared: DeclaredTypes,
    /// The constants that are declared at package level, by package and place.
    pub constants: Constants,
    pub blocks: PackageBlocks,
    pub files: FileScopes,
    /// Where the declared functions and methods reach.
    pub extents: Extents,
    /// The imports that are named in types and constants.
    pub mentions: Mentions,
    pub sizes: Sizes,
    pub bare: Bare,
    pub universe: Universe,
    /// The declared types in bodies, which are none of `declared`.
    pub local_types: LocalTypes,
    /// The type of the errors of the running program, `runtime.errorString`.
    pub error_string: TypeId,
}

/// The numbers of the types that are declared in bodies: from 1 in each package, by place.
#[derive(Drop)]
pub struct LocalTypes {
    numbers: BTreeMap<Pos, u32>,
}

impl LocalTypes {
    /// No types.
    pub fn new(alloc: Global) -> LocalTypes {
        LocalTypes {
            numbers: BTreeMap::new(alloc),
        }
    }

    /// Gives the type whose name stands at a place its number.
    pub fn put(&mut self, at: Pos, number: u32) -> Result<(), NoMemory> {
        self.numbers.insert(at, number)?;
        Ok(())
    }

    /// The number of the type whose name stands at a place. None where no declaration in a body declares one there.
    pub fn number(&self, at: Pos) -> Option<u32> {
        self.numbers.get(&at).copied()
    }
}
