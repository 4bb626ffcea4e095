//! The names of a program while its declarations are read: what is declared, in which scope, and the nodes of it.

use crate::error::lost;
use crate::nodes::{Kind, Nodes};
use crate::violations::Violations;
use go_ast::Token;
use go_base::{NameId, Names, NoMemory, Pos, Rule};
use go_names::{Entity, Mention, Mentioned, Mentions, Universe};
use go_sources::SourceFile;
use go_type::{EXPORTED, Types};
use indexmap::{IndexMap, IndexSet};
use std::alloc::Global;

/// How a name is declared at package level.
#[derive(Clone, Copy, PartialEq, Eq)]
pub enum Sort {
    Constant,
    Defined,
    Alias,
    Variable,
    Function,
}

/// A name that is declared at package level. Its node has the number of the declaration.
#[derive(Clone, Copy)]
pub struct Declaration {
    pub sort: Sort,
    pub package: u32,
    pub at: Pos,
    pub name: NameId,
    /// Whether the block of the package has the name from an earlier declaration.
    pub is_again: bool,
    /// Whether it is named as a function `init` or `main` and is none without parameters and results.
    pub is_bad: bool,
}

/// A name in the block of a package or of a file.
#[derive(Clone, Copy, PartialEq, Eq, Hash)]
pub struct InBlock {
    pub block: u32,
    pub name: NameId,
}

/// A name of a part of a node: of a field, a parameter, a method.
#[derive(Clone, Copy, PartialEq, Eq, Hash)]
pub struct InNode {
    pub node: usize,
    pub name: NameId,
    /// Of a name that is not exported its package.
    pub package: u32,
}

/// An import of a file.
#[derive(Clone, Copy)]
pub struct Imported {
    /// Which import of its file it is.
    pub index: u32,
    /// The package, by its place in the order.
    pub package: u32,
    /// Its node, where a rule is violated at it.
    pub node: Option<usize>,
}

/// What a name stands for.
#[derive(Clone, Copy)]
pub enum Found {
    Import(Imported),
    Declared(usize),
    Universe(Entity),
    Nothing,
}

/// A name of a type in another type.
#[derive(Clone, Copy)]
pub struct Tie {
    /// The declared type or alias in whose declaration it is.
    pub owner: usize,
    /// What it names.
    pub target: usize,
    /// Whether it is embedded in an interface.
    pub embedded: bool,
}

/// A method, and what is read of its receiver.
#[derive(Clone, Copy)]
pub struct MethodNode {
    pub node: usize,
    pub receiver: usize,
    /// The type of the receiver.
    pub form: usize,
    pub name: NameId,
    /// Its package, or `EXPORTED`.
    pub package: u32,
}

/// Where what is read stands.
#[derive(Clone, Copy)]
pub struct Spot {
    pub package: u32,
    pub file: u32,
    /// The name of a constant whose value is the one before it once more: the place of all that is read for it.
    pub repeated: Option<u32>,
    /// The value of `iota`.
    pub iota: Option<i128>,
    /// The declared type or alias in whose declaration it is.
    pub owner: Option<usize>,
}

impl Spot {
    /// The place of a byte of the file.
    pub fn at(self, offset: u32) -> Pos {
        Pos {
            file: self.file,
            offset: self.repeated.unwrap_or(offset),
        }
    }
}

/// The names that have a part in the rules.
#[derive(Clone, Copy)]
pub struct KnownNames {
    pub blank: NameId,
    pub init: NameId,
    pub main: NameId,
}

impl KnownNames {
    fn new(names: &mut Names, blank: NameId) -> Result<KnownNames, NoMemory> {
        Ok(KnownNames {
            blank,
            init: names.intern("init")?,
            main: names.intern("main")?,
        })
    }
}

/// The names of the predeclared type `error` and of its method.
#[derive(Clone, Copy)]
struct ErrorNames {
    name: NameId,
    method: NameId,
}

impl ErrorNames {
    fn new(names: &mut Names) -> Result<ErrorNames, NoMemory> {
        Ok(ErrorNames {
            name: names.intern("error")?,
            method: names.intern("Error")?,
        })
    }
}

/// The tables of a program.
#[derive(Drop)]
pub struct Tables {
    pub alloc: Global,
    pub names: Names,
    pub known: KnownNames,
    pub types: Types,
    pub universe: Universe,
    pub declarations: Vec<Declaration>,
    /// The first declaration of each name of a package.
    pub blocks: IndexMap<InBlock, usize>,
    /// The first import of each name of a file.
    pub imports: IndexMap<InBlock, Imported>,
    pub nodes: Nodes,
    pub violations: Violations,
    pub mentions: Mentions,
    pub ties: Vec<Tie>,
    pub methods: Vec<MethodNode>,
    /// The names of fields, of parameters, and of methods of interfaces.
    pub parts: IndexSet<InNode>,
}

impl Tables {
    /// The universe alone.
    pub fn new(alloc: Global) -> Result<Tables, NoMemory> {
        let mut names = Names::new(alloc);
        let error = ErrorNames::new(&mut names)?;
        let mut types = Types::new(alloc, error.name, error.method)?;
        let universe = Universe::new(alloc, &mut names, &mut types)?;
        let known = KnownNames::new(&mut names, universe.blank())?;
        Ok(Tables::over(alloc, names, known, types, universe))
    }

    /// Nothing is declared yet.
    fn over(
        alloc: Global,
        names: Names,
        known: KnownNames,
        types: Types,
        universe: Universe,
    ) -> Tables {
        Tables {
            alloc,
            names,
            known,
            types,
            universe,
            declarations: Vec::new(alloc),
            blocks: IndexMap::new(alloc),
            imports: IndexMap::new(alloc),
            nodes: Nodes::new(alloc),
            violations: Violations::new(alloc),
            mentions: Mentions::new(alloc),
            ties: Vec::new(alloc),
            methods: Vec::new(alloc),
            parts: IndexSet::new(alloc),
        }
    }

    /// The id of a name as it is written.
    pub fn name(&mut self, source: &SourceFile, token: Token) -> Result<NameId, NoMemory> {
        self.name_of(source.text(token))
    }

    /// The id of a name.
    pub fn name_of(&mut self, text: &[u8]) -> Result<NameId, NoMemory> {
        match std::str::from_utf8(text) {
            Ok(text) => self.names.intern(text),
            Err(_) => Err(lost()),
        }
    }

    /// What a name stands for in a file of a package. Go specification, "Declarations and scope".
    pub fn find(&self, spot: Spot, name: NameId) -> Found {
        let in_file = InBlock {
            block: spot.file,
            name,
        };
        if let Some(import) = self.imports.get(&in_file) {
            return Found::Import(*import);
        }
        if let Some(node) = self.find_in_package(spot.package, name) {
            return Found::Declared(node);
        }
        match self.universe.find(name) {
            Some(entity) => Found::Universe(entity),
            None => Found::Nothing,
        }
    }

    /// The first declaration of a name in a package.
    pub fn find_in_package(&self, package: u32, name: NameId) -> Option<usize> {
        let in_package = InBlock {
            block: package,
            name,
        };
        self.blocks.get(&in_package).copied()
    }

    /// How a node is declared; None for one that is no declaration.
    pub fn sort(&self, node: usize) -> Option<Sort> {
        match self.declarations.as_slice().get(node) {
            Some(declaration) => Some(declaration.sort),
            None => None,
        }
    }

    /// A node that stands on others.
    pub fn make(
        &mut self,
        spot: Spot,
        offset: u32,
        kind: Kind,
        on: &[usize],
    ) -> Result<usize, NoMemory> {
        let node = self.nodes.push(spot.package, spot.at(offset), kind)?;
        self.nodes.stand_all(node, on)?;
        Ok(node)
    }

    /// A node at which a rule is violated.
    pub fn make_bad(
        &mut self,
        spot: Spot,
        offset: u32,
        rule: Rule,
        on: Option<usize>,
    ) -> Result<usize, NoMemory> {
        let node = self.nodes.push(spot.package, spot.at(offset), Kind::Plain)?;
        if let Some(on) = on {
            self.nodes.stand(node, on)?;
        }
        self.violations.push(&self.nodes, node, rule)?;
        Ok(node)
    }

    /// A node stands on a new one at which a rule is violated.
    pub fn blame(
        &mut self,
        node: usize,
        spot: Spot,
        offset: u32,
        rule: Rule,
    ) -> Result<(), NoMemory> {
        let part = self.make_bad(spot, offset, rule, None)?;
        self.nodes.stand(node, part)?;
        Ok(())
    }

    /// An import is named.
    pub fn mention(&mut self, spot: Spot, offset: u32, import: Imported) -> Result<(), NoMemory> {
        self.mentions.push(Mention {
            at: spot.at(offset),
            what: Mentioned::Import {
                file: spot.file,
                index: import.index,
            },
            assigned: false,
        })
    }

    /// A part of a node has a name. False where an earlier part has it.
    pub fn add_part(&mut self, part: InNode) -> Result<bool, NoMemory> {
        let is_new = self.parts.insert(part)?;
        Ok(is_new)
    }
}

/// The package that tells a name from the same name of other packages; `EXPORTED` where every package means the same.
pub fn package_of(name: &[u8], package: u32) -> u32 {
    if go_scan::is_exported(name) {
        EXPORTED
    } else {
        package
    }
}
