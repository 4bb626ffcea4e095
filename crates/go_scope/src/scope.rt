//! What names stand for where an expression stands, and what was met so far. Go specification, "Declarations and scope".

use crate::own::Own;
use crate::text::{name_end, text_at, text_of};
use go_ast::Token;
use go_base::{FuncId, NameId, Names, NoMemory, Pos, Rule, TypeId, VarId};
use go_declared::{CheckError, Declared, LocalTypes};
use go_faults::Least;
use go_names::{
    Blocks, Constant, Constants, Entity, Extents, FileScopes, ImportOf, Mention, Mentions,
    PackageBlocks, Universe,
};
use go_sources::Sources;
use go_tree::{
    DeclaredTypes, FunctionDecl, FunctionDecls, FunctionForm, Packages, Variable, Variables,
};
use go_type::{Basic, TypeTerm, Types, basic};
use indexmap::IndexMap;
use std::alloc::Global;
use std::collections::BTreeMap;
use type_bare::Bare;
use type_sizes::Sizes;
use typed_parts::{Ground, beside};

/// The phase in which initialisers and bodies are asked.
const PHASE: u8 = 3;

/// What was declared, the blocks that are open with their names, and the types, variables and literals met so far. After
/// want of memory it is spent.
#[derive(Drop)]
pub struct Scope {
    pub(crate) alloc: Global,
    pub(crate) names: Names,
    /// The types, and the least of the faults.
    pub(crate) ground: Ground,
    pub(crate) packages: Packages,
    pub(crate) functions: FunctionDecls,
    pub(crate) variables: Vec<Variable>,
    pub(crate) declared: DeclaredTypes,
    pub(crate) constants: Constants,
    pub(crate) package_blocks: PackageBlocks,
    pub(crate) files: FileScopes,
    pub(crate) extents: Extents,
    pub(crate) mentions: Mentions,
    pub(crate) sizes: Sizes,
    pub(crate) bare: Bare,
    pub(crate) universe: Universe,
    pub(crate) local_types: LocalTypes,
    error_string: TypeId,
    pub(crate) blocks: Blocks,
    /// The file that is entered, and its package.
    pub(crate) file: u32,
    pub(crate) package: u32,
    /// What initialises each package.
    inits: IndexMap<u32, FuncId>,
    /// The literals that were met, by their first bytes.
    pub(crate) literals: BTreeMap<Pos, FuncId>,
    /// What `iota` is in the specification of constants that is read.
    pub(crate) iota: Option<i128>,
    /// The place of all nodes of a value that is read again for another constant.
    pub(crate) repeated_at: Option<Pos>,
    /// The local type whose declaration is read.
    pub(crate) own: Option<Own>,
}

impl Scope {
    /// The scope of the first file, with no block open. After `NoMemory` the declarations are dropped.
    pub fn new(alloc: Global, declared: Declared) -> Result<Scope, NoMemory> {
        let begun = begun(alloc, &declared);
        let ((variables, inits), declared) = beside(begun, declared)?;
        Ok(scope_of(alloc, declared, variables, inits))
    }

    /// Goes to a file of the sources. No block is open then.
    pub fn enter_file(&mut self, file: u32) {
        if let Some(scope) = self.files.file(file) {
            self.file = file;
            self.package = scope.package;
            self.ground.package = scope.package;
        }
    }

    /// Opens a block in the innermost one.
    pub fn open_block(&mut self) -> Result<(), NoMemory> {
        self.blocks.open()?;
        Ok(())
    }

    /// Drops the innermost block and its names.
    pub fn close_block(&mut self) {
        self.blocks.close();
    }

    /// How many blocks are open.
    pub fn depth(&self) -> usize {
        self.blocks.depth()
    }

    /// A new variable of the innermost function in which `at` stands, named by the identifier at a place, or `_`. `Refused`
    /// with N1 exactly where the innermost block has the name and it is not `_`; the variable is made all the same, but
    /// is not in scope. It is unsound where it has no type.
    pub fn add_variable(
        &mut self,
        sources: &Sources,
        name: Option<Pos>,
        at: Pos,
        of: Option<TypeId>,
    ) -> Result<VarId, CheckError> {
        let Some(pos) = name else {
            return Ok(self.add_named(self.blank(), at, of)?);
        };
        let Some(source) = sources.file(pos.file) else {
            return Ok(self.add_named(self.blank(), at, of)?);
        };
        let end = name_end(source.bytes.as_slice(), pos.offset);
        let name = self
            .names
            .intern(text_at(source.bytes.as_slice(), pos.offset, end)?)?;
        let is_taken = self.is_taken(name);
        let var = self.add_named(name, at, of)?;
        if is_taken {
            return Err(CheckError::Refused {
                pos,
                rule: Rule::RedeclaredInThisBlock,
            });
        }
        Ok(var)
    }

    /// A new variable of the innermost function in which `at` stands, which is in scope where the innermost block has not
    /// its name and that is not `_`. Nothing is reported. It is unsound where it has no type.
    pub fn add_named(
        &mut self,
        name: NameId,
        at: Pos,
        of: Option<TypeId>,
    ) -> Result<VarId, NoMemory> {
        let var = VarId {
            number: self.variables.len() as u64,
        };
        let function = self.extents.innermost(at);
        self.variables.push(Variable {
            name,
            at,
            of: of.unwrap_or(basic(Basic::UntypedNil)),
            function,
        })?;
        self.bind(name, Entity::Variable(var))?;
        Ok(var)
    }

    /// Puts a name into the innermost block, where it has it not and it is not `_`.
    pub fn bind(&mut self, name: NameId, entity: Entity) -> Result<(), NoMemory> {
        if name == self.blank() || self.blocks.find_innermost(name).is_some() {
            return Ok(());
        }
        self.blocks.put(name, entity)?;
        Ok(())
    }

    /// Whether the innermost block has a name, which is not `_`.
    pub fn is_taken(&self, name: NameId) -> bool {
        name != self.blank() && self.blocks.find_innermost(name).is_some()
    }

    /// Gives a package variable without a written type its type; without one it is unsound.
    pub fn set_type(&mut self, var: VarId, of: Option<TypeId>) {
        if let Some(variable) = self.variables.as_mut_slice().get_mut(var.number as usize) {
            variable.of = of.unwrap_or(basic(Basic::UntypedNil));
        }
    }

    /// The id of a type whose parts are held, as `Types::hold`.
    pub fn hold(&mut self, term: TypeTerm) -> Result<TypeId, NoMemory> {
        let id = self.ground.hold(term)?;
        Ok(id)
    }

    /// The function literal that begins at a place, where one was met whose type is sound.
    pub fn literal(&self, at: Pos) -> Option<FuncId> {
        self.literals.get(&at).copied()
    }

    /// The declarations with all that was met.
    pub fn finish(self) -> Result<Declared, NoMemory> {
        let listed = listed(self.alloc, self.variables.as_slice());
        let (listed, scope) = beside(listed, self)?;
        Ok(declared_of(scope, listed))
    }

    // ---- what is held

    /// The types that are held.
    pub fn types(&self) -> &Types {
        &self.ground.types
    }

    /// The names that are held.
    pub fn names(&self) -> &Names {
        &self.names
    }

    /// What the rules of expressions ask and change: the types, and the least of the faults.
    pub fn ground(&mut self) -> &mut Ground {
        &mut self.ground
    }

    /// The packages.
    pub fn packages(&self) -> &Packages {
        &self.packages
    }

    /// The functions, those of the literals that were met too.
    pub fn functions(&self) -> &FunctionDecls {
        &self.functions
    }

    /// The function with a number.
    pub fn function(&self, function: FuncId) -> Option<FunctionDecl> {
        self.functions
            .as_slice()
            .get(function.number as usize)
            .copied()
    }

    /// The variables, by their numbers. One without a sound type has that of `nil`.
    pub fn variables(&self) -> &[Variable] {
        self.variables.as_slice()
    }

    /// A variable that is held.
    pub fn variable(&self, var: VarId) -> Option<Variable> {
        self.variables.as_slice().get(var.number as usize).copied()
    }

    /// Whether a variable is one that has a sound type.
    pub fn is_sound(&self, var: VarId) -> bool {
        match self.variable(var) {
            Some(variable) => variable.of != basic(Basic::UntypedNil),
            None => false,
        }
    }

    /// What packages declare.
    pub fn package_blocks(&self) -> &PackageBlocks {
        &self.package_blocks
    }

    /// What files import.
    pub fn files(&self) -> &FileScopes {
        &self.files
    }

    /// What the universe declares.
    pub fn universe(&self) -> &Universe {
        &self.universe
    }

    /// The innermost declared function or literal met in which a place stands.
    pub fn function_at(&self, at: Pos) -> Option<FuncId> {
        self.extents.innermost(at)
    }

    /// What initialises a package.
    pub fn init_of(&self, package: u32) -> Option<FuncId> {
        self.inits.get(&package).copied()
    }

    // ---- names

    /// The file that is entered.
    pub fn file(&self) -> u32 {
        self.file
    }

    /// The number of the package of the file that is entered.
    pub fn package(&self) -> u32 {
        self.package
    }

    /// A place in the file that is entered.
    pub fn pos(&self, offset: u32) -> Pos {
        match self.repeated_at {
            Some(at) => at,
            None => Pos {
                file: self.file,
                offset,
            },
        }
    }

    /// The name `_`.
    pub fn blank(&self) -> NameId {
        self.universe.blank()
    }

    /// The name that a token of the file entered is.
    pub fn name(&mut self, sources: &Sources, token: Token) -> Result<NameId, NoMemory> {
        let Some(source) = sources.file(self.file) else {
            return Ok(self.blank());
        };
        let name = self.names.intern(text_of(source, token)?)?;
        Ok(name)
    }

    /// The name that a token of the file entered is, where it is held.
    fn held(&self, sources: &Sources, token: Token) -> Option<NameId> {
        let source = sources.file(self.file)?;
        match text_of(source, token) {
            Ok(text) => self.names.find(text),
            Err(_) => None,
        }
    }

    /// What a bare name of the file entered stands for, in the innermost scope that has it. It is not mentioned by that.
    pub fn found(&self, sources: &Sources, name: Token) -> Option<Entity> {
        self.look_up(self.held(sources, name)?)
    }

    /// What a bare name stands for in the innermost block. None where that block does not have it.
    pub fn found_in_block(&self, sources: &Sources, name: Token) -> Option<Entity> {
        self.blocks.find_innermost(self.held(sources, name)?)
    }

    /// What a name stands for: in the blocks from the innermost on, in the package, in the file, in the universe.
    pub fn look_up(&self, name: NameId) -> Option<Entity> {
        if let Some(entity) = self.blocks.find(name) {
            return Some(entity);
        }
        if let Some(entity) = self.package_blocks.find(self.package, name) {
            return Some(entity);
        }
        if let Some(import) = self.files.find(self.file, name) {
            return Some(Entity::Import(import.index));
        }
        self.universe.find(name)
    }

    /// The import that a name stands for in the file entered.
    pub(crate) fn import(&self, name: NameId) -> Option<ImportOf> {
        match self.look_up(name) {
            Some(Entity::Import(_)) => self.files.find(self.file, name),
            _ => None,
        }
    }

    // ---- what is declared

    /// Puts a name into the innermost block, in place of what it stands for there.
    pub fn put(&mut self, name: NameId, entity: Entity) -> Result<(), NoMemory> {
        self.blocks.put(name, entity)?;
        Ok(())
    }

    /// Holds a constant; answers its number.
    pub fn add_constant(&mut self, constant: Constant) -> Result<u64, NoMemory> {
        let number = self.constants.len() as u64;
        self.constants.push(constant)?;
        Ok(number)
    }

    /// Says what `iota` is from here on; None outside of specifications of constants.
    pub fn set_iota(&mut self, iota: Option<i128>) {
        self.iota = iota;
    }

    /// Says at which place all nodes stand from here on; None where each stands at its own.
    pub fn set_repeated_at(&mut self, at: Option<Pos>) {
        self.repeated_at = at;
    }

    /// Begins to read the declaration of a local type.
    pub fn begin_own(&mut self, own: Own) {
        drop(std::mem::replace(&mut self.own, Some(own)));
    }

    /// Ends reading the declaration of a local type, where one is read; answers what was met.
    pub fn end_own(&mut self) -> Option<Own> {
        self.own.take()
    }

    // ---- what was read and what is broken

    /// Notes that a name is read.
    pub fn mention(&mut self, mention: Mention) -> Result<(), NoMemory> {
        self.mentions.push(mention)?;
        Ok(())
    }

    /// The names that were read, in the order in which they were.
    pub fn mentions(&self) -> &Mentions {
        &self.mentions
    }

    /// How many names were read.
    pub fn mention_count(&self) -> usize {
        self.mentions.len()
    }

    /// Notes that the name with an index among those that were read is the whole target of a plain assignment.
    pub fn mark_assigned(&mut self, index: usize) {
        self.mentions.mark_assigned(index);
    }

    /// Reports a broken rule at a place of the file entered.
    pub fn report(&mut self, at: Pos, rule: Rule) {
        self.ground.report(at, rule);
    }

    /// The least of the faults that were reported since they were last set aside. The calls that answer `Refused` report
    /// nothing here.
    pub fn least(&self) -> Least {
        self.ground.least
    }

    /// Sets what was reported aside, in favour of other faults; answers what it was.
    pub fn set_least(&mut self, least: Least) -> Least {
        let before = self.ground.least;
        self.ground.least = least;
        before
    }
}

/// The variables that are declared, as they are held, and what initialises each package.
fn begun(
    alloc: Global,
    declared: &Declared,
) -> Result<(Vec<Variable>, IndexMap<u32, FuncId>), NoMemory> {
    let variables = Vec::from_slice(alloc, declared.variables.as_slice())?;
    let inits = initialisers(alloc, declared.functions.as_slice())?;
    Ok((variables, inits))
}

/// The scope of the first file, with these variables and initialisers.
fn scope_of(
    alloc: Global,
    declared: Declared,
    variables: Vec<Variable>,
    inits: IndexMap<u32, FuncId>,
) -> Scope {
    let package = match declared.files.file(0) {
        Some(file) => file.package,
        None => 0,
    };
    drop(declared.variables);
    Scope {
        alloc,
        names: declared.names,
        ground: Ground::new(alloc, declared.types, PHASE, package),
        packages: declared.packages,
        functions: declared.functions,
        variables,
        declared: declared.declared,
        constants: declared.constants,
        package_blocks: declared.blocks,
        files: declared.files,
        extents: declared.extents,
        mentions: declared.mentions,
        sizes: declared.sizes,
        bare: declared.bare,
        universe: declared.universe,
        local_types: declared.local_types,
        error_string: declared.error_string,
        blocks: Blocks::new(alloc),
        file: 0,
        package,
        inits,
        literals: BTreeMap::new(alloc),
        iota: None,
        repeated_at: None,
        own: None,
    }
}

/// The declarations of a scope, with these variables. What was only asked for while expressions were seen is left out.
fn declared_of(scope: Scope, variables: Variables) -> Declared {
    let (types, _) = scope.ground.into_parts();
    drop((scope.variables, (scope.blocks, scope.inits)));
    drop((scope.literals, scope.own));
    Declared {
        names: scope.names,
        types,
        packages: scope.packages,
        functions: scope.functions,
        variables,
        declared: scope.declared,
        constants: scope.constants,
        blocks: scope.package_blocks,
        files: scope.files,
        extents: scope.extents,
        mentions: scope.mentions,
        sizes: scope.sizes,
        bare: scope.bare,
        universe: scope.universe,
        local_types: scope.local_types,
        error_string: scope.error_string,
    }
}

/// What initialises each package.
fn initialisers(
    alloc: Global,
    functions: &[FunctionDecl],
) -> Result<IndexMap<u32, FuncId>, NoMemory> {
    let mut inits = IndexMap::new(alloc);
    for (index, function) in functions.iter().enumerate() {
        if function.form == FunctionForm::PackageInit {
            inits.insert(
                function.package,
                FuncId {
                    number: index as u64,
                },
            )?;
        }
    }
    Ok(inits)
}

fn listed(alloc: Global, variables: &[Variable]) -> Result<Variables, NoMemory> {
    let mut list = Variables::new(alloc);
    for variable in variables {
        list.push(*variable)?;
    }
    Ok(list)
}
