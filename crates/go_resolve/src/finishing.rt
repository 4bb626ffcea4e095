//! What sound declarations give.

use crate::error::lost;
use crate::local_types::number_local_types;
use crate::specifications::Made;
use decl_nodes::{
    Form, Item, Kind, Listed, Order, PackageOrder, Sort, Tables, file_scopes, narrow, package_of,
    packages_of,
};
use decl_rules::{Denoted, Facts, receiver_base};
use go_base::{FuncId, NameId, NoMemory, Pos, TypeId, VarId};
use go_declared::{Declared, LocalTypes};
use go_names::{Constant, Constants, Entity, Extent, Extents, FileScopes, PackageBlocks};
use go_sources::Sources;
use go_syntax::FuncDecl;
use go_tree::{
    DeclaredType, DeclaredTypes, FunctionDecl, FunctionDecls, FunctionForm, Packages, Variable,
    Variables,
};
use go_type::{
    Basic, MethodEntry, Path, SelectionKind, Signature, TypeIds, TypeName, TypeTerm, basic,
};
use std::alloc::Global;
use type_bare::Bare;
use type_sizes::Sizes;

/// What is declared, as it is gathered.
#[derive(Drop)]
struct Finisher {
    alloc: Global,
    functions: FunctionDecls,
    variables: Variables,
    declared: DeclaredTypes,
    constants: Constants,
    blocks: PackageBlocks,
    extents: Extents,
    /// The type of functions without parameters and results.
    plain: TypeId,
    /// How many packages have their initialiser.
    begun: usize,
}

/// What is asked of all packages and files together.
#[derive(Drop)]
struct Whole {
    files: FileScopes,
    packages: Packages,
    local_types: LocalTypes,
    error_string: TypeId,
}

/// What the declarations give beside the tables.
#[derive(Drop)]
pub struct Gathered {
    finisher: Finisher,
    whole: Whole,
}

/// Gathers what the declarations give. No rule is violated.
pub fn gather(
    alloc: Global,
    sources: &Sources,
    order: &PackageOrder,
    files: &[Listed<'_>],
    items: &[Item<'_>],
    made: &[Made],
    tables: &mut Tables,
    facts: &Facts,
    holds: &Order,
) -> Result<Gathered, NoMemory> {
    define_types(tables, facts, holds)?;
    let mut finisher = Finisher::new(alloc, plain_function(alloc, tables)?);
    finisher.add_items(sources, order, items, made, tables, facts)?;
    let whole = Whole::new(alloc, sources, order, files, tables)?;
    Ok(Gathered { finisher, whole })
}

impl Whole {
    fn new(
        alloc: Global,
        sources: &Sources,
        order: &PackageOrder,
        files: &[Listed<'_>],
        tables: &mut Tables,
    ) -> Result<Whole, NoMemory> {
        Ok(Whole {
            files: file_scopes(tables, sources, order)?,
            packages: packages_of(alloc, sources, order)?,
            local_types: number_local_types(alloc, files)?,
            error_string: error_string(tables, sources, order)?,
        })
    }
}

/// All of it together.
pub fn declared(alloc: Global, tables: Tables, gathered: Gathered) -> Declared {
    let Gathered { finisher, whole } = gathered;
    Declared {
        names: tables.names,
        types: tables.types,
        packages: whole.packages,
        functions: finisher.functions,
        variables: finisher.variables,
        declared: finisher.declared,
        constants: finisher.constants,
        blocks: finisher.blocks,
        files: whole.files,
        extents: finisher.extents,
        mentions: tables.mentions,
        sizes: Sizes::new(alloc),
        bare: Bare::new(alloc),
        universe: tables.universe,
        local_types: whole.local_types,
        error_string: whole.error_string,
    }
}

/// Gives the declared types their underlying types, those that hold others first.
fn define_types(tables: &mut Tables, facts: &Facts, holds: &Order) -> Result<(), NoMemory> {
    for node in holds.nodes.as_slice().iter().rev() {
        if let Some(Kind::Defined { of, .. }) = tables.nodes.kind(*node) {
            let of = *of;
            define_type(tables, facts, *node, of)?;
        }
    }
    Ok(())
}

fn define_type(
    tables: &mut Tables,
    facts: &Facts,
    node: usize,
    of: TypeId,
) -> Result<(), NoMemory> {
    if tables.types.is_defined(of) {
        return Ok(());
    }
    let under = match facts.denoting.under(node) {
        Some(Denoted::Form(form)) => facts.shapes.get(form),
        Some(Denoted::Predeclared(other)) => Some(tables.types.underlying(other)),
        _ => None,
    };
    match under {
        Some(under) if tables.types.can_define(of, under) => {
            tables.types.define(of, under);
            Ok(())
        }
        _ => Err(lost()),
    }
}

/// `func()`
fn plain_function(alloc: Global, tables: &mut Tables) -> Result<TypeId, NoMemory> {
    let term = TypeTerm::Func(Signature {
        params: TypeIds::new(alloc),
        results: TypeIds::new(alloc),
        variadic: false,
    });
    if !tables.types.can_hold(&term) {
        return Err(lost());
    }
    tables.types.hold(term)
}

/// The type `errorString` of the package `runtime`.
fn error_string(
    tables: &mut Tables,
    sources: &Sources,
    order: &PackageOrder,
) -> Result<TypeId, NoMemory> {
    let name = tables.name_of(b"errorString")?;
    for (number, loaded) in order.loaded.as_slice().iter().enumerate() {
        let Some(package) = sources.package(*loaded) else {
            return Err(lost());
        };
        if package.built_in && package.path.as_str() == "runtime" {
            let term = TypeTerm::Declared(TypeName {
                name,
                package: narrow(number)?,
                number: 0,
            });
            return match tables.types.find(&term) {
                Some(id) => Ok(id),
                None => Err(lost()),
            };
        }
    }
    Err(lost())
}

impl Finisher {
    /// Nothing is gathered yet.
    fn new(alloc: Global, plain: TypeId) -> Finisher {
        Finisher {
            alloc,
            functions: FunctionDecls::new(alloc),
            variables: Variables::new(alloc),
            declared: DeclaredTypes::new(alloc),
            constants: Constants::new(alloc),
            blocks: PackageBlocks::new(alloc),
            extents: Extents::new(alloc),
            plain,
            begun: 0,
        }
    }

    /// Adds what initialises each package up to a count of them.
    fn begin_packages(
        &mut self,
        tables: &Tables,
        order: &PackageOrder,
        sources: &Sources,
        count: usize,
    ) -> Result<(), NoMemory> {
        for number in self.begun..count {
            let Some(loaded) = order.loaded.as_slice().get(number) else {
                return Err(lost());
            };
            let Some(package) = sources.package(*loaded) else {
                return Err(lost());
            };
            self.functions.push(FunctionDecl {
                name: tables.known.blank,
                package: narrow(number)?,
                at: Pos {
                    file: package.first_file,
                    offset: 0,
                },
                signature: self.plain,
                receiver: None,
                has_body: false,
                form: FunctionForm::PackageInit,
            })?;
        }
        self.begun = self.begun.max(count);
        Ok(())
    }

    /// Adds what each item gives, and what initialises each package.
    fn add_items(
        &mut self,
        sources: &Sources,
        order: &PackageOrder,
        items: &[Item<'_>],
        made: &[Made],
        tables: &mut Tables,
        facts: &Facts,
    ) -> Result<(), NoMemory> {
        for (index, item) in items.iter().enumerate() {
            let Some(made) = made.get(index).copied() else {
                return Err(lost());
            };
            self.begin_packages(tables, order, sources, item.listed.package as usize + 1)?;
            self.add_item(tables, facts, item, made)?;
        }
        self.begin_packages(tables, order, sources, order.loaded.len())
    }

    fn add_item(
        &mut self,
        tables: &mut Tables,
        facts: &Facts,
        item: &Item<'_>,
        made: Made,
    ) -> Result<(), NoMemory> {
        match item.form {
            Form::Constants { first, names, .. } => {
                self.add_constants(tables, facts, first, names.len())
            }
            Form::TypeForm { node, .. } => self.add_type(tables, facts, node),
            Form::Variables { first, names, .. } => {
                self.add_variables(tables, facts, first, names.len(), made)
            }
            Form::Function { node, decl } => {
                self.add_function(tables, facts, item.listed, node, decl, made)
            }
            Form::Method(decl) => self.add_method(tables, facts, item.listed, decl, made),
        }
    }

    /// A name of a package stands for something, where its declaration is the first.
    fn put(&mut self, tables: &Tables, node: usize, entity: Entity) -> Result<(), NoMemory> {
        let Some(declaration) = tables.declarations.as_slice().get(node) else {
            return Err(lost());
        };
        if tables.find_in_package(declaration.package, declaration.name) == Some(node) {
            self.blocks
                .put(declaration.package, declaration.name, entity)?;
        }
        Ok(())
    }

    fn add_constants(
        &mut self,
        tables: &Tables,
        facts: &Facts,
        first: usize,
        count: usize,
    ) -> Result<(), NoMemory> {
        for index in 0..count {
            self.add_constant(tables, facts, first.saturating_add(index))?;
        }
        Ok(())
    }

    fn add_constant(
        &mut self,
        tables: &Tables,
        facts: &Facts,
        node: usize,
    ) -> Result<(), NoMemory> {
        let Some(declaration) = tables.declarations.as_slice().get(node) else {
            return Err(lost());
        };
        let Some(value) = facts.values.get(node) else {
            return Err(lost());
        };
        let number = self.constants.len() as u64;
        self.constants.push(Constant {
            name: declaration.name,
            at: declaration.at,
            of: value.of,
            value: value.value.copy(self.alloc)?,
        })?;
        self.put(tables, node, Entity::Constant(number))
    }

    fn add_type(&mut self, tables: &Tables, facts: &Facts, node: usize) -> Result<(), NoMemory> {
        let Some(declaration) = tables.declarations.as_slice().get(node) else {
            return Err(lost());
        };
        let Some(id) = facts.shapes.get(node) else {
            return Err(lost());
        };
        if declaration.sort == Sort::Defined {
            self.declared.push(DeclaredType {
                id,
                at: declaration.at,
                function: None,
            })?;
        }
        self.put(tables, node, Entity::TypeName(id))
    }

    fn add_variables(
        &mut self,
        tables: &Tables,
        facts: &Facts,
        first: usize,
        count: usize,
        made: Made,
    ) -> Result<(), NoMemory> {
        for index in 0..count {
            self.add_variable(tables, facts, first.saturating_add(index), made)?;
        }
        Ok(())
    }

    fn add_variable(
        &mut self,
        tables: &Tables,
        facts: &Facts,
        node: usize,
        made: Made,
    ) -> Result<(), NoMemory> {
        let Some(declaration) = tables.declarations.as_slice().get(node) else {
            return Err(lost());
        };
        let of = match made.form {
            Some(form) => shape_at(facts, form)?,
            None => basic(Basic::UntypedNil),
        };
        let id = VarId {
            number: self.variables.len() as u64,
        };
        self.variables.push(Variable {
            name: declaration.name,
            at: declaration.at,
            of,
            function: None,
        })?;
        self.put(tables, node, Entity::Variable(id))
    }

    fn add_function(
        &mut self,
        tables: &Tables,
        facts: &Facts,
        listed: Listed<'_>,
        node: usize,
        decl: &FuncDecl,
        made: Made,
    ) -> Result<(), NoMemory> {
        let Some(declaration) = tables.declarations.as_slice().get(node) else {
            return Err(lost());
        };
        let form = if declaration.name == tables.known.init {
            FunctionForm::Init
        } else {
            FunctionForm::Function
        };
        let id = self.next_function();
        self.functions.push(FunctionDecl {
            name: declaration.name,
            package: listed.package,
            at: declaration.at,
            signature: signature_at(facts, made)?,
            receiver: None,
            has_body: decl.body.is_some(),
            form,
        })?;
        self.extents.put(extent_of(listed, decl, id))?;
        self.put(tables, node, Entity::Function(id))
    }

    fn next_function(&self) -> FuncId {
        FuncId {
            number: self.functions.len() as u64,
        }
    }

    fn add_method(
        &mut self,
        tables: &mut Tables,
        facts: &Facts,
        listed: Listed<'_>,
        decl: &FuncDecl,
        made: Made,
    ) -> Result<(), NoMemory> {
        let name = tables.name(listed.source, decl.name)?;
        let Some(receiver) = made.receiver else {
            return Err(lost());
        };
        let signature = signature_at(facts, made)?;
        let id = self.next_function();
        self.functions.push(FunctionDecl {
            name,
            package: listed.package,
            at: Pos {
                file: listed.file,
                offset: decl.name.start,
            },
            signature,
            receiver: Some(shape_at(facts, receiver)?),
            has_body: decl.body.is_some(),
            form: FunctionForm::Method,
        })?;
        self.extents.put(extent_of(listed, decl, id))?;
        if name == tables.known.blank {
            return Ok(());
        }
        let package = package_of(listed.source.text(decl.name), listed.package);
        self.give_method(tables, facts, receiver, name, package, id, signature)
    }

    /// Gives a declared type a method.
    fn give_method(
        &mut self,
        tables: &mut Tables,
        facts: &Facts,
        receiver: usize,
        name: NameId,
        package: u32,
        id: FuncId,
        signature: TypeId,
    ) -> Result<(), NoMemory> {
        let Some(base) = receiver_base(&tables.nodes, &facts.denoting, receiver) else {
            return Err(lost());
        };
        let Some(of) = facts.shapes.get(base.declared) else {
            return Err(lost());
        };
        let method = MethodEntry {
            name,
            package,
            path: Path::new(self.alloc),
            kind: SelectionKind::Method(id),
            of: signature,
            pointer: base.pointer,
        };
        if !tables.types.can_add_method(of, &method) {
            return Err(lost());
        }
        tables.types.add_method(of, method)
    }
}

/// Where a function reaches.
fn extent_of(listed: Listed<'_>, decl: &FuncDecl, function: FuncId) -> Extent {
    let end = match &decl.body {
        Some(body) => body.close.end,
        None => decl.name.end,
    };
    Extent {
        function,
        file: listed.file,
        first: decl.word.start,
        last: end.saturating_sub(1),
        within: None,
    }
}

fn shape_at(facts: &Facts, node: usize) -> Result<TypeId, NoMemory> {
    match facts.shapes.get(node) {
        Some(shape) => Ok(shape),
        None => Err(lost()),
    }
}

fn signature_at(facts: &Facts, made: Made) -> Result<TypeId, NoMemory> {
    match made.form {
        Some(form) => shape_at(facts, form),
        None => Err(lost()),
    }
}
