//! What the files declare, in order: each name of a package gets its node. Go specification, "Declarations and scope".

use crate::error::lost;
use crate::nodes::Kind;
use crate::package_order::{PackageOrder, narrow};
use crate::tables::{Declaration, InBlock, Sort, Tables};
use go_ast::Token;
use go_base::{NameId, NoMemory, Pos};
use go_sources::{SourceFile, Sources};
use go_syntax::{
    Decl, FuncDecl, ListedExpr, ListedName, ResultForm, Signature, TypeExpr, TypeSpec, ValueSpec,
};
use go_type::TypeName;
use std::alloc::Global;

/// A file, in the order of packages.
#[derive(Clone, Copy)]
pub struct Listed<'a> {
    pub file: u32,
    /// Its package, by the place in the order.
    pub package: u32,
    pub source: &'a SourceFile,
    /// Whether the package is built in.
    pub built_in: bool,
}

/// What is declared.
#[derive(Clone, Copy)]
pub enum Form<'a> {
    /// The constants of a specification, whose nodes are numbered from the first one on.
    Constants {
        first: usize,
        names: &'a [ListedName],
        values: &'a [ListedExpr],
        form: Option<&'a TypeExpr>,
        /// Whether values and type are those of an earlier specification.
        repeated: bool,
        iota: i128,
    },
    TypeForm {
        node: usize,
        form: &'a TypeExpr,
    },
    /// The variables of a specification, whose nodes are numbered from the first one on.
    Variables {
        first: usize,
        names: &'a [ListedName],
        form: Option<&'a TypeExpr>,
    },
    Function {
        node: usize,
        decl: &'a FuncDecl,
    },
    Method(&'a FuncDecl),
}

/// What is declared, and in which file.
#[derive(Clone, Copy)]
pub struct Item<'a> {
    pub listed: Listed<'a>,
    pub form: Form<'a>,
}

/// The files, by packages in their order.
pub fn list_files<'a>(
    alloc: Global,
    sources: &'a Sources,
    order: &PackageOrder,
) -> Result<Vec<Listed<'a>>, NoMemory> {
    let mut files = Vec::new(alloc);
    let count = narrow(sources.file_count())?;
    for (number, loaded) in order.loaded.as_slice().iter().enumerate() {
        let Some(package) = sources.package(*loaded) else {
            return Err(lost());
        };
        let package_number = narrow(number)?;
        for file in package.first_file..count {
            let Some(source) = sources.file(file) else {
                return Err(lost());
            };
            if source.package != *loaded {
                break;
            }
            files.push(Listed {
                file,
                package: package_number,
                source,
                built_in: package.built_in,
            })?;
        }
    }
    Ok(files)
}

/// The values and the type that a specification of constants without values repeats.
#[derive(Clone, Copy)]
struct Values<'a> {
    values: &'a [ListedExpr],
    form: Option<&'a TypeExpr>,
}

/// What is declared so far.
#[derive(Drop)]
struct Collector<'a> {
    items: Vec<Item<'a>>,
    /// How many types of the package are named `_` so far.
    blanks: u32,
    /// How many types were declared again so far.
    again: u32,
}

/// What the files declare.
pub fn collect<'a>(
    alloc: Global,
    tables: &mut Tables,
    files: &[Listed<'a>],
) -> Result<Vec<Item<'a>>, NoMemory> {
    let mut collector = Collector {
        items: Vec::new(alloc),
        blanks: 0,
        again: 0,
    };
    let mut package = 0;
    for listed in files {
        if listed.package != package {
            package = listed.package;
            collector.blanks = 0;
        }
        collector.add_file(tables, *listed)?;
    }
    Ok(collector.items)
}

impl<'a> Collector<'a> {
    fn add_file(&mut self, tables: &mut Tables, listed: Listed<'a>) -> Result<(), NoMemory> {
        for line in &listed.source.tree.decls {
            self.add_decl(tables, listed, &line.decl)?;
        }
        Ok(())
    }

    fn add_decl(
        &mut self,
        tables: &mut Tables,
        listed: Listed<'a>,
        decl: &'a Decl,
    ) -> Result<(), NoMemory> {
        match decl {
            Decl::Const { specs, .. } => self.add_constants(tables, listed, specs.as_slice()),
            Decl::TypeDecl { specs, .. } => self.add_types(tables, listed, specs.as_slice()),
            Decl::Var { specs, .. } => self.add_variables(tables, listed, specs.as_slice()),
            Decl::Func(func) => self.add_function(tables, listed, func),
        }
    }

    fn push(&mut self, listed: Listed<'a>, form: Form<'a>) -> Result<(), NoMemory> {
        self.items.push(Item { listed, form })?;
        Ok(())
    }

    fn add_constants(
        &mut self,
        tables: &mut Tables,
        listed: Listed<'a>,
        specs: &'a [ValueSpec],
    ) -> Result<(), NoMemory> {
        let mut last = Values {
            values: &[],
            form: None,
        };
        for (index, spec) in specs.iter().enumerate() {
            let repeated = spec.values.is_empty();
            if !repeated {
                last = Values {
                    values: spec.values.as_slice(),
                    form: written(&spec.form),
                };
            }
            let first = add_names(tables, listed, spec.names.as_slice(), Sort::Constant)?;
            let form = Form::Constants {
                first,
                names: spec.names.as_slice(),
                values: last.values,
                form: last.form,
                repeated,
                iota: index as i128,
            };
            self.push(listed, form)?;
        }
        Ok(())
    }

    fn add_variables(
        &mut self,
        tables: &mut Tables,
        listed: Listed<'a>,
        specs: &'a [ValueSpec],
    ) -> Result<(), NoMemory> {
        for spec in specs {
            let first = add_names(tables, listed, spec.names.as_slice(), Sort::Variable)?;
            let form = Form::Variables {
                first,
                names: spec.names.as_slice(),
                form: written(&spec.form),
            };
            self.push(listed, form)?;
        }
        Ok(())
    }

    fn add_types(
        &mut self,
        tables: &mut Tables,
        listed: Listed<'a>,
        specs: &'a [TypeSpec],
    ) -> Result<(), NoMemory> {
        for spec in specs {
            let node = match spec.assign {
                Some(_) => add_name(tables, listed, spec.name, Sort::Alias, false)?,
                None => self.add_defined(tables, listed, spec.name)?,
            };
            let form = Form::TypeForm {
                node,
                form: &spec.form,
            };
            self.push(listed, form)?;
        }
        Ok(())
    }

    fn add_defined(
        &mut self,
        tables: &mut Tables,
        listed: Listed<'a>,
        name: Token,
    ) -> Result<usize, NoMemory> {
        let node = add_name(tables, listed, name, Sort::Defined, false)?;
        let Some(declaration) = tables.declarations.as_slice().get(node).copied() else {
            return Err(lost());
        };
        let number = self.type_number(tables.known.blank, &declaration);
        let name = TypeName {
            name: declaration.name,
            package: listed.package,
            number,
        };
        if tables.types.is_declared(name) {
            return Err(lost());
        }
        let of = tables.types.declare(name)?;
        tables.nodes.set(node, Kind::Defined { of, form: node });
        Ok(node)
    }

    /// The number that tells a declared type from others of its name in its package.
    fn type_number(&mut self, blank: NameId, declaration: &Declaration) -> u32 {
        if declaration.name == blank {
            let number = u32::MAX.saturating_sub(self.blanks);
            self.blanks = self.blanks.saturating_add(1);
            number
        } else if declaration.is_again {
            self.again = self.again.saturating_add(1);
            self.again
        } else {
            0
        }
    }

    fn add_function(
        &mut self,
        tables: &mut Tables,
        listed: Listed<'a>,
        decl: &'a FuncDecl,
    ) -> Result<(), NoMemory> {
        if decl.receiver.is_some() {
            return self.push(listed, Form::Method(decl));
        }
        let is_plain = is_plain(&decl.signature);
        let node = add_name(tables, listed, decl.name, Sort::Function, is_plain)?;
        self.push(listed, Form::Function { node, decl })
    }
}

fn written(form: &Option<Box<TypeExpr>>) -> Option<&TypeExpr> {
    match form {
        Some(form) => {
            let written: &TypeExpr = form;
            Some(written)
        }
        None => None,
    }
}

/// Whether a function has neither parameters nor results.
fn is_plain(signature: &Signature) -> bool {
    if !signature.params.params.is_empty() {
        return false;
    }
    match &signature.result {
        ResultForm::None => true,
        ResultForm::Params(params) => params.params.is_empty(),
        ResultForm::TypeForm(_) => false,
    }
}

/// Declares the names of a specification, and gives the node of the first.
fn add_names(
    tables: &mut Tables,
    listed: Listed<'_>,
    names: &[ListedName],
    sort: Sort,
) -> Result<usize, NoMemory> {
    let first = tables.nodes.len();
    for name in names {
        add_name(tables, listed, name.name, sort, false)?;
    }
    Ok(first)
}

/// Declares a name, and gives its node. A function is plain where it has neither parameters nor results.
fn add_name(
    tables: &mut Tables,
    listed: Listed<'_>,
    token: Token,
    sort: Sort,
    is_plain: bool,
) -> Result<usize, NoMemory> {
    let name = tables.name(listed.source, token)?;
    let at = Pos {
        file: listed.file,
        offset: token.start,
    };
    let node = tables.nodes.push(listed.package, at, Kind::Plain)?;
    let is_init = name == tables.known.init;
    let is_main = name == tables.known.main && listed.source.package_name() == b"main".as_slice();
    let is_hidden = name == tables.known.blank || (is_init && sort == Sort::Function);
    let is_again = !is_hidden && enter(tables, listed.package, name, node)?;
    tables.declarations.push(Declaration {
        sort,
        package: listed.package,
        at,
        name,
        is_again,
        is_bad: (is_init || is_main) && !(sort == Sort::Function && is_plain),
    })?;
    Ok(node)
}

/// Puts a name into the block of a package, and tells whether it has it already.
fn enter(tables: &mut Tables, package: u32, name: NameId, node: usize) -> Result<bool, NoMemory> {
    if tables.find_in_package(package, name).is_some() {
        return Ok(true);
    }
    let key = InBlock {
        block: package,
        name,
    };
    tables.blocks.insert(key, node)?;
    Ok(false)
}
