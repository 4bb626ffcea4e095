//! What is asked of sound programs alone: names that are not used, initialisations that stand on themselves, and `main`. Go
//! specification, "Variable declarations", "Import declarations", "Package initialization", "Program execution".

use crate::initials::{Initial, Initials, files_in_order};
use go_base::{FuncId, Names, NoMemory, Pos, Rule};
use go_faults::{Fault, Least};
use go_names::{FileScopes, Mention, Mentioned};
use go_sources::{SourceFile, Sources};
use go_syntax::ImportSpec;
use go_tree::{FunctionDecl, FunctionDecls, FunctionForm, Packages, Variable};
use indexmap::IndexSet;
use init_order::{Node, Reliance};
use std::alloc::Global;
use stmt_rules::{Holder, Reading, Walker, kept, mentions_from};

/// An import, by its index in its file.
#[derive(Clone, Copy, PartialEq, Eq, Hash)]
struct ImportKey {
    file: u32,
    index: u32,
}

/// Reports the names that are not used.
pub fn report_unused(walker: &mut Walker<'_>) -> Result<(), NoMemory> {
    let mentions = walker.scope.mentions().as_slice();
    walker.needs.report_unused(mentions, &mut walker.later)?;
    let imports = used_imports(walker.alloc, mentions)?;
    let done = report_imports(walker, &imports);
    drop(imports);
    done
}

/// The imports that are used.
fn used_imports(alloc: Global, mentions: &[Mention]) -> Result<IndexSet<ImportKey>, NoMemory> {
    let mut imports = IndexSet::new(alloc);
    for mention in mentions {
        if let Mentioned::Import { file, index } = mention.what {
            imports.insert(ImportKey { file, index })?;
        }
    }
    Ok(imports)
}

fn report_imports<'s>(walker: &mut Walker<'s>, used: &IndexSet<ImportKey>) -> Result<(), NoMemory> {
    for file in files_in_order(walker.alloc, walker.scope.packages(), walker.sources)? {
        walker.enter_file(file);
        let sources: &'s Sources = walker.sources;
        if let Some(source) = sources.file(file) {
            report_imports_of(walker, used, file, source);
        }
    }
    Ok(())
}

/// Reports the imports of the file that is entered that are not used.
fn report_imports_of(
    walker: &mut Walker<'_>,
    used: &IndexSet<ImportKey>,
    file: u32,
    source: &SourceFile,
) {
    let mut index: u32 = 0;
    for import in &source.tree.imports {
        for spec in &import.specs {
            if !used.contains(&ImportKey { file, index }) && !is_blank(source, spec) {
                walker.report_later(walker.at(spec.path), Rule::ImportNotUsed);
            }
            index = index.saturating_add(1);
        }
    }
}

/// Whether an import is named `_`: it need not be used.
fn is_blank(source: &SourceFile, spec: &ImportSpec) -> bool {
    match spec.name {
        Some(name) => source.text(name) == b"_".as_slice(),
        None => false,
    }
}

/// What initialisers and functions name, as it was read.
pub fn reliance<'s>(walker: &Walker<'s>, initials: &Initials<'s>) -> Result<Reliance, NoMemory> {
    let mut reliance = Reliance::new(
        walker.alloc,
        walker.package_variables,
        initials.list.len(),
        walker.scope.functions().len(),
    )?;
    let mentions = walker.scope.mentions().as_slice();
    let done = add_all(
        initials.list.as_slice(),
        &walker.readings,
        mentions,
        &mut reliance,
    );
    kept(reliance, done)
}

fn add_all(
    initials: &[Initial<'_>],
    readings: &[Reading],
    mentions: &[Mention],
    reliance: &mut Reliance,
) -> Result<(), NoMemory> {
    for (index, initial) in initials.iter().enumerate() {
        for variable in &initial.variables {
            reliance.add(Node::Variable(variable.number as usize), Node::Step(index))?;
        }
    }
    for reading in readings {
        add_reading(mentions, reliance, *reading)?;
    }
    Ok(())
}

fn add_reading(
    mentions: &[Mention],
    reliance: &mut Reliance,
    reading: Reading,
) -> Result<(), NoMemory> {
    let from = match reading.holder {
        Holder::Step(index) => Node::Step(index),
        Holder::Function(function) => Node::Function(function.number as usize),
    };
    let count = reading.to.saturating_sub(reading.from);
    for mention in mentions_from(mentions, reading.from).iter().take(count) {
        if let Some(to) = node_of(mention) {
            reliance.add(from, to)?;
        }
    }
    Ok(())
}

/// Reports the variables whose initialisation stands on them.
pub fn report_cycles(walker: &mut Walker<'_>, reliance: &Reliance) -> Result<(), NoMemory> {
    let cycles = reliance.variables_on_cycles()?;
    let scope = &walker.scope;
    report_on_cycles(scope.variables(), scope.files(), &cycles, &mut walker.later);
    Ok(())
}

fn report_on_cycles(
    variables: &[Variable],
    files: &FileScopes,
    cycles: &[bool],
    later: &mut Least,
) {
    for (variable, is_on_cycle) in variables.iter().zip(cycles.iter()) {
        if *is_on_cycle {
            later.report(cycle_at(files, variable.at));
        }
    }
}

/// That the initialisation of the variable at a place stands on it.
fn cycle_at(files: &FileScopes, pos: Pos) -> Fault {
    let package = match files.file(pos.file) {
        Some(file) => file.package,
        None => 0,
    };
    Fault {
        phase: 5,
        package,
        pos,
        rule: Rule::InitialisationCycle,
    }
}

/// The function `main` of the package of that name, which is to have one.
pub fn find_main(walker: &mut Walker<'_>) -> Option<FuncId> {
    let scope = &walker.scope;
    let package = main_package(scope.packages())?;
    let found = main_of(scope.functions(), scope.names(), package);
    if found.is_none() {
        let first = scope.packages().as_slice().get(package);
        let file = match first {
            Some(package) => package.first_file,
            None => 0,
        };
        walker
            .later
            .report(without_main(walker.sources, package, file));
    }
    found
}

/// The package that is named main.
fn main_package(packages: &Packages) -> Option<usize> {
    for (index, package) in packages.as_slice().iter().enumerate() {
        if package.label.as_str() == "main" {
            return Some(index);
        }
    }
    None
}

/// The function `main` of a package.
fn main_of(functions: &FunctionDecls, names: &Names, package: usize) -> Option<FuncId> {
    for (index, function) in functions.as_slice().iter().enumerate() {
        if is_main(names, function, package) {
            return Some(FuncId {
                number: index as u64,
            });
        }
    }
    None
}

fn is_main(names: &Names, function: &FunctionDecl, package: usize) -> bool {
    function.form == FunctionForm::Function
        && function.package as usize == package
        && names.text(function.name) == Some("main")
}

/// That a package named main, with its first file, has no function `main`.
fn without_main(sources: &Sources, package: usize, file: u32) -> Fault {
    let offset = match sources.file(file) {
        Some(source) => source.tree.name.start,
        None => 0,
    };
    Fault {
        phase: 5,
        package: u32::try_from(package).unwrap_or(0),
        pos: Pos { file, offset },
        rule: Rule::NoMainFunction,
    }
}

/// What a name that was read stands for in the graph of initialisations.
fn node_of(mention: &Mention) -> Option<Node> {
    match mention.what {
        Mentioned::Variable(variable) => Some(Node::Variable(variable.number as usize)),
        Mentioned::Function(function) => Some(Node::Function(function.number as usize)),
        Mentioned::Import { .. } => None,
    }
}
