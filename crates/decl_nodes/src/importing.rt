//! The imports of files. Go specification, "Import declarations".

use crate::error::lost;
use crate::items::Listed;
use crate::nodes::Kind;
use crate::package_order::{PackageOrder, narrow};
use crate::tables::{Imported, InBlock, Tables};
use go_base::{NameId, NoMemory, Pos, Rule};
use go_names::{FileScope, FileScopes, ImportOf};
use go_sources::{Import, Sources};
use go_syntax::{FileTree, ImportSpec};
use std::alloc::Global;

/// Reads the package clause and the imports of each file, once all packages have their names.
pub fn read_imports(
    tables: &mut Tables,
    sources: &Sources,
    order: &PackageOrder,
    files: &[Listed<'_>],
) -> Result<(), NoMemory> {
    for listed in files {
        read_clause(tables, *listed)?;
        let imports = sources.imports(listed.file);
        let specs = specs_of(tables.alloc, &listed.source.tree)?;
        for (index, spec) in specs.as_slice().iter().enumerate() {
            let Some(import) = imports.get(index) else {
                return Err(lost());
            };
            read_import(
                tables,
                sources,
                order,
                *listed,
                *spec,
                *import,
                narrow(index)?,
            )?;
        }
    }
    Ok(())
}

/// The imports of a file in order.
fn specs_of(alloc: Global, tree: &FileTree) -> Result<Vec<ImportSpec>, NoMemory> {
    let mut specs = Vec::new(alloc);
    for decl in &tree.imports {
        specs.extend_from_slice(decl.specs.as_slice())?;
    }
    Ok(specs)
}

/// No package is named `_`.
fn read_clause(tables: &mut Tables, listed: Listed<'_>) -> Result<(), NoMemory> {
    if listed.source.package_name() == b"_".as_slice() {
        let at = Pos {
            file: listed.file,
            offset: listed.source.tree.name.start,
        };
        let node = tables.nodes.push(listed.package, at, Kind::Plain)?;
        tables
            .violations
            .push(&tables.nodes, node, Rule::WrongKindOfName)?;
    }
    Ok(())
}

/// Puts an import into the block of its file.
fn read_import(
    tables: &mut Tables,
    sources: &Sources,
    order: &PackageOrder,
    listed: Listed<'_>,
    spec: ImportSpec,
    import: Import,
    index: u32,
) -> Result<(), NoMemory> {
    let name = import_name(tables, sources, listed, spec, import)?;
    if name == tables.known.blank {
        return Ok(());
    }
    let key = InBlock {
        block: listed.file,
        name,
    };
    let is_again = tables.imports.get(&key).is_some()
        || tables.find_in_package(listed.package, name).is_some();
    let is_bad = name == tables.known.init;
    let node = if is_again || is_bad {
        Some(blame_import(tables, listed, spec, is_again, is_bad)?)
    } else {
        None
    };
    if tables.imports.get(&key).is_none() {
        let imported = Imported {
            index,
            package: order.number(import.package),
            node,
        };
        tables.imports.insert(key, imported)?;
    }
    Ok(())
}

fn blame_import(
    tables: &mut Tables,
    listed: Listed<'_>,
    spec: ImportSpec,
    is_again: bool,
    is_bad: bool,
) -> Result<usize, NoMemory> {
    let at = Pos {
        file: listed.file,
        offset: import_start(spec),
    };
    let node = tables.nodes.push(listed.package, at, Kind::Plain)?;
    if is_again {
        tables
            .violations
            .push(&tables.nodes, node, Rule::RedeclaredInThisBlock)?;
    }
    if is_bad {
        tables
            .violations
            .push(&tables.nodes, node, Rule::BadInitOrMain)?;
    }
    Ok(node)
}

/// The place of an import: its name, else its path.
fn import_start(spec: ImportSpec) -> u32 {
    match spec.name {
        Some(name) => name.start,
        None => spec.path.start,
    }
}

/// The name of an import: its own, else that of the package.
fn import_name(
    tables: &mut Tables,
    sources: &Sources,
    listed: Listed<'_>,
    spec: ImportSpec,
    import: Import,
) -> Result<NameId, NoMemory> {
    if let Some(name) = spec.name {
        return tables.name(listed.source, name);
    }
    let Some(package) = sources.package(import.package) else {
        return Err(lost());
    };
    let Some(file) = sources.file(package.first_file) else {
        return Err(lost());
    };
    tables.name_of(file.package_name())
}

/// The blocks of the files, by the numbers of the sources. No name stands for two imports.
pub fn file_scopes(
    tables: &mut Tables,
    sources: &Sources,
    order: &PackageOrder,
) -> Result<FileScopes, NoMemory> {
    let mut scopes = FileScopes::new(tables.alloc);
    for file in 0..narrow(sources.file_count())? {
        let Some(source) = sources.file(file) else {
            return Err(lost());
        };
        let package = order.number(source.package);
        let imports = sources.imports(file);
        scopes.push(FileScope {
            package,
            imports: narrow(imports.len())?,
        })?;
        let listed = Listed {
            file,
            package,
            source,
            built_in: false,
        };
        put_imports(tables, sources, order, listed, imports, &mut scopes)?;
    }
    Ok(scopes)
}

fn put_imports(
    tables: &mut Tables,
    sources: &Sources,
    order: &PackageOrder,
    listed: Listed<'_>,
    imports: &[Import],
    scopes: &mut FileScopes,
) -> Result<(), NoMemory> {
    let specs = specs_of(tables.alloc, &listed.source.tree)?;
    for (index, spec) in specs.as_slice().iter().enumerate() {
        let Some(import) = imports.get(index) else {
            return Err(lost());
        };
        let name = import_name(tables, sources, listed, *spec, *import)?;
        if name != tables.known.blank {
            let of = ImportOf {
                index: narrow(index)?,
                at: Pos {
                    file: listed.file,
                    offset: import_start(*spec),
                },
                package: order.number(import.package),
            };
            scopes.put(listed.file, name, of)?;
        }
    }
    Ok(())
}
