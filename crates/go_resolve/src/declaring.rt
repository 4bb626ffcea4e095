//! The declarations of a program.

use crate::error::lost;
use crate::finishing::{Gathered, declared, gather};
use crate::reading::Reader;
use decl_nodes::{
    Item, Listed, PackageOrder, Tables, TypeFact, Violations, collect, define_basic, list_files,
    order_of, order_packages, read_imports, type_facts,
};
use decl_rules::{ask_rules, holding};
use go_declared::{CheckError, Declared};
use go_sources::Sources;
use std::alloc::Global;

/// What the packages of a program declare. `Refused` with the first broken rule of their declarations: of names, types,
/// constants, signatures and receivers.
pub fn declare(alloc: Global, sources: &Sources) -> Result<Declared, CheckError> {
    let order = order_packages(alloc, sources)?;
    let files = list_files(alloc, sources, &order)?;
    let mut tables = Tables::new(alloc)?;
    let items = collect(alloc, &mut tables, files.as_slice())?;
    read_imports(&mut tables, sources, &order, files.as_slice())?;
    let facts = type_facts(&mut tables, items.as_slice())?;
    define_basic(&mut tables, facts.as_slice())?;
    declare_items(
        alloc,
        sources,
        &order,
        files.as_slice(),
        items.as_slice(),
        tables,
        facts,
    )
}

/// What the items of a program declare.
fn declare_items(
    alloc: Global,
    sources: &Sources,
    order: &PackageOrder,
    files: &[Listed<'_>],
    items: &[Item<'_>],
    tables: Tables,
    facts: Vec<TypeFact>,
) -> Result<Declared, CheckError> {
    let mut reader = Reader { tables, facts };
    let gathered = judge(alloc, sources, order, files, items, &mut reader)?;
    Ok(declared(alloc, reader.tables, gathered))
}

/// Reads the items, asks the rules, and gathers what is declared where none is broken.
fn judge(
    alloc: Global,
    sources: &Sources,
    order: &PackageOrder,
    files: &[Listed<'_>],
    items: &[Item<'_>],
    reader: &mut Reader,
) -> Result<Gathered, CheckError> {
    let made = reader.read_items(items)?;
    let tables = &mut reader.tables;
    let holds = order_of(alloc, holding(alloc, &tables.nodes)?.as_slice())?;
    let facts = ask_rules(alloc, tables, reader.facts.as_slice(), &holds)?;
    if !tables.violations.is_empty() {
        return Err(refusal(alloc, tables));
    }
    let gathered = gather(
        alloc,
        sources,
        order,
        files,
        items,
        made.as_slice(),
        tables,
        &facts,
        &holds,
    )?;
    Ok(gathered)
}

/// The first rule that is broken.
fn refusal(alloc: Global, tables: &mut Tables) -> CheckError {
    let violations = std::mem::replace(&mut tables.violations, Violations::new(alloc));
    match violations.first(alloc, &tables.nodes) {
        Ok(Some(violation)) => CheckError::Refused {
            pos: violation.at,
            rule: violation.rule,
        },
        Ok(None) => CheckError::from(lost()),
        Err(error) => CheckError::from(error),
    }
}
