//! What the rules look at, and the rules themselves, in the order in which they are asked.

use crate::cycles::{blame_cycles, incomparable};
use crate::denoting::denote;
use crate::extent::{find_leaves, find_nestings};
use crate::rows::{Facts, blame_methods, blame_types};
use crate::shapes::find_shapes;
use crate::values::find_values;
use decl_nodes::{Order, Tables, TypeFact, order_of};
use go_base::NoMemory;
use std::alloc::Global;

/// Finds what the rules look at, and asks them.
pub fn ask_rules(
    alloc: Global,
    tables: &mut Tables,
    type_facts: &[TypeFact],
    holds: &Order,
) -> Result<Facts, NoMemory> {
    let order = order_of(alloc, tables.nodes.edges())?;
    let facts = find_facts(alloc, tables, type_facts, holds, &order)?;
    blame_types(tables, &facts)?;
    blame_methods(tables, &facts)?;
    blame_cycles(tables, type_facts, holds, &order)?;
    Ok(facts)
}

/// What the rules look at.
fn find_facts(
    alloc: Global,
    tables: &mut Tables,
    type_facts: &[TypeFact],
    holds: &Order,
    order: &Order,
) -> Result<Facts, NoMemory> {
    let denoting = denote(alloc, &tables.nodes)?;
    let values = find_values(
        alloc,
        &tables.nodes,
        &tables.types,
        type_facts,
        &denoting,
        order,
        &mut tables.violations,
    )?;
    let shapes = find_shapes(alloc, &tables.nodes, &mut tables.types, &values, &denoting)?;
    let leaves = find_leaves(alloc, &tables.nodes, &values, holds)?;
    let nestings = find_nestings(alloc, &tables.nodes, &tables.types, &denoting)?;
    let incomparable = incomparable(alloc, &tables.nodes)?;
    Ok(Facts {
        denoting,
        values,
        shapes,
        leaves,
        nestings,
        incomparable,
    })
}
