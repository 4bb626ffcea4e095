//! Numbers that are given once each.

ghost use Rattle.std.specs.Prelude.{◌≡◌, IfOk, map};
ghost use Rattle.typed_trees.specs.Nodes.{are_distinct};

use go_base::NoMemory;
use go_tree::{FieldInit, ItemInit};
use indexmap::IndexSet;
use std::alloc::Global;

/// Whether each field is given at most once.
pub fn are_distinct_fields(alloc: Global, fields: &[FieldInit]) -> Result<bool, NoMemory>
    ensures { IfOk result (λ r. r ≡ are_distinct (map (λ x. x.field) fields.now)) }
{
    let mut numbers = Vec::new(alloc);
    for field in fields {
        numbers.push(u64::from(field.field))?;
    }
    are_distinct(alloc, numbers.as_slice())
}

/// Whether each index is given at most once.
pub fn are_distinct_items(alloc: Global, items: &[ItemInit]) -> Result<bool, NoMemory>
    ensures { IfOk result (λ r. r ≡ are_distinct (map (λ x. x.index) items.now)) }
{
    let mut numbers = Vec::new(alloc);
    for item in items {
        numbers.push(item.index)?;
    }
    are_distinct(alloc, numbers.as_slice())
}

/// Whether each number is given at most once.
fn are_distinct(alloc: Global, numbers: &[u64]) -> Result<bool, NoMemory>
    ensures { IfOk result (λ r. r ≡ are_distinct numbers.now) }
{
    let mut given = IndexSet::new(alloc);
    for number in numbers {
        let is_new = given.insert(*number)?;
        if !is_new {
            return Ok(false);
        }
    }
    Ok(true)
}
