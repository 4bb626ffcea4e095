//! Rows of numbers that grow.

ghost use Rattle.std.specs.Prelude.{◌≡◌, ◌<◌, ◌++◌, ◌∷◌, [], map, replicate, length, OnOk, OnErr, slice_set};
ghost use Rattle.go_graph.specs.Graph.{next};

use go_base::NoMemory;
use std::alloc::Global;

/// So many rows more, which are empty.
pub fn push_rows(alloc: Global, rows: &mut Vec<Vec<usize>>, count: usize) -> Result<(), NoMemory>
    ensures { OnOk result (map (λ r. r.items) rows.new.items ≡ map (λ r. r.items) rows.old.items ++ replicate count []) }
{
    for made in 0..count {
        rows.push(Vec::new(alloc))?;
    }
    Ok(())
}

/// A number at the end of a row. After `NoMemory` all is as before.
pub fn push_number(rows: &mut [Vec<usize>], row: usize, number: usize) -> Result<(), NoMemory>
    requires { row < length rows.old }
    ensures pushed { OnOk result (map (λ r. r.items) rows.new ≡ slice_set (map (λ r. r.items) rows.old) row (next (map (λ r. r.items) rows.old) row ++ number ∷ [])) }
    ensures err { OnErr result (map (λ r. r.items) rows.new ≡ map (λ r. r.items) rows.old) }
{
    rows[row].push(number)?;
    Ok(())
}
