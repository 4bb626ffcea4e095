//! The lines of a listing, in order.

ghost use Rattle.std.specs.Prelude.{◌≡◌, map, IfOk};
ghost use Rattle.go_sources.specs.Sources.{files_of};
ghost use Rattle.cg_listing.specs.Listing.{line_by, name_in, path_of, IsInOrder};
ghost use Rattle.cg_listing.specs.Rows.{line_of_row};

use crate::names::FunctionNames;
use cg_sets::Edge;
use go_base::{NoMemory, Pos};
use go_sources::Sources;
use std::alloc::Global;

/// A line, by what lines are ordered by.
#[derive(Clone, Copy, PartialEq, Eq, PartialOrd, Ord)]
pub struct Row<'a> {
    pub caller: &'a [u8],
    pub path: &'a [u8],
    pub offset: u32,
    pub callee: &'a [u8],
    pub file: u32,
}

impl<'a> Row<'a> {
    /// Where the call stands.
    pub fn site(&self) -> Pos
        ensures { result ≡ (line_of_row self.now).site }
    {
        Pos {
            file: self.file,
            offset: self.offset,
        }
    }
}

/// The lines of edges, in order.
pub fn rows_in_order<'a>(
    alloc: Global,
    sources: &'a Sources,
    names: &'a FunctionNames,
    edges: &[Edge],
) -> Result<Vec<Row<'a>>, NoMemory>
    ensures { IfOk result (λ rows. IsInOrder (map (line_by (name_in names.now) (files_of sources.now)) edges.now) (map line_of_row rows.items)) }
{
    let mut rows = rows_of(alloc, sources, names, edges)?;
    rows.sort()?;
    Ok(rows)
}

fn rows_of<'a>(
    alloc: Global,
    sources: &'a Sources,
    names: &'a FunctionNames,
    edges: &[Edge],
) -> Result<Vec<Row<'a>>, NoMemory>
    ensures { IfOk result (λ rows. map line_of_row rows.items ≡ map (line_by (name_in names.now) (files_of sources.now)) edges.now) }
{
    let mut rows = Vec::new(alloc);
    for edge in edges {
        rows.push(row_of(sources, names, *edge))?;
    }
    Ok(rows)
}

fn row_of<'a>(sources: &'a Sources, names: &'a FunctionNames, edge: Edge) -> Row<'a>
    ensures { line_of_row result ≡ line_by (name_in names.now) (files_of sources.now) edge }
{
    Row {
        caller: names.get(edge.caller),
        path: path_of(sources, edge.site.file),
        offset: edge.site.offset,
        callee: names.get(edge.callee),
        file: edge.site.file,
    }
}

/// The path of a file. Nothing where there is no such file.
fn path_of(sources: &Sources, file: u32) -> &[u8]
    ensures { result.now ≡ path_of (files_of sources.now) file }
{
    match sources.file(file) {
        Some(found) => found.path.as_str().as_bytes(),
        None => &[],
    }
}
