//! The listing of a call graph: a line for each edge, with caller, site and callee.

ghost use Rattle.std.specs.Prelude.{◌≡◌, ◌≤◌, ◌++◌, ℕ, List, map, IsErrOf, OnOk, OnErr};
ghost use Rattle.std.specs.Io.KnownBytes.{Appends};
ghost use Rattle.go_base.specs.Devices.{HasFaulted, AppendsFront};
ghost use Rattle.go_base.specs.declared.devices.PrintError.TheVariants.{WriteFault};
ghost use Rattle.go_sources.specs.Sources.{files_of};
ghost use Rattle.cg_listing.specs.Listing.{line_text, lines_text, Writes, WritesFront};
ghost use Rattle.cg_listing.specs.Rows.{IsNamed, line_of_row};

use crate::names::FunctionNames;
use crate::pending::{write_all, write_if_long};
use crate::places::NamedSite;
use crate::rows::{Row, rows_in_order};
use cg_sets::Edges;
use go_base::{NoMemory, PrintError, Sink};
use go_sources::Sources;
use go_tree::Program;
use std::alloc::Global;

/// Writes a line for each edge: the caller's name, the path, line and column of the site, and the callee's name, with tabs
/// between. Lines ascend by the bytes of the caller and of the path, then by offset, then by the bytes of the callee.
pub fn write_edges<O: Sink>(
    alloc: Global,
    sources: &Sources,
    program: &Program,
    edges: &Edges,
    out: &mut O,
) -> Result<(), PrintError>
    ensures listing { OnOk result (Writes (files_of sources.now) program.now edges.now (O.written out.old) (O.written out.new)) }
    ensures front { OnErr result (WritesFront (files_of sources.now) program.now edges.now (O.written out.old) (O.written out.new)) }
    ensures written { (text : List ℕ) × Appends (O.written out.old) (O.written out.new) text }
    ensures later { O.faults out.old ≤ O.faults out.new }
    ensures fault { IsErrOf result WriteFault → HasFaulted (O.faults out.old) (O.faults out.new) }
{
    let Ok(names) = FunctionNames::of(alloc, program) else {
        return Err(PrintError::OutOfMemory);
    };
    let Ok(rows) = rows_in_order(alloc, sources, &names, edges.as_slice()) else {
        return Err(PrintError::OutOfMemory);
    };
    write_rows(alloc, sources, rows.as_slice(), out)
}

fn write_rows<O: Sink>(
    alloc: Global,
    sources: &Sources,
    rows: &[Row],
    out: &mut O,
) -> Result<(), PrintError>
    ensures written { OnOk result (Appends (O.written out.old) (O.written out.new) (lines_text (files_of sources.now) (map line_of_row rows.now))) }
    ensures front { OnErr result (AppendsFront (O.written out.old) (O.written out.new) (lines_text (files_of sources.now) (map line_of_row rows.now))) }
    ensures later { O.faults out.old ≤ O.faults out.new }
    ensures fault { IsErrOf result WriteFault → HasFaulted (O.faults out.old) (O.faults out.new) }
{
    let mut text = Vec::new(alloc);
    let mut named = NamedSite::new(alloc);
    for row in rows {
        let Ok(()) = push_row(alloc, &mut text, &mut named, sources, row) else {
            return Err(PrintError::OutOfMemory);
        };
        write_if_long(&mut text, out)?;
    }
    write_all(&mut text, out)
}

fn push_row(
    alloc: Global,
    text: &mut Vec<u8>,
    named: &mut NamedSite,
    sources: &Sources,
    row: &Row,
) -> Result<(), NoMemory>
    requires { IsNamed (files_of sources.now) named.old.site named.old.text.items }
    ensures named { OnOk result (IsNamed (files_of sources.now) named.new.site named.new.text.items) }
    ensures text { OnOk result (text.new.items ≡ text.old.items ++ line_text (files_of sources.now) (line_of_row row.now)) }
{
    named.name(alloc, sources, row.site())?;
    text.extend_from_slice(row.caller)?;
    text.push(b'\t')?;
    text.extend_from_slice(named.text())?;
    text.push(b'\t')?;
    text.extend_from_slice(row.callee)?;
    text.push(b'\n')?;
    Ok(())
}
