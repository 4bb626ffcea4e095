//! Call graphs of a program: their listing, and how many edges they have.

ghost use Rattle.std.specs.Prelude.{◌≤◌, IfOk, IsErrOf, OnErr, OnOk, Option};
ghost use Rattle.cg_listing.specs.Listing.{Writes, WritesFront};
ghost use Rattle.command_line.specs.declared.command.Graph.{Graph};
ghost use Rattle.go_base.specs.Devices.{HasFaulted};
ghost use Rattle.go_sources.specs.Sources.{files_of};
ghost use Rattle.program_work.specs.Graphs.{AreAsked, IsGraph};
ghost use Rattle.program_work.specs.Working.{Lists, ListsFront};
ghost use Rattle.program_work.specs.declared.stop.Stop.TheVariants.{WriteFault};

use crate::stop::Stop;
use cg_listing::write_edges;
use cg_sets::{Edges, cha, rta};
use cg_vta::vta;
use command_line::Graph;
use go_base::{NoMemory, PrintError, Sink};
use go_sources::Sources;
use go_tree::Program;
use std::alloc::Global;

/// Lists a graph, where one is asked.
pub fn list_graph<O: Sink>(
    alloc: Global,
    graph: Option<Graph>,
    sources: &Sources,
    program: &Program,
    out: &mut O,
) -> Result<(), Stop>
    ensures lists { OnOk result (Lists (files_of sources.now) program.now graph (O.written out.old) (O.written out.new)) }
    ensures front { OnErr result (ListsFront (files_of sources.now) program.now graph (O.written out.old) (O.written out.new)) }
    ensures fault { IsErrOf result WriteFault → HasFaulted (O.faults out.old) (O.faults out.new) }
    ensures later { O.faults out.old ≤ O.faults out.new }
{
    let edges = asked_edges(alloc, graph, program)?;
    list_asked(alloc, &edges, sources, program, out)
}

/// Lists the edges of the graph that is asked, where one is.
pub fn list_asked<O: Sink>(
    alloc: Global,
    edges: &Option<Edges>,
    sources: &Sources,
    program: &Program,
    out: &mut O,
) -> Result<(), Stop>
    ensures lists { (graph : Option Graph) → AreAsked graph program.now edges.now → OnOk result (Lists (files_of sources.now) program.now graph (O.written out.old) (O.written out.new)) }
    ensures front { (graph : Option Graph) → AreAsked graph program.now edges.now → OnErr result (ListsFront (files_of sources.now) program.now graph (O.written out.old) (O.written out.new)) }
    ensures fault { IsErrOf result WriteFault → HasFaulted (O.faults out.old) (O.faults out.new) }
    ensures later { O.faults out.old ≤ O.faults out.new }
{
    match edges {
        Some(edges) => list_edges(alloc, edges, sources, program, out),
        None => Ok(()),
    }
}

// Lists edges.
fn list_edges<O: Sink>(
    alloc: Global,
    edges: &Edges,
    sources: &Sources,
    program: &Program,
    out: &mut O,
) -> Result<(), Stop>
    ensures lists { OnOk result (Writes (files_of sources.now) program.now edges.now (O.written out.old) (O.written out.new)) }
    ensures front { OnErr result (WritesFront (files_of sources.now) program.now edges.now (O.written out.old) (O.written out.new)) }
    ensures fault { IsErrOf result WriteFault → HasFaulted (O.faults out.old) (O.faults out.new) }
    ensures later { O.faults out.old ≤ O.faults out.new }
{
    match write_edges(alloc, sources, program, edges, out) {
        Ok(()) => Ok(()),
        Err(PrintError::WriteFault) => Err(Stop::WriteFault),
        Err(PrintError::OutOfMemory) => Err(Stop::OutOfMemory),
    }
}

/// The edges of the graph that is asked, where one is.
pub fn asked_edges(
    alloc: Global,
    graph: Option<Graph>,
    program: &Program,
) -> Result<Option<Edges>, NoMemory>
    ensures { IfOk result (AreAsked graph program.now) }
{
    match graph {
        Some(graph) => Ok(Some(edges_of(alloc, graph, program)?)),
        None => Ok(None),
    }
}

/// The edges of a graph.
pub fn edges_of(alloc: Global, graph: Graph, program: &Program) -> Result<Edges, NoMemory>
    ensures { IfOk result (IsGraph graph program.now) }
{
    match graph {
        Graph::Cha => cha(alloc, program),
        Graph::Rta => rta(alloc, program),
        Graph::Vta => vta(alloc, program),
    }
}
