//! How the graph lies within that of classes and signatures.

ghost use Rattle.std.specs.Prelude.{List};
ghost use Rattle.cg_sets.specs.Graphs.{IsChaEdge};
ghost use Rattle.cg_sets.specs.declared.edges.Edge.{Edge};
ghost use Rattle.cg_vta.specs.Flows.{IsVtaEdge};
ghost use Rattle.go_base.specs.declared.ids.TypeId.{TypeId};
ghost use Rattle.go_tree.specs.declared.program.Program.{Program};
ghost use Rattle.go_type.specs.Table.{Table};

/// Each edge by flows of values is one by classes and signatures alone.
pub fn vta_within_cha()
    ensures { (p : Program) (types : Table) (bares : List TypeId) (e : Edge) → IsVtaEdge p types bares e → IsChaEdge p types bares e }
{}
