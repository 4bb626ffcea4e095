//! How the graphs lie within each other.

ghost use Rattle.std.specs.Prelude.{List};
ghost use Rattle.cg_sets.specs.Graphs.{IsChaEdge, IsRtaEdge};
ghost use Rattle.cg_sets.specs.declared.edges.Edge.{Edge};
ghost use Rattle.go_base.specs.declared.ids.TypeId.{TypeId};
ghost use Rattle.go_tree.specs.declared.program.Program.{Program};
ghost use Rattle.go_type.specs.Table.{Table};

/// Each edge of what is reached is one by classes and signatures alone.
pub fn rta_within_cha()
    ensures { (p : Program) (types : Table) (bares : List TypeId) (e : Edge) → IsRtaEdge p types bares e → IsChaEdge p types bares e }
{}
