//! The parameters of the three graphs are closed under what a run does.

ghost use Rattle.std.specs.Prelude.{List};
ghost use Rattle.cg_closed.specs.Closed.{IsClosed};
ghost use Rattle.cg_sets.specs.Graphs.{Always, Anywhere, Known, Reached, Rta};
ghost use Rattle.cg_vta.specs.Flows.{Vta};
ghost use Rattle.go_base.specs.declared.ids.TypeId.{TypeId};
ghost use Rattle.go_tree.specs.declared.program.Program.{Program};
ghost use Rattle.go_type.specs.Table.{Table};

/// By classes and signatures any value may be anywhere, and any function may run.
pub fn cha_is_closed()
    ensures { (p : Program) (types : Table) (bares : List TypeId) → IsClosed p types bares (Anywhere p types bares) (Always p types bares) }
{}

/// By what is reached any value may be anywhere that is made in a function that is reached.
pub fn rta_is_closed()
    ensures { (p : Program) (types : Table) (bares : List TypeId) → IsClosed p types bares (λ n v. Rta p types bares (Known v)) (λ f. Rta p types bares (Reached f)) }
{}

/// By flows a value may be where flows lead from where it is made, and any function may run.
pub fn vta_is_closed()
    ensures { (p : Program) (types : Table) (bares : List TypeId) → IsClosed p types bares (Vta p types bares) (Always p types bares) }
{}
