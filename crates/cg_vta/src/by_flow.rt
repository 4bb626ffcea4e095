//! The call graph by flows of values.

ghost use Rattle.std.specs.Prelude.{◌≡◌, ◌↔◌, List, IfOk};
ghost use Rattle.std.specs.List.{Contains};
ghost use Rattle.std.specs.List.Sorted.{IsStrictlySortedBy};
ghost use Rattle.cg_sets.specs.Answering.{AreAnswers};
ghost use Rattle.cg_sets.specs.Candidates.{AreTypesOf};
ghost use Rattle.cg_sets.specs.InOrder.{edge_cmp};
ghost use Rattle.cg_sets.specs.Rules.{AreSeeds, AreSites};
ghost use Rattle.cg_sets.specs.declared.edges.Edge.{Edge};
ghost use Rattle.cg_solve.specs.Tables.{row};
ghost use Rattle.cg_vta.specs.Choosing.{AreBound};
ghost use Rattle.cg_vta.specs.Flows.{IsVtaEdge};
ghost use Rattle.cg_vta.specs.Passing.{AreFlows};
ghost use Rattle.go_base.specs.declared.ids.TypeId.{TypeId};
ghost use Rattle.go_tree.specs.declared.program.Program.{Program};
ghost use Rattle.go_type.specs.Table.{Table};

use crate::asks::asked_edges;
use crate::called::{bound_groups, called_groups};
use crate::facts::{facts_of, starts_of};
use crate::passing::flows_of;
use cg_numbers::{Sites, sites_of};
use cg_sets::{Answers, Edges, answers_of};
use go_base::{NoMemory, TypeId};
use go_tree::Program;
use std::alloc::Global;

/// The calls of values that flow to where they are called: a call of an interface's method calls that of each class that is in
/// its operand's node and implements the interface, and a call of a function value what each function value in its node stands
/// for.
pub fn vta(alloc: Global, program: &Program) -> Result<Edges, NoMemory>
    ensures exact { IfOk result (λ edges. (types : Table) × (bares : List TypeId) × AreTypesOf program.now types bares × ((e : Edge) → Contains edges e ↔ IsVtaEdge program.now types bares e)) }
    ensures ascending { IfOk result (IsStrictlySortedBy edge_cmp) }
{
    let mut met = sites_of(alloc, program)?;
    let bound = bound_groups(alloc, &mut met.numbers)?;
    let all = answers_of(alloc, program, &mut met.numbers)?;
    edges_by_flow(alloc, program.error_string, met, bound, &all)
}

/// The edges of the calls that were met, where all candidates of their groups are given. `fault` is the type of the faults of
/// a run.
fn edges_by_flow(
    alloc: Global,
    fault: TypeId,
    met: Sites,
    bound: Vec<usize>,
    all: &Answers,
) -> Result<Edges, NoMemory>
    ensures exact { (p : Program) → p.error_string ≡ fault → AreSites p met.numbers met.sites.items → AreSeeds p met.numbers met.seeds.items → AreFlows p met.numbers met.flows.items → AreBound p met.numbers bound.items → AreAnswers p met.numbers (row all.now.rows) → IfOk result (λ edges. (e : Edge) → Contains edges e ↔ IsVtaEdge p met.numbers.likeness.types met.numbers.likeness.bares e) }
    ensures ascending { IfOk result (IsStrictlySortedBy edge_cmp) }
{
    let mut met = met;
    let called = called_groups(alloc, &met, bound, all)?;
    let starts = starts_of(&mut met.numbers, fault)?;
    let rules = flows_of(
        alloc,
        &mut met.numbers,
        met.flows.as_slice(),
        all,
        called.as_slice(),
    )?;
    let facts = facts_of(alloc, &met, all, rules.as_slice(), starts)?;
    asked_edges(alloc, met.sites.as_slice(), all, &facts, starts.nothing)
}
