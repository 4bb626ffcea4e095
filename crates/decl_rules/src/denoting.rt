//! What the nodes of types denote, and their underlying types. Go specification, "Underlying types", "Alias
//! declarations".

ghost use Rattle.std.specs.Prelude.{◌≡◌, ◌↔◌, ℕ, None, Some, map, length, slice_index_or, replicate, IfOk};
ghost use Rattle.go_graph.specs.Graph.{next};
ghost use Rattle.go_type.specs.Table.{term_at, underlying_of};
ghost use Rattle.decl_rules.specs.Denoting.{AreDenoted, ComesTo, constant_type, found_by, is_basic_term, settled, step, step_at, targets_of};

use decl_nodes::{Base, Kind, Nodes, TypeFact, is_marked, order_of};
use go_base::{NoMemory, TypeId};
use go_type::{Basic, TypeTerm, Types};
use std::alloc::Global;

/// What a type denotes.
#[derive(Clone, Copy)]
pub enum Denoted {
    /// A declared type, by its node.
    Declared(usize),
    /// A type form, by its node.
    Form(usize),
    Predeclared(TypeId),
}

/// Where the type of a node is found.
#[derive(Clone, Copy)]
enum Lead {
    /// It is that of another node.
    To(usize),
    Is(Denoted),
    Nowhere,
}

/// The types of nodes, as far as names tell them.
#[derive(Drop)]
pub struct Denoting {
    /// What each node denotes.
    pub denoted: Vec<Option<Denoted>>,
    /// The underlying type of each node, which is no declared type.
    pub under: Vec<Option<Denoted>>,
}

impl Denoting {
    /// What a node denotes.
    pub fn denoted(&self, node: usize) -> Option<Denoted>
        ensures { result ≡ slice_index_or self.now.denoted.items node None }
    {
        read(self.denoted.as_slice(), node)
    }

    /// The underlying type of a node.
    pub fn under(&self, node: usize) -> Option<Denoted>
        ensures { result ≡ slice_index_or self.now.under.items node None }
    {
        read(self.under.as_slice(), node)
    }
}

fn read(of: &[Option<Denoted>], node: usize) -> Option<Denoted>
    ensures { result ≡ slice_index_or of.now node None }
{
    match of.get(node) {
        Some(denoted) => *denoted,
        None => None,
    }
}

/// What the nodes denote, and their underlying types.
pub fn denote(alloc: Global, nodes: &Nodes) -> Result<Denoting, NoMemory>
    ensures { IfOk result (AreDenoted nodes.now.list) }
{
    let denoted = follow(alloc, nodes, false)?;
    let under = follow(alloc, nodes, true)?;
    Ok(Denoting { denoted, under })
}

/// What comes of each node where names, parentheses and aliases are followed, and declared types too where it is said.
fn follow(alloc: Global, nodes: &Nodes, through: bool) -> Result<Vec<Option<Denoted>>, NoMemory>
    ensures { IfOk result (λ v. (x : ℕ) (t : Denoted) → (slice_index_or v.items x None ≡ Some t) ↔ ComesTo nodes.now.list through x t) }
{
    let graph = leading(alloc, nodes, through)?;
    let order = order_of(alloc, graph.as_slice())?;
    let mut found = nothing_found(alloc, nodes.len())?;
    for number in &order.nodes {
        settle(&mut found, nodes, &order.cyclic, *number, through);
    }
    Ok(found)
}

/// Nothing is found yet.
fn nothing_found(alloc: Global, count: usize) -> Result<Vec<Option<Denoted>>, NoMemory>
    ensures { IfOk result (λ v. v.items ≡ replicate count None) }
{
    Ok(vec![in alloc; None; count]?)
}

/// The node to which each leads.
fn leading(alloc: Global, nodes: &Nodes, through: bool) -> Result<Vec<Vec<usize>>, NoMemory>
    ensures size { IfOk result (λ g. length g.items ≡ length nodes.now.list) }
    ensures rows { IfOk result (λ g. (x : ℕ) → next (map (λ r. r.items) g.items) x ≡ targets_of (step_at nodes.now.list through x)) }
{
    let mut graph = Vec::new(alloc);
    for (number, node) in nodes.as_slice().iter().enumerate() {
        graph.push(row_of(alloc, step(&node.kind, number, through))?)?;
    }
    Ok(graph)
}

fn row_of(alloc: Global, lead: Lead) -> Result<Vec<usize>, NoMemory>
    ensures { IfOk result (λ v. v.items ≡ targets_of lead) }
{
    match lead {
        Lead::To(to) => Ok(vec![in alloc; to]?),
        Lead::Is(_) | Lead::Nowhere => Ok(Vec::new(alloc)),
    }
}

/// Where the type of a node is found: a declared type's own where it is followed too.
fn step(kind: &Kind, number: usize, through: bool) -> Lead
    ensures { result ≡ step through number kind.now }
{
    match kind {
        Kind::Named(to) | Kind::Paren(to) => Lead::To(*to),
        Kind::Alias { form } => Lead::To(*form),
        Kind::Defined { form, .. } => {
            if through {
                Lead::To(*form)
            } else {
                Lead::Is(Denoted::Declared(number))
            }
        }
        Kind::Predeclared(of) => Lead::Is(Denoted::Predeclared(*of)),
        Kind::Pointer(_)
        | Kind::Slice(_)
        | Kind::Array { .. }
        | Kind::Map { .. }
        | Kind::Chan { .. }
        | Kind::Function(_)
        | Kind::Struct(_)
        | Kind::Interface(_) => Lead::Is(Denoted::Form(number)),
        _ => Lead::Nowhere,
    }
}

/// Finds the type of a node that does not lead back to itself, where that of the node to which it leads is found.
fn settle(
    found: &mut Vec<Option<Denoted>>,
    nodes: &Nodes,
    cyclic: &[bool],
    number: usize,
    through: bool,
)
    ensures { found.new.items ≡ settled nodes.now.list through cyclic.now number found.old.items }
{
    if number < found.len() && !is_marked(cyclic, number) {
        found[number] = found_at(nodes, found, number, through);
    }
}

fn found_at(
    nodes: &Nodes,
    found: &[Option<Denoted>],
    number: usize,
    through: bool,
) -> Option<Denoted>
    ensures { result ≡ found_by found.now (step_at nodes.now.list through number) }
{
    match step(nodes.kind(number)?, number, through) {
        Lead::To(to) => read(found, to),
        Lead::Is(denoted) => Some(denoted),
        Lead::Nowhere => None,
    }
}

/// The declared or predeclared type that a node denotes, where that has constants.
pub fn constant_type(types: &Types, facts: &[TypeFact], denoted: Option<Denoted>) -> Option<TypeId>
    ensures { result ≡ constant_type types.now facts.now denoted }
{
    match denoted? {
        Denoted::Declared(node) => {
            let fact = facts.get(node)?;
            match fact.base {
                Base::Basic(_) => fact.of,
                Base::Unknown | Base::Other => None,
            }
        }
        Denoted::Predeclared(of) => match types.get(of) {
            Some(TypeTerm::Basic(_)) => Some(of),
            _ => None,
        },
        Denoted::Form(_) => None,
    }
}

/// Whether a type is that of runes or bytes, and so on: a basic type of a kind.
pub fn is_basic(types: &Types, of: TypeId, kind: Basic) -> bool
    ensures { result ≡ is_basic_term kind (term_at types.now (underlying_of types.now of)) }
{
    matches!(types.underlying_term(of), Some(TypeTerm::Basic(other)) if *other == kind)
}
