//! What the names of types are declared as, before their types are read: whether their constants are known. Go
//! specification, "Underlying types", "Alias declarations".

use crate::error::lost;
use crate::graphs::{add_edge, is_marked, no_edges, order_of};
use crate::items::{Form, Item};
use crate::nodes::Kind;
use crate::tables::{Found, Sort, Spot, Tables};
use go_ast::Token;
use go_base::{NoMemory, TypeId};
use go_names::Entity;
use go_sources::SourceFile;
use go_syntax::{NamedType, TypeExpr};
use go_type::{Basic, TypeTerm, Types, basic};

/// The underlying type, as far as constants go.
#[derive(Clone, Copy)]
pub enum Base {
    /// There is none.
    Unknown,
    /// A type without constants.
    Other,
    Basic(Basic),
}

/// What is known of a declared type or an alias by the names that it is declared as.
#[derive(Clone, Copy)]
pub struct TypeFact {
    pub base: Base,
    /// The declared or predeclared type that it denotes.
    pub of: Option<TypeId>,
    /// Itself, or for an alias of a name what that leads to. None on a cycle of aliases.
    pub canon: Option<usize>,
    /// The declaration that it is declared as.
    pub target: Option<usize>,
}

/// What a type is declared as.
#[derive(Clone, Copy)]
enum Target {
    Unknown,
    Form,
    Declared(usize),
    Predeclared(TypeId),
}

/// What is known of each declaration; of what is no type nothing.
pub fn type_facts(tables: &mut Tables, items: &[Item<'_>]) -> Result<Vec<TypeFact>, NoMemory> {
    let count = tables.declarations.len();
    let targets = targets_of(tables, items, count)?;
    let mut graph = no_edges(tables.alloc, count)?;
    for (node, target) in targets.as_slice().iter().enumerate() {
        if let Target::Declared(to) = target {
            add_edge(&mut graph, node, *to)?;
        }
    }
    let order = order_of(tables.alloc, graph.as_slice())?;
    let mut facts = Vec::new(tables.alloc);
    for _ in 0..count {
        facts.push(TypeFact {
            base: Base::Unknown,
            of: None,
            canon: None,
            target: None,
        })?;
    }
    for node in order.nodes.as_slice() {
        let is_cyclic = is_marked(order.cyclic.as_slice(), *node);
        let fact = fact_of(
            tables,
            targets.as_slice(),
            facts.as_slice(),
            *node,
            is_cyclic,
        );
        if let Some(place) = facts.get_mut(*node) {
            *place = fact;
        }
    }
    Ok(facts)
}

fn targets_of(
    tables: &mut Tables,
    items: &[Item<'_>],
    count: usize,
) -> Result<Vec<Target>, NoMemory> {
    let mut targets = Vec::new(tables.alloc);
    for _ in 0..count {
        targets.push(Target::Unknown)?;
    }
    for item in items {
        if let Form::TypeForm { node, form } = item.form {
            let spot = Spot {
                package: item.listed.package,
                file: item.listed.file,
                repeated: None,
                iota: None,
                owner: None,
            };
            let target = target_of(tables, item.listed.source, spot, form)?;
            if let Some(place) = targets.get_mut(node) {
                *place = target;
            }
        }
    }
    Ok(targets)
}

/// A type without the parentheses round it.
pub fn bare_type(form: &TypeExpr) -> &TypeExpr {
    let mut inside = form;
    while let TypeExpr::Paren { inner, .. } = inside {
        inside = inner;
    }
    inside
}

fn target_of(
    tables: &mut Tables,
    source: &SourceFile,
    spot: Spot,
    form: &TypeExpr,
) -> Result<Target, NoMemory> {
    match bare_type(form) {
        TypeExpr::Name(name) => {
            let found = find_type(tables, source, spot, *name)?;
            Ok(target_found(tables, found))
        }
        _ => Ok(Target::Form),
    }
}

fn target_found(tables: &Tables, found: Found) -> Target {
    match found {
        Found::Declared(node) => match tables.sort(node) {
            Some(Sort::Defined | Sort::Alias) => Target::Declared(node),
            _ => Target::Unknown,
        },
        Found::Universe(Entity::TypeName(of)) => Target::Predeclared(of),
        _ => Target::Unknown,
    }
}

/// What a name of a type stands for; of a qualified one what its package exports.
pub fn find_type(
    tables: &mut Tables,
    source: &SourceFile,
    spot: Spot,
    name: NamedType,
) -> Result<Found, NoMemory> {
    match name {
        NamedType::Local(name) => {
            let name = tables.name(source, name)?;
            Ok(tables.find(spot, name))
        }
        NamedType::Imported { package, name, .. } => {
            let package = tables.name(source, package)?;
            match tables.find(spot, package) {
                Found::Import(import) => exported(tables, source, import.package, name),
                _ => Ok(Found::Nothing),
            }
        }
    }
}

/// What a package exports under a name.
pub fn exported(
    tables: &mut Tables,
    source: &SourceFile,
    package: u32,
    name: Token,
) -> Result<Found, NoMemory> {
    let text = source.text(name);
    if !go_scan::is_exported(text) {
        return Ok(Found::Nothing);
    }
    let name = tables.name_of(text)?;
    match tables.find_in_package(package, name) {
        Some(node) => Ok(Found::Declared(node)),
        None => Ok(Found::Nothing),
    }
}

/// The base of a predeclared type.
pub fn base_of(types: &Types, of: TypeId) -> Base {
    match types.get(of) {
        Some(TypeTerm::Basic(kind)) => Base::Basic(*kind),
        _ => Base::Other,
    }
}

fn fact_of(
    tables: &Tables,
    targets: &[Target],
    facts: &[TypeFact],
    node: usize,
    is_cyclic: bool,
) -> TypeFact {
    let target = targets.get(node).copied().unwrap_or(Target::Unknown);
    let mut fact = fact_by(tables, facts, node, target);
    if is_cyclic {
        fact.base = Base::Unknown;
        fact.of = None;
        fact.canon = None;
    }
    if let Some(Kind::Defined { of, .. }) = tables.nodes.kind(node) {
        fact.of = Some(*of);
        fact.canon = Some(node);
    }
    fact
}

fn fact_by(tables: &Tables, facts: &[TypeFact], node: usize, target: Target) -> TypeFact {
    match target {
        Target::Unknown => TypeFact {
            base: Base::Unknown,
            of: None,
            canon: None,
            target: None,
        },
        Target::Form => TypeFact {
            base: Base::Other,
            of: None,
            canon: Some(node),
            target: None,
        },
        Target::Predeclared(of) => TypeFact {
            base: base_of(&tables.types, of),
            of: Some(of),
            canon: None,
            target: None,
        },
        Target::Declared(to) => {
            let below = facts.get(to).copied();
            TypeFact {
                base: below.map_or(Base::Unknown, |fact| fact.base),
                of: below.and_then(|fact| fact.of),
                canon: below.and_then(|fact| fact.canon),
                target: Some(to),
            }
        }
    }
}

/// Gives the declared types whose underlying type is basic that type.
pub fn define_basic(tables: &mut Tables, facts: &[TypeFact]) -> Result<(), NoMemory> {
    for (node, fact) in facts.iter().enumerate() {
        if let (Some(Sort::Defined), Some(of), Base::Basic(kind)) = (
            tables.sort(node),
            fact.of,
            fact.base,
        ) {
            let under = basic(kind);
            if !tables.types.can_define(of, under) {
                return Err(lost());
            }
            tables.types.define(of, under);
        }
    }
    Ok(())
}
