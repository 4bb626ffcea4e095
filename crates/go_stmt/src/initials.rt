//! The initialisers of package variables. Go specification, "Variable declarations", "Package initialization".

use crate::error::lost;
use go_base::{NoMemory, Pos, Rule, TypeId, VarId};
use go_bodies::{bodies_of_expr, bodies_of_list};
use go_faults::Least;
use go_graph::{Components, components_of, is_graph, on_themselves};
use go_names::{FileScopes, Mention, Mentioned};
use go_scope::Scope;
use go_sources::Sources;
use go_syntax::{Decl, DeclLine, ListedExpr, ListedName, ValueSpec};
use go_tree::{Packages, Values, Variable};
use std::alloc::Global;
use std::collections::BTreeMap;
use stmt_rules::{Holder, Walker, kept, mentions_from, push_come};
use typed_parts::{Seen, beside};
use typed_primaries::{Into, Listed, values_into};

/// The values of an initialisation.
#[derive(Clone, Copy)]
pub enum Given<'s> {
    One(&'s ListedExpr),
    All(&'s [ListedExpr]),
}

/// The initialisation of one variable by its value, or of several by one call.
#[derive(Drop)]
pub struct Initial<'s> {
    pub package: u32,
    pub file: u32,
    /// The name of its first variable.
    pub at: Pos,
    pub variables: Vec<VarId>,
    /// Whether the variables have a written type.
    pub has_form: bool,
    pub given: Given<'s>,
    /// The values, where they are sound.
    pub values: Option<Values>,
    /// By variable the type of its value, where that is sound.
    types: Vec<Option<TypeId>>,
    is_seen: bool,
}

/// The initialisations of a program, in the order of packages, files and places.
#[derive(Drop)]
pub struct Initials<'s> {
    pub list: Vec<Initial<'s>>,
    /// By variable without a written type: which initialisation gives it its value.
    of_variable: Vec<Option<usize>>,
}

/// The initialisations of all packages.
pub fn find_initials<'s>(walker: &Walker<'s>) -> Result<Initials<'s>, NoMemory> {
    let places = places_of(walker.alloc, walker.scope.variables())?;
    let files = files_in_order(walker.alloc, walker.scope.packages(), walker.sources);
    let (files, places) = beside(files, places)?;
    let mut list = Vec::new(walker.alloc);
    let found = Found {
        alloc: walker.alloc,
        sources: walker.sources,
        places: &places,
    };
    let done = push_files(found, walker.scope.files(), &files, &mut list);
    drop((places, files));
    let list = kept(list, done)?;
    let given = givers(walker.alloc, &list, walker.package_variables);
    let (of_variable, list) = beside(given, list)?;
    Ok(Initials { list, of_variable })
}

/// By what initialisations are found: the sources, and which variables stand at which places.
#[derive(Clone, Copy)]
struct Found<'a, 's> {
    alloc: Global,
    sources: &'s Sources,
    places: &'a BTreeMap<Pos, usize>,
}

/// Which variables stand at which places.
fn places_of(alloc: Global, variables: &[Variable]) -> Result<BTreeMap<Pos, usize>, NoMemory> {
    let mut places = BTreeMap::new(alloc);
    for (index, variable) in variables.iter().enumerate() {
        places.insert(variable.at, index)?;
    }
    Ok(places)
}

/// The files, in the order of packages and names.
pub fn files_in_order(
    alloc: Global,
    packages: &Packages,
    sources: &Sources,
) -> Result<Vec<u32>, NoMemory> {
    let mut files = Vec::new(alloc);
    for package in packages.as_slice() {
        push_files_of(sources, &mut files, package.first_file)?;
    }
    Ok(files)
}

/// The files of a package, of which one is the first.
fn push_files_of(sources: &Sources, files: &mut Vec<u32>, first: u32) -> Result<(), NoMemory> {
    let Some(source) = sources.file(first) else {
        return Ok(());
    };
    for file in first..u32::MAX {
        match sources.file(file) {
            Some(other) if other.package == source.package => files.push(file)?,
            _ => return Ok(()),
        }
    }
    Ok(())
}

/// The initialisations of files.
fn push_files<'s>(
    found: Found<'_, 's>,
    scopes: &FileScopes,
    files: &[u32],
    list: &mut Vec<Initial<'s>>,
) -> Result<(), NoMemory> {
    for file in files {
        let package = match scopes.file(*file) {
            Some(scope) => scope.package,
            None => 0,
        };
        push_file(found, package, *file, list)?;
    }
    Ok(())
}

/// The initialisations of a file.
fn push_file<'s>(
    found: Found<'_, 's>,
    package: u32,
    file: u32,
    list: &mut Vec<Initial<'s>>,
) -> Result<(), NoMemory> {
    let sources: &'s Sources = found.sources;
    let Some(source) = sources.file(file) else {
        return Ok(());
    };
    for line in &source.tree.decls {
        for spec in variable_specs(line) {
            push_spec(found, package, file, spec, list)?;
        }
    }
    Ok(())
}

/// The initialisations of a specification: one for each name and value, or one for all.
fn push_spec<'s>(
    found: Found<'_, 's>,
    package: u32,
    file: u32,
    spec: &'s ValueSpec,
    list: &mut Vec<Initial<'s>>,
) -> Result<(), NoMemory> {
    if spec.values.is_empty() {
        return Ok(());
    }
    let has_form = spec.form.is_some();
    if spec.values.len() != spec.names.len() {
        let given = Given::All(spec.values.as_slice());
        let variables = found.variables(file, &spec.names);
        return push_come(
            list,
            new_initial(found.alloc, package, variables, has_form, given),
        );
    }
    for (index, value) in spec.values.iter().enumerate() {
        if let Some(name) = spec.names.get(index) {
            let variables = found.variables(file, &[*name]);
            let given = Given::One(value);
            push_come(
                list,
                new_initial(found.alloc, package, variables, has_form, given),
            )?;
        }
    }
    Ok(())
}

impl<'a, 's> Found<'a, 's> {
    /// The variables of names in a file, and the place of the first.
    fn variables(self, file: u32, names: &[ListedName]) -> Result<(Pos, Vec<VarId>), NoMemory> {
        let mut variables = Vec::new(self.alloc);
        for name in names {
            let at = Pos {
                file,
                offset: name.name.start,
            };
            let Some(number) = self.places.get(&at) else {
                return Err(lost());
            };
            variables.push(VarId {
                number: *number as u64,
            })?;
        }
        let offset = match names.first() {
            Some(name) => name.name.start,
            None => 0,
        };
        Ok((Pos { file, offset }, variables))
    }
}

fn new_initial<'s>(
    alloc: Global,
    package: u32,
    variables: Result<(Pos, Vec<VarId>), NoMemory>,
    has_form: bool,
    given: Given<'s>,
) -> Result<Initial<'s>, NoMemory> {
    let (at, variables) = variables?;
    Ok(Initial {
        package,
        file: at.file,
        at,
        variables,
        has_form,
        given,
        values: None,
        types: Vec::new(alloc),
        is_seen: false,
    })
}

/// Which initialisation gives each variable without a written type its value.
fn givers(
    alloc: Global,
    list: &[Initial<'_>],
    count: usize,
) -> Result<Vec<Option<usize>>, NoMemory> {
    let mut of_variable = Vec::new(alloc);
    for _ in 0..count {
        of_variable.push(None)?;
    }
    for (index, initial) in list.iter().enumerate() {
        if !initial.has_form {
            set_all(&mut of_variable, &initial.variables, index);
        }
    }
    Ok(of_variable)
}

/// Types all initialisers: first those of variables without a written type, in an order in which each comes after
/// those that it names; then the others; then the bodies of the literals in them.
pub fn walk_initials<'s>(
    walker: &mut Walker<'s>,
    initials: &mut Initials<'s>,
) -> Result<(), NoMemory> {
    let graph = graph_of_initials(walker, initials)?;
    let grouped = in_groups(walker, initials, &graph);
    drop(graph);
    grouped?;
    for (index, initial) in initials.list.iter_mut().enumerate() {
        if initial.has_form {
            see_initial(walker, index, initial)?;
        }
    }
    for (index, initial) in initials.list.iter().enumerate() {
        walker.enter_file(initial.file);
        let from = walker.scope.mention_count();
        match initial.given {
            Given::One(value) => bodies_of_expr(walker, &value.expr)?,
            Given::All(values) => bodies_of_list(walker, values)?,
        }
        walker.read_by(Holder::Step(index), from)?;
    }
    Ok(())
}

/// Types an initialiser.
fn see_initial<'s>(
    walker: &mut Walker<'s>,
    index: usize,
    initial: &mut Initial<'s>,
) -> Result<(), NoMemory> {
    let from = walker.scope.mention_count();
    let listed = listed_values(walker, initial)?;
    drop(std::mem::replace(&mut initial.values, listed.values));
    drop(std::mem::replace(&mut initial.types, listed.types));
    initial.is_seen = true;
    walker.read_by(Holder::Step(index), from)
}

/// The values of an initialiser, made ones of the types of its variables.
fn listed_values<'s>(walker: &mut Walker<'s>, initial: &Initial<'s>) -> Result<Listed, NoMemory> {
    walker.enter_file(initial.file);
    let values = see_given(walker, initial.given)?;
    let (intos, values) = beside(intos_of(walker, initial), values)?;
    values_into(walker.scope.ground(), initial.at, values, &intos, true)
}

/// Where the values of an initialiser go.
fn intos_of<'s>(walker: &Walker<'s>, initial: &Initial<'s>) -> Result<Vec<Into>, NoMemory> {
    let mut intos = Vec::new(walker.alloc);
    for variable in &initial.variables {
        intos.push(match walker.scope.variable(*variable) {
            Some(variable) if initial.has_form => Into::Type(variable.of),
            _ => Into::Any,
        })?;
    }
    Ok(intos)
}

fn see_given<'s>(walker: &mut Walker<'s>, given: Given<'s>) -> Result<Vec<Seen>, NoMemory> {
    match given {
        Given::One(value) => {
            let mut list = Vec::new(walker.alloc);
            let done = push_come(&mut list, walker.see(&value.expr));
            kept(list, done)
        }
        Given::All(values) => walker.see_list(values),
    }
}

/// A graph of the variables and, behind them, the initialisations: a variable without a written type stands on its
/// initialisation, and that on the variables without one that it names outside of bodies of literals. The initialisers
/// are looked at for this while all these variables are unsound: what is broken in them then does not stand on them.
fn graph_of_initials<'s>(
    walker: &mut Walker<'s>,
    initials: &Initials<'s>,
) -> Result<Vec<Vec<usize>>, NoMemory> {
    let mut graph = Vec::new(walker.alloc);
    let done = push_rows(walker, initials, &mut graph);
    kept(graph, done)
}

/// The rows of the variables, and behind them those of the initialisations.
fn push_rows<'s>(
    walker: &mut Walker<'s>,
    initials: &Initials<'s>,
    graph: &mut Vec<Vec<usize>>,
) -> Result<(), NoMemory> {
    for variable in 0..walker.package_variables {
        let mut row = Vec::new(walker.alloc);
        if let Some(index) = initials.of(variable) {
            row.push(walker.package_variables.saturating_add(index))?;
        }
        graph.push(row)?;
    }
    for initial in &initials.list {
        if initial.has_form {
            graph.push(Vec::new(walker.alloc))?;
        } else {
            let from = walker.scope.mention_count();
            walker.enter_file(initial.file);
            drop(see_given(walker, initial.given)?);
            let mentions = mentions_from(walker.scope.mentions().as_slice(), from);
            graph.push(named_in(walker.alloc, mentions, initials)?)?;
        }
    }
    Ok(())
}

/// The variables without a written type among what was read.
fn named_in(
    alloc: Global,
    mentions: &[Mention],
    initials: &Initials<'_>,
) -> Result<Vec<usize>, NoMemory> {
    let mut named = Vec::new(alloc);
    for mention in mentions {
        if let Mentioned::Variable(variable) = mention.what {
            if initials.of(variable.number as usize).is_some() {
                named.push(variable.number as usize)?;
            }
        }
    }
    Ok(named)
}

/// Types the variables without a written type, group by group.
fn in_groups<'s>(
    walker: &mut Walker<'s>,
    initials: &mut Initials<'s>,
    graph: &[Vec<usize>],
) -> Result<(), NoMemory> {
    let (components, cyclic) = groups_of(walker.alloc, graph)?;
    let done = see_groups(walker, initials, graph, &components, &cyclic);
    drop((components, cyclic));
    done
}

fn see_groups<'s>(
    walker: &mut Walker<'s>,
    initials: &mut Initials<'s>,
    graph: &[Vec<usize>],
    components: &Components,
    cyclic: &[bool],
) -> Result<(), NoMemory> {
    let mut group = Vec::new(walker.alloc);
    let mut last = None;
    for node in &components.order {
        let number = components.of.get(*node).copied();
        if number != last {
            see_group(walker, initials, graph, &components.of, cyclic, &group)?;
            group = Vec::new(walker.alloc);
            last = number;
        }
        group.push(*node)?;
    }
    see_group(walker, initials, graph, &components.of, cyclic, &group)
}

/// Types variables whose initialisers name each other.
fn see_group<'s>(
    walker: &mut Walker<'s>,
    initials: &mut Initials<'s>,
    graph: &[Vec<usize>],
    of: &[usize],
    cyclic: &[bool],
    group: &[usize],
) -> Result<(), NoMemory> {
    let Some(first) = group.first() else {
        return Ok(());
    };
    if cyclic.get(*first).copied() == Some(true) {
        return see_cycle(walker, initials, graph, of, group);
    }
    for node in group {
        if *node < walker.package_variables {
            see_variable(walker, initials, *node)?;
        }
    }
    Ok(())
}

/// Types a variable that is on no cycle.
fn see_variable<'s>(
    walker: &mut Walker<'s>,
    initials: &mut Initials<'s>,
    variable: usize,
) -> Result<(), NoMemory> {
    let Some(index) = initials.of(variable) else {
        return Ok(());
    };
    let Some(initial) = initials.list.get_mut(index) else {
        return Ok(());
    };
    if !initial.is_seen {
        see_initial(walker, index, initial)?;
    }
    let of = initial.type_of(variable);
    walker.scope.set_type(
        VarId {
            number: variable as u64,
        },
        of,
    );
    Ok(())
}

/// Looks at the initialisers of variables on a cycle, which are unsound.
fn see_cycle<'s>(
    walker: &mut Walker<'s>,
    initials: &mut Initials<'s>,
    graph: &[Vec<usize>],
    of: &[usize],
    group: &[usize],
) -> Result<(), NoMemory> {
    let before = walker.scope.set_least(Least::new());
    for node in group {
        if let Some(initial) = initials.at(walker.package_variables, *node) {
            drop(listed_values(walker, initial)?);
        }
    }
    let found = walker.scope.set_least(before);
    if let Some(fault) = found.fault {
        let mut least = walker.scope.least();
        least.report(fault);
        walker.scope.set_least(least);
        return Ok(());
    }
    if stands_outside(&walker.scope, walker.package_variables, graph, of, group) {
        return Ok(());
    }
    for node in group {
        if *node < walker.package_variables {
            report_cycle(walker, *node);
        }
    }
    Ok(())
}

/// A variable refers to itself.
fn report_cycle(walker: &mut Walker<'_>, variable: usize) {
    let id = VarId {
        number: variable as u64,
    };
    if let Some(variable) = walker.scope.variable(id) {
        walker.enter_file(variable.at.file);
        walker.report(variable.at, Rule::DeclarationRefersToItself);
    }
}

/// Whether an initialiser of a group names an unsound variable that is not in it.
fn stands_outside(
    scope: &Scope,
    count: usize,
    graph: &[Vec<usize>],
    of: &[usize],
    group: &[usize],
) -> bool {
    for node in group {
        if let Some(row) = graph.get(*node) {
            if any_outside(scope, count, row, of, of.get(*node).copied()) {
                return true;
            }
        }
    }
    false
}

/// Whether one of the variables, of so many, is unsound and in another group.
fn any_outside(
    scope: &Scope,
    count: usize,
    row: &[usize],
    of: &[usize],
    group: Option<usize>,
) -> bool {
    for node in row {
        let id = VarId {
            number: *node as u64,
        };
        if *node < count && of.get(*node).copied() != group && !scope.is_sound(id) {
            return true;
        }
    }
    false
}

impl<'s> Initial<'s> {
    /// The type of the value of a variable.
    fn type_of(&self, variable: usize) -> Option<TypeId> {
        for (index, id) in self.variables.iter().enumerate() {
            if id.number as usize == variable {
                return self.types.get(index).copied().flatten();
            }
        }
        None
    }
}

impl<'s> Initials<'s> {
    /// The initialisation that is a node of the graph, behind so many variables.
    fn at(&self, count: usize, node: usize) -> Option<&Initial<'s>> {
        let index = node.checked_sub(count)?;
        self.list.get(index)
    }

    /// Which initialisation gives a variable without a written type its value.
    fn of(&self, variable: usize) -> Option<usize> {
        self.of_variable.get(variable).copied().flatten()
    }
}

/// The specifications of variables of a declaration.
fn variable_specs(line: &DeclLine) -> &[ValueSpec] {
    match &line.decl {
        Decl::Var { specs, .. } => specs.as_slice(),
        _ => &[],
    }
}

/// Sets the places of variables to a number.
fn set_all(places: &mut Vec<Option<usize>>, variables: &[VarId], number: usize) {
    for variable in variables {
        if let Some(place) = places.get_mut(variable.number as usize) {
            *place = Some(number);
        }
    }
}

/// The groups of a graph whose nodes stand on each other, and which nodes stand on themselves.
fn groups_of(alloc: Global, graph: &[Vec<usize>]) -> Result<(Components, Vec<bool>), NoMemory> {
    if !is_graph(graph) {
        return Err(lost());
    }
    let components = components_of(alloc, graph)?;
    let cyclic = on_themselves(alloc, graph, &components)?;
    Ok((components, cyclic))
}
