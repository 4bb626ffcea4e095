//! Constants that are declared in bodies. Go specification, "Constant declarations", "Iota".

use crate::exprs::see;
use crate::joining::given_up;
use crate::types::see_type;
use go_base::{NoMemory, Pos, Rule, TypeId};
use go_names::{Constant, Entity};
use go_scope::{Position, Scope};
use go_sources::SourceFile;
use go_syntax::{Expr, ListedExpr, ListedName, ValueSpec};
use go_tree::{ExprKind, TypedExpr};
use go_type::Const;
use std::alloc::Global;
use typed_operators::constant_value;
use typed_parts::{Seen, beside, one_value, only};

/// The type that is written for the values of a specification.
#[derive(Clone, Copy)]
enum Written {
    Nothing,
    Unsound,
    Type(TypeId),
}

/// The specifications of one declaration. `iota` counts them.
pub(crate) fn see_specs(
    alloc: Global,
    source: &SourceFile,
    scope: &mut Scope,
    specs: &[ValueSpec],
) -> Result<(), NoMemory> {
    let mut given: Option<&ValueSpec> = None;
    for (index, spec) in specs.iter().enumerate() {
        if !spec.values.is_empty() {
            given = Some(spec);
        }
        scope.set_iota(Some(index as i128));
        let entities = if spec.values.is_empty() {
            see_repeated(alloc, source, scope, spec, given)?
        } else {
            see_given(alloc, source, scope, spec)?
        };
        scope.set_iota(None);
        bind_all(source, scope, spec.names.as_slice(), entities.as_slice())?;
    }
    Ok(())
}

/// A specification with values.
fn see_given(
    alloc: Global,
    source: &SourceFile,
    scope: &mut Scope,
    spec: &ValueSpec,
) -> Result<Vec<Entity>, NoMemory> {
    let written = see_written(alloc, source, scope, spec)?;
    let mut entities = Vec::new(alloc);
    let mut are_sound = true;
    for (index, listed) in spec.values.as_slice().iter().enumerate() {
        let value = see_value(alloc, source, scope, &listed.expr, written)?;
        are_sound = are_sound && value.is_one;
        let name = spec.names.as_slice().get(index).copied();
        let entity = entity_of(source, scope, name, value.held)?;
        entities.push(entity)?;
    }
    if are_sound && spec.values.len() != spec.names.len() {
        if let Some(first) = spec.values.as_slice().first() {
            let at = scope.pos(go_places::expr_start(&first.expr));
            scope.report(at, Rule::WrongNumberOfValues);
        }
    }
    Ok(entities)
}

/// A specification without values, which has those of the one before it that has values.
fn see_repeated(
    alloc: Global,
    source: &SourceFile,
    scope: &mut Scope,
    spec: &ValueSpec,
    given: Option<&ValueSpec>,
) -> Result<Vec<Entity>, NoMemory> {
    let mut entities = Vec::new(alloc);
    let Some(first) = spec.names.as_slice().first() else {
        return Ok(entities);
    };
    let first_at = scope.pos(first.name.start);
    let Some(given) = given else {
        scope.report(first_at, Rule::NotAConstant);
        return Ok(entities);
    };
    let mut are_sound = true;
    for (listed, name) in given
        .values
        .as_slice()
        .iter()
        .zip(spec.names.as_slice().iter())
    {
        let value = see_again(alloc, source, scope, given, listed, *name)?;
        are_sound = are_sound && value.is_one;
        let entity = entity_of(source, scope, Some(*name), value.held)?;
        entities.push(entity)?;
    }
    if are_sound && given.values.len() != spec.names.len() {
        scope.report(first_at, Rule::WrongNumberOfValues);
    }
    Ok(entities)
}

/// A value that is read again for another name, whose place all rows in it have.
fn see_again(
    alloc: Global,
    source: &SourceFile,
    scope: &mut Scope,
    given: &ValueSpec,
    value: &ListedExpr,
    name: ListedName,
) -> Result<Valued, NoMemory> {
    let at = scope.pos(name.name.start);
    scope.set_repeated_at(Some(at));
    let written = see_written(alloc, source, scope, given)?;
    let value = see_value(alloc, source, scope, &value.expr, written)?;
    scope.set_repeated_at(None);
    Ok(value)
}

fn see_written(
    alloc: Global,
    source: &SourceFile,
    scope: &mut Scope,
    spec: &ValueSpec,
) -> Result<Written, NoMemory> {
    let Some(form) = &spec.form else {
        return Ok(Written::Nothing);
    };
    match see_type(alloc, source, scope, form, Position::Apart)? {
        Some(of) => Ok(Written::Type(of)),
        None => Ok(Written::Unsound),
    }
}

/// The type and the value of a constant.
#[derive(Drop)]
struct Held {
    of: TypeId,
    value: Const,
}

/// A value of a constant, as it is written and as it is held.
#[derive(Drop)]
struct Valued {
    /// Whether it is one value and sound, constant or not.
    is_one: bool,
    held: Option<Held>,
}

fn see_value(
    alloc: Global,
    source: &SourceFile,
    scope: &mut Scope,
    expr: &Expr,
    written: Written,
) -> Result<Valued, NoMemory> {
    let seen = see(alloc, source, scope, expr)?;
    let Some(given) = one_value(scope.ground(), seen) else {
        return Ok(Valued {
            is_one: false,
            held: None,
        });
    };
    let to = match written {
        Written::Type(to) => Some(to),
        Written::Nothing | Written::Unsound => None,
    };
    let seen = Seen::value(given.at, Some(given.expr));
    let value = constant_value(scope.ground(), seen, to)?;
    let is_sound = !matches!(written, Written::Unsound);
    let held = match only(value, is_sound) {
        Some(expr) => Some(held_of(expr)?),
        None => None,
    };
    Ok(Valued { is_one: true, held })
}

/// The type and the value of an expression that is constant.
fn held_of(expr: TypedExpr) -> Result<Held, NoMemory> {
    let (_at, of, kind) = expr.into_parts();
    match kind {
        ExprKind::ConstOf(value) => Ok(Held { of, value }),
        kind => given_up(kind),
    }
}

/// What a name of a constant stands for.
fn entity_of(
    source: &SourceFile,
    scope: &mut Scope,
    name: Option<ListedName>,
    held: Option<Held>,
) -> Result<Entity, NoMemory> {
    let Some((name, held)) = name.zip(held) else {
        return Ok(Entity::Unsound);
    };
    let at = scope.pos(name.name.start);
    let name = scope.interned(source, name.name);
    let (name, held) = beside(name, held)?;
    let number = scope.add_constant(Constant {
        name,
        at,
        of: held.of,
        value: held.value,
    })?;
    Ok(Entity::Constant(number))
}

/// Puts the names of a specification in scope: N1 at one that the block has.
fn bind_all(
    source: &SourceFile,
    scope: &mut Scope,
    names: &[ListedName],
    entities: &[Entity],
) -> Result<(), NoMemory> {
    for (index, listed) in names.iter().enumerate() {
        let at: Pos = scope.pos(listed.name.start);
        let name = scope.interned(source, listed.name)?;
        if scope.is_taken(name) {
            scope.report(at, Rule::RedeclaredInThisBlock);
        }
        let entity = match entities.get(index) {
            Some(entity) => *entity,
            None => Entity::Unsound,
        };
        scope.bind(name, entity)?;
    }
    Ok(())
}
