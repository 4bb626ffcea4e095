//! What is assigned to and declared. Go specification, "Assignment statements" and "Short variable declarations".

ghost use Rattle.std.specs.Prelude.{◌≡◌, IfOk};
ghost use Rattle.expr_typing.specs.Telling.{Told, at_tests};
ghost use Rattle.go_type.specs.Same.{same_id};
ghost use Rattle.program_typing.specs.Telling.{Gives, Tells};
ghost use Rattle.program_typing.specs.Walk as walk;
ghost use Rattle.typed_trees.specs.Expressions as tree;
ghost use Rattle.typed_trees.specs.Targets as aims;

use expr_typing::{Around, can_be_set, fits_part, is_own_variable, is_variable, see, see_values};
use go_base::{NoMemory, TypeId};
use go_tree::{DefineTarget, Target, TypedExpr, Values};

/// Whether values may be assigned to targets.
pub fn assigns(around: Around<'_>, targets: &[Target], values: &Values) -> Result<bool, NoMemory>
    ensures { Tells around.entry result (λ a. walk.assigns a targets.now values.now) }
{
    let seen = see_values(around, values)?;
    let taken = take_values(around, targets, seen.types.as_slice())?;
    Ok(seen.fits & taken)
}

/// Whether targets take values of these types, one each.
pub fn take_values(
    around: Around<'_>,
    targets: &[Target],
    types: &[TypeId],
) -> Result<bool, NoMemory>
    ensures { Tells around.entry result (λ a. aims.take_values a targets.now types.now) }
{
    if targets.len() != types.len() {
        return Ok(false);
    }
    for (index, target) in targets.iter().enumerate() {
        if !takes_value(around, target, types[index])? {
            return Ok(false);
        }
    }
    Ok(true)
}

/// Whether a target takes a value of a type.
pub fn takes_value(around: Around<'_>, target: &Target, of: TypeId) -> Result<bool, NoMemory>
    ensures { Tells around.entry result (λ a. aims.takes_value a target.now of) }
{
    match target {
        Target::Place(place) => takes_place(around, place, of),
        Target::Blank => Ok(true),
    }
}

fn takes_place(around: Around<'_>, place: &TypedExpr, of: TypeId) -> Result<bool, NoMemory>
    ensures { Tells around.entry result (λ a. aims.takes_place a (tree.seen a place.now) of) }
{
    let seen = see(around, place)?;
    Ok(can_be_set(seen.form) & (is(seen.of, of) & seen.fits))
}

fn is(of: TypeId, other: TypeId) -> bool
    ensures { result ≡ same_id of other }
{
    of == other
}

/// Whether a short variable declaration fits.
pub fn define(
    around: Around<'_>,
    targets: &[DefineTarget],
    values: &Values,
) -> Result<bool, NoMemory>
    ensures { Tells around.entry result (λ a. walk.defines_with a targets.now values.now) }
{
    let seen = see_values(around, values)?;
    Ok(seen.fits & define_all(around, targets, seen.types.as_slice()))
}

/// Whether what `:=` sets takes values of these types, one each.
pub fn define_all(around: Around<'_>, targets: &[DefineTarget], types: &[TypeId]) -> bool
    ensures { Gives around.entry result (λ a. aims.define_all a targets.now types.now) }
{
    if targets.len() != types.len() {
        return false;
    }
    for (index, target) in targets.iter().enumerate() {
        if !defines(around, *target, types[index]) {
            return false;
        }
    }
    true
}

fn defines(around: Around<'_>, target: DefineTarget, of: TypeId) -> bool
    ensures { Gives around.entry result (λ a. aims.defines a target of) }
{
    match target {
        DefineTarget::New(variable) => is_own_variable(around, variable, of),
        DefineTarget::Old(variable) => is_variable(around, variable, of),
        DefineTarget::Blank => true,
    }
}

/// Whether targets take what is made of the parts of several values of some types.
pub fn assign_parts(
    around: Around<'_>,
    given: &[TypeId],
    targets: &[Target],
    parts: &[TypedExpr],
) -> Result<bool, NoMemory>
    ensures { Tells around.entry result (λ a. walk.assigns_parts a given.now targets.now parts.now) }
{
    let fit = are_part_of(around, given, parts)?;
    let types = part_types(around, parts)?;
    let taken = take_values(around, targets, types.as_slice())?;
    Ok(fit & taken)
}

/// Whether each expression fits where it is made of the parts of several values of some types.
pub fn are_part_of(
    around: Around<'_>,
    given: &[TypeId],
    parts: &[TypedExpr],
) -> Result<bool, NoMemory>
    ensures { Tells around.entry result (λ a. aims.are_part_of a given.now parts.now) }
{
    for part in parts {
        if !fits_part(around, part, given)? {
            return Ok(false);
        }
    }
    Ok(true)
}

/// The types of what is made of parts.
pub fn part_types(around: Around<'_>, parts: &[TypedExpr]) -> Result<Vec<TypeId>, NoMemory>
    ensures { (told : Told around.entry.program.now.types) → IfOk result (λ types. types.items ≡ aims.part_types (at_tests around.entry told.tests) parts.now) }
{
    let mut types = Vec::new(around.alloc);
    for part in parts {
        let seen = see(around, part)?;
        types.push(seen.of)?;
    }
    Ok(types)
}
