//! What a range sets. Go specification, "For statements with range clause".

ghost use Rattle.std.specs.Prelude.{◌≡◌, ◌∷◌, [], Some, None, option_map};
ghost use Rattle.program_typing.specs.Telling.{Gives, Tells};
ghost use Rattle.program_typing.specs.Turning.{turns_as};
ghost use Rattle.program_typing.specs.Walk as walk;
ghost use Rattle.typed_trees.specs.Expressions as tree;
ghost use Rattle.typed_trees.specs.Targets as aims;

use crate::targets::{are_part_of, part_types, takes_value};
use crate::turns::{Turns, turns_of};
use expr_typing::{Around, is_own_variable, see};
use go_base::{NoMemory, TypeId, VarId};
use go_tree::{RangeOver, RangeTargets, Target, TypedExpr};

/// Whether what a range goes over, and what it sets in each turn, fit.
pub fn fits_range(
    around: Around<'_>,
    over: RangeOver,
    operand: &TypedExpr,
    targets: &RangeTargets,
) -> Result<bool, NoMemory>
    ensures { Tells around.entry result (λ a. aims.ranges a over (tree.seen a operand.now) targets.now) }
{
    let operand = see(around, operand)?;
    let set = sets_turns(around, turns_of(around, over, operand.of), targets)?;
    Ok(operand.fits & (suits(around, over, targets) & set))
}

/// Whether no value is asked for of an operand that is not evaluated.
fn suits(around: Around<'_>, over: RangeOver, targets: &RangeTargets) -> bool
    ensures { Gives around.entry result (λ a. aims.suits a over targets.now) }
{
    match over {
        RangeOver::Constant(_) => lacks_value(around, targets),
        _ => true,
    }
}

fn lacks_value(around: Around<'_>, targets: &RangeTargets) -> bool
    ensures { Gives around.entry result (λ a. aims.lacks_value a targets.now) }
{
    let _around = around;
    match targets {
        RangeTargets::None => true,
        RangeTargets::Define { value, .. } => value.is_none(),
        RangeTargets::Assign { value, .. } => is_no_place(value),
    }
}

fn is_no_place(value: &Option<Target>) -> bool
    ensures { result ≡ walk.is_no_place value.now }
{
    match value {
        Some(Target::Place(_)) => false,
        _ => true,
    }
}

fn sets_turns(
    around: Around<'_>,
    turns: Option<Turns>,
    targets: &RangeTargets,
) -> Result<bool, NoMemory>
    ensures { Tells around.entry result (λ a. walk.sets_turns a targets.now (option_map turns_as turns)) }
{
    match turns {
        Some(turns) => sets_turn(around, turns, targets),
        None => Ok(false),
    }
}

fn sets_turn(around: Around<'_>, turns: Turns, targets: &RangeTargets) -> Result<bool, NoMemory>
    ensures { Tells around.entry result (λ a. aims.sets_turn a targets.now (turns_as turns)) }
{
    match targets {
        RangeTargets::None => Ok(true),
        RangeTargets::Define { key, value } => Ok(define_turn(around, turns, *key, *value)),
        RangeTargets::Assign { key, value, parts } => {
            assign_turn(around, turns, key, value, parts)
        }
    }
}

fn define_turn(around: Around<'_>, turns: Turns, key: Option<VarId>, value: Option<VarId>) -> bool
    ensures { Gives around.entry result (λ a. walk.defines_turn a (turns_as turns) key value) }
{
    defines_one(around, key, Some(turns.key)) & defines_one(around, value, turns.value)
}

/// Whether no variable is defined, or one of the type that is given.
fn defines_one(around: Around<'_>, variable: Option<VarId>, of: Option<TypeId>) -> bool
    ensures { Gives around.entry result (λ a. aims.defines_one a variable of) }
{
    match variable {
        Some(variable) => defines_given(around, variable, of),
        None => true,
    }
}

fn defines_given(around: Around<'_>, variable: VarId, of: Option<TypeId>) -> bool
    ensures { Gives around.entry result (λ a. aims.defines_one a (Some variable) of) }
{
    match of {
        Some(of) => is_own_variable(around, variable, of),
        None => false,
    }
}

fn assign_turn(
    around: Around<'_>,
    turns: Turns,
    key: &Option<Target>,
    value: &Option<Target>,
    parts: &[TypedExpr],
) -> Result<bool, NoMemory>
    ensures { Tells around.entry result (λ a. walk.assigns_turn a (turns_as turns) key.now value.now parts.now) }
{
    let fit = are_given(around, turns, parts)?;
    let types = part_types(around, parts)?;
    let taken = take_turn(around, key, value, types.as_slice())?;
    Ok(fit & taken)
}

/// Whether each expression fits where it is made of a key, and of a value where there is one.
fn are_given(around: Around<'_>, turns: Turns, parts: &[TypedExpr]) -> Result<bool, NoMemory>
    ensures { Tells around.entry result (λ a. aims.are_part_of a (aims.all_types a (turns_as turns)) parts.now) }
{
    match turns.value {
        Some(value) => are_part_of(around, &[turns.key, value], parts),
        None => are_part_of(around, &[turns.key], parts),
    }
}

/// Whether the targets that there are take values of these types, one each, the key first.
fn take_turn(
    around: Around<'_>,
    key: &Option<Target>,
    value: &Option<Target>,
    types: &[TypeId],
) -> Result<bool, NoMemory>
    ensures { Tells around.entry result (λ a. aims.take_values a (aims.listed_targets a key.now value.now) types.now) }
{
    match key {
        Some(key) => take_key(around, key, value, types),
        None => take_last(around, value, types),
    }
}

fn take_key(
    around: Around<'_>,
    key: &Target,
    value: &Option<Target>,
    types: &[TypeId],
) -> Result<bool, NoMemory>
    ensures { Tells around.entry result (λ a. aims.take_values a (aims.listed_targets a (Some key.now) value.now) types.now) }
{
    match types {
        [of, others @ ..] => {
            let first = takes_value(around, key, *of)?;
            let last = take_last(around, value, others)?;
            Ok(first & last)
        }
        [] => Ok(false),
    }
}

fn take_last(around: Around<'_>, value: &Option<Target>, types: &[TypeId]) -> Result<bool, NoMemory>
    ensures { Tells around.entry result (λ a. aims.take_values a (aims.listed_targets a None value.now) types.now) }
{
    match value {
        Some(value) => take_one(around, value, types),
        None => Ok(types.is_empty()),
    }
}

fn take_one(around: Around<'_>, value: &Target, types: &[TypeId]) -> Result<bool, NoMemory>
    ensures { Tells around.entry result (λ a. aims.take_values a (value.now ∷ []) types.now) }
{
    match types {
        [of, others @ ..] => {
            let last = takes_value(around, value, *of)?;
            Ok(last & others.is_empty())
        }
        [] => Ok(false),
    }
}
