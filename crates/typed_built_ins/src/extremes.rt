//! The built-in functions `max` and `min`. Go specification, "Min and max".

ghost use Rattle.std.specs.Prelude.{◌≡◌, ◌+◌, ◌≤◌, ◌<◌, ◌^◌, Some, IfOk};
ghost use Rattle.std.specs.Option.{option_copied};
ghost use Rattle.typed_parts.specs.Joining.{listed};
ghost use Rattle.typed_parts.specs.Judged.{Comes, Outcome, reported};
ghost use Rattle.typed_parts.specs.Numbers.{constant_in};
ghost use Rattle.typed_parts.specs.Turning.{IsEach, Keeps, Turns};
ghost use Rattle.typed_built_ins.specs.Extremes.{AreMatched, AreOfCommon, IsArgument, IsExtreme, IsExtremeAmong, IsJoined, IsJoinedWith, IsOfCommon, IsOfType, IsOneMore, are_taken, best_of, better, each_broken, is_taken, place_for, taken_broken};

use crate::built_ins::BuiltInCall;
use go_base::{NoMemory, Pos, Rule, TypeId};
use go_rules::{Matched, is_ordered, match_types, untyped_kind};
use go_tree::{ExprKind, TypedExpr};
use go_type::{Builtin, Const, Types, identical, value_order};
use typed_parts::{Given, Ground, beside, node, only, rekinded, retyped, with_last};

/// `max(..)` or `min(..)` of at least one argument.
pub fn extreme_of(
    ground: &mut Ground,
    call: BuiltInCall,
    arguments: Vec<Option<Given>>,
) -> Result<Option<TypedExpr>, NoMemory>
    ensures { Turns ground.old ground.new result (IsExtreme call arguments.items) }
{
    let taken = ask_each(ground, arguments.as_slice());
    let common = common_type(ground, arguments.as_slice());
    let values = with_type(ground, arguments, common)?;
    match common.of.zip(only(values, taken & common.whole)) {
        Some((of, values)) => extreme_among(ground, call, of, values),
        None => Ok(None),
    }
}

/// The greatest or the least of values of one type or kind: a constant where they all are.
fn extreme_among(
    ground: &Ground,
    call: BuiltInCall,
    of: TypeId,
    values: Vec<TypedExpr>,
) -> Result<Option<TypedExpr>, NoMemory>
    ensures { Turns ground.now ground.now result (IsExtremeAmong call (of, values.items)) }
{
    let best = extreme(ground, call.builtin, values.as_slice());
    let (best, values) = beside(best, values)?;
    match best {
        Some(value) => {
            drop(values);
            Ok(Some(node(call.at, of, ExprKind::ConstOf(value))))
        }
        None => {
            let (_at, _of, kind) = call.node(of, None, values, false).into_parts();
            Ok(Some(node(place_for(ground, call, of), of, kind)))
        }
    }
}

/// The place of a call that is no constant: its first byte where it is untyped, and else its parenthesis.
fn place_for(ground: &Ground, call: BuiltInCall, of: TypeId) -> Pos
    ensures { result ≡ place_for ground.now.types call of }
{
    if untyped_kind(&ground.types, of).is_some() {
        call.at
    } else {
        call.parenthesis
    }
}

/// Whether each sound argument is an integer or a string. `BadBuiltInCall` at one that is not.
fn ask_each(ground: &mut Ground, arguments: &[Option<Given>]) -> bool
    ensures taken { result ≡ are_taken ground.old.types arguments.now }
    ensures broken { ground.new ≡ reported ground.old (each_broken ground.old.types arguments.now) }
{
    let mut taken = true;
    for argument in arguments {
        taken &= ask_one(ground, argument);
    }
    taken
}

fn ask_one(ground: &mut Ground, argument: &Option<Given>) -> bool
    ensures taken { result ≡ is_taken ground.old.types argument.now }
    ensures broken { ground.new ≡ reported ground.old (taken_broken ground.old.types argument.now) }
{
    let Some(x) = argument else {
        return true;
    };
    if is_ordered(&ground.types, x.expr.of) {
        return true;
    }
    ground.report(x.at, Rule::BadBuiltInCall);
    false
}

/// The type or kind that the first arguments have in common.
#[derive(Clone, Copy)]
struct Common {
    /// None where there are no such arguments.
    of: Option<TypeId>,
    /// How many they are.
    count: usize,
    /// Whether they are all.
    whole: bool,
}

/// What the arguments have in common, from the left up to one that is unsound or does not fit. `BadBuiltInCall` at that.
fn common_type(ground: &mut Ground, arguments: &[Option<Given>]) -> Common
    ensures { Outcome ground.old ground.new (Some result) (AreMatched ground.old.types arguments.now) }
{
    let mut common = Common {
        of: None,
        count: 0,
        whole: true,
    };
    for argument in arguments {
        common = with_argument(ground, common, argument);
    }
    common
}

fn with_argument(ground: &mut Ground, common: Common, argument: &Option<Given>) -> Common
    requires { common.count + 1 < 2 ^ 64 }
    ensures joined { Outcome ground.old ground.new (Some result) (IsOneMore ground.old.types common argument.now) }
    ensures counted { result.count ≤ common.count + 1 }
{
    if !common.whole {
        return common;
    }
    let ended = Common {
        of: common.of,
        count: common.count,
        whole: false,
    };
    let Some(x) = argument else {
        return ended;
    };
    match joined_with(&ground.types, common.of, x.expr.of) {
        Some(joined) => Common {
            of: Some(joined),
            count: common.count + 1,
            whole: true,
        },
        None => {
            ground.report(x.at, Rule::BadBuiltInCall);
            ended
        }
    }
}

/// The type or kind of what is in common so far, and one more. The first has its own.
fn joined_with(types: &Types, common: Option<TypeId>, of: TypeId) -> Option<TypeId>
    ensures { IsJoinedWith types.now common of result }
{
    match common {
        Some(common) => joined_type(types, common, of),
        None => Some(of),
    }
}

/// The type or kind of two operands, which take the type of each other where they are untyped.
fn joined_type(types: &Types, first: TypeId, second: TypeId) -> Option<TypeId>
    ensures { IsJoined types.now first second result }
{
    match match_types(types, first, second)? {
        Matched::Typed => {
            if identical(types, first, second) {
                Some(first)
            } else {
                None
            }
        }
        Matched::Untyped(kind) => Some(kind.type_id()),
        Matched::FirstConverted => Some(second),
        Matched::SecondConverted => Some(first),
        _ => None,
    }
}

/// The first arguments, which have a type or kind in common, as ones of it.
fn with_type(
    ground: &mut Ground,
    mut arguments: Vec<Option<Given>>,
    common: Common,
) -> Result<Option<Vec<TypedExpr>>, NoMemory>
    ensures { Turns ground.old ground.new (listed result) (AreOfCommon common arguments.items) }
{
    arguments.truncate(common.count);
    each_of_type(ground, arguments, common.of)
}

fn each_of_type(
    ground: &mut Ground,
    arguments: Vec<Option<Given>>,
    of: Option<TypeId>,
) -> Result<Option<Vec<TypedExpr>>, NoMemory>
    ensures { Turns ground.old ground.new (listed result) (IsEach (IsArgument of) arguments.items) }
{
    let mut values = Some(Vec::new(ground.alloc));
    for argument in arguments {
        let value = of_type(ground, argument, of)?;
        values = with_last(values, value)?;
    }
    Ok(values)
}

fn of_type(
    ground: &mut Ground,
    argument: Option<Given>,
    of: Option<TypeId>,
) -> Result<Option<TypedExpr>, NoMemory>
    ensures { Comes ground.old ground.new result (IsOfCommon ground.old.types of argument) }
{
    match argument.zip(of) {
        Some((x, of)) => value_of_type(ground, x.expr, of),
        None => Ok(None),
    }
}

fn value_of_type(
    ground: &mut Ground,
    expr: TypedExpr,
    of: TypeId,
) -> Result<Option<TypedExpr>, NoMemory>
    ensures { Comes ground.old ground.new result (IsOfType ground.old.types of expr) }
{
    if untyped_kind(&ground.types, expr.of).is_none() {
        return Ok(Some(expr));
    }
    match untyped_kind(&ground.types, of) {
        Some(kind) => Ok(rekinded(ground, expr, kind)),
        None => retyped(ground, expr, of),
    }
}

/// The greatest or the least of constants. None where one is no constant.
fn extreme(
    ground: &Ground,
    builtin: Builtin,
    values: &[TypedExpr],
) -> Result<Option<Const>, NoMemory>
    ensures { IfOk result (λ best. best ≡ best_of builtin values.now) }
{
    match best_of(builtin, values) {
        Some(value) => Ok(Some(value.copy(ground.alloc)?)),
        None => Ok(None),
    }
}

fn best_of(builtin: Builtin, values: &[TypedExpr]) -> Option<&Const>
    ensures { option_copied result ≡ best_of builtin values.now }
{
    let mut best = None;
    for value in values {
        best = Some(better(builtin, best, constant_of(value)?));
    }
    best
}

fn better<'a>(builtin: Builtin, best: Option<&'a Const>, other: &'a Const) -> &'a Const
    ensures { result.now ≡ better builtin (option_copied best.entry) other.now }
{
    let Some(best) = best else {
        return other;
    };
    let order = value_order(best, other);
    let stays = if builtin == Builtin::Max {
        order.is_ge()
    } else {
        order.is_le()
    };
    if stays { best } else { other }
}

fn constant_of(expr: &TypedExpr) -> Option<&Const>
    ensures { option_copied result ≡ constant_in expr.now.kind }
{
    match &expr.kind {
        ExprKind::ConstOf(value) => Some(value),
        _ => None,
    }
}
