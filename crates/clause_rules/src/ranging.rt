//! What a range goes over, and what it sets in each turn. Go specification, "For statements with range clause".

use go_ast::{Kind, Token};
use go_base::{NoMemory, Pos, Rule, TypeId, VarId};
use go_places::expr_start;
use go_syntax::{Expr, ListedExpr};
use go_tree::{DefineTarget, RangeOver, RangeTargets, Target, TypedExpr};
use stmt_rules::{Left, Lefts, Side, Walker, target_of};
use typed_operators::{Ranged, range_operand};
use typed_parts::{assigned_part, beside, only, sound, with_last};

/// The targets of a range that were seen; names among them are not declared yet.
#[derive(Drop)]
pub enum SeenTargets {
    None,
    Assign {
        sides: Vec<Side>,
        parts: Option<Vec<TypedExpr>>,
    },
    Define(Lefts),
}

/// The head of a range.
#[derive(Drop)]
pub struct SeenRange {
    pub ranged: Option<Ranged>,
    pub targets: SeenTargets,
    pub is_sound: bool,
}

/// The targets of a range, and whether they break no rule.
#[derive(Drop)]
struct AskedTargets {
    targets: SeenTargets,
    is_sound: bool,
}

/// What a range goes over, with its targets.
#[derive(Drop)]
pub struct Head {
    pub over: RangeOver,
    pub operand: TypedExpr,
    pub targets: RangeTargets,
}

/// The operand and the targets of a range.
pub fn see_range(
    walker: &mut Walker<'_>,
    targets: &[ListedExpr],
    operator: Option<Token>,
    operand: &Expr,
) -> Result<SeenRange, NoMemory> {
    let seen = walker.see(operand)?;
    let ranged = range_operand(walker.scope.ground(), seen)?;
    let asked = range_targets(walker, targets, operator, &ranged);
    let (asked, ranged) = beside(asked, ranged)?;
    Ok(SeenRange {
        ranged,
        targets: asked.targets,
        is_sound: asked.is_sound,
    })
}

/// The targets of a range over an operand.
fn range_targets(
    walker: &mut Walker<'_>,
    targets: &[ListedExpr],
    operator: Option<Token>,
    ranged: &Option<Ranged>,
) -> Result<AskedTargets, NoMemory> {
    let Some(first) = targets.first() else {
        return Ok(AskedTargets {
            targets: SeenTargets::None,
            is_sound: true,
        });
    };
    let at = walker.pos(expr_start(&first.expr));
    let has_room = has_room(walker, at, targets.len(), ranged);
    if is_define(operator) {
        let lefts = range_names(walker, at, targets, ranged.is_some())?;
        return Ok(AskedTargets {
            is_sound: has_room && lefts.is_sound,
            targets: SeenTargets::Define(lefts),
        });
    }
    let sides = walker.sides(targets)?;
    let parts = range_parts(walker, targets, &sides, ranged);
    let (parts, sides) = beside(parts, sides)?;
    Ok(AskedTargets {
        targets: SeenTargets::Assign { sides, parts },
        is_sound: has_room,
    })
}

/// Whether what is gone over gives so many values.
fn has_room(walker: &mut Walker<'_>, at: Pos, count: usize, ranged: &Option<Ranged>) -> bool {
    let Some(ranged) = ranged else {
        return true;
    };
    let most = if ranged.value.is_some() { 2 } else { 1 };
    if count > most {
        walker.report(at, Rule::BadRange);
        return false;
    }
    true
}

/// The names of a range with `:=`: all of them are new.
fn range_names(
    walker: &mut Walker<'_>,
    at: Pos,
    targets: &[ListedExpr],
    is_sound: bool,
) -> Result<Lefts, NoMemory> {
    walker.scope.open_block()?;
    let mut lefts = walker.lefts(targets)?;
    walker.scope.close_block();
    if !(lefts.are_names && lefts.any_new) {
        if is_sound {
            walker.report(at, Rule::NoNewVariable);
        }
        lefts.is_sound = false;
    }
    Ok(lefts)
}

/// Key and value as values of the sides.
fn range_parts(
    walker: &mut Walker<'_>,
    targets: &[ListedExpr],
    sides: &[Side],
    ranged: &Option<Ranged>,
) -> Result<Option<Vec<TypedExpr>>, NoMemory> {
    let Some(ranged) = ranged else {
        return Ok(None);
    };
    let types = [Some(ranged.key), ranged.value];
    let mut parts = Some(Vec::new(walker.alloc));
    for (index, side) in sides.iter().enumerate() {
        let of = types.as_slice().get(index).copied().flatten();
        let at = match targets.get(index) {
            Some(target) => walker.pos(expr_start(&target.expr)),
            None => walker.pos(0),
        };
        let (part, before) = beside(range_part(walker, at, index, of, side), parts)?;
        parts = with_last(before, part)?;
    }
    Ok(parts)
}

fn range_part(
    walker: &mut Walker<'_>,
    at: Pos,
    index: usize,
    of: Option<TypeId>,
    side: &Side,
) -> Result<Option<TypedExpr>, NoMemory> {
    let Some(of) = of else {
        return Ok(None);
    };
    let number = if index == 0 { 0 } else { 1 };
    match side {
        Side::Blank => assigned_part(walker.scope.ground(), at, number, of, of),
        Side::Place(Some(place)) => {
            assigned_part(walker.scope.ground(), at, number, of, place.of)
        }
        Side::Place(None) => Ok(None),
    }
}

/// The names of a range are in scope from here on.
pub fn finish_range(walker: &mut Walker<'_>, seen: SeenRange) -> Result<Option<Head>, NoMemory> {
    let SeenRange {
        ranged,
        targets,
        is_sound,
    } = seen;
    let types = match &ranged {
        Some(ranged) => [Some(ranged.key), ranged.value],
        None => [None, None],
    };
    let targets = finish_targets(walker, targets, &types);
    let (targets, ranged) = beside(targets, ranged)?;
    match only(ranged.zip(targets), is_sound) {
        Some((ranged, targets)) => Ok(Some(head_of(ranged, targets))),
        None => Ok(None),
    }
}

/// The targets of a range whose key and value have these types.
fn finish_targets(
    walker: &mut Walker<'_>,
    targets: SeenTargets,
    types: &[Option<TypeId>],
) -> Result<Option<RangeTargets>, NoMemory> {
    match targets {
        SeenTargets::None => Ok(Some(RangeTargets::None)),
        SeenTargets::Assign { sides, parts } => Ok(assigned_targets(sides, parts)),
        SeenTargets::Define(lefts) => sound(define_targets(walker, &lefts, types)),
    }
}

/// The variables of a range that declares them.
fn define_targets(
    walker: &mut Walker<'_>,
    lefts: &Lefts,
    types: &[Option<TypeId>],
) -> Result<RangeTargets, NoMemory> {
    let targets = walker.declare_lefts(lefts.names.as_slice(), types)?;
    Ok(RangeTargets::Define {
        key: new_variable(targets.first()),
        value: new_variable(targets.get(1)),
    })
}

/// Whether a range declares its targets.
fn is_define(operator: Option<Token>) -> bool {
    match operator {
        Some(operator) => operator.kind == Kind::Define,
        None => false,
    }
}

/// The variable that a name declares.
fn new_variable(target: Option<&DefineTarget>) -> Option<VarId> {
    match target {
        Some(DefineTarget::New(variable)) => Some(*variable),
        _ => None,
    }
}

/// Where key and value are assigned to, where all are sound.
fn assigned_targets(sides: Vec<Side>, parts: Option<Vec<TypedExpr>>) -> Option<RangeTargets> {
    let mut sides = sides.into_iter();
    let key = next_target(sides.next());
    let value = next_target(sides.next());
    drop(sides);
    let ((key, value), parts) = key.zip(value).zip(parts)?;
    Some(RangeTargets::Assign { key, value, parts })
}

/// The target that a side is, where there is one. None where it is unsound.
fn next_target(side: Option<Side>) -> Option<Option<Target>> {
    match side {
        Some(side) => target_of(side).map(Some),
        None => Some(None),
    }
}

/// Whether a range asks for no value.
fn is_without_value(targets: &RangeTargets) -> bool {
    match targets {
        RangeTargets::None => true,
        RangeTargets::Define { value, .. } => value.is_none(),
        RangeTargets::Assign { value, .. } => !matches!(value, Some(Target::Place(_))),
    }
}

/// The head of a range: where it asks for no value, an array whose length is constant is not evaluated.
fn head_of(ranged: Ranged, targets: RangeTargets) -> Head {
    let over = match ranged.constant {
        Some(len) if is_without_value(&targets) => RangeOver::Constant(len),
        _ => ranged.over,
    };
    Head {
        over,
        operand: ranged.operand,
        targets,
    }
}
