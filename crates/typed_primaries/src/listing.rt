//! Lists of values that go to as many targets. Go specification, "Assignment statements", "Variable declarations" and "Return
//! statements".

ghost use Rattle.std.specs.Prelude.{◌≡◌, ◌∷◌, [], Option, IfOk, OnOk, length, map, true};
ghost use Rattle.std.specs.List.{flat_map};
ghost use Rattle.std.specs.Option.{option_map};
ghost use Rattle.typed_parts.specs.declared.meaning.Given.{Given};
ghost use Rattle.typed_parts.specs.Joining.{items_of};
ghost use Rattle.typed_parts.specs.Judged.{reported};
ghost use Rattle.typed_parts.specs.Turning.{Asks, IsEach, Turns};
ghost use Rattle.typed_primaries.specs.Listing.{AreEachInto, AreGivenInto, AreOfFormBy, AreOfOne, AreOfParts, AreValuesInto, IsGoing, IsInto, IsOkGoing, IsOkPair, IsPartGoing, IsPartInto, IsValueInto, Told, all_of, as_many, each_outline, given_broken, given_of, no_outline, no_type, outline, outlined, single_broken, spread_outline, takes_ok, target_at, told_items, type_in, unlike};

use crate::asserting::{has_ok_form, with_ok as made_with_ok};
use go_base::{NoMemory, Pos, Rule, TypeId};
use go_tree::{ExprKind, TypedExpr, Values};
use go_type::{Basic, basic};
use typed_parts::{
    Given, Ground, Seen, assigned, assigned_ok, assigned_part, beside, boxed, by_default, lost,
    node, place_of, several_parts, single, value_of, with_last,
};

/// Where a value goes.
#[derive(Clone, Copy, PartialEq, Eq)]
pub enum Into {
    /// To something of a type.
    Type(TypeId),
    /// To a new variable or to `_`, which takes any value.
    Any,
    /// To something unsound.
    Unsound,
}

/// What a list of values becomes.
#[derive(Drop)]
pub struct Listed {
    /// The values, where all of them and of their targets are sound.
    pub values: Option<Values>,
    /// By target the type that its value has, where that is sound.
    pub types: Vec<Option<TypeId>>,
}

/// The values that go to targets, one each; or one call of as many results; or, where `with_ok` says so, two of a comma-ok
/// form. `WrongNumberOfValues` at the first value, or at `at` where there are none; at each value what `assigned` or
/// `by_default` reports.
pub fn values_into(
    ground: &mut Ground,
    at: Pos,
    values: Vec<Seen>,
    targets: &[Into],
    with_ok: bool,
) -> Result<Listed, NoMemory>
    ensures { Turns ground.old ground.new (outlined result) (AreValuesInto at values.items targets.now with_ok) }
{
    let givens = each_given(ground, values)?;
    givens_into(ground, at, givens, targets, with_ok)
}

fn each_given(ground: &mut Ground, values: Vec<Seen>) -> Result<Vec<Option<Given>>, NoMemory>
    ensures givens { IfOk result (λ made. made.items ≡ map given_of values.items) }
    ensures broken { OnOk result (ground.new ≡ reported ground.old (flat_map given_broken values.items)) }
{
    let mut givens = Vec::new(ground.alloc);
    for value in values {
        givens.push(value_of(ground, value))?;
    }
    Ok(givens)
}

fn givens_into(
    ground: &mut Ground,
    at: Pos,
    givens: Vec<Option<Given>>,
    targets: &[Into],
    with_ok: bool,
) -> Result<Listed, NoMemory>
    ensures { Turns ground.old ground.new (outlined result) (AreGivenInto at targets.now with_ok givens.items) }
{
    if givens.len() == targets.len() {
        each_into(ground, givens, targets)
    } else if givens.len() == 1 {
        sole_into(ground, givens, targets, with_ok)
    } else {
        unlike(ground, at, givens, targets)
    }
}

/// Another number of values than of targets. `WrongNumberOfValues` at the first value, or at `at` where there are none.
fn unlike(
    ground: &mut Ground,
    at: Pos,
    givens: Vec<Option<Given>>,
    targets: &[Into],
) -> Result<Listed, NoMemory>
    ensures { Turns ground.old ground.new (outlined result) (Asks (unlike at targets.now givens.items)) }
{
    if let Some(place) = place_of(givens.as_slice(), at) {
        ground.report(place, Rule::WrongNumberOfValues);
    }
    ask_singles(ground, givens);
    nothing(ground, targets)
}

fn ask_singles(ground: &mut Ground, values: Vec<Option<Given>>)
    ensures { ground.new ≡ reported ground.old (flat_map (single_broken ground.old.types) values.items) }
{
    for value in values {
        ask_single(ground, value);
    }
}

fn ask_single(ground: &mut Ground, value: Option<Given>)
    ensures { ground.new ≡ reported ground.old (single_broken ground.old.types value) }
{
    if let Some(value) = value {
        drop(single(ground, value));
    }
}

/// Nothing sound goes to the targets.
fn nothing(ground: &Ground, targets: &[Into]) -> Result<Listed, NoMemory>
    ensures { IfOk result (λ listed. outline listed ≡ no_outline targets.now) }
{
    let mut types = Vec::new(ground.alloc);
    for _ in targets {
        types.push(None)?;
    }
    Ok(Listed {
        values: None,
        types,
    })
}

/// As many values as targets.
fn each_into(
    ground: &mut Ground,
    values: Vec<Option<Given>>,
    targets: &[Into],
) -> Result<Listed, NoMemory>
    ensures { Turns ground.old ground.new (outlined result) (AreEachInto targets.now values.items) }
{
    let values = each_value(ground, values, targets)?;
    each_listed(ground, values)
}

/// Values that are one for each target.
fn each_listed(ground: &Ground, values: Vec<Option<TypedExpr>>) -> Result<Listed, NoMemory>
    ensures { IfOk result (λ listed. outline listed ≡ each_outline values.items) }
{
    let parts = all_parts(ground, values)?;
    Ok(parts.each())
}

fn each_value(
    ground: &mut Ground,
    values: Vec<Option<Given>>,
    targets: &[Into],
) -> Result<Vec<Option<TypedExpr>>, NoMemory>
    ensures { Turns ground.old ground.new (told_items result) (IsEach (IsValueInto targets.now) values.items) }
{
    let mut made = Vec::new(ground.alloc);
    for value in values {
        let target = target_at(targets, made.len());
        let value = value_into(ground, value, target)?;
        made.push(value)?;
    }
    Ok(made)
}

fn target_at(targets: &[Into], number: usize) -> Into
    ensures { result ≡ target_at targets.now number }
{
    match targets.get(number) {
        Some(target) => *target,
        None => Into::Unsound,
    }
}

fn value_into(
    ground: &mut Ground,
    value: Option<Given>,
    target: Into,
) -> Result<Option<TypedExpr>, NoMemory>
    ensures { Turns ground.old ground.new result (IsInto target value) }
{
    match value {
        Some(value) => {
            let value = single(ground, value);
            going(ground, value, target)
        }
        None => Ok(None),
    }
}

/// A value to where it goes.
fn going(
    ground: &mut Ground,
    value: Option<Given>,
    target: Into,
) -> Result<Option<TypedExpr>, NoMemory>
    ensures { Turns ground.old ground.new result (IsGoing target value) }
{
    match target {
        Into::Type(to) => assigned(ground, value, Some(to)),
        Into::Any => by_default(ground, value),
        Into::Unsound => {
            drop(value);
            Ok(None)
        }
    }
}

/// One value for several targets.
fn sole_into(
    ground: &mut Ground,
    mut values: Vec<Option<Given>>,
    targets: &[Into],
    with_ok: bool,
) -> Result<Listed, NoMemory>
    requires { length values.items ≡ 1 }
    ensures { (x : Option Given) → values.items ≡ x ∷ [] → Turns ground.old ground.new (outlined result) (AreOfOne with_ok targets.now x) }
{
    let value = values.pop().flatten();
    drop(values);
    one_into(ground, value, targets, with_ok)
}

fn one_into(
    ground: &mut Ground,
    value: Option<Given>,
    targets: &[Into],
    with_ok: bool,
) -> Result<Listed, NoMemory>
    ensures { Turns ground.old ground.new (outlined result) (AreOfOne with_ok targets.now value) }
{
    let Some(value) = value else {
        return nothing(ground, targets);
    };
    let (parts, value) = beside(several_parts(ground, value.expr.of), value)?;
    match parts_for(parts, targets.len()) {
        Some(parts) => parts_into(ground, value, parts, targets),
        None => form_into(ground, value, targets, with_ok),
    }
}

/// The types of several values, where they are as many as wanted.
fn parts_for(parts: Option<Vec<TypeId>>, wanted: usize) -> Option<Vec<TypeId>>
    ensures { option_map (λ ids. ids.items) result ≡ as_many wanted (option_map (λ ids. ids.items) parts) }
{
    match parts {
        Some(parts) if parts.len() == wanted => Some(parts),
        parts => {
            drop(parts);
            None
        }
    }
}

/// The parts of one value that is several.
fn parts_into(
    ground: &mut Ground,
    value: Given,
    parts: Vec<TypeId>,
    targets: &[Into],
) -> Result<Listed, NoMemory>
    ensures { Turns ground.old ground.new (outlined result) (AreOfParts targets.now value parts.items) }
{
    let Given { at, expr } = value;
    let made = each_part(ground, at, parts.as_slice(), targets);
    drop(parts);
    let (made, expr) = beside(made, expr)?;
    spread(ground, expr, made)
}

fn each_part(
    ground: &mut Ground,
    at: Pos,
    parts: &[TypeId],
    targets: &[Into],
) -> Result<Vec<Option<TypedExpr>>, NoMemory>
    ensures { Turns ground.old ground.new (told_items result) (IsEach (IsPartInto at targets.now) parts.now) }
{
    let mut made = Vec::new(ground.alloc);
    for of in parts {
        let number = made.len();
        let part = part_into(ground, at, number, *of, target_at(targets, number))?;
        made.push(part)?;
    }
    Ok(made)
}

fn part_into(
    ground: &mut Ground,
    at: Pos,
    number: usize,
    of: TypeId,
    target: Into,
) -> Result<Option<TypedExpr>, NoMemory>
    ensures { Turns ground.old ground.new result (IsPartGoing at number of target) }
{
    let Ok(part) = u32::try_from(number) else {
        return Err(lost());
    };
    match target {
        Into::Type(to) => assigned_part(ground, at, part, of, to),
        Into::Any => Ok(Some(node(at, of, ExprKind::PartOf(part)))),
        Into::Unsound => Ok(None),
    }
}

/// One value for two targets, where it has a form that gives a second one. `WrongNumberOfValues` at any other.
fn form_into(
    ground: &mut Ground,
    value: Given,
    targets: &[Into],
    with_ok: bool,
) -> Result<Listed, NoMemory>
    ensures { Turns ground.old ground.new (outlined result) (AreOfFormBy (takes_ok with_ok targets.now value.expr) targets.now value) }
{
    if takes_ok(with_ok, targets, &value.expr) {
        return pair_into(ground, value, targets);
    }
    ground.report(value.at, Rule::WrongNumberOfValues);
    drop(value);
    nothing(ground, targets)
}

/// Whether a form of two values may go to the targets.
fn takes_ok(with_ok: bool, targets: &[Into], value: &TypedExpr) -> bool
    ensures { result ≡ takes_ok with_ok targets.now value.now }
{
    with_ok && targets.len() == 2 && has_ok_form(value)
}

/// The two values of a comma-ok form.
fn pair_into(ground: &mut Ground, value: Given, targets: &[Into]) -> Result<Listed, NoMemory>
    ensures { Turns ground.old ground.new (outlined result) (AreOfFormBy true targets.now value) }
{
    let (parts, value) = beside(ok_pair(ground, value.at, value.expr.of, targets), value)?;
    let (tuple, parts) = beside(made_with_ok(ground, value.expr), parts)?;
    spread(ground, tuple, parts)
}

fn ok_pair(
    ground: &mut Ground,
    at: Pos,
    of: TypeId,
    targets: &[Into],
) -> Result<Vec<Option<TypedExpr>>, NoMemory>
    ensures { Turns ground.old ground.new (told_items result) (IsOkPair targets.now at of) }
{
    let value = part_into(ground, at, 0, of, target_at(targets, 0))?;
    let (ok, value) = beside(ok_into(ground, at, target_at(targets, 1)), value)?;
    pair_of(ground, value, ok)
}

fn pair_of(
    ground: &Ground,
    value: Option<TypedExpr>,
    ok: Option<TypedExpr>,
) -> Result<Vec<Option<TypedExpr>>, NoMemory>
    ensures { IfOk result (λ made. made.items ≡ value ∷ ok ∷ []) }
{
    let mut made = Vec::new(ground.alloc);
    made.push(value)?;
    made.push(ok)?;
    Ok(made)
}

fn ok_into(ground: &mut Ground, at: Pos, target: Into) -> Result<Option<TypedExpr>, NoMemory>
    ensures { Turns ground.old ground.new result (IsOkGoing at target) }
{
    match target {
        Into::Type(to) => assigned_ok(ground, at, to),
        Into::Any => Ok(Some(node(at, basic(Basic::Bool), ExprKind::PartOf(1)))),
        Into::Unsound => Ok(None),
    }
}

/// The parts of one expression of several values.
fn spread(
    ground: &Ground,
    tuple: TypedExpr,
    parts: Vec<Option<TypedExpr>>,
) -> Result<Listed, NoMemory>
    ensures { IfOk result (λ listed. outline listed ≡ spread_outline tuple parts.items) }
{
    let (parts, tuple) = beside(all_parts(ground, parts), tuple)?;
    let (tuple, parts) = beside(boxed(ground, tuple), parts)?;
    Ok(parts.spread(tuple))
}

/// Values for targets, and their types.
#[derive(Drop)]
struct Parts {
    /// None where one is unsound.
    values: Option<Vec<TypedExpr>>,
    types: Vec<Option<TypeId>>,
}

fn all_parts(ground: &Ground, parts: Vec<Option<TypedExpr>>) -> Result<Parts, NoMemory>
    ensures values { IfOk result (λ made. items_of made.values ≡ all_of parts.items) }
    ensures types { IfOk result (λ made. made.types.items ≡ map type_in parts.items) }
{
    let mut values = Some(Vec::new(ground.alloc));
    let mut types = Vec::new(ground.alloc);
    for part in parts {
        types.push(type_in(&part))?;
        values = with_last(values, part)?;
    }
    Ok(Parts { values, types })
}

fn type_in(part: &Option<TypedExpr>) -> Option<TypeId>
    ensures { result ≡ type_in part.now }
{
    match part {
        Some(part) => Some(part.of),
        None => None,
    }
}

impl Parts {
    /// The values, one for each target.
    fn each(self) -> Listed
        ensures values { (outline result).values ≡ option_map Told.each (items_of self.values) }
        ensures types { (outline result).types ≡ self.types.items }
    {
        let Parts { values, types } = self;
        match values {
            Some(values) => Listed {
                values: Some(Values::Each(values)),
                types,
            },
            None => Listed {
                values: None,
                types,
            },
        }
    }

    /// The values as parts of one of several.
    fn spread(self, tuple: Box<TypedExpr>) -> Listed
        ensures values { (outline result).values ≡ option_map (Told.spread tuple.value) (items_of self.values) }
        ensures types { (outline result).types ≡ self.types.items }
    {
        let Parts { values, types } = self;
        match Some(tuple).zip(values) {
            Some((tuple, parts)) => Listed {
                values: Some(Values::Spread { tuple, parts }),
                types,
            },
            None => Listed {
                values: None,
                types,
            },
        }
    }
}
