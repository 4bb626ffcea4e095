//! Slice expressions. Go specification, "Slice expressions".

ghost use Rattle.std.specs.Prelude.{◌≡◌, IfOk, not};
ghost use Rattle.typed_parts.specs.Joining.{sound};
ghost use Rattle.typed_parts.specs.Judged.{judged, reported};
ghost use Rattle.typed_parts.specs.Shapes.{shape_of};
ghost use Rattle.typed_parts.specs.Turning.{Turns};
ghost use Rattle.typed_primaries.specs.Slicing.{AreBounds, IsArraySlice, IsBound, IsBoxedBound, IsSliceExpression, IsSliceNode, IsSliceOperand, IsSliceType, IsSliceWithin, IsSliced, are_sound, are_values, array_elem, constant_bound, full_broken, full_text, is_array, is_full, is_sound, is_value, order_broken, pair_broken, past_broken, plain_base, sliced, sliced_shape, unbroken, within_broken};

use crate::indexing::known_length;
use crate::steps::address;
use go_base::{NoMemory, Pos, Rule, TypeId};
use go_tree::{ExprKind, SliceBase, TypedExpr};
use go_type::TypeTerm;
use typed_parts::{
    Given, Ground, Seen, Shape, beside, boxed, integer_of, is_place, node, one_value, only,
    shape_of, sound, whole_index, with_text_type,
};

/// A bound of a slice expression.
#[derive(Drop)]
enum Bound {
    Absent,
    /// It is no single value.
    Unsound,
    /// It is a value, but no bound.
    Refused,
    Sound { at: Pos, expr: TypedExpr },
}

/// The bounds of a slice expression.
#[derive(Drop)]
struct Bounds {
    low: Bound,
    high: Bound,
    max: Bound,
}

/// `x[low:high]` or `x[low:high:max]`. `BadSlice` at an operand that cannot be sliced, at the whole where a string has a
/// third bound, and at a bound that is no integer, negative, past the end or below one before it.
pub fn slice_expression(
    ground: &mut Ground,
    x: Seen,
    low: Option<Seen>,
    high: Option<Seen>,
    max: Option<Seen>,
) -> Result<Option<TypedExpr>, NoMemory>
    ensures { Turns ground.old ground.new result (IsSliceExpression x low high max) }
{
    let x = one_value(ground, x);
    let (bounds, x) = beside(bounds_of(ground, low, high, max), x)?;
    let ordered = ask_order(ground, &bounds);
    let (x, bounds) = beside(with_text_type(ground, x), bounds)?;
    let shape = ask_sliced(ground, &x);
    match x.zip(shape).zip(Some(bounds)) {
        Some((indexed, bounds)) => {
            let (x, shape) = indexed;
            slice_within(ground, x, shape, bounds, ordered)
        }
        None => Ok(None),
    }
}

/// A slice of what can be sliced, by bounds that were asked to be in order.
fn slice_within(
    ground: &mut Ground,
    x: Given,
    shape: Shape,
    bounds: Bounds,
    ordered: bool,
) -> Result<Option<TypedExpr>, NoMemory>
    requires { ordered ≡ unbroken (order_broken bounds) }
    ensures { Turns ground.old ground.new result (IsSliceWithin bounds x shape) }
{
    let within = ask_within(ground, &bounds, known_length(shape, &x.expr));
    let full = ask_full(ground, x.at, shape, &bounds);
    let may = ordered & within & full & bounds.are_sound();
    match only(Some((x, bounds)), may) {
        Some((x, bounds)) => sound(sliced(ground, x, shape, bounds)),
        None => Ok(None),
    }
}

fn bounds_of(
    ground: &mut Ground,
    low: Option<Seen>,
    high: Option<Seen>,
    max: Option<Seen>,
) -> Result<Bounds, NoMemory>
    ensures { Turns ground.old ground.new (sound result) (AreBounds low high max) }
{
    let (low, (high, max)) = beside(bound_of(ground, low), (high, max))?;
    let (high, (low, max)) = beside(bound_of(ground, high), (low, max))?;
    let (max, (low, high)) = beside(bound_of(ground, max), (low, high))?;
    Ok(Bounds { low, high, max })
}

fn bound_of(ground: &mut Ground, part: Option<Seen>) -> Result<Bound, NoMemory>
    ensures { Turns ground.old ground.new (sound result) (IsBound part) }
{
    let Some(part) = part else {
        return Ok(Bound::Absent);
    };
    let Some(given) = one_value(ground, part) else {
        return Ok(Bound::Unsound);
    };
    let at = given.at;
    match whole_index(ground, Some(given), Rule::BadSlice)? {
        Some(expr) => Ok(Bound::Sound { at, expr }),
        None => Ok(Bound::Refused),
    }
}

/// The place and the number of a bound that is a constant.
fn constant_bound(bound: &Bound) -> Option<(Pos, i128)>
    ensures { result ≡ constant_bound bound.now }
{
    match bound {
        Bound::Sound { at, expr } => match integer_of(expr) {
            Some(number) => Some((*at, number)),
            None => None,
        },
        _ => None,
    }
}

/// Whether no constant bound is below a constant one before it. `BadSlice` at each that is.
fn ask_order(ground: &mut Ground, bounds: &Bounds) -> bool
    ensures holds { result ≡ unbroken (order_broken bounds.now) }
    ensures broken { ground.new ≡ reported ground.old (order_broken bounds.now) }
{
    let high = ask_pair(ground, &bounds.low, &bounds.high);
    let outer = ask_pair(ground, &bounds.low, &bounds.max);
    let inner = ask_pair(ground, &bounds.high, &bounds.max);
    high & outer & inner
}

fn ask_pair(ground: &mut Ground, first: &Bound, second: &Bound) -> bool
    ensures holds { result ≡ unbroken (pair_broken (constant_bound first.now) (constant_bound second.now)) }
    ensures broken { ground.new ≡ reported ground.old (pair_broken (constant_bound first.now) (constant_bound second.now)) }
{
    let (Some((_, least)), Some((at, number))) = (constant_bound(first), constant_bound(second))
    else {
        return true;
    };
    let holds = least <= number;
    if !holds {
        ground.report(at, Rule::BadSlice);
    }
    holds
}

/// Whether no constant bound is past the end. `BadSlice` at each that is.
fn ask_within(ground: &mut Ground, bounds: &Bounds, len: Option<i128>) -> bool
    ensures holds { result ≡ unbroken (within_broken len bounds.now) }
    ensures broken { ground.new ≡ reported ground.old (within_broken len bounds.now) }
{
    let low = ask_bound(ground, &bounds.low, len);
    let high = ask_bound(ground, &bounds.high, len);
    let max = ask_bound(ground, &bounds.max, len);
    low & high & max
}

fn ask_bound(ground: &mut Ground, bound: &Bound, len: Option<i128>) -> bool
    ensures holds { result ≡ unbroken (past_broken len (constant_bound bound.now)) }
    ensures broken { ground.new ≡ reported ground.old (past_broken len (constant_bound bound.now)) }
{
    let (Some((at, number)), Some(len)) = (constant_bound(bound), len) else {
        return true;
    };
    let holds = number <= len;
    if !holds {
        ground.report(at, Rule::BadSlice);
    }
    holds
}

/// Whether there is no third bound where a string is sliced. `BadSlice` at the whole where there is, and the bounds are
/// single values.
fn ask_full(ground: &mut Ground, at: Pos, shape: Shape, bounds: &Bounds) -> bool
    ensures holds { result ≡ not (full_text shape bounds.now) }
    ensures broken { ground.new ≡ reported ground.old (full_broken at shape bounds.now) }
{
    let full = matches!(shape, Shape::Text) && is_full(&bounds.max) && bounds.are_values();
    if full {
        ground.report(at, Rule::BadSlice);
    }
    !full
}

/// The shape of what is sliced. `BadSlice` at an operand that cannot be.
fn ask_sliced(ground: &mut Ground, x: &Option<Given>) -> Option<Shape>
    ensures answer { result ≡ (judged x.now (sliced ground.old.types)).sound }
    ensures broken { ground.new ≡ reported ground.old (judged x.now (sliced ground.old.types)).broken }
{
    let Some(x) = x else {
        return None;
    };
    match sliced_shape(ground, &x.expr) {
        Some(shape) => Some(shape),
        None => {
            ground.report(x.at, Rule::BadSlice);
            None
        }
    }
}

/// The shape of what can be sliced: an array has to be a place.
fn sliced_shape(ground: &Ground, expr: &TypedExpr) -> Option<Shape>
    ensures { result ≡ sliced_shape expr.now (shape_of ground.now.types expr.now.of) }
{
    match shape_of(ground, expr.of) {
        Some(Shape::Array { len, elem }) => {
            let shape = Shape::Array { len, elem };
            only(Some(shape), is_place(expr))
        }
        Some(Shape::Map { .. } | Shape::Chan { .. }) => None,
        other => other,
    }
}

fn is_full(bound: &Bound) -> bool
    ensures { result ≡ is_full bound.now }
{
    !matches!(bound, Bound::Absent)
}

fn is_value(bound: &Bound) -> bool
    ensures { result ≡ is_value bound.now }
{
    !matches!(bound, Bound::Unsound)
}

fn is_sound(bound: &Bound) -> bool
    ensures { result ≡ is_sound bound.now }
{
    !matches!(bound, Bound::Unsound | Bound::Refused)
}

impl Bounds {
    /// Whether each that is written is a single value.
    fn are_values(&self) -> bool
        ensures { result ≡ are_values self.now }
    {
        is_value(&self.low) && is_value(&self.high) && is_value(&self.max)
    }

    fn are_sound(&self) -> bool
        ensures { result ≡ are_sound self.now }
    {
        is_sound(&self.low) && is_sound(&self.high) && is_sound(&self.max)
    }
}

/// The bounds of a slice expression, as nodes that stand in it.
#[derive(Drop)]
struct Written {
    low: Option<Box<TypedExpr>>,
    high: Option<Box<TypedExpr>>,
    max: Option<Box<TypedExpr>>,
}

/// The slice of what can be sliced, by bounds that can be.
fn sliced(
    ground: &mut Ground,
    x: Given,
    shape: Shape,
    bounds: Bounds,
) -> Result<TypedExpr, NoMemory>
    ensures { Turns ground.old ground.new (sound result) (IsSliced x shape bounds) }
{
    let Given { at, expr } = x;
    let (typed, (expr, bounds)) = beside(slice_type(ground, shape, expr.of), (expr, bounds))?;
    let (operand, bounds) = beside(slice_operand(ground, shape, expr), bounds)?;
    slice_node(ground, at, typed, operand, bounds)
}

/// What stands in a slice expression: an array by its address.
fn slice_operand(ground: &mut Ground, shape: Shape, expr: TypedExpr) -> Result<TypedExpr, NoMemory>
    ensures { Turns ground.old ground.new (sound result) (IsSliceOperand shape expr) }
{
    if is_array(shape) {
        address(ground, expr)
    } else {
        Ok(expr)
    }
}

fn is_array(shape: Shape) -> bool
    ensures { result ≡ is_array shape }
{
    matches!(shape, Shape::Array { .. })
}

fn slice_node(
    ground: &Ground,
    at: Pos,
    typed: (SliceBase, TypeId),
    operand: TypedExpr,
    bounds: Bounds,
) -> Result<TypedExpr, NoMemory>
    ensures { IfOk result (IsSliceNode at typed bounds operand) }
{
    let (operand, bounds) = beside(boxed(ground, operand), bounds)?;
    let (written, operand) = beside(each_written(ground, bounds), operand)?;
    let (base, of) = typed;
    let Written { low, high, max } = written;
    Ok(node(
        at,
        of,
        ExprKind::SliceOf {
            base,
            operand,
            low,
            high,
            max,
        },
    ))
}

fn each_written(ground: &Ground, bounds: Bounds) -> Result<Written, NoMemory>
    ensures low { IfOk result (λ written. IsBoxedBound bounds.low written.low) }
    ensures high { IfOk result (λ written. IsBoxedBound bounds.high written.high) }
    ensures max { IfOk result (λ written. IsBoxedBound bounds.max written.max) }
{
    let Bounds { low, high, max } = bounds;
    let (low, (high, max)) = beside(boxed_bound(ground, low), (high, max))?;
    let (high, (low, max)) = beside(boxed_bound(ground, high), (low, max))?;
    let (max, (low, high)) = beside(boxed_bound(ground, max), (low, high))?;
    Ok(Written { low, high, max })
}

fn boxed_bound(ground: &Ground, bound: Bound) -> Result<Option<Box<TypedExpr>>, NoMemory>
    ensures { IfOk result (IsBoxedBound bound) }
{
    match bound {
        Bound::Sound { at: _, expr } => sound(boxed(ground, expr)),
        Bound::Absent | Bound::Unsound | Bound::Refused => Ok(None),
    }
}

/// What is sliced, and the type of the slice.
fn slice_type(
    ground: &mut Ground,
    shape: Shape,
    of: TypeId,
) -> Result<(SliceBase, TypeId), NoMemory>
    ensures { Turns ground.old ground.new (sound result) (IsSliceType shape of) }
{
    match array_elem(shape) {
        Some(elem) => array_slice(ground, elem),
        None => Ok((plain_base(shape), of)),
    }
}

/// The type of the elements of an array, or of one that a pointer points to.
fn array_elem(shape: Shape) -> Option<TypeId>
    ensures { result ≡ array_elem shape }
{
    match shape {
        Shape::Array { elem, .. } | Shape::ArrayPointer { elem, .. } => Some(elem),
        _ => None,
    }
}

fn plain_base(shape: Shape) -> SliceBase
    ensures { result ≡ plain_base shape }
{
    match shape {
        Shape::Text => SliceBase::Text,
        _ => SliceBase::Slice,
    }
}

/// The slice of an array, through a pointer to it.
fn array_slice(ground: &mut Ground, elem: TypeId) -> Result<(SliceBase, TypeId), NoMemory>
    ensures { Turns ground.old ground.new (sound result) (IsArraySlice elem) }
{
    let slice = ground.hold(TypeTerm::Slice(elem))?;
    Ok((SliceBase::ArrayPointer, slice))
}
