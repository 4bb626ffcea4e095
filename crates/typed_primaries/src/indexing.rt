//! Index expressions. Go specification, "Index expressions".

ghost use Rattle.std.specs.Prelude.{◌≡◌, IfOk, Some};
ghost use Rattle.typed_parts.specs.Judged.{judged, reported};
ghost use Rattle.typed_parts.specs.Turning.{Turns};
ghost use Rattle.typed_primaries.specs.Indexing.{IsElementAt, IsElementOf, IsIndex, IsIndexExpression, IsNumbered, IsOfMap, below, index_below, indexed, known_length, map_types, numbered};

use crate::steps::dereferenced;
use go_base::{NoMemory, Pos, Rule, TypeId};
use go_tree::{ExprKind, IndexBase, TypedExpr};
use go_type::{Basic, basic};
use typed_parts::{
    Given, Ground, Seen, Shape, assigned, beside, boxes, integer_of, lost, node, one_value, only,
    shape_of, sound, text_length, whole_index, with_text_type,
};

/// How many elements are known by an expression: those of an array, of what a pointer to one points to, and of a
/// constant string.
pub fn known_length(shape: Shape, expr: &TypedExpr) -> Option<i128>
    ensures { result ≡ known_length shape expr.now }
{
    match shape {
        Shape::Array { len, .. } | Shape::ArrayPointer { len, .. } => Some(i128::from(len)),
        Shape::Text => text_length(expr),
        _ => None,
    }
}

/// `x[i]`. `BadIndex` at an operand that has no elements, and at an index that is no integer, negative or past the end;
/// `ConstantOutOfRange` at a constant index that `int` has not; at the key of a map what `assigned` reports.
pub fn index_expression(
    ground: &mut Ground,
    x: Seen,
    i: Seen,
) -> Result<Option<TypedExpr>, NoMemory>
    ensures { Turns ground.old ground.new result (IsIndexExpression x i) }
{
    let x = one_value(ground, x);
    let i = one_value(ground, i);
    let (x, i) = beside(with_text_type(ground, x), i)?;
    let shape = ask_indexed(ground, &x);
    match x.zip(shape).zip(i) {
        Some((indexed, i)) => {
            let (x, shape) = indexed;
            element_at(ground, x, shape, i)
        }
        None => Ok(None),
    }
}

/// The shape of what is indexed. `BadIndex` at an operand that has no elements.
fn ask_indexed(ground: &mut Ground, x: &Option<Given>) -> Option<Shape>
    ensures answer { result ≡ (judged x.now (indexed ground.old.types)).sound }
    ensures broken { ground.new ≡ reported ground.old (judged x.now (indexed ground.old.types)).broken }
{
    let Some(x) = x else {
        return None;
    };
    match shape_of(ground, x.expr.of) {
        None | Some(Shape::Chan { .. }) => {
            ground.report(x.at, Rule::BadIndex);
            None
        }
        Some(shape) => Some(shape),
    }
}

/// The element of what has elements, at a value.
fn element_at(
    ground: &mut Ground,
    x: Given,
    shape: Shape,
    i: Given,
) -> Result<Option<TypedExpr>, NoMemory>
    ensures { Turns ground.old ground.new result (IsElementAt x shape i) }
{
    match map_types(shape) {
        Some((key, elem)) => map_element(ground, x, key, elem, i),
        None => numbered_element(ground, x, shape, i),
    }
}

/// The types of the keys and the elements of a map.
fn map_types(shape: Shape) -> Option<(TypeId, TypeId)>
    ensures { result ≡ map_types shape }
{
    match shape {
        Shape::Map { key, elem } => Some((key, elem)),
        _ => None,
    }
}

/// The element of a map, at a value of the type of its keys.
fn map_element(
    ground: &mut Ground,
    x: Given,
    key: TypeId,
    elem: TypeId,
    i: Given,
) -> Result<Option<TypedExpr>, NoMemory>
    ensures { Turns ground.old ground.new result (IsOfMap x key elem i) }
{
    let (key, x) = beside(assigned(ground, Some(i), Some(key)), x)?;
    let Some((key, x)) = key.zip(Some(x)) else {
        return Ok(None);
    };
    let Given { at, expr } = x;
    let (map, key) = boxes(ground, expr, key)?;
    Ok(Some(node(
        at,
        elem,
        ExprKind::MapIndex {
            map,
            key,
            comma_ok: false,
        },
    )))
}

/// The element of a string, an array or a slice, at a whole number.
fn numbered_element(
    ground: &mut Ground,
    x: Given,
    shape: Shape,
    i: Given,
) -> Result<Option<TypedExpr>, NoMemory>
    ensures { Turns ground.old ground.new result (IsNumbered x shape i) }
{
    let len = known_length(shape, &x.expr);
    let (index, x) = beside(index_below(ground, i, len), x)?;
    match index.zip(Some(x)) {
        Some((index, x)) => sound(element(ground, x, shape, index)),
        None => Ok(None),
    }
}

/// An index that is below a length where both are known. `BadIndex` at it where it is not.
fn index_below(
    ground: &mut Ground,
    i: Given,
    len: Option<i128>,
) -> Result<Option<TypedExpr>, NoMemory>
    ensures { Turns ground.old ground.new result (IsIndex len i) }
{
    let at = i.at;
    match whole_index(ground, Some(i), Rule::BadIndex)? {
        Some(index) => Ok(ask_below(ground, at, index, len)),
        None => Ok(None),
    }
}

/// `BadIndex` at an index that is not below a length.
fn ask_below(ground: &mut Ground, at: Pos, index: TypedExpr, len: Option<i128>) -> Option<TypedExpr>
    ensures answer { result ≡ (index_below at len index).sound }
    ensures broken { ground.new ≡ reported ground.old (index_below at len index).broken }
{
    let holds = is_below(integer_of(&index), len);
    if !holds {
        ground.report(at, Rule::BadIndex);
    }
    only(Some(index), holds)
}

fn is_below(number: Option<i128>, len: Option<i128>) -> bool
    ensures { result ≡ below number len }
{
    match (number, len) {
        (Some(number), Some(len)) => number < len,
        _ => true,
    }
}

/// The element at a whole number.
fn element(ground: &Ground, x: Given, shape: Shape, index: TypedExpr) -> Result<TypedExpr, NoMemory>
    ensures { IfOk result (IsElementOf ground.now.types x shape index) }
{
    let Given { at, expr } = x;
    let (numbered, (operand, index)) = beside(numbered(shape), (expr, index))?;
    let (operand, index) = beside(dereferenced(ground, operand), index)?;
    let (operand, index) = boxes(ground, operand, index)?;
    let (base, elem) = numbered;
    Ok(node(
        at,
        elem,
        ExprKind::IndexOf {
            base,
            operand,
            index,
        },
    ))
}

/// What has elements by their number, and the type of its elements.
fn numbered(shape: Shape) -> Result<(IndexBase, TypeId), NoMemory>
    ensures { IfOk result (λ base. numbered shape ≡ Some base) }
{
    match shape {
        Shape::Text => Ok((IndexBase::Text, basic(Basic::Uint8))),
        Shape::Array { elem, .. } | Shape::ArrayPointer { elem, .. } => {
            Ok((IndexBase::Array, elem))
        }
        Shape::Slice { elem } => Ok((IndexBase::Slice, elem)),
        _ => Err(lost()),
    }
}
