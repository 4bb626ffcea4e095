//! The built-in functions `len` and `cap`. Go specification, "Length and capacity".

ghost use Rattle.std.specs.Prelude.{◌≡◌};
ghost use Rattle.go_tree.specs.declared.exprs.ExprKind.TheVariants as kinds;
ghost use Rattle.go_type.specs.declared.constants.Const.TheVariants as constant;
ghost use Rattle.go_type.specs.declared.term.Basic.TheVariants as basic_kind;
ghost use Rattle.go_type.specs.Table.{basic_id};
ghost use Rattle.typed_parts.specs.Judged.{Comes};
ghost use Rattle.typed_parts.specs.Nodes.{node};
ghost use Rattle.typed_built_ins.specs.Measuring.{IsLength, IsLengthOf, array_length, constant_length, has_length};
ghost use Rattle.typed_parts.specs.Turning.{Turns};

use crate::built_ins::{BuiltInCall, one_of};
use go_base::{NoMemory, Pos, Rule};
use go_tree::{ExprKind, TypedExpr};
use go_type::{Basic, Builtin, Const, basic};
use typed_parts::{
    Given, Ground, Shape, asked, holds_call, node, shape_of, text_length, with_text_type,
};

/// `len(x)` or `cap(x)`: a constant of type `int` where x is a constant string, or an array or a pointer to one without a
/// call in it. `BadBuiltInCall` at an argument without a length or capacity.
pub fn length_of(
    ground: &mut Ground,
    call: BuiltInCall,
    x: Given,
) -> Result<Option<TypedExpr>, NoMemory>
    ensures { Turns ground.old ground.new result (IsLength call x) }
{
    let Some(x) = with_text_type(ground, Some(x))? else {
        return Ok(None);
    };
    let shape = shape_of(ground, x.expr.of);
    match asked(
        ground,
        x,
        has_length(call.builtin, shape),
        Rule::BadBuiltInCall,
    ) {
        Some(x) => length_call(ground, call, shape, x.expr),
        None => Ok(None),
    }
}

fn length_call(
    ground: &Ground,
    call: BuiltInCall,
    shape: Option<Shape>,
    expr: TypedExpr,
) -> Result<Option<TypedExpr>, NoMemory>
    ensures { Comes ground.now ground.now result (IsLengthOf call expr (constant_length shape expr)) }
{
    if let Some(len) = constant_length(shape, &expr) {
        drop(expr);
        return Ok(Some(length_node(call.at, len)));
    }
    match one_of(ground, Some(expr))? {
        Some(arguments) => Ok(Some(call.node(basic(Basic::Int), None, arguments, false))),
        None => Ok(None),
    }
}

/// A length that is constant.
fn length_node(at: Pos, len: i128) -> TypedExpr
    ensures { result ≡ node at (basic_id basic_kind.Int) (kinds.ConstOf (constant.Int len)) }
{
    node(at, basic(Basic::Int), ExprKind::ConstOf(Const::Int(len)))
}

fn has_length(builtin: Builtin, shape: Option<Shape>) -> bool
    ensures { result ≡ has_length builtin shape }
{
    match shape {
        Some(
            Shape::Array { .. }
            | Shape::ArrayPointer { .. }
            | Shape::Slice { .. }
            | Shape::Chan { .. },
        ) => true,
        Some(Shape::Text | Shape::Map { .. }) => builtin == Builtin::Len,
        None => false,
    }
}

/// The length of a value that is known by its expression.
fn constant_length(shape: Option<Shape>, expr: &TypedExpr) -> Option<i128>
    ensures { result ≡ constant_length shape expr.now }
{
    match shape? {
        Shape::Text => text_length(expr),
        Shape::Array { len, .. } | Shape::ArrayPointer { len, .. } => array_length(expr, len),
        _ => None,
    }
}

fn array_length(expr: &TypedExpr, len: u64) -> Option<i128>
    ensures { result ≡ array_length expr.now len }
{
    if holds_call(expr) {
        None
    } else {
        Some(i128::from(len))
    }
}
