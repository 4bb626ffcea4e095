//! Steps along fields and pointers, as implicit nodes. Go specification, "Selectors".

ghost use Rattle.std.specs.Prelude.{◌≡◌, IfOk, Some};
ghost use Rattle.typed_parts.specs.Joining.{sound};
ghost use Rattle.typed_parts.specs.Turning.{Turns};
ghost use Rattle.typed_primaries.specs.Steps.{IsAddress, IsAddressed, IsAlong, IsDereferenced, IsFieldOf, field_type};

use go_base::{NoMemory, TypeId};
use go_tree::{ExprKind, TypedExpr};
use go_type::{TypeTerm, Types};
use typed_parts::{Ground, beside, boxed, fields_of, lost, node, pointed};

/// The field that steps lead to.
pub fn along(ground: &Ground, expr: TypedExpr, steps: &[u32]) -> Result<TypedExpr, NoMemory>
    ensures { IfOk result (IsAlong ground.now.types expr steps.now) }
{
    let mut expr = expr;
    for step in steps {
        expr = field_of(ground, expr, *step)?;
    }
    Ok(expr)
}

/// A field of a struct, or of what a pointer points to.
fn field_of(ground: &Ground, expr: TypedExpr, field: u32) -> Result<TypedExpr, NoMemory>
    ensures { IfOk result (IsFieldOf ground.now.types expr field) }
{
    let expr = dereferenced(ground, expr)?;
    let of = field_type(&ground.types, expr.of, field);
    let (of, expr) = beside(of, expr)?;
    let at = expr.at;
    let operand = boxed(ground, expr)?;
    Ok(node(at, of, ExprKind::FieldOf { operand, field }))
}

/// What a pointer points to, and any other value as it is.
pub fn dereferenced(ground: &Ground, expr: TypedExpr) -> Result<TypedExpr, NoMemory>
    ensures { IfOk result (IsDereferenced ground.now.types expr) }
{
    let Some(base) = pointed(ground, expr.of) else {
        return Ok(expr);
    };
    let at = expr.at;
    let operand = boxed(ground, expr)?;
    Ok(node(at, base, ExprKind::Deref(operand)))
}

fn field_type(types: &Types, of: TypeId, field: u32) -> Result<TypeId, NoMemory>
    ensures { IfOk result (λ id. field_type types.now of field ≡ Some id) }
{
    match fields_of(types, of).get(field as usize) {
        Some(field) => Ok(field.of),
        None => Err(lost()),
    }
}

/// A pointer as it is, and the address of any other value.
pub fn addressed(ground: &mut Ground, expr: TypedExpr) -> Result<TypedExpr, NoMemory>
    ensures { Turns ground.old ground.new (sound result) (IsAddressed expr) }
{
    match pointed(ground, expr.of) {
        Some(_base) => Ok(expr),
        None => address(ground, expr),
    }
}

/// The address of a place, as an implicit node.
pub fn address(ground: &mut Ground, expr: TypedExpr) -> Result<TypedExpr, NoMemory>
    ensures { Turns ground.old ground.new (sound result) (IsAddress expr) }
{
    let at = expr.at;
    let pointer = ground.hold(TypeTerm::Pointer(expr.of));
    let (pointer, expr) = beside(pointer, expr)?;
    let operand = boxed(ground, expr)?;
    Ok(node(at, pointer, ExprKind::AddressOf(operand)))
}
