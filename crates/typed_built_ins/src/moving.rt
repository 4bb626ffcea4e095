//! The built-in functions `clear`, `close`, `copy` and `delete`. Go specification, "Clear", "Close", "Appending to and copying
//! slices" and "Deletion of map elements".

ghost use Rattle.std.specs.Prelude.{◌≡◌, ◌↔◌, ◌∷◌, [], Bool, Some, IfOk, IsTrue};
ghost use Rattle.go_type.specs.Assignable.{underlying_term_of};
ghost use Rattle.go_type.specs.Table.{Table};
ghost use Rattle.typed_parts.specs.Joining.{items_of};
ghost use Rattle.typed_parts.specs.Judged.{Outcome, reported};
ghost use Rattle.typed_built_ins.specs.Moving.{IsClear, IsClose, IsCopiedFrom, IsCopy, IsDelete, IsTaken, MayCopy, cleared_term, closed_term, copied_to, deleted_from, elem_in, key_of, key_type};
ghost use Rattle.typed_parts.specs.Turning.{Turns};

use crate::built_ins::{BuiltInCall, one_of};
use go_base::{NoMemory, Rule, TypeId};
use go_tree::TypedExpr;
use go_type::{Basic, Dir, TypeTerm, Types, basic, identical};
use typed_parts::{
    Given, Ground, Shape, asked, assigned, beside, elem_of, is_text, shape_of, with_last,
    with_text_type,
};

/// `clear(x)` of a map or slice. `BadBuiltInCall` at any other.
pub fn cleared(
    ground: &mut Ground,
    call: BuiltInCall,
    x: Given,
) -> Result<Option<TypedExpr>, NoMemory>
    ensures { Turns ground.old ground.new result (IsClear call x) }
{
    let takes = takes_clear(&ground.types, x.expr.of);
    of_value(ground, call, x, takes)
}

fn takes_clear(types: &Types, of: TypeId) -> bool
    ensures { result ≡ cleared_term (underlying_term_of types.now of) }
{
    matches!(
        types.underlying_term(of),
        Some(TypeTerm::Slice(_) | TypeTerm::Map { .. })
    )
}

/// `close(c)` of a channel that is not only for receiving. `BadBuiltInCall` at any other.
pub fn closed(
    ground: &mut Ground,
    call: BuiltInCall,
    x: Given,
) -> Result<Option<TypedExpr>, NoMemory>
    ensures { Turns ground.old ground.new result (IsClose call x) }
{
    let takes = takes_close(&ground.types, x.expr.of);
    of_value(ground, call, x, takes)
}

fn takes_close(types: &Types, of: TypeId) -> bool
    ensures { result ≡ closed_term (underlying_term_of types.now of) }
{
    matches!(
        types.underlying_term(of),
        Some(TypeTerm::Chan {
            dir: Dir::Both | Dir::Send,
            ..
        })
    )
}

fn of_value(
    ground: &mut Ground,
    call: BuiltInCall,
    x: Given,
    takes: bool,
) -> Result<Option<TypedExpr>, NoMemory>
    ensures { (test : Table → Bool) → test ground.old.types ≡ takes → Turns ground.old ground.new result (IsTaken call x test) }
{
    match asked(ground, x, takes, Rule::BadBuiltInCall) {
        Some(x) => {
            let arguments = one_of(ground, Some(x.expr))?;
            call.action(ground, arguments)
        }
        None => Ok(None),
    }
}

/// `copy(d, s)`: `BadBuiltInCall` at what is no slice, and at a source whose elements are of another type, or that is a
/// string while the elements are no bytes.
pub fn copied(
    ground: &mut Ground,
    call: BuiltInCall,
    to: Option<Given>,
    from: Option<Given>,
) -> Result<Option<TypedExpr>, NoMemory>
    ensures { Turns ground.old ground.new result (IsCopy call to from) }
{
    let (from, to) = beside(with_text_type(ground, from), to)?;
    let to = copied_to(ground, to);
    let from = copied_from(ground, &to, from);
    let Some((to, from)) = to.zip(from) else {
        return Ok(None);
    };
    match two_of(ground, to.expr, from.expr)? {
        Some(arguments) => Ok(Some(call.node(basic(Basic::Int), None, arguments, false))),
        None => Ok(None),
    }
}

/// What is copied to. `BadBuiltInCall` at what is no slice.
fn copied_to(ground: &mut Ground, to: Option<Given>) -> Option<Given>
    ensures answer { result ≡ (copied_to ground.old.types to).sound }
    ensures broken { ground.new ≡ reported ground.old (copied_to ground.old.types to).broken }
{
    let to = to?;
    let is_slice = elem_of(&ground.types, to.expr.of).is_some();
    asked(ground, to, is_slice, Rule::BadBuiltInCall)
}

/// What is copied to a slice. `BadBuiltInCall` at what may not be.
fn copied_from(ground: &mut Ground, to: &Option<Given>, from: Option<Given>) -> Option<Given>
    ensures { Outcome ground.old ground.new result (IsCopiedFrom ground.old.types to.now from) }
{
    let Some((elem, from)) = given_elem(ground, to).zip(from) else {
        return None;
    };
    let may = may_copy(ground, elem, from.expr.of);
    asked(ground, from, may, Rule::BadBuiltInCall)
}

fn given_elem(ground: &Ground, slice: &Option<Given>) -> Option<TypeId>
    ensures { result ≡ elem_in ground.now.types slice.now }
{
    match slice {
        Some(slice) => elem_of(&ground.types, slice.expr.of),
        None => None,
    }
}

/// A list of two.
fn two_of(
    ground: &Ground,
    first: TypedExpr,
    second: TypedExpr,
) -> Result<Option<Vec<TypedExpr>>, NoMemory>
    ensures { IfOk result (λ made. items_of made ≡ Some (first ∷ second ∷ [])) }
{
    let (values, second) = beside(one_of(ground, Some(first)), second)?;
    with_last(values, Some(second))
}

fn may_copy(ground: &Ground, elem: TypeId, from: TypeId) -> bool
    ensures { IsTrue result ↔ MayCopy ground.now.types elem from }
{
    match elem_of(&ground.types, from) {
        Some(other) => identical(&ground.types, elem, other),
        None => {
            is_text(&ground.types, from) && identical(&ground.types, elem, basic(Basic::Uint8))
        }
    }
}

/// `delete(m, k)`: `BadBuiltInCall` at what is no map, and at the key what `assigned` reports.
pub fn deleted(
    ground: &mut Ground,
    call: BuiltInCall,
    map: Option<Given>,
    key: Option<Given>,
) -> Result<Option<TypedExpr>, NoMemory>
    ensures { Turns ground.old ground.new result (IsDelete call map key) }
{
    let map = deleted_from(ground, map);
    let of = key_type(ground, &map);
    let (key, map) = beside(assigned(ground, key, of), map)?;
    let Some((map, key)) = map.zip(key) else {
        return Ok(None);
    };
    let arguments = two_of(ground, map.expr, key)?;
    call.action(ground, arguments)
}

/// What is deleted from. `BadBuiltInCall` at what is no map.
fn deleted_from(ground: &mut Ground, map: Option<Given>) -> Option<Given>
    ensures answer { result ≡ (deleted_from ground.old.types map).sound }
    ensures broken { ground.new ≡ reported ground.old (deleted_from ground.old.types map).broken }
{
    let map = map?;
    let is_map = key_of(ground, map.expr.of).is_some();
    asked(ground, map, is_map, Rule::BadBuiltInCall)
}

fn key_type(ground: &Ground, map: &Option<Given>) -> Option<TypeId>
    ensures { result ≡ key_type ground.now.types map.now }
{
    match map {
        Some(map) => key_of(ground, map.expr.of),
        None => None,
    }
}

fn key_of(ground: &Ground, of: TypeId) -> Option<TypeId>
    ensures { result ≡ key_of ground.now.types of }
{
    match shape_of(ground, of) {
        Some(Shape::Map { key, elem: _ }) => Some(key),
        _ => None,
    }
}
