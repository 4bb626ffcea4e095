//! The built-in function `append`. Go specification, "Appending to and copying slices".

ghost use Rattle.std.specs.Prelude.{◌≡◌, ◌↔◌, ℕ, IsTrue, Some, length};
ghost use Rattle.std.specs.Option.{option_zip};
ghost use Rattle.typed_parts.specs.Joining.{items_of, listed};
ghost use Rattle.typed_parts.specs.Judged.{Comes, reported};
ghost use Rattle.typed_parts.specs.Several.{place_of};
ghost use Rattle.typed_parts.specs.Shapes.{elem_of};
ghost use Rattle.typed_built_ins.specs.Growing.{IsAppend, IsAppendCall, IsBytes, IsItem, IsSpread, IsSpreadAs, dots_broken, elem_asked, first_type, fits_dots, is_zero, slice_asked, slice_value};
ghost use Rattle.typed_parts.specs.Turning.{IsEach, Soundly, Turns};

use crate::built_ins::BuiltInCall;
use go_base::{NoMemory, Pos, Rule, TypeId};
use go_tree::TypedExpr;
use go_type::{Basic, TypeTerm, Types, basic, identical};
use typed_parts::{
    Given, Ground, assigned, beside, elem_of, is_text, is_untyped_text, only, place_of, retyped,
    with_last,
};

/// `append(s, ..)` of at least one argument. `BadBuiltInCall` at one that is no slice; at an item what `assigned` reports.
pub fn append_of(
    ground: &mut Ground,
    call: BuiltInCall,
    arguments: Vec<Option<Given>>,
) -> Result<Option<TypedExpr>, NoMemory>
    ensures { Turns ground.old ground.new result (IsAppend call arguments.items) }
{
    let fits = ask_fit(ground, call, arguments.as_slice());
    match only(Some(arguments), fits) {
        Some(arguments) => append_call(ground, call, arguments),
        None => Ok(None),
    }
}

/// Whether a `...` that is written stands where it may.
fn ask_fit(ground: &mut Ground, call: BuiltInCall, arguments: &[Option<Given>]) -> bool
    ensures fits { result ≡ fits_dots call.dots (length arguments.now) }
    ensures broken { ground.new ≡ reported ground.old (dots_broken call.dots (length arguments.now) (place_of arguments.now call.at)) }
{
    match call.dots {
        Some(dots) => ask_dots(ground, call.at, dots, arguments),
        None => true,
    }
}

fn append_call(
    ground: &mut Ground,
    call: BuiltInCall,
    arguments: Vec<Option<Given>>,
) -> Result<Option<TypedExpr>, NoMemory>
    ensures { Turns ground.old ground.new result (IsAppendCall call arguments.items) }
{
    let elem = slice_elem(ground, arguments.as_slice());
    let values = appended(ground, call, arguments, elem)?;
    let of = first_type(&values);
    match of.zip(values) {
        Some((of, values)) => Ok(Some(call.node(of, None, values, call.dots.is_some()))),
        None => Ok(None),
    }
}

/// The type of the elements of the first argument.
fn slice_elem(ground: &mut Ground, arguments: &[Option<Given>]) -> Option<TypeId>
    ensures answer { result ≡ (slice_asked ground.old.types arguments.now).sound }
    ensures broken { ground.new ≡ reported ground.old (slice_asked ground.old.types arguments.now).broken }
{
    match arguments.first() {
        Some(Some(slice)) => ask_slice(ground, slice),
        _ => None,
    }
}

fn first_type(values: &Option<Vec<TypedExpr>>) -> Option<TypeId>
    ensures { result ≡ first_type (items_of values.now) }
{
    match values {
        Some(values) => match values.first() {
            Some(slice) => Some(slice.of),
            None => None,
        },
        None => None,
    }
}

/// Whether two arguments are written before a `...`.
fn ask_dots(ground: &mut Ground, at: Pos, dots: Pos, arguments: &[Option<Given>]) -> bool
    ensures fits { result ≡ fits_dots (Some dots) (length arguments.now) }
    ensures broken { ground.new ≡ reported ground.old (dots_broken (Some dots) (length arguments.now) (place_of arguments.now at)) }
{
    if arguments.len() == 2 {
        return true;
    }
    let Some(place) = place_of(arguments, at) else {
        return false;
    };
    if arguments.len() > 2 {
        ground.report(dots, Rule::BadUseOfDots);
    } else {
        ground.report(place, Rule::WrongNumberOfValues);
    }
    false
}

/// The type of the elements of a slice. `BadBuiltInCall` at what is none.
fn ask_slice(ground: &mut Ground, slice: &Given) -> Option<TypeId>
    ensures answer { result ≡ (elem_asked slice.now.at (elem_of ground.old.types slice.now.expr.of)).sound }
    ensures broken { ground.new ≡ reported ground.old (elem_asked slice.now.at (elem_of ground.old.types slice.now.expr.of)).broken }
{
    match elem_of(&ground.types, slice.expr.of) {
        Some(elem) => Some(elem),
        None => {
            ground.report(slice.at, Rule::BadBuiltInCall);
            None
        }
    }
}

/// Whether a type's underlying type is `[]byte`.
fn is_bytes(types: &Types, of: TypeId) -> bool
    ensures { IsTrue result ↔ IsBytes types.now of }
{
    match elem_of(types, of) {
        Some(elem) => identical(types, elem, basic(Basic::Uint8)),
        None => false,
    }
}

/// The slice and its items, where all are sound. The elements have a type where the slice is one.
fn appended(
    ground: &mut Ground,
    call: BuiltInCall,
    arguments: Vec<Option<Given>>,
    elem: Option<TypeId>,
) -> Result<Option<Vec<TypedExpr>>, NoMemory>
    ensures { Turns ground.old ground.new (listed result) (IsEach (IsItem call elem) arguments.items) }
{
    let mut values = Some(Vec::new(ground.alloc));
    let mut is_slice = true;
    for argument in arguments {
        let value = item(ground, call, argument, elem, is_slice)?;
        values = with_last(values, value)?;
        is_slice = false;
    }
    Ok(values)
}

/// The slice, or an item.
fn item(
    ground: &mut Ground,
    call: BuiltInCall,
    argument: Option<Given>,
    elem: Option<TypeId>,
    is_slice: bool,
) -> Result<Option<TypedExpr>, NoMemory>
    ensures { (number : ℕ) → is_zero number ≡ is_slice → Turns ground.old ground.new result (IsItem call elem number argument) }
{
    if is_slice {
        Ok(slice_value(argument, elem))
    } else if call.dots.is_some() {
        appended_slice(ground, argument, elem)
    } else {
        assigned(ground, argument, elem)
    }
}

fn slice_value(slice: Option<Given>, elem: Option<TypeId>) -> Option<TypedExpr>
    ensures { result ≡ (slice_value slice elem).sound }
{
    let slice = only(slice, elem.is_some())?;
    Some(slice.expr)
}

/// What is appended with a `...`: a slice, or a string to bytes.
fn appended_slice(
    ground: &mut Ground,
    x: Option<Given>,
    elem: Option<TypeId>,
) -> Result<Option<TypedExpr>, NoMemory>
    ensures { Turns ground.old ground.new result (Soundly IsSpread (option_zip x elem)) }
{
    match x.zip(elem) {
        Some((x, elem)) => spread_slice(ground, x, elem),
        None => Ok(None),
    }
}

fn spread_slice(ground: &mut Ground, x: Given, elem: TypeId) -> Result<Option<TypedExpr>, NoMemory>
    ensures { Turns ground.old ground.new result (IsSpread (x, elem)) }
{
    let (slice, x) = beside(ground.hold(TypeTerm::Slice(elem)), x)?;
    spread_as(ground, x, slice)
}

/// What is appended to elements of a slice type.
fn spread_as(ground: &mut Ground, x: Given, slice: TypeId) -> Result<Option<TypedExpr>, NoMemory>
    ensures { Comes ground.old ground.new result (IsSpreadAs ground.old.types x slice) }
{
    if !is_bytes(&ground.types, slice) {
        return assigned(ground, Some(x), Some(slice));
    }
    if is_untyped_text(&ground.types, x.expr.of) {
        return retyped(ground, x.expr, basic(Basic::Text));
    }
    if is_text(&ground.types, x.expr.of) {
        return Ok(Some(x.expr));
    }
    assigned(ground, Some(x), Some(slice))
}
