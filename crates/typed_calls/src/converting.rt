//! Conversions. Go specification, "Conversions".

ghost use Rattle.std.specs.Prelude.{◌≡◌, ◌↔◌, ◌∷◌, [], None, IfOk, IsTrue, is_some};
ghost use Rattle.std.specs.Char.{encode_utf8};
ghost use Rattle.go_base.specs.declared.rule.Rule.TheVariants.{BadConversion};
ghost use Rattle.go_rules.specs.Untyped.{kind_at};
ghost use Rattle.go_type.specs.Grows.{Grows};
ghost use Rattle.go_type.specs.Kinds.{kind_of};
ghost use Rattle.go_type.specs.Table.{term_at};
ghost use Rattle.type_bare.specs.Stripped.{KeepsDefinitions};
ghost use Rattle.typed_parts.specs.Joining.{items_of, listed};
ghost use Rattle.typed_parts.specs.Judged.{judged, reported};
ghost use Rattle.typed_calls.specs.Converting.{AreLike, IsConversion, IsConverted, IsExplicit, IsOneValue, IsThrough, IsTypedConverted, IsUntypedConverted, IsValueOfKind, MayConvert, as_integer, character, constant_conversion, converts_integer, converts_plainly, first_place, have_one_form, integer_kind, is_characters, moved_result, one_form, sole_asked, sole_breach, text_node, text_value, untyped_conversion, value_conversion};
ghost use Rattle.typed_parts.specs.Turning.{IsEach, Turns};

use go_base::{Bytes, NoMemory, Pos, Rule, TypeId};
use go_rules::{Untyped, is_empty_interface, is_nillable, kind_fits, untyped_kind};
use go_tree::{ExprKind, TypedExpr};
use go_type::{Basic, Const, TypeTerm, Types, basic, int_kind, represent};
use std::alloc::Global;
use type_bare::{Bare, same_but_tags};
use typed_parts::{
    Given, Ground, Seen, beside, boxed, integer_of, is_interface, is_text, may_pass, node,
    one_value, only, retyped, sound, with_last,
};

/// `T(x)`, which begins at a place; `dots` is the place of a `...`. `BadUseOfDots` there; `WrongNumberOfValues` at the
/// arguments, or at the conversion where there are none; `BadConversion` at the conversion; `ConstantOutOfRange` at a
/// constant that is no value of the type.
pub fn conversion(
    ground: &mut Ground,
    at: Pos,
    to: TypeId,
    arguments: Vec<Seen>,
    dots: Option<Pos>,
) -> Result<Option<TypedExpr>, NoMemory>
    ensures { Turns ground.old ground.new result (IsConversion at to arguments.items dots) }
{
    let arguments = single_values(ground, arguments)?;
    match sole_argument(ground, at, arguments, dots) {
        Some(x) => converted(ground, at, x, to),
        None => Ok(None),
    }
}

/// Arguments that are one value each. None where one is not, or is unsound.
fn single_values(ground: &mut Ground, arguments: Vec<Seen>) -> Result<Option<Vec<Given>>, NoMemory>
    ensures { Turns ground.old ground.new (listed result) (IsEach IsOneValue arguments.items) }
{
    let mut values = Some(Vec::new(ground.alloc));
    for argument in arguments {
        let value = one_value(ground, argument);
        values = with_last(values, value)?;
    }
    Ok(values)
}

/// The argument of a conversion, where it is one without a `...`.
fn sole_argument(
    ground: &mut Ground,
    at: Pos,
    arguments: Option<Vec<Given>>,
    dots: Option<Pos>,
) -> Option<Given>
    ensures answer { result ≡ (judged (items_of arguments) (sole_asked at dots)).sound }
    ensures broken { ground.new ≡ reported ground.old (judged (items_of arguments) (sole_asked at dots)).broken }
{
    let mut arguments = arguments?;
    let breach = sole_breach(arguments.as_slice(), at, dots);
    if let Some((place, rule)) = breach {
        ground.report(place, rule);
    }
    let last = arguments.pop();
    drop(arguments);
    only(last, breach.is_none())
}

/// The rule that the number of arguments or a `...` breaks, and where.
fn sole_breach(arguments: &[Given], at: Pos, dots: Option<Pos>) -> Option<(Pos, Rule)>
    ensures { result ≡ sole_breach arguments.now at dots }
{
    if let Some(dots) = dots {
        return Some((dots, Rule::BadUseOfDots));
    }
    if arguments.len() == 1 {
        return None;
    }
    Some((first_place(arguments, at), Rule::WrongNumberOfValues))
}

/// The place of the first of some values, and where there are none another.
fn first_place(values: &[Given], otherwise: Pos) -> Pos
    ensures { result ≡ first_place values.now otherwise }
{
    match values.first() {
        Some(value) => value.at,
        None => otherwise,
    }
}

/// A value converted to a type, by an expression at a place.
fn converted(
    ground: &mut Ground,
    at: Pos,
    x: Given,
    to: TypeId,
) -> Result<Option<TypedExpr>, NoMemory>
    ensures { Turns ground.old ground.new result (IsConverted at to x) }
{
    match constant_conversion(&ground.types, &x.expr, to) {
        ConstantConversion::Integer => {
            let value = as_integer(ground, at, &x, to);
            drop(x);
            Ok(value)
        }
        ConstantConversion::Text => {
            let value = text_constant(ground, at, &x.expr, to);
            drop(x);
            value
        }
        ConstantConversion::Other => converted_value(ground, at, x.expr, to),
    }
}

fn converted_value(
    ground: &mut Ground,
    at: Pos,
    expr: TypedExpr,
    to: TypeId,
) -> Result<Option<TypedExpr>, NoMemory>
    ensures { Turns ground.old ground.new result (IsValueOfKind (kind_at ground.old.types expr.of) at expr to) }
{
    match untyped_kind(&ground.types, expr.of) {
        Some(kind) => converted_untyped(ground, at, expr, kind, to),
        None => converted_typed(ground, at, expr, to),
    }
}

/// What a conversion of a constant gives.
enum ConstantConversion {
    /// The same integer as one of the type.
    Integer,
    /// A text, or a truth value.
    Text,
    /// No constant.
    Other,
}

fn constant_conversion(types: &Types, expr: &TypedExpr, to: TypeId) -> ConstantConversion
    ensures { result ≡ constant_conversion types.now expr.now to }
{
    match &expr.kind {
        ExprKind::ConstOf(value) => value_conversion(types, value, to),
        _ => ConstantConversion::Other,
    }
}

fn value_conversion(types: &Types, value: &Const, to: TypeId) -> ConstantConversion
    ensures { result ≡ value_conversion types.now value.now to }
{
    match value {
        Const::Int(_) | Const::Rune(_) => {
            if int_kind(types, to).is_some() {
                ConstantConversion::Integer
            } else if is_text(types, to) {
                ConstantConversion::Text
            } else {
                ConstantConversion::Other
            }
        }
        Const::Text(_) | Const::Truth(_) => {
            if represent(types, value, to) {
                ConstantConversion::Text
            } else {
                ConstantConversion::Other
            }
        }
    }
}

/// An integer as a constant of an integer type. `ConstantOutOfRange` at the operand.
fn as_integer(ground: &mut Ground, at: Pos, x: &Given, to: TypeId) -> Option<TypedExpr>
    ensures answer { result ≡ (as_integer ground.old.types at x.now to).sound }
    ensures broken { ground.new ≡ reported ground.old (as_integer ground.old.types at x.now to).broken }
{
    let number = integer_of(&x.expr)?;
    let value = Const::Int(number);
    if represent(&ground.types, &value, to) {
        return Some(node(at, to, ExprKind::ConstOf(value)));
    }
    ground.report(x.at, Rule::ConstantOutOfRange);
    None
}

/// A constant of a string or boolean type.
fn text_constant(
    ground: &Ground,
    at: Pos,
    expr: &TypedExpr,
    to: TypeId,
) -> Result<Option<TypedExpr>, NoMemory>
    ensures { IfOk result (λ made. made ≡ text_node at to expr.now.kind) }
{
    match &expr.kind {
        ExprKind::ConstOf(value) => {
            let value = text_value(ground.alloc, value)?;
            Ok(Some(node(at, to, ExprKind::ConstOf(value))))
        }
        _ => Ok(None),
    }
}

fn text_value(alloc: Global, value: &Const) -> Result<Const, NoMemory>
    ensures { IfOk result (λ made. made ≡ text_value value.now) }
{
    match value {
        Const::Int(number) | Const::Rune(number) => Ok(Const::Text(rune_text(alloc, *number)?)),
        other => other.copy(alloc),
    }
}

/// The bytes of a character, and of U+FFFD for a number that is none.
fn rune_text(alloc: Global, number: i128) -> Result<Bytes, NoMemory>
    ensures { IfOk result (λ bytes. bytes ≡ encode_utf8 (character number)) }
{
    let mut text = String::new(alloc);
    text.push(character(number))?;
    Ok(Bytes::new(Vec::from_slice(alloc, text.as_bytes())?))
}

fn character(number: i128) -> char
    ensures { result ≡ character number }
{
    let Ok(code) = u32::try_from(number) else {
        return '\u{fffd}';
    };
    match char::from_u32(code) {
        Some(character) => character,
        None => '\u{fffd}',
    }
}

/// How an untyped operand is converted.
#[derive(Clone, Copy)]
enum UntypedConversion {
    /// It takes the type itself.
    Retyped,
    /// It takes its default type first.
    Through(TypeId),
    Refused,
}

fn untyped_conversion(types: &Types, kind: Untyped, to: TypeId) -> UntypedConversion
    ensures { result ≡ untyped_conversion types.now kind to }
{
    if kind == Untyped::Nil {
        return if is_nillable(types, to) {
            UntypedConversion::Retyped
        } else {
            UntypedConversion::Refused
        };
    }
    if kind_fits(types, kind, to) || (is_integer(kind) && is_text(types, to)) {
        return UntypedConversion::Retyped;
    }
    let may = is_empty_interface(types, to) || (kind == Untyped::Text && is_characters(types, to));
    match kind.default_type() {
        Some(of) if may => UntypedConversion::Through(of),
        _ => UntypedConversion::Refused,
    }
}

fn converted_untyped(
    ground: &mut Ground,
    at: Pos,
    expr: TypedExpr,
    kind: Untyped,
    to: TypeId,
) -> Result<Option<TypedExpr>, NoMemory>
    ensures { Turns ground.old ground.new result (IsUntypedConverted at expr kind to) }
{
    match untyped_conversion(&ground.types, kind, to) {
        UntypedConversion::Retyped => placed(retyped(ground, expr, to), at),
        UntypedConversion::Through(of) => converted_through(ground, at, expr, of, to),
        UntypedConversion::Refused => {
            drop(expr);
            Ok(refused(ground, at))
        }
    }
}

/// An untyped operand by a type that it takes first.
fn converted_through(
    ground: &mut Ground,
    at: Pos,
    expr: TypedExpr,
    of: TypeId,
    to: TypeId,
) -> Result<Option<TypedExpr>, NoMemory>
    ensures { Turns ground.old ground.new result (IsThrough of at to expr) }
{
    match retyped(ground, expr, of)? {
        Some(expr) => sound(explicit(ground, at, expr, to)),
        None => Ok(None),
    }
}

fn placed(expr: Result<Option<TypedExpr>, NoMemory>, at: Pos) -> Result<Option<TypedExpr>, NoMemory>
    ensures { result ≡ moved_result at expr }
{
    match expr {
        Ok(Some(expr)) => {
            let (_at, of, kind) = expr.into_parts();
            Ok(Some(node(at, of, kind)))
        }
        Ok(None) => Ok(None),
        Err(NoMemory) => Err(NoMemory),
    }
}

const fn is_integer(kind: Untyped) -> bool
    ensures { result ≡ integer_kind kind }
{
    matches!(kind, Untyped::Int | Untyped::Rune)
}

fn refused(ground: &mut Ground, at: Pos) -> Option<TypedExpr>
    ensures answer { result ≡ None }
    ensures broken { ground.new ≡ reported ground.old (record { at = at; rule = BadConversion } ∷ []) }
{
    ground.report(at, Rule::BadConversion);
    None
}

/// Whether a type's underlying type is a slice of bytes or of characters.
fn is_characters(types: &Types, of: TypeId) -> bool
    ensures { result ≡ is_characters types.now of }
{
    match types.underlying_term(of) {
        Some(TypeTerm::Slice(elem)) => matches!(
            types.underlying_term(*elem),
            Some(TypeTerm::Basic(Basic::Uint8 | Basic::Int32))
        ),
        _ => false,
    }
}

fn converted_typed(
    ground: &mut Ground,
    at: Pos,
    expr: TypedExpr,
    to: TypeId,
) -> Result<Option<TypedExpr>, NoMemory>
    ensures { Turns ground.old ground.new result (IsTypedConverted at expr to) }
{
    let may = may_convert(ground, expr.of, to);
    let (may, expr) = beside(may, expr)?;
    if may {
        return sound(explicit(ground, at, expr, to));
    }
    drop(expr);
    Ok(refused(ground, at))
}

/// A conversion that is written always leaves a node.
fn explicit(ground: &Ground, at: Pos, expr: TypedExpr, to: TypeId) -> Result<TypedExpr, NoMemory>
    ensures { IfOk result (IsExplicit ground.now.types at expr to) }
{
    let operand = boxed(ground, expr)?;
    if is_interface(&ground.types, to) {
        Ok(node(at, to, ExprKind::ToInterface(operand)))
    } else {
        Ok(node(at, to, ExprKind::ConvertTo(operand)))
    }
}

/// Whether a typed value of a type, not a constant, may be converted to another.
fn may_convert(ground: &mut Ground, from: TypeId, to: TypeId) -> Result<bool, NoMemory>
    ensures may { IfOk result (λ may. IsTrue may ↔ MayConvert ground.old.types ground.new.types from to) }
    ensures grows { Grows ground.old.types ground.new.types }
    ensures definitions { KeepsDefinitions ground.old.types ground.new.types }
    ensures keeps { ground.new ≡ record ground.old { types = ground.new.types } }
{
    if may_pass(&ground.types, from, to) {
        return Ok(true);
    }
    if converts_plainly(&ground.types, from, to) {
        return Ok(true);
    }
    is_same_but_tags(ground, from, to)
}

fn converts_plainly(types: &Types, from: TypeId, to: TypeId) -> bool
    ensures { result ≡ converts_plainly types.now from to }
{
    if types.underlying(from) == types.underlying(to) {
        return true;
    }
    converts_basic(types, from, to)
}

/// Whether values are converted as integers and strings.
fn converts_basic(types: &Types, from: TypeId, to: TypeId) -> bool
    ensures { result ≡ converts_integer types.now from to (is_some (kind_of types.now from)) }
{
    if int_kind(types, from).is_some() {
        return int_kind(types, to).is_some() || is_text(types, to);
    }
    (is_text(types, from) && is_characters(types, to))
        || (is_text(types, to) && is_characters(types, from))
}

/// Whether the underlying types of two types are identical but for tags.
fn is_same_but_tags(ground: &mut Ground, from: TypeId, to: TypeId) -> Result<bool, NoMemory>
    ensures like { IfOk result (λ like. IsTrue like ↔ AreLike ground.old.types ground.new.types from to) }
    ensures grows { Grows ground.old.types ground.new.types }
    ensures definitions { KeepsDefinitions ground.old.types ground.new.types }
    ensures keeps { ground.new ≡ record ground.old { types = ground.new.types } }
{
    let first = ground.types.underlying(from);
    let second = ground.types.underlying(to);
    if !have_one_form(&ground.types, first, second) {
        return Ok(false);
    }
    let mut bare = Bare::new(ground.alloc);
    let same = same_but_tags(&mut bare, &mut ground.types, first, second)?;
    Ok(same)
}

/// Whether two types are held and are of one form.
fn have_one_form(types: &Types, first: TypeId, second: TypeId) -> bool
    ensures { result ≡ have_one_form types.now first second }
{
    types.is_held(first) && types.is_held(second) && has_one_form(types, first, second)
}

/// Whether two types are of one form, so that they may be identical but for tags.
fn has_one_form(types: &Types, first: TypeId, second: TypeId) -> bool
    ensures { result ≡ one_form (term_at types.now first) (term_at types.now second) }
{
    matches!(
        (types.get(first), types.get(second)),
        (Some(TypeTerm::Pointer(_)), Some(TypeTerm::Pointer(_)))
            | (Some(TypeTerm::Slice(_)), Some(TypeTerm::Slice(_)))
            | (Some(TypeTerm::Array { .. }), Some(TypeTerm::Array { .. }))
            | (Some(TypeTerm::Map { .. }), Some(TypeTerm::Map { .. }))
            | (Some(TypeTerm::Chan { .. }), Some(TypeTerm::Chan { .. }))
            | (Some(TypeTerm::Func(_)), Some(TypeTerm::Func(_)))
            | (Some(TypeTerm::Struct(_)), Some(TypeTerm::Struct(_)))
            | (Some(TypeTerm::Interface(_)), Some(TypeTerm::Interface(_)))
    )
}
