//! Equality of values. Go specification, "Comparison operators".

ghost use Rattle.std.specs.Prelude.{◌≡◌, ◌↔◌, IsTrue, Bool, ◌&&◌, is_none};
ghost use Rattle.std.specs.Ordering.{int_eq};
ghost use Rattle.go_type.specs.Comparable.{Comparable};
ghost use Rattle.go_value.specs.Values.{value_of, parts_of, function_of, dynamic};
ghost use Rattle.go_maps.specs.Equality.{Compares, ComparesParts, ComparesPart, same_leaf, same_numbers, same_map};
ghost use Rattle.go_maps.specs.Equality.{same_chan, is_nil_function, shown_by};

use go_base::{Bytes, ChanId, MapId, TypeId};
use go_type::{Basic, TypeTerm, Types, comparable};
use go_value::{Dynamic, Fault, FuncValue, Part, SliceValue, Value, ValueError};
use std::alloc::Global;

/// Whether two values of one type are equal. `Uncomparable` where two interfaces hold values of one type that is not
/// comparable, before a difference is found.
pub fn equal(_alloc: Global, types: &Types, a: &Value, b: &Value) -> Result<bool, ValueError>
    ensures { Compares types.now (value_of a.now) (value_of b.now) result }
{
    same(types, a, b)
}

/// Whether values of a type can be compared.
pub fn is_comparable(types: &Types, of: TypeId) -> bool
    ensures { IsTrue result ↔ Comparable types.now of }
{
    let Some(term) = types.underlying_term(of) else {
        return comparable(types, of);
    };
    match shown_by(term) {
        Some(shown) => shown,
        None => comparable(types, of),
    }
}

/// What the term of a type shows by itself.
fn shown_by(term: &TypeTerm) -> Option<bool>
    ensures { result ≡ shown_by term.now }
{
    match term {
        TypeTerm::Basic(basic) => Some(!matches!(basic, Basic::UntypedNil)),
        TypeTerm::Pointer(_) | TypeTerm::Chan { .. } | TypeTerm::Interface(_) => Some(true),
        TypeTerm::Slice(_) | TypeTerm::Map { .. } | TypeTerm::Func(_) => Some(false),
        _ => None,
    }
}

#[cycle(same)]
fn same(types: &Types, a: &Value, b: &Value) -> Result<bool, ValueError>
    ensures { Compares types.now (value_of a.now) (value_of b.now) result }
{
    match (a, b) {
        (Value::Interface(left), Value::Interface(right)) => same_dynamic(types, left, right),
        (Value::Parts(left), Value::Parts(right)) => {
            same_parts(types, left.as_slice(), right.as_slice())
        }
        _ => Ok(same_leaf(a, b)),
    }
}

#[cycle(same)]
fn same_dynamic(types: &Types, a: &Dynamic, b: &Dynamic) -> Result<bool, ValueError>
    ensures { Compares types.now (dynamic a.now.of a.now.value) (dynamic b.now.of b.now.value) result }
{
    if a.of().number != b.of().number {
        return Ok(false);
    }
    if !is_comparable(types, a.of()) {
        return Err(ValueError::Fault(Fault::Uncomparable(a.of())));
    }
    same(types, a.value(), b.value())
}

/// The later parts count where the earlier ones are equal.
#[cycle(same)]
fn same_parts(types: &Types, a: &[Part], b: &[Part]) -> Result<bool, ValueError>
    ensures { ComparesParts types.now (parts_of a.now) (parts_of b.now) result }
{
    let mut others = b;
    for left in a {
        let Some((right, rest)) = others.split_first() else {
            return Ok(false);
        };
        if !same_part(types, left, right)? {
            return Ok(false);
        }
        others = rest;
    }
    Ok(others.is_empty())
}

/// Fields named `_` are left out.
#[cycle(same)]
fn same_part(types: &Types, a: &Part, b: &Part) -> Result<bool, ValueError>
    ensures { ComparesPart types.now a.now b.now result }
{
    if a.blank || b.blank {
        return Ok(a.blank && b.blank);
    }
    same(types, &a.value, &b.value)
}

/// Whether two values without parts are equal.
fn same_leaf(a: &Value, b: &Value) -> bool
    ensures { result ≡ same_leaf (value_of a.now) (value_of b.now) }
{
    match (a, b) {
        (Value::Truth(x), Value::Truth(y)) => *x == *y,
        (Value::Int(x), Value::Int(y)) => same_int(*x, *y),
        (Value::Text(x), Value::Text(y)) => same_text(x, y),
        (Value::Pointer(x), Value::Pointer(y)) => x.is_same(y),
        (Value::Slice(x), Value::Slice(y)) => are_nil(x, y),
        (Value::Map(x), Value::Map(y)) => same_map(*x, *y),
        (Value::Chan(x), Value::Chan(y)) => same_chan(*x, *y),
        (Value::Func(x), Value::Func(y)) => are_nil_functions(x, y),
        (Value::NilInterface, Value::NilInterface) => true,
        _ => false,
    }
}

fn same_int(a: i128, b: i128) -> bool
    ensures { result ≡ int_eq a b }
{
    a == b
}

fn same_text(a: &Bytes, b: &Bytes) -> bool
    ensures { result ≡ same_numbers a.now b.now }
{
    a.as_slice() == b.as_slice()
}

fn same_map(a: Option<MapId>, b: Option<MapId>) -> bool
    ensures { result ≡ same_map a b }
{
    match (a, b) {
        (Some(a), Some(b)) => a.number == b.number,
        (None, None) => true,
        _ => false,
    }
}

fn same_chan(a: Option<ChanId>, b: Option<ChanId>) -> bool
    ensures { result ≡ same_chan a b }
{
    match (a, b) {
        (Some(a), Some(b)) => a.number == b.number,
        (None, None) => true,
        _ => false,
    }
}

fn are_nil(a: &SliceValue, b: &SliceValue) -> bool
    ensures { result ≡ (is_none a.now.at.cell && is_none b.now.at.cell) }
{
    a.is_nil() && b.is_nil()
}

/// Functions are compared with nil alone.
fn are_nil_functions(a: &FuncValue, b: &FuncValue) -> bool
    ensures { result ≡ (is_nil_function (function_of a.now) && is_nil_function (function_of b.now)) }
{
    is_nil_function(a) && is_nil_function(b)
}

fn is_nil_function(function: &FuncValue) -> bool
    ensures { result ≡ is_nil_function (function_of function.now) }
{
    match function {
        FuncValue::Nil => true,
        FuncValue::Closure { .. } => false,
        FuncValue::Bound { .. } => false,
        FuncValue::Expression { .. } => false,
    }
}
