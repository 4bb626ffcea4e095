//! Zero values. Go specification, "The zero value".

ghost use Rattle.std.specs.Prelude.{◌≡◌, IfOk, Some, None, false};
ghost use Rattle.go_value.specs.Values.{value_of, parts_of};
ghost use Rattle.go_value.specs.Values as vals;
ghost use Rattle.go_type.specs.Table.{is_name};
ghost use Rattle.go_value.specs.Zeros.{zeroed, zeroed_parts, zero_to, zero_of_term, zero_of_basic, all_parts, parts_by, array_of};

use crate::address::{Address, SliceValue};
use crate::memory::lost;
use crate::values::{FuncValue, Part, Value};
use go_base::{Bytes, NameId, NoMemory, TypeId};
use go_type::{Basic, Field, MAX_NESTING, TypeTerm, Types};
use std::alloc::Global;

/// The zero value of a type. Fields that have the name `blank`, which is that of `_`, are marked.
pub fn zero_value(
    alloc: Global,
    types: &Types,
    blank: Option<NameId>,
    of: TypeId,
) -> Result<Value, NoMemory>
    ensures { IfOk result (λ zero. zero_to 1000 types.now blank of ≡ Some (value_of zero)) }
{
    zero_within(alloc, types, blank, of, MAX_NESTING)
}

#[cycle(zero)]
fn zero_within(
    alloc: Global,
    types: &Types,
    blank: Option<NameId>,
    of: TypeId,
    depth: usize,
) -> Result<Value, NoMemory>
    ensures { IfOk result (λ zero. zero_to depth types.now blank of ≡ Some (value_of zero)) }
{
    if depth == 0 {
        return Err(lost());
    }
    match types.underlying_term(of) {
        Some(TypeTerm::Array { len: 0, .. }) => Value::parts(alloc, Vec::new(alloc)),
        Some(TypeTerm::Array { len, elem }) => {
            let zero = zero_within(alloc, types, blank, *elem, depth - 1)?;
            repeated(alloc, &zero, *len)
        }
        Some(TypeTerm::Struct(fields)) => {
            zero_fields(alloc, types, blank, fields.as_slice(), depth - 1)
        }
        Some(TypeTerm::Tuple(parts)) => zero_parts(
            alloc,
            types,
            blank,
            parts.as_slice(),
            depth - 1,
        ),
        Some(term) => zero_leaf(alloc, term),
        None => Err(lost()),
    }
}

#[cycle(zero)]
fn zero_fields(
    alloc: Global,
    types: &Types,
    blank: Option<NameId>,
    fields: &[Field],
    depth: usize,
) -> Result<Value, NoMemory>
    ensures { IfOk result (λ zero. all_parts (parts_by (λ field. zero_to depth types.now blank field.of) (λ field. is_name blank field.name) fields.now) ≡ Some (value_of zero)) }
{
    let mut parts = Vec::new(alloc);
    for field in fields {
        let value = zero_within(alloc, types, blank, field.of, depth)?;
        parts.push(Part {
            value,
            blank: is_named(blank, field.name),
        })?;
    }
    Value::parts(alloc, parts)
}

#[cycle(zero)]
fn zero_parts(
    alloc: Global,
    types: &Types,
    blank: Option<NameId>,
    ids: &[TypeId],
    depth: usize,
) -> Result<Value, NoMemory>
    ensures { IfOk result (λ zero. all_parts (parts_by (zero_to depth types.now blank) (λ _. false) ids.now) ≡ Some (value_of zero)) }
{
    let mut parts = Vec::new(alloc);
    for id in ids {
        let value = zero_within(alloc, types, blank, *id, depth)?;
        parts.push(Part::plain(value))?;
    }
    Value::parts(alloc, parts)
}

/// Whether a name is the one that is told.
fn is_named(told: Option<NameId>, name: NameId) -> bool
    ensures { result ≡ is_name told name }
{
    match told {
        Some(told) => told.number == name.number,
        None => false,
    }
}

/// An array of one value.
fn repeated(alloc: Global, value: &Value, len: u64) -> Result<Value, NoMemory>
    ensures { IfOk result (λ array. value_of array ≡ array_of len (value_of value.now)) }
{
    let mut parts = Vec::new(alloc);
    'parts: for _ in 0..len {
        parts.push(Part::plain(value.copy(alloc)?))?;
    }
    Value::parts(alloc, parts)
}

/// The zero value of a type without parts.
fn zero_leaf(alloc: Global, term: &TypeTerm) -> Result<Value, NoMemory>
    ensures { IfOk result (λ zero. zero_of_term (λ _. None) None (Some term.now) ≡ Some (value_of zero)) }
{
    match term {
        TypeTerm::Basic(basic) => zero_basic(alloc, *basic),
        TypeTerm::Pointer(_) => Ok(Value::Pointer(Address::nil())),
        TypeTerm::Slice(_) => Value::slice(alloc, SliceValue::nil(alloc)),
        TypeTerm::Map { .. } => Ok(Value::Map(None)),
        TypeTerm::Chan { .. } => Ok(Value::Chan(None)),
        TypeTerm::Func(_) => Value::function(alloc, FuncValue::Nil),
        TypeTerm::Interface(_) => Ok(Value::NilInterface),
        _ => Err(lost()),
    }
}

fn zero_basic(alloc: Global, basic: Basic) -> Result<Value, NoMemory>
    ensures { IfOk result (λ zero. zero_of_basic basic ≡ Some (value_of zero)) }
{
    match basic {
        Basic::Bool | Basic::UntypedBool => Ok(Value::Truth(false)),
        Basic::Text | Basic::UntypedText => Value::text(alloc, Bytes::new(Vec::new(alloc))),
        Basic::UntypedNil => Err(lost()),
        _ => Ok(Value::Int(0)),
    }
}

/// The zero value of the type of a value.
pub fn zero_like(alloc: Global, value: &Value) -> Result<Value, NoMemory>
    ensures { IfOk result (λ zero_value. value_of zero_value ≡ zeroed (value_of value.now)) }
{
    zero_of(alloc, value)
}

#[cycle(zero_like)]
fn zero_of(alloc: Global, value: &Value) -> Result<Value, NoMemory>
    ensures { IfOk result (λ zero_value. value_of zero_value ≡ zeroed (value_of value.now)) }
{
    match value {
        Value::Parts(parts) => zeros_of(alloc, parts.as_slice()),
        _ => zero_of_leaf(alloc, value),
    }
}

#[cycle(zero_like)]
fn zeros_of(alloc: Global, parts: &[Part]) -> Result<Value, NoMemory>
    ensures { IfOk result (λ zero_value. value_of zero_value ≡ vals.parts (zeroed_parts (parts_of parts.now))) }
{
    let mut zeros = Vec::new(alloc);
    for part in parts {
        let value = zero_of(alloc, &part.value)?;
        zeros.push(Part {
            value,
            blank: part.blank,
        })?;
    }
    Value::parts(alloc, zeros)
}

fn zero_of_leaf(alloc: Global, value: &Value) -> Result<Value, NoMemory>
    ensures { IfOk result (λ zero_value. value_of zero_value ≡ zeroed (value_of value.now)) }
{
    match value {
        Value::Truth(_) => Ok(Value::Truth(false)),
        Value::Int(_) => Ok(Value::Int(0)),
        Value::Text(_) => Value::text(alloc, Bytes::new(Vec::new(alloc))),
        Value::Pointer(_) => Ok(Value::Pointer(Address::nil())),
        Value::Slice(_) => Value::slice(alloc, SliceValue::nil(alloc)),
        Value::Map(_) => Ok(Value::Map(None)),
        Value::Chan(_) => Ok(Value::Chan(None)),
        Value::Func(_) => Value::function(alloc, FuncValue::Nil),
        Value::NilInterface | Value::Interface(_) => Ok(Value::NilInterface),
        Value::Parts(_) | Value::Iter(_) => Err(lost()),
    }
}
