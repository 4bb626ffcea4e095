//! Values from words.

use crate::answers::sound;
use crate::table::{ANY, ARRAY, BAG, COUNT, ERROR_STRING, FUNC, HOLDER, INTS, LABEL, PAIR};
use go_base::{Bytes, NoMemory, TypeId};
use go_type::{Basic, Types, basic};
use go_value::{FuncValue, Part, SliceValue, Value, to_interface};
use std::alloc::Global;

/// The value of a line of words, which are operations of a stack. `5` is an integer and `'a` a string; `nil` is the nil
/// interface, `slice` and `func` are nil; `one` is a struct of the last value, `two` of the last two, `blank` of these
/// with a last field named `_`; a type makes an interface of the last value.
pub fn made(alloc: Global, types: &Types, line: &str) -> Result<Value, NoMemory> {
    let mut stack = Vec::new(alloc);
    for word in line.split_whitespace() {
        let value = match word.as_bytes() {
            [b'\'', text @ ..] => Value::text(alloc, bytes(alloc, text)?)?,
            [digit @ b'0'..=b'9'] => Value::Int(i128::from(digit.wrapping_sub(b'0'))),
            _ => named(alloc, types, &mut stack, word)?,
        };
        stack.push(value)?;
    }
    stack.pop().ok_or(NoMemory)
}

fn named(
    alloc: Global,
    types: &Types,
    stack: &mut Vec<Value>,
    word: &str,
) -> Result<Value, NoMemory> {
    match word {
        "nil" => Ok(Value::NilInterface),
        "true" => Ok(Value::Truth(true)),
        "slice" => Value::slice(alloc, SliceValue::nil(alloc)),
        "func" => Value::function(alloc, FuncValue::Nil),
        "one" => parts(alloc, None, stack.pop(), false),
        "two" | "blank" => {
            let last = stack.pop();
            parts(alloc, stack.pop(), last, word == "blank")
        }
        _ => {
            let value = stack.pop().ok_or(NoMemory)?;
            sound(to_interface(alloc, types, type_named(word), value))
        }
    }
}

pub fn parts(
    alloc: Global,
    first: Option<Value>,
    last: Option<Value>,
    blank: bool,
) -> Result<Value, NoMemory> {
    let mut parts = Vec::new(alloc);
    if let Some(value) = first {
        parts.push(Part::plain(value))?;
    }
    if let Some(value) = last {
        parts.push(Part { value, blank })?;
    }
    Value::parts(alloc, parts)
}

fn type_named(word: &str) -> TypeId {
    match word {
        "int8" => basic(Basic::Int8),
        "string" => basic(Basic::Text),
        "bool" => basic(Basic::Bool),
        "ints" => INTS,
        "pair" => PAIR,
        "holder" => HOLDER,
        "bag" => BAG,
        "any" => ANY,
        "function" => FUNC,
        "array" => ARRAY,
        "count" => COUNT,
        "label" => LABEL,
        "errorString" => ERROR_STRING,
        _ => basic(Basic::Int),
    }
}

pub fn bytes(alloc: Global, text: &[u8]) -> Result<Bytes, NoMemory> {
    Ok(Bytes::new(Vec::from_slice(alloc, text)?))
}
