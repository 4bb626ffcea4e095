//! What is shown of values.

use go_base::NoMemory;
use go_value::Value;
use std::alloc::Global;
use value_texts::push_printed;

/// Adds what is shown of a value: what `print` writes, that in an interface in brackets, and parts each behind a space,
/// those of fields named `_` with that too.
pub fn push_shown(text: &mut Vec<u8>, value: &Value) -> Result<(), NoMemory> {
    match value {
        Value::Truth(_) | Value::Int(_) | Value::Text(_) => push_printed(text, value)?,
        Value::Interface(dynamic) => {
            text.push(b'[')?;
            push_printed(text, dynamic.value())?;
            text.push(b']')?;
        }
        Value::Parts(parts) => {
            for part in parts.as_slice() {
                text.extend_from_slice(if part.blank { b" _" } else { b" " })?;
                push_printed(text, &part.value)?;
            }
        }
        Value::Pointer(at) => text.push(if at.is_nil() { b'-' } else { b'&' })?,
        Value::Slice(slice) => text.push(if slice.is_nil() { b'-' } else { b'@' })?,
        Value::Map(map) => text.push(if map.is_none() { b'-' } else { b'm' })?,
        Value::Chan(chan) => text.push(if chan.is_none() { b'-' } else { b'c' })?,
        Value::Func(_) => text.push(b'f')?,
        Value::NilInterface => text.push(b'0')?,
        Value::Iter(_) => text.push(b'i')?,
    }
    Ok(())
}

pub fn shown(alloc: Global, value: &Value) -> Result<Vec<u8>, NoMemory> {
    let mut text = Vec::new(alloc);
    push_shown(&mut text, value)?;
    Ok(text)
}
