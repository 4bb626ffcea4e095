//! What `print` writes. Go specification, "Bootstrapping".

ghost use Rattle.std.specs.Prelude.{◌≡◌, ◌++◌, OnOk};
ghost use Rattle.go_value.specs.Values.{value_of};
ghost use Rattle.value_texts.specs.Texts.{printed};

use go_base::NoMemory;
use go_value::Value;
use itoa::Buffer;

/// Adds what `print` writes of a boolean, an integer or a text. Of any other value it adds nothing.
pub fn push_printed(text: &mut Vec<u8>, value: &Value) -> Result<(), NoMemory>
    ensures { OnOk result (text.new.items ≡ text.old.items ++ printed (value_of value.now)) }
{
    match value {
        Value::Truth(true) => text.extend_from_slice(b"true")?,
        Value::Truth(false) => text.extend_from_slice(b"false")?,
        Value::Int(number) => {
            let mut buffer = Buffer::new();
            text.extend_from_slice(buffer.format(*number).as_bytes())?;
        }
        Value::Text(bytes) => text.extend_from_slice(bytes.as_slice())?,
        _ => {}
    }
    Ok(())
}
