//! Numbers and quoted strings.

ghost use Rattle.std.specs.Prelude.{◌≡◌, ◌++◌, ◌<◌, OnOk, decimal};
ghost use Rattle.std.specs.Fmt.{signed_decimal};
ghost use Rattle.go_text.specs.Quoted.{quoted_text, quoted_bytes, quoted_byte, hex_digit};

use go_base::NoMemory;
use itoa::Buffer;

/// An integer in decimal.
pub fn push_int(text: &mut Vec<u8>, value: i128) -> Result<(), NoMemory>
    ensures { OnOk result (text.new.items ≡ text.old.items ++ signed_decimal value) }
{
    let mut buffer = Buffer::new();
    text.extend_from_slice(buffer.format(value).as_bytes())?;
    Ok(())
}

/// A number in decimal.
pub fn push_number(text: &mut Vec<u8>, value: u64) -> Result<(), NoMemory>
    ensures { OnOk result (text.new.items ≡ text.old.items ++ decimal value) }
{
    let mut buffer = Buffer::new();
    text.extend_from_slice(buffer.format(value).as_bytes())?;
    Ok(())
}

/// Bytes between quotes. Those from 32 to 126 stand as they are, but for `\"` and `\\`, and all others as `\x` with two
/// digits.
pub fn push_quoted(text: &mut Vec<u8>, bytes: &[u8]) -> Result<(), NoMemory>
    ensures { OnOk result (text.new.items ≡ text.old.items ++ quoted_text bytes.now) }
{
    text.push(b'"')?;
    push_bytes(text, bytes)?;
    text.push(b'"')?;
    Ok(())
}

fn push_bytes(text: &mut Vec<u8>, bytes: &[u8]) -> Result<(), NoMemory>
    ensures { OnOk result (text.new.items ≡ text.old.items ++ quoted_bytes bytes.now) }
{
    for byte in bytes {
        push_byte(text, *byte)?;
    }
    Ok(())
}

fn push_byte(text: &mut Vec<u8>, byte: u8) -> Result<(), NoMemory>
    ensures { OnOk result (text.new.items ≡ text.old.items ++ quoted_byte byte) }
{
    match byte {
        b'"' => text.extend_from_slice(b"\\\"")?,
        b'\\' => text.extend_from_slice(b"\\\\")?,
        32..=126 => text.push(byte)?,
        _ => text.extend_from_slice(&[b'\\', b'x', hex(byte / 16), hex(byte % 16)])?,
    }
    Ok(())
}

/// A digit below 16, in lower case.
fn hex(digit: u8) -> u8
    ensures { digit < 16 → result ≡ hex_digit digit }
{
    match digit {
        0..=9 => b'0' + digit,
        10..=15 => b'a' + (digit - 10),
        _ => b'?',
    }
}
