//! Code points in texts. Go specification, "Conversions to and from a string type" and "For statements with range
//! clause".

ghost use Rattle.std.specs.Prelude.{◌≡◌, ◌<◌, ◌++◌, length, drop, IfOk, OnErr};
ghost use Rattle.go_value.specs.Runes.{IsFirstRune, rune_of, rune_bytes};

use bstr::decode_utf8;
use go_base::{Bytes, NoMemory};
use std::alloc::Global;

/// The code point at a place in a text, and how many bytes it has. Where no code point stands there it is U+FFFD, and
/// one byte.
pub fn decode_rune(bytes: &[u8], at: usize) -> (u32, u8)
    requires { at < length bytes.now }
    ensures { IsFirstRune (drop at bytes.now) result.0 result.1 }
{
    match decode_utf8(&bytes[at..]) {
        (Some(c), width) => (c as u32, width as u8),
        (None, _) => (0xFFFD, 1),
    }
}

/// Adds the bytes of a code point. An integer that is none counts as U+FFFD. After `NoMemory` the bytes are as before.
pub fn push_rune(bytes: &mut Vec<u8>, value: i128) -> Result<(), NoMemory>
    ensures ok { IfOk result (λ _. bytes.new.items ≡ bytes.old.items ++ rune_bytes value) }
    ensures err { OnErr result (bytes.new.items ≡ bytes.old.items) }
{
    let mut buffer = [0u8; 4];
    let text = rune_of(value).encode_utf8(&mut buffer);
    bytes.extend_from_slice(text.as_bytes())?;
    Ok(())
}

fn rune_of(value: i128) -> char
    ensures { result ≡ rune_of value }
{
    match u32::try_from(value) {
        Ok(number) => char::from_u32(number).unwrap_or('\u{FFFD}'),
        Err(_) => '\u{FFFD}',
    }
}

/// The text of a code point. Of an integer that is none it is that of U+FFFD.
pub fn text_of_int(alloc: Global, value: i128) -> Result<Bytes, NoMemory>
    ensures { IfOk result (λ text. text ≡ rune_bytes value) }
{
    let mut bytes = Vec::new(alloc);
    push_rune(&mut bytes, value)?;
    Ok(Bytes::new(bytes))
}
