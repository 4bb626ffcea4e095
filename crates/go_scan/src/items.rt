//! The characters and escapes that runes and strings hold. Go specification, "Rune literals", "String literals".

ghost use Rattle.std.specs.Prelude.{◌≡◌, ◌≤◌, ◌<◌, length, Some, None, IfSome, option_map, nat_lt};
ghost use Rattle.go_ast.specs.Literals.{fixed_digits, named_escape, escape, character, item, if_passes, is_code_point, is_one_byte, item_of};
ghost use Rattle.go_scan.specs.Reading.{view_item, reading};

use crate::integers::digit_value;
use crate::marks::first;
use bstr::decode_utf8;

/// What stands at the head of a text: a character or an escape.
#[derive(Clone, Copy)]
pub struct Item {
    /// Its bytes.
    pub width: usize,
    /// Its code point, or the byte that it names.
    pub value: u32,
    /// Whether it names a byte.
    pub is_byte: bool,
}

/// How a text is read.
#[derive(Clone, Copy)]
pub enum Reading {
    /// As characters alone.
    Plain,
    /// As characters and escapes, in quotes of this byte.
    Quoted(u8),
}

/// The value of the first digits of a text, where they are digits of a base.
fn fixed_digits(base: u8, count: usize, text: &[u8]) -> Option<u32>
    requires base { base ≤ 16 }
    requires count { count ≤ 8 }
    ensures { result ≡ fixed_digits base count 0 text.now }
{
    if text.len() < count {
        return None;
    }
    let mut value = 0;
    for index in 0..count {
        let digit = digit_value(text[index]);
        if digit >= base {
            return None;
        }
        value = value * base as u32 + digit as u32;
    }
    Some(value)
}

/// A code point: at most 10FFFF, and no surrogate.
fn code_point(value: Option<u32>) -> Option<u32>
    ensures { result ≡ if_passes is_code_point value }
{
    value.filter(|value| *value < 0xD800 || (0xDFFF < *value && *value < 0x11_0000))
}

/// A value that one byte holds.
fn one_byte(value: Option<u32>) -> Option<u32>
    ensures { result ≡ if_passes is_one_byte value }
{
    value.filter(|value| *value < 256)
}

/// What a letter behind a backslash stands for, in quotes of this byte.
fn named_escape(quote: u8, letter: u8) -> Option<u32>
    ensures { result ≡ named_escape quote letter }
{
    let value = match letter {
        b'a' => 7,
        b'b' => 8,
        b'f' => 12,
        b'n' => 10,
        b'r' => 13,
        b't' => 9,
        b'v' => 11,
        b'\\' => b'\\',
        _ if letter == quote => quote,
        _ => return None,
    };
    Some(value as u32)
}

/// An item of these bytes, where it has a value.
fn item_of(width: usize, is_byte: bool, value: Option<u32>) -> Option<Item>
    ensures { option_map view_item result ≡ item_of width is_byte value }
{
    Some(Item {
        width,
        value: value?,
        is_byte,
    })
}

/// The escape that stands behind a backslash, its backslash counted.
fn escape(quote: u8, text: &[u8]) -> Option<Item>
    ensures { option_map view_item result ≡ escape quote text.now }
{
    let (letter, digits) = text.split_first()?;
    match *letter {
        b'x' => item_of(4, true, fixed_digits(16, 2, digits)),
        b'u' => item_of(6, false, code_point(fixed_digits(16, 4, digits))),
        b'U' => item_of(10, false, code_point(fixed_digits(16, 8, digits))),
        b'0'..=b'7' => item_of(4, true, one_byte(fixed_digits(8, 3, text))),
        _ => item_of(2, false, named_escape(quote, *letter)),
    }
}

/// The character at the head of a text. None where it is no character, or NUL, or a byte order mark.
pub fn character(text: &[u8]) -> Option<Item>
    ensures { option_map view_item result ≡ character text.now }
{
    let (found, width) = decode_utf8(text);
    let c = found?;
    if c == '\0' || c == '\u{FEFF}' {
        return None;
    }
    Some(Item {
        width,
        value: c as u32,
        is_byte: false,
    })
}

/// The character or escape at the head of a text in quotes of this byte.
pub fn quoted_item(quote: u8, text: &[u8]) -> Option<Item>
    ensures { option_map view_item result ≡ item quote text.now }
{
    match text {
        [b'\\', behind @ ..] => escape(quote, behind),
        _ => character(text),
    }
}

/// The item at the head of a text.
pub fn read(how: Reading, text: &[u8]) -> Option<Item>
    ensures value { option_map view_item result ≡ reading how text.now }
    ensures within { IfSome result (λ it. (1 ≤ it.width) × (it.width ≤ length text.now)) }
{
    match how {
        Reading::Plain => character(text),
        Reading::Quoted(quote) => quoted_item(quote, text),
    }
}
