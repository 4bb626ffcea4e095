//! The values of rune and string literals. Go specification, "Rune literals", "String literals".

ghost use Rattle.std.specs.Prelude.{◌≡◌, ◌≤◌, ◌==◌, drop, length, unwrap_or, ◌++◌, not, IfOk, OnOk, Some, filter, flat_map};
ghost use Rattle.go_ast.specs.Literals.{rune_value, string_value, inside, item, item_rests, bytes_of, width_of};
ghost use Rattle.go_ast.specs.Pieces.{IsLiteral};
ghost use Rattle.go_ast.specs.declared.token.Kind.TheVariants as kinds;
ghost use Rattle.go_scan.specs.Reading.{view_item};

use crate::items::{Item, Reading, read};
use crate::marks::first;
use go_base::{Bytes, NoMemory};
use std::alloc::Global;

/// The value of a rune literal: its code point, or the byte that it names.
pub fn rune_value(bytes: &[u8]) -> u32
    requires { IsLiteral kinds.Rune bytes.now }
    ensures { result ≡ rune_value bytes.now }
{
    match read(Reading::Quoted(b'\''), behind_first(bytes)) {
        Some(item) => item.value,
        None => 0,
    }
}

/// What stands behind the first byte of a text.
fn behind_first(text: &[u8]) -> &[u8]
    ensures { result.now ≡ drop 1 text.now }
{
    match text {
        [_, behind @ ..] => behind,
        [] => text,
    }
}

/// What stands between the quotes of a literal.
fn inside(text: &[u8]) -> &[u8]
    ensures { result.now ≡ inside text.now }
{
    match text {
        [_, inner @ .., _] => inner,
        _ => &[],
    }
}

/// The bytes of a raw string between its quotes, without carriage returns.
#[tactic(auto, using(crate::proofs::RestLaws::raw_turns))]
fn raw_value(alloc: Global, inner: &[u8]) -> Result<Vec<u8>, NoMemory>
    ensures { IfOk result (λ value. value.items ≡ filter (λ byte. not (byte == 13)) inner.now) }
{
    let mut value = Vec::new(alloc);
    for byte in inner {
        if *byte != b'\r' {
            value.push(*byte)?;
        }
    }
    Ok(value)
}

/// Adds what an item puts in a string.
fn push_item(value: &mut Vec<u8>, rest: &[u8], found: Item) -> Result<(), NoMemory>
    requires { item 34 rest.now ≡ Some (view_item found) }
    ensures { OnOk result (value.new.items ≡ value.old.items ++ bytes_of rest.now (Some (view_item found))) }
{
    if found.is_byte {
        value.push(found.value as u8)?;
    } else if first(rest) != b'\\' {
        value.extend_from_slice(&rest[..found.width])?;
    } else if let Some(c) = char::from_u32(found.value) {
        let mut buffer = [0; 4];
        value.extend_from_slice(c.encode_utf8(&mut buffer).as_bytes())?;
    }
    Ok(())
}

/// Adds what the item at the head of a text puts in a string, and gives its bytes. A byte that begins no item, which no
/// literal has, is passed.
fn push_first(value: &mut Vec<u8>, rest: &[u8]) -> Result<usize, NoMemory>
    requires { 1 ≤ length rest.now }
    ensures least { IfOk result (λ width. 1 ≤ width) }
    ensures within { IfOk result (λ width. width ≤ length rest.now) }
    ensures width { IfOk result (λ width. width ≡ unwrap_or (width_of (item 34 rest.now)) 1) }
    ensures pushed { OnOk result (value.new.items ≡ value.old.items ++ bytes_of rest.now (item 34 rest.now)) }
{
    match read(Reading::Quoted(b'"'), rest) {
        Some(found) => {
            push_item(value, rest, found)?;
            Ok(found.width)
        }
        None => Ok(1),
    }
}

/// The bytes of an interpreted string between its quotes.
fn interpreted_value(alloc: Global, inner: &[u8]) -> Result<Vec<u8>, NoMemory>
    ensures { IfOk result (λ value. value.items ≡ flat_map (λ rest. bytes_of rest (item 34 rest)) (item_rests (item 34) inner.now)) }
{
    let mut value = Vec::new(alloc);
    let mut at = 0;
    while at < inner.len() {
        at += push_first(&mut value, &inner[at..])?;
    }
    Ok(value)
}

/// The value of a string literal.
pub fn string_value(alloc: Global, bytes: &[u8]) -> Result<Bytes, NoMemory>
    requires { IsLiteral kinds.Text bytes.now }
    ensures { IfOk result (λ value. value ≡ string_value bytes.now) }
{
    let inner = inside(bytes);
    let value = if first(bytes) == b'`' {
        raw_value(alloc, inner)?
    } else {
        interpreted_value(alloc, inner)?
    };
    Ok(Bytes::new(value))
}
