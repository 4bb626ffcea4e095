//! The texts of characters. Go specification, "Conversions to and from a string type".

use go_base::{Bytes, NoMemory};
use std::alloc::Global;

/// The text of a character, by its number; that of U+FFFD where it is none.
pub fn text_of_rune(alloc: Global, number: i128) -> Result<Bytes, NoMemory> {
    let character = match u32::try_from(number) {
        Ok(number) => char::from_u32(number),
        Err(_) => None,
    };
    let mut text = String::new(alloc);
    text.push(character.unwrap_or('\u{fffd}'))?;
    Ok(Bytes::new(text.into_bytes()))
}
