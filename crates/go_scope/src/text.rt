//! The texts of names.

use crate::error::lost;
use go_ast::Token;
use go_base::NoMemory;
use go_sources::SourceFile;

/// The text of a token that is a name.
pub(crate) fn text_of(source: &SourceFile, token: Token) -> Result<&str, NoMemory> {
    match std::str::from_utf8(source.text(token)) {
        Ok(text) => Ok(text),
        Err(_) => Err(lost()),
    }
}

/// The text between two offsets.
pub(crate) fn text_at(bytes: &[u8], start: u32, end: u32) -> Result<&str, NoMemory> {
    let (start, end) = (start as usize, end as usize);
    if start > end || end > bytes.len() {
        return Err(lost());
    }
    match std::str::from_utf8(&bytes[start..end]) {
        Ok(text) => Ok(text),
        Err(_) => Err(lost()),
    }
}

/// The end of the name that begins at an offset. In a file without a lexical fault a character that is no part of the name
/// behind it is one of ASCII.
pub(crate) fn name_end(bytes: &[u8], start: u32) -> u32 {
    let Some(rest) = bytes.get(start as usize..) else {
        return start;
    };
    let mut end = start;
    for byte in rest {
        let is_part = *byte >= 0x80 || byte.is_ascii_alphanumeric() || *byte == b'_';
        if !is_part {
            return end;
        }
        end = end.saturating_add(1);
    }
    end
}
