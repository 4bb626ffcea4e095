//! The values of literals. Go specification, "Integer literals", "Rune literals", "String literals".

use crate::error::lost;
use go_ast::Kind;
use go_base::{Bytes, NoMemory};
use go_scan::{int_value, is_literal, rune_value, string_value};
use go_type::Const;
use std::alloc::Global;

/// The value of an integer literal. None where it is past the greatest.
pub fn int_constant(text: &[u8]) -> Result<Option<Const>, NoMemory> {
    if !is_literal(Kind::Int, text) {
        return Err(lost());
    }
    match int_value(text) {
        Some(number) => Ok(Some(Const::Int(number))),
        None => Ok(None),
    }
}

/// The value of a rune literal.
pub fn rune_constant(text: &[u8]) -> Result<Const, NoMemory> {
    if !is_literal(Kind::Rune, text) {
        return Err(lost());
    }
    Ok(Const::Rune(i128::from(rune_value(text))))
}

/// The value of a string literal.
pub fn text_value(alloc: Global, text: &[u8]) -> Result<Bytes, NoMemory> {
    if !is_literal(Kind::Text, text) {
        return Err(lost());
    }
    string_value(alloc, text)
}
