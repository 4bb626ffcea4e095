//! Basic literals. Go specification, "Integer literals", "Rune literals", "String literals".

use crate::error::lost;
use go_ast::{Kind, Token};
use go_base::NoMemory;
use go_scan::{int_value, is_literal, rune_value, string_value};
use go_scope::Scope;
use go_sources::SourceFile;
use std::alloc::Global;
use typed_parts::{Seen, integer_literal, rune_literal, text_literal};

/// An integer, rune or string literal.
pub(crate) fn literal_of_token(
    alloc: Global,
    source: &SourceFile,
    scope: &mut Scope,
    token: Token,
) -> Result<Seen, NoMemory> {
    let at = scope.pos(token.start);
    let text = source.text(token);
    match token.kind {
        Kind::Int if is_literal(Kind::Int, text) => {
            let expr = integer_literal(scope.ground(), at, int_value(text));
            Ok(Seen::value(at, expr))
        }
        Kind::Rune if is_literal(Kind::Rune, text) => {
            let expr = rune_literal(at, i128::from(rune_value(text)));
            Ok(Seen::value(at, Some(expr)))
        }
        Kind::Text if is_literal(Kind::Text, text) => {
            let expr = text_literal(at, string_value(alloc, text)?);
            Ok(Seen::value(at, Some(expr)))
        }
        _ => Err(lost()),
    }
}
