//! Token lists and values from the Go specification, and a text for each kind of lexical rule.

use go_ast::{Kind, Token};
use go_base::{Bytes, NoMemory, Rule};
use go_scan::{ScanError, int_value, is_exported, is_literal, rune_value, scan, string_value};
use std::alloc::Global;
use std::test::Fail;

/// Whether tokens have these kinds, starts and ends.
fn are_tokens(tokens: &[Token], want: &[(Kind, u32, u32)]) -> bool {
    for (token, (kind, start, end)) in tokens.iter().zip(want) {
        if (token.kind, token.start, token.end) != (*kind, *start, *end) {
            return false;
        }
    }
    tokens.len() == want.len()
}

/// The tokens of the text below.
const TOKENS: &[(Kind, u32, u32)] = &[
    (Kind::Name, 3, 4),
    (Kind::AndNotAssign, 5, 8),
    (Kind::Name, 9, 10),
    (Kind::ShiftLeft, 10, 12),
    (Kind::Int, 13, 14),
    (Kind::Inserted, 14, 14),
    (Kind::Ellipsis, 22, 25),
    (Kind::Dot, 25, 26),
    (Kind::Name, 26, 31),
    (Kind::CloseBrace, 32, 33),
    (Kind::Inserted, 33, 33),
];

#[test]
fn a_text_is_cut(rt: HostRuntime) -> Result<(), Fail> {
    let text = "\u{FEFF}a &^= b<< 1 // x\n \t....été }";
    let tokens = scan(rt.alloc(), 0, text.as_bytes())?;
    assert!(rt; are_tokens(tokens.as_slice(), TOKENS));
    Ok(())
}

/// A text, and the offset and the rule of its refusal.
const REFUSALS: &[(&[u8], u32, Rule)] = &[
    (b"a \xFF", 2, Rule::InvalidSourceByte),
    (b"a # b", 2, Rule::UnexpectedCharacter),
    (b"a /* x", 2, Rule::CommentNotClosed),
    (b"1.5", 0, Rule::NotAnIntegerLiteral),
    (b"'ab'", 0, Rule::BadRuneLiteral),
    (b"\"\\400\"", 1, Rule::BadEscape),
    (b"s = \"ab", 4, Rule::StringLiteralNotClosed),
];

/// The refusal of a text, as the offset and the rule.
fn refusal(alloc: Global, bytes: &[u8]) -> Option<(u32, Rule)> {
    if bytes.len() > 1000 {
        return None;
    }
    match scan(alloc, 0, bytes) {
        Err(ScanError::Refused { offset, rule }) => Some((offset, rule)),
        _ => None,
    }
}

#[test]
fn refusals(rt: HostRuntime) {
    for (text, offset, rule) in REFUSALS {
        assert_eq!(rt;
            refusal(rt.alloc(), text),
            Some((*offset, *rule)),
            "{text:?}"
        );
    }
}

fn integer(text: &str) -> Option<i128> {
    if is_literal(Kind::Int, text.as_bytes()) {
        int_value(text.as_bytes())
    } else {
        None
    }
}

#[test]
fn values_of_integers(rt: HostRuntime) {
    for (text, value) in [("4_2", 42), ("0600", 384), ("0xBad_Face", 0xBAD_FACE)] {
        assert_eq!(rt; integer(text), Some(value), "{text}");
    }
}

fn rune(text: &str) -> Option<u32> {
    if is_literal(Kind::Rune, text.as_bytes()) {
        Some(rune_value(text.as_bytes()))
    } else {
        None
    }
}

#[test]
fn values_of_runes(rt: HostRuntime) {
    for (text, value) in [("'本'", 0x672C), (r"'\377'", 255), (r"'\u12e4'", 0x12E4)] {
        assert_eq!(rt; rune(text), Some(value), "{text}");
    }
}

fn string(alloc: Global, text: &str) -> Result<Option<Bytes>, NoMemory> {
    if is_literal(Kind::Text, text.as_bytes()) {
        Ok(Some(string_value(alloc, text.as_bytes())?))
    } else {
        Ok(None)
    }
}

/// String literals, and their values.
const STRINGS: &[(&str, &str)] = &[
    ("`a\r\nb\r`", "a\nb"),
    (r#""\u65e5本\U00008a9e\"\n""#, "日本語\"\n"),
];

#[test]
fn values_of_strings(rt: HostRuntime) -> Result<(), Fail> {
    for (text, value) in STRINGS {
        let found = string(rt.alloc(), text)?.ok_or("no literal")?;
        assert_eq!(rt; found.as_slice(), value.as_bytes(), "{text}");
    }
    Ok(())
}

#[test]
fn exported_names(rt: HostRuntime) {
    assert!(rt; is_exported("Été".as_bytes()));
    assert!(rt; !is_exported(b"_X"));
}
