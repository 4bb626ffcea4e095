//! The tables, and how deep a file may nest.

use crate::tables::{DECLARATIONS, EXPRESSIONS, FILES, STATEMENTS, TYPES};
use go_parse::{ParseError, parse};
use go_scan::scan;
use std::alloc::Global;
use std::test::Fail;

/// The token at which a text is refused, where it is.
fn refusal(alloc: Global, text: &str) -> Result<Option<usize>, Fail> {
    if text.len() > 1_000 {
        return Err("too long".into());
    }
    let tokens = scan(alloc, 0, text.as_bytes())?;
    match parse(alloc, &tokens) {
        Ok(_) => Ok(None),
        Err(ParseError::Unexpected { index } | ParseError::TooDeep { index }) => Ok(Some(index)),
        Err(error) => Err(Fail::from(error)),
    }
}

#[test]
fn files(rt: HostRuntime) -> Result<(), Fail> {
    for (text, want) in FILES {
        assert_eq!(rt; refusal(rt.alloc(), text)?, *want, "{text}");
    }
    Ok(())
}

/// The first row whose text, between this front and back of a file, is not read or refused as the row has it.
fn first_wrong(
    alloc: Global,
    table: &[(&'static str, bool)],
    front: &str,
    back: &str,
) -> Result<Option<&'static str>, Fail> {
    for (text, accepted) in table {
        let want = if *accepted { None } else { Some(3) };
        let file = format!(in alloc; "package p; {front}{text}{back}")?;
        if refusal(alloc, file.as_str())? != want {
            return Ok(Some(text));
        }
    }
    Ok(None)
}

#[test]
fn parts_of_files(rt: HostRuntime) -> Result<(), Fail> {
    let alloc = rt.alloc();
    assert_eq!(rt; first_wrong(alloc, DECLARATIONS, "", "")?, None);
    assert_eq!(rt; first_wrong(alloc, TYPES, "var x ", "")?, None);
    assert_eq!(rt; first_wrong(alloc, EXPRESSIONS, "var x = ", "")?, None);
    assert_eq!(rt; first_wrong(alloc, STATEMENTS, "func f() { ", " }")?, None);
    Ok(())
}

/// A variable whose value stands in so many pairs of parentheses.
fn nested(alloc: Global, pairs: usize) -> Result<String, Fail> {
    let mut text = String::from_str(alloc, "package p; var x = ")?;
    for _ in 0..pairs {
        text.push_str("(")?;
    }
    text.push_str("1")?;
    for _ in 0..pairs {
        text.push_str(")")?;
    }
    Ok(text)
}

#[test]
fn reach(rt: HostRuntime) -> Result<(), Fail> {
    for (pairs, want) in [(396, None), (397, Some(403))] {
        let text = nested(rt.alloc(), pairs)?;
        assert_eq!(rt; refusal(rt.alloc(), text.as_str())?, want, "{pairs}");
    }
    Ok(())
}
