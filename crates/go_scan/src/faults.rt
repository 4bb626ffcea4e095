//! Faults inside pieces.

ghost use Rattle.std.specs.Prelude.{◌≡◌, option_map, Some, None, IfOk, IfErr, length};
ghost use Rattle.go_ast.specs.Pieces.{bad_rule, stray_rule, fault_at, rune_fault, at_start, fault_of_class};
ghost use Rattle.go_ast.specs.Literals.{first_bad, item_rests};
ghost use Rattle.go_scan.specs.Reading.{reading, view_fault, view_class};

use crate::integers::is_integer;
use crate::items::{Reading, character, read};
use crate::marks::first;
use crate::pieces::Class;
use go_base::Rule;

/// A place in a text, in bytes from its start, and the rule that is broken there.
#[derive(Clone, Copy)]
pub struct Fault {
    pub at: usize,
    pub rule: Rule,
}

/// How many items a text holds, or the first fault of one.
fn count_items(how: Reading, text: &[u8]) -> Result<usize, Fault>
    ensures none { IfOk result (λ count. first_bad (reading how) text.now ≡ None) }
    ensures count { IfOk result (λ count. length (item_rests (reading how) text.now) ≡ count) }
    ensures fault { IfErr result (λ fault. fault_at text.now (first_bad (reading how) text.now) ≡ Some (view_fault fault)) }
{
    let mut at = 0;
    let mut count = 0;
    while at < text.len() {
        let rest = &text[at..];
        let Some(item) = read(how, rest) else {
            return Err(Fault {
                at,
                rule: bad_rule(rest),
            });
        };
        at += item.width;
        count += 1;
    }
    Ok(count)
}

/// The rule that is broken where no item begins.
fn bad_rule(rest: &[u8]) -> Rule
    ensures { result ≡ bad_rule rest.now }
{
    if first(rest) == b'\\' {
        Rule::BadEscape
    } else {
        Rule::InvalidSourceByte
    }
}

/// The rule that is broken where no piece begins.
pub fn stray_rule(rest: &[u8]) -> Rule
    ensures { result ≡ stray_rule rest.now }
{
    if character(rest).is_none() {
        Rule::InvalidSourceByte
    } else {
        Rule::UnexpectedCharacter
    }
}

/// The first fault of an item.
fn bad_item(how: Reading, text: &[u8]) -> Option<Fault>
    ensures { option_map view_fault result ≡ fault_at text.now (first_bad (reading how) text.now) }
{
    count_items(how, text).err()
}

/// The fault of a rune literal that is closed: it holds one item between its quotes.
fn rune_fault(text: &[u8]) -> Option<Fault>
    ensures { option_map view_fault result ≡ rune_fault text.now }
{
    match count_items(Reading::Quoted(b'\''), text) {
        Ok(3) => None,
        Ok(_) => at_start(Rule::BadRuneLiteral),
        Err(fault) => Some(fault),
    }
}

/// A fault at the start of a piece.
fn at_start(rule: Rule) -> Option<Fault>
    ensures { option_map view_fault result ≡ at_start rule }
{
    Some(Fault { at: 0, rule })
}

/// The fault of a piece, which is closed or not.
pub fn fault_of(class: Class, closed: bool, text: &[u8]) -> Option<Fault>
    ensures { option_map view_fault result ≡ fault_of_class (view_class class) closed text.now }
{
    match class {
        Class::Space | Class::Mark | Class::Word => None,
        Class::LineComment => bad_item(Reading::Plain, text),
        Class::Numeral if is_integer(text) => None,
        Class::Numeral => at_start(Rule::NotAnIntegerLiteral),
        Class::GeneralComment if closed => bad_item(Reading::Plain, text),
        Class::GeneralComment => at_start(Rule::CommentNotClosed),
        Class::RuneLiteral if closed => rune_fault(text),
        Class::RuneLiteral => at_start(Rule::BadRuneLiteral),
        Class::StringLiteral if closed => bad_item(Reading::Quoted(b'"'), text),
        Class::RawLiteral if closed => bad_item(Reading::Plain, text),
        Class::StringLiteral | Class::RawLiteral => at_start(Rule::StringLiteralNotClosed),
    }
}
