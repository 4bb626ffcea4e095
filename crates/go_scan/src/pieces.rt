//! The piece at the head of a text: white space, a comment or a token. Go specification, "Lexical elements".

ghost use Rattle.std.specs.Prelude.{◌≡◌, ◌≤◌, ◌+◌, ◌^◌, ◌<◌, true, false, length, IfOk, IfErr, IsTrue};
ghost use Rattle.go_ast.specs.Pieces.{class_of, kind_of_class, IsLiteral};
ghost use Rattle.go_scan.specs.Reach.{ending};
ghost use Rattle.go_ast.specs.Lexical.{IsFaultOf};
ghost use Rattle.go_scan.specs.Reading.{ending_of, view_class, view_fault, behind};
ghost use Rattle.go_scan.specs.Scanning.{IsFound};

use crate::characters::{Run, begins_with_letter, run_length};
use crate::endings::{Ending, comment_ending, line_length, quoted_ending, raw_ending};
use crate::faults::{Fault, fault_of, stray_rule};
use crate::marks::{first, mark_kind, mark_length, second};
use crate::words::word_kind;
use go_ast::Kind;

/// What a text may begin with, as its first two bytes tell.
#[derive(Clone, Copy)]
pub enum Class {
    Space,
    LineComment,
    GeneralComment,
    Mark,
    Word,
    Numeral,
    RuneLiteral,
    StringLiteral,
    RawLiteral,
}

/// A piece without a fault.
#[derive(Clone, Copy)]
pub struct Piece {
    /// Its bytes.
    pub length: usize,
    /// The token that it is; white space and comments are none.
    pub kind: Option<Kind>,
}

/// What a text may begin with.
fn class_of(text: &[u8]) -> Class
    ensures { view_class result ≡ class_of text.now }
{
    match (first(text), second(text)) {
        (b' ' | b'\t' | b'\r' | b'\n', _) => Class::Space,
        (b'/', b'/') => Class::LineComment,
        (b'/', b'*') => Class::GeneralComment,
        (b'0'..=b'9', _) | (b'.', b'0'..=b'9') => Class::Numeral,
        (b'\'', _) => Class::RuneLiteral,
        (b'"', _) => Class::StringLiteral,
        (b'`', _) => Class::RawLiteral,
        (b'A'..=b'Z' | b'a'..=b'z' | b'_' | 0x80.., _) => Class::Word,
        _ => Class::Mark,
    }
}

/// An ending behind the bytes that open a piece.
fn ending_behind(opening: usize, ending: Ending) -> Ending
    requires { opening + ending.length < 2 ^ 64 }
    ensures { result ≡ behind opening ending }
{
    Ending {
        length: opening + ending.length,
        closed: ending.closed,
    }
}

/// The ending of a piece that needs no end.
fn whole(length: usize) -> Ending
    ensures { result ≡ ending length true }
{
    Ending {
        length,
        closed: true,
    }
}

/// How far the longest piece of a class reaches, which begins a text that is not empty. No bytes where there is none.
fn ending_of(class: Class, text: &[u8]) -> Ending
    requires class { view_class class ≡ class_of text.now }
    requires room { 1 ≤ length text.now }
    ensures { result ≡ ending_of (view_class class) text.now }
{
    match class {
        Class::Space => whole(1),
        Class::LineComment => whole(line_length(text)),
        Class::GeneralComment => ending_behind(2, comment_ending(&text[2..])),
        Class::Mark => whole(mark_length(text)),
        Class::Word if !begins_with_letter(text) => whole(0),
        Class::Word => whole(run_length(Run::Name, text)),
        Class::Numeral => whole(run_length(Run::Numeral, text)),
        Class::RuneLiteral => ending_behind(1, quoted_ending(b'\'', &text[1..])),
        Class::StringLiteral => ending_behind(1, quoted_ending(b'"', &text[1..])),
        Class::RawLiteral => ending_behind(1, raw_ending(&text[1..])),
    }
}

/// The token that a piece is.
fn kind_of(class: Class, text: &[u8]) -> Option<Kind>
    ensures { result ≡ kind_of_class (view_class class) text.now }
{
    match class {
        Class::Space | Class::LineComment | Class::GeneralComment => None,
        Class::Mark => mark_kind(text),
        Class::Word => Some(word_kind(text)),
        Class::Numeral => Some(Kind::Int),
        Class::RuneLiteral => Some(Kind::Rune),
        Class::StringLiteral | Class::RawLiteral => Some(Kind::Text),
    }
}

/// The longest piece at the head of a text that is not empty, or its first fault.
pub fn read_piece(text: &[u8]) -> Result<Piece, Fault>
    requires { 1 ≤ length text.now }
    ensures found { IfOk result (λ piece. IsFound text.now piece) }
    ensures fault { IfErr result (λ fault. IsFaultOf text.now (view_fault fault)) }
    ensures place { IfErr result (λ fault. fault.at ≤ length text.now) }
{
    let class = class_of(text);
    let ending = ending_of(class, text);
    if ending.length == 0 {
        return Err(Fault {
            at: 0,
            rule: stray_rule(text),
        });
    }
    let spelled = &text[..ending.length];
    match fault_of(class, ending.closed, spelled) {
        Some(fault) => Err(fault),
        None => Ok(Piece {
            length: ending.length,
            kind: kind_of(class, spelled),
        }),
    }
}

/// Whether a piece is a token of this kind.
fn is_kind(found: Option<Kind>, kind: Kind) -> bool
    ensures same { IsTrue result → found ≡ Some kind }
    ensures other { found ≡ Some kind → IsTrue result }
{
    match found {
        Some(found) => found == kind,
        None => false,
    }
}

/// Whether a text is a literal of this kind: one piece without a fault.
pub fn is_literal(kind: Kind, text: &[u8]) -> bool
    ensures sound { IsTrue result → IsLiteral kind text.now }
    ensures complete { IsLiteral kind text.now → IsTrue result }
{
    if text.is_empty() {
        return false;
    }
    match read_piece(text) {
        Ok(piece) => piece.length == text.len() && is_kind(piece.kind, kind),
        Err(_) => false,
    }
}
