//! The scan of a whole file.

ghost use Rattle.go_base.specs.declared.line.TheConstants.{MAX_FILE_BYTES};
ghost use Rattle.std.specs.Prelude.{◌≡◌, ◌+◌, ◌++◌, ◌<◌, ◌≤◌, ◌^◌, length, IfOk, IfErr, OnOk};
ghost use Rattle.go_ast.specs.Lexical.{ends_line, inserted, tokens_of, place_after, mark_width, IsTokenList};
ghost use Rattle.go_scan.specs.Scanning.{view_place, IsRefusal, IsWithin};

use crate::faults::Fault;
use crate::pieces::{Piece, read_piece};
use go_ast::{Kind, Token, Tokens};
use go_base::{NoMemory, Rule};
use std::alloc::Global;
use thiserror::Error;

/// Why a file has no tokens.
#[derive(Clone, Copy, Debug, PartialEq, Eq, Error)]
pub enum ScanError {
    /// A rule is broken at this byte of the file, from 0.
    #[error("{}", rule.text())]
    Refused { offset: u32, rule: Rule },
    /// There is no memory left.
    #[error("out of memory")]
    OutOfMemory,
}

impl From<NoMemory> for ScanError {
    ghost use Rattle.go_scan.specs.declared.scanner.ScanError.TheVariants.{OutOfMemory};

    ghost from_gives = { λ _ e. e ≡ OutOfMemory };

    fn from(_: NoMemory) -> ScanError {
        ScanError::OutOfMemory
    }
}

/// How far tokens have come.
#[derive(Clone, Copy)]
struct Place {
    /// The byte behind the last piece.
    at: u32,
    /// The byte behind the last token.
    last: u32,
    /// Whether a semicolon is put in where the line ends.
    wanted: bool,
}

/// Whether a semicolon is put in where a line ends behind a token. Go specification, "Semicolons".
fn ends_line(kind: Kind) -> bool
    ensures { result ≡ ends_line kind }
{
    matches!(
        kind,
        Kind::Name
            | Kind::Int
            | Kind::Rune
            | Kind::Text
            | Kind::BreakWord
            | Kind::ContinueWord
            | Kind::FallthroughWord
            | Kind::ReturnWord
            | Kind::Increment
            | Kind::Decrement
            | Kind::CloseParen
            | Kind::CloseBracket
            | Kind::CloseBrace
    )
}

/// Puts in the semicolon of a line's end, where one is wanted.
fn end_line(tokens: &mut Tokens, place: Place) -> Result<(), NoMemory>
    ensures { OnOk result (tokens.new ≡ tokens.old ++ inserted place.wanted place.last) }
{
    if place.wanted {
        tokens.push(Token {
            kind: Kind::Inserted,
            start: place.last,
            end: place.last,
        })?;
    }
    Ok(())
}

/// Adds the tokens that a piece brings, and gives the place behind it.
fn add_piece(
    tokens: &mut Tokens,
    place: Place,
    text: &[u8],
    kind: Option<Kind>,
) -> Result<Place, NoMemory>
    requires { place.at + length text.now < 2 ^ 32 }
    ensures tokens { OnOk result (tokens.new ≡ tokens.old ++ tokens_of (view_place place) text.now kind) }
    ensures place { IfOk result (λ next. view_place next ≡ place_after (view_place place) text.now kind) }
{
    let end = place.at + text.len() as u32;
    match kind {
        Some(kind) => {
            tokens.push(Token {
                kind,
                start: place.at,
                end,
            })?;
            Ok(Place {
                at: end,
                last: end,
                wanted: ends_line(kind),
            })
        }
        None if text.contains(&b'\n') => {
            end_line(tokens, place)?;
            Ok(Place {
                at: end,
                last: place.last,
                wanted: false,
            })
        }
        None => Ok(Place { at: end, ..place }),
    }
}

/// The bytes of a byte order mark at the start of a file.
fn mark_width(bytes: &[u8]) -> u32
    ensures { result ≡ mark_width bytes.now }
{
    if bytes.starts_with(b"\xEF\xBB\xBF") {
        3
    } else {
        0
    }
}

/// The refusal of a fault in the piece at a place.
fn refused(at: u32, fault: Fault) -> ScanError
    requires { at + fault.at < 2 ^ 32 }
    ensures { result ≡ ScanError.Refused (at + fault.at) fault.rule }
{
    ScanError::Refused {
        offset: at + fault.at as u32,
        rule: fault.rule,
    }
}

/// Cuts the bytes of a file into tokens, with the semicolons of its lines put in.
///
/// `Refused` names the first place where the bytes cannot be cut, in bytes from 0, and the rule that is broken there.
/// The number of the file, from 0, is free: the answer speaks of bytes alone.
pub fn scan(alloc: Global, file: u32, bytes: &[u8]) -> Result<Tokens, ScanError>
    requires { length bytes.now ≤ MAX_FILE_BYTES }
    ensures tokens { IfOk result (λ tokens. IsTokenList bytes.now tokens) }
    ensures refused { IfErr result (λ error. IsRefusal bytes.now error) }
    ensures within { IfErr result (λ error. IsWithin bytes.now error) }
{
    let mut tokens = Tokens::new(alloc);
    let start = mark_width(bytes);
    let mut place = Place {
        at: start,
        last: start,
        wanted: false,
    };
    while (place.at as usize) < bytes.len() {
        let rest = &bytes[place.at as usize..];
        place = match read_piece(rest) {
            Ok(piece) => add_piece(&mut tokens, place, &rest[..piece.length], piece.kind)?,
            Err(fault) => return Err(refused(place.at, fault)),
        };
    }
    end_line(&mut tokens, place)?;
    Ok(tokens)
}
