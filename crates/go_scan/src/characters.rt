//! Letters, digits, and runs of them. Go specification, "Letters and digits".

ghost use Rattle.std.specs.Prelude.{◌≡◌, is_some};
ghost use Rattle.go_ast.specs.Characters.{is_letter, is_digit, is_capital, is_exported, passing};
ghost use Rattle.go_scan.specs.Reach.{run_length};
ghost use Rattle.go_scan.specs.Runs.{allows};

use bstr::decode_utf8;
use unicode::properties::{GeneralCategory, GeneralCategoryGroup};

/// What a run of characters may hold.
#[derive(Clone, Copy)]
pub enum Run {
    /// Letters and digits, as in a name.
    Name,
    /// Letters, digits and `.`, as in a numeral.
    Numeral,
}

/// Whether a character is a letter: of the categories Lu, Ll, Lt, Lm or Lo, or `_`.
pub fn is_letter(c: char) -> bool
    ensures { result ≡ is_letter c }
{
    c == '_' || GeneralCategoryGroup::Letter.contains(GeneralCategory::for_char(c))
}

/// Whether a character is a digit: of the category Nd.
pub fn is_digit(c: char) -> bool
    ensures { result ≡ is_digit c }
{
    GeneralCategory::for_char(c) == GeneralCategory::DecimalNumber
}

/// Whether a character is a capital: of the category Lu.
fn is_capital(c: char) -> bool
    ensures { result ≡ is_capital c }
{
    GeneralCategory::for_char(c) == GeneralCategory::UppercaseLetter
}

/// Whether a name is exported: a capital begins it. Go specification, "Exported identifiers".
pub fn is_exported(name: &[u8]) -> bool
    ensures { result ≡ is_exported name.now }
{
    match decode_utf8(name) {
        (Some(c), _) => is_capital(c),
        (None, _) => false,
    }
}

/// Whether a run may hold a character.
pub fn allows(run: Run, c: char) -> bool
    ensures { result ≡ allows run c }
{
    match run {
        Run::Name => is_letter(c) || is_digit(c),
        Run::Numeral => c == '.' || is_letter(c) || is_digit(c),
    }
}

/// Whether a letter begins a text.
pub fn begins_with_letter(text: &[u8]) -> bool
    ensures { result ≡ is_some (passing is_letter text.now) }
{
    match decode_utf8(text) {
        (Some(c), _) => is_letter(c),
        (None, _) => false,
    }
}

/// The bytes of the character at the head of a text, where a run may hold it.
fn run_step(run: Run, text: &[u8]) -> Option<usize>
    ensures { result ≡ passing (allows run) text.now }
{
    match decode_utf8(text) {
        (Some(c), width) if allows(run, c) => Some(width),
        _ => None,
    }
}

/// The bytes of the longest run at the head of a text.
pub fn run_length(run: Run, text: &[u8]) -> usize
    ensures { result ≡ run_length (passing (allows run)) 0 text.now }
{
    let mut at = 0;
    while let Some(width) = run_step(run, &text[at..]) {
        at += width;
    }
    at
}
