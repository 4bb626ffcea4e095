//! Integer literals. Go specification, "Integer literals".

ghost use Rattle.std.specs.Prelude.{◌≡◌, ◌≤◌, ◌<◌, ◌^◌, ◌-◌, ◌*◌, ◌+◌, true, false, pos, Some, None, nat_lt, if◌then◌else◌, option_map};
ghost use Rattle.std.specs.Char.{digit_value};
ghost use Rattle.go_ast.specs.Literals.{named_base, base_of, digits_of, are_digits, is_integer, int_value};
ghost use Rattle.go_ast.specs.Pieces.{IsLiteral};
ghost use Rattle.go_ast.specs.declared.token.Kind.TheVariants as kinds;
ghost use Rattle.go_scan.specs.Reach.{limited};

use crate::marks::{first, second};

/// The greatest value of an integer literal, 2^127 - 1.
const GREATEST: u128 = 0x7FFF_FFFF_FFFF_FFFF_FFFF_FFFF_FFFF_FFFF;

/// What a digit of a base up to 36 is worth, or 36.
pub fn digit_value(byte: u8) -> u8
    ensures { result ≡ digit_value byte }
{
    match byte {
        b'0'..=b'9' => byte - b'0',
        b'A'..=b'Z' => byte - b'A' + 10,
        b'a'..=b'z' => byte - b'a' + 10,
        _ => 36,
    }
}

/// The base that `0b`, `0o` or `0x` names at the head of a numeral, or 0.
fn named_base(text: &[u8]) -> u8
    ensures { result ≡ named_base text.now }
{
    if first(text) != b'0' {
        return 0;
    }
    match second(text) {
        b'b' | b'B' => 2,
        b'o' | b'O' => 8,
        b'x' | b'X' => 16,
        _ => 0,
    }
}

/// The base of a numeral.
fn base_of(text: &[u8]) -> u8
    ensures value { result ≡ base_of text.now }
    ensures least { 1 ≤ result }
    ensures greatest { result ≤ 16 }
{
    let named = named_base(text);
    if named != 0 {
        named
    } else if first(text) == b'0' {
        8
    } else {
        10
    }
}

/// The digits of a numeral, behind its prefix and one `_` there.
fn digits_of(text: &[u8]) -> &[u8]
    ensures { result.now ≡ digits_of text.now }
{
    if named_base(text) == 0 {
        return text;
    }
    match text {
        [_, _, b'_', digits @ ..] => digits,
        [_, _, digits @ ..] => digits,
        _ => text,
    }
}

/// Whether a text is digits of a base with single `_` between them.
#[tactic(auto, using(crate::proofs::Steps::digits_after_steps))]
fn are_digits(base: u8, text: &[u8]) -> bool
    ensures { result ≡ are_digits base text.now }
{
    let mut after = false;
    for byte in text {
        if *byte == b'_' {
            if !after {
                return false;
            }
            after = false;
        } else {
            if digit_value(*byte) >= base {
                return false;
            }
            after = true;
        }
    }
    after
}

/// Whether a numeral is an integer literal.
pub fn is_integer(text: &[u8]) -> bool
    ensures { result ≡ is_integer text.now }
{
    are_digits(base_of(text), digits_of(text))
}

/// A value with one more digit. None exactly where it passes 2^127 - 1.
fn with_digit(value: u128, base: u8, digit: u8) -> Option<u128>
    requires below { value < 2 ^ 127 }
    ensures value { result ≡ limited (value * base + digit) }
{
    let value = value.checked_mul(base as u128)?.checked_add(digit as u128)?;
    if value > GREATEST { None } else { Some(value) }
}

/// The value of an integer literal. None exactly where it is above 2^127 - 1.
pub fn int_value(bytes: &[u8]) -> Option<i128>
    requires { IsLiteral kinds.Int bytes.now }
    ensures { result ≡ option_map (λ value. pos value) (limited (int_value bytes.now)) }
{
    let base = base_of(bytes);
    let digits = digits_of(bytes);
    let mut value: u128 = 0;
    for byte in digits {
        if *byte != b'_' {
            value = with_digit(value, base, digit_value(*byte))?;
        }
    }
    Some(value as i128)
}
